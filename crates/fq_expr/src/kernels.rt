//! The operators of expressions, on operands of any kind.
ghost use Rattle.std.specs.Prelude.{◌≡◌, map, IfOk, IsOk, Ok};
ghost use Rattle.fq_column.specs.Column.{cells_of};
ghost use Rattle.fq_column.specs.Lists.{before_missing, zip_with};
ghost use Rattle.fq_expr.specs.Comparison.{answer_for, sameness_of, filled};
ghost use Rattle.fq_expr.specs.Kinds.{unary_kind, binary_kind};
ghost use Rattle.fq_expr.specs.Operand.{kind_in_rows, AnyHasRows, cells_in_rows};
ghost use Rattle.fq_expr.specs.Value.{of_wholes, compared, unary_value, binary_value};

use crate::arithmetic::{Add, Arithmetic, Arithmetically, FloorDiv, Mod, Mul, Sub};
use crate::comparison::{Comparison, FillNull, Sameness};
use crate::expressions::{Binary, Unary};
use crate::logic::{And, Or};
use crate::operands::{AnyOperand, Operand, nulls};
use crate::operations::{Operation, run};
use fq_column::{Kind, Memory, Values};
use std::alloc::Global;

/// An operation on one operand, over its first `rows` rows up to the first where it faults.
pub fn unary(
    alloc: Global,
    op: Unary,
    rows: usize,
    operand: &AnyOperand<'_>,
) -> Result<Values, Memory>
    requires has_rows { AnyHasRows rows operand.now }
    requires kind { IsOk (unary_kind op (kind_in_rows operand.now)) }
    ensures kind { IfOk result (λ values. unary_kind op (kind_in_rows operand.now) ≡ Ok (cells_of values).kind) }
    ensures cells { IfOk result (λ values. (cells_of values).cells
        ≡ before_missing (map (unary_value op) (cells_in_rows rows operand.now))) }
{
    match op {
        Unary::Neg => {
            let zero = AnyOperand::Whole(Operand::Scalar(Some(&0)));
            arithmetic(alloc, Sub, rows, &zero, operand)
        }
        Unary::Not => {
            let no = AnyOperand::Truth(Operand::Scalar(Some(&false)));
            comparison(
                alloc,
                &Comparison::of(false, true, false),
                rows,
                operand,
                &no,
            )
        }
        Unary::IsNull => sameness(alloc, true, rows, operand, &nulls(operand.kind())),
        Unary::IsNotNull => sameness(alloc, false, rows, operand, &nulls(operand.kind())),
    }
}

/// An operation on two operands, over their first `rows` rows up to the first where it faults.
pub fn binary(
    alloc: Global,
    op: Binary,
    rows: usize,
    left: &AnyOperand<'_>,
    right: &AnyOperand<'_>,
) -> Result<Values, Memory>
    requires left_rows { AnyHasRows rows left.now }
    requires right_rows { AnyHasRows rows right.now }
    requires kind { IsOk (binary_kind op (kind_in_rows left.now) (kind_in_rows right.now)) }
    ensures kind { IfOk result (λ values. binary_kind op (kind_in_rows left.now) (kind_in_rows right.now) ≡ Ok (cells_of values).kind) }
    ensures cells { IfOk result (λ values. (cells_of values).cells
        ≡ before_missing (zip_with (binary_value op) (cells_in_rows rows left.now) (cells_in_rows rows right.now))) }
{
    match op {
        Binary::Add => arithmetic(alloc, Add, rows, left, right),
        Binary::Sub => arithmetic(alloc, Sub, rows, left, right),
        Binary::Mul => arithmetic(alloc, Mul, rows, left, right),
        Binary::FloorDiv => arithmetic(alloc, FloorDiv, rows, left, right),
        Binary::Mod => arithmetic(alloc, Mod, rows, left, right),
        Binary::Eq => comparison(
            alloc,
            &Comparison::of(false, true, false),
            rows,
            left,
            right,
        ),
        Binary::Ne => comparison(alloc, &Comparison::of(true, false, true), rows, left, right),
        Binary::Lt => comparison(
            alloc,
            &Comparison::of(true, false, false),
            rows,
            left,
            right,
        ),
        Binary::Le => comparison(alloc, &Comparison::of(true, true, false), rows, left, right),
        Binary::Gt => comparison(
            alloc,
            &Comparison::of(false, false, true),
            rows,
            left,
            right,
        ),
        Binary::Ge => comparison(alloc, &Comparison::of(false, true, true), rows, left, right),
        Binary::EqMissing => sameness(alloc, true, rows, left, right),
        Binary::And => logic(alloc, &And, rows, left, right),
        Binary::Or => logic(alloc, &Or, rows, left, right),
        Binary::FillNull => fill_null(alloc, rows, left, right),
    }
}

// Arithmetic of two operands of whole numbers.
fn arithmetic<F: Arithmetic>(
    alloc: Global,
    operation: F,
    rows: usize,
    left: &AnyOperand<'_>,
    right: &AnyOperand<'_>,
) -> Result<Values, Memory>
    requires left_kind { kind_in_rows left.now ≡ Kind.Whole }
    requires right_kind { kind_in_rows right.now ≡ Kind.Whole }
    requires left_rows { AnyHasRows rows left.now }
    requires right_rows { AnyHasRows rows right.now }
    ensures kind { IfOk result (λ values. (cells_of values).kind ≡ Kind.Whole) }
    ensures cells { IfOk result (λ values. (cells_of values).cells
        ≡ before_missing (zip_with (of_wholes (F.gives operation)) (cells_in_rows rows left.now) (cells_in_rows rows right.now))) }
{
    match (left, right) {
        (AnyOperand::Whole(left), AnyOperand::Whole(right)) => {
            Ok(Values::Whole(run(alloc, &Arithmetically(operation), rows, left, right)?))
        }
        _ => unreachable!(),
    }
}

// A comparison of two operands of one kind.
fn comparison(
    alloc: Global,
    test: &Comparison,
    rows: usize,
    left: &AnyOperand<'_>,
    right: &AnyOperand<'_>,
) -> Result<Values, Memory>
    requires kinds { kind_in_rows left.now ≡ kind_in_rows right.now }
    requires left_rows { AnyHasRows rows left.now }
    requires right_rows { AnyHasRows rows right.now }
    ensures kind { IfOk result (λ values. (cells_of values).kind ≡ Kind.Truth) }
    ensures cells { IfOk result (λ values. (cells_of values).cells
        ≡ before_missing (zip_with (compared (answer_for test.now)) (cells_in_rows rows left.now) (cells_in_rows rows right.now))) }
{
    let answers = match (left, right) {
        (AnyOperand::Whole(left), AnyOperand::Whole(right)) => run(alloc, test, rows, left, right)?,
        (AnyOperand::Text(left), AnyOperand::Text(right)) => run(alloc, test, rows, left, right)?,
        (AnyOperand::Truth(left), AnyOperand::Truth(right)) => run(alloc, test, rows, left, right)?,
        _ => unreachable!(),
    };
    Ok(Values::Truth(answers))
}

// Whether the values of two operands of one kind are the same, or whether they differ.
fn sameness(
    alloc: Global,
    answer: bool,
    rows: usize,
    left: &AnyOperand<'_>,
    right: &AnyOperand<'_>,
) -> Result<Values, Memory>
    requires kinds { kind_in_rows left.now ≡ kind_in_rows right.now }
    requires left_rows { AnyHasRows rows left.now }
    requires right_rows { AnyHasRows rows right.now }
    ensures kind { IfOk result (λ values. (cells_of values).kind ≡ Kind.Truth) }
    ensures cells { IfOk result (λ values. (cells_of values).cells
        ≡ before_missing (zip_with (sameness_of answer) (cells_in_rows rows left.now) (cells_in_rows rows right.now))) }
{
    let test = Sameness { answer };
    let answers = match (left, right) {
        (AnyOperand::Whole(left), AnyOperand::Whole(right)) => run(
            alloc, &test, rows, left, right,
        )?,
        (AnyOperand::Text(left), AnyOperand::Text(right)) => run(alloc, &test, rows, left, right)?,
        (AnyOperand::Truth(left), AnyOperand::Truth(right)) => run(
            alloc, &test, rows, left, right,
        )?,
        _ => unreachable!(),
    };
    Ok(Values::Truth(answers))
}

// Kleene's logic of two operands of truth values.
fn logic<O: Operation<bool, bool, bool>>(
    alloc: Global,
    operation: &O,
    rows: usize,
    left: &AnyOperand<'_>,
    right: &AnyOperand<'_>,
) -> Result<Values, Memory>
    requires left_kind { kind_in_rows left.now ≡ Kind.Truth }
    requires right_kind { kind_in_rows right.now ≡ Kind.Truth }
    requires left_rows { AnyHasRows rows left.now }
    requires right_rows { AnyHasRows rows right.now }
    ensures kind { IfOk result (λ values. (cells_of values).kind ≡ Kind.Truth) }
    ensures cells { IfOk result (λ values. (cells_of values).cells
        ≡ before_missing (zip_with (O.gives operation.now) (cells_in_rows rows left.now) (cells_in_rows rows right.now))) }
{
    match (left, right) {
        (AnyOperand::Truth(left), AnyOperand::Truth(right)) => {
            Ok(Values::Truth(run(alloc, operation, rows, left, right)?))
        }
        _ => unreachable!(),
    }
}

// The values of the left operand, or those of the right one if the left is null.
fn fill_null(
    alloc: Global,
    rows: usize,
    left: &AnyOperand<'_>,
    right: &AnyOperand<'_>,
) -> Result<Values, Memory>
    requires kinds { kind_in_rows left.now ≡ kind_in_rows right.now }
    requires left_rows { AnyHasRows rows left.now }
    requires right_rows { AnyHasRows rows right.now }
    ensures kind { IfOk result (λ values. (cells_of values).kind ≡ kind_in_rows left.now) }
    ensures cells { IfOk result (λ values. (cells_of values).cells
        ≡ before_missing (zip_with filled (cells_in_rows rows left.now) (cells_in_rows rows right.now))) }
{
    match (left, right) {
        (AnyOperand::Whole(left), AnyOperand::Whole(right)) => {
            Ok(Values::Whole(run(alloc, &FillNull, rows, left, right)?))
        }
        (AnyOperand::Text(left), AnyOperand::Text(right)) => {
            Ok(Values::Text(run(alloc, &FillNull, rows, left, right)?))
        }
        (AnyOperand::Truth(left), AnyOperand::Truth(right)) => {
            Ok(Values::Truth(run(alloc, &FillNull, rows, left, right)?))
        }
        _ => unreachable!(),
    }
}
