//! The values of an expression over the rows of a batch.
ghost use Rattle.std.specs.Prelude.{◌≡◌, ◌≤◌, map, take, length, IfOk, IsOk, Ok};
ghost use Rattle.fq_column.specs.Frame.{value_named};
ghost use Rattle.fq_column.specs.Lists.{before_missing, first_missing};
ghost use Rattle.fq_column.specs.Schema.{kind_named};
ghost use Rattle.fq_expr.specs.Kinds.{kind_of, unary_kind, binary_kind};
ghost use Rattle.fq_expr.specs.ExpressionData.{expression_of};
ghost use Rattle.fq_expr.specs.Operand.{kind_in_rows, AnyHasRows, cells_in_rows};
ghost use Rattle.fq_expr.specs.Evaluated.{IsOutcome, IsUnaryOutcome, IsBinaryOutcome};
ghost use Rattle.fq_expr.specs.Value.{value_of};

use crate::expressions::{Binary, Expr, Unary};
use crate::kernels::{binary, unary};
use crate::operands::{AnyOperand, Operand, Outcome, borrowed, nulls, owned};
use fq_column::{Batch, Column, Memory};
use std::alloc::Global;

/// The values of an expression in the rows of a batch before the first that faults, and that row.
///
/// Column by column: each operation is one loop; a column that is only read and a literal are not copied.
pub fn eval(alloc: Global, expr: &Expr, batch: &Batch) -> Result<(Column, Option<usize>), Memory>
    requires { IsOk (kind_of batch.now.fields (expression_of expr.now)) }
    ensures kind { IfOk result (λ r. kind_of batch.now.fields (expression_of expr.now) ≡ Ok r.0.kind) }
    ensures values { let values = map (value_of batch.now.fields (expression_of expr.now)) batch.now.rows in
        IfOk result (λ r. r.0.cells ≡ before_missing values) }
    ensures fault { let values = map (value_of batch.now.fields (expression_of expr.now)) batch.now.rows in
        IfOk result (λ r. r.1 ≡ first_missing values) }
{
    let outcome = expr.evaluate(alloc, batch, batch.rows())?;
    let fault = (outcome.rows < batch.rows()).then_some(outcome.rows);
    Ok((outcome.into_column(alloc)?, fault))
}

impl Expr {
    /// The values of the expression in the first `rows` rows of a batch.
    pub(crate) fn evaluate<'a>(
        &'a self,
        alloc: Global,
        batch: &'a Batch,
        rows: usize,
    ) -> Result<Outcome<'a>, Memory>
        requires kind { IsOk (kind_of batch.now.fields (expression_of self.now)) }
        requires rows { rows ≤ length batch.now.rows }
        ensures outcome { IfOk result (IsOutcome batch.now.fields (expression_of self.now) (take rows batch.now.rows)) }
        ensures rows { IfOk result (λ outcome. outcome.rows ≤ rows) }
    {
        match self {
            Expr::Col(name) => Ok(Outcome {
                operand: named(batch, name.as_str()),
                rows,
            }),
            Expr::Null(kind) => Ok(Outcome {
                operand: nulls(*kind),
                rows,
            }),
            Expr::Whole(number) => Ok(Outcome {
                operand: AnyOperand::Whole(Operand::Scalar(Some(number))),
                rows,
            }),
            Expr::Text(text) => Ok(Outcome {
                operand: AnyOperand::Text(Operand::Scalar(Some(text))),
                rows,
            }),
            Expr::Truth(truth) => Ok(Outcome {
                operand: AnyOperand::Truth(Operand::Scalar(Some(truth))),
                rows,
            }),
            Expr::One(op, part) => {
                let part = part.evaluate(alloc, batch, rows)?;
                apply_one(alloc, *op, part)
            }
            Expr::Two(op, left, right) => {
                let left = left.evaluate(alloc, batch, rows)?;
                let right = right.evaluate(alloc, batch, left.rows)?;
                apply_two(alloc, *op, left, right)
            }
        }
    }
}

// An operation on the values of one expression.
fn apply_one<'a>(alloc: Global, op: Unary, part: Outcome<'a>) -> Result<Outcome<'a>, Memory>
    requires has_rows { AnyHasRows part.rows part.operand }
    requires kind { IsOk (unary_kind op (kind_in_rows part.operand)) }
    ensures { IfOk result (IsUnaryOutcome op part.entry) }
{
    Ok(owned(unary(alloc, op, part.rows, &part.operand)?))
}

// An operation on the values of two expressions, in the rows that the right one has.
fn apply_two<'a>(
    alloc: Global,
    op: Binary,
    left: Outcome<'a>,
    right: Outcome<'a>,
) -> Result<Outcome<'a>, Memory>
    requires left_rows { AnyHasRows right.rows left.operand }
    requires right_rows { AnyHasRows right.rows right.operand }
    requires kind { IsOk (binary_kind op (kind_in_rows left.operand) (kind_in_rows right.operand)) }
    ensures { IfOk result (IsBinaryOutcome op left.entry right.entry) }
{
    let values = binary(alloc, op, right.rows, &left.operand, &right.operand)?;
    Ok(owned(values))
}

// The column of a name, with no copy.
fn named<'a>(batch: &'a Batch, name: &str) -> AnyOperand<'a>
    requires { IsOk (kind_named batch.now.fields name.now) }
    ensures kind { kind_named batch.now.fields name.now ≡ Ok (kind_in_rows result) }
    ensures rows { AnyHasRows (length batch.now.rows) result }
    ensures cells { cells_in_rows (length batch.now.rows) result ≡ map (value_named batch.now.fields name.now) batch.now.rows }
{
    match batch.schema().position(name) {
        Some(i) => borrowed(batch.column(i)),
        None => unreachable!(),
    }
}
