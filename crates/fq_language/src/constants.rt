//! Comparisons of constants, which are allowed and seldom meant.
use crate::hints::Hint;
use crate::plans::{Plan, Step};
use crate::words::binary_word;
use fq_column::Memory;
use fq_csv::kind_word;
use fq_expr::{Binary, Expr, RowStep};
use fq_places::Quoted;
use std::alloc::Global;
use std::fmt;
use std::fmt::{Display, Formatter, Write};

/// A comparison of two constants in a step of a plan, such as `["eq", "t", "a"]`, where a column may be meant: `["eq", {"col": "t"}, "a"]`.
/// Its text says so.
#[derive(Clone, Copy)]
pub struct ConstantComparison<'a> {
    step: usize,
    op: Binary,
    left: &'a Expr,
    right: &'a Expr,
}

impl Plan {
    /// The comparisons of two constants in the steps, in order. `Memory` if an allocation fails.
    pub fn constant_comparisons(
        &self,
        alloc: Global,
    ) -> Result<Vec<ConstantComparison<'_>>, Memory> {
        let mut found = Vec::new(alloc);
        for (step, it) in self.steps.iter().enumerate() {
            match it {
                Step::Rows(RowStep::Filter(condition)) => find_in(step, condition, &mut found)?,
                Step::Rows(RowStep::WithColumns(outputs) | RowStep::Select(outputs)) => {
                    for (_, expression) in outputs.iter() {
                        find_in(step, expression, &mut found)?;
                    }
                }
                Step::Join { .. } | Step::GroupBy { .. } | Step::RollingSum { .. } => {}
            }
        }
        Ok(found)
    }
}

impl Display for ConstantComparison<'_> {
    fn fmt<W: Write>(&self, f: &mut Formatter<W>) -> fmt::Result {
        let (step, word) = (self.step, binary_word(self.op));
        write!(f, "step {step}: [\"{word}\", ")?;
        write_constant(f, self.left)?;
        f.write_str(", ")?;
        write_constant(f, self.right)?;
        let hint = Hint::of(&[self.left, self.right], None);
        write!(f, "] compares two constants{hint}")
    }
}

// Writes a constant as a plan has it.
fn write_constant<W: Write>(f: &mut Formatter<W>, constant: &Expr) -> fmt::Result {
    match constant {
        Expr::Whole(number) => write!(f, "{number}"),
        Expr::Text(text) => write!(f, "{}", Quoted(text.as_str().as_bytes())),
        Expr::Truth(truth) => write!(f, "{truth}"),
        Expr::Null(kind) => write!(f, "{{\"null\": \"{}\"}}", kind_word(*kind)),
        _ => Ok(()),
    }
}

// Finds the comparisons of two constants in an expression of a step.
fn find_in<'a>(
    step: usize,
    expression: &'a Expr,
    found: &mut Vec<ConstantComparison<'a>>,
) -> Result<(), Memory> {
    match expression {
        Expr::Two(op, left, right) if compares(*op) && is_constant(left) && is_constant(right) => {
            let op = *op;
            found.push(ConstantComparison {
                step,
                op,
                left,
                right,
            })?;
            Ok(())
        }
        Expr::Two(_, left, right) => {
            find_in(step, left, found)?;
            find_in(step, right, found)
        }
        Expr::One(_, part) => find_in(step, part, found),
        _ => Ok(()),
    }
}

// Whether an operation compares.
fn compares(op: Binary) -> bool {
    matches!(
        op,
        Binary::Eq
            | Binary::Ne
            | Binary::Lt
            | Binary::Le
            | Binary::Gt
            | Binary::Ge
            | Binary::EqMissing
    )
}

// Whether an expression is a constant.
fn is_constant(expression: &Expr) -> bool {
    matches!(
        expression,
        Expr::Null(_) | Expr::Whole(_) | Expr::Text(_) | Expr::Truth(_)
    )
}
