//! What a refusal of an expression is about.
use crate::hints::Hint;
use crate::reasons::{Explained, bail};
use crate::refusals::columns::explain_column;
use crate::words::{binary_word, unary_word};
use fq_column::Schema;
use fq_csv::kind_word;
use fq_expr::{Binary, Expr, Unary};
use std::alloc::Global;

/// Nothing if an expression has a kind, or what is wrong with its innermost part that has none, as `Expr::kind_in` judges.
pub fn explain_kind(alloc: Global, schema: &Schema, expression: &Expr) -> Explained {
    if expression.kind_in(schema).is_ok() {
        return Ok(());
    }
    match expression {
        Expr::Null(_) | Expr::Whole(_) | Expr::Text(_) | Expr::Truth(_) => Ok(()),
        Expr::Col(name) => explain_column(alloc, schema, name.as_str(), ""),
        Expr::One(op, part) => match part.kind_in(schema) {
            Ok(kind) => {
                let hint = match op {
                    Unary::Neg => Hint::of_numbers(&[part], schema),
                    _ => Hint::of(&[part], Some(schema)),
                };
                let (op, kind) = (unary_word(*op), kind_word(kind));
                bail!(alloc, "{op}: {kind}{hint}")
            }
            Err(_) => explain_kind(alloc, schema, part),
        },
        Expr::Two(op, left, right) => match (left.kind_in(schema), right.kind_in(schema)) {
            (Ok(first), Ok(second)) => {
                let hint = if is_arithmetic(*op) {
                    Hint::of_numbers(&[left, right], schema)
                } else {
                    Hint::of(&[left, right], Some(schema))
                };
                let (op, first, second) = (binary_word(*op), kind_word(first), kind_word(second));
                bail!(alloc, "{op}: {first} and {second}{hint}")
            }
            (Err(_), _) => explain_kind(alloc, schema, left),
            (Ok(_), Err(_)) => explain_kind(alloc, schema, right),
        },
    }
}

// Whether an operator takes numbers alone.
fn is_arithmetic(op: Binary) -> bool {
    matches!(
        op,
        Binary::Add | Binary::Sub | Binary::Mul | Binary::FloorDiv | Binary::Mod
    )
}
