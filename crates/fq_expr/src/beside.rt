//! Numbers of an expression that are read in the notation of what stands beside them.
use crate::expressions::{Binary, Expr, Unary};
use crate::steps::RowStep;
use fq_column::{Memory, Schema};
use fq_notation::{Followed, NamedNotations, Notation, Scale};
use std::alloc::Global;
use std::fmt;
use std::fmt::{Display, Formatter, Write};

/// A number beside decimals or dates, in a sum, a remainder or a comparison: 1000 beside prices with 2 places is 10.00. Its text says so.
#[derive(Clone, Copy)]
pub struct Beside<'a> {
    number: i64,
    // The scale of what stands beside it; none of dates.
    scale: Option<u8>,
    beside: &'a Expr,
}

impl Display for Beside<'_> {
    fn fmt<W: Write>(&self, f: &mut Formatter<W>) -> fmt::Result {
        write!(f, "{}", self.number)?;
        if let Expr::Col(column) = self.beside {
            write!(f, " beside {:?}", column.as_str())?;
        }
        f.write_str(" is ")?;
        let notation = match self.scale {
            Some(scale) => Scale::new(scale).map_or(Notation::Plain, Notation::Decimal),
            None => Notation::Date,
        };
        for byte in notation.text(self.number).iter() {
            f.write_char(char::from(*byte))?;
        }
        Ok(())
    }
}

impl RowStep {
    /// The numbers beside decimals and dates, in order, on columns in these notations. `Memory` if an allocation fails.
    pub fn beside(
        &self,
        alloc: Global,
        schema: &Schema,
        named: &NamedNotations,
    ) -> Result<Vec<Beside<'_>>, Memory> {
        let mut found = Vec::new(alloc);
        match self {
            RowStep::Filter(predicate) => find_beside(predicate, schema, named, &mut found)?,
            RowStep::WithColumns(items) | RowStep::Select(items) => {
                for (_, expression) in items.iter() {
                    find_beside(expression, schema, named, &mut found)?;
                }
            }
        }
        Ok(found)
    }
}

// Finds the numbers beside decimals and dates in an expression.
fn find_beside<'a>(
    expression: &'a Expr,
    schema: &Schema,
    named: &NamedNotations,
    found: &mut Vec<Beside<'a>>,
) -> Result<(), Memory> {
    match expression {
        Expr::One(_, part) => find_beside(part, schema, named, found),
        Expr::Two(op, left, right) => {
            find_beside(left, schema, named, found)?;
            if is_of_one_scale(*op) {
                push_beside(*op, left, right, schema, named, found)?;
                push_beside(*op, right, left, schema, named, found)?;
            }
            find_beside(right, schema, named, found)
        }
        _ => Ok(()),
    }
}

// Adds a number if it stands beside an expression. In a remainder of a date, the number on the right is no date.
fn push_beside<'a>(
    op: Binary,
    number: &'a Expr,
    beside: &'a Expr,
    schema: &Schema,
    named: &NamedNotations,
    found: &mut Vec<Beside<'a>>,
) -> Result<(), Memory> {
    let Some(number) = number_of(number) else {
        return Ok(());
    };
    let Some(followed) = beside.followed(schema, named) else {
        return Ok(());
    };
    let scale = match followed {
        Followed::Numbers(scales) => Some(scales.read().unwrap_or(0)),
        Followed::Days if op == Binary::Mod => return Ok(()),
        Followed::Days => None,
        Followed::Others => Some(0),
    };
    if beside.has_columns() && scale != Some(0) {
        found.push(Beside {
            number,
            scale,
            beside,
        })?;
    }
    Ok(())
}

// Whether the sides of an operation have one scale.
fn is_of_one_scale(op: Binary) -> bool {
    !matches!(
        op,
        Binary::Mul | Binary::FloorDiv | Binary::And | Binary::Or
    )
}

// The number that an expression is.
pub(crate) fn number_of(expression: &Expr) -> Option<i64> {
    match expression {
        Expr::Whole(number) => Some(*number),
        Expr::One(Unary::Neg, part) => number_of(part)?.checked_neg(),
        _ => None,
    }
}
