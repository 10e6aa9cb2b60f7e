//! Parts of an expression that cannot stand for anything together.
use crate::beside::number_of;
use crate::expressions::{Binary, Expr, Unary};
use crate::followed::scales_of_factor;
use fq_column::Schema;
use fq_notation::{Followed, NamedNotations, Scales};
use std::fmt;
use std::fmt::{Display, Formatter, Write};

/// The first part of an expression whose sides do not go together. Its text says what they are, and what to write in their place.
#[derive(Clone, Copy)]
pub struct Misfit<'a> {
    op: Option<Binary>,
    left: Side<'a>,
    right: Side<'a>,
}

// A side of an operation.
#[derive(Clone, Copy)]
struct Side<'a> {
    expression: &'a Expr,
    is_left: bool,
    followed: Option<Followed>,
}

impl Expr {
    /// The first part whose sides do not go together, on columns in these notations; `None` if all do.
    pub fn misfit(&self, schema: &Schema, named: &NamedNotations) -> Option<Misfit<'_>> {
        match self {
            Expr::One(_, part) => {
                if let Some(misfit) = part.misfit(schema, named) {
                    return Some(misfit);
                }
                self.misfit_of(None, part, part, schema, named)
            }
            Expr::Two(op, left, right) => {
                if let Some(misfit) = left.misfit(schema, named) {
                    return Some(misfit);
                }
                if let Some(misfit) = right.misfit(schema, named) {
                    return Some(misfit);
                }
                self.misfit_of(Some(*op), left, right, schema, named)
            }
            _ => None,
        }
    }

    // The expression itself, if these sides of it do not go together.
    fn misfit_of<'a>(
        &'a self,
        op: Option<Binary>,
        left: &'a Expr,
        right: &'a Expr,
        schema: &Schema,
        named: &NamedNotations,
    ) -> Option<Misfit<'a>> {
        if self.followed(schema, named).is_some() {
            return None;
        }
        Some(Misfit {
            op,
            left: Side::new(true, left, schema, named),
            right: Side::new(false, right, schema, named),
        })
    }
}

impl<'a> Side<'a> {
    fn new(
        is_left: bool,
        expression: &'a Expr,
        schema: &Schema,
        named: &NamedNotations,
    ) -> Side<'a> {
        Side {
            expression,
            is_left,
            followed: expression.followed(schema, named),
        }
    }

    // Whether it stands for days.
    fn is_day(&self) -> bool {
        matches!(self.followed, Some(Followed::Days))
    }

    // The scales of its numbers.
    fn scales(&self) -> Option<Scales> {
        self.followed?.numbers()
    }

    // The least of them.
    fn least(&self) -> u8 {
        self.scales().map_or(0, Scales::least)
    }

    // Whether a name has to say which of them it has.
    fn is_unread(&self) -> bool {
        self.scales().is_some_and(|scales| scales.read().is_none())
    }
}

impl Display for Side<'_> {
    fn fmt<W: Write>(&self, f: &mut Formatter<W>) -> fmt::Result {
        match self.expression {
            Expr::Col(name) => write!(f, "{:?}", name.as_str()),
            _ if self.is_left => f.write_str("the left side"),
            _ => f.write_str("the right side"),
        }
    }
}

impl Display for Misfit<'_> {
    fn fmt<W: Write>(&self, f: &mut Formatter<W>) -> fmt::Result {
        let (left, right) = (&self.left, &self.right);
        if left.is_day() {
            return write_day(f, left);
        }
        if right.is_day() {
            return write_day(f, right);
        }
        match (left.scales(), right.scales()) {
            (Some(left_scales), Some(right_scales)) => {
                write!(f, "{left} {left_scales} and {right} {right_scales}")?;
                self.write_way_out(f)
            }
            _ => write!(f, "{left} and {right} do not go together"),
        }
    }
}

impl<'a> Misfit<'a> {
    /// The name of the column that is the side with too few places; `None` if that side is an expression, if a name has to say the scale of a
    /// side, or if a product has too many places.
    pub fn short_column(&self) -> Option<&'a str> {
        if self.op == Some(Binary::Mul) || self.unread_side().is_some() {
            return None;
        }
        match self.short_side().expression {
            Expr::Col(name) => Some(name.as_str()),
            _ => None,
        }
    }

    /// How many places that side should have.
    pub fn wanted_places(&self) -> u8 {
        self.left.least().max(self.right.least())
    }

    // The side with fewer places, or the dividend.
    fn short_side(&self) -> &Side<'a> {
        if self.op == Some(Binary::FloorDiv) || self.left.least() < self.right.least() {
            &self.left
        } else {
            &self.right
        }
    }

    // The first side that may have several scales.
    fn unread_side(&self) -> Option<&Side<'a>> {
        if self.left.is_unread() {
            Some(&self.left)
        } else if self.right.is_unread() {
            Some(&self.right)
        } else {
            None
        }
    }

    // What to write in the place of sides of numbers.
    fn write_way_out<W: Write>(&self, f: &mut Formatter<W>) -> fmt::Result {
        if self.op == Some(Binary::Mul) {
            return write!(f, ", and a product has at most {}", Scales::MAX);
        }
        if let Some(side) = self.unread_side() {
            return write!(
                f,
                ": make {side} a column in a step before, and name its scale"
            );
        }
        let side = self.short_side();
        write_factor(f, side, side.least(), self.wanted_places())
    }
}

// What to write where a date stands.
fn write_day<W: Write>(f: &mut Formatter<W>, day: &Side<'_>) -> fmt::Result {
    match day.expression {
        Expr::Col(_) => write!(
            f,
            "{day} is a date: [\"floordiv\", {{\"col\": {day}}}, 1] gives its digits"
        ),
        _ => write!(f, "{day} is a date: a floordiv of it by 1 gives its digits"),
    }
}

// By what to multiply a side whose scale is too low. A number that it is multiplied by already becomes a column, since that may have the places
// which are missing.
fn write_factor<W: Write>(
    f: &mut Formatter<W>,
    side: &Side<'_>,
    places: u8,
    wanted: u8,
) -> fmt::Result {
    if let Some(number) = factor_of(side.expression) {
        return write!(
            f,
            ": make {number} a column in a step before, [\"each\", {number}], and name it: --decimal each={}",
            wanted.saturating_sub(places)
        );
    }
    write!(f, ": multiply {side} by 1")?;
    for _ in places..wanted {
        f.write_str("0")?;
    }
    Ok(())
}

// A number that is a factor of an expression, unless it may be there to move the point.
fn factor_of(expression: &Expr) -> Option<i64> {
    match expression {
        Expr::One(Unary::Neg, part) => factor_of(part),
        Expr::Two(Binary::Mul, left, right) => fixed_number(left)
            .or(fixed_number(right))
            .or(factor_of(left))
            .or(factor_of(right)),
        _ => None,
    }
}

// The number that an expression is, unless it may be there to move the point.
fn fixed_number(expression: &Expr) -> Option<i64> {
    let number = number_of(expression)?;
    scales_of_factor(number.unsigned_abs()).read()?;
    Some(number)
}
