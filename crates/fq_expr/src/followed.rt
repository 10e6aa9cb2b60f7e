//! What the ints of an expression are, by what those of the columns are.
ghost use Rattle.std.specs.Prelude.{◌≡◌, ◌≤◌, ◌<◌, nat_abs};
ghost use Rattle.fq_expr.specs.ExpressionData.{expression_of};
ghost use Rattle.fq_expr.specs.Followed.{binary_followed, divided, either, either_of_two, either_with, followed, has_columns, is_as_day, is_null, literal, negated, of_null, other_of, part_of_day, product_of, remainder, scales_of_divisor, scales_of_factor, sum, sum_of_two, unary_followed, zeros_within};

use crate::expressions::{Binary, Expr, Unary};
use fq_column::{Kind, Schema};
use fq_notation::{Followed, NamedNotations, Scales};

impl Expr {
    /// What the ints of the expression stand for, by the notations under the names of a schema's columns. Allocates nothing.
    ///
    /// `None` if they cannot stand for anything: in a sum or a comparison, numbers of different scales, or a number and a day. Arithmetic on
    /// days gives their parts alone, by a quotient or a remainder.
    pub fn followed(&self, schema: &Schema, named: &NamedNotations) -> Option<Followed>
        ensures { result ≡ followed schema.now named.now (expression_of self.now) }
    {
        match self {
            Expr::Col(name) => Some(Followed::of_named(schema, named, name.as_str())),
            Expr::Null(kind) => Some(of_null(*kind)),
            Expr::Whole(number) => Some(Followed::Numbers(scales_of_factor(number.unsigned_abs()))),
            Expr::Text(_) | Expr::Truth(_) => Some(Followed::Others),
            Expr::One(op, part) => {
                let part = part.followed(schema, named)?;
                unary_followed(*op, part)
            }
            Expr::Two(op, left, right) => {
                let left_is = left.followed(schema, named)?;
                let right_is = right.followed(schema, named)?;
                binary_followed(*op, left, left_is, right, right_is)
            }
        }
    }

    /// The number that the expression is, without its sign.
    fn literal(&self) -> Option<u64>
        ensures { result ≡ literal (expression_of self.now) }
    {
        match self {
            Expr::Whole(number) => Some(number.unsigned_abs()),
            Expr::One(Unary::Neg, part) => part.literal(),
            _ => None,
        }
    }

    /// Whether the expression is a null, whatever its sign.
    fn is_null(&self) -> bool
        ensures { result ≡ is_null (expression_of self.now) }
    {
        match self {
            Expr::Null(_) => true,
            Expr::One(Unary::Neg, part) => part.is_null(),
            _ => false,
        }
    }

    /// Whether the expression is a number of as many digits as a day has, or a null.
    fn is_as_day(&self) -> bool
        ensures { result ≡ is_as_day (expression_of self.now) }
    {
        self.is_null()
            || match self.literal() {
                Some(number) => number >= 10_000_000 && number < 100_000_000,
                None => false,
            }
    }

    /// Whether the expression reads a column.
    pub(crate) fn has_columns(&self) -> bool
        ensures { result ≡ has_columns (expression_of self.now) }
    {
        match self {
            Expr::Col(_) => true,
            Expr::Null(_) | Expr::Whole(_) | Expr::Text(_) | Expr::Truth(_) => false,
            Expr::One(_, part) => part.has_columns(),
            Expr::Two(_, left, right) => left.has_columns() || right.has_columns(),
        }
    }
}

// How many zeros a number ends in, at most so many.
fn zeros_within(most: u8, number: u64) -> u8
    requires { most ≤ 18 }
    ensures zeros { result ≡ zeros_within most number }
    ensures few { result ≤ most }
{
    if most > 0 && number > 0 && number % 10 == 0 {
        1 + zeros_within(most - 1, number / 10)
    } else {
        0
    }
}

// The scales of a number in a product: a power of ten may move the point.
pub(crate) fn scales_of_factor(number: u64) -> Scales
    ensures { result ≡ scales_of_factor number }
{
    let zeros = zeros_within(Scales::MAX, number);
    if zeros > 0 && number == 10u64.pow(u32::from(zeros)) {
        Scales::up_to(zeros)
    } else {
        Scales::only(0)
    }
}

// The scales of a divisor: zeros at its end may move the point.
fn scales_of_divisor(number: u64) -> Scales
    ensures { result ≡ scales_of_divisor number }
{
    let zeros = zeros_within(Scales::MAX, number);
    if zeros > 0 {
        Scales::up_to(zeros)
    } else {
        Scales::only(0)
    }
}

fn of_null(kind: Kind) -> Followed
    ensures { result ≡ of_null kind }
{
    match kind {
        Kind::Whole => Followed::Numbers(Scales::only(0)),
        Kind::Text | Kind::Truth => Followed::Others,
    }
}

fn negated(part: Followed) -> Option<Followed>
    ensures { result ≡ negated part }
{
    match part {
        Followed::Numbers(_) => Some(part),
        Followed::Days | Followed::Others => None,
    }
}

fn unary_followed(op: Unary, part: Followed) -> Option<Followed>
    ensures { result ≡ unary_followed op part }
{
    match op {
        Unary::Neg => negated(part),
        Unary::Not | Unary::IsNull | Unary::IsNotNull => Some(Followed::Others),
    }
}

fn sum_of_two(left: Followed, right: Followed) -> Option<Followed>
    ensures { result ≡ sum_of_two left right }
{
    let (left, right) = (left.numbers()?, right.numbers()?);
    Some(Followed::Numbers(left.common(right)?))
}

// A sum or a difference, or a remainder of numbers.
fn sum(left: &Expr, left_is: Followed, right: &Expr, right_is: Followed) -> Option<Followed>
    ensures { result ≡ sum (expression_of left.now) left_is (expression_of right.now) right_is }
{
    match (left.has_columns(), right.has_columns()) {
        (true, false) => negated(left_is),
        (false, true) => negated(right_is),
        _ => sum_of_two(left_is, right_is),
    }
}

fn either_of_two(left: Followed, right: Followed) -> Option<Followed>
    ensures { result ≡ either_of_two left right }
{
    match left {
        Followed::Numbers(_) => sum_of_two(left, right),
        Followed::Days | Followed::Others if left == right => Some(left),
        Followed::Days | Followed::Others => None,
    }
}

// What one side is beside one that reads no column.
fn either_with(side: Followed, other: &Expr) -> Option<Followed>
    ensures { result ≡ either_with side (expression_of other.now) }
{
    match side {
        Followed::Days if !other.is_as_day() => None,
        _ => Some(side),
    }
}

// One of two that are of one sort.
fn either(left: &Expr, left_is: Followed, right: &Expr, right_is: Followed) -> Option<Followed>
    ensures { result ≡ either (expression_of left.now) left_is (expression_of right.now) right_is }
{
    match (left.has_columns(), right.has_columns()) {
        (true, false) => either_with(left_is, right),
        (false, true) => either_with(right_is, left),
        _ => either_of_two(left_is, right_is),
    }
}

fn product_of(left: Followed, right: Followed) -> Option<Followed>
    ensures { result ≡ product_of left right }
{
    let (left, right) = (left.numbers()?, right.numbers()?);
    Some(Followed::Numbers(left.product(right)?))
}

// A part of a day, by a number, a null or what may be digits.
fn part_of_day(by: &Expr, by_is: Followed) -> Option<Followed>
    ensures { result ≡ part_of_day (expression_of by.now) by_is }
{
    match by_is {
        Followed::Numbers(scales)
            if by.literal().is_some() || by.is_null() || (by.has_columns() && scales.may_be(0)) => {
            Some(Followed::Numbers(Scales::only(0)))
        }
        _ => None,
    }
}

fn divided(left: Followed, by: &Expr, by_is: Followed) -> Option<Followed>
    ensures { result ≡ divided left (expression_of by.now) by_is }
{
    match left {
        Followed::Numbers(scales) => {
            let scales_by = by_is.numbers()?;
            let scales_by = match by.literal() {
                Some(number) => scales_of_divisor(number),
                None => scales_by,
            };
            Some(Followed::Numbers(scales.quotient(scales_by)?))
        }
        Followed::Days => part_of_day(by, by_is),
        Followed::Others => None,
    }
}

fn remainder(left: &Expr, left_is: Followed, by: &Expr, by_is: Followed) -> Option<Followed>
    ensures { result ≡ remainder (expression_of left.now) left_is (expression_of by.now) by_is }
{
    match left_is {
        Followed::Numbers(_) => sum(left, left_is, by, by_is),
        Followed::Days => part_of_day(by, by_is),
        Followed::Others => None,
    }
}

fn other_of(parts: Option<Followed>) -> Option<Followed>
    ensures { result ≡ other_of parts }
{
    match parts {
        Some(_) => Some(Followed::Others),
        None => None,
    }
}

fn binary_followed(
    op: Binary,
    left: &Expr,
    left_is: Followed,
    right: &Expr,
    right_is: Followed,
) -> Option<Followed>
    ensures { result ≡ binary_followed op (expression_of left.now) left_is (expression_of right.now) right_is }
{
    match op {
        Binary::Add | Binary::Sub => sum(left, left_is, right, right_is),
        Binary::Mul => product_of(left_is, right_is),
        Binary::FloorDiv => divided(left_is, right, right_is),
        Binary::Mod => remainder(left, left_is, right, right_is),
        Binary::Eq
        | Binary::Ne
        | Binary::Lt
        | Binary::Le
        | Binary::Gt
        | Binary::Ge
        | Binary::EqMissing => other_of(either(left, left_is, right, right_is)),
        Binary::And | Binary::Or => Some(Followed::Others),
        Binary::FillNull => either(left, left_is, right, right_is),
    }
}
