//! Expressions over the columns of a row, and their kinds.
ghost use Rattle.std.specs.Prelude.{◌≡◌, Ok};
ghost use Rattle.fq_column.specs.Frame.{has_name};
ghost use Rattle.fq_expr.specs.Kinds.{kind_of, kind_if, unary_kind, binary_kind};
ghost use Rattle.fq_expr.specs.ExpressionData.{expression_of};
ghost use Rattle.fq_expr.specs.Needed.{names_read};

use fq_column::{Kind, Schema, StepFault, Text};

/// An operation on one value.
#[derive(Clone, Copy, Debug, PartialEq, Eq)]
pub enum Unary {
    /// The negative of a whole number; null of null. A fault if it does not fit 64 bits.
    Neg,
    /// The other truth value; null of null.
    Not,
    /// Whether the value is null; itself never null.
    IsNull,
    /// Whether the value is not null; itself never null.
    IsNotNull,
}

/// An operation on two values, which are both always evaluated.
///
/// Arithmetic and the comparisons but `EqMissing` answer null if an operand is null.
#[derive(Clone, Copy, Debug, PartialEq, Eq)]
pub enum Binary {
    /// The sum; a fault if it does not fit 64 bits.
    Add,
    /// The difference; a fault if it does not fit 64 bits.
    Sub,
    /// The product; a fault if it does not fit 64 bits.
    Mul,
    /// The quotient rounded towards minus infinity; null for divisor 0, a fault if it does not fit 64 bits.
    FloorDiv,
    /// The remainder of `FloorDiv`: 0, or a number with the divisor's sign; null for divisor 0.
    Mod,
    /// Whether the values are equal.
    Eq,
    /// Whether the values differ.
    Ne,
    /// Whether the left value comes before the right: whole numbers by value, texts by their UTF-8 bytes, false before true.
    Lt,
    /// Whether the left value comes before the right or is equal to it.
    Le,
    /// Whether the left value comes after the right.
    Gt,
    /// Whether the left value comes after the right or is equal to it.
    Ge,
    /// Whether the values are equal; null is equal only to null.
    EqMissing,
    /// Kleene's conjunction: false if one side is false, else null if one side is null, else true.
    And,
    /// Kleene's disjunction: true if one side is true, else null if one side is null, else false.
    Or,
    /// The left value, or the right one if the left is null.
    FillNull,
}

/// An expression over the columns of a row.
#[derive(Debug, Drop)]
pub enum Expr {
    /// The value of a named column.
    Col(String),
    /// Null, of a kind.
    Null(Kind),
    /// A whole number.
    Whole(i64),
    /// A text.
    Text(Text),
    /// A truth value.
    Truth(bool),
    /// An operation on the value of one expression.
    One(Unary, Box<Expr>),
    /// An operation on the values of two expressions.
    Two(Binary, Box<Expr>, Box<Expr>),
}

impl Expr {
    /// The kind of the expression over the columns of a schema; allocates nothing.
    ///
    /// Refused: `NoSuchColumn` if a name is not a column's, `WrongKind` if an operand is not of the kind that its
    /// operation takes. Parts are judged from left to right, then the whole, and the first refusal is answered.
    pub fn kind_in(&self, schema: &Schema) -> Result<Kind, StepFault>
        ensures { result ≡ kind_of schema.now (expression_of self.now) }
    {
        match self {
            Expr::Col(name) => schema.kind_of(name.as_str()),
            Expr::Null(kind) => Ok(*kind),
            Expr::Whole(_) => Ok(Kind::Whole),
            Expr::Text(_) => Ok(Kind::Text),
            Expr::Truth(_) => Ok(Kind::Truth),
            Expr::One(op, part) => {
                let kind = part.kind_in(schema)?;
                one_kind(*op, kind)
            }
            Expr::Two(op, left, right) => {
                let left = left.kind_in(schema)?;
                let right = right.kind_in(schema)?;
                two_kind(*op, left, right)
            }
        }
    }

    /// Whether the expression reads the column of this name.
    pub fn reads(&self, name: &str) -> bool
        ensures { result ≡ has_name (names_read (expression_of self.now)) name.now }
    {
        match self {
            Expr::Col(column) => name == column.as_str(),
            Expr::Null(_) | Expr::Whole(_) | Expr::Text(_) | Expr::Truth(_) => false,
            Expr::One(_, part) => part.reads(name),
            Expr::Two(_, left, right) => left.reads(name) || right.reads(name),
        }
    }
}

// The kind, if the condition holds.
fn kind_where(condition: bool, kind: Kind) -> Result<Kind, StepFault>
    ensures { result ≡ kind_if condition kind }
{
    if condition {
        Ok(kind)
    } else {
        Err(StepFault::WrongKind)
    }
}

// The kind of an operation on one value of this kind.
fn one_kind(op: Unary, kind: Kind) -> Result<Kind, StepFault>
    ensures { result ≡ unary_kind op kind }
{
    match op {
        Unary::Neg => kind_where(kind == Kind::Whole, Kind::Whole),
        Unary::Not => kind_where(kind == Kind::Truth, Kind::Truth),
        Unary::IsNull | Unary::IsNotNull => Ok(Kind::Truth),
    }
}

// The kind of an operation on two values of these kinds.
fn two_kind(op: Binary, left: Kind, right: Kind) -> Result<Kind, StepFault>
    ensures { result ≡ binary_kind op left right }
{
    match op {
        Binary::Add | Binary::Sub | Binary::Mul | Binary::FloorDiv | Binary::Mod => {
            kind_where(left == Kind::Whole && right == Kind::Whole, Kind::Whole)
        }
        Binary::Eq
        | Binary::Ne
        | Binary::Lt
        | Binary::Le
        | Binary::Gt
        | Binary::Ge
        | Binary::EqMissing => kind_where(left == right, Kind::Truth),
        Binary::And | Binary::Or => {
            kind_where(left == Kind::Truth && right == Kind::Truth, Kind::Truth)
        }
        Binary::FillNull => kind_where(left == right, left),
    }
}
