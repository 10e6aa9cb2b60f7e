//! What an operation reads in each row.
ghost use Rattle.std.specs.Prelude.{◌≡◌, ◌+◌, ℕ, IfOk, length, option_copied, replicate};
ghost use Rattle.fq_column.specs.declared.cells.Cell.TheVariants as cell;
ghost use Rattle.fq_column.specs.Column.{cells_of};
ghost use Rattle.fq_expr.specs.Operand.{HasRows, IsInRow, first_values, kind_in_rows, AnyHasRows, cells_in_rows};

use crate::operations::Datum;
use fq_column::{Array, Column, Element, Kind, Memory, Text, Values};
use std::alloc::Global;

/// Values of one type for the rows of a batch.
#[derive(Drop)]
pub enum Operand<'a, T> {
    /// Those of a column of the batch.
    Borrowed(&'a Array<T>),
    /// Those that an operation made.
    Owned(Array<T>),
    /// One value, or null, that stands in each row.
    Scalar(Option<&'a T>),
}

/// Values of a kind for the rows of a batch.
#[derive(Drop)]
pub enum AnyOperand<'a> {
    /// Whole numbers.
    Whole(Operand<'a, i64>),
    /// Texts.
    Text(Operand<'a, Text>),
    /// Truth values.
    Truth(Operand<'a, bool>),
}

/// What an expression was evaluated to: its values in the rows before the first that faults.
#[derive(Drop)]
pub struct Outcome<'a> {
    /// The values; there may be more of them than `rows`.
    pub operand: AnyOperand<'a>,
    /// How many rows stand before the first that faults.
    pub rows: usize,
}

impl<T: Element> Operand<'_, T> {
    /// The value in row `i`, or none if it is null.
    pub fn get(&self, i: usize) -> Option<&T>
        requires { HasRows (i + 1) self.now }
        ensures { IsInRow i self.now (option_copied result) }
    {
        match self {
            Operand::Borrowed(array) => array.get(i),
            Operand::Owned(array) => array.get(i),
            Operand::Scalar(value) => *value,
        }
    }
}

impl AnyOperand<'_> {
    /// The kind of the values.
    pub fn kind(&self) -> Kind
        ensures { result ≡ kind_in_rows self.now }
    {
        match self {
            AnyOperand::Whole(_) => Kind::Whole,
            AnyOperand::Text(_) => Kind::Text,
            AnyOperand::Truth(_) => Kind::Truth,
        }
    }
}

/// The cells of a column, with no copy.
pub fn borrowed(column: &Column) -> AnyOperand<'_>
    ensures kind { kind_in_rows result ≡ column.now.kind }
    ensures rows { AnyHasRows (length column.now.cells) result }
    ensures cells { cells_in_rows (length column.now.cells) result ≡ column.now.cells }
{
    match column.values() {
        Values::Whole(array) => AnyOperand::Whole(Operand::Borrowed(array)),
        Values::Text(array) => AnyOperand::Text(Operand::Borrowed(array)),
        Values::Truth(array) => AnyOperand::Truth(Operand::Borrowed(array)),
    }
}

/// A null of a kind in each row.
pub fn nulls<'a>(kind: Kind) -> AnyOperand<'a>
    ensures kind { kind_in_rows result ≡ kind }
    ensures rows { (n : ℕ) → AnyHasRows n result }
    ensures cells { (n : ℕ) → cells_in_rows n result ≡ replicate n cell.Null }
{
    match kind {
        Kind::Whole => AnyOperand::Whole(Operand::Scalar(None)),
        Kind::Text => AnyOperand::Text(Operand::Scalar(None)),
        Kind::Truth => AnyOperand::Truth(Operand::Scalar(None)),
    }
}

/// The values that an operation made, one for each row before the first that faults.
pub fn owned<'a>(values: Values) -> Outcome<'a>
    ensures kind { kind_in_rows result.operand ≡ (cells_of values).kind }
    ensures rows { AnyHasRows result.rows result.operand }
    ensures cells { cells_in_rows result.rows result.operand ≡ (cells_of values).cells }
{
    match values {
        Values::Whole(array) => Outcome {
            rows: array.len(),
            operand: AnyOperand::Whole(Operand::Owned(array)),
        },
        Values::Text(array) => Outcome {
            rows: array.len(),
            operand: AnyOperand::Text(Operand::Owned(array)),
        },
        Values::Truth(array) => Outcome {
            rows: array.len(),
            operand: AnyOperand::Truth(Operand::Owned(array)),
        },
    }
}

impl Outcome<'_> {
    /// The column of the values: those that an operation made are moved, those of a column copied, a literal repeated.
    pub fn into_column(self, alloc: Global) -> Result<Column, Memory>
        requires { AnyHasRows self.rows self.operand }
        ensures { IfOk result (λ column. column ≡ record { kind = kind_in_rows self.entry.operand; cells = cells_in_rows self.entry.rows self.entry.operand }) }
    {
        let Outcome { operand, rows } = self;
        let values = match operand {
            AnyOperand::Whole(operand) => Values::Whole(operand.into_array(alloc, rows)?),
            AnyOperand::Text(operand) => Values::Text(operand.into_array(alloc, rows)?),
            AnyOperand::Truth(operand) => Values::Truth(operand.into_array(alloc, rows)?),
        };
        Ok(Column::from_values(values))
    }
}

impl<T: Datum> Operand<'_, T> {
    // The values in the first rows.
    fn into_array(self, alloc: Global, rows: usize) -> Result<Array<T>, Memory>
        requires { HasRows rows self }
        ensures { IfOk result (λ array. array ≡ first_values rows self.entry) }
    {
        match self {
            Operand::Borrowed(array) => {
                let mut copy = array.copy(alloc)?;
                copy.truncate(rows);
                Ok(copy)
            }
            Operand::Owned(mut array) => {
                array.truncate(rows);
                Ok(array)
            }
            Operand::Scalar(value) => repeated(alloc, value, rows),
        }
    }
}

// A value, or null, this many times.
fn repeated<T: Datum>(alloc: Global, value: Option<&T>, count: usize) -> Result<Array<T>, Memory>
    ensures { IfOk result (λ array. array ≡ replicate count (option_copied value.entry)) }
{
    let mut array = Array::with_capacity(alloc, count)?;
    for _i in 0..count {
        match value {
            Some(value) => array.push(value.copy_of(alloc)?)?,
            None => array.push_null()?,
        }
    }
    Ok(array)
}
