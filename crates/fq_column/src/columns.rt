//! Columns: cells of one kind.
ghost use Rattle.std.specs.Prelude.{◌≡◌, ◌<◌, ◌↔◌, ◌++◌, [], ◌∷◌, Some, take, length, map, IsTrue, IfOk, OnOk, OnErr, slice_get, option_copied};
ghost use Rattle.std.specs.Option.{option_map_or};
ghost use Rattle.fq_column.specs.Cell.{cell_cmp};
ghost use Rattle.fq_column.specs.Column.{AreOfKind, cells_of, nullable};
ghost use Rattle.fq_column.specs.Frame.{value_at};
ghost use Rattle.fq_column.specs.Lists.{keep as kept};

use crate::arrays::Array;
use crate::cells::{Cell, Kind};
use crate::faults::Memory;
use crate::texts::Text;
use std::alloc::Global;
use std::cmp::Ordering;
use std::marker::Model;

/// The cells of a column, as an array of its kind.
#[derive(Debug, Drop)]
pub enum Values {
    /// Whole numbers.
    Whole(Array<i64>),
    /// Texts.
    Text(Array<Text>),
    /// Truth values.
    Truth(Array<bool>),
}

/// A list of cells of one kind.
#[derive(Debug, Drop)]
pub struct Column {
    values: Values,
}

impl Model for Column {
    ghost use Rattle.fq_column.specs.Column.{Cells};

    ghost Value = { Cells };

    ghost use Rattle.fq_column.specs.Column.{cells_of};

    ghost view = { λ c. cells_of c.values };
}

impl Column {
    /// The empty column of a kind, which allocates nothing.
    pub fn new(alloc: Global, kind: Kind) -> Column
        ensures { result ≡ record { kind = kind; cells = [] } }
    {
        let values = match kind {
            Kind::Whole => Values::Whole(Array::new(alloc)),
            Kind::Text => Values::Text(Array::new(alloc)),
            Kind::Truth => Values::Truth(Array::new(alloc)),
        };
        Column { values }
    }

    /// The empty column of a kind, with room for this many cells.
    pub fn with_capacity(alloc: Global, kind: Kind, capacity: usize) -> Result<Column, Memory>
        ensures { IfOk result (λ c. c ≡ record { kind = kind; cells = [] }) }
    {
        let values = match kind {
            Kind::Whole => Values::Whole(Array::with_capacity(alloc, capacity)?),
            Kind::Text => Values::Text(Array::with_capacity(alloc, capacity)?),
            Kind::Truth => Values::Truth(Array::with_capacity(alloc, capacity)?),
        };
        Ok(Column { values })
    }

    /// The column of these values, with no copy.
    pub fn from_values(values: Values) -> Column
        ensures { result ≡ cells_of values }
    {
        Column { values }
    }

    /// The values, to work on a whole column at a time.
    pub fn values(&self) -> &Values
        ensures { cells_of result.now ≡ self.now }
    {
        &self.values
    }

    /// How many cells there are.
    pub fn len(&self) -> usize
        ensures len { result ≡ length self.now.cells }
        ensures kinds { AreOfKind self.now }
    {
        match &self.values {
            Values::Whole(array) => array.len(),
            Values::Text(array) => array.len(),
            Values::Truth(array) => array.len(),
        }
    }

    /// The kind of the cells.
    pub fn kind(&self) -> Kind
        ensures { result ≡ self.now.kind }
    {
        match &self.values {
            Values::Whole(_) => Kind::Whole,
            Values::Text(_) => Kind::Text,
            Values::Truth(_) => Kind::Truth,
        }
    }

    /// Whether cell `i` is null.
    pub fn is_null(&self, i: usize) -> bool
        requires { i < length self.now.cells }
        ensures { IsTrue result ↔ (slice_get self.now.cells i ≡ Some Cell.Null) }
    {
        match &self.values {
            Values::Whole(array) => array.get(i).is_none(),
            Values::Text(array) => array.get(i).is_none(),
            Values::Truth(array) => array.get(i).is_none(),
        }
    }

    /// The whole number that cell `i` is.
    pub fn whole(&self, i: usize) -> i64
        requires in_range { i < length self.now.cells }
        requires kind { self.now.kind ≡ Kind.Whole }
        requires not_null { ¬ (slice_get self.now.cells i ≡ Some Cell.Null) }
        ensures { slice_get self.now.cells i ≡ Some (Cell.Whole result) }
    {
        match &self.values {
            Values::Whole(array) => *array.get(i).unwrap(),
            _ => unreachable!(),
        }
    }

    /// The text that cell `i` is.
    pub fn text(&self, i: usize) -> &str
        requires in_range { i < length self.now.cells }
        requires kind { self.now.kind ≡ Kind.Text }
        requires not_null { ¬ (slice_get self.now.cells i ≡ Some Cell.Null) }
        ensures { slice_get self.now.cells i ≡ Some (Cell.Text result.now) }
    {
        match &self.values {
            Values::Text(array) => array.get(i).unwrap().as_str(),
            _ => unreachable!(),
        }
    }

    /// The truth value that cell `i` is.
    pub fn truth(&self, i: usize) -> bool
        requires in_range { i < length self.now.cells }
        requires kind { self.now.kind ≡ Kind.Truth }
        requires not_null { ¬ (slice_get self.now.cells i ≡ Some Cell.Null) }
        ensures { slice_get self.now.cells i ≡ Some (Cell.Truth result) }
    {
        match &self.values {
            Values::Truth(array) => *array.get(i).unwrap(),
            _ => unreachable!(),
        }
    }

    /// How cell `i` is ordered beside another cell, as cells are: nothing is copied.
    pub fn compare(&self, i: usize, other: &Cell) -> Ordering
        requires { i < length self.now.cells }
        ensures { result ≡ cell_cmp (value_at i self.now.cells) other.now }
    {
        match &self.values {
            Values::Whole(array) => compare_whole(array.get(i).copied(), other),
            Values::Text(array) => compare_text(array.get(i), other),
            Values::Truth(array) => compare_truth(array.get(i).copied(), other),
        }
    }

    /// Appends a whole number; may grow.
    pub fn push_whole(&mut self, value: i64) -> Result<(), Memory>
        requires { self.old.kind ≡ Kind.Whole }
        ensures ok { OnOk result (self.new ≡ record self.old { cells = self.old.cells ++ Cell.Whole value ∷ [] }) }
        ensures err { OnErr result (self.new ≡ self.old) }
    {
        match &mut self.values {
            Values::Whole(array) => array.push(value),
            _ => unreachable!(),
        }
    }

    /// Appends a copy of a text; allocates for the text, and may grow.
    pub fn push_text(&mut self, text: &str) -> Result<(), Memory>
        requires { self.old.kind ≡ Kind.Text }
        ensures ok { OnOk result (self.new ≡ record self.old { cells = self.old.cells ++ Cell.Text text.now ∷ [] }) }
        ensures err { OnErr result (self.new ≡ self.old) }
    {
        match &mut self.values {
            Values::Text(array) => array.push(Text::new(array.allocator(), text)?),
            _ => unreachable!(),
        }
    }

    /// Appends a truth value; may grow.
    pub fn push_truth(&mut self, value: bool) -> Result<(), Memory>
        requires { self.old.kind ≡ Kind.Truth }
        ensures ok { OnOk result (self.new ≡ record self.old { cells = self.old.cells ++ Cell.Truth value ∷ [] }) }
        ensures err { OnErr result (self.new ≡ self.old) }
    {
        match &mut self.values {
            Values::Truth(array) => array.push(value),
            _ => unreachable!(),
        }
    }

    /// Appends a null; may grow.
    pub fn push_null(&mut self) -> Result<(), Memory>
        ensures ok { OnOk result (self.new ≡ record self.old { cells = self.old.cells ++ Cell.Null ∷ [] }) }
        ensures err { OnErr result (self.new ≡ self.old) }
    {
        match &mut self.values {
            Values::Whole(array) => array.push_null(),
            Values::Text(array) => array.push_null(),
            Values::Truth(array) => array.push_null(),
        }
    }

    /// Keeps the cells that the mask marks: one pass over the values and one over their marks.
    pub fn keep(&mut self, mask: &[bool])
        requires { length mask.now ≡ length self.old.cells }
        ensures { self.new ≡ record self.old { cells = kept mask.now self.old.cells } }
    {
        match &mut self.values {
            Values::Whole(array) => array.keep(mask),
            Values::Text(array) => array.keep(mask),
            Values::Truth(array) => array.keep(mask),
        }
    }

    /// Keeps the first `n` cells, or all if there are fewer.
    pub fn cut(&mut self, n: usize)
        ensures { self.new ≡ record self.old { cells = take n self.old.cells } }
    {
        match &mut self.values {
            Values::Whole(array) => array.truncate(n),
            Values::Text(array) => array.truncate(n),
            Values::Truth(array) => array.truncate(n),
        }
    }

    /// Appends copies of another column's cells; may grow.
    pub fn append(&mut self, other: &Column) -> Result<(), Memory>
        requires { self.old.kind ≡ other.now.kind }
        ensures ok { OnOk result (self.new ≡ record self.old { cells = self.old.cells ++ other.now.cells }) }
        ensures err { OnErr result (self.new ≡ self.old) }
    {
        match (&mut self.values, &other.values) {
            (Values::Whole(array), Values::Whole(other)) => array.append(other),
            (Values::Text(array), Values::Text(other)) => array.append(other),
            (Values::Truth(array), Values::Truth(other)) => array.append(other),
            _ => unreachable!(),
        }
    }

    /// Appends another column's cells, whose values are moved; may grow.
    pub fn extend(&mut self, other: Column) -> Result<(), Memory>
        requires { self.old.kind ≡ other.kind }
        ensures ok { OnOk result (self.new ≡ record self.old { cells = self.old.cells ++ other.cells }) }
        ensures err { OnErr result (self.new ≡ self.old) }
    {
        match (&mut self.values, other.values) {
            (Values::Whole(array), Values::Whole(other)) => array.extend(other),
            (Values::Text(array), Values::Text(other)) => array.extend(other),
            (Values::Truth(array), Values::Truth(other)) => array.extend(other),
            _ => unreachable!(),
        }
    }

    /// A copy of cell `i`; allocates for a text.
    pub fn cell(&self, alloc: Global, i: usize) -> Result<Cell, Memory>
        requires { i < length self.now.cells }
        ensures { IfOk result (λ c. slice_get self.now.cells i ≡ Some c) }
    {
        match &self.values {
            Values::Whole(array) => Ok(
                array.get(i).map_or(Cell::Null, |value| Cell::Whole(*value)),
            ),
            Values::Text(array) => match array.get(i) {
                Some(text) => Ok(Cell::Text(text.copy(alloc)?)),
                None => Ok(Cell::Null),
            },
            Values::Truth(array) => Ok(
                array.get(i).map_or(Cell::Null, |value| Cell::Truth(*value)),
            ),
        }
    }

    /// Copies cell `i` into a cell, whose memory is reused if both are texts.
    pub fn read_cell(&self, alloc: Global, i: usize, cell: &mut Cell) -> Result<(), Memory>
        requires { i < length self.now.cells }
        ensures { OnOk result (slice_get self.now.cells i ≡ Some cell.new) }
    {
        match (&self.values, &mut *cell) {
            (Values::Whole(array), Cell::Whole(own)) => {
                if let Some(value) = array.get(i) {
                    *own = *value;
                    return Ok(());
                }
            }
            (Values::Text(array), Cell::Text(own)) => {
                if let Some(text) = array.get(i) {
                    return own.assign(alloc, text.as_str());
                }
            }
            _ => {}
        }
        *cell = self.cell(alloc, i)?;
        Ok(())
    }

    /// Copies of the cells at these places, each as often as it is named. A place past the end is null.
    pub fn gather(&self, alloc: Global, places: &[usize]) -> Result<Column, Memory>
        ensures { IfOk result (λ c. c ≡ record self.now { cells = map (λ p. value_at p self.now.cells) places.now }) }
    {
        let values = match &self.values {
            Values::Whole(array) => Values::Whole(array.gather(alloc, places)?),
            Values::Text(array) => Values::Text(array.gather(alloc, places)?),
            Values::Truth(array) => Values::Truth(array.gather(alloc, places)?),
        };
        Ok(Column { values })
    }

    /// Copies of the cells at these places, null where there is no place. A place past the end is null.
    pub fn gather_optional(&self, alloc: Global, places: &[Option<usize>]) -> Result<Column, Memory>
        ensures { IfOk result (λ c. c ≡ record self.now { cells = map (λ p. option_map_or (λ i. value_at i self.now.cells) p Cell.Null) places.now }) }
    {
        let values = match &self.values {
            Values::Whole(array) => Values::Whole(array.gather_optional(alloc, places)?),
            Values::Text(array) => Values::Text(array.gather_optional(alloc, places)?),
            Values::Truth(array) => Values::Truth(array.gather_optional(alloc, places)?),
        };
        Ok(Column { values })
    }

    /// An equal column in memory of its own.
    pub fn copy(&self, alloc: Global) -> Result<Column, Memory>
        ensures { IfOk result (λ c. c ≡ self.now) }
    {
        let values = match &self.values {
            Values::Whole(array) => Values::Whole(array.copy(alloc)?),
            Values::Text(array) => Values::Text(array.copy(alloc)?),
            Values::Truth(array) => Values::Truth(array.copy(alloc)?),
        };
        Ok(Column { values })
    }
}

// How a whole number, or null, is ordered beside a cell.
fn compare_whole(value: Option<i64>, other: &Cell) -> Ordering
    ensures { result ≡ cell_cmp (nullable Cell.Whole value) other.now }
{
    match (value, other) {
        (None, Cell::Null) => Ordering::Equal,
        (Some(_), Cell::Null) => Ordering::Greater,
        (Some(value), Cell::Whole(other)) => value.cmp(other),
        _ => Ordering::Less,
    }
}

// How a text, or null, is ordered beside a cell.
fn compare_text(value: Option<&Text>, other: &Cell) -> Ordering
    ensures { result ≡ cell_cmp (nullable Cell.Text (option_copied value.entry)) other.now }
{
    match (value, other) {
        (None, Cell::Null) => Ordering::Equal,
        (None, _) => Ordering::Less,
        (Some(value), Cell::Text(other)) => value.cmp(other),
        (Some(_), Cell::Truth(_)) => Ordering::Less,
        (Some(_), _) => Ordering::Greater,
    }
}

// How a truth value, or null, is ordered beside a cell.
fn compare_truth(value: Option<bool>, other: &Cell) -> Ordering
    ensures { result ≡ cell_cmp (nullable Cell.Truth value) other.now }
{
    match (value, other) {
        (None, Cell::Null) => Ordering::Equal,
        (None, _) => Ordering::Less,
        (Some(value), Cell::Truth(other)) => value.cmp(other),
        (Some(_), _) => Ordering::Greater,
    }
}
