//! Running values of aggregates.
ghost use Rattle.std.specs.Prelude.{◌≡◌, ◌<◌, length, not, ◌&&◌, ◌||◌, is_some, OnOk};
ghost use Rattle.std.specs.Ordering.{is_lt, is_gt};
ghost use Rattle.indexmap.specs.IndexSet.{insert_key};
ghost use Rattle.fq_column.specs.Cell.{cell_cmp, is_null, same_cell};
ghost use Rattle.fq_column.specs.Frame.{value_at};
ghost use Rattle.fq_column.specs.declared.cells.Cell.{Cell as Value};
ghost use Rattle.fq_ops.specs.Running as state;
ghost use Rattle.fq_ops.specs.Running.{addend, finished};
ghost use Rattle.fq_ops.specs.declared.aggregates.Function.{Function};

use crate::running::{State, push_cell};
use fq_column::{Cell, Column, Memory, Values};
use indexmap::IndexSet;
use std::alloc::Global;

/// The sum of the whole numbers.
#[derive(Drop)]
pub struct Sum(i128);

impl Sum {
    /// Whether the sum fits 64 bits.
    pub fn fits(&self) -> bool
        ensures { result ≡ is_some (finished (state.Sum self.now.0)) }
    {
        i64::try_from(self.0).is_ok()
    }
}

impl State for Sum {
    ghost function = { Function.Sum };

    ghost running = { λ s. state.Sum s.0 };

    fn start(_alloc: Global) -> Sum {
        Sum(0)
    }

    fn step(&mut self, _alloc: Global, column: &Column, row: usize) -> Result<(), Memory> {
        self.0 += whole_or_zero(column, row) as i128;
        Ok(())
    }

    fn push_to(&self, column: &mut Column) -> Result<(), Memory> {
        match i64::try_from(self.0) {
            Ok(sum) => push_cell(column, &Cell::Whole(sum)),
            Err(_) => push_cell(column, &Cell::Null),
        }
    }
}

/// The least value, or null.
#[derive(Drop)]
pub struct Least(Cell);

impl State for Least {
    ghost function = { Function.Min };

    ghost running = { λ s. state.Min s.0 };

    fn start(_alloc: Global) -> Least {
        Least(Cell::Null)
    }

    fn step(&mut self, alloc: Global, column: &Column, row: usize) -> Result<(), Memory> {
        let best = &mut self.0;
        if is_less(column, row, best) {
            column.read_cell(alloc, row, best)?;
        }
        Ok(())
    }

    fn push_to(&self, column: &mut Column) -> Result<(), Memory> {
        push_cell(column, &self.0)
    }
}

/// The greatest value, or null.
#[derive(Drop)]
pub struct Greatest(Cell);

impl State for Greatest {
    ghost function = { Function.Max };

    ghost running = { λ s. state.Max s.0 };

    fn start(_alloc: Global) -> Greatest {
        Greatest(Cell::Null)
    }

    fn step(&mut self, alloc: Global, column: &Column, row: usize) -> Result<(), Memory> {
        let best = &mut self.0;
        if is_greater(column, row, best) {
            column.read_cell(alloc, row, best)?;
        }
        Ok(())
    }

    fn push_to(&self, column: &mut Column) -> Result<(), Memory> {
        push_cell(column, &self.0)
    }
}

/// The number of values that are not null.
#[derive(Drop)]
pub struct Count(u64);

impl State for Count {
    ghost function = { Function.Count };

    ghost running = { λ s. state.Count s.0 };

    fn start(_alloc: Global) -> Count {
        Count(0)
    }

    fn step(&mut self, _alloc: Global, column: &Column, row: usize) -> Result<(), Memory> {
        if !column.is_null(row) {
            self.0 += 1;
        }
        Ok(())
    }

    fn push_to(&self, column: &mut Column) -> Result<(), Memory> {
        push_cell(column, &Cell::Whole(self.0 as i64))
    }
}

/// The number of rows.
#[derive(Drop)]
pub struct RowCount(u64);

impl State for RowCount {
    ghost function = { Function.Len };

    ghost running = { λ s. state.Len s.0 };

    fn start(_alloc: Global) -> RowCount {
        RowCount(0)
    }

    fn step(&mut self, _alloc: Global, _column: &Column, _row: usize) -> Result<(), Memory> {
        self.0 += 1;
        Ok(())
    }

    fn push_to(&self, column: &mut Column) -> Result<(), Memory> {
        push_cell(column, &Cell::Whole(self.0 as i64))
    }
}

/// The first row's cell.
#[derive(Drop)]
pub struct First(Option<Cell>);

impl State for First {
    ghost function = { Function.First };

    ghost running = { λ s. state.First s.0 };

    fn start(_alloc: Global) -> First {
        First(None)
    }

    fn step(&mut self, alloc: Global, column: &Column, row: usize) -> Result<(), Memory> {
        if self.0.is_none() {
            self.0 = Some(column.cell(alloc, row)?);
        }
        Ok(())
    }

    fn push_to(&self, column: &mut Column) -> Result<(), Memory> {
        match &self.0 {
            Some(cell) => push_cell(column, cell),
            None => push_cell(column, &Cell::Null),
        }
    }
}

/// The last row's cell, or null.
#[derive(Drop)]
pub struct Last(Cell);

impl State for Last {
    ghost function = { Function.Last };

    ghost running = { λ s. state.Last s.0 };

    fn start(_alloc: Global) -> Last {
        Last(Cell::Null)
    }

    fn step(&mut self, alloc: Global, column: &Column, row: usize) -> Result<(), Memory> {
        column.read_cell(alloc, row, &mut self.0)
    }

    fn push_to(&self, column: &mut Column) -> Result<(), Memory> {
        push_cell(column, &self.0)
    }
}

/// The distinct values, null among them.
#[derive(Drop)]
pub struct Distinct(IndexSet<Cell>);

impl State for Distinct {
    ghost function = { Function.NUnique };

    ghost running = { λ s. state.NUnique s.0.keys };

    fn start(alloc: Global) -> Distinct {
        Distinct(IndexSet::new(alloc))
    }

    fn step(&mut self, alloc: Global, column: &Column, row: usize) -> Result<(), Memory> {
        cell_law();
        self.0.insert(column.cell(alloc, row)?)?;
        Ok(())
    }

    fn push_to(&self, column: &mut Column) -> Result<(), Memory> {
        push_cell(column, &Cell::Whole(self.0.len() as i64))
    }
}

// Cells are equal by the derived test exactly when they are by the definitions.
fn cell_law()
    ensures { (a b : Value) → ⟦<Cell as PartialEq>⟧.eq a b ≡ same_cell a b }
{}

// Whether a row's cell takes the place of the least so far.
fn is_less(column: &Column, row: usize, best: &Cell) -> bool
    requires { row < length column.now.cells }
    ensures { result ≡ (not (is_null (value_at row column.now.cells))
        && (is_null best.now || is_lt (cell_cmp (value_at row column.now.cells) best.now))) }
{
    !column.is_null(row) && (matches!(best, Cell::Null) || column.compare(row, best).is_lt())
}

// Whether a row's cell takes the place of the greatest so far.
fn is_greater(column: &Column, row: usize, best: &Cell) -> bool
    requires { row < length column.now.cells }
    ensures { result ≡ (not (is_null (value_at row column.now.cells))
        && (is_null best.now || is_gt (cell_cmp (value_at row column.now.cells) best.now))) }
{
    !column.is_null(row) && (matches!(best, Cell::Null) || column.compare(row, best).is_gt())
}

// What a cell of a column adds to a sum: 0 if it is not a whole number.
fn whole_or_zero(column: &Column, row: usize) -> i64
    requires { row < length column.now.cells }
    ensures { result ≡ addend (value_at row column.now.cells) }
{
    match column.values() {
        Values::Whole(array) => array.get(row).map_or(0, |value| *value),
        Values::Text(_) => 0,
        Values::Truth(_) => 0,
    }
}
