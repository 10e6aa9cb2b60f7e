//! What a running value of an aggregate does.
ghost use Rattle.std.specs.Prelude.{◌≡◌, ◌+◌, ◌<◌, ◌^◌, ℕ, [], ◌∷◌, ◌++◌, length, OnOk};
ghost use Rattle.fq_column.specs.Frame.{value_at};
ghost use Rattle.fq_ops.specs.Running.{AggregateState, IsBoundedBy, of_kind, outcome, start_of, stepped};
ghost use Rattle.fq_ops.specs.declared.aggregates.Function.{Function};

use crate::groups::MAX_GROUPED_ROWS;
use fq_column::{Cell, Column, Kind, Memory};
use std::alloc::Global;

/// The value of an aggregate over the rows of a group so far.
pub trait State: Drop {
    // The aggregate function.
    ghost function: { Function };
    // What it says of the rows so far.
    ghost running: { Self → AggregateState };

    /// The value over no row; allocates nothing.
    fn start(alloc: Global) -> Self
        ensures { running result ≡ start_of function };

    /// Takes one more row, whose cell stands in a column; copies the cell if it must be kept.
    fn step(&mut self, alloc: Global, column: &Column, row: usize) -> Result<(), Memory>
        requires row { row < length column.now.cells }
        requires few { IsBoundedBy MAX_GROUPED_ROWS (running self.old) }
        ensures stepped { OnOk result (running self.new ≡ stepped (running self.old) (value_at row column.now.cells)) }
        ensures bounded { OnOk result ((n : ℕ) → IsBoundedBy n (running self.old) → IsBoundedBy (n + 1) (running self.new)) };

    /// Appends the aggregate to a column, or null if it does not fit 64 bits or is of another kind.
    fn push_to(&self, column: &mut Column) -> Result<(), Memory>
        requires { IsBoundedBy MAX_GROUPED_ROWS (running self.now) }
        ensures { OnOk result (column.new ≡ record column.old { cells = column.old.cells ++ of_kind column.old.kind (outcome (running self.now)) ∷ [] }) };
}

/// Appends a copy of a cell to a column, or null if the cell is of another kind.
pub fn push_cell(column: &mut Column, cell: &Cell) -> Result<(), Memory>
    ensures { OnOk result (column.new ≡ record column.old { cells = column.old.cells ++ of_kind column.old.kind cell.now ∷ [] }) }
{
    match cell {
        Cell::Null => column.push_null(),
        Cell::Whole(value) => match column.kind() {
            Kind::Whole => column.push_whole(*value),
            Kind::Text => column.push_null(),
            Kind::Truth => column.push_null(),
        },
        Cell::Text(text) => match column.kind() {
            Kind::Whole => column.push_null(),
            Kind::Text => column.push_text(text.as_str()),
            Kind::Truth => column.push_null(),
        },
        Cell::Truth(value) => match column.kind() {
            Kind::Whole => column.push_null(),
            Kind::Text => column.push_null(),
            Kind::Truth => column.push_truth(*value),
        },
    }
}
