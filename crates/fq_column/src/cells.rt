//! Kinds and cells.
ghost use Rattle.std.specs.Prelude.{◌≡◌, IfOk};

use crate::faults::Memory;
use crate::texts::Text;
use std::alloc::Global;
use std::hash::{Hash, Hasher};

/// The kind of a column.
#[derive(Clone, Copy, Debug, PartialEq, Eq)]
pub enum Kind {
    /// Whole numbers of 64 bits.
    Whole,
    /// Texts in UTF-8.
    Text,
    /// Truth values.
    Truth,
}

/// The value in one place of a column.
///
/// Cells are ordered by kind, in the order of the variants, and within a kind whole numbers by value, texts by their
/// UTF-8 bytes, and false before true. Null is equal to null: this is the equality of keys, not that of `eq`.
#[derive(Debug, Drop, PartialEq, Eq, PartialOrd, Ord)]
pub enum Cell {
    /// No value.
    Null,
    /// A whole number.
    Whole(i64),
    /// A text.
    Text(Text),
    /// A truth value.
    Truth(bool),
}

impl Cell {
    /// An equal cell in memory of its own; allocates for a text of more than 24 bytes.
    pub fn copy(&self, alloc: Global) -> Result<Cell, Memory>
        ensures { IfOk result (λ c. c ≡ self.now) }
    {
        match self {
            Cell::Null => Ok(Cell::Null),
            Cell::Whole(value) => Ok(Cell::Whole(*value)),
            Cell::Text(text) => Ok(Cell::Text(text.copy(alloc)?)),
            Cell::Truth(value) => Ok(Cell::Truth(*value)),
        }
    }
}

impl Default for Cell {
    ghost use Rattle.std.specs.Prelude.{◌≡◌};
    ghost use Rattle.fq_column.specs.declared.cells.Cell.TheVariants as cell;

    ghost is_default = { λ c. c ≡ cell.Null };

    /// Null.
    fn default() -> Cell {
        Cell::Null
    }
}

impl Hash for Cell {
    ghost use Rattle.fq_column.specs.Hashed.{cell_writes, alike};

    ghost hash_input = { cell_writes };

    ghost respects_eq = { alike };

    /// One write for a value, without its kind: the cells of a column are of one kind, or null.
    fn hash<H: Hasher>(&self, state: &mut H) {
        match self {
            Cell::Null => state.write_u8(2),
            Cell::Whole(value) => value.hash(state),
            Cell::Text(text) => text.hash(state),
            Cell::Truth(value) => value.hash(state),
        }
    }
}
