//! Operations on two values, and the loop that runs one over the rows of a batch.
ghost use Rattle.std.specs.Prelude.{◌≡◌, false, map, Option, IfOk, option_copied};
ghost use Rattle.fq_column.specs.declared.cells.Cell.{Cell};
ghost use Rattle.fq_column.specs.Cell.{cell_cmp, is_null, same_cell};
ghost use Rattle.fq_column.specs.Column.{nullable};
ghost use Rattle.fq_column.specs.Lists.{before_missing, zip_with};
ghost use Rattle.fq_expr.specs.Computed.{computed_cell};
ghost use Rattle.fq_expr.specs.Operand.{HasRows, cells_in};

use crate::operands::Operand;
use fq_column::{Array, Element, Memory, Text};
use std::alloc::Global;

/// What an operation makes of a row.
#[derive(Drop)]
pub enum Computed<T> {
    /// A value.
    Value(T),
    /// Null.
    Null,
    /// A whole number that does not fit 64 bits.
    Fault,
}

/// A value that a cell can hold.
pub trait Datum: Element + Ord {
    /// The cell of the value.
    ghost cell: { Self → Cell };

    /// Cells are ordered as their values are.
    ghost ordered: { (x y : Self) → cell_cmp (cell x) (cell y) ≡ Self.cmp x y };

    /// Cells are the same exactly when their values are equal.
    ghost same: { (x y : Self) → same_cell (cell x) (cell y) ≡ Self.eq x y };

    /// The cell of a value is not null.
    ghost present: { (x : Self) → is_null (cell x) ≡ false };
}

impl Datum for i64 {
    ghost use Rattle.std.specs.Prelude.{refl};
    ghost use Rattle.fq_column.specs.declared.cells.Cell.TheVariants as cells;

    ghost cell = { λ x. cells.Whole x };

    ghost ordered = { λ x y. refl };

    ghost same = { λ x y. refl };

    ghost present = { λ x. refl };
}

impl Datum for Text {
    ghost use Rattle.std.specs.Prelude.{refl};
    ghost use Rattle.fq_column.specs.declared.cells.Cell.TheVariants as cells;

    ghost cell = { λ x. cells.Text x };

    ghost ordered = { λ x y. refl };

    ghost same = { λ x y. refl };

    ghost present = { λ x. refl };
}

impl Datum for bool {
    ghost use Rattle.std.specs.Prelude.{refl, true, false};
    ghost use Rattle.fq_column.specs.declared.cells.Cell.TheVariants as cells;

    ghost cell = { λ x. cells.Truth x };

    ghost ordered = { λ x y. refl };

    ghost same = { elim [ true ↦ elim [ true ↦ refl | false ↦ refl ] | false ↦ elim [ true ↦ refl | false ↦ refl ] ] };

    ghost present = { λ x. refl };
}

/// An operation on two values, either of which may be null.
pub trait Operation<A: Datum, B: Datum, C: Datum> {
    /// What it gives for two cells, or a fault.
    ghost gives: { Self → Cell → Cell → Option Cell };

    /// What it makes of the values of a row; allocates for a text.
    fn at(&self, alloc: Global, left: Option<&A>, right: Option<&B>) -> Result<Computed<C>, Memory>
        ensures { IfOk result (λ made. computed_cell C.cell made
            ≡ gives self.now (nullable A.cell (option_copied left.entry)) (nullable B.cell (option_copied right.entry))) };
}

/// What the operation makes of each of the first `rows` rows, up to the first where it faults: one loop.
pub fn run<A: Datum, B: Datum, C: Datum, O: Operation<A, B, C>>(
    alloc: Global,
    operation: &O,
    rows: usize,
    left: &Operand<A>,
    right: &Operand<B>,
) -> Result<Array<C>, Memory>
    requires left { HasRows rows left.now }
    requires right { HasRows rows right.now }
    ensures { IfOk result (λ array. map (nullable C.cell) array
        ≡ before_missing (zip_with (O.gives operation.now) (cells_in A.cell rows left.now) (cells_in B.cell rows right.now))) }
{
    let mut values = Array::with_capacity(alloc, rows)?;
    for i in 0..rows {
        match operation.at(alloc, left.get(i), right.get(i))? {
            Computed::Value(value) => values.push(value)?,
            Computed::Null => values.push_null()?,
            Computed::Fault => return Ok(values),
        }
    }
    Ok(values)
}
