//! Keys of joins and groups: the values of a row in the key columns.
ghost use Rattle.std.specs.Prelude.{◌≡◌, ◌<◌, List, [], length, replicate, All, IfOk, OnOk, slice_get, slice_index_or, option_copied};
ghost use Rattle.std.specs.Cmp.Lexicographic.{pointwise, lists_per, lists_equiv};
ghost use Rattle.std.specs.List.{flat_map, list_any};
ghost use Rattle.fq_column.specs.Cell.{is_null};
ghost use Rattle.fq_column.specs.contracts.cells.CellPartialEq.TheImpl.Laws.{laws-law as cell_partial_eq};
ghost use Rattle.fq_column.specs.contracts.cells.CellEq.TheImpl.Laws.{laws-law as cell_eq};
ghost use Rattle.fq_column.specs.contracts.cells.CellHash.TheImpl.Laws.{respects_eq-law as cell_hash};
ghost use Rattle.fq_column.specs.declared.cells.Cell.{Cell as Value};
ghost use Rattle.fq_ops.specs.Group.{same_key};
ghost use Rattle.fq_ops.specs.Grouping.{key_at};
ghost use Rattle.fq_ops.specs.Hashed.{items_alike};

use fq_column::{Batch, Cell, Memory};
use smallvec::SmallVec;
use std::alloc::Global;
use std::hash::{Hash, Hasher};
use std::marker::Model;

/// The values of a row in the key columns.
///
/// One lies in the key itself, so that a key of one column needs no allocation, but for a long text.
#[derive(Drop)]
pub struct Key {
    cells: SmallVec<Cell, 1>,
}

impl Model for Key {
    ghost use Rattle.std.specs.Prelude.{List};
    ghost use Rattle.fq_column.specs.declared.cells.Cell.{Cell};

    ghost Value = { List Cell };

    ghost view = { λ k. k.cells.items };
}

impl Key {
    /// A key of this many nulls.
    pub fn nulls(alloc: Global, count: usize) -> Result<Key, Memory>
        ensures { IfOk result (λ key. key ≡ replicate count Cell.Null) }
    {
        let mut cells = SmallVec::with_capacity(alloc, count)?;
        for _ in 0..count {
            cells.push(Cell::Null)?;
        }
        Ok(Key { cells })
    }

    /// Takes the values of a row, in the key's own memory if it is large enough.
    pub fn read(
        &mut self,
        alloc: Global,
        batch: &Batch,
        places: &[usize],
        row: usize,
    ) -> Result<(), Memory>
        requires row { row < length batch.now.rows }
        requires places { All (λ p. p < length batch.now.fields) places.now }
        requires size { length self.old ≡ length places.now }
        ensures read { OnOk result (self.new ≡ key_at places.now (slice_index_or batch.now.rows row [])) }
        ensures size { length self.new ≡ length places.now }
    {
        read_cells(alloc, batch, places, row, self.cells.as_mut_slice())
    }

    /// An equal key in memory of its own.
    pub fn copy(&self, alloc: Global) -> Result<Key, Memory>
        ensures { IfOk result (λ key. key ≡ self.now) }
    {
        let mut cells = SmallVec::with_capacity(alloc, self.cells.len())?;
        for cell in self.cells.as_slice() {
            cells.push(cell.copy(alloc)?)?;
        }
        Ok(Key { cells })
    }

    /// The value in a key column.
    pub fn cell(&self, place: usize) -> Option<&Cell>
        ensures { option_copied result ≡ slice_get self.now place }
    {
        self.cells.as_slice().get(place)
    }

    /// Whether a value is null.
    pub fn has_null(&self) -> bool
        ensures { result ≡ list_any is_null self.now }
    {
        self.cells.iter().any(|cell| matches!(cell, Cell::Null))
    }
}

impl PartialEq for Key {
    ghost eq = { pointwise ⟦<Cell as PartialEq>⟧.eq };

    ghost laws = { lists_per cell_partial_eq };

    fn eq(&self, other: &Key) -> bool {
        match (self.cells.as_slice(), other.cells.as_slice()) {
            ([cell], [other]) => cell == other,
            (cells, others) => cells == others,
        }
    }
}

impl Eq for Key {
    ghost laws = { lists_equiv cell_eq };
}

impl Hash for Key {
    ghost hash_input = { flat_map ⟦<Cell as Hash>⟧.hash_input };

    ghost respects_eq = { items_alike cell_hash };

    /// The values alone: the keys of a set have one length.
    fn hash<H: Hasher>(&self, state: &mut H) {
        Cell::hash_slice(self.cells.as_slice(), state);
    }
}

/// Keys are equal by the table's equality exactly when they are by the definitions.
pub fn key_law()
    ensures { (a b : List Value) → ⟦<Key as PartialEq>⟧.eq a b ≡ same_key a b }
{}

// Takes the values of a row at these places.
fn read_cells(
    alloc: Global,
    batch: &Batch,
    places: &[usize],
    row: usize,
    cells: &mut [Cell],
) -> Result<(), Memory>
    requires row { row < length batch.now.rows }
    requires places { All (λ p. p < length batch.now.fields) places.now }
    requires size { length cells.old ≡ length places.now }
    ensures { OnOk result (cells.new ≡ key_at places.now (slice_index_or batch.now.rows row [])) }
{
    for i in 0..places.len() {
        batch
            .column(places[i])
            .read_cell(alloc, row, &mut cells[i])?;
    }
    Ok(())
}
