//! Sets of keys, numbered in the order of first appearance.
ghost use Rattle.std.specs.Prelude.{◌≡◌, ◌<◌, ◌≤◌, ◌∷◌, ◌++◌, ◌↔◌, Bool, IsTrue, true, List, [], All, is_some, length, map, position, replicate, slice_index_or, string_bytes, Option as Optional, ℤ, IfOk, OnOk};
ghost use Rattle.std.specs.List.{list_any, position_or_len};
ghost use Rattle.indexmap.specs.IndexSet.{insert_key};
ghost use Rattle.fq_column.specs.Cell.{is_null};
ghost use Rattle.fq_column.specs.Column.{nullable};
ghost use Rattle.fq_column.specs.declared.cells.Cell.{Cell as Value};
ghost use Rattle.fq_column.specs.Lists.{numbers};
ghost use Rattle.fq_ops.specs.Accumulated.{key_pick};
ghost use Rattle.fq_ops.specs.Group.{same_key};
ghost use Rattle.fq_ops.specs.Grouping.{key_at};
ghost use Rattle.fq_ops.specs.KeySets.{IsWholeAt, IsWholeNamed, whole_key};
ghost use Rattle.fq_ops.specs.Picks.{column_of};

use crate::keys::{Key, key_law};
use crate::running::push_cell;
use fq_column::{Batch, Cell, Column, Kind, Memory, Schema, Values};
use indexmap::IndexSet;
use std::alloc::Global;
use std::marker::Model;

// One of two forms: that of one whole number or null, and that of the values of any columns.
#[derive(Drop)]
enum Form<W, A> {
    Whole(W),
    Any(A),
}

/// The key of a row.
#[derive(Drop)]
pub struct RowKey {
    form: Form<Option<i64>, Key>,
}

impl Model for RowKey {
    ghost use Rattle.fq_ops.specs.KeySets.{KeyOfRow, key_of_row};

    ghost Value = { KeyOfRow };

    ghost view = { λ key. key_of_row key.form };
}

impl RowKey {
    /// A key of this many nulls, at least one.
    pub fn nulls(alloc: Global, is_whole: bool, count: usize) -> Result<RowKey, Memory>
        requires some { 1 ≤ count }
        requires whole { is_whole ≡ true → count ≡ 1 }
        ensures whole { IfOk result (λ key. key.is_whole ≡ is_whole) }
        ensures cells { IfOk result (λ key. key.cells ≡ replicate count Value.Null) }
    {
        let form = if is_whole {
            Form::Whole(None)
        } else {
            Form::Any(Key::nulls(alloc, count)?)
        };
        Ok(RowKey { form })
    }

    /// Takes the values of a row.
    pub fn read(
        &mut self,
        alloc: Global,
        batch: &Batch,
        places: &[usize],
        row: usize,
    ) -> Result<(), Memory>
        requires row { row < length batch.now.rows }
        requires places { All (λ p. p < length batch.now.fields) places.now }
        requires size { length self.old.cells ≡ length places.now }
        requires whole { self.old.is_whole ≡ true → IsWholeAt batch.now.fields places.now }
        ensures read { OnOk result (self.new.cells ≡ key_at places.now (slice_index_or batch.now.rows row [])) }
        ensures size { length self.new.cells ≡ length places.now }
        ensures whole { self.new.is_whole ≡ self.old.is_whole }
    {
        match &mut self.form {
            Form::Whole(value) => {
                *value = read_whole(batch, places, row);
                Ok(())
            }
            Form::Any(key) => key.read(alloc, batch, places, row),
        }
    }

    /// Whether a value is null.
    pub fn has_null(&self) -> bool
        ensures { result ≡ list_any is_null self.now.cells }
    {
        match &self.form {
            Form::Whole(value) => value.is_none(),
            Form::Any(key) => key.has_null(),
        }
    }
}

// The whole number of a row in the column at a place.
fn read_whole(batch: &Batch, places: &[usize], row: usize) -> Option<i64>
    requires row { row < length batch.now.rows }
    requires places { All (λ p. p < length batch.now.fields) places.now }
    requires whole { IsWholeAt batch.now.fields places.now }
    ensures { whole_key result ≡ key_at places.now (slice_index_or batch.now.rows row []) }
{
    let column = batch.column(places[0]);
    match column.values() {
        Values::Whole(array) => array.get(row).copied(),
        _ => unreachable!(),
    }
}

/// Whether the key of these columns is one whole number or null.
pub fn is_whole_key(schema: &Schema, names: &[String]) -> bool
    ensures { IsTrue result ↔ IsWholeNamed schema.now (map string_bytes names.now) }
{
    names.len() == 1 && matches!(schema.kind_of(names[0].as_str()), Ok(Kind::Whole))
}

/// Keys of whole numbers are equal by the table's equality exactly when they are by the definitions.
pub fn whole_law()
    ensures { (a b : Optional ℤ) → ⟦<Option<i64> as PartialEq>⟧.eq a b ≡ same_key (whole_key a) (whole_key b) }
{}

/// What the keys that come are expected to be, which decides what costs less.
#[derive(Clone, Copy)]
pub enum Mostly {
    /// In the set: a key is looked up first, and copied if it is new.
    Known,
    /// New: a key is copied at once, for one lookup.
    New,
}

/// Distinct keys, numbered in the order of first appearance. One whole number is kept as it is.
#[derive(Drop)]
pub struct KeySet {
    form: Form<IndexSet<Option<i64>>, IndexSet<Key>>,
}

impl Model for KeySet {
    ghost use Rattle.fq_ops.specs.KeySets.{KeysOfRows, keys_of_set};

    ghost Value = { KeysOfRows };

    ghost view = { λ set. keys_of_set set.form };
}

impl KeySet {
    /// No key, with room for this many.
    pub fn with_capacity(alloc: Global, is_whole: bool, capacity: usize) -> Result<KeySet, Memory>
        ensures keys { IfOk result (λ set. set.keys ≡ []) }
        ensures whole { IfOk result (λ set. set.is_whole ≡ is_whole) }
    {
        let form = if is_whole {
            Form::Whole(IndexSet::with_capacity(alloc, capacity)?)
        } else {
            Form::Any(IndexSet::with_capacity(alloc, capacity)?)
        };
        Ok(KeySet { form })
    }

    /// How many keys there are.
    pub fn len(&self) -> usize
        ensures { result ≡ length self.now.keys }
    {
        match &self.form {
            Form::Whole(seen) => seen.len(),
            Form::Any(seen) => seen.len(),
        }
    }

    /// Whether each key is kept as one whole number or null.
    pub fn is_whole(&self) -> bool
        ensures { result ≡ self.now.is_whole }
    {
        matches!(&self.form, Form::Whole(_))
    }

    /// The number of a key, which is inserted if it is new, as a copy.
    pub fn number_of(
        &mut self,
        alloc: Global,
        key: &RowKey,
        mostly: Mostly,
    ) -> Result<usize, Memory>
        requires whole { key.now.is_whole ≡ self.old.is_whole }
        ensures keys { OnOk result (self.new.keys ≡ insert_key same_key self.old.keys key.now.cells) }
        ensures index { IfOk result (λ i. i ≡ position_or_len (same_key key.now.cells) self.old.keys) }
        ensures within { IfOk result (λ i. i < length self.new.keys) }
        ensures whole { self.new.is_whole ≡ self.old.is_whole }
    {
        match (&mut self.form, &key.form) {
            (Form::Whole(seen), Form::Whole(value)) => insert_whole(seen, *value),
            (Form::Any(seen), Form::Any(key)) => match mostly {
                Mostly::Known => number_of(alloc, seen, key),
                Mostly::New => insert_copy(alloc, seen, key),
            },
            _ => unreachable!(),
        }
    }

    /// The number of a key, if it is there.
    pub fn find(&self, key: &RowKey) -> Option<usize>
        requires { key.now.is_whole ≡ self.now.is_whole }
        ensures index { result ≡ position (same_key key.now.cells) self.now.keys }
        ensures found { is_some result ≡ list_any (same_key key.now.cells) self.now.keys }
    {
        match (&self.form, &key.form) {
            (Form::Whole(seen), Form::Whole(value)) => find_whole(seen, *value),
            (Form::Any(seen), Form::Any(key)) => find_any(seen, key),
            _ => unreachable!(),
        }
    }

    /// The column of the keys' cells at a place, with null where a cell is of another kind.
    pub fn column(&self, alloc: Global, kind: Kind, place: usize) -> Result<Column, Memory>
        ensures { IfOk result (λ column. column ≡ column_of (numbers (length self.now.keys)) (key_pick kind place self.now.keys)) }
    {
        match &self.form {
            Form::Whole(seen) => whole_column(alloc, kind, seen.as_slice(), place),
            Form::Any(seen) => key_column(alloc, kind, seen.as_slice(), place),
        }
    }
}

// The number of a whole number, which is inserted if it is new.
fn insert_whole(seen: &mut IndexSet<Option<i64>>, value: Option<i64>) -> Result<usize, Memory>
    ensures keys { OnOk result (map whole_key seen.new.keys ≡ insert_key same_key (map whole_key seen.old.keys) (whole_key value)) }
    ensures index { IfOk result (λ i. i ≡ position_or_len (same_key (whole_key value)) (map whole_key seen.old.keys)) }
    ensures within { IfOk result (λ i. i < length (map whole_key seen.new.keys)) }
{
    whole_law();
    let (i, _) = seen.insert_full(value)?;
    Ok(i)
}

// The number of a whole number, if it is there.
fn find_whole(seen: &IndexSet<Option<i64>>, value: Option<i64>) -> Option<usize>
    ensures index { result ≡ position (same_key (whole_key value)) (map whole_key seen.now.keys) }
    ensures found { is_some result ≡ list_any (same_key (whole_key value)) (map whole_key seen.now.keys) }
{
    whole_law();
    seen.get_index_of(&value)
}

// The number of a key, which is inserted if it is new, and then copied.
fn number_of(alloc: Global, seen: &mut IndexSet<Key>, key: &Key) -> Result<usize, Memory>
    ensures keys { OnOk result (seen.new.keys ≡ insert_key same_key seen.old.keys key.now) }
    ensures index { IfOk result (λ i. i ≡ position_or_len (same_key key.now) seen.old.keys) }
    ensures within { IfOk result (λ i. i < length seen.new.keys) }
{
    key_law();
    if let Some(i) = seen.get_index_of(key) {
        return Ok(i);
    }
    insert_copy(alloc, seen, key)
}

// The number of a key, which is copied at once and inserted if it is new.
fn insert_copy(alloc: Global, seen: &mut IndexSet<Key>, key: &Key) -> Result<usize, Memory>
    ensures keys { OnOk result (seen.new.keys ≡ insert_key same_key seen.old.keys key.now) }
    ensures index { IfOk result (λ i. i ≡ position_or_len (same_key key.now) seen.old.keys) }
    ensures within { IfOk result (λ i. i < length seen.new.keys) }
{
    key_law();
    let own = key.copy(alloc)?;
    let (i, _) = seen.insert_full(own)?;
    Ok(i)
}

// The number of a key, if it is there.
fn find_any(seen: &IndexSet<Key>, key: &Key) -> Option<usize>
    ensures index { result ≡ position (same_key key.now) seen.now.keys }
    ensures found { is_some result ≡ list_any (same_key key.now) seen.now.keys }
{
    key_law();
    seen.get_index_of(key)
}

// The column of whole numbers at a place of their keys, with null where they are of another kind.
fn whole_column(
    alloc: Global,
    kind: Kind,
    values: &[Option<i64>],
    place: usize,
) -> Result<Column, Memory>
    ensures { IfOk result (λ column. column ≡ column_of (numbers (length (map whole_key values.now))) (key_pick kind place (map whole_key values.now))) }
{
    let mut column = Column::with_capacity(alloc, kind, values.len())?;
    for i in 0..values.len() {
        let value = if place == 0 { values[i] } else { None };
        let cell = whole_cell(value);
        push_cell(&mut column, &cell)?;
    }
    Ok(column)
}

// The cell of a whole number, or null.
fn whole_cell(value: Option<i64>) -> Cell
    ensures { result ≡ nullable Value.Whole value }
{
    match value {
        Some(number) => Cell::Whole(number),
        None => Cell::Null,
    }
}

// The column of the keys' cells at a place, with null where a cell is of another kind.
fn key_column(alloc: Global, kind: Kind, keys: &[Key], place: usize) -> Result<Column, Memory>
    ensures { IfOk result (λ column. column ≡ column_of (numbers (length keys.now)) (key_pick kind place keys.now)) }
{
    let mut column = Column::with_capacity(alloc, kind, keys.len())?;
    for i in 0..keys.len() {
        match keys[i].cell(place) {
            Some(cell) => push_cell(&mut column, cell)?,
            None => column.push_null()?,
        }
    }
    Ok(column)
}
