//! Batches: a schema and rows, kept as columns.
ghost use Rattle.std.specs.Prelude.{◌≡◌, ◌<◌, ◌≤◌, ◌++◌, ◌==◌, [], Some, None, take, length, map, not, All, IfOk, IfErr, IfNone, OnOk, OnErr, MatchResult, slice_get};
ghost use Rattle.std.specs.Bool.{OnFalse};
ghost use Rattle.std.specs.List.{list_all, zip};
ghost use Rattle.std.specs.Vec.Iter.{into_iter_items};
ghost use Rattle.std.specs.Cmp.Lexicographic.{pointwise};
ghost use Rattle.fq_column.specs.Batch.{frame_of, frame_with, batch_fault, has_kind_of, height_of, joined_cells, kind_of_cells, with_cells, without_cells, StandsIn};
ghost use Rattle.fq_column.specs.Column.{AreOfKind};
ghost use Rattle.fq_column.specs.Frame.{IsFrame, IsSchema, column_at, kinds_of, names_of, put_named};
ghost use Rattle.fq_column.specs.Lists.{keep as kept, zip_with};

use crate::cells::Cell;
use crate::columns::Column;
use crate::faults::{BatchFault, Memory};
use crate::schemas::{MAX_COLUMNS, Schema};
use std::alloc::Global;
use std::marker::Model;
use std::vec::IntoIter;

/// A schema and rows that fit it.
#[derive(Debug, Drop)]
pub struct Batch {
    schema: Schema,
    columns: Vec<Column>,
}

impl Model for Batch {
    ghost use Rattle.fq_column.specs.Frame.{Frame};

    ghost Value = { Frame };

    ghost use Rattle.fq_column.specs.Batch.{frame_of, StandsIn};

    ghost view = { λ b. frame_of b.schema b.columns.items };

    ghost invariant = { λ b. StandsIn b.schema b.columns.items };
}

impl Batch {
    /// The batch of a schema's columns, with no copy.
    ///
    /// Refused, in this order: `Width` if there are more or fewer columns than the schema has, `Kind` if a column is not
    /// of its kind, `Length` if two columns differ in length. A refusal hands the schema and the columns back.
    pub fn from_columns(
        schema: Schema,
        columns: Vec<Column>,
    ) -> Result<Batch, (BatchFault, Schema, Vec<Column>)>
        ensures ok { IfOk result (λ b. b ≡ frame_of schema columns.items) }
        ensures refused { MatchResult result
            (λ _. batch_fault schema columns.items ≡ None)
            (λ e. batch_fault schema columns.items ≡ Some e.0) }
        ensures handed_back { IfErr result (λ e. (e.1 ≡ schema) × (e.2 ≡ columns)) }
    {
        match fault_of(&schema, columns.as_slice()) {
            None => Ok(Batch { schema, columns }),
            Some(fault) => Err((fault, schema, columns)),
        }
    }

    /// The batch of columns that have the kinds of a schema, in its order, and one length; with no copy.
    pub fn new(schema: Schema, columns: Vec<Column>) -> Batch
        requires kinds { map kind_of_cells columns.items ≡ kinds_of schema }
        requires lengths { All (λ c. length c.cells ≡ height_of columns.items) columns.items }
        ensures { result ≡ frame_of schema columns.items }
    {
        match Batch::from_columns(schema, columns) {
            Ok(batch) => batch,
            Err(_) => unreachable!(),
        }
    }

    /// The batch of a schema with no row; allocates for the list of columns alone.
    pub fn empty(alloc: Global, schema: Schema) -> Result<Batch, Memory>
        ensures { IfOk result (λ b. b ≡ record { fields = schema; rows = [] }) }
    {
        let columns = empty_columns(alloc, &schema, 0)?;
        Ok(Batch::new(schema, columns))
    }

    /// The schema.
    pub fn schema(&self) -> &Schema
        ensures { result.now ≡ self.now.fields }
    {
        &self.schema
    }

    /// How many rows there are.
    pub fn rows(&self) -> usize
        ensures rows { result ≡ length self.now.rows }
        ensures frame { IsFrame self.now }
    {
        height_of_columns(self.columns.as_slice())
    }

    /// Column `i`.
    pub fn column(&self, i: usize) -> &Column
        requires { i < length self.now.fields }
        ensures kind { slice_get (kinds_of self.now.fields) i ≡ Some result.now.kind }
        ensures cells { result.now.cells ≡ column_at i self.now.rows }
    {
        &self.columns[i]
    }

    /// The schema and the columns, with no copy.
    pub fn into_parts(self) -> (Schema, Vec<Column>)
        ensures schema { result.0 ≡ self.fields }
        ensures columns { StandsIn self.fields result.1.items }
        ensures rows { frame_of self.fields result.1.items ≡ self }
    {
        let Batch { schema, columns } = self;
        (schema, columns)
    }

    /// Keeps the first `n` rows, or all if there are fewer.
    pub fn cut(&mut self, n: usize)
        ensures { self.new ≡ record self.old { rows = take n self.old.rows } }
    {
        cut_columns(self.columns.as_mut_slice(), n);
    }

    /// Keeps the rows that the mask marks.
    pub fn keep(&mut self, mask: &[bool])
        requires { length mask.now ≡ length self.old.rows }
        ensures { self.new ≡ record self.old { rows = kept mask.now self.old.rows } }
    {
        for i in 0..self.columns.len() {
            self.columns[i].keep(mask);
        }
    }

    /// Appends copies of another batch's rows, one column after the other; may grow.
    pub fn append(&mut self, other: &Batch) -> Result<(), Memory>
        requires { self.old.fields ≡ other.now.fields }
        ensures ok { OnOk result (self.new ≡ record self.old { rows = self.old.rows ++ other.now.rows }) }
        ensures err { OnErr result (self.new ≡ self.old) }
    {
        append_columns(self.columns.as_mut_slice(), other.columns.as_slice())?;
        Ok(())
    }

    /// Appends another batch's rows, whose values are moved, one column after the other; may grow.
    pub fn extend(&mut self, other: Batch) -> Result<(), Memory>
        requires { self.old.fields ≡ other.fields }
        ensures ok { OnOk result (self.new ≡ record self.old { rows = self.old.rows ++ other.rows }) }
        ensures err { OnErr result (self.new ≡ self.old) }
    {
        let Batch { schema: _, columns } = other;
        extend_columns(self.columns.as_mut_slice(), &mut columns.into_iter())?;
        Ok(())
    }

    /// Puts a column in the place of the one of its name, or else last; may grow.
    ///
    /// If an allocation fails, the batch is as it was.
    pub fn put(&mut self, name: &str, column: Column) -> Result<(), Memory>
        requires height { length column.cells ≡ length self.old.rows }
        requires room { length (put_named self.old.fields (name.now, column.kind)) ≤ MAX_COLUMNS }
        ensures ok { OnOk result (self.new ≡ frame_with self.old name.now column) }
        ensures err { OnErr result (self.new ≡ self.old) }
    {
        put_column(&mut self.schema, &mut self.columns, name, column)?;
        Ok(())
    }

    /// A copy of row `i`; allocates for the row and each of its texts.
    pub fn row(&self, alloc: Global, i: usize) -> Result<Vec<Cell>, Memory>
        requires { i < length self.now.rows }
        ensures { IfOk result (λ row. slice_get self.now.rows i ≡ Some row.items) }
    {
        let mut row = Vec::with_capacity(alloc, self.columns.len())?;
        for column in &self.columns {
            row.push(column.cell(alloc, i)?)?;
        }
        Ok(row)
    }

    /// An equal batch in memory of its own.
    pub fn copy(&self, alloc: Global) -> Result<Batch, Memory>
        ensures { IfOk result (λ b. b ≡ self.now) }
    {
        let schema = self.schema.copy(alloc)?;
        let columns = copy_columns(alloc, self.columns.as_slice())?;
        Ok(Batch { schema, columns })
    }
}

/// A column of each kind of a schema, in its order, with no cell and room for this many.
pub fn empty_columns(alloc: Global, schema: &Schema, room: usize) -> Result<Vec<Column>, Memory>
    ensures columns { IfOk result (λ columns. columns.items ≡ map without_cells (kinds_of schema.now)) }
    ensures schema { IsSchema schema.now }
{
    let mut columns = Vec::with_capacity(alloc, schema.len())?;
    for i in 0..schema.len() {
        columns.push(Column::with_capacity(alloc, schema.kind(i), room)?)?;
    }
    Ok(columns)
}

/// Keeps the first `n` cells of each column, or all if there are fewer.
pub fn cut_columns(columns: &mut [Column], n: usize)
    ensures { columns.new ≡ map (λ c. with_cells c (take n c.cells)) columns.old }
{
    for i in 0..columns.len() {
        columns[i].cut(n);
    }
}

/// Puts a column among the columns of a schema: in the place of the one of its name, or else last; may grow.
///
/// If an allocation fails, both are as they were.
pub fn put_column(
    schema: &mut Schema,
    columns: &mut Vec<Column>,
    name: &str,
    column: Column,
) -> Result<(), Memory>
    requires width { length columns.old.items ≡ length schema.old }
    requires room { length (put_named schema.old (name.now, column.kind)) ≤ MAX_COLUMNS }
    ensures schema { OnOk result (schema.new ≡ put_named schema.old (name.now, column.kind)) }
    ensures columns { OnOk result (zip (names_of schema.new) columns.new.items
        ≡ put_named (zip (names_of schema.old) columns.old.items) (name.now, column)) }
    ensures width { OnOk result (length columns.new.items ≡ length schema.new) }
    ensures kind { AreOfKind column }
    ensures err { OnErr result ((schema.new ≡ schema.old) × (columns.new.items ≡ columns.old.items)) }
{
    let kind = column.kind();
    match schema.position(name) {
        Some(i) => {
            schema.put(name, kind)?;
            columns[i] = column;
            Ok(())
        }
        None => {
            columns.push(column)?;
            let Ok(()) = schema.put(name, kind) else {
                columns.truncate(columns.len() - 1);
                return Err(Memory);
            };
            Ok(())
        }
    }
}

// The first fault of columns for a schema.
fn fault_of(schema: &Schema, columns: &[Column]) -> Option<BatchFault>
    ensures fault { result ≡ batch_fault schema.now columns.now }
    ensures none { IfNone result (StandsIn schema.now columns.now) }
{
    if columns.len() != schema.len() {
        return Some(BatchFault::Width);
    }
    if kinds_differ(schema, columns) {
        return Some(BatchFault::Kind);
    }
    if lengths_differ(columns) {
        return Some(BatchFault::Length);
    }
    None
}

// Whether a column is not of the kind that the schema says.
fn kinds_differ(schema: &Schema, columns: &[Column]) -> bool
    requires { length columns.now ≡ length schema.now }
    ensures { result ≡ not (pointwise has_kind_of schema.now columns.now) }
{
    for i in 0..columns.len() {
        if columns[i].kind() != schema.kind(i) {
            return true;
        }
    }
    false
}

// Whether two of the columns differ in length.
fn lengths_differ(columns: &[Column]) -> bool
    ensures lengths { result ≡ not (list_all (λ c. length c.cells == height_of columns.now) columns.now) }
    ensures kinds { OnFalse result (All AreOfKind columns.now) }
{
    let height = height_of_columns(columns);
    for column in columns {
        if column.len() != height {
            return true;
        }
    }
    false
}

// How many cells the first column has, or 0.
fn height_of_columns(columns: &[Column]) -> usize
    ensures { result ≡ height_of columns.now }
{
    match columns.first() {
        Some(column) => column.len(),
        None => 0,
    }
}

// Appends copies of each other column's cells to its column, or leaves all as they were.
fn append_columns(columns: &mut [Column], others: &[Column]) -> Result<(), Memory>
    requires { map kind_of_cells columns.old ≡ map kind_of_cells others.now }
    ensures ok { OnOk result (columns.new ≡ zip_with joined_cells columns.old others.now) }
    ensures err { OnErr result (columns.new ≡ columns.old) }
{
    let (Some((column, columns)), Some((other, others))) = (
        columns.split_first_mut(),
        others.split_first(),
    ) else {
        return Ok(());
    };
    let height = column.len();
    column.append(other)?;
    let Ok(()) = append_columns(columns, others) else {
        column.cut(height);
        return Err(Memory);
    };
    Ok(())
}

// Moves each other column's cells to the end of its column, or leaves all as they were.
fn extend_columns(columns: &mut [Column], others: &mut IntoIter<Column>) -> Result<(), Memory>
    requires { map kind_of_cells columns.old ≡ map kind_of_cells (into_iter_items others.old) }
    ensures ok { OnOk result (columns.new ≡ zip_with joined_cells columns.old (into_iter_items others.old)) }
    ensures err { OnErr result (columns.new ≡ columns.old) }
{
    let (Some((column, columns)), Some(other)) = (columns.split_first_mut(), others.next()) else {
        return Ok(());
    };
    let height = column.len();
    column.extend(other)?;
    let Ok(()) = extend_columns(columns, others) else {
        column.cut(height);
        return Err(Memory);
    };
    Ok(())
}

fn copy_columns(alloc: Global, columns: &[Column]) -> Result<Vec<Column>, Memory>
    ensures { IfOk result (λ copies. copies.items ≡ columns.now) }
{
    let mut copies = Vec::with_capacity(alloc, columns.len())?;
    for column in columns {
        copies.push(column.copy(alloc)?)?;
    }
    Ok(copies)
}
