//! One row-wise step on a batch.
ghost use Rattle.std.specs.Prelude.{◌≡◌, ◌≤◌, ◌<◌, map, length, zip, IfOk, IfSome, IsOk, OnOk};
ghost use Rattle.std.specs.List.{list_any};
ghost use Rattle.std.specs.Option.{option_map_or};
ghost use Rattle.fq_expr.specs.declared.application.Made.TheVariants as made;
ghost use Rattle.std.specs.Vec.Iter.{into_iter_items};
ghost use Rattle.fq_column.specs.declared.cells.Cell.TheVariants as cell;
ghost use Rattle.fq_column.specs.Batch.{kind_of_cells};
ghost use Rattle.fq_column.specs.Frame.{names_of, put_all};
ghost use Rattle.fq_column.specs.Lists.{before_missing, keep as kept};
ghost use Rattle.fq_column.specs.Stream.{one_by_one};
ghost use Rattle.fq_expr.specs.Expression.{filter_by, with_columns, select};
ghost use Rattle.fq_expr.specs.Kinds.{item_names, kind_of, step_schema};
ghost use Rattle.fq_expr.specs.ExpressionData.{expression_of, items_of, step_of};
ghost use Rattle.fq_expr.specs.Operand.{AnyHasRows, HasRows, cells_in, cells_in_rows, kind_in_rows};
ghost use Rattle.fq_expr.specs.Made.{AreEvaluated, ArePlaces, IsPlaceOf, column_of, first_of_column, is_at, made_column};
ghost use Rattle.fq_expr.specs.Outputs.{all_kinds};
ghost use Rattle.fq_expr.specs.Steps.{fields_after, is_true, rows_after};
ghost use Rattle.fq_expr.specs.Value.{value_of};

use crate::expressions::Expr;
use crate::operands::{AnyOperand, Operand, Outcome};
use crate::steps::{RowStep, select_schema};
use fq_column::{
    Batch, Column, Kind, MAX_COLUMNS, Memory, Piece, Schema, StepFault, cut_columns, put_column,
};
use std::alloc::Global;
use std::mem;
use std::vec::IntoIter;

impl RowStep {
    /// The step on the rows of a batch. The fault is the lowest item that faults on the row behind them; a filter's is 0.
    pub(crate) fn apply(&self, alloc: Global, batch: Batch) -> Result<Piece<u16>, Memory>
        requires { IsOk (step_schema batch.fields (step_of self.now)) }
        ensures fields { IfOk result (λ p. p.batch.fields ≡ fields_after batch.fields (step_of self.now)) }
        ensures rows { let u = one_by_one (rows_after batch.fields (step_of self.now)) batch.rows in
            IfOk result (λ p. p.batch.rows ≡ u.rows) }
        ensures fault { let u = one_by_one (rows_after batch.fields (step_of self.now)) batch.rows in
            IfOk result (λ p. p.fault ≡ u.fault) }
    {
        match self {
            RowStep::Filter(predicate) => filter(alloc, predicate, batch),
            RowStep::WithColumns(items) => add_columns(alloc, items.as_slice(), batch),
            RowStep::Select(items) => project(alloc, items.as_slice(), batch),
        }
    }
}

// The rows for which a predicate is true.
fn filter(alloc: Global, predicate: &Expr, batch: Batch) -> Result<Piece<u16>, Memory>
    requires { IsOk (step_schema batch.fields (filter_by (expression_of predicate.now))) }
    ensures fields { IfOk result (λ p. p.batch.fields ≡ fields_after batch.fields (filter_by (expression_of predicate.now))) }
    ensures rows { let u = one_by_one (rows_after batch.fields (filter_by (expression_of predicate.now))) batch.rows in
        IfOk result (λ p. p.batch.rows ≡ u.rows) }
    ensures fault { let u = one_by_one (rows_after batch.fields (filter_by (expression_of predicate.now))) batch.rows in
        IfOk result (λ p. p.fault ≡ u.fault) }
{
    let mask = predicate_mask(alloc, predicate, &batch)?;
    let item = (mask.len() < batch.rows()).then_some(0u16);
    let mut batch = batch;
    batch.cut(mask.len());
    keep_marked(&mut batch, mask.as_slice());
    Ok(Piece { batch, fault: item })
}

// Whether a predicate is true, for each row before the first that faults.
fn predicate_mask(alloc: Global, predicate: &Expr, batch: &Batch) -> Result<Vec<bool>, Memory>
    requires { IsOk (step_schema batch.now.fields (filter_by (expression_of predicate.now))) }
    ensures { IfOk result (λ mask. mask.items ≡ map is_true (before_missing (map (value_of batch.now.fields (expression_of predicate.now)) batch.now.rows))) }
{
    let outcome = predicate.evaluate(alloc, batch, batch.rows())?;
    truths(alloc, outcome.rows, &outcome.operand)
}

// Which of the first rows are true; null is not.
fn truths(alloc: Global, rows: usize, operand: &AnyOperand<'_>) -> Result<Vec<bool>, Memory>
    requires kind { kind_in_rows operand.now ≡ Kind.Truth }
    requires rows { AnyHasRows rows operand.now }
    ensures { IfOk result (λ mask. mask.items ≡ map is_true (cells_in_rows rows operand.now)) }
{
    match operand {
        AnyOperand::Truth(operand) => truth_mask(alloc, rows, operand),
        _ => unreachable!(),
    }
}

fn truth_mask(alloc: Global, rows: usize, operand: &Operand<'_, bool>) -> Result<Vec<bool>, Memory>
    requires { HasRows rows operand.now }
    ensures { IfOk result (λ mask. mask.items ≡ map is_true (cells_in cell.Truth rows operand.now)) }
{
    let mut mask = Vec::with_capacity(alloc, rows)?;
    for i in 0..rows {
        mask.push(operand.get(i).copied().unwrap_or(false))?;
    }
    Ok(mask)
}

// Keeps the rows that the mask marks; if it marks all, nothing is touched.
fn keep_marked(batch: &mut Batch, mask: &[bool])
    requires { length mask.now ≡ length batch.old.rows }
    ensures { batch.new ≡ record batch.old { rows = kept mask.now batch.old.rows } }
{
    if mask.contains(&false) {
        batch.keep(mask);
    }
}

// A column that an item was evaluated to: one that was made, or the place of one of the batch.
#[derive(Drop)]
enum Made {
    Column(Column),
    Place(usize),
}

// What the items of a step were evaluated to: their columns, how many rows stand before the first that faults, and the lowest item that
// faults there. The columns go on after those rows as long as they are `Made`, and have those rows alone once they are columns themselves.
#[derive(Drop)]
struct Evaluated<C> {
    columns: Vec<C>,
    rows: usize,
    item: Option<u16>,
}

// Each item on the rows of a batch before the first on which an item faults.
fn evaluate_items(
    alloc: Global,
    items: &[(String, Expr)],
    batch: &Batch,
) -> Result<Evaluated<Made>, Memory>
    requires kinds { IsOk (all_kinds batch.now.fields (items_of items.now)) }
    requires bound { length items.now ≤ MAX_COLUMNS }
    ensures { IfOk result (λ e. AreEvaluated batch.now (items_of items.now) e.columns.items e.rows e.item) }
{
    let mut made = Vec::with_capacity(alloc, items.len())?;
    let mut rows = batch.rows();
    let mut item = None;
    for i in 0..items.len() {
        let outcome = items[i].1.evaluate(alloc, batch, rows)?;
        if outcome.rows < rows {
            rows = outcome.rows;
            item = Some(i as u16);
        }
        made.push(made_of(alloc, outcome, place_of(&items[i].1, batch))?)?;
    }
    Ok(Evaluated {
        columns: made,
        rows,
        item,
    })
}

// The column of an item's values, which may be one of the batch.
fn made_of(alloc: Global, outcome: Outcome<'_>, place: Option<usize>) -> Result<Made, Memory>
    requires { AnyHasRows outcome.rows outcome.operand }
    ensures { IfOk result (λ one. one ≡ option_map_or made.Place place (made.Column (record { kind = kind_in_rows outcome.entry.operand; cells = cells_in_rows outcome.entry.rows outcome.entry.operand }))) }
{
    match place {
        Some(place) => Ok(Made::Place(place)),
        None => Ok(Made::Column(outcome.into_column(alloc)?)),
    }
}

// The place of the column that an expression names, if it is a name alone.
fn place_of(expr: &Expr, batch: &Batch) -> Option<usize>
    requires { IsOk (kind_of batch.now.fields (expression_of expr.now)) }
    ensures { IfSome result (IsPlaceOf batch.now (expression_of expr.now)) }
{
    match expr {
        Expr::Col(name) => batch.schema().position(name.as_str()),
        _ => None,
    }
}

// The items' columns, of which those of the batch are copied.
fn with_copies(
    alloc: Global,
    evaluated: Evaluated<Made>,
    batch: &Batch,
) -> Result<Evaluated<Column>, Memory>
    requires places { ArePlaces (length batch.now.fields) evaluated.columns.items }
    ensures columns { IfOk result (λ outputs. outputs.columns.items ≡ map (λ m. first_of_column evaluated.rows (made_column batch.now m)) evaluated.columns.items) }
    ensures rows { IfOk result (λ outputs. (outputs.rows ≡ evaluated.rows) × (outputs.item ≡ evaluated.item)) }
{
    let Evaluated {
        columns: made,
        rows,
        item,
    } = evaluated;
    let mut columns = Vec::with_capacity(alloc, made.len())?;
    for one in made {
        columns.push(match one {
            Made::Column(column) => column,
            Made::Place(place) => batch.column(place).copy(alloc)?,
        })?;
    }
    cut_columns(columns.as_mut_slice(), rows);
    Ok(Evaluated {
        columns,
        rows,
        item,
    })
}

// The items' columns, of which those of the batch are moved; one that several items name is copied for all but the first of these.
fn with_moves(
    alloc: Global,
    evaluated: Evaluated<Made>,
    batch: Batch,
) -> Result<Evaluated<Column>, Memory>
    requires places { ArePlaces (length batch.fields) evaluated.columns.items }
    ensures columns { IfOk result (λ outputs. outputs.columns.items ≡ map (λ m. first_of_column evaluated.rows (made_column batch m)) evaluated.columns.items) }
    ensures rows { IfOk result (λ outputs. (outputs.rows ≡ evaluated.rows) × (outputs.item ≡ evaluated.item)) }
{
    let Evaluated {
        columns: made,
        rows,
        item,
    } = evaluated;
    let (_, mut from) = batch.into_parts();
    let mut columns = take_columns(alloc, made, &mut from)?;
    cut_columns(columns.as_mut_slice(), rows);
    Ok(Evaluated {
        columns,
        rows,
        item,
    })
}

// The columns, from the last on: one that an earlier item names too is copied, else it is moved.
fn take_columns(
    alloc: Global,
    made: Vec<Made>,
    from: &mut Vec<Column>,
) -> Result<Vec<Column>, Memory>
    requires { ArePlaces (length from.old.items) made.items }
    ensures { IfOk result (λ columns. columns.items ≡ map (column_of from.old.items) made.items) }
{
    let mut made = made;
    let mut columns = Vec::with_capacity(alloc, made.len())?;
    while let Some(one) = made.pop() {
        columns.push(match one {
            Made::Column(column) => column,
            Made::Place(place) if has_place(made.as_slice(), place) => from[place].copy(alloc)?,
            Made::Place(place) => mem::replace(&mut from[place], Column::new(alloc, Kind::Whole)),
        })?;
    }
    columns.as_mut_slice().reverse();
    Ok(columns)
}

// Whether one of these is the column at a place.
fn has_place(made: &[Made], place: usize) -> bool
    ensures { result ≡ list_any (is_at place) made.now }
{
    made.iter()
        .any(|one| matches!(one, Made::Place(at) if *at == place))
}

// The items alone.
fn project(alloc: Global, items: &[(String, Expr)], batch: Batch) -> Result<Piece<u16>, Memory>
    requires { IsOk (step_schema batch.fields (select (items_of items.now))) }
    ensures fields { IfOk result (λ p. p.batch.fields ≡ fields_after batch.fields (select (items_of items.now))) }
    ensures rows { let u = one_by_one (rows_after batch.fields (select (items_of items.now))) batch.rows in
        IfOk result (λ p. p.batch.rows ≡ u.rows) }
    ensures fault { let u = one_by_one (rows_after batch.fields (select (items_of items.now))) batch.rows in
        IfOk result (λ p. p.fault ≡ u.fault) }
{
    let evaluated = evaluate_items(alloc, items, &batch)?;
    let schema = match select_schema(alloc, items, batch.schema()) {
        Ok(schema) => schema,
        Err(StepFault::Memory) => return Err(Memory),
        Err(_) => unreachable!(),
    };
    let outputs = with_moves(alloc, evaluated, batch)?;
    let Evaluated { columns, item, .. } = outputs;
    Ok(Piece {
        batch: Batch::new(schema, columns),
        fault: item,
    })
}

// The rows with the items under their names: in the place of the column of a name, or else last.
fn add_columns(alloc: Global, items: &[(String, Expr)], batch: Batch) -> Result<Piece<u16>, Memory>
    requires { IsOk (step_schema batch.fields (with_columns (items_of items.now))) }
    ensures fields { IfOk result (λ p. p.batch.fields ≡ fields_after batch.fields (with_columns (items_of items.now))) }
    ensures rows { let u = one_by_one (rows_after batch.fields (with_columns (items_of items.now))) batch.rows in
        IfOk result (λ p. p.batch.rows ≡ u.rows) }
    ensures fault { let u = one_by_one (rows_after batch.fields (with_columns (items_of items.now))) batch.rows in
        IfOk result (λ p. p.fault ≡ u.fault) }
{
    let evaluated = evaluate_items(alloc, items, &batch)?;
    let outputs = with_copies(alloc, evaluated, &batch)?;
    let Evaluated {
        columns: made,
        rows,
        item,
    } = outputs;
    let mut batch = batch;
    batch.cut(rows);
    let (mut schema, mut columns) = batch.into_parts();
    put_columns(items, &mut made.into_iter(), &mut schema, &mut columns)?;
    Ok(Piece {
        batch: Batch::new(schema, columns),
        fault: item,
    })
}

// Puts each item's column in the place of the column of its name, or else last.
fn put_columns(
    items: &[(String, Expr)],
    made: &mut IntoIter<Column>,
    schema: &mut Schema,
    columns: &mut Vec<Column>,
) -> Result<(), Memory>
    requires width { length columns.old.items ≡ length schema.old }
    requires room { length (put_all schema.old (zip (item_names (items_of items.now)) (map kind_of_cells (into_iter_items made.old)))) ≤ MAX_COLUMNS }
    ensures schema { OnOk result (schema.new
        ≡ put_all schema.old (zip (item_names (items_of items.now)) (map kind_of_cells (into_iter_items made.old)))) }
    ensures columns { OnOk result (zip (names_of schema.new) columns.new.items
        ≡ put_all (zip (names_of schema.old) columns.old.items) (zip (item_names (items_of items.now)) (into_iter_items made.old))) }
    ensures width { OnOk result (length columns.new.items ≡ length schema.new) }
{
    let (Some((item, rest)), Some(column)) = (items.split_first(), made.next()) else {
        return Ok(());
    };
    put_column(schema, columns, item.0.as_str(), column)?;
    put_columns(rest, made, schema, columns)
}
