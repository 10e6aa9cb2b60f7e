//! Row-wise steps, and the schema after one.
ghost use Rattle.std.specs.Prelude.{◌≡◌, ◌≤◌, List, length, map, not, Ok, Err, Some, None, ◌⊎◌, IfOk, IfErr, OnOk, string_bytes};
ghost use Rattle.std.specs.List.{list_any};
ghost use Rattle.fq_column.specs.Frame.{Name, same_name, has_name as named, put_all};
ghost use Rattle.fq_column.specs.Lists.{is_distinct};
ghost use Rattle.fq_column.specs.Refusal.{IsJudgement, refusal_of};
ghost use Rattle.fq_column.specs.Schema.{fields_of};
ghost use Rattle.fq_expr.specs.Expression.{filter_by, with_columns, select};
ghost use Rattle.fq_expr.specs.Kinds.{step_schema, item_names, count_new};
ghost use Rattle.fq_expr.specs.ExpressionData.{expression_of, items_of, step_of};
ghost use Rattle.fq_expr.specs.Needed.{names_read, needed_before};
ghost use Rattle.fq_expr.specs.Outputs.{all_kinds};

use crate::expressions::Expr;
use fq_column::{Kind, MAX_COLUMNS, Memory, Schema, StepFault};
use std::alloc::Global;

/// A step that goes row by row.
#[derive(Debug, Drop)]
pub enum RowStep {
    /// Keeps the rows for which the predicate is true; those for which it is false or null are dropped.
    Filter(Expr),
    /// The columns as they were and the outputs: in the place of the column of that name, or else last. All outputs are
    /// evaluated on the row as it was.
    WithColumns(Vec<(String, Expr)>),
    /// The outputs alone.
    Select(Vec<(String, Expr)>),
}

impl RowStep {
    /// The first refusal of the step on rows of these columns; allocates nothing.
    ///
    /// Refused, in this order. `Filter`: `NoSuchColumn` or `WrongKind` of the predicate, `NotBool` if it is not a truth
    /// value. `WithColumns`: output by output `NoSuchColumn` or `WrongKind`; `TooMany` if the columns and the outputs whose
    /// name is not among them are more than 64; `DoubleName` if two outputs have one name. `Select`: `NoColumn` if there is
    /// no output; then as `WithColumns`, with `TooMany` for more than 64 outputs.
    pub fn check(&self, schema: &Schema) -> Result<(), StepFault>
        ensures ok { OnOk result (refusal_of (step_schema schema.now (step_of self.now)) ≡ None) }
        ensures err { IfErr result (λ fault. refusal_of (step_schema schema.now (step_of self.now)) ≡ Some fault) }
    {
        match self {
            RowStep::Filter(predicate) => check_filter(predicate, schema),
            RowStep::WithColumns(items) => check_with_columns(items.as_slice(), schema),
            RowStep::Select(items) => check_select(items.as_slice(), schema),
        }
    }

    /// The schema after the step; allocates for its names.
    ///
    /// Refused as by `check`, before the first allocation. `Memory` if one failed.
    pub fn schema(&self, alloc: Global, schema: &Schema) -> Result<Schema, StepFault>
        ensures judged { IsJudgement (step_schema schema.now (step_of self.now)) result }
        ensures early { IfErr (step_schema schema.now (step_of self.now)) (λ fault. result ≡ Err fault) }
    {
        self.check(schema)?;
        match self {
            RowStep::Filter(_) => Ok(schema.copy(alloc)?),
            RowStep::WithColumns(items) => with_columns_schema(alloc, items.as_slice(), schema),
            RowStep::Select(items) => select_schema(alloc, items.as_slice(), schema),
        }
    }

    /// Whether the step needs the column of this name in its rows: its expressions read it, or it is needed of the rows that the
    /// step leaves, as `after` says, and comes from its rows.
    pub fn needs(&self, name: &str, after: bool) -> bool
        ensures { (needed : List Name) → named needed name.now ≡ after → result ≡ named (needed_before (step_of self.now) needed) name.now }
    {
        match self {
            RowStep::Filter(predicate) => predicate.reads(name) || after,
            RowStep::WithColumns(items) => {
                let items = items.as_slice();
                some_reads(items, name) || (after && !has_name(items, name))
            }
            RowStep::Select(items) => some_reads(items.as_slice(), name),
        }
    }
}

fn check_filter(predicate: &Expr, schema: &Schema) -> Result<(), StepFault>
    ensures ok { OnOk result (step_schema schema.now (filter_by (expression_of predicate.now)) ≡ Ok schema.now) }
    ensures err { IfErr result (λ fault. step_schema schema.now (filter_by (expression_of predicate.now)) ≡ Err fault) }
{
    match predicate.kind_in(schema)? {
        Kind::Truth => Ok(()),
        Kind::Whole | Kind::Text => Err(StepFault::NotBool),
    }
}

fn check_with_columns(items: &[(String, Expr)], schema: &Schema) -> Result<(), StepFault>
    ensures ok { OnOk result (refusal_of (step_schema schema.now (with_columns (items_of items.now))) ≡ None) }
    ensures err { IfErr result (λ fault. refusal_of (step_schema schema.now (with_columns (items_of items.now))) ≡ Some fault) }
{
    check_items(items, schema)?;
    if new_columns(items, schema) + schema.len() > MAX_COLUMNS {
        return Err(StepFault::TooMany);
    }
    if has_double(items) {
        return Err(StepFault::DoubleName);
    }
    Ok(())
}

fn check_select(items: &[(String, Expr)], schema: &Schema) -> Result<(), StepFault>
    ensures ok { OnOk result (refusal_of (step_schema schema.now (select (items_of items.now))) ≡ None) }
    ensures err { IfErr result (λ fault. refusal_of (step_schema schema.now (select (items_of items.now))) ≡ Some fault) }
{
    if items.is_empty() {
        return Err(StepFault::NoColumn);
    }
    check_items(items, schema)?;
    if items.len() > MAX_COLUMNS {
        return Err(StepFault::TooMany);
    }
    if has_double(items) {
        return Err(StepFault::DoubleName);
    }
    Ok(())
}

// The first refusal of an item.
fn check_items(items: &[(String, Expr)], schema: &Schema) -> Result<(), StepFault>
    ensures ok { OnOk result (refusal_of (all_kinds schema.now (items_of items.now)) ≡ None) }
    ensures err { IfErr result (λ fault. refusal_of (all_kinds schema.now (items_of items.now)) ≡ Some fault) }
{
    for item in items {
        item.1.kind_in(schema)?;
    }
    Ok(())
}

// The schema with the items' columns, none of which is refused.
fn with_columns_schema(
    alloc: Global,
    items: &[(String, Expr)],
    schema: &Schema,
) -> Result<Schema, StepFault>
    requires { refusal_of (step_schema schema.now (with_columns (items_of items.now))) ≡ None }
    ensures { IsJudgement (step_schema schema.now (with_columns (items_of items.now))) result }
{
    let kinds = item_kinds(alloc, items, schema)?;
    Ok(with_fields(alloc, items, kinds.as_slice(), schema)?)
}

/// The schema of a selection, or its first refusal.
pub(crate) fn select_schema(
    alloc: Global,
    items: &[(String, Expr)],
    schema: &Schema,
) -> Result<Schema, StepFault>
    ensures { IsJudgement (step_schema schema.now (select (items_of items.now))) result }
{
    if items.is_empty() {
        return Err(StepFault::NoColumn);
    }
    let kinds = item_kinds(alloc, items, schema)?;
    let names = copy_names(alloc, items)?;
    Schema::new(names, kinds)
}

// The kind of each item, or the first refusal.
fn item_kinds(
    alloc: Global,
    items: &[(String, Expr)],
    schema: &Schema,
) -> Result<Vec<Kind>, StepFault>
    ensures kinds { IfOk result (λ kinds. all_kinds schema.now (items_of items.now) ≡ Ok kinds.items) }
    ensures refused { IfErr result (λ fault. (all_kinds schema.now (items_of items.now) ≡ Err fault) ⊎ (fault ≡ StepFault.Memory)) }
{
    let mut kinds = Vec::with_capacity(alloc, items.len())?;
    for item in items {
        kinds.push(item.1.kind_in(schema)?)?;
    }
    Ok(kinds)
}

// Copies of the items' names.
fn copy_names(alloc: Global, items: &[(String, Expr)]) -> Result<Vec<String>, Memory>
    ensures { IfOk result (λ names. map string_bytes names.items ≡ item_names (items_of items.now)) }
{
    let mut names = Vec::with_capacity(alloc, items.len())?;
    for item in items {
        names.push(String::from_str(alloc, item.0.as_str())?)?;
    }
    Ok(names)
}

// How many items have a name that is not a column's.
fn new_columns(items: &[(String, Expr)], schema: &Schema) -> usize
    ensures exact { result ≡ count_new schema.now (item_names (items_of items.now)) }
    ensures bound { result ≤ length items.now }
{
    let mut count = 0;
    for item in items {
        if schema.position(item.0.as_str()).is_none() {
            count += 1;
        }
    }
    count
}

// Whether two items have one name.
fn has_double(items: &[(String, Expr)]) -> bool
    ensures { result ≡ not (is_distinct same_name (item_names (items_of items.now))) }
{
    match items.split_first() {
        None => false,
        Some((first, rest)) => has_name(rest, first.0.as_str()) || has_double(rest),
    }
}

// Whether an item has this name.
fn has_name(items: &[(String, Expr)], name: &str) -> bool
    ensures { result ≡ named (item_names (items_of items.now)) name.now }
{
    for item in items {
        if name == item.0.as_str() {
            return true;
        }
    }
    false
}

// Whether an item's expression reads the column of this name.
fn some_reads(items: &[(String, Expr)], name: &str) -> bool
    ensures { result ≡ list_any (λ i. named (names_read (expression_of i.1)) name.now) items.now }
{
    items.iter().any(|item| item.1.reads(name))
}

// The schema with the items' columns put into it.
fn with_fields(
    alloc: Global,
    items: &[(String, Expr)],
    kinds: &[Kind],
    schema: &Schema,
) -> Result<Schema, Memory>
    requires kinds { length kinds.now ≡ length items.now }
    requires room { length (put_all schema.now (fields_of (item_names (items_of items.now)) kinds.now)) ≤ MAX_COLUMNS }
    ensures { IfOk result (λ s. s ≡ put_all schema.now (fields_of (item_names (items_of items.now)) kinds.now)) }
{
    let mut after = schema.copy(alloc)?;
    for i in 0..items.len() {
        after.put(items[i].0.as_str(), kinds[i])?;
    }
    Ok(after)
}
