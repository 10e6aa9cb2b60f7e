//! Groups of rows over batches that come one after another.
ghost use Rattle.std.specs.Prelude.{◌≡◌, ◌+◌, ◌-◌, ◌<◌, ◌≤◌, ◌^◌, ◌++◌, ℕ, List, [], All, true, false, length, map, string_bytes, Some, Ok, Err, IfOk, IfErr, IfSome, IsOk, OnOk, OnErr};
ghost use Rattle.std.specs.List.{flat_map};
ghost use Rattle.indexmap.specs.IndexSet.{insert_all};
ghost use Rattle.fq_column.specs.declared.cells.Kind.{Kind as KindData};
ghost use Rattle.fq_column.specs.Frame.{Fields, IsFrame, Name, Row, kinds_of};
ghost use Rattle.fq_column.specs.Lists.{numbers};
ghost use Rattle.fq_ops.specs.Accumulated.{IsAccumulator, accumulated, first_found, group_picks, key_pick, numbers_along, out_of_range_in};
ghost use Rattle.fq_ops.specs.Aggregate.{Output};
ghost use Rattle.fq_ops.specs.Grouped.{HasTakenRows, IsFaultOf, fresh, function_of, place_of as place_in};
ghost use Rattle.fq_ops.specs.Group.{aggregate_kind, group_schema as judged_grouping, grouped, grouped_fields, same_key};
ghost use Rattle.fq_ops.specs.Grouping.{key_at};
ghost use Rattle.fq_ops.specs.KeySets.{IsWholeAt};
ghost use Rattle.fq_ops.specs.AggregateData.{aggregate_of, outputs_of};
ghost use Rattle.fq_ops.specs.Parts.{output_over_parts};
ghost use Rattle.fq_ops.specs.Picks.{column_of, columns_of};
ghost use Rattle.fq_ops.specs.Running.{IsBoundedBy};

use crate::accumulators::Accumulator;
use crate::aggregates::{Agg, Function, What};
use crate::field_lists::{place_of, positions};
use crate::key_sets::{KeySet, Mostly, RowKey, is_whole_key};
use crate::output_schemas::group_schema;
use crate::running::push_cell;
use fq_column::{Batch, Column, Kind, Memory, Schema, StepFault};
use std::alloc::Global;
use std::marker::Model;
use thiserror::Error;

/// The most rows that a grouper takes, so that no running value overflows.
pub const MAX_GROUPED_ROWS: u64 = 1 << 40;

/// Why a grouping gives no rows.
#[derive(Clone, Copy, Debug, PartialEq, Eq, Error)]
pub enum GroupFault {
    /// The sum of an aggregate does not fit 64 bits in a group: the lowest such aggregate of the first such group.
    #[error("item {item}: sum out of range")]
    SumRange {
        /// The aggregate, counted from 0.
        item: u16,
    },
    /// An allocation failed.
    #[error("out of memory")]
    Memory,
}

impl From<Memory> for GroupFault {
    ghost use Rattle.std.specs.Prelude.{◌≡◌};
    ghost use Rattle.fq_ops.specs.declared.groups.GroupFault.TheVariants as fault;

    ghost from_gives = { λ _ e. e ≡ fault.Memory };

    fn from(_refused: Memory) -> GroupFault {
        GroupFault::Memory
    }
}

/// A grouping over batches that come one after another, which are taken as one long list of rows.
///
/// It keeps a running value for each aggregate and group, and one copy of each key. Groups are numbered in the order of
/// their first rows, so that no order is lost in the hashed set of keys.
#[derive(Drop)]
pub struct Grouper {
    schema: Schema,
    output: Schema,
    places: Vec<usize>,
    seen: KeySet,
    accumulators: Vec<Accumulator>,
    rows_taken: u64,
    failed: bool,
}

impl Model for Grouper {
    ghost use Rattle.fq_ops.specs.Grouped.{Grouped};

    ghost Value = { Grouped };

    ghost use Rattle.fq_ops.specs.Grouped.{IsReady};

    ghost view = { λ g. record { fields = g.schema; output = g.output; taken = g.rows_taken; failed = g.failed; places = g.places.items; seen = g.seen.keys; is_whole = g.seen.is_whole; accumulators = g.accumulators.items } };

    ghost invariant = { λ g. IsReady (record { fields = g.schema; output = g.output; taken = g.rows_taken; failed = g.failed; places = g.places.items; seen = g.seen.keys; is_whole = g.seen.is_whole; accumulators = g.accumulators.items }) };
}

impl Grouper {
    /// A grouping of these columns that has taken no row: by the columns of these names, of which each aggregate is an
    /// output. The schema that it leaves is one that `group_schema` does not refuse.
    pub fn new(
        alloc: Global,
        schema: Schema,
        keys: &[String],
        aggs: &[Agg],
    ) -> Result<Grouper, Memory>
        requires { IsOk (judged_grouping schema (map string_bytes keys.now) (outputs_of aggs.now)) }
        ensures fields { IfOk result (λ g. g.fields ≡ schema) }
        ensures output { IfOk result (λ g. g.output ≡ grouped_fields schema (map string_bytes keys.now) (outputs_of aggs.now)) }
        ensures rows { IfOk result (λ g. g.taken ≡ 0) }
        ensures ok { IfOk result (λ g. g.failed ≡ false) }
        ensures taken { IfOk result (λ g. HasTakenRows g (map string_bytes keys.now) (outputs_of aggs.now) []) }
    {
        let output = match group_schema(alloc, &schema, keys, aggs) {
            Ok(output) => output,
            Err(StepFault::Memory) => return Err(Memory),
            Err(_) => unreachable!(),
        };
        let places = positions(alloc, &schema, keys)?;
        let is_whole = is_whole_key(&schema, keys);
        let seen = KeySet::with_capacity(alloc, is_whole, 0)?;
        let accumulators = accumulators_of(alloc, &schema, aggs)?;
        Ok(Grouper {
            schema,
            output,
            places,
            seen,
            accumulators,
            rows_taken: 0,
            failed: false,
        })
    }

    /// Takes the rows of a batch of the grouper's columns: one lookup for each row, then one pass for each aggregate. If an
    /// allocation fails, the grouper has failed for good, and its number of rows stays.
    pub fn take(&mut self, alloc: Global, batch: &Batch) -> Result<(), Memory>
        requires fields { batch.now.fields ≡ self.old.fields }
        requires room { self.old.taken + length batch.now.rows ≤ MAX_GROUPED_ROWS }
        ensures shape { (self.new.fields ≡ self.old.fields) × (self.new.output ≡ self.old.output) }
        ensures taken { OnOk result ((keys : List Name) (outputs : List Output) (rows : List Row) →
            HasTakenRows self.old keys outputs rows → HasTakenRows self.new keys outputs (rows ++ batch.now.rows)) }
        ensures rows { OnOk result (self.new.taken ≡ self.old.taken + length batch.now.rows) }
        ensures ok { OnOk result (self.new.failed ≡ false) }
        ensures failed { OnErr result (self.new.failed ≡ true) }
        ensures stays { OnErr result (self.new.taken ≡ self.old.taken) }
        ensures for_good { self.old.failed ≡ true → result ≡ Err record {} }
    {
        if self.failed {
            return Err(Memory);
        }
        self.failed = true;
        let numbers = number_rows(alloc, &mut self.seen, self.places.as_slice(), batch)?;
        let groups = self.seen.len();
        accumulate(
            alloc,
            &mut self.accumulators,
            batch,
            numbers.as_slice(),
            groups,
        )?;
        self.rows_taken += numbers.len() as u64;
        self.failed = false;
        Ok(())
    }

    /// How many rows it has taken, without those of a batch on which it failed.
    pub fn rows_taken(&self) -> u64
        ensures { result ≡ self.now.taken }
    {
        self.rows_taken
    }

    /// The rows of the groups, in the order of their first rows: the keys, then the aggregates.
    ///
    /// A grouping in which a sum does not fit 64 bits gives no row: `SumRange` names the first such group's lowest such
    /// aggregate. Sums are judged only here, so that no order of the rows makes a fault. `Memory` if an allocation failed,
    /// now or in an earlier `take`.
    pub fn finish(self, alloc: Global) -> Result<Batch, GroupFault>
        ensures for_good { self.failed ≡ true → result ≡ Err GroupFault.Memory }
        ensures fields { IfOk result (λ b. b.fields ≡ self.output) }
        ensures rows { IfOk result (λ b. (keys : List Name) (outputs : List Output) (rows : List Row) →
            HasTakenRows self keys outputs rows → grouped self.fields keys outputs rows ≡ Ok b.rows) }
        ensures fault { IfErr result (λ fault. (keys : List Name) (outputs : List Output) (rows : List Row) →
            HasTakenRows self keys outputs rows → IsFaultOf (grouped self.fields keys outputs rows) fault) }
    {
        self.groups(alloc)
    }

    // The batch of the groups, as `finish` answers it.
    fn groups(&self, alloc: Global) -> Result<Batch, GroupFault>
        ensures for_good { self.now.failed ≡ true → result ≡ Err GroupFault.Memory }
        ensures fields { IfOk result (λ b. b.fields ≡ self.now.output) }
        ensures rows { IfOk result (λ b. (keys : List Name) (outputs : List Output) (rows : List Row) →
            HasTakenRows self.now keys outputs rows → grouped self.now.fields keys outputs rows ≡ Ok b.rows) }
        ensures fault { IfErr result (λ fault. (keys : List Name) (outputs : List Output) (rows : List Row) →
            HasTakenRows self.now keys outputs rows → IsFaultOf (grouped self.now.fields keys outputs rows) fault) }
    {
        if self.failed {
            return Err(GroupFault::Memory);
        }
        let output = self.output.copy(alloc)?;
        let keys = &self.seen;
        if let Some(item) = first_unfit(self.accumulators.as_slice(), keys.len()) {
            return Err(GroupFault::SumRange { item: item as u16 });
        }
        let columns = gather(alloc, &self.output, keys, self.accumulators.as_slice())?;
        Ok(Batch::new(output, columns))
    }
}

/// Grouping the groups of parts of rows, in the order of the parts, is grouping all the rows: by the same keys, with the sum of the
/// sums and of the numbers of rows and of values, the least of the least, the greatest of the greatest, the first of the first and
/// the last of the last. It holds where the sums of the parts fit 64 bits, and so does the number of the rows. A number of distinct values
/// is left out: those of the parts do not tell that of all rows.
pub fn groups_of_parts()
    ensures { (fields : Fields) (keys : List Name) (outputs again : List Output) (parts : List (List Row × List Row)) →
        IsOk (judged_grouping fields keys outputs) → map output_over_parts outputs ≡ map Some again →
        All (λ p. grouped fields keys outputs p.0 ≡ Ok p.1) parts → length (flat_map (λ p. p.0) parts) < 2 ^ 63 →
        grouped (grouped_fields fields keys outputs) keys again (flat_map (λ p. p.1) parts) ≡ grouped fields keys outputs (flat_map (λ p. p.0) parts) }
{}

// An accumulator with no group for each aggregate.
fn accumulators_of(alloc: Global, schema: &Schema, aggs: &[Agg]) -> Result<Vec<Accumulator>, Memory>
    requires some { 1 ≤ length schema.now }
    requires known { All (λ o. (k : KindData) × (aggregate_kind schema.now o.1 ≡ Ok k)) (outputs_of aggs.now) }
    ensures made { IfOk result (λ all. all.items ≡ map (fresh schema.now) (outputs_of aggs.now)) }
    ensures columns { IfOk result (λ all. All (λ a. a.column < length schema.now) all.items) }
{
    let mut accumulators = Vec::with_capacity(alloc, aggs.len())?;
    for agg in aggs {
        let (function, column) = resolve(schema, &agg.what);
        accumulators.push(Accumulator::new(alloc, function, column))?;
    }
    Ok(accumulators)
}

// The function of an aggregate and the place of its column, or 0 if it reads none.
fn resolve(schema: &Schema, what: &What) -> (Function, usize)
    requires some { 1 ≤ length schema.now }
    requires known { (k : KindData) × (aggregate_kind schema.now (aggregate_of what.now) ≡ Ok k) }
    ensures function { result.0 ≡ function_of (aggregate_of what.now) }
    ensures column { result.1 ≡ place_in schema.now (aggregate_of what.now) }
    ensures within { result.1 < length schema.now }
{
    match what {
        What::Len => (Function::Len, 0),
        What::Of(function, name) => (*function, place_of(schema, name.as_str())),
    }
}

// The numbers of the groups of rows, in the order of first appearance; copies each new key.
fn number_rows(
    alloc: Global,
    seen: &mut KeySet,
    places: &[usize],
    batch: &Batch,
) -> Result<Vec<usize>, Memory>
    requires some { 1 ≤ length places.now }
    requires places { All (λ p. p < length batch.now.fields) places.now }
    requires whole { seen.old.is_whole ≡ true → IsWholeAt batch.now.fields places.now }
    ensures whole { seen.new.is_whole ≡ seen.old.is_whole }
    ensures seen { OnOk result (seen.new.keys ≡ insert_all same_key seen.old.keys (map (key_at places.now) batch.now.rows)) }
    ensures numbers { IfOk result (λ numbers. numbers.items ≡ numbers_along seen.old.keys (map (key_at places.now) batch.now.rows)) }
    ensures beside { IfOk result (λ numbers. length numbers.items ≡ length batch.now.rows) }
    ensures within { IfOk result (λ numbers. All (λ n. n < length seen.new.keys) numbers.items) }
    ensures grown { OnOk result (length seen.old.keys ≤ length seen.new.keys) }
    ensures frame { OnOk result (IsFrame batch.now) }
{
    let mut key = RowKey::nulls(alloc, seen.is_whole(), places.len())?;
    let mut numbers = Vec::with_capacity(alloc, batch.rows())?;
    for row in 0..batch.rows() {
        key.read(alloc, batch, places, row)?;
        numbers.push(seen.number_of(alloc, &key, Mostly::Known)?)?;
    }
    Ok(numbers)
}

// Takes the rows of a batch, each in the group of its number, in each accumulator.
fn accumulate(
    alloc: Global,
    accumulators: &mut Vec<Accumulator>,
    batch: &Batch,
    numbers: &[usize],
    groups: usize,
) -> Result<(), Memory>
    requires beside { length numbers.now ≡ length batch.now.rows }
    requires within { All (λ n. n < groups) numbers.now }
    requires few { length numbers.now ≤ MAX_GROUPED_ROWS }
    requires ready { All (λ a. (a.column < length batch.now.fields) × (length a.states ≤ groups) × All (IsBoundedBy (MAX_GROUPED_ROWS - length numbers.now)) a.states) accumulators.old.items }
    ensures taken { OnOk result (accumulators.new.items ≡ map (accumulated groups numbers.now batch.now.rows) accumulators.old.items) }
    ensures ready { OnOk result ((n : ℕ) → All (λ a. All (IsBoundedBy n) a.states) accumulators.old.items →
        All (IsAccumulator (length batch.now.fields) groups (n + length numbers.now)) accumulators.new.items) }
    ensures size { length accumulators.new.items ≡ length accumulators.old.items }
{
    for i in 0..accumulators.len() {
        let accumulator = &mut accumulators[i];
        accumulator.take(alloc, batch, numbers, groups)?;
    }
    Ok(())
}

// The lowest aggregate of the first group whose value does not fit 64 bits.
fn first_unfit(accumulators: &[Accumulator], groups: usize) -> Option<usize>
    requires { All (λ a. length a.states ≡ groups) accumulators.now }
    ensures found { result ≡ first_found (out_of_range_in accumulators.now) (numbers groups) }
    ensures within { IfSome result (λ item. item < length accumulators.now) }
{
    for group in 0..groups {
        if let Some(item) = unfit_in(accumulators, group) {
            return Some(item);
        }
    }
    None
}

// The lowest aggregate of a group whose value does not fit 64 bits.
fn unfit_in(accumulators: &[Accumulator], group: usize) -> Option<usize>
    requires { All (λ a. group < length a.states) accumulators.now }
    ensures found { result ≡ out_of_range_in accumulators.now group }
    ensures within { IfSome result (λ item. item < length accumulators.now) }
{
    for i in 0..accumulators.len() {
        if !accumulators[i].fits(group) {
            return Some(i);
        }
    }
    None
}

// The columns of the groups: of their keys, then of their aggregates.
fn gather(
    alloc: Global,
    output: &Schema,
    keys: &KeySet,
    accumulators: &[Accumulator],
) -> Result<Vec<Column>, Memory>
    requires width { length accumulators.now ≤ length output.now }
    requires beside { All (λ a. length a.states ≡ length keys.now.keys) accumulators.now }
    requires bounded { All (λ a. All (IsBoundedBy MAX_GROUPED_ROWS) a.states) accumulators.now }
    ensures { IfOk result (λ columns. columns.items ≡ columns_of
        (group_picks (length output.now - length accumulators.now) keys.now.keys accumulators.now (kinds_of output.now) (length output.now)) (numbers (length keys.now.keys))) }
{
    let width = output.len() - accumulators.len();
    let mut columns = Vec::with_capacity(alloc, output.len())?;
    for i in 0..output.len() {
        let kind = output.kind(i);
        let column = if i < width {
            keys.column(alloc, kind, i)?
        } else {
            accumulators[i - width].column(alloc, kind)?
        };
        columns.push(column)?;
    }
    Ok(columns)
}
