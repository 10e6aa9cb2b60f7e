//! Schemas after joins, groupings and rolling sums.
ghost use Rattle.std.specs.Prelude.{◌≡◌, ◌⊎◌, ◌++◌, ◌<◌, ◌≤◌, true, None, Some, Ok, Err, map, length, string_bytes, IfOk, IfErr, OnOk};
ghost use Rattle.fq_column.specs.declared.cells.Kind.TheVariants.{Whole};
ghost use Rattle.fq_column.specs.Frame.{has_name, put_named, same_name};
ghost use Rattle.fq_column.specs.Lists.{is_distinct};
ghost use Rattle.fq_column.specs.Refusal.{first_refusal, IsJudgement};
ghost use Rattle.fq_column.specs.Schema.{kind_named};
ghost use Rattle.fq_ops.specs.Fields.{refusals, settled, unless_double};
ghost use Rattle.fq_ops.specs.Group.{group_schema as judged_grouping, aggregate_kind, grouped_fields};
ghost use Rattle.fq_ops.specs.Join.{join_schema as judged_join, joined_fields, key_checks, renamed, right_name, taken, without_keys};
ghost use Rattle.fq_ops.specs.AggregateData.{aggregate_of, outputs_of};
ghost use Rattle.fq_ops.specs.Roll.{roll_schema as judged_roll};

use crate::aggregates::{Agg, What};
use crate::field_lists::{FieldList, copy_name};
use crate::joins::How;
use crate::rolls::MAX_WINDOW;
use fq_column::{Kind, MAX_COLUMNS, Memory, Schema, StepFault, has_double};
use std::alloc::Global;

/// The schema after a join on these names: the left columns, then, of an inner or a left join, the right ones without the
/// keys.
///
/// A right column whose name is among the left names gets the suffix `_right`. Refused, in this order: `NoColumn` if no
/// key is named; for each key `NoSuchColumn` if it is not on the left or not on the right, `WrongKind` if its kinds
/// differ; `TooMany` if there would be more than 64 columns; `DoubleName` if a key is named twice or two names of the
/// output are equal. `Memory` if an allocation failed; only two equal names of the output are found after the first.
pub fn join_schema(
    alloc: Global,
    left: &Schema,
    right: &Schema,
    on: &[String],
    how: How,
) -> Result<Schema, StepFault>
    ensures judged { IsJudgement (judged_join how left.now right.now (map string_bytes on.now)) result }
    ensures early { IfErr (judged_join how left.now right.now (map string_bytes on.now)) (λ fault. (result ≡ Err fault) ⊎ ((fault ≡ StepFault.DoubleName) × (is_distinct same_name (map string_bytes on.now) ≡ true))) }
{
    check_join(left, right, on, how)?;
    let mut fields = FieldList::copy_of(alloc, left)?;
    add_taken(alloc, &mut fields, left, right, on, how)?;
    fields.into_schema()
}

/// The schema after a grouping: the keys' columns, then one for each aggregate.
///
/// Refused, in this order: `NoColumn` if no key is named; for each key `NoSuchColumn`; for each aggregate
/// `NoSuchColumn`, and `WrongKind` for a sum of a column that is not of whole numbers; `TooMany` if there would be more
/// than 64 columns; `DoubleName` if two names of the output are equal. `Memory` if an allocation failed; only two equal
/// names are found after the first.
pub fn group_schema(
    alloc: Global,
    schema: &Schema,
    keys: &[String],
    aggs: &[Agg],
) -> Result<Schema, StepFault>
    ensures judged { IsJudgement (judged_grouping schema.now (map string_bytes keys.now) (outputs_of aggs.now)) result }
    ensures early { IfErr (judged_grouping schema.now (map string_bytes keys.now) (outputs_of aggs.now)) (λ fault. (result ≡ Err fault) ⊎ (fault ≡ StepFault.DoubleName)) }
{
    check_grouping(schema, keys, aggs)?;
    let mut fields = FieldList::new(alloc);
    add_keys(alloc, &mut fields, schema, keys)?;
    add_aggregates(alloc, &mut fields, schema, aggs)?;
    fields.into_schema()
}

/// The schema after a rolling sum of a column under a name: in the place of that name, or else last.
///
/// Refused, in this order: `NoSuchColumn`; `WrongKind` if the column is not of whole numbers; `Window` if the window is
/// not from 1 to 65,536; `Samples` if `min_samples` is not from 1 to the window; `TooMany` if a new name would make more
/// than 64 columns. All of these come before the first allocation. `Memory` if one failed.
pub fn roll_schema(
    alloc: Global,
    schema: &Schema,
    column: &str,
    window: i64,
    min_samples: i64,
    name: &str,
) -> Result<Schema, StepFault>
    ensures judged { IsJudgement (judged_roll schema.now column.now window min_samples name.now) result }
    ensures early { IfErr (judged_roll schema.now column.now window min_samples name.now) (λ fault. result ≡ Err fault) }
{
    check_roll(schema, column, window, min_samples, name)?;
    let mut fields = FieldList::copy_of(alloc, schema)?;
    match schema.position(name) {
        Some(i) => fields.set_kind(i, Kind::Whole),
        None => fields.push(copy_name(alloc, name)?, Kind::Whole)?,
    }
    fields.into_schema()
}

// Why a rolling sum is refused, if it is.
fn check_roll(
    schema: &Schema,
    column: &str,
    window: i64,
    min_samples: i64,
    name: &str,
) -> Result<(), StepFault>
    ensures ok { OnOk result (let fields = put_named schema.now (name.now, Whole) in
        (length fields ≤ MAX_COLUMNS) × (judged_roll schema.now column.now window min_samples name.now ≡ Ok fields)) }
    ensures err { IfErr result (λ fault. judged_roll schema.now column.now window min_samples name.now ≡ Err fault) }
{
    if schema.kind_of(column)? != Kind::Whole {
        return Err(StepFault::WrongKind);
    }
    if window < 1 || window > i64::from(MAX_WINDOW) {
        return Err(StepFault::Window);
    }
    if min_samples < 1 || min_samples > window {
        return Err(StepFault::Samples);
    }
    if put_len(schema, name) > MAX_COLUMNS {
        return Err(StepFault::TooMany);
    }
    Ok(())
}

// How many columns there are with one under a name.
fn put_len(schema: &Schema, name: &str) -> usize
    ensures { result ≡ length (put_named schema.now (name.now, Whole)) }
{
    match schema.position(name) {
        Some(_) => schema.len(),
        None => schema.len() + 1,
    }
}

// The kind of an aggregate.
fn kind_of_aggregate(schema: &Schema, what: &What) -> Result<Kind, StepFault>
    ensures { result ≡ aggregate_kind schema.now (aggregate_of what.now) }
{
    match what {
        What::Len => Ok(Kind::Whole),
        What::Of(function, name) => function.kind_over(schema.kind_of(name.as_str())?),
    }
}

// Why a grouping is refused, if it is for anything but two equal names of its output.
fn check_grouping(schema: &Schema, keys: &[String], aggs: &[Agg]) -> Result<(), StepFault>
    ensures ok { OnOk result (let fields = grouped_fields schema.now (map string_bytes keys.now) (outputs_of aggs.now) in
        (length fields ≤ MAX_COLUMNS) × (0 < length fields) × (judged_grouping schema.now (map string_bytes keys.now) (outputs_of aggs.now) ≡ unless_double fields)
        × (first_refusal (refusals (map (λ k. (string_bytes k, kind_named schema.now (string_bytes k))) keys.now)) ≡ None)
        × (first_refusal (refusals (map (λ a. (string_bytes a.name, aggregate_kind schema.now (aggregate_of a.what))) aggs.now)) ≡ None)) }
    ensures err { IfErr result (λ fault. judged_grouping schema.now (map string_bytes keys.now) (outputs_of aggs.now) ≡ Err fault) }
{
    if keys.is_empty() {
        return Err(StepFault::NoColumn);
    }
    check_keys(schema, keys)?;
    check_aggregates(schema, aggs)?;
    if keys.len() + aggs.len() > MAX_COLUMNS {
        return Err(StepFault::TooMany);
    }
    Ok(())
}

// The first refusal of a key of a grouping.
fn check_keys(schema: &Schema, keys: &[String]) -> Result<(), StepFault>
    ensures ok { OnOk result (first_refusal (refusals (map (λ k. (string_bytes k, kind_named schema.now (string_bytes k))) keys.now)) ≡ None) }
    ensures err { IfErr result (λ fault. first_refusal (refusals (map (λ k. (string_bytes k, kind_named schema.now (string_bytes k))) keys.now)) ≡ Some fault) }
{
    for key in keys {
        schema.kind_of(key.as_str())?;
    }
    Ok(())
}

// The first refusal of an aggregate.
fn check_aggregates(schema: &Schema, aggs: &[Agg]) -> Result<(), StepFault>
    ensures ok { OnOk result (first_refusal (refusals (map (λ a. (string_bytes a.name, aggregate_kind schema.now (aggregate_of a.what))) aggs.now)) ≡ None) }
    ensures err { IfErr result (λ fault. first_refusal (refusals (map (λ a. (string_bytes a.name, aggregate_kind schema.now (aggregate_of a.what))) aggs.now)) ≡ Some fault) }
{
    for agg in aggs {
        kind_of_aggregate(schema, &agg.what)?;
    }
    Ok(())
}

// Adds the fields of keys, up to the first that is refused.
fn add_keys(
    alloc: Global,
    fields: &mut FieldList,
    schema: &Schema,
    keys: &[String],
) -> Result<(), StepFault>
    ensures ok { OnOk result (let judged = map (λ k. (string_bytes k, kind_named schema.now (string_bytes k))) keys.now in
        (first_refusal (refusals judged) ≡ None) × (fields.new ≡ fields.old ++ settled judged)) }
    ensures err { IfErr result (λ fault. let judged = map (λ k. (string_bytes k, kind_named schema.now (string_bytes k))) keys.now in
        (first_refusal (refusals judged) ≡ Some fault) ⊎ (fault ≡ StepFault.Memory)) }
{
    for key in keys {
        let kind = schema.kind_of(key.as_str())?;
        fields.push(copy_name(alloc, key.as_str())?, kind)?;
    }
    Ok(())
}

// Adds the fields of aggregates, up to the first that is refused.
fn add_aggregates(
    alloc: Global,
    fields: &mut FieldList,
    schema: &Schema,
    aggs: &[Agg],
) -> Result<(), StepFault>
    ensures ok { OnOk result (let judged = map (λ a. (string_bytes a.name, aggregate_kind schema.now (aggregate_of a.what))) aggs.now in
        (first_refusal (refusals judged) ≡ None) × (fields.new ≡ fields.old ++ settled judged)) }
    ensures err { IfErr result (λ fault. let judged = map (λ a. (string_bytes a.name, aggregate_kind schema.now (aggregate_of a.what))) aggs.now in
        (first_refusal (refusals judged) ≡ Some fault) ⊎ (fault ≡ StepFault.Memory)) }
{
    for agg in aggs {
        let kind = kind_of_aggregate(schema, &agg.what)?;
        fields.push(copy_name(alloc, agg.name.as_str())?, kind)?;
    }
    Ok(())
}

// Why a join is refused, if it is for anything but two equal names of its output.
fn check_join(left: &Schema, right: &Schema, on: &[String], how: How) -> Result<(), StepFault>
    ensures ok { OnOk result (let fields = joined_fields how left.now right.now (map string_bytes on.now) in
        (length fields ≤ MAX_COLUMNS) × (is_distinct same_name (map string_bytes on.now) ≡ true)
        × (judged_join how left.now right.now (map string_bytes on.now) ≡ unless_double fields)) }
    ensures err { IfErr result (λ fault. judged_join how left.now right.now (map string_bytes on.now) ≡ Err fault) }
{
    if on.is_empty() {
        return Err(StepFault::NoColumn);
    }
    for name in on {
        check_key(left, right, name.as_str())?;
    }
    if joined_len(left, right, on, how) > MAX_COLUMNS {
        return Err(StepFault::TooMany);
    }
    if has_double(on) {
        return Err(StepFault::DoubleName);
    }
    Ok(())
}

// The first refusal of a key of a join.
fn check_key(left: &Schema, right: &Schema, name: &str) -> Result<(), StepFault>
    ensures ok { OnOk result (first_refusal (key_checks left.now right.now name.now) ≡ None) }
    ensures err { IfErr result (λ fault. first_refusal (key_checks left.now right.now name.now) ≡ Some fault) }
{
    let left_kind = left.kind_of(name)?;
    let right_kind = right.kind_of(name)?;
    if left_kind != right_kind {
        return Err(StepFault::WrongKind);
    }
    Ok(())
}

// How many columns a join's output has.
fn joined_len(left: &Schema, right: &Schema, on: &[String], how: How) -> usize
    ensures { result ≡ length (joined_fields how left.now right.now (map string_bytes on.now)) }
{
    match how {
        How::Inner | How::Left => left.len() + count_others(right, on),
        How::Semi | How::Anti => left.len(),
    }
}

// How many columns are not keys.
fn count_others(right: &Schema, on: &[String]) -> usize
    ensures others { result ≡ length (without_keys (map string_bytes on.now) right.now) }
    ensures bound { result ≤ MAX_COLUMNS }
{
    let mut count = 0;
    for i in 0..right.len() {
        let name = right.name(i);
        if !contains(on, name) {
            count += 1;
        }
    }
    count
}

// Adds the right columns that a join's output takes.
fn add_taken(
    alloc: Global,
    fields: &mut FieldList,
    left: &Schema,
    right: &Schema,
    on: &[String],
    how: How,
) -> Result<(), StepFault>
    ensures ok { OnOk result (fields.new ≡ fields.old ++ renamed left.now (map string_bytes on.now) (taken how right.now)) }
    ensures err { IfErr result (λ fault. fault ≡ StepFault.Memory) }
{
    match how {
        How::Inner | How::Left => add_right(alloc, fields, left, right, on),
        How::Semi | How::Anti => Ok(()),
    }
}

// Adds the right columns that are not keys, each under its name in the output.
fn add_right(
    alloc: Global,
    fields: &mut FieldList,
    left: &Schema,
    right: &Schema,
    on: &[String],
) -> Result<(), StepFault>
    ensures ok { OnOk result (fields.new ≡ fields.old ++ renamed left.now (map string_bytes on.now) right.now) }
    ensures err { IfErr result (λ fault. fault ≡ StepFault.Memory) }
{
    for i in 0..right.len() {
        let (name, kind) = (right.name(i), right.kind(i));
        if !contains(on, name) {
            fields.push(right_name_of(alloc, left, name)?, kind)?;
        }
    }
    Ok(())
}

/// The name of a right column after a join with these left columns. `Memory` if an allocation fails.
pub fn right_name_of(alloc: Global, left: &Schema, name: &str) -> Result<String, Memory>
    ensures { IfOk result (λ output. string_bytes output ≡ right_name left.now name.now) }
{
    let mut output = String::from_str(alloc, name)?;
    if left.position(name).is_some() {
        output.push_str("_right")?;
    }
    Ok(output)
}

/// Whether a name is among others.
pub fn contains(names: &[String], name: &str) -> bool
    ensures { result ≡ has_name (map string_bytes names.now) name.now }
{
    for other in names {
        if name == other.as_str() {
            return true;
        }
    }
    false
}
