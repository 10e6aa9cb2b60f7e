//! The notations after joins, groupings and rolling sums.
ghost use Rattle.std.specs.Prelude.{◌≡◌, ◌⊎◌, IfOk, IfErr, None, Ok, Some, Err, map, string_bytes};
ghost use Rattle.fq_ops.specs.AggregateData.{aggregate_of, outputs_of};
ghost use Rattle.fq_ops.specs.Noted.{aggregate_noted, aggregates_noted, group_noted, join_noted, keys_differ, keys_noted, right_noted, roll_noted};

use crate::aggregates::{Agg, Function, What};
use crate::joins::How;
use crate::output_schemas::{contains, right_name_of};
use fq_column::{Kind, Memory, Schema};
use fq_notation::{
    Followed, NamedNotations, Notation, Said, StepUnnoted, Unnoted, column_noted, count_noted,
    renamed_noted, said_at, same_notation,
};
use std::alloc::Global;

/// The notations after a join, under the names of its columns, by those of its sides.
///
/// `said` has what the name of each right column says after the join, by its place on the right. A name past its end says nothing. `Item` is
/// the first key whose notations differ, `Step` says that a right column has another notation than its new name declares, and `Memory` that
/// an allocation failed.
pub fn join_noted(
    alloc: Global,
    left: &Schema,
    named: NamedNotations,
    right: &Schema,
    right_named: &NamedNotations,
    on: &[String],
    how: How,
    said: &[Said],
) -> Result<NamedNotations, StepUnnoted>
    ensures noted { IfOk result (λ after. join_noted left.now named right.now right_named.now said.now how (map string_bytes on.now) ≡ Ok after) }
    ensures refused { IfErr result (λ fault. (join_noted left.now named right.now right_named.now said.now how (map string_bytes on.now) ≡ Err fault) ⊎ (fault ≡ StepUnnoted.Memory)) }
{
    if let Some(why) = keys_differ(left, &named, right, right_named, on) {
        return Err(why);
    }
    let made = match how {
        How::Inner | How::Left => right_noted(alloc, left, right, right_named, on, said)?,
        How::Semi | How::Anti => NamedNotations::with_capacity(alloc, 0)?,
    };
    Ok(made.before(named)?)
}

/// The notations after a grouping, under the names of its columns, by those before it.
///
/// `said` has what the name of each aggregate says, by its place. A name past its end says nothing. `Item` is the first aggregate that has
/// no notation, and `Memory` says that an allocation failed.
pub fn group_noted(
    alloc: Global,
    columns: &Schema,
    named: &NamedNotations,
    keys: &[String],
    aggs: &[Agg],
    said: &[Said],
) -> Result<NamedNotations, StepUnnoted>
    ensures noted { IfOk result (λ after. group_noted columns.now named.now said.now (map string_bytes keys.now) (outputs_of aggs.now) ≡ Ok after) }
    ensures refused { IfErr result (λ fault. (group_noted columns.now named.now said.now (map string_bytes keys.now) (outputs_of aggs.now) ≡ Err fault) ⊎ (fault ≡ StepUnnoted.Memory)) }
{
    let keys = keys_noted(alloc, named, keys)?;
    let aggregates = aggregates_noted(alloc, columns, named, aggs, said)?;
    Ok(keys.before(aggregates)?)
}

/// The notations after a rolling sum over a column under a name which says this, by those before it. `Step` says that the sum has no
/// notation, and `Memory` that an allocation failed.
pub fn roll_noted(
    alloc: Global,
    columns: &Schema,
    named: NamedNotations,
    column: &str,
    name: &str,
    said: Said,
) -> Result<NamedNotations, StepUnnoted>
    ensures noted { IfOk result (λ after. roll_noted columns.now named said column.now name.now ≡ Ok after) }
    ensures refused { IfErr result (λ fault. (roll_noted columns.now named said column.now name.now ≡ Err fault) ⊎ (fault ≡ StepUnnoted.Memory)) }
{
    match column_noted(true, said, Followed::of_named(columns, &named, column)) {
        Ok(notation) => {
            let mut made = NamedNotations::with_capacity(alloc, 1)?;
            made.add(alloc, name, notation)?;
            Ok(made.before(named)?)
        }
        Err(why) => Err(StepUnnoted::Step(why)),
    }
}

// The first key whose notations differ.
fn keys_differ(
    left: &Schema,
    named: &NamedNotations,
    right: &Schema,
    right_named: &NamedNotations,
    on: &[String],
) -> Option<StepUnnoted>
    ensures { result ≡ keys_differ left.now named.now right.now right_named.now 0 (map string_bytes on.now) }
{
    for place in 0..on.len() {
        let key = on[place].as_str();
        if !same_notation(named.at(left, key), right_named.at(right, key)) {
            return Some(StepUnnoted::Item(place, Unnoted::Differ));
        }
    }
    None
}

// The right columns without the keys, each under its name after the join, with its notation.
#[tactic(auto, using(fq_notation::proofs::NamingLemmas::before_all_append))]
fn right_noted(
    alloc: Global,
    left: &Schema,
    right: &Schema,
    right_named: &NamedNotations,
    on: &[String],
    said: &[Said],
) -> Result<NamedNotations, StepUnnoted>
    ensures noted { IfOk result (λ made. right_noted left.now right_named.now said.now (map string_bytes on.now) 0 right.now ≡ Ok made) }
    ensures refused { IfErr result (λ fault. (right_noted left.now right_named.now said.now (map string_bytes on.now) 0 right.now ≡ Err fault) ⊎ (fault ≡ StepUnnoted.Memory)) }
{
    let mut made = NamedNotations::with_capacity(alloc, right.len())?;
    for place in 0..right.len() {
        let (name, kind) = (right.name(place), right.kind(place));
        if !contains(on, name) {
            match renamed_noted(said_at(said, place), right_named.of(name, kind)) {
                Ok(notation) => {
                    let after = right_name_of(alloc, left, name)?;
                    made.add(alloc, after.as_str(), notation)?
                }
                Err(why) => return Err(StepUnnoted::Step(why)),
            }
        }
    }
    Ok(made)
}

// The keys of a grouping, each with its notation.
fn keys_noted(
    alloc: Global,
    named: &NamedNotations,
    keys: &[String],
) -> Result<NamedNotations, Memory>
    ensures { IfOk result (λ made. made ≡ keys_noted named.now (map string_bytes keys.now)) }
{
    let mut made = NamedNotations::with_capacity(alloc, keys.len())?;
    for key in keys {
        let name = key.as_str();
        made.add(alloc, name, named.of(name, Kind::Whole))?;
    }
    Ok(made)
}

// The aggregates of a grouping, each with its notation.
#[tactic(auto, using(fq_notation::proofs::NamingLemmas::before_all_append))]
fn aggregates_noted(
    alloc: Global,
    columns: &Schema,
    named: &NamedNotations,
    aggs: &[Agg],
    said: &[Said],
) -> Result<NamedNotations, StepUnnoted>
    ensures noted { IfOk result (λ made. aggregates_noted columns.now named.now said.now 0 (outputs_of aggs.now) ≡ Ok made) }
    ensures refused { IfErr result (λ fault. (aggregates_noted columns.now named.now said.now 0 (outputs_of aggs.now) ≡ Err fault) ⊎ (fault ≡ StepUnnoted.Memory)) }
{
    let mut made = NamedNotations::with_capacity(alloc, aggs.len())?;
    for place in 0..aggs.len() {
        let agg = &aggs[place];
        match aggregate_noted(columns, named, &agg.what, said_at(said, place)) {
            Ok(notation) => made.add(alloc, agg.name.as_str(), notation)?,
            Err(why) => return Err(StepUnnoted::Item(place, why)),
        }
    }
    Ok(made)
}

// The notation of an aggregate under a name that says this.
fn aggregate_noted(
    columns: &Schema,
    named: &NamedNotations,
    what: &What,
    said: Said,
) -> Result<Notation, Unnoted>
    ensures { result ≡ aggregate_noted columns.now named.now said (aggregate_of what.now) }
{
    match what {
        What::Len => count_noted(said),
        What::Of(function, name) => {
            let column = Followed::of_named(columns, named, name.as_str());
            match function {
                Function::Sum => column_noted(true, said, column),
                Function::Min | Function::Max | Function::First | Function::Last => column_noted(
                    false, said, column,
                ),
                Function::Count | Function::Len | Function::NUnique => count_noted(said),
            }
        }
    }
}
