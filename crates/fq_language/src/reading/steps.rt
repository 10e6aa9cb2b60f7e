//! Steps.
ghost use Rattle.serde_json.specs.View.{view};
ghost use Rattle.fq_language.specs.Parts.{only_if, has_members as has_so_many};
ghost use Rattle.fq_language.specs.Plan.{PlanStep};
ghost use Rattle.fq_language.specs.Reading.{Answers, IsSameAnswer, matches_nulls};
ghost use Rattle.fq_language.specs.Spelling.{step_of, join_of, group_of, roll_of, roll_with};
ghost use Rattle.fq_language.specs.View.{plan_step_of};

use crate::plans::{Step, Version};
use crate::reading::explanations::{of_members, other_members, wrong};
use crate::reading::values::{has_members, only_member};
use crate::reading::{Listed, Spelled, read_at, read_member, within};
use crate::reasons::{Explained, PartFault, Segment};
use crate::words::{GROUP_BY, JOIN, ROLLING_SUM, STEPS, Words};
use fq_expr::RowStep;
use serde_json::Value;
use std::alloc::Global;

// An object whose only member says which step it is.
impl Spelled for Step {
    ghost Part = { PlanStep };

    ghost spelled_by = { step_of };

    ghost part_of = { plan_step_of };

    fn read(alloc: Global, version: Version, value: &Value) -> Explained<Step> {
        if let Some(predicate) = only_member(value, "filter") {
            let predicate = read_at(alloc, version, Segment::Member("filter"), predicate)?;
            return Ok(Step::Rows(RowStep::Filter(predicate)));
        }
        if let Some(outputs) = only_member(value, "with_columns") {
            let outputs = read_at(alloc, version, Segment::Member("with_columns"), outputs)?;
            return Ok(Step::Rows(RowStep::WithColumns(outputs)));
        }
        if let Some(outputs) = only_member(value, "select") {
            let outputs = read_at(alloc, version, Segment::Member("select"), outputs)?;
            return Ok(Step::Rows(RowStep::Select(outputs)));
        }
        if let Some(join) = only_member(value, "join") {
            let step = read_join(alloc, version, join);
            return of_step(alloc, version, join, "join", JOIN, step);
        }
        if let Some(group) = only_member(value, "group_by") {
            let step = read_group(alloc, version, group);
            return of_step(alloc, version, group, "group_by", GROUP_BY, step);
        }
        let Some(roll) = only_member(value, "rolling_sum") else {
            return Err(no_step(alloc, version, value));
        };
        let step = read_roll(alloc, version, roll);
        of_step(alloc, version, roll, "rolling_sum", ROLLING_SUM, step)
    }
}

impl Listed for Step {
    const ITEMS: &'static str = "steps";
}

// A value that is not an object of one step.
fn no_step(alloc: Global, version: Version, value: &Value) -> PartFault {
    if has_members(value, 1) {
        return other_members(alloc, version, value, STEPS);
    }
    wrong(alloc, value, "is not an object of one step")
}

// What reading the object under a step's word answered, seen from the step.
fn of_step(
    alloc: Global,
    version: Version,
    value: &Value,
    word: &'static str,
    members: Words,
    step: Explained<Step>,
) -> Explained<Step>
    ensures { IsSameAnswer step result }
{
    let step = of_members(alloc, version, value, members, step);
    within(Segment::Member(word), step)
}

// A join with an earlier source, in version 2 with whether nulls are equal, if that is given.
fn read_join(alloc: Global, version: Version, value: &Value) -> Explained<Step>
    ensures { Answers plan_step_of (join_of version (view value.now)) result }
{
    let source = read_member(alloc, version, value, "source")?;
    let on = read_member(alloc, version, value, "on")?;
    let how = read_member(alloc, version, value, "how")?;
    let nulls_equal = read_nulls_equal(alloc, version, value)?;
    Ok(Step::Join {
        source,
        on,
        how,
        nulls_equal,
    })
}

// Whether a null matches a null, which a join of four members says.
fn read_nulls_equal(alloc: Global, version: Version, value: &Value) -> Explained<bool>
    ensures { Answers (λ equal. equal) (matches_nulls version (view value.now)) result }
{
    if has_members(value, 3) {
        return Ok(false);
    }
    match version {
        Version::Two if has_members(value, 4) => read_member(alloc, version, value, "nulls_equal"),
        _ => Err(other_members(alloc, version, value, JOIN)),
    }
}

// Aggregates of groups.
fn read_group(alloc: Global, version: Version, value: &Value) -> Explained<Step>
    ensures { Answers plan_step_of (group_of (view value.now)) result }
{
    let keys = read_member(alloc, version, value, "keys")?;
    let aggs = read_member(alloc, version, value, "aggs")?;
    if !has_members(value, 2) {
        return Err(other_members(alloc, version, value, GROUP_BY));
    }
    Ok(Step::GroupBy { keys, aggs })
}

// A rolling sum: four members with its least number of values, or three without.
fn read_roll(alloc: Global, version: Version, value: &Value) -> Explained<Step>
    ensures { Answers plan_step_of (roll_of (view value.now)) result }
{
    if value.get("min_samples").is_some() {
        return read_roll_with(alloc, version, value, "min_samples", 4);
    }
    read_roll_with(alloc, version, value, "window", 3)
}

// A rolling sum of so many members, whose least number of values is one of them.
fn read_roll_with(
    alloc: Global,
    version: Version,
    value: &Value,
    samples: &'static str,
    count: usize,
) -> Explained<Step>
    ensures { let d = view value.now in Answers plan_step_of (only_if (has_so_many count d) (roll_with samples.now d)) result }
{
    let column = read_member(alloc, version, value, "column")?;
    let window = read_member(alloc, version, value, "window")?;
    let min_samples = read_member(alloc, version, value, samples)?;
    let name = read_member(alloc, version, value, "name")?;
    if !has_members(value, count) {
        return Err(other_members(alloc, version, value, ROLLING_SUM));
    }
    Ok(Step::RollingSum {
        column,
        window,
        min_samples,
        name,
    })
}
