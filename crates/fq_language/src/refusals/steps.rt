//! What a refusal of a step is about.
ghost use Rattle.std.specs.Prelude.{◌≡◌, Ok, IsErr, IfErr, IfOk, option_map};
ghost use Rattle.fq_language.specs.Explained.{WrongOnlyIf};
ghost use Rattle.fq_language.specs.Judged.{judged_step};
ghost use Rattle.fq_language.specs.Plan.{item_at};
ghost use Rattle.fq_language.specs.View.{plan_step_of};

use crate::hints::Hint;
use crate::plans::Step;
use crate::reasons::{Explained, PartFault, bail};
use crate::refusals::columns::{explain_column, explain_columns, explain_fault, explain_sum};
use crate::refusals::expressions::explain_kind;
use crate::refusals::joins::explain_join;
use fq_column::{Kind, Schema, StepFault};
use fq_csv::kind_word;
use fq_expr::{Expr, RowStep};
use fq_ops::{Agg, Function, MAX_WINDOW, What, group_schema, join_schema, roll_schema};
use fq_places::Quoted;
use std::alloc::Global;

/// The schema after a step. The sides are the schemas of the sources before the last.
pub fn schema_after(
    alloc: Global,
    sides: &[Schema],
    schema: &Schema,
    step: &Step,
) -> Explained<Schema>
    ensures after { IfOk result (λ after. judged_step sides.now schema.now (plan_step_of step.now) ≡ Ok after) }
    ensures wrong { IfErr result (WrongOnlyIf (IsErr (judged_step sides.now schema.now (plan_step_of step.now)))) }
{
    match step {
        Step::Rows(step) => match step.schema(alloc, schema) {
            Ok(after) => Ok(after),
            Err(StepFault::Memory) => Err(PartFault::Memory),
            Err(fault) => explain_rows(alloc, schema, step, fault),
        },
        Step::Join {
            source,
            on,
            how,
            ..
        } => {
            let Some(right) = side_at(sides, *source) else {
                return explain_source(alloc, *source, sides.len());
            };
            match join_schema(alloc, schema, right, on, *how) {
                Ok(after) => Ok(after),
                Err(StepFault::Memory) => Err(PartFault::Memory),
                Err(fault) => explain_join(alloc, schema, right, on, fault),
            }
        }
        Step::GroupBy { keys, aggs } => {
            match group_schema(alloc, schema, keys, aggs) {
                Ok(after) => Ok(after),
                Err(StepFault::Memory) => Err(PartFault::Memory),
                Err(fault) => explain_grouping(alloc, schema, keys, aggs, fault),
            }
        }
        Step::RollingSum {
            column,
            window,
            min_samples,
            name,
        } => {
            let (column, window, samples) = (column.as_str(), *window, *min_samples);
            match roll_schema(alloc, schema, column, window, samples, name) {
                Ok(after) => Ok(after),
                Err(StepFault::Memory) => Err(PartFault::Memory),
                Err(fault) => explain_roll(alloc, schema, column, window, samples, fault),
            }
        }
    }
}

// The schema of the source of a number, which may be no source's.
fn side_at(sides: &[Schema], number: i64) -> Option<&Schema>
    ensures { option_map (λ side. side.now) result ≡ item_at sides.now number }
{
    let place = usize::try_from(number).ok()?;
    sides.get(place)
}

// What the refusal of a row-wise step is about.
fn explain_rows<T>(alloc: Global, schema: &Schema, step: &RowStep, fault: StepFault) -> Explained<T>
    ensures { IsErr result }
{
    match step {
        RowStep::Filter(predicate) => {
            explain_kind(alloc, schema, predicate)?;
            match predicate.kind_in(schema) {
                Ok(kind) if kind != Kind::Truth => {
                    let (kind, hint) = (kind_word(kind), Hint::of(&[predicate], Some(schema)));
                    bail!(alloc, "the condition is {kind}{hint}")
                }
                _ => explain_fault(alloc, fault),
            }
        }
        RowStep::WithColumns(outputs) => {
            let names = outputs.iter().map(|output| output.0.as_str());
            let count = names.filter(|name| schema.position(name).is_none()).count();
            let count = schema.len().saturating_add(count);
            explain_outputs(alloc, schema, outputs, count, fault)
        }
        RowStep::Select(outputs) => {
            explain_outputs(alloc, schema, outputs, outputs.len(), fault)
        }
    }
}

// What the refusal of outputs is about, with which there would be so many columns.
fn explain_outputs<T>(
    alloc: Global,
    schema: &Schema,
    outputs: &[(String, Expr)],
    count: usize,
    fault: StepFault,
) -> Explained<T>
    ensures { IsErr result }
{
    if outputs.is_empty() {
        bail!(alloc, "select has no outputs")
    }
    for (name, expression) in outputs {
        let fits = explain_kind(alloc, schema, expression);
        of_output(alloc, name.as_str(), fits)?;
    }
    let names: Vec<&str> = outputs
        .iter()
        .map(|output| output.0.as_str())
        .collect(alloc)?;
    explain_columns(alloc, &names, count, fault)
}

// Why the source of a number cannot be joined, if so many can be.
fn explain_source<T>(alloc: Global, number: i64, count: usize) -> Explained<T>
    ensures { IsErr result }
{
    match count {
        0 => bail!(alloc, "{number}; there is no source before the last"),
        1 => bail!(alloc, "{number}; only source 0 can be joined"),
        _ => bail!(alloc, "{number}; sources 0 to {} can be joined", count - 1),
    }
}

// What the refusal of a grouping is about.
fn explain_grouping<T>(
    alloc: Global,
    schema: &Schema,
    keys: &[String],
    aggs: &[Agg],
    fault: StepFault,
) -> Explained<T>
    ensures { IsErr result }
{
    if keys.is_empty() {
        bail!(alloc, "keys is empty")
    }
    for key in keys {
        explain_column(alloc, schema, key.as_str(), "")?;
    }
    for agg in aggs {
        let fits = explain_aggregate(alloc, schema, &agg.what);
        of_output(alloc, agg.name.as_str(), fits)?;
    }
    let names = keys.iter().map(|key| key.as_str());
    let names = names.chain(aggs.iter().map(|agg| agg.name.as_str()));
    let names: Vec<&str> = names.collect(alloc)?;
    explain_columns(alloc, &names, names.len(), fault)
}

// What fits, or why the output of this name does not.
fn of_output(alloc: Global, name: &str, fits: Explained) -> Explained {
    match fits {
        Err(PartFault::Wrong(reason)) => {
            let name = Quoted(name.as_bytes());
            bail!(alloc, "{name}: {}", reason.text)
        }
        fits => fits,
    }
}

// Nothing if an aggregate has a kind.
fn explain_aggregate(alloc: Global, schema: &Schema, what: &What) -> Explained {
    match what {
        What::Len => Ok(()),
        What::Of(Function::Sum, column) => explain_sum(alloc, schema, column.as_str(), "sum: "),
        What::Of(_, column) => explain_column(alloc, schema, column.as_str(), ""),
    }
}

// What the refusal of a rolling sum is about.
fn explain_roll<T>(
    alloc: Global,
    schema: &Schema,
    column: &str,
    window: i64,
    samples: i64,
    fault: StepFault,
) -> Explained<T>
    ensures { IsErr result }
{
    explain_sum(alloc, schema, column, "")?;
    let count = schema.len().saturating_add(1);
    match fault {
        StepFault::Window => bail!(alloc, "{window} is not from 1 to {MAX_WINDOW}"),
        StepFault::Samples => bail!(alloc, "{samples} is not from 1 to the window, {window}"),
        _ => explain_columns(alloc, &[], count, fault),
    }
}
