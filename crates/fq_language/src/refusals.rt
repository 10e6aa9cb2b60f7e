//! What a refusal of the check is about, for people.
ghost use Rattle.std.specs.Prelude.{◌≡◌, ◌↔◌, ℕ, None, IsErr, IsOk, IsSome, IfErr, IfOk, OnOk, map, string_bytes};
ghost use Rattle.fq_column.specs.Frame.{names_of};
ghost use Rattle.fq_column.specs.Refusal.{first_refusal};
ghost use Rattle.fq_column.specs.Schema.{schema_checks};
ghost use Rattle.fq_language.specs.Explained.{WrongOnlyIf};
ghost use Rattle.fq_language.specs.Judged.{judged, judged_steps, source_refusal};
ghost use Rattle.fq_language.specs.View.{plan_step_of, source_data};

use crate::plans::{Plan, Source, Step};
use crate::reasons::{Explained, PartFault, bail};
use fq_column::{Kind, Memory, Schema, StepFault};
use std::alloc::Global;
use std::fmt;
use std::fmt::{Display, Formatter, Write};

mod columns;
mod expressions;
mod joins;
mod steps;

use columns::explain_columns;
use steps::schema_after;

/// What a refusal of the check is about: the names, the kinds or the numbers that it is over, without its step.
#[derive(Drop)]
pub struct Refusal {
    text: String,
}

impl Plan {
    /// What the check's refusal is about; `None` if the check refuses nothing. `Memory` if an allocation fails.
    ///
    /// Sources and steps are judged in the order of `specs/Judged.antt`, as the check of `fq_plan` judges them.
    pub fn refusal(&self, alloc: Global) -> Result<Option<Refusal>, Memory>
        ensures { IfOk result (λ refusal. (refusal ≡ None) ↔ IsOk (judged self.now)) }
    {
        match judge(alloc, self) {
            Ok(()) => Ok(None),
            Err(PartFault::Wrong(reason)) => Ok(Some(Refusal { text: reason.text })),
            Err(PartFault::Memory) => Err(Memory),
        }
    }
}

impl Display for Refusal {
    fn fmt<W: Write>(&self, f: &mut Formatter<W>) -> fmt::Result {
        f.write_str(self.text.as_str())
    }
}

// Nothing if the check does not refuse a plan.
fn judge(alloc: Global, plan: &Plan) -> Explained
    ensures passed { OnOk result (IsOk (judged plan.now)) }
    ensures wrong { IfErr result (WrongOnlyIf (IsErr (judged plan.now))) }
{
    let mut sides = source_schemas(alloc, plan.sources.as_slice())?;
    let Some(main) = sides.pop() else {
        unreachable!()
    };
    judge_steps(alloc, sides.as_slice(), &main, plan.steps.as_slice())
}

// The schemas of sources, in order.
fn source_schemas(alloc: Global, sources: &[Source]) -> Explained<Vec<Schema>>
    ensures schemas { IfOk result (λ schemas. schemas.items ≡ map (λ s. s.fields) (map source_data sources.now)) }
    ensures passed { OnOk result (source_refusal 0 (map source_data sources.now) ≡ None) }
    ensures wrong { IfErr result (WrongOnlyIf (IsSome (source_refusal 0 (map source_data sources.now)))) }
{
    let mut schemas = Vec::with_capacity(alloc, sources.len())?;
    for source in sources {
        let schema = source_schema(alloc, schemas.len(), source)?;
        schemas.push(schema)?;
    }
    Ok(schemas)
}

// The schema of a source.
fn source_schema(alloc: Global, number: usize, source: &Source) -> Explained<Schema>
    ensures schema { IfOk result (λ schema. schema ≡ (source_data source.now).fields) }
    ensures passed { OnOk result (first_refusal (schema_checks (names_of (source_data source.now).fields)) ≡ None) }
    ensures wrong { IfErr result (WrongOnlyIf (IsSome (first_refusal (schema_checks (names_of (source_data source.now).fields))))) }
{
    let (names, kinds) = names_and_kinds(alloc, source.columns.as_slice())?;
    match Schema::new(names, kinds) {
        Ok(schema) => Ok(schema),
        Err(StepFault::NoColumn) => bail!(alloc, "source {number} has no columns"),
        Err(fault) => {
            let names = source.columns.iter().map(|(name, _)| name.as_str());
            let names: Vec<&str> = names.collect(alloc)?;
            explain_columns(alloc, &names, names.len(), fault)
        }
    }
}

// Copies of the names of columns, and their kinds.
fn names_and_kinds(
    alloc: Global,
    columns: &[(String, Kind)],
) -> Result<(Vec<String>, Vec<Kind>), Memory>
    ensures names { IfOk result (λ p. map string_bytes p.0.items ≡ map (λ c. string_bytes c.0) columns.now) }
    ensures kinds { IfOk result (λ p. p.1.items ≡ map (λ c. c.1) columns.now) }
{
    let mut names = Vec::with_capacity(alloc, columns.len())?;
    let mut kinds = Vec::with_capacity(alloc, columns.len())?;
    for (name, kind) in columns.iter() {
        names.push(String::from_str(alloc, name.as_str())?)?;
        kinds.push(*kind)?;
    }
    Ok((names, kinds))
}

// Nothing if no step is refused on rows of this schema, each on the rows that the one before it leaves.
fn judge_steps(alloc: Global, sides: &[Schema], schema: &Schema, steps: &[Step]) -> Explained
    ensures passed { OnOk result ((n : ℕ) → IsOk (judged_steps sides.now n schema.now (map plan_step_of steps.now))) }
    ensures wrong { IfErr result (WrongOnlyIf ((n : ℕ) → IsErr (judged_steps sides.now n schema.now (map plan_step_of steps.now)))) }
{
    match steps.split_first() {
        None => Ok(()),
        Some((step, rest)) => {
            let after = schema_after(alloc, sides, schema, step)?;
            judge_steps(alloc, sides, &after, rest)
        }
    }
}
