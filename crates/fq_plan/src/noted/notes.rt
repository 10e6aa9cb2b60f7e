//! What a reader of a plan may want to know of its notations.
use crate::checks::Checked;
use crate::noted::NotationFault;
use crate::noted::planned_steps::{PlannedStep, items_in};
use fq_column::{Memory, Schema};
use fq_expr::RowStep;
use fq_notation::NamedNotations;
use fq_run::Explanation;
use std::alloc::Global;

impl Checked {
    /// What the plan reads and does, with the notations that follow from those that names declare. `Memory` if an allocation fails.
    pub fn explain(
        &self,
        alloc: Global,
        declared: &NamedNotations,
    ) -> Result<Explanation<'_>, Memory> {
        let notations = self.notations(alloc, declared)?;
        self.physical.explain(alloc, notations)
    }

    /// What each step does with notations that a reader may not expect, by those that names declare: a line for each number beside decimals or
    /// dates, and for each column that has another notation than the files' column of its name. `Memory` if an allocation fails.
    pub fn notation_notes(
        &self,
        alloc: Global,
        declared: &NamedNotations,
    ) -> Result<Vec<String>, Memory> {
        let (steps, schemas) = (self.steps(alloc)?, self.schemas(alloc)?);
        let notations = self.notations(alloc, declared)?;
        let mut notes = Vec::new(alloc);
        for number in 0..steps.len() {
            let (Some(schema), Some(named)) = (schemas.get(number), notations.get(number)) else {
                return Ok(notes);
            };
            if let PlannedStep::Row(row) = steps[number] {
                push_beside(alloc, number, row, schema, named, &mut notes)?;
            }
            if let (Some(columns), Some(after)) = (
                schemas.get(number + 1),
                notations.get(number + 1),
            ) {
                self.push_differing(
                    alloc,
                    number,
                    steps[number],
                    columns,
                    declared,
                    after,
                    &mut notes,
                )?;
            }
        }
        Ok(notes)
    }

    // The notations before each step and after the last, by those that names declare, up to a step that leaves columns without notations; none,
    // if no name is declared.
    pub(crate) fn notations(
        &self,
        alloc: Global,
        declared: &NamedNotations,
    ) -> Result<Vec<NamedNotations>, Memory> {
        let (steps, schemas) = (self.steps(alloc)?, self.schemas(alloc)?);
        let mut notations = Vec::with_capacity(alloc, steps.len() + 1)?;
        if declared.entries().is_empty() {
            return Ok(notations);
        }
        for number in 0..steps.len() + 1 {
            match self.notations_before(
                alloc,
                steps.as_slice(),
                schemas.as_slice(),
                declared,
                number,
            ) {
                Ok(named) => notations.push(named)?,
                Err(NotationFault::Memory) => return Err(Memory),
                Err(_) => return Ok(notations),
            }
        }
        Ok(notations)
    }

    // Notes the columns that a step computes in another notation than the files' columns of their names; `columns` are those after it.
    fn push_differing(
        &self,
        alloc: Global,
        number: usize,
        step: PlannedStep<'_>,
        columns: &Schema,
        declared: &NamedNotations,
        after: &NamedNotations,
        notes: &mut Vec<String>,
    ) -> Result<(), Memory> {
        for place in 0..columns.len() {
            let (name, kind) = (columns.name(place), columns.kind(place));
            let (here, in_files) = (after.of(name, kind), declared.of(name, kind));
            if here != in_files && step.computes(name) && self.reads_ints(name) {
                notes.push(format!(in alloc;
                    "step {number}: {name:?} is {here} here, {in_files} in the files"
                )?)?;
            }
        }
        Ok(())
    }
}

// Notes the numbers beside decimals and dates in a row-wise step.
fn push_beside(
    alloc: Global,
    number: usize,
    row: &RowStep,
    schema: &Schema,
    named: &NamedNotations,
    notes: &mut Vec<String>,
) -> Result<(), Memory> {
    let found = row.beside(alloc, schema, named)?;
    for beside in &found {
        notes.push(format!(in alloc; "step {number}: {beside}")?)?;
    }
    Ok(())
}
