//! Checked plans whose columns have notations.
ghost use Rattle.std.specs.Prelude.{◌≡◌, ◌⊎◌, [], IfErr, IfOk, None, Ok, Some, map, string_bytes};
ghost use Rattle.std.specs.List.{list_any};
ghost use Rattle.fq_column.specs.Frame.{same_name};
ghost use Rattle.fq_language.specs.Judged.{judged};
ghost use Rattle.fq_plan.specs.Noted.{frame_fields, frame_named, has_ints, noted, notation_refusal, refused_after};
ghost use Rattle.fq_run.specs.Noted as run;

mod following;
mod misfits;
mod notes;
mod planned_steps;

use crate::checks::Checked;
use fq_column::{Memory, Schema};
use fq_notation::{NamedNotations, Notation, Unnoted};
use fq_run::has_ints;
use std::alloc::Global;
use thiserror::Error;

/// Why notations are refused; an entry is a name with its notation, by its place from 0. Steps, and what stands in them, count from 0.
#[derive(Clone, Copy, Debug, PartialEq, Eq, Error)]
pub enum NotationFault {
    /// No source has, and no step leaves, a column of ints of the entry's name.
    #[error("no such int column")]
    NoColumn(usize),
    /// The entry's name is that of an entry before it.
    #[error("a name stands twice")]
    Twice(usize),
    /// Why a step leaves columns without notations: a filter, a rolling sum, or a join that renames a column.
    #[error("step {0}: {1}")]
    Step(usize, Unnoted),
    /// Why a step's output or aggregate has no notation, or a join's key two, and its place.
    #[error("step {0}, item {1}: {2}")]
    Item(usize, usize, Unnoted),
    /// An allocation failed.
    #[error("out of memory")]
    Memory,
}

impl From<Memory> for NotationFault {
    ghost use Rattle.std.specs.Prelude.{◌≡◌};
    ghost use Rattle.fq_plan.specs.declared.noted.NotationFault.TheVariants as fault;

    ghost from_gives = { λ _ e. e ≡ fault.Memory };

    fn from(_refused: Memory) -> NotationFault {
        NotationFault::Memory
    }
}

impl Checked {
    /// The columns of the frame.
    pub fn columns(&self) -> &Schema
        ensures { result.now ≡ frame_fields self.now }
    {
        self.physical.columns()
    }

    /// The plan with its ints in notations by the names of their columns. Each source's ints are read in these. The frame's ints are printed in
    /// the notations that follow from them.
    ///
    /// The first entry is refused whose name stands under an entry before it, `Twice`, or is that of no column of ints of a source or
    /// after a step, `NoColumn`. Then the first step is refused which leaves a column without a notation, `Step` and `Item`. `Memory` if an
    /// allocation fails.
    pub fn with_notations(
        self,
        alloc: Global,
        named: &NamedNotations,
    ) -> Result<Checked, NotationFault>
        ensures noted { IfOk result (λ plan. (notation_refusal self named.now ≡ None) × (plan ≡ noted named.now self)) }
        ensures refused { IfErr result (λ fault. (notation_refusal self named.now ≡ Some fault) ⊎ (fault ≡ NotationFault.Memory)) }
    {
        let last = self.frame_notations(alloc, named)?;
        let physical = self.physical.with_notations(alloc, named, &last)?;
        Ok(Checked { physical })
    }

    // The notations of the frame's columns, by those that names declare, or why these are refused.
    fn frame_notations(
        &self,
        alloc: Global,
        named: &NamedNotations,
    ) -> Result<NamedNotations, NotationFault>
        ensures noted { IfOk result (λ last. (notation_refusal self.now named.now ≡ None) × (last ≡ frame_named named.now self.now)) }
        ensures refused { IfErr result (λ fault. (notation_refusal self.now named.now ≡ Some fault) ⊎ (fault ≡ NotationFault.Memory)) }
    {
        if named.entries().is_empty() {
            return Ok(NamedNotations::with_capacity(alloc, 0)?);
        }
        let schemas = self.schemas(alloc)?;
        if let Some(fault) = self.refusal_of(schemas.as_slice(), named.entries()) {
            return Err(fault);
        }
        let steps = self.steps(alloc)?;
        self.notations_before(
            alloc,
            steps.as_slice(),
            schemas.as_slice(),
            named,
            steps.len(),
        )
    }

    // The first entry that is refused; `schemas` are the columns before each step and after the last.
    fn refusal_of(&self, schemas: &[Schema], named: &[(String, Notation)]) -> Option<NotationFault>
        requires { judged self.now ≡ Ok schemas.now }
        ensures { result ≡ refused_after self.now [] (map (λ entry. (string_bytes entry.0, entry.1)) named.now) }
    {
        for place in 0..named.len() {
            let name = named[place].0.as_str();
            if stands_in(&named[..place], name) {
                return Some(NotationFault::Twice(place));
            }
            if !self.has_ints(schemas, name) {
                return Some(NotationFault::NoColumn(place));
            }
        }
        None
    }

    // Whether a source has, or a step leaves, a column of ints of this name.
    fn has_ints(&self, schemas: &[Schema], name: &str) -> bool
        requires { judged self.now ≡ Ok schemas.now }
        ensures { result ≡ has_ints self.now name.now }
    {
        self.reads_ints(name) || one_has_ints(schemas, name)
    }
}

// Whether an entry has this name.
fn stands_in(named: &[(String, Notation)], name: &str) -> bool
    ensures { result ≡ list_any (λ entry. same_name name.now (string_bytes entry.0)) named.now }
{
    named.iter().any(|entry| name == entry.0.as_str())
}

// Whether one of the schemas has a column of ints of this name.
fn one_has_ints(schemas: &[Schema], name: &str) -> bool
    ensures { result ≡ list_any (λ fields. run.has_ints fields name.now) schemas.now }
{
    schemas.iter().any(|columns| has_ints(columns, name))
}
