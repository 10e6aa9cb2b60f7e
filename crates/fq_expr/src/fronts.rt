//! The row-wise steps of a plan, over one batch at a time.
ghost use Rattle.std.specs.Prelude.{◌≡◌, ◌+◌, ◌≤◌, ◌==◌, ◌++◌, ◌∷◌, [], Some, length, map, vec_len, IfOk, IsOk, OnErr, OnOk};
ghost use Rattle.std.specs.Option.{option_map_or};
ghost use Rattle.fq_column.specs.Stream.{done};
ghost use Rattle.fq_expr.specs.Front.{fault_at};
ghost use Rattle.fq_expr.specs.Kinds.{step_schema, steps_schema};
ghost use Rattle.fq_expr.specs.ExpressionData.{step_of};
ghost use Rattle.fq_expr.specs.Steps.{apply_steps, fields_after, fields_after_all, fields_after_each};

use crate::steps::RowStep;
use fq_column::{Batch, Memory, Schema, StepFault};
use std::alloc::Global;
use std::marker::Model;
use thiserror::Error;

/// An expression whose value on a row does not fit 64 bits: the step's number, and the item's in the step (a filter's is 0).
#[derive(Clone, Copy, Debug, PartialEq, Eq, Error)]
#[error("step {step}, item {item}: overflow")]
pub struct RowFault {
    /// The step's number in the plan.
    pub step: u16,
    /// The number of the item in the step; a filter's is 0.
    pub item: u16,
}

/// The rows that steps made of those before the first that faults, and the fault of that row.
pub type Piece = fq_column::Piece<RowFault>;

/// The most steps of a plan, whose numbers are below it.
pub const MAX_STEPS: usize = 64;

/// Row-wise steps one after the other, numbered from a first number on.
#[derive(Debug, Drop)]
pub struct Front {
    steps: Vec<RowStep>,
    schema: Schema,
    first: u16,
}

impl Model for Front {
    ghost use Rattle.fq_expr.specs.Front.{NumberedSteps};

    ghost Value = { NumberedSteps };

    ghost use Rattle.std.specs.Coded.{codes};
    ghost use Rattle.fq_expr.specs.ExpressionCode.{expression_code};

    ghost coded = { Prim.hlevel (codes, expression_code (Prim.hlevel codes)) };

    ghost use Rattle.std.specs.Prelude.{◌+◌, ◌≤◌, map, length, IsOk};
    ghost use Rattle.fq_expr.specs.Kinds.{steps_schema};
    ghost use Rattle.fq_expr.specs.ExpressionData.{step_of};
    ghost use Rattle.fq_expr.specs.declared.fronts.TheConstants.{MAX_STEPS};

    ghost view = { λ f. record { steps = map step_of f.steps.items; fields = f.schema; first = f.first } };

    ghost invariant = { λ f. IsOk (steps_schema f.schema (map step_of f.steps.items)) × (f.first + length f.steps.items ≤ MAX_STEPS) };
}

impl Front {
    /// The front of these steps on batches of a schema; the list may be empty.
    ///
    /// Its faults number the steps from `first`. Nothing is allocated, so there is always a front.
    pub fn new(
        _alloc: Global,
        steps: Vec<RowStep>,
        schema: Schema,
        first: u16,
    ) -> Result<Front, Memory>
        requires schemas { IsOk (steps_schema schema (map step_of steps.items)) }
        requires numbers { first + vec_len steps ≤ MAX_STEPS }
        ensures succeeds { IsOk result }
        ensures front { IfOk result (λ f. f ≡ record { steps = map step_of steps.items; fields = schema; first = first }) }
    {
        Ok(Front {
            steps,
            schema,
            first,
        })
    }

    /// One more step at the end. If an allocation fails, the front is as it was.
    pub fn push(&mut self, step: RowStep) -> Result<(), Memory>
        requires schemas { IsOk (steps_schema self.old.fields (self.old.steps ++ step_of step ∷ [])) }
        requires numbers { self.old.first + length self.old.steps + 1 ≤ MAX_STEPS }
        ensures ok { OnOk result (self.new ≡ record self.old { steps = self.old.steps ++ step_of step ∷ [] }) }
        ensures err { OnErr result (self.new ≡ self.old) }
    {
        Ok(self.steps.push(step)?)
    }

    /// The schema before the first step.
    pub fn schema(&self) -> &Schema
        ensures { result.now ≡ self.now.fields }
    {
        &self.schema
    }

    /// The steps, in order.
    pub fn steps(&self) -> &[RowStep]
        ensures { map step_of result.now ≡ self.now.steps }
    {
        self.steps.as_slice()
    }

    /// The columns after each step, in order. `Memory` if an allocation fails.
    pub fn schemas(&self, alloc: Global) -> Result<Vec<Schema>, Memory>
        ensures { IfOk result (λ schemas. schemas.items ≡ fields_after_each self.now.fields self.now.steps) }
    {
        let mut schemas = Vec::with_capacity(alloc, self.steps.len())?;
        let mut last = self.schema.copy(alloc)?;
        for i in 0..self.steps.len() {
            last = schema_after(alloc, &self.steps[i], &last)?;
            schemas.push(last.copy(alloc)?)?;
        }
        Ok(schemas)
    }

    /// Whether there is no step.
    pub fn is_empty(&self) -> bool
        ensures { result ≡ (length self.now.steps == 0) }
    {
        self.steps.is_empty()
    }

    /// The steps on the rows of a batch.
    ///
    /// Each step sees the rows that the step before it made. So the fault of the earliest row takes precedence whatever the
    /// batch; within a row that of the lowest step, then that of the lowest item. The rows before it stay.
    pub fn apply(&self, alloc: Global, batch: Batch) -> Result<Piece, Memory>
        requires { batch.fields ≡ self.now.fields }
        ensures fields { IfOk result (λ p. p.batch.fields ≡ fields_after_all self.now.fields self.now.steps) }
        ensures rows { let u = apply_steps fault_at self.now.first self.now.fields self.now.steps (done batch.rows) in
            IfOk result (λ p. p.batch.rows ≡ u.rows) }
        ensures fault { let u = apply_steps fault_at self.now.first self.now.fields self.now.steps (done batch.rows) in
            IfOk result (λ p. p.fault ≡ u.fault) }
    {
        let mut piece = Piece { batch, fault: None };
        for i in 0..self.steps.len() {
            let Piece { batch, fault } = piece;
            let stepped = self.steps[i].apply(alloc, batch)?;
            piece = Piece {
                batch: stepped.batch,
                fault: fault_after(self.first + i as u16, stepped.fault, fault),
            };
        }
        Ok(piece)
    }
}

// The fault after a step: that of its item, if one faulted, or the one before.
fn fault_after(step: u16, item: Option<u16>, before: Option<RowFault>) -> Option<RowFault>
    ensures { result ≡ option_map_or (λ i. Some (fault_at step i)) item before }
{
    match item {
        Some(item) => Some(RowFault { step, item }),
        None => before,
    }
}

// The columns after a step that can be made on these.
fn schema_after(alloc: Global, step: &RowStep, before: &Schema) -> Result<Schema, Memory>
    requires { IsOk (step_schema before.now (step_of step.now)) }
    ensures { IfOk result (λ after. after ≡ fields_after before.now (step_of step.now)) }
{
    match step.schema(alloc, before) {
        Ok(after) => Ok(after),
        Err(StepFault::Memory) => Err(Memory),
        Err(_) => unreachable!(),
    }
}
