//! The check of a plan's steps.
ghost use Rattle.std.specs.Prelude.{◌≡◌, ◌⊎◌, ◌+◌, ◌≤◌, ◌++◌, ◌∷◌, [], ℕ, List, Ok, Err, Some, None, map, length, vec_len, MatchOption, IfOk, IfErr, pos, string_bytes, OnOk};
ghost use Rattle.fq_column.specs.Frame.{Fields};
ghost use Rattle.fq_expr.specs.Kinds.{step_schema, steps_schema};
ghost use Rattle.fq_expr.specs.ExpressionData.{step_of};
ghost use Rattle.fq_ops.specs.Group.{group_schema as group_schema_of};
ghost use Rattle.fq_ops.specs.AggregateData.{outputs_of};
ghost use Rattle.fq_ops.specs.Roll.{roll_schema as roll_schema_of};
ghost use Rattle.fq_language.specs.Judged.{judged_step, judged_steps};
ghost use Rattle.fq_language.specs.Plan.{group_by, item_at, join, rolling_sum, row_wise};
ghost use Rattle.fq_plan.specs.Stages.{columns_after, columns_of, operator_steps, stage_steps, stages_of, IsMemoryAt, Leads, LowersTo};
ghost use Rattle.fq_language.specs.View.{plan_step_of};

use fq_column::{Memory, Schema, StepFault};
use fq_csv::SourceFiles;
use fq_expr::{Front, MAX_STEPS, RowStep};
use fq_language::{CheckFault, Place, Step};
use fq_ops::{Agg, How, group_schema, join_schema, roll_schema};
use fq_run::{GroupBy, Join, Operator, RollingSum, Stage};
use std::alloc::Global;

/// Steps that passed the check, as a physical plan has them. Row-wise steps that follow each other are of one stage.
#[derive(Drop)]
pub struct PassedSteps {
    /// The leading row-wise steps, on the main source's columns.
    pub leading: Front,
    pub after_leading: Schema,
    pub stages: Vec<Stage>,
}

/// The steps on rows of a main source with these columns, or the first refusal.
pub fn check_steps(
    alloc: Global,
    sides: &[SourceFiles],
    main: &Schema,
    steps: Vec<Step>,
) -> Result<PassedSteps, CheckFault>
    requires sources { length sides.now ≤ 8 }
    requires few { vec_len steps ≤ MAX_STEPS }
    ensures steps { IfOk result (λ passed. stage_steps (stages_of passed) ≡ map plan_step_of steps.items) }
    ensures leads { IfOk result (λ passed. Leads (columns_of sides.now) 0 main.now (stages_of passed) (columns_after passed)) }
    ensures refused { IfErr result (λ e. (judged_steps (columns_of sides.now) 0 main.now (map plan_step_of steps.items) ≡ Err e) ⊎ IsMemoryAt (length sides.now + 1) (length steps.items) e) }
{
    let Ok(mut passed) = PassedSteps::none(alloc, main) else {
        let (place, code) = (Place::Source(sides.len() as u16), StepFault::Memory);
        return Err(CheckFault { place, code });
    };
    let mut number: u16 = 0;
    for step in steps {
        let place = Place::Step(number);
        match passed.add(alloc, sides, number, step) {
            Ok(()) => number += 1,
            Err(code) => return Err(CheckFault { place, code }),
        }
    }
    Ok(passed)
}

impl PassedSteps {
    // No step on rows of the main source.
    fn none(alloc: Global, main: &Schema) -> Result<PassedSteps, Memory>
        ensures steps { IfOk result (λ passed. stage_steps (stages_of passed) ≡ []) }
        ensures leads { IfOk result (λ passed. (sides : List Fields) → Leads sides 0 main.now (stages_of passed) (columns_after passed)) }
    {
        Ok(PassedSteps {
            leading: Front::new(alloc, Vec::new(alloc), main.copy(alloc)?, 0)?,
            after_leading: main.copy(alloc)?,
            stages: Vec::new(alloc),
        })
    }

    // One more step, or its first refusal.
    fn add(
        &mut self,
        alloc: Global,
        sides: &[SourceFiles],
        number: u16,
        step: Step,
    ) -> Result<(), StepFault>
        requires number { number ≡ length (stage_steps (stages_of self.old)) }
        requires few { number + 1 ≤ MAX_STEPS }
        requires leads { (main : Fields) × Leads (columns_of sides.now) 0 main (stages_of self.old) (columns_after self.old) }
        ensures step { OnOk result (stage_steps (stages_of self.new) ≡ stage_steps (stages_of self.old) ++ plan_step_of step ∷ []) }
        ensures leads { OnOk result ((main : Fields) → Leads (columns_of sides.now) 0 main (stages_of self.old) (columns_after self.old) → Leads (columns_of sides.now) 0 main (stages_of self.new) (columns_after self.new)) }
        ensures refused { IfErr result (λ code. (judged_step (columns_of sides.now) (columns_after self.old) (plan_step_of step) ≡ Err code) ⊎ (code ≡ StepFault.Memory)) }
    {
        match step {
            Step::Rows(step) => self.add_rows(alloc, number, step),
            Step::Join {
                source,
                on,
                how,
                nulls_equal,
            } => {
                let join = check_join(alloc, sides, self.schema(), source, on, how, nulls_equal)?;
                self.push(number, join)
            }
            Step::GroupBy { keys, aggs } => {
                let grouping = check_grouping(alloc, self.schema(), keys, aggs)?;
                self.push(number, grouping)
            }
            Step::RollingSum {
                column,
                window,
                min_samples,
                name,
            } => {
                let schema = self.schema();
                let sum = check_rolling(alloc, schema, column, window, min_samples, name)?;
                self.push(number, sum)
            }
        }
    }

    // One more row-wise step, or its first refusal. It is of the stage of those that it follows, or else of a stage of its own.
    fn add_rows(&mut self, alloc: Global, number: u16, step: RowStep) -> Result<(), StepFault>
        requires number { number ≡ length (stage_steps (stages_of self.old)) }
        requires few { number + 1 ≤ MAX_STEPS }
        requires leads { (sides : List Fields) × (main : Fields) × Leads sides 0 main (stages_of self.old) (columns_after self.old) }
        ensures step { OnOk result (stage_steps (stages_of self.new) ≡ stage_steps (stages_of self.old) ++ row_wise (step_of step) ∷ []) }
        ensures leads { OnOk result ((sides : List Fields) (main : Fields) → Leads sides 0 main (stages_of self.old) (columns_after self.old) → Leads sides 0 main (stages_of self.new) (columns_after self.new)) }
        ensures refused { IfErr result (λ code. (step_schema (columns_after self.old) (step_of step) ≡ Err code) ⊎ (code ≡ StepFault.Memory)) }
    {
        let Some(stage) = self.stages.last_mut() else {
            return extend(alloc, &mut self.leading, &mut self.after_leading, step);
        };
        if let Operator::Rows(front) = &mut stage.operator {
            return extend(alloc, front, &mut stage.after, step);
        }
        let rows = check_rows(alloc, number, self.schema(), step)?;
        self.push(number, rows)
    }

    // One more stage: an operator that was checked, and the columns that it leaves.
    fn push(&mut self, number: u16, checked: (Operator, Schema)) -> Result<(), StepFault>
        ensures step { OnOk result (stage_steps (stages_of self.new) ≡ stage_steps (stages_of self.old) ++ operator_steps checked.0) }
        ensures leads { OnOk result ((sides : List Fields) (main : Fields) → Leads sides 0 main (stages_of self.old) (columns_after self.old) → number ≡ length (stage_steps (stages_of self.old)) →
            LowersTo sides number (columns_after self.old) checked.0 checked.1 → Leads sides 0 main (stages_of self.new) (columns_after self.new)) }
        ensures refused { IfErr result (λ code. code ≡ StepFault.Memory) }
    {
        let (operator, after) = checked;
        let stage = Stage {
            number,
            operator,
            after,
        };
        Ok(self.stages.push(stage)?)
    }

    /// The columns after the steps.
    pub fn schema(&self) -> &Schema
        ensures { result.now ≡ columns_after self.now }
    {
        self.stages
            .as_slice()
            .last()
            .map_or(&self.after_leading, |stage| &stage.after)
    }
}

// One more row-wise step after those that leave these columns, or its first refusal.
fn extend(
    alloc: Global,
    front: &mut Front,
    after: &mut Schema,
    step: RowStep,
) -> Result<(), StepFault>
    requires number { front.old.first + length front.old.steps + 1 ≤ MAX_STEPS }
    requires leads { steps_schema front.old.fields front.old.steps ≡ Ok after.old }
    ensures front { OnOk result (front.new ≡ record front.old { steps = front.old.steps ++ step_of step ∷ [] }) }
    ensures leads { OnOk result (steps_schema front.new.fields front.new.steps ≡ Ok after.new) }
    ensures refused { IfErr result (λ code. (step_schema after.old (step_of step) ≡ Err code) ⊎ (code ≡ StepFault.Memory)) }
{
    *after = step.schema(alloc, after)?;
    Ok(front.push(step)?)
}

// A stage of one row-wise step on rows of a schema; or the step's first refusal.
fn check_rows(
    alloc: Global,
    number: u16,
    schema: &Schema,
    step: RowStep,
) -> Result<(Operator, Schema), StepFault>
    requires { number + 1 ≤ MAX_STEPS }
    ensures step { IfOk result (λ r. operator_steps r.0 ≡ row_wise (step_of step) ∷ []) }
    ensures turns { IfOk result (λ r. (sides : List Fields) → LowersTo sides number schema.now r.0 r.1) }
    ensures refused { IfErr result (λ code. (step_schema schema.now (step_of step) ≡ Err code) ⊎ (code ≡ StepFault.Memory)) }
{
    let after = step.schema(alloc, schema)?;
    let mut steps = Vec::with_capacity(alloc, 1)?;
    steps.push(step)?;
    let front = Front::new(alloc, steps, schema.copy(alloc)?, number)?;
    Ok((Operator::Rows(front), after))
}

// The operator of a join on rows of a schema, and the schema after it; or the step's first refusal.
fn check_join(
    alloc: Global,
    sides: &[SourceFiles],
    schema: &Schema,
    source: i64,
    on: Vec<String>,
    how: How,
    nulls_equal: bool,
) -> Result<(Operator, Schema), StepFault>
    ensures step { IfOk result (λ r. operator_steps r.0 ≡ join source (map string_bytes on.items) how nulls_equal ∷ []) }
    ensures turns { IfOk result (λ r. (number : ℕ) → LowersTo (columns_of sides.now) number schema.now r.0 r.1) }
    ensures refused { IfErr result (λ code. (judged_step (columns_of sides.now) schema.now (join source (map string_bytes on.items) how nulls_equal) ≡ Err code) ⊎ (code ≡ StepFault.Memory)) }
{
    let Some((source, right)) = source_at(sides, source) else {
        return Err(StepFault::NoSuchSource);
    };
    let after = join_schema(alloc, schema, &right.layout.schema, on.as_slice(), how)?;
    let join = Join {
        source,
        on,
        how,
        nulls_equal,
    };
    Ok((Operator::Join(join), after))
}

// `check_join`, of a grouping.
fn check_grouping(
    alloc: Global,
    schema: &Schema,
    keys: Vec<String>,
    aggs: Vec<Agg>,
) -> Result<(Operator, Schema), StepFault>
    ensures step { IfOk result (λ r. operator_steps r.0 ≡ group_by (map string_bytes keys.items) (outputs_of aggs.items) ∷ []) }
    ensures turns { IfOk result (λ r. (sides : List Fields) (number : ℕ) → LowersTo sides number schema.now r.0 r.1) }
    ensures refused { IfErr result (λ code. (group_schema_of schema.now (map string_bytes keys.items) (outputs_of aggs.items) ≡ Err code) ⊎ (code ≡ StepFault.Memory)) }
{
    let after = group_schema(alloc, schema, keys.as_slice(), aggs.as_slice())?;
    Ok((Operator::GroupBy(GroupBy { keys, aggs }), after))
}

// `check_join`, of a rolling sum.
fn check_rolling(
    alloc: Global,
    schema: &Schema,
    column: String,
    window: i64,
    min_samples: i64,
    name: String,
) -> Result<(Operator, Schema), StepFault>
    ensures step { IfOk result (λ r. operator_steps r.0 ≡ rolling_sum (string_bytes column) window min_samples (string_bytes name) ∷ []) }
    ensures turns { IfOk result (λ r. (sides : List Fields) (number : ℕ) → LowersTo sides number schema.now r.0 r.1) }
    ensures refused { IfErr result (λ code. (roll_schema_of schema.now (string_bytes column) window min_samples (string_bytes name) ≡ Err code) ⊎ (code ≡ StepFault.Memory)) }
{
    let after = roll_schema(
        alloc,
        schema,
        column.as_str(),
        window,
        min_samples,
        name.as_str(),
    )?;
    let rolling_sum = RollingSum {
        column,
        window: window as u32,
        min_samples: min_samples as u32,
        name,
    };
    Ok((Operator::RollingSum(rolling_sum), after))
}

// The source of a number, which may be no source's.
fn source_at(sources: &[SourceFiles], number: i64) -> Option<(usize, &SourceFiles)>
    ensures { MatchOption result
        (item_at (columns_of sources.now) number ≡ None)
        (λ r. (pos r.0 ≡ number) × (item_at (columns_of sources.now) number ≡ Some r.1.now.layout.schema)) }
{
    let place = usize::try_from(number).ok()?;
    let source = sources.get(place)?;
    Some((place, source))
}
