//! The steps of a checked plan one after another, and the columns between them.
ghost use Rattle.std.specs.Prelude.{◌≡◌, ◌&&◌, ◌++◌, IfOk, OnOk, Ok, map, not, option_map, slice_get, string_bytes};
ghost use Rattle.std.specs.List.{list_any};
ghost use Rattle.fq_column.specs.Frame.{same_name};
ghost use Rattle.fq_expr.specs.ExpressionData.{expression_of, items_of, step_of};
ghost use Rattle.fq_expr.specs.Naming.{is_itself};
ghost use Rattle.fq_language.specs.Judged.{judged};
ghost use Rattle.fq_language.specs.Plan.{row_wise, side_fields};
ghost use Rattle.fq_plan.specs.Followed.{computes, row_items};
ghost use Rattle.fq_plan.specs.PlannedSteps.{planned_step};
ghost use Rattle.fq_plan.specs.Stages.{operator_schemas};
ghost use Rattle.fq_run.specs.Noted.{reads_ints};

use crate::checks::Checked;
use fq_column::{Memory, Schema};
use fq_expr::{Expr, Front, RowStep};
use fq_ops::Agg;
use fq_run::{GroupBy, Join, Operator, RollingSum, Stage};
use std::alloc::Global;

/// A step of a checked plan.
#[derive(Clone, Copy)]
pub(crate) enum PlannedStep<'a> {
    /// A row-wise step.
    Row(&'a RowStep),
    /// A join with a source.
    Join(&'a Join),
    /// Aggregates of groups.
    GroupBy(&'a GroupBy),
    /// A rolling sum of a column, under a name.
    RollingSum(&'a RollingSum),
}

impl PlannedStep<'_> {
    /// Whether the step computes a column of this name.
    pub(crate) fn computes(self, name: &str) -> bool
        ensures { result ≡ computes name.now (planned_step self.entry) }
    {
        match self {
            PlannedStep::Row(step) => one_computes(items_in(step), name),
            PlannedStep::Join(_) => false,
            PlannedStep::GroupBy(group_by) => one_is_named(group_by.aggs.as_slice(), name),
            PlannedStep::RollingSum(rolling_sum) => name == rolling_sum.name.as_str(),
        }
    }
}

/// The items of a row-wise step.
pub(crate) fn items_in(step: &RowStep) -> &[(String, Expr)]
    ensures { items_of result.now ≡ row_items (step_of step.now) }
{
    match step {
        RowStep::Filter(_) => &[],
        RowStep::WithColumns(items) | RowStep::Select(items) => items.as_slice(),
    }
}

// Whether an item of this name is another expression than the column of this name.
fn one_computes(items: &[(String, Expr)], name: &str) -> bool
    ensures { result ≡ list_any (λ i. same_name name.now (string_bytes i.0) && not (is_itself name.now (expression_of i.1))) items.now }
{
    items
        .iter()
        .any(|item| name == item.0.as_str() && !item.1.is_column(name))
}

// Whether an aggregate has this name.
fn one_is_named(aggs: &[Agg], name: &str) -> bool
    ensures { result ≡ list_any (λ agg. same_name name.now (string_bytes agg.name)) aggs.now }
{
    aggs.iter().any(|agg| name == agg.name.as_str())
}

impl Checked {
    /// Whether a source has a column of ints of this name.
    pub(crate) fn reads_ints(&self, name: &str) -> bool
        ensures { result ≡ reads_ints self.now.sources name.now }
    {
        self.physical.reads_ints(name)
    }

    /// The columns of a source before the last; `None` if it is not one of them.
    pub(crate) fn side_columns(&self, source: usize) -> Option<&Schema>
        ensures { option_map (λ columns. columns.now) result ≡ slice_get (side_fields self.now) source }
    {
        let side = self.physical.sides().get(source)?;
        Some(&side.layout.schema)
    }

    /// The steps, in order. `Memory` if an allocation fails.
    pub(crate) fn steps(&self, alloc: Global) -> Result<Vec<PlannedStep<'_>>, Memory>
        ensures { IfOk result (λ steps. map planned_step steps.items ≡ self.entry.now.steps) }
    {
        let stages = self.physical.stages();
        let mut steps = Vec::new(alloc);
        add_rows(&mut steps, self.physical.leading())?;
        for stage in stages {
            match &stage.operator {
                Operator::Rows(front) => add_rows(&mut steps, front)?,
                Operator::Join(join) => steps.push(PlannedStep::Join(join))?,
                Operator::GroupBy(group_by) => steps.push(PlannedStep::GroupBy(group_by))?,
                Operator::RollingSum(sum) => steps.push(PlannedStep::RollingSum(sum))?,
            }
        }
        Ok(steps)
    }

    /// The columns before each step, and after the last. `Memory` if an allocation fails.
    pub fn schemas(&self, alloc: Global) -> Result<Vec<Schema>, Memory>
        ensures { IfOk result (λ schemas. judged self.now ≡ Ok schemas.items) }
    {
        let (leading, stages) = (self.physical.leading(), self.physical.stages());
        let mut schemas = Vec::new(alloc);
        schemas.push(leading.schema().copy(alloc)?)?;
        let mut after_leading = leading.schemas(alloc)?;
        schemas.append(&mut after_leading)?;
        for stage in stages {
            add_schemas(alloc, &mut schemas, stage)?;
        }
        Ok(schemas)
    }
}

// Adds row-wise steps.
fn add_rows<'a>(steps: &mut Vec<PlannedStep<'a>>, front: &'a Front) -> Result<(), Memory>
    ensures { OnOk result (map planned_step steps.new.items ≡ map planned_step steps.old.items ++ map row_wise front.entry.now.steps) }
{
    let rows = front.steps();
    for step in rows {
        steps.push(PlannedStep::Row(step))?;
    }
    Ok(())
}

// Adds the columns after each step of a stage.
fn add_schemas(alloc: Global, schemas: &mut Vec<Schema>, stage: &Stage) -> Result<(), Memory>
    ensures { OnOk result (schemas.new.items ≡ schemas.old.items ++ operator_schemas stage.now.operator stage.now.after) }
{
    match &stage.operator {
        Operator::Rows(front) => {
            let mut after = front.schemas(alloc)?;
            Ok(schemas.append(&mut after)?)
        }
        Operator::Join(_) | Operator::GroupBy(_) | Operator::RollingSum(_) => {
            Ok(schemas.push(stage.after.copy(alloc)?)?)
        }
    }
}
