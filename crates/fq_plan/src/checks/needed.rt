//! The columns of its main source that a plan needs, backwards through its steps: name by name, as no list of names is made.
ghost use Rattle.std.specs.Prelude.{◌≡◌, List, IfOk, map, string_bytes};
ghost use Rattle.fq_column.specs.Agreement.{marked};
ghost use Rattle.fq_column.specs.Frame.{Fields, Name, has_name, names_of};
ghost use Rattle.fq_expr.specs.ExpressionData.{step_of};
ghost use Rattle.fq_language.specs.Plan.{row_wise};
ghost use Rattle.fq_plan.specs.Needed.{needed_before_all, needed_before_steps};
ghost use Rattle.fq_plan.specs.Stages.{columns_after, operator_steps, stage_steps, stages_of, Leads};

use crate::checks::steps::PassedSteps;
use fq_column::Memory;
use fq_csv::{Projection, SourceFiles};
use fq_expr::RowStep;
use fq_ops::{group_needs, join_needs, roll_needs};
use fq_run::{Operator, Stage};
use std::alloc::Global;

impl PassedSteps {
    /// A mark for each column of the main source: whether the steps need it. `Memory` if an allocation fails.
    pub fn needed_columns(&self, alloc: Global) -> Result<Vec<bool>, Memory>
        ensures { IfOk result (λ marks. (sides : List Fields) (main : Fields) → Leads sides 0 main (stages_of self.now) (columns_after self.now) →
            marks.items ≡ marked (needed_before_steps sides main (stage_steps (stages_of self.now))) main) }
    {
        let main = self.leading.schema();
        let mut marks = Vec::with_capacity(alloc, main.len())?;
        for i in 0..main.len() {
            marks.push(self.need(main.name(i)))?;
        }
        Ok(marks)
    }

    // Whether the steps need the column of this name.
    fn need(&self, name: &str) -> bool
        ensures { result ≡ has_name (needed_before_all (stage_steps (stages_of self.now)) (names_of (columns_after self.now))) name.now }
    {
        let last = self.schema().position(name).is_some();
        let after_leading = stages_need(self.stages.as_slice(), name, last);
        rows_need(self.leading.steps(), name, after_leading)
    }
}

/// The source, of whose columns the marked ones are kept.
pub fn keeping(source: SourceFiles, marks: Vec<bool>) -> SourceFiles
    ensures { result ≡ record source { layout = record source.layout { projection = marks.items } } }
{
    let SourceFiles { files, mut layout } = source;
    layout.projection = Projection::new(marks);
    SourceFiles { files, layout }
}

// Whether stages need the column of this name, where `last` says whether it is needed after them.
fn stages_need(stages: &[Stage], name: &str, last: bool) -> bool
    ensures { (needed : List Name) → has_name needed name.now ≡ last → result ≡ has_name (needed_before_all (stage_steps stages.now) needed) name.now }
{
    match stages.split_first() {
        None => last,
        Some((stage, rest)) => {
            operator_needs(&stage.operator, name, stages_need(rest, name, last))
        }
    }
}

// Whether an operator needs the column of this name, where `after` says whether it is needed after it.
fn operator_needs(operator: &Operator, name: &str, after: bool) -> bool
    ensures { (needed : List Name) → has_name needed name.now ≡ after → result ≡ has_name (needed_before_all (operator_steps operator.now) needed) name.now }
{
    match operator {
        Operator::Rows(front) => rows_need(front.steps(), name, after),
        Operator::Join(join) => join_needs(join.on.as_slice(), name, after),
        Operator::GroupBy(group_by) => {
            group_needs(group_by.keys.as_slice(), group_by.aggs.as_slice(), name)
        }
        Operator::RollingSum(rolling_sum) => roll_needs(
            rolling_sum.column.as_str(),
            rolling_sum.name.as_str(),
            name,
            after,
        ),
    }
}

// Whether row-wise steps need the column of this name, where `last` says whether it is needed after them.
fn rows_need(steps: &[RowStep], name: &str, last: bool) -> bool
    ensures { (needed : List Name) → has_name needed name.now ≡ last → result ≡ has_name (needed_before_all (map row_wise (map step_of steps.now)) needed) name.now }
{
    match steps.split_first() {
        None => last,
        Some((step, rest)) => step.needs(name, rows_need(rest, name, last)),
    }
}
