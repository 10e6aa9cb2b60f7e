//! The notations of columns, step by step, by those that names declare.
ghost use Rattle.std.specs.Prelude.{◌≡◌, ◌≤◌, ◌⊎◌, Err, IfErr, IfOk, Ok, length, map, zip};
ghost use Rattle.std.specs.List.{list_any};
ghost use Rattle.fq_expr.specs.ExpressionData.{items_of};
ghost use Rattle.fq_notation.specs.declared.naming.StepUnnoted.TheVariants as unnoted;
ghost use Rattle.fq_ops.specs.AggregateData.{outputs_of};
ghost use Rattle.fq_language.specs.Judged.{judged};
ghost use Rattle.fq_plan.specs.Followed.{computes_ints, notations_before, unnoted_at};
ghost use Rattle.fq_plan.specs.PlannedSteps.{followed_in, planned_step, right_said_in, said_by_in, said_in};
ghost use Rattle.fq_plan.specs.Stages.{group_step, join_step};

use crate::checks::Checked;
use crate::noted::NotationFault;
use crate::noted::planned_steps::{PlannedStep, items_in};
use fq_column::{Kind, Memory, Schema};
use fq_expr::Expr;
use fq_notation::{NamedNotations, Notation, Said, StepUnnoted};
use fq_ops::{Agg, group_noted, join_noted, right_name_of, roll_noted};
use fq_run::{GroupBy, Join, has_ints};
use std::alloc::Global;

impl Checked {
    /// The notations of columns before a step, by those that names declare; `schemas` are the columns before each step and after the last.
    ///
    /// `Step` and `Item` say which step before it leaves columns without notations, the first in order, and `Memory` that an allocation
    /// failed.
    pub(crate) fn notations_before(
        &self,
        alloc: Global,
        steps: &[PlannedStep<'_>],
        schemas: &[Schema],
        declared: &NamedNotations,
        number: usize,
    ) -> Result<NamedNotations, NotationFault>
        requires steps { map planned_step steps.now ≡ self.now.steps }
        requires schemas { judged self.now ≡ Ok schemas.now }
        requires number { number ≤ length self.now.steps }
        ensures followed { IfOk result (λ named. notations_before declared.now self.now number ≡ Ok named) }
        ensures refused { IfErr result (λ fault. (notations_before declared.now self.now number ≡ Err fault) ⊎ (fault ≡ NotationFault.Memory)) }
    {
        let mut named = declared.copy(alloc)?;
        for before in 0..number {
            let names = Names {
                plan: self,
                declared,
                later: &steps[before + 1..],
                after: &schemas[before + 2..],
            };
            match names.followed(alloc, &schemas[before], named, steps[before]) {
                Ok(after) => named = after,
                Err(why) => return Err(unnoted_at(before, why)),
            }
        }
        Ok(named)
    }
}

// Why a step leaves columns without notations, with its number.
fn unnoted_at(number: usize, why: StepUnnoted) -> NotationFault
    ensures { result ≡ unnoted_at number why }
{
    match why {
        StepUnnoted::Step(why) => NotationFault::Step(number, why),
        StepUnnoted::Item(item, why) => NotationFault::Item(number, item, why),
        StepUnnoted::Memory => NotationFault::Memory,
    }
}

// What names say to a step of a plan: by the plan's sources, by what is declared, and by the steps after it.
#[derive(Clone, Copy)]
struct Names<'a> {
    plan: &'a Checked,
    declared: &'a NamedNotations,
    later: &'a [PlannedStep<'a>],
    // the columns after each of these
    after: &'a [Schema],
}

impl Names<'_> {
    // What a name says, by the notation that it declares.
    fn said(&self, name: &str, declared: Option<Notation>) -> Said
        ensures { result ≡ said_by_in self.now name.now declared }
    {
        let is_read = self.plan.reads_ints(name);
        match declared {
            Some(notation) if is_read => Said::InFiles(notation),
            Some(notation) if is_computed(self.later, self.after, name) => Said::MadeAgain(
                notation,
            ),
            Some(notation) => Said::Declared(notation),
            None if is_read => Said::Digits,
            None => Said::Nothing,
        }
    }

    // The notations after a step on columns, by those before it.
    fn followed(
        &self,
        alloc: Global,
        columns: &Schema,
        named: NamedNotations,
        step: PlannedStep<'_>,
    ) -> Result<NamedNotations, StepUnnoted>
        ensures followed { IfOk result (λ after. followed_in self.now columns.now named (planned_step step.entry) ≡ Ok after) }
        ensures refused { IfErr result (λ why. (followed_in self.now columns.now named (planned_step step.entry) ≡ Err why) ⊎ (why ≡ unnoted.Memory)) }
    {
        match step {
            PlannedStep::Row(step) => {
                let said = self.said_of_items(alloc, items_in(step))?;
                step.noted(alloc, columns, named, said.as_slice())
            }
            PlannedStep::Join(join) => self.joined(alloc, columns, named, join),
            PlannedStep::GroupBy(group_by) => self.grouped(alloc, columns, &named, group_by),
            PlannedStep::RollingSum(sum) => {
                let (column, name) = (sum.column.as_str(), sum.name.as_str());
                let said = self.said(name, self.declared.given(name));
                roll_noted(alloc, columns, named, column, name, said)
            }
        }
    }

    // The notations after a join, by those before it.
    fn joined(
        &self,
        alloc: Global,
        columns: &Schema,
        named: NamedNotations,
        join: &Join,
    ) -> Result<NamedNotations, StepUnnoted>
        ensures followed { IfOk result (λ after. followed_in self.now columns.now named (join_step join.now) ≡ Ok after) }
        ensures refused { IfErr result (λ why. (followed_in self.now columns.now named (join_step join.now) ≡ Err why) ⊎ (why ≡ unnoted.Memory)) }
    {
        let Some(right) = self.plan.side_columns(join.source) else {
            return Ok(named);
        };
        let said = self.said_of_right(alloc, columns, right)?;
        let (on, said) = (join.on.as_slice(), said.as_slice());
        join_noted(
            alloc,
            columns,
            named,
            right,
            self.declared,
            on,
            join.how,
            said,
        )
    }

    // The notations after a grouping, by those before it.
    fn grouped(
        &self,
        alloc: Global,
        columns: &Schema,
        named: &NamedNotations,
        group_by: &GroupBy,
    ) -> Result<NamedNotations, StepUnnoted>
        ensures followed { IfOk result (λ after. followed_in self.now columns.now named.now (group_step group_by.now) ≡ Ok after) }
        ensures refused { IfErr result (λ why. (followed_in self.now columns.now named.now (group_step group_by.now) ≡ Err why) ⊎ (why ≡ unnoted.Memory)) }
    {
        let (keys, aggs) = (group_by.keys.as_slice(), group_by.aggs.as_slice());
        let said = self.said_of_aggs(alloc, aggs)?;
        group_noted(alloc, columns, named, keys, aggs, said.as_slice())
    }

    // What the names of items say.
    fn said_of_items(&self, alloc: Global, items: &[(String, Expr)]) -> Result<Vec<Said>, Memory>
        ensures { IfOk result (λ said. said.items ≡ map (λ i. said_in self.now i.0) (items_of items.now)) }
    {
        let mut said = Vec::with_capacity(alloc, items.len())?;
        for item in items {
            let name = item.0.as_str();
            said.push(self.said(name, self.declared.given(name)))?;
        }
        Ok(said)
    }

    // What the names of aggregates say.
    fn said_of_aggs(&self, alloc: Global, aggs: &[Agg]) -> Result<Vec<Said>, Memory>
        ensures { IfOk result (λ said. said.items ≡ map (λ o. said_in self.now o.0) (outputs_of aggs.now)) }
    {
        let mut said = Vec::with_capacity(alloc, aggs.len())?;
        for agg in aggs {
            let name = agg.name.as_str();
            said.push(self.said(name, self.declared.given(name)))?;
        }
        Ok(said)
    }

    // What the names of right columns say after a join with these left ones.
    fn said_of_right(
        &self,
        alloc: Global,
        left: &Schema,
        right: &Schema,
    ) -> Result<Vec<Said>, Memory>
        ensures { IfOk result (λ said. said.items ≡ map (right_said_in self.now left.now) right.now) }
    {
        let mut said = Vec::with_capacity(alloc, right.len())?;
        for place in 0..right.len() {
            let (name, kind) = (right.name(place), right.kind(place));
            let says = match kind {
                Kind::Whole => {
                    let after = right_name_of(alloc, left, name)?;
                    let after = after.as_str();
                    self.said(after, self.declared.given(after))
                }
                Kind::Text | Kind::Truth => Said::Nothing,
            };
            said.push(says)?;
        }
        Ok(said)
    }
}

// Whether one of the steps, which leave these columns, computes ints of this name.
fn is_computed(steps: &[PlannedStep<'_>], after: &[Schema], name: &str) -> bool
    ensures { result ≡ list_any (computes_ints name.now) (zip (map planned_step steps.now) after.now) }
{
    let Some((step, steps)) = steps.split_first() else {
        return false;
    };
    let Some((columns, after)) = after.split_first() else {
        return false;
    };
    (step.computes(name) && has_ints(columns, name)) || is_computed(steps, after, name)
}
