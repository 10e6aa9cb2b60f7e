//! Operators, each in a file of its own: its form in a physical plan, and what runs it. A running operator takes a stream piece by piece,
//! and passes on what it makes of a piece at once.
ghost use Rattle.std.specs.Prelude.{◌≡◌, List, [], None, map, IfOk};
ghost use Rattle.fq_column.specs.Frame.{Fields, Frame, Row};
ghost use Rattle.fq_run.specs.Transforms.{Transform, steps_transform};
ghost use Rattle.fq_run.specs.Stages.{Accepts};
ghost use Rattle.fq_run.specs.Starting.{joins_source, right_of, transform_of};
ghost use Rattle.fq_run.specs.RunningOperators.{HasEnded, HasTaken, IsGiving, Makes, Takes};

mod grouping;
mod joining;
mod rolling;

use crate::passed::Passed;
use crate::stages::Stage;
use fq_column::{Batch, Memory, Schema};
use fq_expr::{Front, Piece};
use fq_ops::Probe;
pub use grouping::GroupBy;
pub(crate) use grouping::Grouping;
pub(crate) use joining::Joining;
pub use joining::{Join, MAX_JOINED_ROWS};
pub use rolling::RollingSum;
pub(crate) use rolling::Summing;
use std::alloc::Global;

/// What is done to all rows of the main source, after what was done before.
#[derive(Drop)]
pub enum Operator {
    /// Row-wise steps.
    Rows(Front),
    /// A join with the rows of a source before the last.
    Join(Join),
    /// Aggregates of groups.
    GroupBy(GroupBy),
    /// A rolling sum of a column, under a name.
    RollingSum(RollingSum),
}

impl Operator {
    /// Whether it is a join with a source.
    pub(crate) fn joins(&self, source: usize) -> bool
        ensures { result ≡ joins_source source self.now }
    {
        match self {
            Operator::Join(join) => join.source == source,
            Operator::Rows(_) | Operator::GroupBy(_) | Operator::RollingSum(_) => false,
        }
    }
}

/// A part of what an operator makes of a batch, and by what it makes the next part, if there is one.
#[derive(Drop)]
pub(crate) struct Made {
    pub(crate) passed: Passed,
    pub(crate) rest: Option<Probe>,
}

/// An operator, with what it keeps of the rows that it has taken.
#[derive(Drop)]
pub(crate) enum RunningOperator<'a> {
    /// Row-wise steps.
    Rows(&'a Front),
    /// A join with rows that are there.
    Join(Joining),
    /// A rolling sum.
    Roll(Summing<'a>),
    /// Aggregates of groups, which are given at the end.
    Group(Grouping),
}

impl<'a> RunningOperator<'a> {
    /// The operator of a stage that has taken no row, on rows of a schema; with its right rows, if it is a join.
    pub(crate) fn start(
        alloc: Global,
        right: Option<Batch>,
        schema: &Schema,
        stage: &'a Stage,
    ) -> Result<RunningOperator<'a>, Memory>
        requires { (sides : List Frame) × (after : Fields) × Accepts (map (λ f. f.fields) sides) schema.now stage.now.operator after × (right ≡ right_of sides stage.now.operator) }
        ensures { IfOk result (λ r. (sides : List Frame) (after : Fields) → Accepts (map (λ f. f.fields) sides) schema.now stage.entry.now.operator after →
            right ≡ right_of sides stage.entry.now.operator → HasTaken r (transform_of sides stage.entry.now.number schema.now stage.entry.now.operator) []) }
    {
        let number = stage.number;
        match &stage.operator {
            Operator::Rows(front) => Ok(RunningOperator::Rows(front)),
            Operator::Join(join) => {
                let Some(right) = right else { unreachable!() };
                Ok(RunningOperator::Join(Joining::new(alloc, number, right, join)?))
            }
            Operator::GroupBy(group_by) => {
                let grouping = Grouping::new(alloc, number, schema, group_by)?;
                Ok(RunningOperator::Group(grouping))
            }
            Operator::RollingSum(rolling_sum) => {
                let summing = Summing::new(alloc, number, schema, rolling_sum)?;
                Ok(RunningOperator::Roll(summing))
            }
        }
    }

    /// Takes one more batch, and makes the first part of what it passes on of that at once.
    pub(crate) fn take(&mut self, alloc: Global, batch: Batch) -> Result<Made, Memory>
        requires { (m : Transform) × ((rows : List Row) × (HasTaken self.old m rows × (m.takes ≡ batch.fields))) }
        ensures { IfOk result (λ p. (m : Transform) (rows : List Row) → HasTaken self.old m rows → m.takes ≡ batch.fields → Makes self.new m rows batch [] p) }
    {
        match self {
            RunningOperator::Rows(front) => Ok(Made::all(step(alloc, front, batch)?)),
            RunningOperator::Join(joining) => joining.take(alloc, batch),
            RunningOperator::Roll(summing) => Ok(Made::all(summing.take(alloc, batch)?)),
            RunningOperator::Group(grouping) => Ok(Made::all(grouping.take(alloc, batch)?)),
        }
    }

    /// Makes the next part of what it passes on of a batch that it has taken.
    pub(crate) fn go_on(&mut self, alloc: Global, probe: Probe) -> Result<Made, Memory>
        requires { (m : Transform) × ((rows : List Row) × ((batch : Frame) × ((given : List Row) × IsGiving self.old m rows batch given probe))) }
        ensures { IfOk result (λ p. (m : Transform) (rows : List Row) (batch : Frame) (given : List Row) → IsGiving self.old m rows batch given probe → Makes self.new m rows batch given p) }
    {
        match self {
            RunningOperator::Join(joining) => joining.go_on(alloc, probe),
            RunningOperator::Rows(_) | RunningOperator::Roll(_) | RunningOperator::Group(_) =>
                unreachable!(),
        }
    }

    /// All that is left once no more comes. No more can be taken.
    pub(crate) fn finish(&mut self, alloc: Global) -> Result<Passed, Memory>
        requires { (m : Transform) × ((rows : List Row) × HasTaken self.old m rows) }
        ensures { IfOk result (λ p. (m : Transform) (rows : List Row) → HasTaken self.old m rows → HasEnded m rows p) }
    {
        match self {
            RunningOperator::Group(grouping) => grouping.finish(alloc),
            RunningOperator::Rows(_) | RunningOperator::Join(_) | RunningOperator::Roll(_) => Ok(
                Passed {
                    batch: None,
                    fault: None,
                },
            ),
        }
    }
}

impl Made {
    // All of it, in one part.
    fn all(passed: Passed) -> Made
        ensures { result ≡ record { passed = passed; rest = None } }
    {
        Made { passed, rest: None }
    }
}

// Row-wise steps on one more batch.
fn step(alloc: Global, front: &Front, batch: Batch) -> Result<Passed, Memory>
    requires { batch.fields ≡ front.now.fields }
    ensures { IfOk result (λ p. Takes (λ m rows. m ≡ steps_transform front.now) (λ m rows. m ≡ steps_transform front.now) batch p) }
{
    let Piece { batch, fault } = front.apply(alloc, batch)?;
    let fault = match fault {
        Some(fault) => Some(fault.into()),
        None => None,
    };
    Ok(Passed {
        batch: Some(batch),
        fault,
    })
}
