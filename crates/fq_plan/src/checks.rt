//! Checked plans.
ghost use Rattle.std.specs.Prelude.{◌≡◌, ◌⊎◌, IsErrAnd, IsOk, length};
ghost use Rattle.fq_column.specs.declared.faults.StepFault.{StepFault as Code};
ghost use Rattle.fq_language.specs.Judged.{checked, judged, IsPlaceOf};
ghost use Rattle.fq_language.specs.Plan.{files_wanted};

use fq_column::StepFault;
use fq_language::{CheckFault, Place, Plan};
use fq_notation::Notations;
use fq_run::PhysicalPlan;
use std::alloc::Global;
use std::marker::Model;

mod needed;
mod sources;
mod steps;

use needed::keeping;
use sources::check_sources;
use steps::{PassedSteps, check_steps};

/// A plan that the check does not refuse, by what its run does: of its main source it keeps the columns that it needs.
#[derive(Drop)]
pub struct Checked {
    pub(crate) physical: PhysicalPlan,
}

impl Model for Checked {
    ghost use Rattle.fq_language.specs.Plan.{PlanData};

    ghost Value = { PlanData };

    ghost use Rattle.std.specs.Coded.{codes};
    ghost use Rattle.fq_expr.specs.ExpressionCode.{expression_code};

    ghost coded = { Prim.hlevel (codes, expression_code (Prim.hlevel codes)) };

    ghost use Rattle.fq_plan.specs.Stages.{IsChecked, query_of};

    ghost view = { λ c. query_of c.physical };

    ghost invariant = { λ c. IsChecked c.physical };
}

/// The check of a plan.
pub trait Check: Drop {
    /// The plan, if each source's columns make a schema and each step can be made on the columns that the steps before it
    /// leave. A refused plan is dropped.
    ///
    /// Sources are judged in order, then steps in order; the first refusal is answered with its place. A source:
    /// `NoColumn`; `TooMany` for more than 64 columns; `DoubleName`. A row-wise step: as `RowStep::schema`. A join:
    /// `NoSuchSource` if its number is not that of a source before the last; then as `join_schema`. A grouping: as
    /// `group_schema`. A rolling sum: as `roll_schema`. `Memory` if an allocation fails, with the place at which the check
    /// stood.
    fn check(self, alloc: Global) -> Result<Checked, CheckFault>;
}

impl Check for Plan {
    fn check(self, alloc: Global) -> Result<Checked, CheckFault>
        ensures { (result ≡ checked self) ⊎ IsErrAnd result (λ e. (e.code ≡ Code.Memory) × IsPlaceOf (length self.sources) (length self.steps) e.place) }
    {
        let (sources, steps) = self.into_parts();
        let mut sides = check_sources(alloc, sources)?;
        let Some(main) = sides.pop() else {
            unreachable!()
        };
        let passed = check_steps(alloc, sides.as_slice(), &main.layout.schema, steps)?;
        let Ok(marks) = passed.needed_columns(alloc) else {
            let (place, code) = (Place::Source(sides.len() as u16), StepFault::Memory);
            return Err(CheckFault { place, code });
        };
        let main = keeping(main, marks);
        let PassedSteps {
            leading,
            after_leading,
            stages,
        } = passed;
        let plain = Notations::plain(alloc);
        let physical = PhysicalPlan::new(alloc, sides, main, leading, after_leading, stages, plain);
        Ok(Checked { physical })
    }
}

impl Checked {
    /// How many files the plan wants, from 1 to 16: those of the first source, then those of the next, and so on.
    pub fn inputs(&self) -> u16
        ensures inputs { result ≡ files_wanted self.now }
        ensures not_refused { IsOk (judged self.now) }
    {
        self.physical.inputs()
    }
}
