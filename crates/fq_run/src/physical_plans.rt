//! Physical plans.
ghost use Rattle.std.specs.Prelude.{◌≡◌, ◌≤◌, ◌++◌, ◌∷◌, [], map, sum_by};
ghost use Rattle.fq_csv.specs.Sources.{source_of_files};
ghost use Rattle.fq_expr.specs.Steps.{fields_after_all};
ghost use Rattle.fq_run.specs.Physical.{files_wanted, last_columns, main_fields, side_fields};
ghost use Rattle.fq_run.specs.Stages.{IsRunnable, physical_of};

use crate::leading_steps::LeadingSteps;
use crate::stages::Stage;
use fq_column::Schema;
use fq_csv::{MAX_FILES, SourceFiles};
use fq_expr::Front;
use fq_lanes::MAX_FEEDS;
use fq_notation::Notations;
use std::alloc::Global;
use std::marker::Model;

// Each file of a run is a feed of it.
const _: () = prove!(MAX_FILES as usize == MAX_FEEDS);

/// What a run does: it reads sources, of which the last is the main one, takes leading row-wise steps on the rows of that in the
/// workers, passes these rows through stages, and writes what these make of them.
#[derive(Drop)]
pub struct PhysicalPlan {
    /// The sources before the main one.
    pub(crate) sides: Vec<SourceFiles>,
    pub(crate) main: SourceFiles,
    pub(crate) leading: LeadingSteps,
    /// The main source's columns after the leading steps.
    pub(crate) after_leading: Schema,
    pub(crate) stages: Vec<Stage>,
    /// How the ints of the frame's columns are written.
    pub(crate) notations: Notations,
    pub(crate) inputs: u16,
}

impl Model for PhysicalPlan {
    ghost use Rattle.fq_run.specs.Physical.{Physical};

    ghost Value = { Physical };

    ghost use Rattle.std.specs.Coded.{codes};
    ghost use Rattle.fq_expr.specs.ExpressionCode.{expression_code};

    ghost coded = { Prim.hlevel (codes, expression_code (Prim.hlevel codes)) };

    ghost use Rattle.std.specs.Prelude.{◌≡◌, ◌++◌, ◌∷◌, []};
    ghost use Rattle.fq_expr.specs.Steps.{fields_after_all};
    ghost use Rattle.fq_run.specs.Physical.{side_files};
    ghost use Rattle.fq_run.specs.Stages.{IsRunnable, physical_of};

    ghost view = { λ p. physical_of (p.sides.items ++ p.main ∷ []) p.leading.front p.stages.items p.notations };

    ghost invariant = { λ p. IsRunnable (p.sides.items ++ p.main ∷ []) p.leading.front p.stages.items p.inputs
        × (p.leading.side_files ≡ side_files (physical_of (p.sides.items ++ p.main ∷ []) p.leading.front p.stages.items p.notations))
        × (p.after_leading ≡ fields_after_all p.leading.front.fields p.leading.front.steps) };
}

impl PhysicalPlan {
    /// A plan of these sources, leading steps that leave these columns, and the stages after them. The ints of the frame's columns are
    /// written in these notations.
    pub fn new(
        alloc: Global,
        sides: Vec<SourceFiles>,
        main: SourceFiles,
        front: Front,
        after_leading: Schema,
        stages: Vec<Stage>,
        notations: Notations,
    ) -> PhysicalPlan
        requires runnable { let plan = physical_of (sides.items ++ main ∷ []) front stages.items notations in IsRunnable (sides.items ++ main ∷ []) front stages.items (files_wanted plan) }
        requires columns { after_leading ≡ fields_after_all front.fields front.steps }
        ensures { result ≡ physical_of (sides.items ++ main ∷ []) front stages.items notations }
    {
        let side_files = file_count(sides.as_slice());
        let inputs = side_files + main.files;
        PhysicalPlan {
            sides,
            main,
            leading: LeadingSteps {
                alloc,
                front,
                side_files,
            },
            after_leading,
            stages,
            notations,
            inputs,
        }
    }

    /// How many files the plan wants, at most [`MAX_FILES`]: those of the first source, then those of the next, and so on.
    pub fn inputs(&self) -> u16
        ensures { result ≡ files_wanted self.now }
    {
        self.inputs
    }

    /// The sources before the main one.
    pub fn sides(&self) -> &[SourceFiles]
        ensures { map (λ s. s.layout.schema) result.now ≡ side_fields self.now }
    {
        self.sides.as_slice()
    }

    /// The leading row-wise steps, on the main source's columns.
    pub fn leading(&self) -> &Front
        ensures steps { result.now.steps ≡ self.now.front }
        ensures columns { result.now.fields ≡ main_fields self.now }
    {
        &self.leading.front
    }

    /// The stages after the leading steps.
    pub fn stages(&self) -> &[Stage]
        ensures { result.now ≡ self.now.stages }
    {
        self.stages.as_slice()
    }

    /// The columns of the frame.
    pub fn columns(&self) -> &Schema
        ensures { result.now ≡ last_columns self.now }
    {
        self.stages
            .as_slice()
            .last()
            .map_or(&self.after_leading, |stage| &stage.after)
    }
}

// How many files the sources have.
fn file_count(sources: &[SourceFiles]) -> u16
    requires { sum_by (λ s. s.files) (map source_of_files sources.now) ≤ MAX_FILES }
    ensures { result ≡ sum_by (λ s. s.files) (map source_of_files sources.now) }
{
    sources.iter().map(|source| source.files).sum()
}
