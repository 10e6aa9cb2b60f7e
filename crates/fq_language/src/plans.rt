//! Plans.
ghost use Rattle.std.specs.Prelude.{◌≡◌, ◌<◌, ◌≤◌, ◌⊎◌, ◌↔◌, [], None, Err, IfOk, IfSome, IsOk, length, map, option_map, slice_get, sum_by};
ghost use Rattle.fq_csv.specs.Sources.{layout_of};
ghost use Rattle.fq_language.specs.Spelling.{read_as_plan};
ghost use Rattle.fq_language.specs.Plan.{IsWithinLimits, file_layouts, files_wanted};
ghost use Rattle.fq_language.specs.View.{field_of, plan_step_of, source_data};

use crate::faults::PlanFault;
use crate::reading::{no_json, plan_in};
use crate::reasons::{PartFault, Reason};
use fq_column::{Kind, Memory};
use fq_csv::{MAX_FILES, NullValues};
use fq_expr::{MAX_STEPS, RowStep};
use fq_ops::{Agg, How};
use serde_json::Value;
use std::alloc::Global;
use std::marker::Model;

/// The most sources of a plan.
pub const MAX_SOURCES: usize = 8;

/// The most texts that a source reads as null.
pub const MAX_NULL_VALUES: usize = 16;

/// The number of a source's files, its columns, and the texts that are null in each of them.
#[derive(Debug, Drop)]
pub struct Source {
    /// How many files it has; in a plan from 1 to [`MAX_FILES`].
    pub files: u16,
    /// The names and the kinds of its columns, in order.
    pub columns: Vec<(String, Kind)>,
    /// The texts that are null in each column; in a plan at most [`MAX_NULL_VALUES`].
    pub nulls: NullValues,
}

/// The version of the plan language in which a plan is written.
#[derive(Clone, Copy, Debug)]
pub enum Version {
    /// The first.
    One,
    /// The first, with texts that are read as null, semi and anti joins, and null keys that match.
    Two,
}

/// A step of a plan. Numbers are as the text spells them; the check judges them.
#[derive(Debug, Drop)]
pub enum Step {
    /// `filter`, `with_columns` or `select`.
    Rows(RowStep),
    /// A join with an earlier source on named columns.
    Join {
        source: i64,
        on: Vec<String>,
        how: How,
        nulls_equal: bool,
    },
    /// Aggregates of groups.
    GroupBy {
        keys: Vec<String>,
        aggs: Vec<Agg>,
    },
    /// A rolling sum of a column, under a name.
    RollingSum {
        column: String,
        window: i64,
        min_samples: i64,
        name: String,
    },
}

/// A plan as its text spells it: 1 to [`MAX_SOURCES`] sources, of [`MAX_FILES`] files at most in all, and up to [`MAX_STEPS`] steps.
#[derive(Debug, Drop)]
pub struct Plan {
    pub(crate) sources: Vec<Source>,
    pub(crate) steps: Vec<Step>,
}

impl Model for Plan {
    ghost use Rattle.fq_language.specs.Plan.{PlanData};

    ghost Value = { PlanData };

    ghost use Rattle.std.specs.Coded.{codes};
    ghost use Rattle.fq_expr.specs.ExpressionCode.{expression_code};

    ghost coded = { Prim.hlevel (codes, expression_code (Prim.hlevel codes)) };

    ghost use Rattle.std.specs.Prelude.{[], map};
    ghost use Rattle.fq_language.specs.Plan.{IsWithinLimits};
    ghost use Rattle.fq_language.specs.View.{source_data, plan_step_of};

    ghost view = { λ p. record { sources = map source_data p.sources.items; steps = map plan_step_of p.steps.items; notations = [] } };

    ghost invariant = { λ p. IsWithinLimits (record { sources = map source_data p.sources.items; steps = map plan_step_of p.steps.items; notations = [] }) };
}

impl Plan {
    /// How many files the plan wants, from 1 to [`MAX_FILES`]: those of the first source, then those of the next, and so on.
    pub fn inputs(&self) -> u16
        ensures { result ≡ files_wanted self.now }
    {
        file_count(self.sources.as_slice()) as u16
    }

    /// The sources, in order; the last is the main one.
    pub fn sources(&self) -> &[Source]
        ensures { map source_data result.now ≡ self.now.sources }
    {
        self.sources.as_slice()
    }

    /// The source of the file of this number, in argument order; none if the plan wants fewer files.
    pub fn source_of(&self, file: u16) -> Option<&Source>
        ensures source { option_map (λ source. layout_of (source_data source.now)) result ≡ slice_get (file_layouts self.now) file }
        ensures few { IfSome result (λ _. file < MAX_FILES) }
    {
        let (sources, mut left) = (self.sources.as_slice(), file);
        for source in sources {
            if left < source.files() {
                return Some(source);
            }
            left -= source.files();
        }
        None
    }

    /// The sources and the steps, in order. A plan says of no column how its ints are written.
    pub fn into_parts(self) -> (Vec<Source>, Vec<Step>)
        ensures sources { map source_data result.0.items ≡ self.sources }
        ensures steps { map plan_step_of result.1.items ≡ self.steps }
        ensures plain { self.notations ≡ [] }
        ensures within_limits { IsWithinLimits self }
    {
        (self.sources, self.steps)
    }
}

impl Source {
    /// How many files the source has; in a plan from 1 to [`MAX_FILES`].
    pub fn files(&self) -> u16
        ensures { result ≡ (source_data self.now).files }
    {
        self.files
    }

    /// The names and the kinds of its columns, in order.
    pub fn columns(&self) -> &[(String, Kind)]
        ensures { map field_of result.now ≡ (source_data self.now).fields }
    {
        self.columns.as_slice()
    }

    /// The texts that are read as null in each column; in a plan at most [`MAX_NULL_VALUES`].
    pub fn nulls(&self) -> &NullValues
        ensures { result.now ≡ (source_data self.now).nulls }
    {
        &self.nulls
    }
}

/// The plan that a JSON text spells.
///
/// `Json` if the bytes are not a JSON text, which includes nesting deeper than 127 and invalid UTF-8, and `Shape` if the
/// JSON value spells no plan. `Memory` if an allocation fails. One pass over the text, and one over the value that it
/// gives.
pub fn read_plan(alloc: Global, text: &[u8]) -> Result<Plan, PlanFault>
    ensures { (result ≡ read_as_plan text.now) ⊎ (result ≡ Err PlanFault.Memory) }
{
    match Value::from_slice(alloc, text) {
        Ok(value) => match plan_in(alloc, &value) {
            Ok(plan) => Ok(plan),
            Err(PartFault::Wrong(_)) => Err(PlanFault::Shape),
            Err(PartFault::Memory) => Err(PlanFault::Memory),
        },
        Err(error) if error.is_memory() => Err(PlanFault::Memory),
        Err(_) => Err(PlanFault::Json),
    }
}

/// Why a text spells no plan, for people; `None` if it spells one. `Memory` if an allocation fails.
///
/// The first reason, in the order of the language. A text that is not JSON: where it stops being so. An object: that the value is not one, that
/// it has a member that it may not have, and then, member by member, that one is missing or what is wrong with it.
pub fn reason_of(alloc: Global, text: &[u8]) -> Result<Option<Reason>, Memory>
    ensures { IfOk result (λ reason. (reason ≡ None) ↔ IsOk (read_as_plan text.now)) }
{
    match Value::from_slice(alloc, text) {
        Ok(value) => match plan_in(alloc, &value) {
            Ok(_) => Ok(None),
            Err(PartFault::Wrong(reason)) => Ok(Some(reason)),
            Err(PartFault::Memory) => Err(Memory),
        },
        Err(error) if error.is_memory() => Err(Memory),
        Err(error) => Ok(Some(no_json(alloc, text, error)?)),
    }
}

/// How many files the sources have.
pub(crate) fn file_count(sources: &[Source]) -> u32
    requires { length sources.now ≤ MAX_SOURCES }
    ensures { result ≡ sum_by (λ s. s.files) (map source_data sources.now) }
{
    sources.iter().map(|source| u32::from(source.files)).sum()
}
