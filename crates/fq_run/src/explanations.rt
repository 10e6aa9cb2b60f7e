//! What a physical plan reads and does, for people.
use crate::operators::Operator;
use crate::physical_plans::PhysicalPlan;
use fq_column::{Kind, Memory, Schema};
use fq_csv::{SourceFiles, kind_word};
use fq_expr::{Front, RowStep};
use fq_notation::{NamedNotations, Notation};
use std::alloc::Global;
use std::fmt;
use std::fmt::{Display, Formatter, Write};

/// What a physical plan reads and does, known before any data is read.
///
/// Its text has a line for each source, with the number of its files and its columns, and then a line for each step, with where
/// it runs (in the workers or afterwards) and the columns that it leaves. A `+` stands before a column whose name the step adds, or
/// whose kind or notation it changes. Ints that aren't in digits have their notation after their kind. Names are written as Rust writes a
/// `str`.
#[derive(Drop)]
pub struct Explanation<'a> {
    plan: &'a PhysicalPlan,
    steps: Vec<ExplainedStep>,
    /// The notations of ints before each step and after the last, by the names of columns; where there are none, ints are in digits.
    notations: Vec<NamedNotations>,
}

// Columns, and the notations of their ints by name, if there are some.
#[derive(Clone, Copy)]
struct Columns<'a> {
    schema: &'a Schema,
    named: Option<&'a NamedNotations>,
}

// A step.
#[derive(Drop)]
struct ExplainedStep {
    // its word in the plan language
    word: &'static str,
    // the columns that it leaves
    after: Schema,
}

impl PhysicalPlan {
    /// What the plan reads and does, with the notations of ints before each step and after the last, if there are some. `Memory` if an
    /// allocation fails.
    pub fn explain(
        &self,
        alloc: Global,
        notations: Vec<NamedNotations>,
    ) -> Result<Explanation<'_>, Memory> {
        let mut steps = Vec::new(alloc);
        push_rows(alloc, &mut steps, &self.leading.front)?;
        for stage in &self.stages {
            let word = match &stage.operator {
                Operator::Rows(front) => {
                    push_rows(alloc, &mut steps, front)?;
                    continue;
                }
                Operator::Join(_) => "join",
                Operator::GroupBy(_) => "group_by",
                Operator::RollingSum(_) => "rolling_sum",
            };
            let after = stage.after.copy(alloc)?;
            steps.push(ExplainedStep { word, after })?;
        }
        Ok(Explanation {
            plan: self,
            steps,
            notations,
        })
    }
}

impl Display for Explanation<'_> {
    fn fmt<W: Write>(&self, f: &mut Formatter<W>) -> fmt::Result {
        let plan = self.plan;
        write_sources(f, plan)?;
        let leading = plan.leading.front.steps().len();
        let mut before = self.columns(0, &plan.main.layout.schema);
        for (number, step) in self.steps.iter().enumerate() {
            let after = self.columns(number + 1, &step.after);
            let place = if number < leading {
                "in the workers"
            } else {
                "afterwards"
            };
            write!(f, "step {number}, {}, {place}:", step.word)?;
            write_changes(f, &before, &after)?;
            before = after;
        }
        Ok(())
    }
}

impl Explanation<'_> {
    // Columns before the step of a number.
    fn columns<'b>(&'b self, number: usize, schema: &'b Schema) -> Columns<'b> {
        Columns {
            schema,
            named: self.notations.get(number),
        }
    }
}

impl Columns<'_> {
    // The notation of the ints of a column.
    fn notation(&self, name: &str, kind: Kind) -> Notation {
        self.named
            .map_or(Notation::Plain, |named| named.of(name, kind))
    }

    // Whether there is a column of this name, kind and notation.
    fn has(&self, name: &str, kind: Kind, notation: &Notation) -> bool {
        self.schema.kind_of(name) == Ok(kind) && self.notation(name, kind) == *notation
    }
}

// Appends row-wise steps.
fn push_rows(alloc: Global, steps: &mut Vec<ExplainedStep>, front: &Front) -> Result<(), Memory> {
    for (step, after) in front.steps().iter().zip(front.schemas(alloc)?) {
        let word = row_word(step);
        steps.push(ExplainedStep { word, after })?;
    }
    Ok(())
}

// The word of a row-wise step in the plan language.
fn row_word(step: &RowStep) -> &'static str {
    match step {
        RowStep::Filter(_) => "filter",
        RowStep::WithColumns(_) => "with_columns",
        RowStep::Select(_) => "select",
    }
}

// The lines of the sources.
fn write_sources<W: Write>(f: &mut Formatter<W>, plan: &PhysicalPlan) -> fmt::Result {
    for (number, source) in plan.sides.iter().enumerate() {
        write_source(f, number, source)?;
    }
    write_source(f, plan.sides.len(), &plan.main)
}

// A source's line.
fn write_source<W: Write>(
    f: &mut Formatter<W>,
    number: usize,
    source: &SourceFiles,
) -> fmt::Result {
    let files = if source.files == 1 { "file" } else { "files" };
    write!(f, "source {number}, {} {files}:", source.files)?;
    let layout = &source.layout;
    for column in 0..layout.schema.len() {
        let (name, kind) = (layout.schema.name(column), layout.schema.kind(column));
        write_column(f, column, false, name, kind, layout.notations.of(column))?;
    }
    f.write_str("\n")
}

// The columns after a step, a `+` before those that are new, and the line's end.
fn write_changes<W: Write>(
    f: &mut Formatter<W>,
    before: &Columns<'_>,
    after: &Columns<'_>,
) -> fmt::Result {
    for column in 0..after.schema.len() {
        let (name, kind) = (after.schema.name(column), after.schema.kind(column));
        let notation = after.notation(name, kind);
        let is_new = !before.has(name, kind, &notation);
        write_column(f, column, is_new, name, kind, notation)?;
    }
    f.write_str("\n")
}

// A column's name and kind, and the notation of its ints, if they aren't in digits.
fn write_column<W: Write>(
    f: &mut Formatter<W>,
    place: usize,
    is_new: bool,
    name: &str,
    kind: Kind,
    notation: Notation,
) -> fmt::Result {
    let comma = if place == 0 { "" } else { "," };
    let plus = if is_new { " +" } else { "" };
    write!(f, "{comma}{plus} {name:?} {}", kind_word(kind))?;
    match notation {
        Notation::Plain => Ok(()),
        _ => write!(f, " {notation}"),
    }
}
