//! What a plan's steps are called, for people.
use crate::plans::{Plan, Step};
use crate::words::aggregate_words;
use fq_expr::{Expr, RowStep};
use fq_ops::Agg;
use fq_places::Quoted;
use std::fmt;
use std::fmt::{Display, Formatter, Write};

/// What a step, and an item of it, is called: `with_columns "cents"`, `group_by "total", sum of "v"`, `join with source 0`.
#[derive(Clone, Copy)]
pub struct StepText<'a> {
    step: Option<&'a Step>,
    item: u16,
}

impl Plan {
    /// What a step is called, with an item of it, both counted from 0.
    ///
    /// An item is an output of `with_columns` or `select`, or an aggregate of `group_by`; other steps have none. The text has no item if
    /// the step has no such item, and it is empty if the plan has no such step.
    pub fn step_text(&self, step: u16, item: u16) -> StepText<'_> {
        StepText {
            step: self.steps.get(step as usize),
            item,
        }
    }
}

impl Display for StepText<'_> {
    fn fmt<W: Write>(&self, f: &mut Formatter<W>) -> fmt::Result {
        let item = self.item as usize;
        match self.step {
            None => Ok(()),
            Some(Step::Rows(RowStep::Filter(_))) => f.write_str("filter"),
            Some(Step::Rows(RowStep::WithColumns(outputs))) => {
                write_output(f, "with_columns", outputs.get(item))
            }
            Some(Step::Rows(RowStep::Select(outputs))) => {
                write_output(f, "select", outputs.get(item))
            }
            Some(Step::Join { source, .. }) => write!(f, "join with source {source}"),
            Some(Step::GroupBy { aggs, .. }) => {
                let Some(Agg { name, what }) = aggs.get(item) else {
                    return f.write_str("group_by");
                };
                let name = Quoted(name.as_bytes());
                match aggregate_words(what) {
                    (word, None) => write!(f, "group_by {name}, {word}"),
                    (word, Some(column)) => {
                        let column = Quoted(column.as_bytes());
                        write!(f, "group_by {name}, {word} of {column}")
                    }
                }
            }
            Some(Step::RollingSum { column, name, .. }) => {
                let name = Quoted(name.as_bytes());
                write!(f, "rolling_sum {name} of {}", Quoted(column.as_bytes()))
            }
        }
    }
}

// Writes a step's word, and the name of an output of it.
fn write_output<W: Write>(
    f: &mut Formatter<W>,
    word: &str,
    output: Option<&(String, Expr)>,
) -> fmt::Result {
    match output {
        None => f.write_str(word),
        Some((name, _)) => write!(f, "{word} {}", Quoted(name.as_bytes())),
    }
}
