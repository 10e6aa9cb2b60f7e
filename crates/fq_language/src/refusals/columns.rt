//! What refusals of columns are about.
ghost use Rattle.std.specs.Prelude.{IsErr};

use crate::reasons::{Explained, PartFault, bail};
use fq_column::{Kind, MAX_COLUMNS, Schema, StepFault};
use fq_csv::kind_word;
use fq_places::Quoted;
use std::alloc::Global;

/// What the refusal of so many columns is about, if it is about more than the fault says.
pub fn explain_columns<T>(
    alloc: Global,
    names: &[&str],
    count: usize,
    fault: StepFault,
) -> Explained<T>
    ensures { IsErr result }
{
    match fault {
        StepFault::TooMany => bail!(alloc, "{count} columns; at most {MAX_COLUMNS}"),
        StepFault::DoubleName => {
            for (number, name) in names.iter().enumerate() {
                if names.iter().take(number).any(|other| other == name) {
                    bail!(alloc, "{}", Quoted(name.as_bytes()));
                }
            }
            bail!(alloc, "{fault}")
        }
        _ => explain_fault(alloc, fault),
    }
}

/// The fault itself, of which no more can be said.
pub fn explain_fault<T>(alloc: Global, fault: StepFault) -> Explained<T>
    ensures { IsErr result }
{
    bail!(alloc, "{fault}")
}

/// Nothing if a schema has a column of this name.
pub fn explain_column(alloc: Global, schema: &Schema, name: &str, place: &str) -> Explained {
    if schema.position(name).is_some() {
        return Ok(());
    }
    let name = Quoted(name.as_bytes());
    let mut text = format!(in alloc; "{name}{place}; there are ")?;
    for column in 0..schema.len() {
        let comma = if column == 0 { "" } else { ", " };
        let name = Quoted(schema.name(column).as_bytes());
        write!(text, "{comma}{name}")?;
    }
    Err(PartFault::of(alloc, Ok(text)))
}

/// Nothing if a schema has a column of this name that can be summed. A column of texts may be one of numbers, which another kind reads.
pub fn explain_sum(alloc: Global, schema: &Schema, name: &str, sum: &str) -> Explained {
    explain_column(alloc, schema, name, "")?;
    match schema.kind_of(name) {
        Ok(kind) if kind != Kind::Whole => {
            let (name, word) = (Quoted(name.as_bytes()), kind_word(kind));
            let hint = match kind {
                Kind::Text => "; give it the kind \"int\"",
                _ => "",
            };
            bail!(alloc, "{sum}{name} is {word}{hint}")
        }
        _ => Ok(()),
    }
}
