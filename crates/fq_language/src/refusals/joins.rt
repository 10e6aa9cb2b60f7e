//! What a refusal of a join is about.
ghost use Rattle.std.specs.Prelude.{IsErr};

use crate::reasons::{Explained, bail};
use crate::refusals::columns::{explain_column, explain_columns};
use fq_column::{Schema, StepFault, has_double};
use fq_csv::kind_word;
use fq_places::Quoted;
use std::alloc::Global;

/// What the refusal of a join of two schemas is about.
pub fn explain_join<T>(
    alloc: Global,
    left: &Schema,
    right: &Schema,
    on: &[String],
    fault: StepFault,
) -> Explained<T>
    ensures { IsErr result }
{
    if on.is_empty() {
        bail!(alloc, "on is empty")
    }
    for name in on {
        explain_key(alloc, left, right, name.as_str())?;
    }
    if matches!(fault, StepFault::DoubleName) && !has_double(on) {
        explain_right(alloc, left, right, on)?;
    }
    let names: Vec<&str> = on.iter().map(|name| name.as_str()).collect(alloc)?;
    let is_key = |column: &usize| on.iter().any(|key| key.as_str() == right.name(*column));
    let keys = (0..right.len()).filter(is_key).count();
    let count = left.len().saturating_add(right.len()).saturating_sub(keys);
    explain_columns(alloc, &names, count, fault)
}

// Nothing if both sides have the key, of one kind.
fn explain_key(alloc: Global, left: &Schema, right: &Schema, name: &str) -> Explained {
    explain_column(alloc, left, name, " is not on the left")?;
    explain_column(alloc, right, name, " is not on the right")?;
    match (left.kind_of(name), right.kind_of(name)) {
        (Ok(left), Ok(right)) if left != right => {
            let (name, left, right) = (Quoted(name.as_bytes()), kind_word(left), kind_word(right));
            bail!(alloc, "{name} is {left} on the left, {right} on the right")
        }
        _ => Ok(()),
    }
}

// Nothing if no right column gets a name, by `_right`, that another column has.
fn explain_right(alloc: Global, left: &Schema, right: &Schema, on: &[String]) -> Explained {
    for column in 0..right.len() {
        let name = right.name(column);
        if left.position(name).is_none() || on.iter().any(|key| key.as_str() == name) {
            continue;
        }
        let name = format!(in alloc; "{name}_right")?;
        if left.position(name.as_str()).is_some() || right.position(name.as_str()).is_some() {
            bail!(alloc, "{}", Quoted(name.as_bytes()));
        }
    }
    Ok(())
}
