//! Why a value is not what has to stand there.
ghost use Rattle.fq_language.specs.Reading.{IsSameAnswer};

use crate::plans::Version;
use crate::reasons::{Explained, PartFault};
use crate::words::Words;
use fq_places::Quoted;
use serde_json::Value;
use std::alloc::Global;
use std::fmt;
use std::fmt::{Display, Formatter, Write};

/// What stands there, and what is wrong with it.
pub fn wrong(alloc: Global, value: &Value, what: &str) -> PartFault {
    PartFault::of(alloc, format!(in alloc; "{} {what}", Found(value)))
}

/// No member of this name.
pub fn missing(alloc: Global, name: &str) -> PartFault {
    PartFault::of(alloc, format!(in alloc; "\"{name}\" is missing"))
}

/// A value that is not an array of such items.
pub fn no_list(alloc: Global, value: &Value, items: &str) -> PartFault {
    let text = format!(in alloc; "{} is not an array of {items}", Found(value));
    PartFault::of(alloc, text)
}

/// A value that is not an array of the right length.
pub fn wrong_length(alloc: Global, value: &Value, form: &str) -> PartFault {
    let found = Found(value);
    let text = match value.as_array() {
        None => format!(in alloc; "{found} is not an array; {form}"),
        Some(items) => {
            let count = items.len();
            let plural = if count == 1 { "" } else { "s" };
            format!(in alloc; "{found} has {count} item{plural}; {form}")
        }
    };
    PartFault::of(alloc, text)
}

/// More than there may be.
pub fn too_many(alloc: Global, count: usize, most: usize, what: &str) -> PartFault {
    PartFault::of(alloc, format!(in alloc; "{count} {what}; at most {most}"))
}

/// A value that is not one of the words of the version.
pub fn no_word(alloc: Global, version: Version, value: &Value, words: Words) -> PartFault {
    let allowed = words.of(version);
    match value.as_str() {
        Some(word) if words.has(word) && !allowed.has(word) => {
            wrong(alloc, value, "needs version 2")
        }
        _ => {
            let text = format!(in alloc; "{} is not one of {allowed}", Found(value));
            PartFault::of(alloc, text)
        }
    }
}

/// A value that is not one of these words. If it is one of `others`, `takes` says what that takes.
pub fn other_word(
    alloc: Global,
    version: Version,
    value: &Value,
    words: Words,
    others: Words,
    takes: &str,
) -> PartFault {
    match value.as_str() {
        Some(word) if others.has(word) => wrong(alloc, value, takes),
        _ => no_word(alloc, version, value, words),
    }
}

/// A value that is not an object, or one with other members than those of the version.
pub fn other_members(alloc: Global, version: Version, value: &Value, members: Words) -> PartFault {
    let allowed = members.of(version);
    let text = match first_other(value, allowed) {
        None => format!(in alloc; "{} is not an object of {allowed}", Found(value)),
        Some(name) => {
            let found = Quoted(name.as_bytes());
            if members.has(name) {
                format!(in alloc; "{found} needs version 2")
            } else {
                format!(in alloc; "{found} is not a member; there are {allowed:#}")
            }
        }
    };
    PartFault::of(alloc, text)
}

/// What reading an object answered. If it spells nothing, and is not an object or has another member than these, that comes first.
pub fn of_members<T: Drop>(
    alloc: Global,
    version: Version,
    value: &Value,
    members: Words,
    part: Explained<T>,
) -> Explained<T>
    ensures { IsSameAnswer part result }
{
    match part {
        Err(PartFault::Wrong(_)) if has_others(value, members.of(version)) => {
            Err(other_members(alloc, version, value, members))
        }
        part => part,
    }
}

// Whether a value is not an object, or has a member that is not one of these.
fn has_others(value: &Value, allowed: Words) -> bool {
    !value.is_object() || first_other(value, allowed).is_some()
}

// The first member of an object that is not one of these.
fn first_other(value: &Value, allowed: Words) -> Option<&str> {
    let members = value.as_object()?;
    let name = members.keys().find(|name| !allowed.has(name.as_str()))?;
    Some(name.as_str())
}

// What stands in a place, at a glance.
#[derive(Clone, Copy)]
struct Found<'a>(&'a Value);

impl Display for Found<'_> {
    fn fmt<W: Write>(&self, f: &mut Formatter<W>) -> fmt::Result {
        match self.0 {
            Value::String(text) => write!(f, "{}", Quoted(text.as_bytes())),
            Value::Array(items) if !items.is_empty() => f.write_str("[..]"),
            Value::Object(members) if !members.is_empty() => f.write_str("{..}"),
            value => write!(f, "{value}"),
        }
    }
}
