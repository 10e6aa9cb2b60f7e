//! Reading a plan out of a JSON value: its parts, or why a value spells none.
ghost use Rattle.std.specs.Prelude.{Option};
ghost use Rattle.serde_json.specs.View.{view};
ghost use Rattle.serde_json.specs.Data.{Data};
ghost use Rattle.fq_language.specs.Parts.{member};
ghost use Rattle.fq_language.specs.Reading.{Answers, IsSameAnswer};
ghost use Rattle.fq_language.specs.declared.plans.Version.{Version as VersionData};

use crate::plans::Version;
use crate::reading::explanations::missing;
use crate::reasons::{Explained, Segment};
use serde_json::Value;
use std::alloc::Global;

mod aggregates;
mod explanations;
mod expressions;
mod flaws;
mod json;
mod lists;
mod plans;
mod steps;
mod values;
mod words;

pub use json::no_json;
pub use plans::plan_in;

/// A part of a plan, which a JSON value may spell.
pub trait Spelled: Drop {
    // What such a part is as data.
    ghost Part: { Type 0 };
    // The part that a value spells in a version of the language.
    ghost spelled_by: { VersionData → Data → Option Self.Part };
    // The data of a part.
    ghost part_of: { Self → Self.Part };

    /// The part that a value spells, or the first reason why it spells none, in the order of the language.
    fn read(alloc: Global, version: Version, value: &Value) -> Explained<Self>
        ensures { Answers part_of (spelled_by version (view value.now)) result };
}

/// A part that stands in arrays of its sort.
pub trait Listed {
    /// What such an array holds.
    const ITEMS: &'static str;
}

/// A part that stands after a name, in an array of the two.
pub trait Named {
    /// What such an array is.
    const FORM: &'static str;
}

/// The part that a value spells which stands there.
pub fn read_at<T: Spelled>(
    alloc: Global,
    version: Version,
    place: Segment,
    value: &Value,
) -> Explained<T>
    ensures { Answers T.part_of (T.spelled_by version (view value.now)) result }
{
    within(place, T::read(alloc, version, value))
}

/// The part that an object's member spells.
pub fn read_member<T: Spelled>(
    alloc: Global,
    version: Version,
    value: &Value,
    name: &'static str,
) -> Explained<T>
    ensures { Answers T.part_of (member name.now (T.spelled_by version) (view value.now)) result }
{
    match value.get(name) {
        Some(part) => read_at(alloc, version, Segment::Member(name), part),
        None => Err(missing(alloc, name)),
    }
}

/// A part, or why there is none, seen from what it stands in.
pub fn within<T>(place: Segment, part: Explained<T>) -> Explained<T>
    ensures { IsSameAnswer part result }
{
    match part {
        Ok(part) => Ok(part),
        Err(fault) => Err(fault.within(place)),
    }
}
