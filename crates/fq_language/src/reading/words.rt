//! Names, whole numbers, truth values, and the words of kinds and joins.
ghost use Rattle.std.specs.Prelude.{ℤ, Bool, string_bytes};
ghost use Rattle.serde_json.specs.Find.{as_bool};
ghost use Rattle.fq_language.specs.Parts.{whole, name_of, word};
ghost use Rattle.fq_language.specs.Spelling.{kinds, hows};
ghost use Rattle.fq_column.specs.Frame.{Name};
ghost use Rattle.fq_column.specs.declared.cells.Kind.{Kind as KindData};
ghost use Rattle.fq_ops.specs.declared.joins.How.{How as HowData};

use crate::plans::Version;
use crate::reading::explanations::{no_word, wrong};
use crate::reading::{Listed, Named, Spelled};
use crate::reasons::{Explained, PartFault};
use crate::words::{HOWS, KINDS, how, kind};
use fq_column::Kind;
use fq_ops::How;
use serde_json::Value;
use std::alloc::Global;

// A name.
impl Spelled for String {
    ghost Part = { Name };

    ghost spelled_by = { λ _. name_of };

    ghost part_of = { string_bytes };

    fn read(alloc: Global, _version: Version, value: &Value) -> Explained<String> {
        match value.as_str() {
            Some(text) => Ok(String::from_str(alloc, text)?),
            None => Err(wrong(alloc, value, "is not a string")),
        }
    }
}

impl Listed for String {
    const ITEMS: &'static str = "strings";
}

// A whole number of 64 bits.
impl Spelled for i64 {
    ghost Part = { ℤ };

    ghost spelled_by = { λ _. whole };

    ghost part_of = { λ number. number };

    fn read(alloc: Global, _version: Version, value: &Value) -> Explained<i64> {
        match value.as_i64() {
            Some(number) => Ok(number),
            None => Err(wrong(alloc, value, "is not a whole number of 64 bits")),
        }
    }
}

impl Spelled for bool {
    ghost Part = { Bool };

    ghost spelled_by = { λ _. as_bool };

    ghost part_of = { λ truth. truth };

    fn read(alloc: Global, _version: Version, value: &Value) -> Explained<bool> {
        match value.as_bool() {
            Some(truth) => Ok(truth),
            None => Err(wrong(alloc, value, "is not true or false")),
        }
    }
}

impl Spelled for Kind {
    ghost Part = { KindData };

    ghost spelled_by = { λ _. word kinds };

    ghost part_of = { λ kind. kind };

    fn read(alloc: Global, version: Version, value: &Value) -> Explained<Kind> {
        match kind(value) {
            Some(kind) => Ok(kind),
            None => Err(no_kind(alloc, version, value)),
        }
    }
}

// A value that is no kind. A date and a decimal are how ints are written in files.
fn no_kind(alloc: Global, version: Version, value: &Value) -> PartFault {
    match value.as_str() {
        Some("date") => wrong(
            alloc,
            value,
            "is not a kind; a date is an \"int\" whose column --date names",
        ),
        Some("decimal") => wrong(
            alloc,
            value,
            "is not a kind; a decimal is an \"int\" whose column --decimal names",
        ),
        _ => no_word(alloc, version, value, KINDS),
    }
}

impl Named for Kind {
    const FORM: &'static str = "a column is [NAME, KIND]";
}

impl Listed for (String, Kind) {
    const ITEMS: &'static str = "columns, each [NAME, KIND]";
}

impl Spelled for How {
    ghost Part = { HowData };

    ghost spelled_by = { λ version. word (hows version) };

    ghost part_of = { λ how. how };

    fn read(alloc: Global, version: Version, value: &Value) -> Explained<How> {
        match how(version, value) {
            Some(how) => Ok(how),
            None => Err(no_word(alloc, version, value, HOWS)),
        }
    }
}
