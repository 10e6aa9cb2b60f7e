//! Sources, and whole plans.
ghost use Rattle.std.specs.Prelude.{◌≡◌, codes, map, string_bytes};
ghost use Rattle.serde_json.specs.View.{view};
ghost use Rattle.fq_csv.specs.Sources.{Source as SourceData};
ghost use Rattle.fq_language.specs.Parts.{member, whole_from_to as the_whole_from_to};
ghost use Rattle.fq_language.specs.Reading.{Answers, null_texts};
ghost use Rattle.fq_language.specs.Spelling.{plan_of, source_of, version_of};
ghost use Rattle.fq_language.specs.View.{source_data};
ghost use Rattle.fq_language.specs.declared.plans.Version.{Version as VersionData};

use crate::plans::{MAX_NULL_VALUES, MAX_SOURCES, Plan, Source, Step, Version, file_count};
use crate::reading::explanations::{missing, of_members, other_members, too_many, wrong};
use crate::reading::values::has_members;
use crate::reading::{Listed, Spelled, read_member};
use crate::reasons::{Explained, PartFault, Segment};
use crate::words::{PLAN, SOURCE};
use fq_csv::{MAX_FILES, NullValues};
use fq_expr::MAX_STEPS;
use serde_json::Value;
use std::alloc::Global;

// The number of files, the columns, and in version 2 the texts that are null, if they are given.
impl Spelled for Source {
    ghost Part = { SourceData };

    ghost spelled_by = { source_of };

    ghost part_of = { source_data };

    fn read(alloc: Global, version: Version, value: &Value) -> Explained<Source> {
        let source = read_source_members(alloc, version, value);
        of_members(alloc, version, value, SOURCE, source)
    }
}

impl Listed for Source {
    const ITEMS: &'static str = "sources";
}

// The members of a source.
fn read_source_members(alloc: Global, version: Version, value: &Value) -> Explained<Source>
    ensures { Answers source_data (source_of version (view value.now)) result }
{
    let files = read_files(alloc, value)?;
    let columns = read_member(alloc, version, value, "columns")?;
    let nulls = NullValues::new(read_null_values(alloc, version, value)?);
    Ok(Source {
        files,
        columns,
        nulls,
    })
}

// The number of a source's files.
fn read_files(alloc: Global, value: &Value) -> Explained<u16>
    ensures { Answers (λ files. files) (member (codes "files") (the_whole_from_to 1 MAX_FILES) (view value.now)) result }
{
    let Some(number) = value.get("files") else {
        return Err(missing(alloc, "files"));
    };
    match whole_from_to(number, 1, MAX_FILES) {
        Some(files) => Ok(files),
        None => Err(no_files(alloc, number)),
    }
}

// A value that is not a number of files.
fn no_files(alloc: Global, value: &Value) -> PartFault {
    let fault = match value.as_i64() {
        None => wrong(alloc, value, "is not a whole number of 64 bits"),
        Some(files) => {
            let text = format!(in alloc; "{files} is not from 1 to {MAX_FILES}");
            PartFault::of(alloc, text)
        }
    };
    fault.within(Segment::Member("files"))
}

// The texts that are null, at most as many as a source has, which a source of three members gives.
fn read_null_values(alloc: Global, version: Version, value: &Value) -> Explained<Vec<String>>
    ensures { Answers (λ texts. map string_bytes texts.items) (null_texts version (view value.now)) result }
{
    if has_members(value, 2) {
        return Ok(Vec::new(alloc));
    }
    match version {
        Version::Two if has_members(value, 3) => {}
        _ => return Err(other_members(alloc, version, value, SOURCE)),
    }
    let texts: Vec<String> = read_member(alloc, version, value, "null_values")?;
    if texts.len() > MAX_NULL_VALUES {
        let fault = too_many(alloc, texts.len(), MAX_NULL_VALUES, "texts");
        return Err(fault.within(Segment::Member("null_values")));
    }
    Ok(texts)
}

/// The plan of version 1 or 2, within the limits, that a value spells.
pub fn plan_in(alloc: Global, value: &Value) -> Explained<Plan>
    ensures { Answers (λ plan. plan) (plan_of (view value.now)) result }
{
    let plan = read_plan_members(alloc, value);
    of_members(alloc, Version::One, value, PLAN, plan)
}

// The members of a plan.
fn read_plan_members(alloc: Global, value: &Value) -> Explained<Plan>
    ensures { Answers (λ plan. plan) (plan_of (view value.now)) result }
{
    let version = read_member(alloc, Version::One, value, "version")?;
    let sources: Vec<Source> = read_member(alloc, version, value, "sources")?;
    if sources.is_empty()
        || sources.len() > MAX_SOURCES
        || file_count(&sources) > u32::from(MAX_FILES)
    {
        return Err(wrong_sources(alloc, &sources));
    }
    let steps: Vec<Step> = read_member(alloc, version, value, "steps")?;
    if steps.len() > MAX_STEPS {
        let fault = too_many(alloc, steps.len(), MAX_STEPS, "steps");
        return Err(fault.within(Segment::Member("steps")));
    }
    if !has_members(value, 3) {
        return Err(other_members(alloc, version, value, PLAN));
    }
    Ok(Plan { sources, steps })
}

// No source, or more sources or files than a plan has.
fn wrong_sources(alloc: Global, sources: &[Source]) -> PartFault {
    let count = sources.len();
    let fault = if count == 0 {
        let text = String::from_str(alloc, "[] has no source; a plan has at least one");
        PartFault::of(alloc, text)
    } else if count > MAX_SOURCES {
        too_many(alloc, count, MAX_SOURCES, "sources")
    } else {
        let files = file_count(sources) as usize;
        too_many(alloc, files, usize::from(MAX_FILES), "files in all")
    };
    fault.within(Segment::Member("sources"))
}

// The version of a plan.
impl Spelled for Version {
    ghost Part = { VersionData };

    ghost spelled_by = { λ _. version_of };

    ghost part_of = { λ version. version };

    fn read(alloc: Global, _version: Version, value: &Value) -> Explained<Version> {
        match whole_from_to(value, 1, 2) {
            Some(1) => Ok(Version::One),
            Some(_) => Ok(Version::Two),
            None => Err(wrong(alloc, value, "is not 1 or 2")),
        }
    }
}

// A whole number from `low` to `high`.
fn whole_from_to(value: &Value, low: u16, high: u16) -> Option<u16>
    ensures { result ≡ the_whole_from_to low high (view value.now) }
{
    let number = value.as_i64()?;
    if number < i64::from(low) || number > i64::from(high) {
        None
    } else {
        Some(number as u16)
    }
}
