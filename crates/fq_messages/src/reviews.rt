//! A check of the data files before a run, and a draft of a plan for them.
ghost use Rattle.std.specs.Prelude.{◌≡◌, ◌≢◌, ◌⊎◌, ◌==◌, ◌&&◌, ℕ, List, Ok, Some, IfErr, IfOk, OnOk, length, map};
ghost use Rattle.fq_csv.specs.Sources.{layout_of};
ghost use Rattle.fq_language.specs.Plan.{files_wanted};
ghost use Rattle.fq_language.specs.View.{field_of, source_data};
ghost use Rattle.fq_notation.specs.Notation.{notation_in};
ghost use Rattle.fq_plan.specs.Noted.{noted_layout, noted_layouts};
ghost use Rattle.fq_review.specs.Checked.{are_clean, is_clean};
ghost use Rattle.fq_run.specs.Run.{Tell};
ghost use Rattle.fq_run.specs.declared.faults.Fault.TheVariants as fault;
ghost use Rattle.fq_shell.specs.Arguments.{named_by};
ghost use Rattle.fq_messages.specs.Ending.{IsOutside};
ghost use Rattle.fq_messages.specs.Reviewed.{IsVerdict};
ghost use Rattle.fq_messages.specs.declared.failures.Failure.TheVariants as failure;

use crate::failures::Failure;
use crate::inputs::{open, read_whole};
use fq_column::{Kind, Memory};
use fq_csv::{MAX_FILES, NullValues};
use fq_language::{MAX_NULL_VALUES, MAX_SOURCES, Plan, Source};
use fq_notation::{NamedNotations, Notations};
use fq_places::Unread;
use fq_review::{Check, Draft, DraftFault, Expected};
use fq_run::Fault;
use fq_shell::{Opener, Options};
use std::alloc::Global;
use std::io::Write;

/// Writes on `err` what is wrong in the data files by the plan's sources, each comparison of constants in its steps, and each step that orders
/// the texts of a column of numbers.
///
/// `Problems` if anything is wrong in a file; `Run(Read)` with the first file that cannot be opened or read; `Failure::MEMORY` if an
/// allocation fails.
pub fn check_files<O: Opener, E: Write>(
    alloc: Global,
    plan: &Plan,
    named: &NamedNotations,
    options: &Options<'_>,
    files: &mut O,
    err: &mut E,
) -> Result<(), Failure>
    ensures same { O.bytes_of files.new ≡ O.bytes_of files.old }
    ensures failed { IfErr result (λ f. f ≢ failure.Run fault.Write) }
    ensures judged { (inputs : List (List ℕ)) → Tell (O.bytes_of files.old) (named_by options.now).files inputs → length inputs ≡ files_wanted plan.now →
        IsVerdict (are_clean (noted_layouts named.now plan.now) inputs) result }
{
    write_warnings(alloc, plan, options.plan().unwrap_or_default(), err)?;
    let mut check = Check::new(alloc, options.limit());
    read_files(alloc, plan, named, options.files(), &mut check, files, err)?;
    write_orders(alloc, plan, options.plan().unwrap_or_default(), &check, err)?;
    if check.problems() == 0 {
        return Ok(());
    }
    check.write_summary(err);
    Err(Failure::Problems)
}

// Writes each comparison of constants in a plan's steps.
fn write_warnings<E: Write>(
    alloc: Global,
    plan: &Plan,
    name: &str,
    err: &mut E,
) -> Result<(), Memory> {
    for found in plan.constant_comparisons(alloc)? {
        let _ = writeln!(err, "{name}: warning: {found}");
    }
    Ok(())
}

// Checks each of the files by its source.
fn read_files<O: Opener, E: Write>(
    alloc: Global,
    plan: &Plan,
    named: &NamedNotations,
    names: &[&str],
    check: &mut Check,
    files: &mut O,
    err: &mut E,
) -> Result<(), Failure>
    ensures same { O.bytes_of files.new ≡ O.bytes_of files.old }
    ensures failed { IfErr result IsOutside }
    ensures device { IfErr result (λ f. f ≢ failure.Run fault.Write) }
    ensures judged { OnOk result ((inputs : List (List ℕ)) → Tell (O.bytes_of files.old) (map (λ name. name.now) names.now) inputs → length inputs ≡ files_wanted plan.now →
        (check.new.problems == 0) ≡ ((check.old.problems == 0) && are_clean (noted_layouts named.now plan.now) inputs)) }
{
    let mut number = 0u16;
    for name in names {
        let Some(source) = plan.source_of(number) else {
            return Ok(());
        };
        check_file(alloc, check, source, named, number, name, files, err)?;
        number += 1;
    }
    Ok(())
}

// Writes each step of a plan that orders the texts of a column whose fields in these files are numbers.
fn write_orders<E: Write>(
    alloc: Global,
    plan: &Plan,
    name: &str,
    check: &Check,
    err: &mut E,
) -> Result<(), Memory> {
    for order in plan.text_orders(alloc)? {
        let first = files_before(plan, order.source());
        let files = plan.sources().get(order.source()).map_or(0, Source::files);
        if check.has_only_numbers(first, usize::from(files), order.column()) {
            let _ = writeln!(err, "{name}: warning: {order}, but its fields are numbers");
        }
    }
    Ok(())
}

// How many files the sources before that of a number have.
fn files_before(plan: &Plan, number: usize) -> usize {
    let mut files = 0usize;
    for source in plan.sources().iter().take(number) {
        files = files.saturating_add(usize::from(source.files()));
    }
    files
}

// Checks a file of a source.
fn check_file<O: Opener, E: Write>(
    alloc: Global,
    check: &mut Check,
    source: &Source,
    named: &NamedNotations,
    number: u16,
    name: &str,
    files: &mut O,
    err: &mut E,
) -> Result<(), Failure>
    ensures same { O.bytes_of files.new ≡ O.bytes_of files.old }
    ensures failed { IfErr result IsOutside }
    ensures device { IfErr result (λ f. f ≢ failure.Run fault.Write) }
    ensures judged { OnOk result ((bytes : List ℕ) → O.bytes_of files.old name.now ≡ Some bytes →
        (check.new.problems == 0) ≡ ((check.old.problems == 0) && is_clean number (noted_layout named.now (layout_of (source_data source.now))) bytes)) }
{
    let failure = Failure::Run(Fault::Read { file: number });
    let notations = notations_of(alloc, source.columns(), named)?;
    let expected = Expected {
        columns: source.columns(),
        nulls: source.nulls(),
        notations: &notations,
    };
    match files.reader_again(name) {
        Ok(again) => {
            let reader = open(files, name, failure)?;
            let read = check.read_file(number, name, expected, reader, again, err);
            answer_to(read, failure)
        }
        Err(Unread::Once) => {
            let bytes = read_whole(alloc, open(files, name, failure)?, failure)?;
            let bytes = bytes.as_slice();
            let read = check.read_file(number, name, expected, bytes, bytes, err);
            answer_to(read, failure)
        }
        Err(cause) => answer_to(Err(cause), failure),
    }
}

// The notations of columns.
fn notations_of(
    alloc: Global,
    columns: &[(String, Kind)],
    named: &NamedNotations,
) -> Result<Notations, Memory>
    ensures { IfOk result (λ notations. notations ≡ map (notation_in named.now) (map field_of columns.now)) }
{
    let mut notations = Vec::with_capacity(alloc, columns.len())?;
    for column in columns {
        notations.push(named.of(column.0.as_str(), column.1))?;
    }
    Ok(Notations::new(notations))
}

// What is answered where a file was read or not: this failure, if it is not one of memory.
fn answer_to(read: Result<(), Unread>, failure: Failure) -> Result<(), Failure>
    ensures done { OnOk result (read ≡ Ok tt) }
    ensures failed { IfErr result (λ f. (f ≡ failure) ⊎ (f ≡ Failure.MEMORY)) }
{
    match read {
        Ok(()) => Ok(()),
        Err(Unread::Memory) => Err(Failure::MEMORY),
        Err(_) => Err(failure),
    }
}

/// What the data files draft, with ints in these notations. If there is no draft, writes on `err` what is said of each file that was read.
///
/// `DraftTooLarge` if a plan may not have as many files, sources or texts that are null; `Draft` with the fault of the first file that drafts
/// nothing, `Run(Read)` with the first that cannot be opened or read, `Failure::MEMORY` if an allocation fails.
pub fn draft_of<O: Opener, E: Write>(
    alloc: Global,
    named: NamedNotations,
    options: &Options<'_>,
    files: &mut O,
    err: &mut E,
) -> Result<Draft, Failure>
    ensures same { O.bytes_of files.new ≡ O.bytes_of files.old }
    ensures failed { IfErr result (λ f. f ≢ failure.Run fault.Write) }
{
    let names = options.files();
    if names.len() > usize::from(MAX_FILES) || options.null_values().len() > MAX_NULL_VALUES {
        return Err(Failure::DraftTooLarge);
    }
    let mut draft = Draft::new(alloc, null_values(alloc, options)?, named);
    match draft_files(alloc, &mut draft, names, files) {
        Ok(()) => Ok(draft),
        Err(failure) => {
            draft.write_file_notes(names, err);
            Err(failure)
        }
    }
}

// Drafts the files of these names.
fn draft_files<O: Opener>(
    alloc: Global,
    draft: &mut Draft,
    names: &[&str],
    files: &mut O,
) -> Result<(), Failure>
    ensures same { O.bytes_of files.new ≡ O.bytes_of files.old }
    ensures failed { IfErr result (λ f. f ≢ failure.Run fault.Write) }
{
    for name in names {
        draft_file(alloc, draft, name, files)?;
        if draft.sources() > MAX_SOURCES {
            return Err(Failure::DraftTooLarge);
        }
    }
    Ok(())
}

// The texts that are null.
fn null_values(alloc: Global, options: &Options<'_>) -> Result<NullValues, Memory> {
    let mut texts = Vec::with_capacity(alloc, options.null_values().len())?;
    for text in options.null_values() {
        texts.push(String::from_str(alloc, text)?)?;
    }
    Ok(NullValues::new(texts))
}

// Drafts one more file.
fn draft_file<O: Opener>(
    alloc: Global,
    draft: &mut Draft,
    name: &str,
    files: &mut O,
) -> Result<(), Failure>
    ensures same { O.bytes_of files.new ≡ O.bytes_of files.old }
    ensures failed { IfErr result (λ f. f ≢ failure.Run fault.Write) }
{
    let failure = Failure::from(DraftFault::Read {
        file: draft.files(),
    });
    match files.reader_again(name) {
        Ok(again) => draft.read_file(open(files, name, failure)?, again)?,
        Err(Unread::Once) => {
            let bytes = read_whole(alloc, open(files, name, failure)?, failure)?;
            draft.read_file(bytes.as_slice(), bytes.as_slice())?;
        }
        Err(Unread::Memory) => return Err(Failure::MEMORY),
        Err(_) => return Err(failure),
    }
    Ok(())
}
