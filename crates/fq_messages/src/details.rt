//! What more can be said of a failure than its one line says.
ghost use Rattle.std.specs.Prelude.{◌≡◌};
ghost use Rattle.fq_messages.specs.Ending.{unplaced};

use crate::failures::Failure;
use crate::file_details::FileDetails;
use fq_column::Kind;
use fq_language::{Plan, read_plan, reason_of};
use fq_notation::NamedNotations;
use fq_places::{Quoted, Unread};
use fq_plan::{Check, Checked, NotationFault};
use fq_run::Fault;
use fq_shell::{OpenFault, Opener, Options, STANDARD_INPUT};
use std::alloc::Global;
use std::fmt::{Display, Formatter};
use std::io::Write;
use std::{fmt, io};

/// What a run learns that its failure does not say.
#[derive(Drop)]
pub struct Learned {
    /// The text of the plan, or of the plan that was drafted; empty until there is all of it.
    pub plan: Vec<u8>,
    /// Why a write failed, if one did.
    pub write: Option<io::Error>,
}

impl Learned {
    /// Nothing.
    pub fn new(alloc: Global) -> Learned {
        Learned {
            plan: Vec::new(alloc),
            write: None,
        }
    }

    /// The failure of a file that cannot be made or put in its place.
    pub fn failure_of_write(&mut self, fault: OpenFault) -> Failure
        ensures { result ≡ unplaced fault }
    {
        match fault {
            OpenFault::Memory => Failure::MEMORY,
            OpenFault::Failed(error) => {
                self.write = Some(error);
                Failure::Run(Fault::Write)
            }
        }
    }
}

/// Writes what more can be said of a failure, in lines that begin with two spaces.
///
/// Files are read again from their starts. What a failed allocation or write cuts short is left out, as nothing rests on it.
pub fn write_details<O: Opener, E: Write>(
    alloc: Global,
    failure: Failure,
    options: &Options<'_>,
    learned: &Learned,
    files: &mut O,
    err: &mut E,
)
    ensures { O.bytes_of files.new ≡ O.bytes_of files.old }
{
    let text = learned.plan.as_slice();
    let _ = match failure {
        Failure::Arguments | Failure::Problems | Failure::DraftTooLarge | Failure::Draft(_) => None,
        Failure::InputTwice => write_inputs(options, err),
        Failure::PlanReplaced => write_replaced(options, err),
        Failure::PlanFile => write_cause(files, options.plan().unwrap_or_default(), err),
        Failure::Plan(_) => write_reason(alloc, options.plan().unwrap_or_default(), text, err),
        Failure::Check(_) => write_refusal(alloc, text, err),
        Failure::Run(Fault::Write) => write_write(options, learned.write, err),
        Failure::Run(Fault::Read { file }) => write_unread(options.files(), file, files, err),
        Failure::Decimals => write_decimal(alloc, options, err),
        Failure::Notation(fault) => write_notation(alloc, fault, options, text, err),
        Failure::Run(fault) => write_run(alloc, fault, options, text, files, err),
    };
}

// The arguments that name standard input.
fn write_inputs<E: Write>(options: &Options<'_>, err: &mut E) -> Option<()> {
    if options.plan() == Some(STANDARD_INPUT) {
        writeln!(err, "  the plan is -").ok()?;
    }
    for (number, name) in options.files().iter().enumerate() {
        if *name == STANDARD_INPUT {
            writeln!(err, "  file {number} is -").ok()?;
        }
    }
    Some(())
}

// The names of the plan and of the file that takes the frame.
fn write_replaced<E: Write>(options: &Options<'_>, err: &mut E) -> Option<()> {
    writeln!(err, "  the plan is {}", options.plan()?).ok()?;
    writeln!(err, "  --output is {}", options.output()?).ok()
}

// The entry of `--decimal` that is wrong.
fn write_decimal<E: Write>(alloc: Global, options: &Options<'_>, err: &mut E) -> Option<()> {
    let entry = options.wrong_decimal(alloc).ok()??;
    writeln!(err, "  --decimal {}", Quoted(entry.as_bytes())).ok()
}

// The entry of a notation that is refused, and the columns of ints that there are.
fn write_notation<E: Write>(
    alloc: Global,
    fault: NotationFault,
    options: &Options<'_>,
    text: &[u8],
    err: &mut E,
) -> Option<()> {
    let named = options.notations(alloc).ok()??;
    match fault {
        NotationFault::Memory => None,
        NotationFault::Step(..) | NotationFault::Item(..) => {
            write_step(alloc, fault, &named, text, err)
        }
        NotationFault::Twice(place) => {
            let name = Quoted(named.entries().get(place)?.0.as_bytes());
            writeln!(err, "  {name} stands twice").ok()
        }
        NotationFault::NoColumn(place) => {
            let name = Quoted(named.entries().get(place)?.0.as_bytes());
            writeln!(err, "  {name} is not an int column").ok()?;
            write_ints(alloc, text, err)
        }
    }
}

// Why a step of a plan leaves columns without notations, by the plan's text.
fn write_step<E: Write>(
    alloc: Global,
    fault: NotationFault,
    named: &NamedNotations,
    text: &[u8],
    err: &mut E,
) -> Option<()> {
    let plan = read_plan(alloc, text).ok()?.check(alloc).ok()?;
    write_misfit(alloc, fault, named, &plan, err)
}

// Why a step of a plan does.
fn write_misfit<E: Write>(
    alloc: Global,
    fault: NotationFault,
    named: &NamedNotations,
    plan: &Checked,
    err: &mut E,
) -> Option<()> {
    let misfit = plan.misfit(alloc, named, fault).ok()??;
    writeln!(err, "  {misfit}").ok()
}

// The columns of ints of a plan's sources and of its frame.
fn write_ints<E: Write>(alloc: Global, text: &[u8], err: &mut E) -> Option<()> {
    let plan = read_plan(alloc, text).ok()?;
    for (number, source) in plan.sources().iter().enumerate() {
        write!(err, "  source {number}:").ok()?;
        let mut is_first = true;
        for (name, kind) in source.columns() {
            write_int(name.as_str(), *kind, &mut is_first, err)?;
        }
        writeln!(err, "").ok()?;
    }
    let checked = plan.check(alloc).ok()?;
    let frame = checked.columns();
    write!(err, "  the frame:").ok()?;
    let mut is_first = true;
    for column in 0..frame.len() {
        write_int(frame.name(column), frame.kind(column), &mut is_first, err)?;
    }
    writeln!(err, "").ok()
}

// The name of a column, if it is of ints, with a comma before all but the first.
fn write_int<E: Write>(name: &str, kind: Kind, is_first: &mut bool, err: &mut E) -> Option<()> {
    if kind != Kind::Whole {
        return Some(());
    }
    let comma = if *is_first { "" } else { "," };
    *is_first = false;
    write!(err, "{comma} {}", Quoted(name.as_bytes())).ok()
}

// Why a file cannot be read.
fn write_cause<O: Opener, E: Write>(files: &mut O, name: &str, err: &mut E) -> Option<()>
    ensures { O.bytes_of files.new ≡ O.bytes_of files.old }
{
    match cause_of(files, name) {
        Some(cause) => writeln!(err, "  {name}: {cause}").ok(),
        None => writeln!(err, "  {name}: it can be read now").ok(),
    }
}

// Why the file of a number cannot be read.
fn write_unread<O: Opener, E: Write>(
    names: &[&str],
    file: u16,
    files: &mut O,
    err: &mut E,
) -> Option<()>
    ensures { O.bytes_of files.new ≡ O.bytes_of files.old }
{
    write_cause(files, names.get(usize::from(file))?, err)
}

// Why a file cannot be read, if that is so.
fn cause_of<O: Opener>(files: &mut O, name: &str) -> Option<Unread>
    ensures { O.bytes_of files.new ≡ O.bytes_of files.old }
{
    let mut reader = match files.reader_again(name) {
        Ok(reader) => reader,
        Err(cause) => return Some(cause),
    };
    match io::copy(&mut reader, &mut io::sink()) {
        Ok(_) => None,
        Err(error) => Some(Unread::System(error)),
    }
}

// Where a text stops being a plan.
fn write_reason<E: Write>(alloc: Global, name: &str, text: &[u8], err: &mut E) -> Option<()> {
    let reason = reason_of(alloc, text).ok()??;
    writeln!(err, "  {name}{reason}").ok()
}

// What the check refuses in a plan.
fn write_refusal<E: Write>(alloc: Global, text: &[u8], err: &mut E) -> Option<()> {
    let plan = read_plan(alloc, text).ok()?;
    let refusal = plan.refusal(alloc).ok()??;
    writeln!(err, "  {refusal}").ok()
}

// Why a write failed.
fn write_write<E: Write>(
    options: &Options<'_>,
    cause: Option<io::Error>,
    err: &mut E,
) -> Option<()> {
    let name = options.output().unwrap_or("standard output");
    writeln!(err, "  {name}: {}", Unread::System(cause?)).ok()
}

// What a run's fault is about.
fn write_run<O: Opener, E: Write>(
    alloc: Global,
    fault: Fault,
    options: &Options<'_>,
    text: &[u8],
    files: &mut O,
    err: &mut E,
) -> Option<()>
    ensures { O.bytes_of files.new ≡ O.bytes_of files.old }
{
    let plan = read_plan(alloc, text).ok()?;
    let named = options.notations(alloc).ok()??;
    write_fault(alloc, fault, &plan, &named, options.files(), files, err)
}

// What a run's fault is about, by the plan.
fn write_fault<O: Opener, E: Write>(
    alloc: Global,
    fault: Fault,
    plan: &Plan,
    named: &NamedNotations,
    names: &[&str],
    files: &mut O,
    err: &mut E,
) -> Option<()>
    ensures { O.bytes_of files.new ≡ O.bytes_of files.old }
{
    match fault {
        Fault::Inputs { .. } => write_sources(plan, names, err),
        Fault::Overflow { step, item } | Fault::SumRange { step, item } => {
            writeln!(err, "  {}", plan.step_text(step, item)).ok()
        }
        Fault::JoinRows { step } | Fault::RollRange { step } => {
            writeln!(err, "  {}", plan.step_text(step, 0)).ok()
        }
        Fault::Header { file } => FileDetails::of(plan, named, names, file)?.write_header(
            alloc, files, err,
        ),
        Fault::Width { file, row } => {
            FileDetails::of(plan, named, names, file)?.write_width(alloc, row, files, err)
        }
        Fault::BadCell { file, row, column } => {
            FileDetails::of(plan, named, names, file)?.write_cell(alloc, row, column, files, err)
        }
        Fault::TooLong { file } => FileDetails::of(plan, named, names, file)?.write_length(err),
        Fault::Setting | Fault::Memory | Fault::Read { .. } | Fault::Write => None,
    }
}

// The sources of a plan, with the files that they get.
fn write_sources<'a, E: Write>(plan: &'a Plan, names: &'a [&'a str], err: &mut E) -> Option<()> {
    let mut before = 0usize;
    for (number, source) in plan.sources().iter().enumerate() {
        let files = usize::from(source.files());
        let after = before.saturating_add(files);
        let given = Given {
            number,
            columns: source.columns(),
            files,
            names: names
                .get(before..after.min(names.len()))
                .unwrap_or_default(),
        };
        writeln!(err, "  {given}").ok()?;
        before = after;
    }
    for name in names.iter().skip(before) {
        writeln!(err, "  not wanted: {name}").ok()?;
    }
    Some(())
}

// A source of a plan by its number and its columns, how many files it has, and the names of those that it gets.
#[derive(Clone, Copy)]
struct Given<'a> {
    number: usize,
    columns: &'a [(String, Kind)],
    files: usize,
    names: &'a [&'a str],
}

impl Display for Given<'_> {
    fn fmt<W: fmt::Write>(&self, f: &mut Formatter<W>) -> fmt::Result {
        write!(f, "source {} ({}):", self.number, Columns(self.columns))?;
        for (place, name) in self.names.iter().enumerate() {
            let comma = if place == 0 { "" } else { "," };
            write!(f, "{comma} {name}")?;
        }
        let comma = if self.names.is_empty() { "" } else { "," };
        match self.files.saturating_sub(self.names.len()) {
            0 => Ok(()),
            1 => write!(f, "{comma} missing"),
            missing => write!(f, "{comma} {missing} missing"),
        }
    }
}

// The names of the first two columns, and whether there are more.
#[derive(Clone, Copy)]
struct Columns<'a>(&'a [(String, Kind)]);

impl Display for Columns<'_> {
    fn fmt<W: fmt::Write>(&self, f: &mut Formatter<W>) -> fmt::Result {
        for (place, (name, _)) in self.0.iter().take(2).enumerate() {
            let comma = if place == 0 { "" } else { ", " };
            write!(f, "{comma}{}", Quoted(name.as_bytes()))?;
        }
        if self.0.len() > 2 {
            f.write_str(", ..")?;
        }
        Ok(())
    }
}
