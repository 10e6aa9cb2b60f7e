//! Printing beside the caller's thread.
ghost use Rattle.std.specs.Prelude.{◌≡◌, ◌≤◌, ◌-◌, ◌++◌, [], Ok, IfOk, OnOk, length};
ghost use Rattle.fq_csv.specs.Printed.{printed_names, printed_rows_in};
ghost use Rattle.fq_run.specs.PrintedText.{rows_text, text_of};
ghost use Rattle.fq_run.specs.Printing.{HasFewParts, part_text, whole_text};

use crate::printed_text::PrintedText;
use crate::row_sinks::RowSink;
use fq_column::{Batch, Memory, Schema};
use fq_notation::Notations;
use std::alloc::Global;
use std::collections::VecDeque;
use std::snapshot::Snapshot;
use std::thread::{Promise, PromisedHandle, Threads};
use std::{mem, thread};

/// How many rows are gathered before a thread is started that prints them: by half as many the starts cost more than is gained, and by
/// more of them the rows have left the caches, and the run waits longer for the last of them.
pub(crate) const ROWS_GATHERED: usize = 2_048;

/// How many rows are few: at most eight batches of more rows are gathered.
const FEW_ROWS: usize = 256;

/// What a thread promises that prints batches in notations.
#[derive(Drop)]
pub(crate) struct PrintPromise {
    batches: Snapshot<Vec<Batch>>,
    notations: Snapshot<Notations>,
}

impl Promise<Result<PrintedText, Memory>> for PrintPromise {
    ghost kept_by = { λ p r. IfOk r (λ text. text_of text ≡ rows_text p.notations.value p.batches.value.items) };
}

/// A part of the text.
#[derive(Drop)]
pub(crate) enum Part {
    /// It is printed.
    Text(PrintedText),
    /// A thread prints it.
    Thread(PromisedHandle<Result<PrintedText, Memory>, PrintPromise>),
}

impl Part {
    // The part, once it is printed.
    fn wait<T: Threads>(self, rt: &T) -> Result<PrintedText, Memory>
        ensures { IfOk result (λ text. text_of text ≡ part_text self) }
    {
        match self {
            Part::Text(text) => Ok(text),
            Part::Thread(thread) => thread.join(rt),
        }
    }
}

/// What batches are printed by.
#[derive(Drop)]
pub(crate) struct PrintSettings<'r, T> {
    pub(crate) rt: &'r T,
    pub(crate) alloc: Global,
    /// How ints are written.
    pub(crate) notations: &'r Notations,
    /// The most threads that print at once. If it is one, none is started, and the caller's prints.
    pub(crate) threads: usize,
}

impl<'r, T: Threads> PrintSettings<'r, T> {
    // How many rows are gathered before they are printed.
    fn rows_at_once(&self) -> usize {
        if self.threads > 1 { ROWS_GATHERED } else { 0 }
    }

    // Starts a thread that prints batches, or prints them here if none may be started.
    fn print(&self, batches: Vec<Batch>) -> Result<Part, Memory>
        ensures { IfOk result (λ part. part_text part ≡ rows_text self.now.notations.now batches.items) }
    {
        let alloc = self.alloc;
        if self.threads <= 1 {
            return Ok(Part::Text(PrintedText::of_rows(alloc, batches, self.notations)?));
        }
        let notations = self.notations.copy(alloc)?;
        let promise = PrintPromise {
            batches: Snapshot::of(&batches),
            notations: Snapshot::of(&notations),
        };
        match thread::spawn_with(
            self.rt,
            promise,
            move || PrintedText::of_rows(alloc, batches, &notations),
        ) {
            Ok(thread) => Ok(Part::Thread(thread)),
            Err(refused) => Ok(Part::Text((refused.value)()?)),
        }
    }
}

/// The printed frame, as it grows.
#[derive(Drop)]
pub(crate) struct Printing<'r, T> {
    press: PrintSettings<'r, T>,
    text: PrintedText,
    /// What follows the text, in order.
    parts: VecDeque<Part>,
    /// What follows the parts, and is not printed yet.
    batches: Vec<Batch>,
    /// How many rows may still come before the batches are printed.
    room: usize,
}

impl<'r, T: Threads> RowSink for Printing<'r, T> {
    ghost use Rattle.fq_csv.specs.Printed.{printed_in};

    ghost has = { λ notations p fields rows. (p.press.notations.now ≡ notations) × (whole_text p ≡ printed_in notations (record { fields = fields; rows = rows })) };

    fn take(&mut self, batch: Batch) -> Result<(), Memory> {
        self.print(batch)
    }

    // once no thread prints any more
    fn stop(self) {
        for part in self.parts {
            drop(part.wait(self.press.rt));
        }
    }
}

impl<'r, T: Threads> Printing<'r, T> {
    /// The names of columns, and no rows.
    pub(crate) fn new(
        press: PrintSettings<'r, T>,
        schema: &Schema,
    ) -> Result<Printing<'r, T>, Memory>
        ensures text { IfOk result (λ p. whole_text p ≡ printed_names schema.now) }
        ensures notations { IfOk result (λ p. p.press.notations.now ≡ press.entry.notations.now) }
        ensures threads { IfOk result (λ p. p.press.threads ≡ press.entry.threads) }
        ensures few { IfOk result (λ p. p.parts.items ≡ []) }
    {
        let alloc = press.alloc;
        let text = PrintedText::of_names(alloc, schema)?;
        let room = press.rows_at_once();
        Ok(Printing {
            press,
            text,
            parts: VecDeque::new(alloc),
            batches: Vec::new(alloc),
            room,
        })
    }

    // Takes the rows of a batch, to be printed after those before.
    fn print(&mut self, batch: Batch) -> Result<(), Memory>
        ensures text { OnOk result (whole_text self.new ≡ whole_text self.old ++ printed_rows_in self.old.press.notations.now batch.rows) }
        ensures notations { self.new.press.notations.now ≡ self.old.press.notations.now }
        ensures threads { self.new.press.threads ≡ self.old.press.threads }
        ensures few { HasFewParts self.old → HasFewParts self.new }
    {
        if batch.rows() == 0 {
            return Ok(());
        }
        self.room = self.room.saturating_sub(batch.rows());
        if self.room == 0 {
            self.batches.push(batch)?;
            return self.hand_on();
        }
        self.batches.push(fitted(self.press.alloc, batch)?)?;
        Ok(())
    }

    // Makes a part of the gathered batches.
    fn hand_on(&mut self) -> Result<(), Memory>
        ensures text { OnOk result (whole_text self.new ≡ whole_text self.old) }
        ensures notations { self.new.press.notations.now ≡ self.old.press.notations.now }
        ensures threads { self.new.press.threads ≡ self.old.press.threads }
        ensures few { HasFewParts self.old → HasFewParts self.new }
    {
        if self.parts.len() >= self.press.threads {
            self.settle_first()?;
        }
        let batches = mem::replace(&mut self.batches, Vec::new(self.press.alloc));
        self.room = self.press.rows_at_once();
        let part = self.press.print(batches)?;
        match self.parts.push_back(part) {
            Ok(()) => Ok(()),
            Err(refused) => {
                drop(refused.value.wait(self.press.rt));
                Err(Memory)
            }
        }
    }

    // Moves the first part, once it is printed, to the end of the text.
    fn settle_first(&mut self) -> Result<(), Memory>
        ensures text { OnOk result (whole_text self.new ≡ whole_text self.old) }
        ensures notations { self.new.press.notations.now ≡ self.old.press.notations.now }
        ensures threads { self.new.press.threads ≡ self.old.press.threads }
        ensures fewer { length self.new.parts.items ≤ length self.old.parts.items - 1 }
    {
        match self.parts.pop_front() {
            Some(part) => self.text.append(part.wait(self.press.rt)?),
            None => Ok(()),
        }
    }

    /// The text of all rows, once no thread prints any more. `Memory` if an allocation failed, also in one of these.
    pub(crate) fn finish(self) -> Result<PrintedText, Memory>
        ensures { IfOk result (λ text. text_of text ≡ whole_text self.entry) }
    {
        let Printing {
            press,
            text,
            parts,
            batches,
            room: _,
        } = self;
        let last = PrintedText::of_rows(press.alloc, batches, press.notations);
        let mut all = Ok(text);
        for part in parts {
            all = followed_by(all, part.wait(press.rt));
        }
        followed_by(all, last)
    }
}

// A batch while it waits: one of few rows gives up the room that it has for more, of which a filter or a part of a join may leave it much.
fn fitted(alloc: Global, batch: Batch) -> Result<Batch, Memory>
    ensures { IfOk result (λ b. b ≡ batch) }
{
    if batch.rows() < FEW_ROWS {
        batch.copy(alloc)
    } else {
        Ok(batch)
    }
}

// A text, and then another, if there are both.
fn followed_by(
    text: Result<PrintedText, Memory>,
    more: Result<PrintedText, Memory>,
) -> Result<PrintedText, Memory>
    ensures { IfOk result (λ all. (first : PrintedText) × (second : PrintedText) × (text ≡ Ok first) × (more ≡ Ok second) × (text_of all ≡ text_of first ++ text_of second)) }
{
    let mut text = text?;
    text.append(more?)?;
    Ok(text)
}
