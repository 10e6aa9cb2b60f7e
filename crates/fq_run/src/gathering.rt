//! The worked items of sources, gathered.
ghost use Rattle.std.specs.Prelude.{◌≡◌, ◌<◌, ◌⊎◌, None, Some, [], map, IfOk, IfErr, OnOk, OnErr};
ghost use Rattle.fq_run.specs.Gathering.{gathered, gathered_stream, taken_in};
ghost use Rattle.fq_run.specs.Sources.{first_fault};
ghost use Rattle.fq_run.specs.declared.faults.Fault.TheVariants as fault;

use crate::faults::Fault;
use crate::leading_steps::Worked;
use fq_column::{Batch, Memory, Schema};
use fq_csv::ScanFault;
use fq_expr::Piece;
use std::alloc::Global;

/// A source's rows so far, and the fault that ends them; after a fault nothing is added.
#[derive(Drop)]
pub(crate) struct SideSource {
    /// How many files the source has.
    pub(crate) files: u16,
    pub(crate) batch: Batch,
    pub(crate) fault: Option<Fault>,
}

impl SideSource {
    /// A source of so many files, with no row yet. `Memory` if an allocation fails.
    pub(crate) fn new(alloc: Global, files: u16, schema: Schema) -> Result<SideSource, Memory>
        ensures { IfOk result (λ g. g ≡ record { files = files; batch = record { fields = schema; rows = [] }; fault = None }) }
    {
        Ok(SideSource {
            files,
            batch: Batch::empty(alloc, schema)?,
            fault: None,
        })
    }

    // Adds a worked item; a batch of other columns is dropped. No batch has other columns, but that is known only once the feeds' threads
    // are joined.
    fn gather(&mut self, out: Worked) -> Result<(), Memory>
        ensures ok { OnOk result (self.new ≡ gathered self.old out) }
        ensures err { OnErr result (self.new ≡ self.old) }
    {
        if self.fault.is_some() {
            return Ok(());
        }
        match out {
            Worked::Piece(piece) => self.append(piece),
            Worked::Cut(piece, fault) => {
                self.append(piece)?;
                self.end(fault);
                Ok(())
            }
            Worked::Ended(fault) => {
                self.end(fault);
                Ok(())
            }
        }
    }

    // Ends the rows, unless a fault has ended them before.
    fn end(&mut self, fault: ScanFault)
        ensures { self.new ≡ gathered self.old (Worked.Ended fault) }
    {
        if self.fault.is_none() {
            self.fault = Some(fault.into());
        }
    }

    // Adds rows and the fault that ends them, to rows that no fault ends; a batch of other columns is dropped, as in `gather`.
    fn append(&mut self, piece: Piece) -> Result<(), Memory>
        requires { self.old.fault ≡ None }
        ensures ok { OnOk result (self.new ≡ gathered self.old (Worked.Piece piece)) }
        ensures err { OnErr result (self.new ≡ self.old) }
    {
        let Piece { batch, fault } = piece;
        if batch.schema() == self.batch.schema() {
            self.batch.extend(batch)?;
            self.fault = fault.map(Fault::from);
        }
        Ok(())
    }
}

/// Adds a worked item to the source that its file is of, counted from the first of these.
pub(crate) fn take_in(sources: &mut [SideSource], file: u16, out: Worked) -> Result<(), Memory>
    ensures { OnOk result (sources.new ≡ taken_in file out sources.old) }
{
    let Some((source, others)) = sources.split_first_mut() else {
        return Ok(());
    };
    if file < source.files {
        source.gather(out)
    } else {
        take_in(others, file - source.files, out)
    }
}

/// The batches of sources, or the fault that ends the first that has one.
pub(crate) fn whole_batches(alloc: Global, sources: Vec<SideSource>) -> Result<Vec<Batch>, Fault>
    ensures none { IfOk result (λ batches. first_fault (map gathered_stream sources.items) ≡ None) }
    ensures batches { IfOk result (λ batches. batches.items ≡ map (λ g. g.batch) sources.items) }
    ensures fault { IfErr result (λ f. (first_fault (map gathered_stream sources.items) ≡ Some f) ⊎ (f ≡ fault.Memory)) }
{
    let mut batches = Vec::with_capacity(alloc, sources.len())?;
    for source in sources {
        if let Some(fault) = source.fault {
            return Err(fault);
        }
        batches.push(source.batch)?;
    }
    Ok(batches)
}
