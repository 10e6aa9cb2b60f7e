//! The work on the items of files: the rows of a run, and the leading row-wise steps on those of the main source.
ghost use Rattle.std.specs.Prelude.{◌≡◌, IfOk};
ghost use Rattle.fq_run.specs.Working.{piece_of, work_on};

use crate::file_feeds::FileItem;
use fq_column::Batch;
use fq_csv::{RecordRun, ScanFault};
use fq_expr::{Front, Piece};
use fq_lanes::{Memory, Work};
use std::alloc::Global;

/// A worker's answer.
#[derive(Debug, Drop)]
pub enum Worked {
    /// A batch of the main source after the leading row-wise steps, or one of another source as it is.
    Piece(Piece),
    /// Such a batch of the rows before a record that is not a row, and that record's fault, which ends the file if no step has
    /// faulted before it.
    Cut(Piece, ScanFault),
    /// Why a file's records ended before the file did; the last item of the file.
    Ended(ScanFault),
}

/// The rows of a run of records, and the leading row-wise steps of a plan on those of the main source.
#[derive(Drop)]
pub(crate) struct LeadingSteps {
    pub(crate) alloc: Global,
    pub(crate) front: Front,
    /// How many files are of the sources before the main one; their batches are left as they are.
    pub(crate) side_files: u16,
}

impl Work for LeadingSteps {
    type Item = FileItem;

    type Out = Worked;

    ghost gives = { λ s file item out. out ≡ work_on s.front s.side_files file item };

    fn work(&self, file: u16, item: FileItem) -> Result<Worked, Memory> {
        match item {
            FileItem::Ended(fault) => Ok(Worked::Ended(fault)),
            FileItem::Run(run) => self.work_on(file, run),
        }
    }
}

impl LeadingSteps {
    // The rows of a run after the steps, and the fault of the file that ends them.
    fn work_on(&self, file: u16, run: RecordRun) -> Result<Worked, Memory>
        ensures { IfOk result (λ out. out ≡ work_on self.now.front self.now.side_files file (FileItem.Run run)) }
    {
        let Ok(rows) = run.into_batch(self.alloc) else {
            return Err(Memory);
        };
        let piece = self.step(file, rows.batch)?;
        match rows.fault {
            None => Ok(Worked::Piece(piece)),
            Some(fault) => Ok(Worked::Cut(piece, fault)),
        }
    }

    // A batch after the steps; one of a source before the main one, or of other columns, is left as it is. No batch of the main source has
    // other columns, but that is known only once the feeds' threads are joined.
    fn step(&self, file: u16, batch: Batch) -> Result<Piece, Memory>
        ensures { IfOk result (λ p. p ≡ piece_of self.now.front self.now.side_files file batch) }
    {
        if file < self.side_files || batch.schema() != self.front.schema() {
            return Ok(Piece { batch, fault: None });
        }
        match self.front.apply(self.alloc, batch) {
            Ok(piece) => Ok(piece),
            Err(_) => Err(Memory),
        }
    }
}
