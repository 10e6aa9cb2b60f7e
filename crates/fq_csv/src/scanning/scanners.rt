//! Scanners: the rows of a file, handed out in batches.
ghost use Rattle.std.specs.Prelude.{◌≡◌, ◌≤◌, ◌<◌, ◌⊎◌, Option, Some, None, [], false, length, IfOk, IfErr, IsOk, option_map};
ghost use Rattle.fq_column.specs.Stream.{Stream};
ghost use Rattle.fq_csv.specs.File.{file_stream};
ghost use Rattle.fq_csv.specs.Scan.{HandsOut, HasForm};
ghost use Rattle.fq_csv.specs.Taking.{HasNoRow, ReadsRun};
ghost use Rattle.fq_csv.specs.declared.faults.ScanFault.{ScanFault as AnyFault};
ghost use Rattle.fq_csv.specs.declared.faults.ScanFault.TheVariants as fault;

use crate::cells::layouts::{Layout, NullValues};
use crate::cells::projections::Projection;
use crate::faults::ScanFault;
use crate::scanning::record_scanners::RecordScanner;
use crate::scanning::runs::RecordRun;
use crate::scanning::scans::Scan;
use fq_column::{Memory, Piece, Schema};
use fq_notation::Notations;
use std::alloc::Global;
use std::io::Read;
use std::marker::Model;

/// The most rows of a batch.
pub const MAX_BATCH_SIZE: u32 = 65_536;

/// The most rows that a file may have in a run.
pub const MAX_ROWS: u32 = 2_147_483_647;

/// A scan of a file: its records in runs, each made a batch of at once.
#[derive(Drop)]
pub struct Scanner<R: Read> {
    alloc: Global,
    records: RecordScanner<R>,
    serial: u32,
    rows: u32,
    // why the rows ended before the records did: a field that is not a cell, or a failed allocation
    fault: Option<ScanFault>,
}

impl<R: Read> Model for Scanner<R> {
    ghost use Rattle.std.specs.Prelude.{◌≡◌, ◌≤◌, ◌+◌, ◌-◌, None};
    ghost use Rattle.fq_csv.specs.Scan.{Scanning, batches_left, rows_ending};

    ghost Value = { Scanning };

    ghost view = { λ a. record {
      file = a.records.file;
      layout = a.records.layout;
      batch_size = a.records.run_size;
      serial = a.serial;
      room = a.records.taken + a.records.room - a.rows;
      upcoming = batches_left a.fault a.records;
      ending = rows_ending a.fault a.records.ending;
      stopped = a.records.stopped;
    } };

    ghost invariant = { λ a. (a.serial ≤ a.rows) × ((a.rows ≤ a.records.taken) × (a.fault ≡ None → a.rows ≡ a.records.taken)) };
}

impl<R: Read> Scanner<R> {
    /// A scan of the file number `file`, whose bytes a reader gives, in batches of `batch_size` rows, from 1 to [`MAX_BATCH_SIZE`].
    ///
    /// The first record must be the schema's names. In each later one a field that is one of `nulls`, byte for byte, is null,
    /// whatever the kind of its column; so is an empty one. All columns are kept, and ints are in digits. More rows than `limit`, at
    /// most [`MAX_ROWS`], are a fault. The reader's bytes are buffered here. Nothing is read yet, and nothing is allocated, so there is
    /// always a scanner.
    pub fn new(
        alloc: Global,
        reader: R,
        file: u16,
        schema: Schema,
        nulls: NullValues,
        batch_size: u32,
        limit: u32,
    ) -> Result<Scanner<R>, Memory>
    where
        R: Drop,
        requires some { 1 ≤ batch_size }
        requires not_too_many { batch_size ≤ MAX_BATCH_SIZE }
        requires limit { limit ≤ MAX_ROWS }
        ensures succeeds { IsOk result }
        ensures scanner { IfOk result (λ s. s ≡ record {
          file = file;
          layout = record { schema = schema; nulls = nulls; notations = []; projection = [] };
          batch_size = batch_size;
          serial = 0;
          room = limit;
          upcoming = option_map (file_stream file (record { schema = schema; nulls = nulls; notations = []; projection = [] }) limit) (R.remaining reader);
          ending = None;
          stopped = false;
        }) }
    {
        let layout = Layout {
            schema,
            nulls,
            notations: Notations::plain(alloc),
            projection: Projection::all(alloc),
        };
        let records = RecordScanner::new(alloc, reader, file, layout, batch_size, limit)?;
        Ok(Scanner {
            alloc,
            records,
            serial: 0,
            rows: 0,
            fault: None,
        })
    }

    /// The schema of the file.
    pub fn schema(&self) -> &Schema
        ensures { result.now ≡ self.now.layout.schema }
    {
        &self.records.layout().schema
    }

    /// The next rows of the file, or its end.
    ///
    /// Each batch but the last has `batch_size` rows, and none is empty. The rows before a row that cannot be read are
    /// handed out; if the reader or an allocation fails, the rows that were read since the last batch are dropped. Once
    /// the end was handed out, each further call hands out that same end. A batch allocates for its columns and its
    /// records; a single record, or a cell that is not a text of more than 24 bytes, does not.
    pub fn next_batch(&mut self) -> Scan
        ensures form { HasForm self.old result self.new }
        ensures stream { (u : Stream AnyFault) → self.old.upcoming ≡ Some u → HandsOut self.old.file self.old.batch_size u result self.new.upcoming }
        ensures ended { (f : Option AnyFault) → self.old.ending ≡ Some f → (result ≡ Scan.End self.old.file self.old.serial f) × (self.new ≡ self.old) }
    {
        let file = self.records.file();
        let serial = self.serial;
        if let Some(fault) = self.fault {
            return end_of(file, serial, Some(fault));
        }
        match self.records.next_run() {
            Ok(Some(run)) => match rows_of(self.alloc, run) {
                Ok(piece) => {
                    self.serial = serial + 1;
                    self.rows += piece.batch.rows() as u32;
                    self.fault = piece.fault;
                    Scan::Batch {
                        file,
                        serial,
                        batch: piece.batch,
                    }
                }
                Err(fault) => {
                    self.fault = Some(fault);
                    end_of(file, serial, Some(fault))
                }
            },
            Ok(None) => end_of(file, serial, None),
            Err(fault) => end_of(file, serial, Some(fault)),
        }
    }
}

// The end of a file after so many batches.
fn end_of(file: u16, batches: u32, fault: Option<ScanFault>) -> Scan
    ensures { result ≡ Scan.End file batches fault }
{
    Scan::End {
        file,
        batches,
        fault,
    }
}

// The rows of a run, at least one, and the fault that ends them. Answers that fault if there are none, and `Memory` if an
// allocation failed.
fn rows_of(alloc: Global, run: RecordRun) -> Result<Piece<ScanFault>, ScanFault>
    requires { 0 < length run.records }
    ensures rows { IfOk result (λ p. ReadsRun run p.batch p.fault × (0 < length p.batch.rows)) }
    ensures none { IfErr result (λ f. HasNoRow run f ⊎ (f ≡ fault.Memory)) }
{
    let piece = run.into_batch(alloc)?;
    if piece.batch.rows() > 0 {
        return Ok(piece);
    }
    match piece.fault {
        Some(fault) => Err(fault),
        None => unreachable!(),
    }
}
