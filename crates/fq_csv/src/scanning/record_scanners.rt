//! Scanners of records: the records of a file, handed out in runs.
ghost use Rattle.std.specs.Prelude.{◌≡◌, ◌≤◌, Option, Some, None, false, IfOk, IsOk, option_map};
ghost use Rattle.fq_csv.specs.RecordScan.{HandsOutRun, HasRunForm, last_run};
ghost use Rattle.fq_csv.specs.Taking.{RecordStream, record_stream};
ghost use Rattle.fq_csv.specs.declared.faults.ScanFault.{ScanFault};

use crate::cells::layouts::Layout;
use crate::cutting::records::Records;
use crate::faults::ScanFault;
use crate::scanning::runs::RecordRun;
use crate::scanning::scanners::{MAX_BATCH_SIZE, MAX_ROWS};
use crate::scanning::spans::Span;
use crate::scanning::stages::Stage;
use crate::scanning::steps::next_records;
use fq_column::Memory;
use std::alloc::Global;
use std::io::Read;
use std::marker::Model;

/// A scan of a file that hands out its records in runs, as text.
///
/// It judges the header and how many records there are, and only finds where records end. [`RecordRun::into_batch`] reads them, in
/// whatever thread, and judges the rest: how many fields a record has, and what they are.
#[derive(Drop)]
pub struct RecordScanner<R: Read> {
    alloc: Global,
    records: Records<R>,
    layout: Layout,
    span: Span,
    stage: Stage,
}

impl<R: Read> Model for RecordScanner<R> {
    ghost use Rattle.std.specs.Prelude.{◌≡◌, ◌-◌};
    ghost use Rattle.fq_csv.specs.RecordScan.{RecordScanning, records_left_at};
    ghost use Rattle.fq_csv.specs.Stage.{ending_of};
    ghost use Rattle.fq_csv.specs.declared.scanning.stages.Stage.TheVariants.{Header};

    ghost Value = { RecordScanning };

    ghost view = { λ a. record {
      file = a.records.file;
      layout = a.layout;
      run_size = a.span.size;
      taken = a.span.from;
      room = a.span.limit - a.span.from;
      upcoming = records_left_at a.layout.schema a.span.limit a.stage a.records a.span.from;
      ending = ending_of a.stage;
      stopped = a.records.stopped;
    } };

    ghost invariant = { λ a. a.stage ≡ Header → a.span.from ≡ 0 };
}

impl<R: Read> RecordScanner<R> {
    /// A scan of the file number `file`, whose bytes a reader gives, in runs of `run_size` records, from 1 to
    /// [`MAX_BATCH_SIZE`].
    ///
    /// The first record must be the names of the layout's schema. More rows than `limit`, at most [`MAX_ROWS`], are a
    /// fault. The reader's bytes are buffered here. Nothing is read yet, and nothing is allocated, so there is always a scanner.
    pub fn new(
        alloc: Global,
        reader: R,
        file: u16,
        layout: Layout,
        run_size: u32,
        limit: u32,
    ) -> Result<RecordScanner<R>, Memory>
    where
        R: Drop,
        requires some { 1 ≤ run_size }
        requires not_too_many { run_size ≤ MAX_BATCH_SIZE }
        requires limit { limit ≤ MAX_ROWS }
        ensures succeeds { IsOk result }
        ensures scanner { IfOk result (λ s. s ≡ record {
          file = file;
          layout = layout;
          run_size = run_size;
          taken = 0;
          room = limit;
          upcoming = option_map (record_stream file layout.schema limit) (R.remaining reader);
          ending = None;
          stopped = false;
        }) }
    {
        let records = Records::new(alloc, reader, file);
        Ok(RecordScanner {
            alloc,
            records,
            layout,
            span: Span {
                from: 0,
                limit,
                size: run_size,
            },
            stage: Stage::Header,
        })
    }

    /// The file's number.
    pub fn file(&self) -> u16
        ensures { result ≡ self.now.file }
    {
        self.records.file()
    }

    /// The layout of the file.
    pub fn layout(&self) -> &Layout
        ensures { result.now ≡ self.now.layout }
    {
        &self.layout
    }

    /// The next records of the file; `None` at its end.
    ///
    /// Each run but the last has `run_size` records, and none is empty. Before `TooLong` the records up to the limit are handed
    /// out; at `Header` there are none. At `Read`, if the reader failed, and at `Memory`, if an allocation failed, those
    /// that were read since the last run are dropped. Once the end was answered, each further call answers that same end.
    /// A run allocates; a single record or field does not.
    pub fn next_run(&mut self) -> Result<Option<RecordRun>, ScanFault>
        ensures form { HasRunForm self.old result self.new }
        ensures stream { (u : RecordStream) → self.old.upcoming ≡ Some u → HandsOutRun self.old.file self.old.run_size u result self.new.upcoming }
        ensures ended { (fault : Option ScanFault) → self.old.ending ≡ Some fault → (result ≡ last_run fault) × (self.new ≡ self.old) }
    {
        let step = next_records(
            self.alloc,
            &mut self.records,
            &self.layout,
            self.span,
            self.stage,
        );
        self.stage = step.stage;
        if let Some(run) = step.run {
            self.span.from += run.len();
            return Ok(Some(run));
        }
        match step.stage.fault() {
            None => Ok(None),
            Some(fault) => Err(fault),
        }
    }
}
