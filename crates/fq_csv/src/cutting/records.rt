//! The records of a file.
ghost use Rattle.std.specs.Prelude.{◌≡◌, false, IfOk, IfErr, OnOk, option_map};
ghost use Rattle.csv.specs.Reading.{default_config, records as records_of, strip_bom};
ghost use Rattle.fq_csv.specs.Records.{StopsBy, Takes};

use crate::cutting::buffers::Buffer;
use crate::cutting::pieces::Pieces;
use crate::faults::ScanFault;
use std::alloc::Global;
use std::io::Read;
use std::marker::Model;

/// The records of a file, taken as texts of some of them. A read that is interrupted is tried again.
#[derive(Drop)]
pub(crate) struct Records<R: Read> {
    buffer: Buffer<R>,
}

impl<R: Read> Model for Records<R> {
    ghost use Rattle.fq_csv.specs.Buffer.{IsSound};
    ghost use Rattle.fq_csv.specs.Records.{Unread, upcoming_of};

    ghost Value = { Unread };

    ghost view = { λ a. record { file = a.buffer.file; upcoming = upcoming_of R.remaining a.buffer; stopped = a.buffer.has_failed } };

    ghost invariant = { λ a. IsSound R.remaining a.buffer };
}

impl<R: Read> Records<R> {
    /// The records of what a reader gives.
    pub(crate) fn new(alloc: Global, reader: R, file: u16) -> Records<R>
        ensures file { result.file ≡ file }
        ensures fresh { result.stopped ≡ false }
        ensures records { result.upcoming ≡ option_map (λ bytes. records_of default_config (strip_bom bytes)) (R.remaining reader) }
    {
        Records {
            buffer: Buffer::new(alloc, reader, file),
        }
    }

    /// The file's number.
    pub(crate) fn file(&self) -> u16
        ensures { result ≡ self.now.file }
    {
        self.buffer.file
    }

    /// Takes the next records, up to so many: their text, and how many they are.
    pub(crate) fn take(&mut self, alloc: Global, wanted: u32) -> Result<(Pieces, u32), ScanFault>
        ensures file { self.new.file ≡ self.old.file }
        ensures goes_on { OnOk result (self.new.stopped ≡ self.old.stopped) }
        ensures failed { IfErr result (StopsBy self.old.file self.new.stopped) }
        ensures taken { IfOk result (λ r. Takes self.old wanted r.0 r.1 self.new) }
    {
        self.buffer.take(alloc, wanted)
    }
}
