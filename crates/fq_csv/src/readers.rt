//! The records of a file, one after another.
ghost use Rattle.std.specs.Prelude.{◌≡◌, IfErr, IfOk, true, List, MatchBool, OnOk, Some, [], ◌∷◌, ℕ};
ghost use Rattle.csv.specs.Reading.{default_config, error_kind, records, stops_reader, strip_bom};
ghost use Rattle.csv.specs.Records.{fields_of};
ghost use Rattle.fq_csv.specs.File.{Record};
ghost use Rattle.fq_csv.specs.Readers.{HasLeft, IsPlain, TextHasLeft};

use crate::cutting::pieces::Pieces;
use crate::cutting::retrying::Retrying;
use csv::{ByteRecord, Error, Reader, ReaderBuilder};
use fq_column::Memory;
use std::alloc::Global;
use std::io::{Chain, Read};

/// A reader of the records of a file, of any width. The header is the first of them. A read that a signal interrupts is tried again.
#[derive(Drop)]
pub struct RecordReader<R> {
    reader: Reader<Retrying<R>>,
}

impl<R: Read> RecordReader<R> {
    /// A reader of the records of these bytes, without a byte order mark.
    ///
    /// It costs some 100,000 instructions for its tables.
    pub fn new(alloc: Global, bytes: R) -> RecordReader<R>
        ensures plain { IsPlain result }
        ensures left { (all : List ℕ) → R.remaining bytes ≡ Some all → HasLeft R.remaining result (records default_config (strip_bom all)) }
    {
        let reader = ReaderBuilder::new()
            .has_headers(false)
            .flexible(true)
            .from_reader(alloc, Retrying { reader: bytes });
        RecordReader { reader }
    }

    /// Reads the next record, and says whether there was one. Fails as `csv` does: if a read fails (`Io`), or an allocation does
    /// (`OutOfMemory`); it is not to be read from after that.
    pub fn read(&mut self, row: &mut ByteRecord) -> Result<bool, Error>
        requires { IsPlain self.old }
        ensures plain { OnOk result (IsPlain self.new) }
        ensures stops { IfErr result (λ e. stops_reader (error_kind e) ≡ true) }
        ensures reads { IfOk result (λ found. (rs : List Record) → HasLeft R.remaining self.old rs →
            MatchBool found ((rest : List Record) × (rs ≡ fields_of row.new ∷ rest) × HasLeft R.remaining self.new rest) (rs ≡ [])) }
    {
        let found = self.reader.read_byte_record(row)?;
        Ok(found)
    }
}

/// What a reader of a text reads: a line feed, and then the text.
///
/// A reader takes a byte order mark off the start of what it reads, and the first bytes of a text's first field may be one. An empty line
/// is no record.
pub(crate) type TextSource = Chain<&'static [u8], Pieces>;

/// A reader of the records of a text. `Memory` if an allocation failed.
///
/// It costs some 100,000 instructions for its tables, and each run of a scan has its own: a worker shares its work with the others by
/// reference, so it cannot keep one, and a reader cannot be given another text.
///
/// It is given an empty header: without one, `csv` keeps two copies of the first record, which may be long.
pub(crate) fn read_text(alloc: Global, text: Pieces) -> Result<RecordReader<TextSource>, Memory>
    ensures plain { IfOk result IsPlain }
    ensures left { IfOk result (λ reader. TextHasLeft reader (records default_config text)) }
{
    let source = b"\n".as_slice().chain(text);
    let mut reader = ReaderBuilder::new()
        .flexible(true)
        .from_reader(alloc, Retrying { reader: source });
    match reader.set_byte_headers(ByteRecord::new(alloc)) {
        Ok(()) => Ok(RecordReader { reader }),
        Err(_) => Err(Memory),
    }
}

/// Reads the next record of a text, and says whether there was one. `Memory` if an allocation failed; no read of a text fails otherwise.
pub(crate) fn next_record(
    reader: &mut RecordReader<TextSource>,
    row: &mut ByteRecord,
) -> Result<bool, Memory>
    requires { IsPlain reader.old }
    ensures plain { OnOk result (IsPlain reader.new) }
    ensures reads { IfOk result (λ found. (rs : List Record) → TextHasLeft reader.old rs →
        MatchBool found ((rest : List Record) × (rs ≡ fields_of row.new ∷ rest) × TextHasLeft reader.new rest) (rs ≡ [])) }
{
    match reader.read(row) {
        Ok(found) => Ok(found),
        Err(_) => Err(Memory),
    }
}
