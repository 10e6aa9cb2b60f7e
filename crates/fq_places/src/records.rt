//! The records of a file.
ghost use Rattle.std.specs.Prelude.{◌≡◌, ℕ, List, Some, IfOk, option_map, slice_get};
ghost use Rattle.csv.specs.Reading.{default_config, records, strip_bom};
ghost use Rattle.csv.specs.Records.{fields_of};

use csv::{ByteRecord, Error};
use fq_csv::RecordReader;
use std::alloc::Global;
use std::io::Read;

/// The record of this number, from 0, or `None` if the file has no such record.
///
/// The header is record 0, so a row's number is that of its record. Fails as `csv` does: if a read fails (`Io`), or an allocation does
/// (`OutOfMemory`). It holds one record of the file at a time.
pub fn record_at<R: Read + Drop>(
    alloc: Global,
    reader: R,
    number: u64,
) -> Result<Option<ByteRecord>, Error>
    ensures { IfOk result (λ found. (bytes : List ℕ) → R.remaining reader ≡ Some bytes → option_map fields_of found ≡ slice_get (records default_config (strip_bom bytes)) number) }
{
    let mut reader = RecordReader::new(alloc, reader);
    let mut row = ByteRecord::new(alloc);
    for _ in 0..number {
        if !reader.read(&mut row)? {
            return Ok(None);
        }
    }
    if !reader.read(&mut row)? {
        return Ok(None);
    }
    Ok(Some(row))
}
