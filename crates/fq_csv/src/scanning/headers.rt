//! The header of a file.
ghost use Rattle.std.specs.Prelude.{◌≡◌, ◌∷◌, [], IfErr, IfOk, OnOk, length};
ghost use Rattle.std.specs.Cmp.Lexicographic.{pointwise};
ghost use Rattle.csv.specs.Reading.{default_config, records as records_of};
ghost use Rattle.csv.specs.Records.{fields_of};
ghost use Rattle.fq_column.specs.Frame.{names_of, same_name};
ghost use Rattle.fq_csv.specs.File.{Record};
ghost use Rattle.fq_csv.specs.RecordScan.{Opens, OpensBy};
ghost use Rattle.fq_csv.specs.Records.{StopsBy};

use crate::cutting::pieces::Pieces;
use crate::cutting::records::Records;
use crate::faults::ScanFault;
use crate::readers::{next_record, read_text};
use crate::scanning::stages::Stage;
use csv::ByteRecord;
use fq_column::{Memory, Schema};
use std::alloc::Global;
use std::io::Read;

/// Reads a file's first record, which is to be the schema's names.
pub(crate) fn read_header<R: Read>(
    alloc: Global,
    records: &mut Records<R>,
    schema: &Schema,
) -> Stage
    ensures file { records.new.file ≡ records.old.file }
    ensures goes_on { result ≡ Stage.Rows → records.new.stopped ≡ records.old.stopped }
    ensures opens { Opens schema.now records.old records.new result }
{
    let file = records.file();
    match find_header(alloc, records, schema) {
        Ok(true) => Stage::Rows,
        Ok(false) => Stage::Closed(Some(ScanFault::Header { file })),
        Err(fault) => Stage::Failed(fault),
    }
}

// Whether a file's first record is the schema's names.
fn find_header<R: Read>(
    alloc: Global,
    records: &mut Records<R>,
    schema: &Schema,
) -> Result<bool, ScanFault>
    ensures file { records.new.file ≡ records.old.file }
    ensures goes_on { OnOk result (records.new.stopped ≡ records.old.stopped) }
    ensures failed { IfErr result (StopsBy records.old.file records.new.stopped) }
    ensures opens { IfOk result (OpensBy schema.now records.old records.new) }
{
    let (text, count) = records.take(alloc, 1)?;
    if count == 0 {
        return Ok(false);
    }
    Ok(is_header(alloc, schema, text)?)
}

// Whether the fields of a text's one record are the schema's names, in their order.
fn is_header(alloc: Global, schema: &Schema, text: Pieces) -> Result<bool, Memory>
    requires { length (records_of default_config text) ≡ 1 }
    ensures { IfOk result (λ is. (r : Record) → records_of default_config text ≡ r ∷ [] → is ≡ pointwise same_name (names_of schema.now) r) }
{
    let mut reader = read_text(alloc, text)?;
    let mut row = ByteRecord::new(alloc);
    if !next_record(&mut reader, &mut row)? {
        unreachable!()
    }
    Ok(has_names(schema, &row))
}

// Whether a record's fields are the schema's names, in their order.
fn has_names(schema: &Schema, row: &ByteRecord) -> bool
    ensures { result ≡ pointwise same_name (names_of schema.now) (fields_of row.now) }
{
    if row.len() != schema.len() {
        return false;
    }
    for i in 0..schema.len() {
        let Some(field) = row.get(i) else {
            unreachable!()
        };
        if field != schema.name(i).as_bytes() {
            return false;
        }
    }
    true
}
