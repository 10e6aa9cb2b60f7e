//! Batches as CSV text.
ghost use Rattle.std.specs.Prelude.{◌≡◌, ◌<◌, ◌^◌, [], slice_index_or, length, IfOk, OnOk, Some};
ghost use Rattle.std.specs.Io.KnownBytes.{Appends};
ghost use Rattle.csv.specs.Writing.{default_writer, fields_written, has_written, tail_text, text_written, writer_setup};
ghost use Rattle.fq_column.specs.Frame.{IsFrame, names_of, value_at};
ghost use Rattle.fq_notation.specs.Notation.{int_text};
ghost use Rattle.fq_csv.specs.Printed.{cell_text, printed_in, printed_names, printed_rows_in, row_fields};
ghost use Rattle.fq_csv.specs.Writing.{IsBetween, PutsField, PutsRecord, held};

use csv::{Writer, WriterBuilder};
use fq_column::{Batch, Column, Memory, Schema, Values};
use fq_notation::{Notation, Notations};
use itoa::Buffer;
use std::alloc::Global;

/// The CSV text of a batch: the names of its columns, and then its rows, with the ints of each column in its notation.
///
/// `Memory` if the text cannot grow.
pub fn print_frame(alloc: Global, batch: &Batch, notations: &Notations) -> Result<Vec<u8>, Memory>
    ensures { IfOk result (λ text. text.items ≡ printed_in notations.now batch.now) }
{
    let mut writer = text_writer(alloc);
    put_names(&mut writer, batch.schema())?;
    put_rows(&mut writer, batch, notations)?;
    text_of(writer)
}

/// The CSV text of the names of columns, the first line of each frame of them.
///
/// `Memory` if the text cannot grow.
pub fn print_names(alloc: Global, schema: &Schema) -> Result<Vec<u8>, Memory>
    ensures { IfOk result (λ text. text.items ≡ printed_names schema.now) }
{
    let mut writer = text_writer(alloc);
    put_names(&mut writer, schema)?;
    text_of(writer)
}

/// The CSV text of the rows of a batch, without the names of its columns, with the ints of each column in its notation.
///
/// `Memory` if the text cannot grow.
pub fn print_rows(alloc: Global, batch: &Batch, notations: &Notations) -> Result<Vec<u8>, Memory>
    ensures { IfOk result (λ text. text.items ≡ printed_rows_in notations.now batch.now.rows) }
{
    let mut writer = text_writer(alloc);
    put_rows(&mut writer, batch, notations)?;
    text_of(writer)
}

// A writer of records into memory, with the defaults of the `csv` crate: commas, quotes where a field needs them, and line feeds.
fn text_writer(alloc: Global) -> Writer<Vec<u8>>
    ensures between { IsBetween result }
    ensures empty { text_written held result ≡ Some [] }
{
    WriterBuilder::new().from_writer(Vec::new(alloc))
}

// The text of all records that were written.
fn text_of(writer: Writer<Vec<u8>>) -> Result<Vec<u8>, Memory>
    ensures { IfOk result (λ text. text_written held writer ≡ Some text.items) }
{
    match writer.into_inner() {
        Ok(text) => Ok(text),
        Err(_) => Err(Memory),
    }
}

// Writes the names of a schema as a record.
fn put_names(writer: &mut Writer<Vec<u8>>, schema: &Schema) -> Result<(), Memory>
    requires { IsBetween writer.old }
    ensures { OnOk result (PutsRecord held writer.old writer.new (names_of schema.now)) }
{
    for i in 0..schema.len() {
        put_field(writer, schema.name(i).as_bytes())?;
    }
    end_record(writer)
}

// Writes the rows of a batch as records.
fn put_rows(
    writer: &mut Writer<Vec<u8>>,
    batch: &Batch,
    notations: &Notations,
) -> Result<(), Memory>
    requires { IsBetween writer.old }
    ensures { OnOk result (Appends (text_written held writer.old) (text_written held writer.new) (printed_rows_in notations.now batch.now.rows)) }
{
    for row in 0..batch.rows() {
        put_row(writer, batch, row, notations)?;
    }
    Ok(())
}

// Writes a row of a batch as a record.
fn put_row(
    writer: &mut Writer<Vec<u8>>,
    batch: &Batch,
    row: usize,
    notations: &Notations,
) -> Result<(), Memory>
    requires between { IsBetween writer.old }
    requires frame { IsFrame batch.now }
    requires in_range { row < length batch.now.rows }
    ensures { OnOk result (PutsRecord held writer.old writer.new (row_fields notations.now (slice_index_or batch.now.rows row []))) }
{
    for i in 0..batch.schema().len() {
        put_cell(writer, batch.column(i), row, notations.of(i))?;
    }
    end_record(writer)
}

// Writes a cell of a column as a field.
fn put_cell(
    writer: &mut Writer<Vec<u8>>,
    column: &Column,
    row: usize,
    notation: Notation,
) -> Result<(), Memory>
    requires setup { writer_setup writer.old ≡ default_writer }
    requires few { fields_written writer.old < 2 ^ 63 }
    requires in_range { row < length column.now.cells }
    ensures { OnOk result (PutsField held writer.old writer.new (cell_text notation (value_at row column.now.cells))) }
{
    match column.values() {
        Values::Whole(array) => match array.get(row) {
            Some(value) => put_int(writer, *value, notation),
            None => put_field(writer, b""),
        },
        Values::Text(array) => match array.get(row) {
            Some(text) => put_field(writer, text.as_str().as_bytes()),
            None => put_field(writer, b""),
        },
        Values::Truth(array) => match array.get(row) {
            Some(true) => put_field(writer, b"true"),
            Some(false) => put_field(writer, b"false"),
            None => put_field(writer, b""),
        },
    }
}

// Writes an int as a field.
fn put_int(writer: &mut Writer<Vec<u8>>, value: i64, notation: Notation) -> Result<(), Memory>
    requires setup { writer_setup writer.old ≡ default_writer }
    requires few { fields_written writer.old < 2 ^ 63 }
    ensures { OnOk result (PutsField held writer.old writer.new (int_text notation value)) }
{
    match notation {
        // digits go to the writer as they are, without a copy
        Notation::Plain => put_field(writer, Buffer::new().format(value).as_bytes()),
        Notation::Decimal(_) | Notation::Date => put_field(writer, notation.text(value).as_slice()),
    }
}

// Writes one field of a record.
fn put_field(writer: &mut Writer<Vec<u8>>, field: &[u8]) -> Result<(), Memory>
    requires setup { writer_setup writer.old ≡ default_writer }
    requires few { fields_written writer.old < 2 ^ 63 }
    ensures { OnOk result (PutsField held writer.old writer.new field.now) }
{
    match writer.write_field(field) {
        Ok(()) => Ok(()),
        Err(_) => Err(Memory),
    }
}

// Ends a record.
fn end_record(writer: &mut Writer<Vec<u8>>) -> Result<(), Memory>
    requires { writer_setup writer.old ≡ default_writer }
    ensures between { OnOk result (IsBetween writer.new) }
    ensures text { OnOk result (Appends (text_written held writer.old) (text_written held writer.new) (tail_text default_writer (has_written writer.old) (fields_written writer.old))) }
{
    match writer.end_record() {
        Ok(()) => Ok(()),
        Err(_) => Err(Memory),
    }
}
