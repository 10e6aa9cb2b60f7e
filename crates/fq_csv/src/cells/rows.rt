//! The rows that the records of a text are.
ghost use Rattle.std.specs.Prelude.{◌≡◌, ◌<◌, ◌≤◌, All, IfNone, IfOk, IfSome, Ok, [], length, true};
ghost use Rattle.std.specs.List.{list_all};
ghost use Rattle.csv.specs.Reading.{default_config, records};
ghost use Rattle.csv.specs.Records.{fields_of};
ghost use Rattle.fq_column.specs.Column.{Cells};
ghost use Rattle.fq_column.specs.Frame.{Row, kinds_of};
ghost use Rattle.fq_column.specs.Masked.{masked};
ghost use Rattle.fq_csv.specs.Readings.{AreReadings, is_plain};
ghost use Rattle.fq_csv.specs.Rows.{Holds, kinds_in, row_by_kinds, with_row};
ghost use Rattle.fq_csv.specs.TextRows.{HoldsRowsOf, IsNoRow};

use crate::cells::fields::push_field;
use crate::cells::layouts::Layout;
use crate::cells::readings::Reading;
use crate::cutting::pieces::Pieces;
use crate::readers::{next_record, read_text};
use csv::ByteRecord;
use fq_column::{Column, Kind, MAX_COLUMNS, Memory, cut_columns};
use std::alloc::Global;

/// Why a record is not a row.
#[derive(Clone, Copy)]
pub(crate) enum NoRow {
    /// It has more or fewer fields than there are columns.
    Width,
    /// A field is not a cell of its column, whose number this is.
    BadCell(u16),
}

// Adds the cells that a record's fields are to columns of `height` cells, one to each; null to a column that is not kept.
//
// If the record is not a row, the columns are as before. If some columns are of texts, one look at the whole record as a rule spares a
// look at each of its fields. `IS_PLAIN` says that all columns are kept and their ints in digits, so that a field pays nothing for others.
fn push_record<const IS_PLAIN: bool>(
    columns: &mut [Column],
    has_texts: bool,
    row: &ByteRecord,
    height: u32,
    layout: &Layout,
    readings: &[Reading],
) -> Result<Option<NoRow>, Memory>
    requires few { length columns.old ≤ MAX_COLUMNS }
    requires readings { AreReadings (kinds_in columns.old) layout.now readings.now }
    requires plain { IS_PLAIN ≡ true → list_all is_plain readings.now ≡ true }
    requires height { All (λ (c : Cells). length c.cells ≡ height) columns.old }
    ensures row { IfOk result (λ why. IfNone why ((cells : Row) × (length (fields_of row.now) ≡ length columns.old)
        × (row_by_kinds layout.now.nulls layout.now.notations (kinds_in columns.old) (fields_of row.now) ≡ Ok cells)
        × (columns.new ≡ with_row columns.old (masked layout.now.projection cells)) × (length cells ≡ length columns.old))) }
    ensures none { IfOk result (λ why. IfSome why (λ w. IsNoRow layout.now columns.old (fields_of row.now) w × (columns.new ≡ columns.old))) }
{
    if row.len() != columns.len() {
        return Ok(Some(NoRow::Width));
    }
    let is_ascii = has_texts && row.as_slice().is_ascii();
    for i in 0..columns.len() {
        let Some(field) = row.get(i) else {
            unreachable!()
        };
        if !push_field::<IS_PLAIN>(
            &mut columns[i],
            &readings[i],
            field,
            is_ascii,
            &layout.nulls,
        )? {
            cut_columns(columns, height as usize);
            return Ok(Some(NoRow::BadCell(i as u16)));
        }
    }
    Ok(None)
}

/// Adds the rows that the `count` records of a text are to empty columns.
///
/// At the first record that is not a row, the rows before it are in the columns, and the record's number, from 0, and why it is none
/// are the answer.
pub(crate) fn push_records(
    alloc: Global,
    columns: &mut [Column],
    text: Pieces,
    count: u32,
    layout: &Layout,
) -> Result<Option<(u32, NoRow)>, Memory>
    requires few { length columns.old ≤ MAX_COLUMNS }
    requires empty { Holds (kinds_of layout.now.schema) columns.old [] }
    requires count { length (records default_config text) ≡ count }
    ensures { IfOk result (λ bad. HoldsRowsOf layout.now (records default_config text) columns.new bad) }
{
    let readings = layout.readings();
    let readings = readings.as_slice();
    if are_plain(readings) {
        push_all::<true>(alloc, columns, text, count, layout, readings)
    } else {
        push_all::<false>(alloc, columns, text, count, layout, readings)
    }
}

// Whether all columns are kept, and their ints in digits.
fn are_plain(readings: &[Reading]) -> bool
    ensures { result ≡ list_all is_plain readings.now }
{
    readings.iter().all(|reading| reading.is_plain())
}

// The same, with the readings of the columns.
fn push_all<const IS_PLAIN: bool>(
    alloc: Global,
    columns: &mut [Column],
    text: Pieces,
    count: u32,
    layout: &Layout,
    readings: &[Reading],
) -> Result<Option<(u32, NoRow)>, Memory>
    requires few { length columns.old ≤ MAX_COLUMNS }
    requires empty { Holds (kinds_of layout.now.schema) columns.old [] }
    requires count { length (records default_config text) ≡ count }
    requires readings { AreReadings (kinds_of layout.now.schema) layout.now readings.now }
    requires plain { IS_PLAIN ≡ true → list_all is_plain readings.now ≡ true }
    ensures { IfOk result (λ bad. HoldsRowsOf layout.now (records default_config text) columns.new bad) }
{
    let has_texts = columns.iter().any(|column| column.kind() == Kind::Text);
    let mut reader = read_text(alloc, text)?;
    let mut fields = ByteRecord::new(alloc);
    for row in 0..count {
        if !next_record(&mut reader, &mut fields)? {
            unreachable!()
        }
        if let Some(why) = push_record::<IS_PLAIN>(
            columns, has_texts, &fields, row, layout, readings,
        )? {
            return Ok(Some((row, why)));
        }
    }
    Ok(None)
}
