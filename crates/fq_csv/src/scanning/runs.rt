//! Runs of records, and the batches that they are.
ghost use Rattle.std.specs.Prelude.{◌≡◌, ◌≤◌, ◌<◌, ◌+◌, length, option_map, IfOk, IfSome};
ghost use Rattle.fq_csv.specs.Records.{IsOfText};
ghost use Rattle.csv.specs.Reading.{default_config, records};
ghost use Rattle.fq_csv.specs.Taking.{ReadsRun};
ghost use Rattle.fq_csv.specs.TextRows.{HoldsRowsOf, run_fault};
ghost use Rattle.fq_csv.specs.declared.scanning.scanners.TheConstants.{MAX_ROWS};

use crate::cells::layouts::Layout;
use crate::cells::rows::{NoRow, push_records};
use crate::cutting::pieces::Pieces;
use crate::faults::ScanFault;
use fq_column::{Batch, Column, Memory, Piece, empty_columns};
use std::alloc::Global;
use std::marker::Model;

/// Records of a file, one after the other, as the text that they are.
///
/// None of their fields was looked at yet, so a run may be handed to another thread, which makes a batch of it. The text is freed piece by
/// piece as it is read.
#[derive(Drop)]
pub struct RecordRun {
    pub(crate) file: u16,
    pub(crate) layout: Layout,
    pub(crate) before: u32,
    pub(crate) count: u32,
    pub(crate) text: Pieces,
}

impl Model for RecordRun {
    ghost use Rattle.std.specs.Prelude.{◌≡◌, ◌≤◌, ◌+◌, length};
    ghost use Rattle.csv.specs.Reading.{default_config, records};
    ghost use Rattle.fq_csv.specs.Taking.{FieldRun};
    ghost use Rattle.fq_csv.specs.declared.scanning.scanners.TheConstants.{MAX_ROWS};

    ghost Value = { FieldRun };

    ghost view = { λ a. record {
      file = a.file;
      layout = a.layout;
      before = a.before;
      records = records default_config a.text;
    } };

    ghost invariant = { λ a. (length (records default_config a.text) ≡ a.count) × (a.before + a.count ≤ MAX_ROWS) };
}

impl RecordRun {
    /// How many records the run has.
    pub fn len(&self) -> u32
        ensures { result ≡ length self.now.records }
    {
        self.count
    }

    /// The rows that the records are, in a batch, and the fault that ends them: `Width` at the first record with more or fewer
    /// fields than there are columns, or `BadCell` at one with a field that is not a cell of its column, whether that is kept or not.
    ///
    /// Allocates for the batch's columns, for texts over 24 bytes in those that are kept, and for one record. `Memory` if an allocation fails.
    pub fn into_batch(self, alloc: Global) -> Result<Piece<ScanFault>, Memory>
        ensures { IfOk result (λ p. ReadsRun self p.batch p.fault) }
    {
        let RecordRun {
            file,
            layout,
            before,
            count,
            text,
        } = self;
        let (columns, bad) = columns_of(alloc, &layout, text, count)?;
        let batch = Batch::new(layout.schema, columns);
        Ok(Piece {
            batch,
            fault: fault_of(file, before, bad),
        })
    }
}

// The columns of the rows that the `count` records of a text are, up to the first that is not a row, and its place.
fn columns_of(
    alloc: Global,
    layout: &Layout,
    text: Pieces,
    count: u32,
) -> Result<(Vec<Column>, Option<(u32, NoRow)>), Memory>
    requires { length (records default_config text) ≡ count }
    ensures rows { IfOk result (λ r. HoldsRowsOf layout.now (records default_config text) r.0.items r.1) }
    ensures some { IfOk result (λ r. 0 < length r.0.items) }
{
    let mut columns = empty_columns(alloc, &layout.schema, count as usize)?;
    let bad = push_records(alloc, columns.as_mut_slice(), text, count, layout)?;
    Ok((columns, bad))
}

// The fault of a record that is not a row, by its place in a run after some rows.
fn fault_of(file: u16, before: u32, bad: Option<(u32, NoRow)>) -> Option<ScanFault>
    requires { IfSome bad (λ place. before + place.0 + 1 ≤ MAX_ROWS) }
    ensures fault { result ≡ option_map (run_fault file before) bad }
    ensures cause { IsOfText result }
{
    let (row, why) = bad?;
    let row = before + row + 1;
    Some(match why {
        NoRow::Width => ScanFault::Width { file, row },
        NoRow::BadCell(column) => ScanFault::BadCell { file, row, column },
    })
}
