//! Prints the orders and cents of each region in a CSV file on standard input.
//!
//! This program shows how to call the libraries without the plan language and without threads; docs/LIBRARY.md explains it. It scans the
//! file in batches. From each batch it keeps the orders that were not returned, computes their cents, and adds them to the groups. At the
//! end it prints the groups.
#![tactic(auto)]

ghost use Rattle.std.specs.Prelude.{◌≡◌, ◌++◌, ℕ, List, [], Some, None, Err, codes, string_bytes, IfOk, IfSome, OnOk};
ghost use Rattle.fq_column.specs.Frame.{Frame, Row};
ghost use Rattle.fq_column.specs.Stream.{Stream};
ghost use Rattle.fq_csv.specs.File.{file_stream, plain};
ghost use Rattle.fq_csv.specs.Printed.{printed};
ghost use Rattle.fq_csv.specs.declared.faults.ScanFault.{ScanFault};
ghost use Rattle.fq_expr.specs.ExpressionData.{expression_of};
ghost use Rattle.fq_expr.specs.Expression.{column as column_of, binary};
ghost use Rattle.fq_expr.specs.Steps.{fields_after_all};
ghost use Rattle.fq_ops.specs.Grouped.{HasTakenRows};
ghost use Rattle.fq_ops.specs.AggregateData.{outputs_of};
ghost use Rattle.region_totals.specs.Report.{group_keys, group_outputs, order_steps, orders};
ghost use Rattle.region_totals.specs.Totals.{AreTotals, HasTotals};
ghost use Rattle.region_totals.specs.declared.Failure.TheVariants as failure;

use fq_column::{Batch, Kind, Memory, Schema, StepFault};
use fq_csv::{MAX_ROWS, NullValues, Scan, ScanFault, Scanner, print_frame};
use fq_expr::{Binary, Expr, Front, Piece, RowFault, RowStep, Unary, steps_of_joined_streams};
use fq_notation::Notations;
use fq_ops::{Agg, Function, GroupFault, Grouper, MAX_GROUPED_ROWS, What, group_schema};
use std::alloc::Global;
use std::io;
use std::io::{Read, Write};
use std::process::ExitCode;
use thiserror::Error;

/// The rows of a batch.
const BATCH_SIZE: u32 = 1024;

/// Why there are no totals.
#[derive(Debug, Drop, Error)]
enum Failure {
    #[error("the steps do not fit the columns: {0}")]
    Step(StepFault),
    #[error(transparent)]
    Scan(#[from] ScanFault),
    #[error(transparent)]
    Row(#[from] RowFault),
    #[error(transparent)]
    Group(#[from] GroupFault),
    #[error(transparent)]
    Memory(#[from] Memory),
    #[error("too many rows")]
    TooManyRows,
    #[error("cannot write: {0}")]
    Write(#[from] io::Error),
}

impl From<StepFault> for Failure {
    fn from(fault: StepFault) -> Failure {
        match fault {
            StepFault::Memory => Failure::Memory(Memory),
            _ => Failure::Step(fault),
        }
    }
}

fn main(rt: HostRuntime) -> ExitCode {
    let (mut out, mut err) = (rt.stdout(), rt.stderr());
    match print_totals(rt.alloc(), rt.stdin(), &mut out) {
        Ok(()) => ExitCode::SUCCESS,
        Err(failure) => {
            let _ = writeln!(err, "region_totals: {failure}");
            ExitCode::FAILURE
        }
    }
}

// Prints the totals of a file.
fn print_totals<R: Read + Drop, W: Write>(
    alloc: Global,
    file: R,
    out: &mut W,
) -> Result<(), Failure> {
    let text = totals(alloc, file)?;
    out.write_all(text.as_slice())?;
    Ok(())
}

// The totals of a file, as CSV text.
fn totals<R: Read + Drop>(alloc: Global, file: R) -> Result<Vec<u8>, Failure>
    ensures { IfOk result (λ text. (bytes : List ℕ) → R.remaining file ≡ Some bytes →
        (frame : Frame) × AreTotals order_steps (file_stream 0 (plain orders) MAX_ROWS bytes) frame × (text.items ≡ printed frame)) }
{
    let columns = columns(alloc)?;
    let (front, columns_after) = front(alloc, columns.copy(alloc)?)?;
    let grouper = grouper(alloc, columns_after)?;
    let nulls = NullValues::new(Vec::new(alloc));
    let scanner = Scanner::new(alloc, file, 0, columns, nulls, BATCH_SIZE, MAX_ROWS)?;
    let frame = grouped(alloc, scanner, &front, grouper)?;
    Ok(print_frame(alloc, &frame, &Notations::plain(alloc))?)
}

// The columns of the file.
fn columns(alloc: Global) -> Result<Schema, StepFault>
    ensures { IfOk result (λ columns. columns ≡ orders) }
{
    let names = vec![in alloc;
        name(alloc, "region")?,
        name(alloc, "units")?,
        name(alloc, "unit_cents")?,
        name(alloc, "returned")?,
    ]?;
    let kinds = vec![in alloc; Kind::Text, Kind::Whole, Kind::Whole, Kind::Truth]?;
    Schema::new(names, kinds)
}

// The steps on each row: the orders that were not returned, with their cents; and the columns after these.
fn front(alloc: Global, columns: Schema) -> Result<(Front, Schema), StepFault>
    ensures steps { IfOk result (λ r. r.0 ≡ record order_steps { fields = columns }) }
    ensures after { IfOk result (λ r. r.1 ≡ fields_after_all r.0.fields r.0.steps) }
{
    let is_returned = Box::new(alloc, column(alloc, "returned")?)?;
    let keep = RowStep::Filter(Expr::One(Unary::Not, is_returned));
    let price = RowStep::WithColumns(vec![in alloc; (name(alloc, "cents")?, cents(alloc)?)]?);
    let kept = keep.schema(alloc, &columns)?;
    let priced = price.schema(alloc, &kept)?;
    let steps = vec![in alloc; keep, price]?;
    Ok((Front::new(alloc, steps, columns, 0)?, priced))
}

// The units times the cents of a unit.
fn cents(alloc: Global) -> Result<Expr, Memory>
    ensures { IfOk result (λ e. expression_of e ≡ binary Binary.Mul (column_of (codes "units")) (column_of (codes "unit_cents"))) }
{
    let units = Box::new(alloc, column(alloc, "units")?)?;
    let unit_cents = Box::new(alloc, column(alloc, "unit_cents")?)?;
    Ok(Expr::Two(Binary::Mul, units, unit_cents))
}

// The grouping by region, of these columns.
fn grouper(alloc: Global, columns: Schema) -> Result<Grouper, StepFault>
    ensures columns { IfOk result (λ g. g.fields ≡ columns) }
    ensures empty { IfOk result (λ g. HasTakenRows g group_keys group_outputs []) }
{
    let keys = vec![in alloc; name(alloc, "region")?]?;
    let aggs = aggregates(alloc)?;
    let _output = group_schema(alloc, &columns, keys.as_slice(), aggs.as_slice())?;
    Ok(Grouper::new(alloc, columns, keys.as_slice(), aggs.as_slice())?)
}

// What is known of each region: its orders, and the sum of their cents.
fn aggregates(alloc: Global) -> Result<Vec<Agg>, Memory>
    ensures { IfOk result (λ aggs. outputs_of aggs.items ≡ group_outputs) }
{
    let orders = Agg {
        name: name(alloc, "orders")?,
        what: What::Len,
    };
    let cents = Agg {
        name: name(alloc, "cents")?,
        what: What::Of(Function::Sum, name(alloc, "cents")?),
    };
    Ok(vec![in alloc; orders, cents]?)
}

// The groups of all rows of a file, batch by batch.
fn grouped<R: Read + Drop>(
    alloc: Global,
    mut scanner: Scanner<R>,
    front: &Front,
    mut grouper: Grouper,
) -> Result<Batch, Failure>
    requires file { scanner.layout.schema ≡ front.now.fields }
    requires steps { grouper.fields ≡ fields_after_all front.now.fields front.now.steps }
    requires empty { HasTakenRows grouper group_keys group_outputs [] }
    ensures { IfOk result (λ frame. (u : Stream ScanFault) → scanner.upcoming ≡ Some u → AreTotals front.now u frame) }
{
    'batches: loop {
        match scanner.next_batch() {
            Scan::Batch { batch, .. } => add_batch(alloc, front, &mut grouper, batch)?,
            Scan::End {
                fault: Some(fault),
                ..
            } => return Err(Failure::Scan(fault)),
            Scan::End { fault: None, .. } => return Ok(grouper.finish(alloc)?),
        }
    }
}

// Adds the rows of a batch, after the steps, to the groups.
fn add_batch(
    alloc: Global,
    front: &Front,
    grouper: &mut Grouper,
    batch: Batch,
) -> Result<(), Failure>
    requires file { batch.fields ≡ front.now.fields }
    requires steps { grouper.old.fields ≡ fields_after_all front.now.fields front.now.steps }
    ensures columns { grouper.new.fields ≡ grouper.old.fields }
    ensures taken { OnOk result ((rows : List Row) → HasTotals front.now grouper.old rows → HasTotals front.now grouper.new (rows ++ batch.rows)) }
{
    steps_of_joined_streams::<RowFault>();
    let batch = rows_of(front.apply(alloc, batch)?)?;
    let rows = batch.rows() as u64;
    if grouper.rows_taken().saturating_add(rows) > MAX_GROUPED_ROWS {
        return Err(Failure::TooManyRows);
    }
    Ok(grouper.take(alloc, &batch)?)
}

// The rows of a piece, or the fault of the row after them.
fn rows_of(piece: Piece) -> Result<Batch, Failure>
    ensures fault { IfSome piece.fault (λ fault. result ≡ Err (failure.Row fault)) }
    ensures rows { IfOk result (λ batch. (piece.fault ≡ None) × (batch ≡ piece.batch)) }
{
    match piece.fault {
        Some(fault) => Err(Failure::Row(fault)),
        None => Ok(piece.batch),
    }
}

// A name in memory of its own.
fn name(alloc: Global, text: &str) -> Result<String, Memory>
    ensures { IfOk result (λ name. string_bytes name ≡ text.now) }
{
    Ok(String::from_str(alloc, text)?)
}

// The value of a column.
fn column(alloc: Global, text: &str) -> Result<Expr, Memory>
    ensures { IfOk result (λ e. expression_of e ≡ column_of text.now) }
{
    Ok(Expr::Col(name(alloc, text)?))
}
