//! The next records of a file: as a text of so many, and as a run.
ghost use Rattle.std.specs.Prelude.{◌≡◌, Option, Some, IfOk, IfErr, IsNone, OnOk};
ghost use Rattle.fq_csv.specs.RecordScan.{IsRunStep};
ghost use Rattle.fq_csv.specs.Records.{StopsBy};
ghost use Rattle.fq_csv.specs.Stage.{ending_of};
ghost use Rattle.fq_csv.specs.Taking.{EndsAtLimit, ReadsRecords};
ghost use Rattle.fq_csv.specs.declared.faults.ScanFault.{ScanFault};

use crate::cells::layouts::Layout;
use crate::cutting::pieces::Pieces;
use crate::cutting::records::Records;
use crate::faults::ScanFault;
use crate::scanning::headers::read_header;
use crate::scanning::runs::RecordRun;
use crate::scanning::spans::Span;
use crate::scanning::stages::Stage;
use std::alloc::Global;
use std::io::Read;

/// The text of records that were taken, how many they are, and how the file goes on after them.
#[derive(Drop)]
pub(crate) struct Taken {
    pub(crate) text: Pieces,
    pub(crate) count: u32,
    pub(crate) stage: Stage,
}

/// A run, if there are records, and how the file goes on.
#[derive(Drop)]
pub(crate) struct RunStep {
    pub(crate) run: Option<RecordRun>,
    pub(crate) stage: Stage,
}

/// Reads the header if that was not done, and then the next records.
pub(crate) fn next_records<R: Read>(
    alloc: Global,
    records: &mut Records<R>,
    layout: &Layout,
    span: Span,
    stage: Stage,
) -> RunStep
    requires { stage ≡ Stage.Header → span.from ≡ 0 }
    ensures file { records.new.file ≡ records.old.file }
    ensures step { IsRunStep span layout.now records.old records.new stage result.stage result.run }
    ensures over { (fault : Option ScanFault) → ending_of stage ≡ Some fault → (result.stage ≡ stage) × IsNone result.run × (records.new ≡ records.old) }
{
    let stage = match stage {
        Stage::Header => read_header(alloc, records, &layout.schema),
        stage => stage,
    };
    match stage {
        Stage::Rows => read_run(alloc, records, layout, span),
        stage => RunStep { run: None, stage },
    }
}

// Reads the next records.
fn read_run<R: Read>(
    alloc: Global,
    records: &mut Records<R>,
    layout: &Layout,
    span: Span,
) -> RunStep
    ensures file { records.new.file ≡ records.old.file }
    ensures step { IsRunStep span layout.now records.old records.new Stage.Rows result.stage result.run }
{
    match try_read_run(alloc, records, layout, span) {
        Ok(step) => step,
        Err(fault) => RunStep {
            run: None,
            stage: Stage::Failed(fault),
        },
    }
}

// Reads the next records, or answers that the reader or an allocation failed.
fn try_read_run<R: Read>(
    alloc: Global,
    records: &mut Records<R>,
    layout: &Layout,
    span: Span,
) -> Result<RunStep, ScanFault>
    ensures file { records.new.file ≡ records.old.file }
    ensures failed { IfErr result (StopsBy records.old.file records.new.stopped) }
    ensures step { IfOk result (λ step. IsRunStep span layout.now records.old records.new Stage.Rows step.stage step.run) }
{
    let Taken { text, count, stage } = take_records(alloc, records, span)?;
    if count == 0 {
        return Ok(RunStep { run: None, stage });
    }
    let run = RecordRun {
        file: records.file(),
        layout: layout.copy(alloc)?,
        before: span.from,
        count,
        text,
    };
    Ok(RunStep {
        run: Some(run),
        stage,
    })
}

/// Takes the next records of a file.
pub(crate) fn take_records<R: Read>(
    alloc: Global,
    records: &mut Records<R>,
    span: Span,
) -> Result<Taken, ScanFault>
    ensures file { records.new.file ≡ records.old.file }
    ensures goes_on { OnOk result (records.new.stopped ≡ records.old.stopped) }
    ensures failed { IfErr result (StopsBy records.old.file records.new.stopped) }
    ensures records { IfOk result (λ taken. ReadsRecords span records.old records.new taken.stage taken.text taken.count) }
{
    let wanted = span.size.min(span.limit - span.from);
    let (text, count) = records.take(alloc, wanted)?;
    let stage = if count == span.size {
        Stage::Rows
    } else if count < wanted {
        Stage::Closed(None)
    } else {
        at_limit(alloc, records)?
    };
    Ok(Taken { text, count, stage })
}

// How a file ends that may have no more records.
fn at_limit<R: Read>(alloc: Global, records: &mut Records<R>) -> Result<Stage, ScanFault>
    ensures file { records.new.file ≡ records.old.file }
    ensures goes_on { OnOk result (records.new.stopped ≡ records.old.stopped) }
    ensures failed { IfErr result (StopsBy records.old.file records.new.stopped) }
    ensures ends { IfOk result (EndsAtLimit records.old) }
{
    let (_, more) = records.take(alloc, 1)?;
    if more == 0 {
        return Ok(Stage::Closed(None));
    }
    let file = records.file();
    Ok(Stage::Closed(Some(ScanFault::TooLong { file })))
}
