//! The tail of a run: each worked item goes through the remaining steps as soon as it is taken, and what these make of it to a sink.
ghost use Rattle.std.specs.Prelude.{◌≡◌, ◌≢◌, ◌⊎◌, [], map, None, Some, Err, IfOk, IfErr, OnOk, IsSome};
ghost use Rattle.fq_column.specs.Frame.{Fields};
ghost use Rattle.fq_notation.specs.declared.notations.Notation.{Notation};
ghost use Rattle.fq_run.specs.Gathering.{gathered_stream};
ghost use Rattle.fq_run.specs.Later.{later_steps};
ghost use Rattle.fq_run.specs.Pipelines.{HasRun};
ghost use Rattle.fq_run.specs.Sources.{first_fault};
ghost use Rattle.fq_run.specs.Stages.{Fit};
ghost use Rattle.fq_run.specs.declared.faults.Fault.TheVariants as fault;

use crate::faults::Fault;
use crate::gathering::{SideSource, take_in, whole_batches};
use crate::leading_steps::Worked;
use crate::passed::Passed;
use crate::pipeline::Pipeline;
use crate::row_sinks::RowSink;
use crate::stages::Stage;
use fq_column::{Memory, Schema};
use fq_lanes::Tail;
use std::alloc::Global;
use std::marker::Model;
use std::mem;

/// What takes the worked items of a run.
#[derive(Drop)]
pub(crate) struct RunTail<'a, S> {
    alloc: Global,
    /// How many files are of the sources before the main one.
    pub(crate) side_files: u16,
    /// These sources, as far as their items came.
    sides: Vec<SideSource>,
    /// The columns of the main source's rows.
    before: Schema,
    stages: &'a [Stage],
    /// The stages on their way over the main source's rows, from the first of these on.
    pipeline: Option<Pipeline<'a>>,
    sink: S,
    /// Why the run has failed.
    fault: Option<Fault>,
}

impl<'a, S> Model for RunTail<'a, S> {
    ghost use Rattle.fq_run.specs.TailState.{TailState};

    ghost Value = { TailState S };

    ghost use Rattle.std.specs.Coded.{codes};
    ghost use Rattle.fq_expr.specs.ExpressionCode.{expression_code};

    ghost coded = { Prim.hlevel (codes, S.code, expression_code (Prim.hlevel codes)) };

    ghost use Rattle.std.specs.Prelude.{option_map};
    ghost use Rattle.fq_run.specs.TailState.{IsReady};

    ghost view = { λ t. record { side_files = t.side_files; sides = t.sides.items; before = t.before; stages = t.stages.now; operators = option_map (λ p. p.operators.items) t.pipeline; sink = t.sink; fault = t.fault } };

    ghost invariant = { λ t. IsReady (record { side_files = t.side_files; sides = t.sides.items; before = t.before; stages = t.stages.now; operators = option_map (λ p. p.operators.items) t.pipeline; sink = t.sink; fault = t.fault }) };
}

impl<'a, S: RowSink> Tail for RunTail<'a, S> {
    ghost use Rattle.std.specs.Prelude.{List};
    ghost use Rattle.fq_run.specs.Standing.{TailTakes};

    type Out = Worked;

    ghost takes = { λ old file _ out new. (notations : List Notation) → TailTakes (S.has notations) old file out new };

    ghost refuses = { λ _ _. Unit {0} };

    fn take(&mut self, file: u16, _serial: u32, out: Worked) -> Result<(), fq_lanes::Memory> {
        let taken = if file < self.side_files {
            self.take_before_main(file, out)
        } else {
            self.take_main(out)
        };
        match taken {
            Ok(()) => Ok(()),
            Err(Memory) => Err(fq_lanes::Memory),
        }
    }
}

impl<'a, S: RowSink> RunTail<'a, S> {
    ghost use Rattle.std.specs.Prelude.{List};
    ghost use Rattle.fq_column.specs.Stream.{done};
    ghost use Rattle.fq_run.specs.Gathering.{gathered, taken_in};
    ghost use Rattle.fq_run.specs.Outcome.{outcome_of_stages};
    ghost use Rattle.fq_run.specs.Standing.{Ends, FitOver, Stands, Waits};
    ghost use Rattle.fq_run.specs.declared.gathering.SideSource.{SideSource as Source};
    ghost use Rattle.fq_run.specs.declared.stages.Stage.{Stage as AnyStage};

    /// A tail that has taken nothing, over sources of which so many files are of those before the main one.
    pub(crate) fn new(
        alloc: Global,
        side_files: u16,
        sides: Vec<SideSource>,
        before: Schema,
        stages: &'a [Stage],
        sink: S,
    ) -> RunTail<'a, S>
        requires { (after : Fields) × Fit (map (λ g. g.batch.fields) sides.items) before stages.now after }
        ensures files { result.side_files ≡ side_files }
        ensures waits { (notations : List Notation) (after : Fields) (main : Source) → S.has notations sink after [] → before ≡ main.batch.fields → gathered_stream main ≡ done [] →
            Waits (S.has notations) stages.entry.now after sides.items main result }
    {
        RunTail {
            alloc,
            side_files,
            sides,
            before,
            stages,
            pipeline: None,
            sink,
            fault: None,
        }
    }

    // Takes a worked item of a source before the main one.
    fn take_before_main(&mut self, file: u16, item: Worked) -> Result<(), Memory>
        ensures files { self.new.side_files ≡ self.old.side_files }
        ensures taken { OnOk result ((notations : List Notation) (stages : List AnyStage) (after : Fields) (sides : List Source) (main : Source) → Waits (S.has notations) stages after sides main self.old →
            Waits (S.has notations) stages after (taken_in file item sides) main self.new) }
    {
        let taken = take_in(self.sides.as_mut_slice(), file, item);
        if taken.is_err() {
            self.pipeline = None;
            self.fault = Some(Fault::Memory);
        }
        taken
    }

    // Takes a worked item of the main source.
    fn take_main(&mut self, item: Worked) -> Result<(), Memory>
        ensures files { self.new.side_files ≡ self.old.side_files }
        ensures taken { OnOk result ((notations : List Notation) (stages : List AnyStage) (after : Fields) (sides : List Source) (main : Source) → FitOver stages after sides main →
            Stands (S.has notations) stages after sides main self.old → Stands (S.has notations) stages after sides (gathered main item) self.new) }
    {
        self.open()?;
        let Some(pipeline) = &mut self.pipeline else {
            return Ok(());
        };
        let input = Passed::from_worked(item, &self.before);
        let pushed = pipeline.push(self.alloc, input, &mut self.sink);
        if let Err(fault) = pushed {
            self.pipeline = None;
            self.fault = Some(fault);
        }
        unless_refused(pushed)
    }

    // With the first rows of the main source, those before it are whole, and the stages begin; unless a fault ends all.
    fn open(&mut self) -> Result<(), Memory>
        ensures files { self.new.side_files ≡ self.old.side_files }
        ensures opened { OnOk result (self.new.operators ≡ None → IsSome self.new.fault) }
        ensures stands { OnOk result ((notations : List Notation) (stages : List AnyStage) (after : Fields) (sides : List Source) (main : Source) → FitOver stages after sides main →
            Stands (S.has notations) stages after sides main self.old → Stands (S.has notations) stages after sides main self.new) }
    {
        if self.fault.is_some() || self.pipeline.is_some() {
            return Ok(());
        }
        let sides = mem::replace(&mut self.sides, Vec::new(self.alloc));
        match start(self.alloc, sides, &self.before, self.stages) {
            Ok(pipeline) => {
                self.pipeline = Some(pipeline);
                Ok(())
            }
            Err(fault) => {
                self.fault = Some(fault);
                unless_refused(Err(fault))
            }
        }
    }

    /// The sink, which has taken the rows that all comes to; or its fault.
    pub(crate) fn finish(self) -> Result<S, Fault>
        ensures { (notations : List Notation) (stages : List AnyStage) (after : Fields) (sides : List Source) (main : Source) → FitOver stages after sides main → Stands (S.has notations) stages after sides main self.entry →
            Ends (S.has notations) (outcome_of_stages stages sides main) result }
    {
        let mut tail = self;
        let opened = tail.open();
        let RunTail {
            alloc,
            side_files: _,
            sides: _,
            before: _,
            stages: _,
            pipeline,
            sink,
            fault,
        } = tail;
        let mut sink = sink;
        let ended = match (opened, pipeline, fault) {
            (Err(Memory), _, _) => Err(Fault::Memory),
            (Ok(()), Some(pipeline), _) => {
                let mut pipeline = pipeline;
                pipeline.finish(alloc, &mut sink)
            }
            (Ok(()), None, Some(fault)) => Err(fault),
            (Ok(()), None, None) => unreachable!(),
        };
        match ended {
            Ok(()) => Ok(sink),
            Err(fault) => {
                sink.stop();
                Err(fault)
            }
        }
    }

    /// Ends before all items were taken.
    pub(crate) fn stop(self) {
        self.sink.stop();
    }
}

// A fault but `Memory` is the run's answer, not a refusal.
fn unless_refused(outcome: Result<(), Fault>) -> Result<(), Memory>
    ensures { OnOk result (outcome ≢ Err fault.Memory) }
{
    match outcome {
        Err(Fault::Memory) => Err(Memory),
        _ => Ok(()),
    }
}

// The stages over the main source's rows, of which none has come, where the sources before it are whole; or the first fault of these.
fn start<'a>(
    alloc: Global,
    sides: Vec<SideSource>,
    before: &Schema,
    stages: &'a [Stage],
) -> Result<Pipeline<'a>, Fault>
    requires { (after : Fields) × Fit (map (λ g. g.batch.fields) sides.items) before.now stages.now after }
    ensures started { IfOk result (λ p. (first_fault (map gathered_stream sides.items) ≡ None)
        × ((after : Fields) → Fit (map (λ g. g.batch.fields) sides.items) before.now stages.entry.now after → HasRun p.operators.items (later_steps stages.entry.now sides.items before.now after) [] [])) }
    ensures refused { IfErr result (λ f. (first_fault (map gathered_stream sides.items) ≡ Some f) ⊎ (f ≡ fault.Memory)) }
{
    let batches = whole_batches(alloc, sides)?;
    Ok(Pipeline::start(alloc, batches, before, stages)?)
}
