//! A physical plan over files.
ghost use Rattle.std.specs.Prelude.{◌≡◌, ◌≤◌, ℕ, List, [], vec_len, Ok, Err, IfOk, IfErr};
ghost use Rattle.fq_column.specs.Frame.{Frame};
ghost use Rattle.fq_csv.specs.Printed.{printed_in};
ghost use Rattle.fq_notation.specs.declared.notations.Notation.{Notation};
ghost use Rattle.fq_run.specs.GatheredRun.{HasGathered};
ghost use Rattle.fq_run.specs.Physical.{file_streams, files_wanted, last_columns, outcome_of_run};
ghost use Rattle.fq_run.specs.PrintedText.{text_of};
ghost use Rattle.fq_run.specs.Run.{IsAnswer, IsEngineFault, IsOfMeaning, IsRunFault, NamesFile, Tell, trace_of};

use crate::faults::Fault;
use crate::leading_steps::Worked;
use crate::openings::{empty_sources, file_layouts, open_feeds};
use crate::physical_plans::PhysicalPlan;
use crate::printed_text::PrintedText;
use crate::printing::{PrintSettings, Printing};
use crate::row_sinks::RowSink;
use crate::run_tail::RunTail;
use fq_csv::MAX_BATCH_SIZE;
use fq_lanes::{Gate, MAX_WORKERS, Report, run_lanes};
use std::alloc::Global;
use std::io::{Read, Write};
use std::sync::Wait;
use std::thread::Threads;

impl PhysicalPlan {
    /// Writes the frame that the plan comes to over the files, or answers the fault that it comes to.
    ///
    /// `inputs` are the files' readers, in argument order: those of the first source, then those of the next, and so on.
    /// A thread for each cuts its records into runs of `batch_size`, from 1 to 65,536, and as many threads as `workers`, from
    /// 1 to 16, make a batch of each run and do the leading row-wise steps. What is written does not depend on either, nor on
    /// the order in which the threads take their steps. The report lists the file and serial of each batch, by file, then
    /// serial.
    ///
    /// The first of these faults is answered: `Inputs` if the number of readers is not `PhysicalPlan::inputs`, and `Setting` if
    /// the batch size or the number of workers is out of range, both before any reading; `Memory` if an allocation failed
    /// or a thread could not be started; `Read` with the lowest file whose reader failed; the fault of the files or of the
    /// steps that the plan comes to; `Write` if `out` failed. Nothing is written at any fault but `Write`, at which an unknown
    /// part is.
    ///
    /// The gate is shown each worker's answer before it leaves the worker, even if the plan has no leading row-wise steps. It sees
    /// who works on what and when, and can hold a worker up; what is written does not depend on it.
    pub fn run<T: Threads + Wait + Sync, G: Gate<Worked> + Sync, R: Read + Drop + Send, W: Write>(
        &self,
        rt: &T,
        alloc: Global,
        gate: &G,
        inputs: Vec<R>,
        out: &mut W,
        batch_size: u32,
        workers: u16,
    ) -> Result<Report, Fault>
        ensures { IsAnswer (files_wanted self.now) (vec_len inputs) batch_size workers (Tell R.remaining inputs.items) (file_streams self.now) (outcome_of_run self.now) self.now.notations (W.contents out.old) (W.contents out.new) result }
    {
        let wanted = self.inputs();
        let got = inputs.len();
        if got != wanted as usize {
            return Err(Fault::Inputs { wanted, got });
        }
        if !(1..=MAX_BATCH_SIZE).contains(&batch_size) || !(1..=MAX_WORKERS).contains(&workers) {
            return Err(Fault::Setting);
        }
        let (text, report) = self.outcome(rt, alloc, gate, inputs, batch_size, workers)?;
        text.write_to(out)?;
        Ok(report)
    }

    // The text of the frame of a run that may start, with its report, or the fault before anything is written.
    fn outcome<T: Threads + Wait + Sync, G: Gate<Worked> + Sync, R: Read + Drop + Send>(
        &self,
        rt: &T,
        alloc: Global,
        gate: &G,
        inputs: Vec<R>,
        batch_size: u32,
        workers: u16,
    ) -> Result<(PrintedText, Report), Fault>
        requires inputs { vec_len inputs ≡ files_wanted self.now }
        requires batch_size { (1 ≤ batch_size) × (batch_size ≤ MAX_BATCH_SIZE) }
        requires workers { (1 ≤ workers) × (workers ≤ MAX_WORKERS) }
        ensures frame { (files : List (List ℕ)) → Tell R.remaining inputs.items files → IfOk result
            (λ r. (frame : Frame) × (outcome_of_run self.now (file_streams self.now files) ≡ Ok frame) × (text_of r.0 ≡ printed_in self.now.notations frame)) }
        ensures trace { (files : List (List ℕ)) → Tell R.remaining inputs.items files → IfOk result
            (λ r. r.1.trace.items ≡ trace_of batch_size (file_streams self.now files)) }
        ensures fault { (files : List (List ℕ)) → Tell R.remaining inputs.items files → IfErr result
            (λ f. IsOfMeaning f → outcome_of_run self.now (file_streams self.now files) ≡ Err f) }
        ensures kind { IfErr result IsRunFault }
        ensures read { IfErr result (NamesFile (vec_len inputs)) }
    {
        let press = PrintSettings {
            rt,
            alloc,
            notations: &self.notations,
            threads: self.printing_threads(workers),
        };
        let text = Printing::new(press, self.columns())?;
        let (tail, report) = self.gather(rt, alloc, gate, inputs, text, batch_size, workers)?;
        let text = tail.finish()?.finish()?;
        Ok((text, report))
    }

    // What free threads make of the files, as far as the tail took it, with their report.
    fn gather<
        'a,
        T: Threads + Wait + Sync,
        G: Gate<Worked> + Sync,
        R: Read + Drop + Send,
        S: RowSink + Drop,
    >(
        &'a self,
        rt: &'a T,
        alloc: Global,
        gate: &G,
        inputs: Vec<R>,
        sink: S,
        batch_size: u32,
        workers: u16,
    ) -> Result<(RunTail<'a, S>, Report), Fault>
        requires inputs { vec_len inputs ≡ files_wanted self.now }
        requires batch_size { (1 ≤ batch_size) × (batch_size ≤ MAX_BATCH_SIZE) }
        requires workers { (1 ≤ workers) × (workers ≤ MAX_WORKERS) }
        ensures gathered { IfOk result (λ r. (notations : List Notation) → S.has notations sink (last_columns self.entry.now) [] → HasGathered (S.has notations) R.remaining inputs.items self.entry.now batch_size r.0 r.1.trace.items) }
        ensures fault { IfErr result IsEngineFault }
        ensures read { IfErr result (NamesFile (vec_len inputs)) }
    {
        let sides = self.sides.as_slice();
        let layouts = file_layouts(alloc, sides, &self.main)?;
        let feeds = open_feeds(alloc, layouts, inputs, batch_size)?;
        let sources = empty_sources(alloc, sides)?;
        let before = self.after_leading.copy(alloc)?;
        let (side_files, stages) = (self.leading.side_files, self.stages.as_slice());
        let tail = RunTail::new(alloc, side_files, sources, before, stages, sink);
        let (tail, outcome) = run_lanes(rt, alloc, feeds, &self.leading, gate, tail, workers);
        match outcome {
            Ok(report) => Ok((tail, report)),
            Err(fault) => {
                tail.stop();
                Err(fault.into())
            }
        }
    }

    // The most threads that print at once. Where the tail has nothing else to do, the caller's thread prints.
    fn printing_threads(&self, workers: u16) -> usize
        requires { 1 ≤ workers }
        ensures { result ≤ workers }
    {
        if self.stages.is_empty() {
            1
        } else {
            workers as usize
        }
    }
}
