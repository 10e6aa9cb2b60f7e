//! A checked plan over files.
ghost use Rattle.std.specs.Prelude.{vec_len};
ghost use Rattle.fq_plan.specs.Meaning.{meaning};
ghost use Rattle.fq_language.specs.Plan.{file_streams, files_wanted};
ghost use Rattle.fq_run.specs.Run.{IsAnswer, Tell};

use crate::checks::Checked;
use fq_lanes::{Gate, NoGate, Report};
use fq_run::{Fault, Worked};
use std::alloc::Global;
use std::io::{Read, Write};
use std::sync::Wait;
use std::thread::Threads;

impl Checked {
    /// Writes the frame that the plan means over the files, or answers the fault that it means.
    ///
    /// `inputs` are the files' readers, in argument order: those of the first source, then those of the next, and so on.
    /// A thread for each cuts its records into runs of `batch_size`, from 1 to 65,536, and as many threads as `workers`, from
    /// 1 to 16, make a batch of each run and do the leading row-wise steps. What is written does not depend on either, nor on
    /// the order in which the threads take their steps. The report lists the file and serial of each batch, by file, then
    /// serial.
    ///
    /// The first of these faults is answered: `Inputs` if the number of readers is not `Checked::inputs`, and `Setting` if
    /// the batch size or the number of workers is out of range, both before any reading; `Memory` if an allocation failed
    /// or a thread could not be started; `Read` with the lowest file whose reader failed; the fault of the files or of the
    /// steps that the plan means; `Write` if `out` failed. Nothing is written at any fault but `Write`, at which an unknown
    /// part is.
    pub fn run<T: Threads + Wait + Sync, R: Read + Drop + Send, W: Write>(
        &self,
        rt: &T,
        alloc: Global,
        inputs: Vec<R>,
        out: &mut W,
        batch_size: u32,
        workers: u16,
    ) -> Result<Report, Fault>
        ensures { IsAnswer (files_wanted self.now) (vec_len inputs) batch_size workers (Tell R.remaining inputs.items) (file_streams self.now) (meaning self.now) self.now.notations (W.contents out.old) (W.contents out.new) result }
    {
        self.run_gated(rt, alloc, &NoGate, inputs, out, batch_size, workers)
    }

    /// As `Checked::run`, with a gate that is shown each worker's answer before it leaves the worker.
    ///
    /// A gate sees who works on what and when, and can hold a worker up; what is written does not depend on it. Each answer
    /// passes it, even if the plan has no leading row-wise steps.
    pub fn run_gated<
        T: Threads + Wait + Sync,
        G: Gate<Worked> + Sync,
        R: Read + Drop + Send,
        W: Write,
    >(
        &self,
        rt: &T,
        alloc: Global,
        gate: &G,
        inputs: Vec<R>,
        out: &mut W,
        batch_size: u32,
        workers: u16,
    ) -> Result<Report, Fault>
        ensures { IsAnswer (files_wanted self.now) (vec_len inputs) batch_size workers (Tell R.remaining inputs.items) (file_streams self.now) (meaning self.now) self.now.notations (W.contents out.old) (W.contents out.new) result }
    {
        self.physical
            .run(rt, alloc, gate, inputs, out, batch_size, workers)
    }
}
