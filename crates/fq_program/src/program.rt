//! The program without arguments.
ghost use Rattle.std.specs.Prelude.{◌≡◌, ◌≢◌, ◌⊎◌, ◌∷◌, [], ℕ, List, Some, Ok, Err, IfErr, OnOk, MatchResult, vec_len};
ghost use Rattle.std.specs.Io.KnownBytes.{Appends, Keeps};
ghost use Rattle.fq_column.specs.Frame.{Frame};
ghost use Rattle.fq_csv.specs.Printed.{printed, printed_in};
ghost use Rattle.fq_language.specs.Plan.{files_wanted};
ghost use Rattle.fq_run.specs.declared.faults.Fault.{Fault as FaultData};
ghost use Rattle.fq_run.specs.declared.faults.Fault.TheVariants as fault;
ghost use Rattle.fq_run.specs.Run.{Tell, start_refusal};
ghost use Rattle.fq_messages.specs.Ending.{code_of, done, bad_device, no_memory, status_of, IsOutside};
ghost use Rattle.fq_program.specs.Program.{AreSettings, program, checked_plan as checked_plan_of, frame_of};
ghost use Rattle.fq_messages.specs.declared.failures.Failure.TheVariants as failure;
ghost use Rattle.fq_messages.specs.declared.status.Status.TheVariants.{NoMemory};

use fq_messages::{Failure, read_whole, report, split_line};
use fq_plan::{Check, Checked, Fault, read_plan};
use fq_shell::{BATCH_SIZE, WORKERS};
use std::alloc::Global;
use std::io::{Read, Write};
use std::sync::Wait;
use std::thread::Threads;

/// Runs the plan of the input's first line over the CSV file of the bytes after it, and answers the exit status.
///
/// The frame is written to `out` if the status is 0. At any other status a line on `err` says why, and nothing is
/// written to `out`, except that at 5, if the write itself failed, an unknown part may be. A failed write to `err`
/// changes no status. All of the input is read before anything else.
pub fn one_input<T: Threads + Wait + Sync, R: Read + Drop, W: Write, E: Write>(
    rt: &T,
    alloc: Global,
    input: R,
    out: &mut W,
    err: &mut E,
) -> u8
    ensures status { (bytes : List ℕ) → R.remaining input ≡ Some bytes →
        (result ≡ code_of (program bytes)) ⊎ (result ≡ bad_device) ⊎ (result ≡ no_memory) }
    ensures output { (bytes : List ℕ) → R.remaining input ≡ Some bytes → result ≡ done →
        (frame : Frame) × (program bytes ≡ Ok frame) × Appends (W.contents out.old) (W.contents out.new) (printed frame) }
    ensures unwritten { result ≢ done → result ≢ bad_device → Keeps (W.contents out.old) (W.contents out.new) }
    ensures quiet { result ≡ done → Keeps (E.contents err.old) (E.contents err.new) }
{
    report(run_input(rt, alloc, input, out), err)
}

// Writes the frame that the input comes to.
fn run_input<T: Threads + Wait + Sync, R: Read + Drop, W: Write>(
    rt: &T,
    alloc: Global,
    input: R,
    out: &mut W,
) -> Result<(), Failure>
    ensures printed { (bytes : List ℕ) → R.remaining input ≡ Some bytes → OnOk result
        ((frame : Frame) × (program bytes ≡ Ok frame) × Appends (W.contents out.old) (W.contents out.new) (printed frame)) }
    ensures failed { (bytes : List ℕ) → R.remaining input ≡ Some bytes → IfErr result (λ f. (program bytes ≡ Err f) ⊎ IsOutside f) }
    ensures unwritten { IfErr result (λ f. f ≢ failure.Run fault.Write → Keeps (W.contents out.old) (W.contents out.new)) }
{
    let bytes = read_whole(alloc, input, Failure::Run(Fault::Read { file: 0 }))?;
    run_bytes(rt, alloc, bytes.as_slice(), out)
}

// Writes the frame that an input in memory comes to.
fn run_bytes<T: Threads + Wait + Sync, W: Write>(
    rt: &T,
    alloc: Global,
    input: &[u8],
    out: &mut W,
) -> Result<(), Failure>
    ensures printed { OnOk result ((frame : Frame) × (program input.now ≡ Ok frame) × Appends (W.contents out.old) (W.contents out.new) (printed frame)) }
    ensures failed { IfErr result (λ f. (program input.now ≡ Err f) ⊎ IsOutside f) }
    ensures unwritten { IfErr result (λ f. f ≢ failure.Run fault.Write → Keeps (W.contents out.old) (W.contents out.new)) }
{
    let (line, file) = split_line(input);
    match checked_plan(alloc, line) {
        Ok(plan) => run_file(rt, alloc, &plan, file, out),
        Err(failure) => Err(failure),
    }
}

// Writes the frame of a plan over one file in memory.
fn run_file<T: Threads + Wait + Sync, W: Write>(
    rt: &T,
    alloc: Global,
    plan: &Checked,
    file: &[u8],
    out: &mut W,
) -> Result<(), Failure>
    ensures printed { OnOk result ((frame : Frame) × (frame_of plan.now (file.now ∷ []) ≡ Ok frame) × Appends (W.contents out.old) (W.contents out.new) (printed_in plan.now.notations frame)) }
    ensures failed { IfErr result (λ f. (frame_of plan.now (file.now ∷ []) ≡ Err f) ⊎ IsOutside f) }
    ensures unwritten { IfErr result (λ f. f ≢ failure.Run fault.Write → Keeps (W.contents out.old) (W.contents out.new)) }
{
    let inputs = vec![in alloc; file]?;
    run_over(rt, alloc, plan, inputs, out, BATCH_SIZE, WORKERS)
}

/// Writes the frame of a plan over inputs, by batches of so many rows, from 1 to 65,536, and so many workers, from 1 to 16. Other settings, and
/// a number of inputs that is not the plan's, are refused before anything is read, as [`Checked::run`] refuses them.
pub fn run_over<T: Threads + Wait + Sync, R: Read + Drop + Send, W: Write>(
    rt: &T,
    alloc: Global,
    plan: &Checked,
    inputs: Vec<R>,
    out: &mut W,
    batch_size: u32,
    workers: u16,
) -> Result<(), Failure>
    ensures printed { (files : List (List ℕ)) → Tell R.remaining inputs.items files →
        OnOk result ((frame : Frame) × (frame_of plan.now files ≡ Ok frame) × Appends (W.contents out.old) (W.contents out.new) (printed_in plan.now.notations frame)) }
    ensures failed { (files : List (List ℕ)) → Tell R.remaining inputs.items files → AreSettings batch_size workers →
        IfErr result (λ f. (frame_of plan.now files ≡ Err f) ⊎ IsOutside f) }
    ensures refused { (f : FaultData) → start_refusal (files_wanted plan.now) (vec_len inputs) batch_size workers ≡ Some f → result ≡ Err (failure.Run f) }
    ensures unwritten { IfErr result (λ f. f ≢ failure.Run fault.Write → Keeps (W.contents out.old) (W.contents out.new)) }
{
    plan.run(rt, alloc, inputs, out, batch_size, workers)?;
    Ok(())
}

/// The plan that a text spells, if the check does not refuse it.
pub fn checked_plan(alloc: Global, text: &[u8]) -> Result<Checked, Failure>
    ensures { MatchResult result (λ plan. checked_plan_of text.now ≡ Ok plan) (λ f. (checked_plan_of text.now ≡ Err f) ⊎ (status_of f ≡ NoMemory)) }
{
    Ok(read_plan(alloc, text)?.check(alloc)?)
}
