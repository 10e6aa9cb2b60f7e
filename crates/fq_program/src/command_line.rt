//! The program with arguments.
ghost use Rattle.std.specs.Prelude.{◌≡◌, ◌≢◌, ◌⊎◌, ◌<◌, ◌^◌, ℕ, List, [], Some, None, IfErr, IfOk, MatchResult, OnOk, length, map, string_bytes, false, true};
ghost use Rattle.std.specs.Io.KnownBytes.{Keeps};
ghost use Rattle.fq_language.specs.Plan.{PlanData, files_wanted};
ghost use Rattle.fq_run.specs.declared.faults.Fault.TheVariants as fault;
ghost use Rattle.fq_run.specs.Run.{Tell};
ghost use Rattle.fq_shell.specs.Arguments.{is_check, is_run, names_of, names_to_check, named_by, plan_text};
ghost use Rattle.fq_messages.specs.Ending.{done, bad_device, code_of, IsOutside};
ghost use Rattle.fq_messages.specs.declared.failures.Failure.TheVariants as failure;
ghost use Rattle.fq_program.specs.Program.{checked_plan as checked_plan_of};
ghost use Rattle.fq_program.specs.Named.{check_of, names_refusal, notations_of, noted_plan as noted_plan_of, plan_in, planned as planned_of, reviewed, text_over, AnswersBy, ComesTo, EndsAt, RunEnds, IsCheck, IsGuarded, IsPlaced, LeavesPlan, OnlyChanges};

use crate::program::{checked_plan, run_over};
use clap::error::ErrorKind;
use fq_column::Memory;
use fq_messages::{
    Failure, Learned, Status, check_files, draft_of, open, read_whole, report, write_details,
};
use fq_notation::NamedNotations;
use fq_plan::{Checked, Fault, read_plan};
use fq_review::Draft;
use fq_shell::{Noted, Opener, Options, write_refusal};
use std::alloc::Global;
use std::io::{Read, Write};
use std::sync::Wait;
use std::thread::Threads;

/// Does what the arguments ask for, and answers the exit status. The program's own name is not among these.
///
/// `--plan PLAN [--batch N] [--workers N] [--decimal LIST].. [--date LIST].. [--output OUT] [--details] [--progress] FILE...` runs a plan over
/// files and writes the frame to `out`, or in the place of a file, which stays as it was if there is no frame.
/// `--plan PLAN --explain [FILE...]` writes there what the plan's steps leave, and opens no file of data; `--help` and `--version` write a
/// text. At any status but 0 `err` says why, in one line (of arguments that are refused, as `clap` has it), and with `--details` in lines after
/// it, and nothing is written to `out`, except that at 5, if the write itself failed, an unknown part may be. A failed write to `err` changes no
/// status. The arguments are judged first, with the entries of `--decimal`; then the plan file, the plan, the number of files, and the names of
/// `--decimal` and `--date`; then the files are opened in order, and read as the run goes on.
///
/// `--plan PLAN --check [--limit N] [--decimal LIST].. [--date LIST].. [--details] FILE...` writes on `err` what is wrong in the files, and
/// runs no step; `--draft [--null-values TEXTS] [--decimal LIST].. [--date LIST].. FILE...` writes a plan without steps to `out`, whose sources
/// are the files.
pub fn with_words<T: Threads + Wait + Sync, O: Opener, W: Write, E: Write>(
    rt: &T,
    alloc: Global,
    words: Vec<String>,
    files: &mut O,
    out: &mut Noted<W>,
    err: &mut E,
) -> u8
    ensures run { let arguments = map string_bytes words.items in is_run arguments ≡ true →
        RunEnds (names_of arguments) (O.bytes_of files.old) (O.bytes_of files.new) (W.contents out.old.writer) (W.contents out.new.writer)
        (E.contents err.old) (E.contents err.new) result }
    ensures unwritten { result ≢ done → result ≢ bad_device → Keeps (W.contents out.old.writer) (W.contents out.new.writer) }
    ensures untouched { result ≢ done → O.bytes_of files.new ≡ O.bytes_of files.old }
    ensures checked { let arguments = map string_bytes words.items in (text : List ℕ) (inputs : List (List ℕ)) → IsCheck (O.bytes_of files.old) arguments text →
        Tell (O.bytes_of files.old) (names_to_check arguments).files inputs → EndsAt (code_of (check_of (names_to_check arguments) text inputs)) result }
    ensures only_read { let arguments = map string_bytes words.items in is_run arguments ≡ false → is_check arguments ≡ true → O.bytes_of files.new ≡ O.bytes_of files.old }
{
    match Options::of_run(alloc, words.as_slice()) {
        Ok(options) => answer_run(rt, alloc, &options, files, out, err),
        Err(refusal) => match refusal.kind() {
            ErrorKind::OutOfMemory => report(Err(Failure::MEMORY), err),
            _ => answer_other(rt, alloc, words.as_slice(), files, out, err),
        },
    }
}

// Runs the plan of the plan file over the data files, and says on `err` why there is no frame.
fn answer_run<T: Threads + Wait + Sync, O: Opener, W: Write, E: Write>(
    rt: &T,
    alloc: Global,
    options: &Options<'_>,
    files: &mut O,
    out: &mut Noted<W>,
    err: &mut E,
) -> u8
    ensures run { RunEnds (named_by options.now) (O.bytes_of files.old) (O.bytes_of files.new) (W.contents out.old.writer) (W.contents out.new.writer)
        (E.contents err.old) (E.contents err.new) result }
    ensures unwritten { result ≢ done → result ≢ bad_device → Keeps (W.contents out.old.writer) (W.contents out.new.writer) }
    ensures untouched { result ≢ done → O.bytes_of files.new ≡ O.bytes_of files.old }
{
    let mut learned = Learned::new(alloc);
    let ending = run_named(rt, alloc, options, files, out, &mut learned);
    learned.write = learned.write.or(out.error);
    answer_ending(alloc, ending, options, &learned, files, err)
}

// The exit status of an ending; on `err`, why there is nothing on the output, with details if they are asked for.
fn answer_ending<O: Opener, E: Write>(
    alloc: Global,
    ending: Result<(), Failure>,
    options: &Options<'_>,
    learned: &Learned,
    files: &mut O,
    err: &mut E,
) -> u8
    ensures code { result ≡ code_of ending }
    ensures same { O.bytes_of files.new ≡ O.bytes_of files.old }
    ensures quiet { OnOk ending (Keeps (E.contents err.old) (E.contents err.new)) }
{
    let status = report(ending, err);
    if let Err(failure) = ending
        && options.details()
    {
        write_details(alloc, failure, options, learned, files, err);
    }
    status
}

// Checks the data files by the plan of the plan file, or does what else the arguments ask for.
fn answer_other<T: Threads + Wait + Sync, O: Opener, W: Write, E: Write>(
    rt: &T,
    alloc: Global,
    words: &[String],
    files: &mut O,
    out: &mut Noted<W>,
    err: &mut E,
) -> u8
    ensures unwritten { result ≢ done → result ≢ bad_device → Keeps (W.contents out.old.writer) (W.contents out.new.writer) }
    ensures untouched { result ≢ done → O.bytes_of files.new ≡ O.bytes_of files.old }
    ensures checked { let arguments = map string_bytes words.now in (text : List ℕ) (inputs : List (List ℕ)) → IsCheck (O.bytes_of files.old) arguments text →
        Tell (O.bytes_of files.old) (names_to_check arguments).files inputs → EndsAt (code_of (check_of (names_to_check arguments) text inputs)) result }
    ensures only_read { is_check (map string_bytes words.now) ≡ true → O.bytes_of files.new ≡ O.bytes_of files.old }
{
    match Options::of_check(alloc, words) {
        Ok(options) => answer_check(alloc, &options, files, err),
        Err(refusal) => match refusal.kind() {
            ErrorKind::OutOfMemory => report(Err(Failure::MEMORY), err),
            _ => answer_rest(rt, alloc, words, files, out, err),
        },
    }
}

// Checks the data files by the plan of the plan file, and says on `err` what is wrong in them.
fn answer_check<O: Opener, E: Write>(
    alloc: Global,
    options: &Options<'_>,
    files: &mut O,
    err: &mut E,
) -> u8
    ensures same { O.bytes_of files.new ≡ O.bytes_of files.old }
    ensures checked { (text : List ℕ) (inputs : List (List ℕ)) → plan_text (O.bytes_of files.old) (named_by options.now) ≡ Some text →
        Tell (O.bytes_of files.old) (named_by options.now).files inputs → EndsAt (code_of (check_of (named_by options.now) text inputs)) result }
{
    let mut learned = Learned::new(alloc);
    let ending = check_named(alloc, options, files, err, &mut learned);
    answer_ending(alloc, ending, options, &learned, files, err)
}

// Does what arguments ask for that are not only those of a run or of a check, or says what is wrong with them.
fn answer_rest<T: Threads + Wait + Sync, O: Opener, W: Write, E: Write>(
    rt: &T,
    alloc: Global,
    words: &[String],
    files: &mut O,
    out: &mut Noted<W>,
    err: &mut E,
) -> u8
    ensures unwritten { result ≢ done → result ≢ bad_device → Keeps (W.contents out.old.writer) (W.contents out.new.writer) }
    ensures untouched { result ≢ done → O.bytes_of files.new ≡ O.bytes_of files.old }
{
    match Options::of_arguments(alloc, words) {
        Ok(options) => answer_options(rt, alloc, &options, files, out, err),
        Err(answer) => answer_usage(alloc, &answer, out, err),
    }
}

// Says what is wrong with the arguments on `err`, or writes the text that they ask for to `out`.
fn answer_usage<W: Write, E: Write>(
    alloc: Global,
    answer: &clap::Error,
    out: &mut W,
    err: &mut E,
) -> u8
    ensures unwritten { result ≢ done → result ≢ bad_device → Keeps (W.contents out.old) (W.contents out.new) }
{
    if answer.kind() == ErrorKind::OutOfMemory {
        return report(Err(Failure::MEMORY), err);
    }
    if answer.use_stderr() {
        return match write_refusal(alloc, answer, err) {
            Ok(()) => Status::BadArguments as u8,
            Err(_) => report(Err(Failure::MEMORY), err),
        };
    }
    report(
        write!(out, "{answer}").map_err(|_| Failure::Run(Fault::Write)),
        err,
    )
}

// Does what the options ask for, and says on `err` why there is nothing on `out`.
fn answer_options<T: Threads + Wait + Sync, O: Opener, W: Write, E: Write>(
    rt: &T,
    alloc: Global,
    options: &Options<'_>,
    files: &mut O,
    out: &mut Noted<W>,
    err: &mut E,
) -> u8
    ensures unwritten { result ≢ done → result ≢ bad_device → Keeps (W.contents out.old.writer) (W.contents out.new.writer) }
    ensures untouched { result ≢ done → O.bytes_of files.new ≡ O.bytes_of files.old }
{
    let mut learned = Learned::new(alloc);
    let ending = run_options(rt, alloc, options, files, out, err, &mut learned);
    learned.write = learned.write.or(out.error);
    answer_ending(alloc, ending, options, &learned, files, err)
}

// Drafts a plan, checks the data files, explains the plan of the plan file, or runs it over the data files.
fn run_options<T: Threads + Wait + Sync, O: Opener, W: Write, E: Write>(
    rt: &T,
    alloc: Global,
    options: &Options<'_>,
    files: &mut O,
    out: &mut W,
    err: &mut E,
    learned: &mut Learned,
) -> Result<(), Failure>
    ensures unwritten { IfErr result (λ f. f ≢ failure.Run fault.Write → Keeps (W.contents out.old) (W.contents out.new)) }
    ensures untouched { IfErr result (λ _. O.bytes_of files.new ≡ O.bytes_of files.old) }
{
    if options.check() {
        check_named(alloc, options, files, err, learned)
    } else if options.draft() {
        draft_plan(alloc, options, files, out, err, learned)
    } else if options.explain() {
        explain_plan(alloc, options, files, out, learned)
    } else {
        run_named(rt, alloc, options, files, out, learned)
    }
}

// Checks the data files by the plan of the plan file, and writes on `err` what is wrong in them.
fn check_named<O: Opener, E: Write>(
    alloc: Global,
    options: &Options<'_>,
    files: &mut O,
    err: &mut E,
    learned: &mut Learned,
) -> Result<(), Failure>
    ensures same { O.bytes_of files.new ≡ O.bytes_of files.old }
    ensures checked { (text : List ℕ) (inputs : List (List ℕ)) → plan_text (O.bytes_of files.old) (named_by options.now) ≡ Some text →
        Tell (O.bytes_of files.old) (named_by options.now).files inputs → ComesTo (check_of (named_by options.now) text inputs) result }
{
    let named = judge_names(alloc, options, files)?;
    match planned(alloc, &named, options, files, learned) {
        Ok(plan) => {
            write_notes(
                alloc,
                &plan,
                &named,
                options.plan().unwrap_or_default(),
                err,
            )?;
            check_by_text(alloc, learned.plan.as_slice(), &named, options, files, err)
        }
        Err(failure) => Err(failure),
    }
}

// Writes what a reader of the plan of a file may want to know of its notations.
fn write_notes<E: Write>(
    alloc: Global,
    plan: &Checked,
    named: &NamedNotations,
    name: &str,
    err: &mut E,
) -> Result<(), Memory> {
    for note in plan.notation_notes(alloc, named)? {
        let _ = writeln!(err, "{name}: warning: {note}");
    }
    Ok(())
}

// Checks the data files by the plan of a text, in notations.
fn check_by_text<O: Opener, E: Write>(
    alloc: Global,
    text: &[u8],
    named: &NamedNotations,
    options: &Options<'_>,
    files: &mut O,
    err: &mut E,
) -> Result<(), Failure>
    ensures same { O.bytes_of files.new ≡ O.bytes_of files.old }
    ensures checked { (inputs : List (List ℕ)) (plan : PlanData) → Tell (O.bytes_of files.old) (named_by options.now).files inputs →
        plan_in text.now named.now (length (named_by options.now).files) ≡ Ok plan → ComesTo (reviewed (Ok plan) inputs) result }
{
    match read_plan(alloc, text) {
        Ok(plan) => check_files(alloc, &plan, named, options, files, err),
        Err(fault) => Err(fault.into()),
    }
}

// The plan of the plan file in notations, over the data files; its text is learned.
fn planned<O: Opener>(
    alloc: Global,
    named: &NamedNotations,
    options: &Options<'_>,
    files: &mut O,
    learned: &mut Learned,
) -> Result<Checked, Failure>
    ensures same { O.bytes_of files.new ≡ O.bytes_of files.old }
    ensures few { OnOk result (length (named_by options.now).files < 2 ^ 16) }
    ensures planned { (text : List ℕ) → plan_text (O.bytes_of files.old) (named_by options.now) ≡ Some text →
        MatchResult result (λ plan. plan_in text named.now (length (named_by options.now).files) ≡ Ok plan) (λ f. (plan_in text named.now (length (named_by options.now).files) ≡ Err f) ⊎ IsOutside f) }
    ensures learned { (text : List ℕ) → plan_text (O.bytes_of files.old) (named_by options.now) ≡ Some text → OnOk result (learned.new.plan.items ≡ text) }
{
    match read_plan_file(alloc, options, files, learned) {
        Ok(plan) => noted_plan(alloc, plan, named, options.files()),
        Err(failure) => Err(failure),
    }
}

// The plan in notations, over files of these names. A number of files that is not the plan's is refused first.
fn noted_plan(
    alloc: Global,
    plan: Checked,
    named: &NamedNotations,
    names: &[&str],
) -> Result<Checked, Failure>
    ensures few { OnOk result (length names.now < 2 ^ 16) }
    ensures noted { MatchResult result (λ p. noted_plan_of plan named.now (length names.now) ≡ Ok p) (λ f. (noted_plan_of plan named.now (length names.now) ≡ Err f) ⊎ IsOutside f) }
{
    count_files(&plan, names)?;
    Ok(plan.with_notations(alloc, named)?)
}

// The plan of the plan file, whose text is learned.
fn read_plan_file<O: Opener>(
    alloc: Global,
    options: &Options<'_>,
    files: &mut O,
    learned: &mut Learned,
) -> Result<Checked, Failure>
    ensures same { O.bytes_of files.new ≡ O.bytes_of files.old }
    ensures read { (text : List ℕ) → plan_text (O.bytes_of files.old) (named_by options.now) ≡ Some text →
        MatchResult result (λ plan. checked_plan_of text ≡ Ok plan) (λ f. (checked_plan_of text ≡ Err f) ⊎ IsOutside f) }
    ensures learned { (text : List ℕ) → plan_text (O.bytes_of files.old) (named_by options.now) ≡ Some text → OnOk result (learned.new.plan.items ≡ text) }
{
    match read_plan_text(alloc, options, files) {
        Ok(text) => {
            learned.plan = text;
            checked_plan(alloc, learned.plan.as_slice())
        }
        Err(failure) => Err(failure),
    }
}

// The text of the plan file.
fn read_plan_text<O: Opener>(
    alloc: Global,
    options: &Options<'_>,
    files: &mut O,
) -> Result<Vec<u8>, Failure>
    ensures same { O.bytes_of files.new ≡ O.bytes_of files.old }
    ensures read { (text : List ℕ) → plan_text (O.bytes_of files.old) (named_by options.now) ≡ Some text → IfOk result (λ bytes. bytes.items ≡ text) }
    ensures failed { IfErr result IsOutside }
{
    match options.plan() {
        Some(name) => match open(files, name, Failure::PlanFile) {
            Ok(reader) => read_whole(alloc, reader, Failure::PlanFile),
            Err(failure) => Err(failure),
        },
        None => Err(Failure::PlanFile),
    }
}

// Writes a plan without steps whose sources are the data files, and on `err` what a reader of it may want to know.
fn draft_plan<O: Opener, W: Write, E: Write>(
    alloc: Global,
    options: &Options<'_>,
    files: &mut O,
    out: &mut W,
    err: &mut E,
    learned: &mut Learned,
) -> Result<(), Failure>
    ensures same { O.bytes_of files.new ≡ O.bytes_of files.old }
    ensures unwritten { IfErr result (λ f. f ≢ failure.Run fault.Write → Keeps (W.contents out.old) (W.contents out.new)) }
{
    let named = judge_names(alloc, options, files)?;
    match draft_of(alloc, named, options, files, err) {
        Ok(draft) => write_draft(alloc, &draft, options.files(), out, err, learned),
        Err(failure) => Err(failure),
    }
}

// Writes the plan that files of these names draft, and on `err` what a reader of it may want to know.
fn write_draft<W: Write, E: Write>(
    alloc: Global,
    draft: &Draft,
    names: &[&str],
    out: &mut W,
    err: &mut E,
    learned: &mut Learned,
) -> Result<(), Failure>
    ensures unwritten { IfErr result (λ f. f ≢ failure.Run fault.Write → Keeps (W.contents out.old) (W.contents out.new)) }
{
    draft.write_notes(names, err);
    learned.plan = draft.plan()?.into_bytes();
    let text = learned.plan.as_slice();
    judge_draft(alloc, text, draft.notations())?;
    out.write_all(text).map_err(|_| Failure::Run(Fault::Write))
}

// Refuses the text of a draft as a run in these notations would be refused.
fn judge_draft(alloc: Global, text: &[u8], named: &NamedNotations) -> Result<(), Failure> {
    match checked_plan(alloc, text)?.with_notations(alloc, named) {
        Ok(_) => Ok(()),
        Err(fault) => Err(fault.into()),
    }
}

// Writes what the steps of the plan of the plan file leave. If there are names of files, their number has to be the plan's.
fn explain_plan<O: Opener, W: Write>(
    alloc: Global,
    options: &Options<'_>,
    files: &mut O,
    out: &mut W,
    learned: &mut Learned,
) -> Result<(), Failure>
    ensures same { O.bytes_of files.new ≡ O.bytes_of files.old }
    ensures unwritten { IfErr result (λ f. f ≢ failure.Run fault.Write → Keeps (W.contents out.old) (W.contents out.new)) }
{
    let named = judge_names(alloc, options, files)?;
    match read_plan_file(alloc, options, files, learned) {
        Ok(plan) => explain_noted(alloc, plan, &named, options.files(), out),
        Err(failure) => Err(failure),
    }
}

// Writes what the steps of a plan leave, in notations. If there are names of files, their number has to be the plan's.
fn explain_noted<W: Write>(
    alloc: Global,
    plan: Checked,
    named: &NamedNotations,
    names: &[&str],
    out: &mut W,
) -> Result<(), Failure>
    ensures unwritten { IfErr result (λ f. f ≢ failure.Run fault.Write → Keeps (W.contents out.old) (W.contents out.new)) }
{
    if !names.is_empty() {
        count_files(&plan, names)?;
    }
    match plan.with_notations(alloc, named) {
        Ok(plan) => write_explanation(alloc, &plan, named, out),
        Err(fault) => Err(fault.into()),
    }
}

// Writes what the steps of a plan leave, and what a reader may want to know of the notations.
fn write_explanation<W: Write>(
    alloc: Global,
    plan: &Checked,
    named: &NamedNotations,
    out: &mut W,
) -> Result<(), Failure>
    ensures unwritten { IfErr result (λ f. f ≢ failure.Run fault.Write → Keeps (W.contents out.old) (W.contents out.new)) }
{
    let (explanation, notes) = (
        plan.explain(alloc, named)?,
        plan.notation_notes(alloc, named)?,
    );
    write!(out, "{explanation}").map_err(|_| Failure::Run(Fault::Write))?;
    for note in notes {
        writeln!(out, "{note}").map_err(|_| Failure::Run(Fault::Write))?;
    }
    Ok(())
}

// The notations that the arguments give to columns. Refuses names by which the frame would replace the plan, or standard input would be read
// twice, and then an entry of `--decimal` that is wrong.
fn judge_names<O: Opener>(
    alloc: Global,
    options: &Options<'_>,
    files: &mut O,
) -> Result<NamedNotations, Failure>
    ensures same { O.bytes_of files.new ≡ O.bytes_of files.old }
    ensures told { (text : List ℕ) → plan_text (O.bytes_of files.old) (named_by options.now) ≡ Some text →
        MatchResult result (λ named. (names_refusal (named_by options.now) ≡ None) × (named ≡ notations_of (named_by options.now))) (λ f. (names_refusal (named_by options.now) ≡ Some f) ⊎ IsOutside f) }
{
    if options.replaces_plan(files) {
        return Err(Failure::PlanReplaced);
    }
    if options.reads_input_twice() {
        return Err(Failure::InputTwice);
    }
    match options.notations(alloc) {
        Ok(Some(named)) => Ok(named),
        Ok(None) => Err(Failure::Decimals),
        Err(_) => Err(Failure::MEMORY),
    }
}

// Writes the frame of the plan of the plan file over the data files.
fn run_named<T: Threads + Wait + Sync, O: Opener, W: Write>(
    rt: &T,
    alloc: Global,
    options: &Options<'_>,
    files: &mut O,
    out: &mut W,
    learned: &mut Learned,
) -> Result<(), Failure>
    ensures ended { (text : List ℕ) → plan_text (O.bytes_of files.old) (named_by options.now) ≡ Some text →
        AnswersBy (planned_of (named_by options.now) text) result (LeavesPlan (Tell (O.bytes_of files.old) (named_by options.now).files) (named_by options.now).output
        (W.contents out.old) (W.contents out.new) (O.bytes_of files.old) (O.bytes_of files.new) result) }
    ensures guarded { IsGuarded (named_by options.now).output (W.contents out.old) (W.contents out.new) (O.bytes_of files.old) (O.bytes_of files.new) result }
{
    let named = judge_names(alloc, options, files)?;
    match planned(alloc, &named, options, files, learned) {
        Ok(plan) => run_planned(rt, alloc, &plan, options, files, out, learned),
        Err(failure) => Err(failure),
    }
}

// Writes the frame of the plan over the data files, and shows meanwhile how far they are read, if that is asked for.
fn run_planned<T: Threads + Wait + Sync, O: Opener, W: Write>(
    rt: &T,
    alloc: Global,
    plan: &Checked,
    options: &Options<'_>,
    files: &mut O,
    out: &mut W,
    learned: &mut Learned,
) -> Result<(), Failure>
    requires few { length (named_by options.now).files < 2 ^ 16 }
    ensures ended { LeavesPlan (Tell (O.bytes_of files.old) (named_by options.now).files) (named_by options.now).output
        (W.contents out.old) (W.contents out.new) (O.bytes_of files.old) (O.bytes_of files.new) result plan.now }
    ensures guarded { IsGuarded (named_by options.now).output (W.contents out.old) (W.contents out.new) (O.bytes_of files.old) (O.bytes_of files.new) result }
{
    if options.progress() {
        files.show_progress();
    }
    let ending = match open_all(alloc, files, options.files()) {
        Ok(inputs) => write_frame(rt, alloc, plan, options, inputs, files, out, learned),
        Err(failure) => Err(failure),
    };
    files.clear_progress();
    ending
}

// Writes the frame of the plan over inputs to `out`, or in the place of a file.
fn write_frame<T: Threads + Wait + Sync, R: Read + Drop + Send, O: Opener, W: Write>(
    rt: &T,
    alloc: Global,
    plan: &Checked,
    options: &Options<'_>,
    inputs: Vec<R>,
    files: &mut O,
    out: &mut W,
    learned: &mut Learned,
) -> Result<(), Failure>
    ensures ended { LeavesPlan (Tell R.remaining inputs.items) (named_by options.now).output
        (W.contents out.old) (W.contents out.new) (O.bytes_of files.old) (O.bytes_of files.new) result plan.now }
    ensures guarded { IsGuarded (named_by options.now).output (W.contents out.old) (W.contents out.new) (O.bytes_of files.old) (O.bytes_of files.new) result }
{
    let (batch_size, workers) = (options.batch_size(), options.workers());
    match options.output() {
        None => run_over(rt, alloc, plan, inputs, out, batch_size, workers),
        Some(name) => match files.output_of(alloc, name) {
            Ok(output) => run_to_file(
                rt, alloc, plan, options, inputs, name, output, files, learned,
            ),
            Err(fault) => Err(learned.failure_of_write(fault)),
        },
    }
}

// Refuses a number of files that is not the plan's.
fn count_files(plan: &Checked, names: &[&str]) -> Result<(), Failure>
    ensures few { OnOk result (length names.now < 2 ^ 16) }
    ensures right { OnOk result (length names.now ≡ files_wanted plan.now) }
    ensures wrong { IfErr result (λ f. (length names.now ≢ files_wanted plan.now) × (f ≡ failure.Run (fault.Inputs (files_wanted plan.now) (length names.now)))) }
{
    let (wanted, got) = (plan.inputs(), names.len());
    if got != usize::from(wanted) {
        return Err(Failure::Run(Fault::Inputs { wanted, got }));
    }
    Ok(())
}

// Writes the frame of the plan over inputs in the place of a file, which stays as it was if there is no frame.
fn run_to_file<T: Threads + Wait + Sync, R: Read + Drop + Send, O: Opener>(
    rt: &T,
    alloc: Global,
    plan: &Checked,
    options: &Options<'_>,
    inputs: Vec<R>,
    name: &str,
    output: O::Output,
    files: &mut O,
    learned: &mut Learned,
) -> Result<(), Failure>
    ensures ended { (texts : List (List ℕ)) → Tell R.remaining inputs.items texts →
        MatchResult result (λ _. (text : List ℕ) × (text_over plan.now texts ≡ Ok text) × (O.Output.contents output ≡ Some [] → IsPlaced (O.bytes_of files.old) (O.bytes_of files.new) name.now text))
        (λ f. (text_over plan.now texts ≡ Err f) ⊎ IsOutside f) }
    ensures untouched { IfErr result (λ _. O.bytes_of files.new ≡ O.bytes_of files.old) }
    ensures others { OnlyChanges (Some name.now) (O.bytes_of files.old) (O.bytes_of files.new) }
{
    let mut output = Noted::new(output);
    let (batch_size, workers) = (options.batch_size(), options.workers());
    let answer = run_over(rt, alloc, plan, inputs, &mut output, batch_size, workers);
    let Noted { writer, error } = output;
    match answer {
        Ok(()) => match files.keep(name, writer) {
            Ok(()) => Ok(()),
            Err(fault) => Err(learned.failure_of_write(fault)),
        },
        Err(failure) => {
            learned.write = error;
            files.discard(writer);
            Err(failure)
        }
    }
}

// Readers of the files of these names, in order.
fn open_all<O: Opener>(
    alloc: Global,
    files: &mut O,
    names: &[&str],
) -> Result<Vec<O::Reader>, Failure>
    requires { length names.now < 2 ^ 16 }
    ensures same { O.bytes_of files.new ≡ O.bytes_of files.old }
    ensures told { (inputs : List (List ℕ)) → Tell (O.bytes_of files.old) (map (λ name. name.now) names.now) inputs →
        IfOk result (λ readers. Tell O.Reader.remaining readers.items inputs) }
    ensures failed { IfErr result IsOutside }
{
    let mut readers = Vec::with_capacity(alloc, names.len())?;
    for (file, name) in names.iter().enumerate() {
        let failure = Failure::Run(Fault::Read { file: file as u16 });
        readers.push(open(files, name, failure)?)?;
    }
    Ok(readers)
}
