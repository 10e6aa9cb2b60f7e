//! The arguments of the command line.
ghost use Rattle.std.specs.Prelude.{◌≡◌, ◌≤◌, ℕ, List, [], None, unwrap_or, Some, true, false, codes, map, option_map, string_bytes, count_by, IfOk, IfErr};
ghost use Rattle.std.specs.Option.{option_map_or};
ghost use Rattle.clap.specs.Words.{all_of, app_of, found_of, kind_of, rows_of, rule_of};
ghost use Rattle.fq_shell.specs.Arguments.{option_rule, number_rule, limit_rule, lists_rule, flag_rule, output_rule, file_rule, run_app, check_app, is_run, is_check, is_standard, is_standard_output, names_of, names_to_check, named_by, plan_text, reads_input_twice, replaces_plan};

use crate::files::{Opener, STANDARD_INPUT, STANDARD_OUTPUT};
use crate::notations::{notations_in, wrong_decimal};
use clap::error::ErrorKind;
use clap::{Arg, ArgAction, ArgMatches, Command, Error, value_parser};
use fq_csv::MAX_BATCH_SIZE;
use fq_lanes::MAX_WORKERS;
use fq_notation::NamedNotations;
use std::alloc::{AllocError, Global};

/// The rows of a batch, if no argument says otherwise.
pub const BATCH_SIZE: u32 = 1024;

/// The number of workers, if no argument says otherwise.
pub const WORKERS: u16 = 2;

/// The version of the program.
const VERSION: &str = "0.1.0";

/// The most lines that a check writes of problems, if no argument says otherwise.
const LIMIT: u64 = 100;

/// What the program's arguments ask for.
#[derive(Drop)]
pub struct Options<'a>(ArgMatches<'a>);

impl<'a> Options<'a> {
    /// The options of a run, if the arguments are those of one; the program's own name is not among these. Other arguments are refused:
    /// those of a run that repeats an option, too, which [`Options::of_arguments`] takes.
    pub fn of_run(alloc: Global, words: &'a [String]) -> Result<Options<'a>, Error>
        ensures taken { IfOk result (λ options. (is_run (map string_bytes words.now) ≡ true) × (named_by options ≡ names_of (map string_bytes words.now))) }
        ensures refused { IfErr result (λ refusal. is_run (map string_bytes words.now) ≡ true → kind_of refusal ≡ ErrorKind.OutOfMemory) }
    {
        Ok(Options(run_command(alloc)?.try_get_matches_from(words)?))
    }

    /// The options of a check of files, if the arguments are those of one; the program's own name is not among these. Other arguments are
    /// refused, as by [`Options::of_run`].
    pub fn of_check(alloc: Global, words: &'a [String]) -> Result<Options<'a>, Error>
        ensures taken { IfOk result (λ options. (is_check (map string_bytes words.now) ≡ true) × (named_by options ≡ names_to_check (map string_bytes words.now))) }
        ensures refused { IfErr result (λ refusal. is_check (map string_bytes words.now) ≡ true → kind_of refusal ≡ ErrorKind.OutOfMemory) }
    {
        Ok(Options(check_command(alloc)?.try_get_matches_from(words)?))
    }

    /// The options that the arguments give; the program's own name is not among these. A request for help or for the version is an
    /// error here, as in `clap`.
    pub fn of_arguments(alloc: Global, words: &'a [String]) -> Result<Options<'a>, Error> {
        Ok(Options(command(alloc)?.try_get_matches_from(words)?))
    }

    /// The name of the plan file. It is present unless a plan is to be drafted: `clap` requires it.
    pub fn plan(&self) -> Option<&'a str>
        ensures { option_map (λ name. name.now) result ≡ (named_by self.now).plan }
    {
        self.0.get_str("plan")
    }

    /// The names of the data files, in order. There are none only if the plan is to be explained.
    pub fn files(&self) -> &[&'a str]
        ensures { map (λ name. name.now) result.now ≡ (named_by self.now).files }
    {
        self.lists("file")
    }

    /// The rows of a batch, from 1 to 65,536; 1,024 without `--batch`.
    pub fn batch_size(&self) -> u32
        ensures positive { 1 ≤ result }
        ensures not_too_many { result ≤ MAX_BATCH_SIZE }
    {
        // (`clap` has refused a number out of this range, and no contract says so)
        let size = self.0.get_one("batch").unwrap_or(BATCH_SIZE);
        size.clamp(1, MAX_BATCH_SIZE)
    }

    /// The number of workers, from 1 to 16; 2 without `--workers`.
    pub fn workers(&self) -> u16
        ensures positive { 1 ≤ result }
        ensures not_too_many { result ≤ MAX_WORKERS }
    {
        let workers = self.0.get_one("workers").unwrap_or(WORKERS);
        workers.clamp(1, MAX_WORKERS)
    }

    /// The notations of columns by their names: those of `--decimal` in their order, and then those of `--date`. None if an entry of
    /// `--decimal` is no `NAME=SCALE` with a scale from 0 to 18. Fails if an allocation does.
    pub fn notations(&self, alloc: Global) -> Result<Option<NamedNotations>, AllocError>
        ensures { IfOk result (λ named. named ≡ (named_by self.now).notations) }
    {
        notations_in(alloc, self.decimals(), self.lists("date"))
    }

    /// The first entry of `--decimal` that is no `NAME=SCALE` with a scale from 0 to 18, if there is one. Fails if an allocation does.
    pub fn wrong_decimal(&self, alloc: Global) -> Result<Option<&'a str>, AllocError> {
        wrong_decimal(alloc, self.decimals())
    }

    // The lists of `--decimal`.
    fn decimals(&self) -> &[&'a str]
        ensures { map (λ list. list.now) result.now ≡ unwrap_or (all_of (codes "decimal") (rows_of (found_of self.now.0))) [] }
    {
        self.lists("decimal")
    }

    // The values of an argument that may have some, in order.
    fn lists(&self, name: &str) -> &[&'a str]
        ensures { map (λ list. list.now) result.now ≡ unwrap_or (all_of name.now (rows_of (found_of self.now.0))) [] }
    {
        self.0.get_strs(name).unwrap_or_default()
    }

    /// The name of the file that takes the frame, if standard output does not.
    pub fn output(&self) -> Option<&'a str>
        ensures { option_map (λ name. name.now) result ≡ (named_by self.now).output }
    {
        match self.0.get_str("output") {
            Some(name) => {
                if is_standard_output(name) {
                    None
                } else {
                    Some(name)
                }
            }
            None => None,
        }
    }

    /// Whether the file that takes the frame is that of the plan, so that the frame would replace the plan.
    pub fn replaces_plan<O: Opener>(&self, files: &mut O) -> bool
        ensures same { O.bytes_of files.new ≡ O.bytes_of files.old }
        ensures named { replaces_plan (named_by self.now) ≡ true → result ≡ true }
        ensures elsewhere { (named_by self.now).output ≡ None → result ≡ false }
        ensures told { (text : List ℕ) → plan_text (O.bytes_of files.old) (named_by self.now) ≡ Some text → result ≡ replaces_plan (named_by self.now) }
    {
        match (self.plan(), self.output()) {
            (Some(plan), Some(output)) => files.is_same_file(output, plan),
            _ => false,
        }
    }

    /// Whether the plan is to be explained, and not run.
    pub fn explain(&self) -> bool {
        self.0.get_flag("explain")
    }

    /// Whether the files are to be checked, and the plan not run.
    pub fn check(&self) -> bool {
        self.0.get_flag("check")
    }

    /// The most lines that a check writes of problems: 100 without `--limit`, and `u64::MAX` for `--limit 0`.
    pub fn limit(&self) -> u64 {
        match self.0.get_one("limit").unwrap_or(LIMIT) {
            0 => u64::MAX,
            limit => limit,
        }
    }

    /// Whether a plan is to be drafted for the files.
    pub fn draft(&self) -> bool {
        self.0.get_flag("draft")
    }

    /// The texts that are null in a draft.
    pub fn null_values(&self) -> &[&'a str] {
        self.0.get_strs("null-values").unwrap_or_default()
    }

    /// Whether to say more about a fault than its line.
    pub fn details(&self) -> bool {
        self.0.get_flag("details")
    }

    /// Whether to show how far the files are read.
    pub fn progress(&self) -> bool {
        self.0.get_flag("progress")
    }

    /// Whether more than one of the plan and the files is standard input.
    pub fn reads_input_twice(&self) -> bool
        ensures { result ≡ reads_input_twice (named_by self.now) }
    {
        let files = count_standard(self.files());
        if self.plan_is_standard() {
            files > 0
        } else {
            files > 1
        }
    }

    // Whether the plan is standard input.
    fn plan_is_standard(&self) -> bool
        ensures { result ≡ option_map_or is_standard (named_by self.now).plan false }
    {
        match self.plan() {
            Some(name) => name == STANDARD_INPUT,
            None => false,
        }
    }
}

// Whether this is a name of standard output.
fn is_standard_output(name: &str) -> bool
    ensures { result ≡ is_standard_output name.now }
{
    name == STANDARD_OUTPUT
        || name == "/dev/stdout"
        || name == "/dev/fd/1"
        || name == "/proc/self/fd/1"
}

// How many of these names are standard input.
fn count_standard(names: &[&str]) -> usize
    ensures { result ≡ count_by is_standard (map (λ name. name.now) names.now) }
{
    let mut count = 0;
    for name in names {
        if *name == STANDARD_INPUT {
            count += 1;
        }
    }
    count
}

// The command line of a run: no argument has a rule on another, and none may be repeated but the files, so that its contract says
// exactly what it takes and what it finds.
fn run_command<'a>(alloc: Global) -> Result<Command<'a>, AllocError>
    ensures { IfOk result (λ command. app_of command ≡ run_app) }
{
    let command = Command::new(alloc, "frameq")
        .no_binary_name(true)
        .disable_help_flag(true);
    let command = command.arg(plan(alloc).required(true))?;
    let command = command.arg(batch(alloc))?;
    let command = command.arg(workers(alloc))?;
    let command = command.arg(decimal(alloc))?;
    let command = command.arg(date(alloc))?;
    let command = command.arg(output(alloc))?;
    let command = command.arg(details(alloc))?;
    let command = command.arg(progress(alloc))?;
    command.arg(file(alloc).required(true))
}

// The command line of a check of files, with an exact contract as that of a run.
fn check_command<'a>(alloc: Global) -> Result<Command<'a>, AllocError>
    ensures { IfOk result (λ command. app_of command ≡ check_app) }
{
    let command = Command::new(alloc, "frameq")
        .no_binary_name(true)
        .disable_help_flag(true);
    let command = command.arg(plan(alloc).required(true))?;
    let command = command.arg(check(alloc).required(true))?;
    let command = command.arg(limit(alloc))?;
    let command = command.arg(decimal(alloc))?;
    let command = command.arg(date(alloc))?;
    let command = command.arg(details(alloc))?;
    command.arg(file(alloc).required(true))
}

// The whole command line, and its help, in whose order the arguments stand. Those of a run and of a check are the same as above, with rules
// on the others.
fn command<'a>(alloc: Global) -> Result<Command<'a>, AllocError> {
    let command = Command::new(alloc, "frameq")
        .no_binary_name(true)
        .version(VERSION)
        .about("Runs a plan over CSV files, and prints one CSV frame")
        .after_long_help(AFTER_HELP);
    let command = with_run(alloc, command)?;
    let command = with_reviews(alloc, command)?;
    with_messages(alloc, command)?.arg(file(alloc).required_unless_present("explain")?)
}

// Adds the arguments of a run.
fn with_run<'a>(alloc: Global, command: Command<'a>) -> Result<Command<'a>, AllocError> {
    let command = command.arg(plan(alloc).required_unless_present("draft")?)?;
    let command = command.arg(batch(alloc).overrides_with("batch")?)?;
    let command = command.arg(workers(alloc).overrides_with("workers")?)?;
    let command = command.arg(decimal(alloc))?;
    let command = command.arg(date(alloc))?;
    let output = output(alloc).overrides_with("output")?;
    command.arg(output.conflicts_with("explain")?)
}

// Adds the arguments with which no plan is run.
fn with_reviews<'a>(alloc: Global, command: Command<'a>) -> Result<Command<'a>, AllocError> {
    let check = check(alloc).conflicts_with("explain")?;
    let command = command
        .arg(explain(alloc))?
        .arg(check.conflicts_with("output")?)?;
    let limit = limit(alloc)
        .overrides_with("limit")?
        .conflicts_with("explain")?;
    let limit = limit.conflicts_with("draft")?.requires_arg("check")?;
    let command = command.arg(limit)?;
    let command = command.arg(draft(alloc)?)?;
    command.arg(null_values(alloc)?)
}

// Adds the arguments about what is said beside a frame.
fn with_messages<'a>(alloc: Global, command: Command<'a>) -> Result<Command<'a>, AllocError> {
    command.arg(details(alloc))?.arg(progress(alloc))
}

fn plan<'a>(alloc: Global) -> Arg<'a>
    ensures rule { rule_of result ≡ option_rule (codes "plan") }
    ensures local { result.global ≡ false }
{
    Arg::new(alloc, "plan")
        .long("plan")
        .value_name("PLAN")
        .action(ArgAction::Set)
        .help("The plan: a file with one JSON object, or - for standard input")
}

fn batch<'a>(alloc: Global) -> Arg<'a>
    ensures rule { rule_of result ≡ number_rule (codes "batch") 65536 (codes "1024") }
    ensures local { result.global ≡ false }
{
    Arg::new(alloc, "batch")
        .long("batch")
        .value_name("N")
        .value_parser(value_parser!(u32).range(1..=i64::from(MAX_BATCH_SIZE)))
        .default_value("1024")
        .help("Rows that are read and worked on at a time, from 1 to 65536")
}

fn workers<'a>(alloc: Global) -> Arg<'a>
    ensures rule { rule_of result ≡ number_rule (codes "workers") 16 (codes "2") }
    ensures local { result.global ≡ false }
{
    Arg::new(alloc, "workers")
        .long("workers")
        .value_name("N")
        .value_parser(value_parser!(u16).range(1..=i64::from(MAX_WORKERS)))
        .default_value("2")
        .help("Threads that work on batches, from 1 to 16")
}

fn decimal<'a>(alloc: Global) -> Arg<'a>
    ensures rule { rule_of result ≡ lists_rule (codes "decimal") }
    ensures local { result.global ≡ false }
{
    Arg::new(alloc, "decimal")
        .long("decimal")
        .value_name("NAME=SCALE")
        .action(ArgAction::Append)
        .help(
            "Int columns that are written with a decimal point, such as amount=2, with commas between them",
        )
}

fn date<'a>(alloc: Global) -> Arg<'a>
    ensures rule { rule_of result ≡ lists_rule (codes "date") }
    ensures local { result.global ≡ false }
{
    Arg::new(alloc, "date")
        .long("date")
        .value_name("NAME")
        .action(ArgAction::Append)
        .help("Int columns that are written as dates, YYYY-MM-DD, with commas between them")
}

fn output<'a>(alloc: Global) -> Arg<'a>
    ensures rule { rule_of result ≡ output_rule }
    ensures local { result.global ≡ false }
{
    Arg::new(alloc, "output")
        .long("output")
        .short('o')
        .value_name("OUT")
        .action(ArgAction::Set)
        .help("The file that takes the frame once all of it is there, or - for standard output")
}

fn explain<'a>(alloc: Global) -> Arg<'a> {
    Arg::new(alloc, "explain")
        .long("explain")
        .action(ArgAction::SetTrue)
        .help("Print what each step of the plan leaves and where it runs; no data is read")
}

fn check<'a>(alloc: Global) -> Arg<'a>
    ensures rule { rule_of result ≡ flag_rule (codes "check") }
    ensures local { result.global ≡ false }
{
    Arg::new(alloc, "check")
        .long("check")
        .action(ArgAction::SetTrue)
        .help("Say what is wrong in the files by the columns of the plan; no step is run")
}

fn limit<'a>(alloc: Global) -> Arg<'a>
    ensures rule { rule_of result ≡ limit_rule }
    ensures local { result.global ≡ false }
{
    Arg::new(alloc, "limit")
        .long("limit")
        .value_name("N")
        .value_parser(value_parser!(u64))
        .default_value("100")
        .help("Lines that --check writes of problems, or 0 for all")
}

fn draft<'a>(alloc: Global) -> Result<Arg<'a>, AllocError> {
    Arg::new(alloc, "draft")
        .long("draft")
        .action(ArgAction::SetTrue)
        .help("Print a plan without steps whose sources are the files")
        .conflicts_with("plan")?
        .conflicts_with("explain")?
        .conflicts_with("check")?
        .conflicts_with("output")
}

fn null_values<'a>(alloc: Global) -> Result<Arg<'a>, AllocError> {
    Arg::new(alloc, "null-values")
        .long("null-values")
        .value_name("TEXTS")
        .allow_hyphen_values(true)
        .value_delimiter(',')
        .action(ArgAction::Append)
        .help("Texts that --draft takes as null, with commas between them")
        .conflicts_with("plan")?
        .conflicts_with("explain")?
        .conflicts_with("check")?
        .requires_arg("draft")
}

fn details<'a>(alloc: Global) -> Arg<'a>
    ensures rule { rule_of result ≡ flag_rule (codes "details") }
    ensures local { result.global ≡ false }
{
    Arg::new(alloc, "details")
        .long("details")
        .action(ArgAction::SetTrue)
        .help("Say more about a fault, in lines after its own: where it is, and what stands there")
}

fn progress<'a>(alloc: Global) -> Arg<'a>
    ensures rule { rule_of result ≡ flag_rule (codes "progress") }
    ensures local { result.global ≡ false }
{
    Arg::new(alloc, "progress")
        .long("progress")
        .action(ArgAction::SetTrue)
        .help("Show on standard error how far the files are read, if it is a terminal")
}

fn file<'a>(alloc: Global) -> Arg<'a>
    ensures rule { rule_of result ≡ file_rule }
    ensures local { result.global ≡ false }
{
    Arg::new(alloc, "file")
        .value_name("FILE")
        .action(ArgAction::Append)
        .num_args(1..)
        .help(
            "The CSV files, or - for standard input: those of the plan's first source, then those of the next, and so on",
        )
}

const AFTER_HELP: &str =
    r#"A plan has a version, its sources (how many files each has, and the names and kinds of its columns), and its
steps. They run in order over the rows of the last source; a join names one of the sources before it. Neither
--batch nor --workers changes what is printed.

Without arguments, the first line of standard input is the plan, and the bytes after it are its one file.

Exit status:
  0  the frame, or the text asked for, is on standard output or in OUT
  2  arguments that are refused, or the wrong number of files
  3  the plan is refused
  4  a fault of a file's text, or of a step on its rows; --check found problems
  5  a file cannot be opened or read, or a write failed
  6  out of memory
Where it is not 0, a line on standard error says why.

Example, with plan.json
  {"version":1,"sources":[{"files":1,"columns":[["id","int"],["v","int"]]}],"steps":[{"filter":["gt",{"col":"v"},10]}]}
and data.csv
  id,v
  1,5
  3,20
The command
  frameq --plan plan.json data.csv
prints
  id,v
  3,20"#;
