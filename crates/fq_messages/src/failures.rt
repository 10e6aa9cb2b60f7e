//! Why the program ends without a frame, and what it says then.
ghost use Rattle.std.specs.Prelude.{◌≡◌, OnOk};
ghost use Rattle.std.specs.Io.KnownBytes.{Keeps};
ghost use Rattle.fq_messages.specs.Ending.{code_of, status_of, status_of_fault};
ghost use Rattle.fq_messages.specs.declared.failures.Failure.TheVariants as failure;
ghost use Rattle.fq_run.specs.declared.faults.Fault.TheVariants as fault;

use crate::status::Status;
use fq_column::{Memory, StepFault};
use fq_csv::MAX_FILES;
use fq_language::{CheckFault, MAX_NULL_VALUES, MAX_SOURCES, PlanFault};
use fq_plan::NotationFault;
use fq_review::DraftFault;
use fq_run::Fault;
use std::alloc::{AllocError, AllocFailed};
use std::io::Write;
use thiserror::Error;

/// Why the program ends without a frame. Its text is the line that the program prints, without the program's name.
#[derive(Clone, Copy, Debug, PartialEq, Eq, Error)]
pub enum Failure {
    /// An argument is not valid UTF-8.
    #[error("an argument is not valid UTF-8")]
    Arguments,
    /// The arguments name standard input more than once.
    #[error("standard input (-) can be read only once")]
    InputTwice,
    /// The frame would take the place of the plan file.
    #[error("the frame would replace the plan")]
    PlanReplaced,
    /// An entry of `--decimal` is not a name with a scale.
    #[error("--decimal takes NAME=SCALE, with a scale from 0 to 18")]
    Decimals,
    /// The plan has no column of ints for a notation, a column has two, or a step leaves a column without one.
    #[error("--decimal, --date: {0}")]
    Notation(NotationFault),
    /// The plan file cannot be opened or read.
    #[error("cannot read plan")]
    PlanFile,
    /// The plan's text spells no plan.
    #[error(transparent)]
    Plan(PlanFault),
    /// The check refuses the plan.
    #[error(transparent)]
    Check(CheckFault),
    /// The run gives no frame, or does not start.
    #[error(transparent)]
    Run(Fault),
    /// A check of the files found problems.
    #[error("the files have problems")]
    Problems,
    /// The files draft no plan.
    #[error(transparent)]
    Draft(DraftFault),
    /// There are more files, sources or texts that are null than a plan may have.
    #[error("a plan has at most {MAX_FILES} files, {MAX_SOURCES} sources and {MAX_NULL_VALUES} null values")]
    DraftTooLarge,
}

impl Failure {
    /// An allocation failed, wherever it was.
    pub const MEMORY: Failure = Failure::Run(Fault::Memory);

    /// The exit status of a program that ends with this failure.
    pub fn status(self) -> Status
        ensures { result ≡ status_of self }
    {
        match self {
            Failure::Arguments
            | Failure::InputTwice
            | Failure::PlanReplaced
            | Failure::Decimals
            | Failure::DraftTooLarge => Status::BadArguments,
            Failure::Notation(NotationFault::Memory) => Status::NoMemory,
            Failure::Notation(_) => Status::BadArguments,
            Failure::PlanFile => Status::BadDevice,
            Failure::Plan(PlanFault::Memory) => Status::NoMemory,
            Failure::Plan(_) => Status::BadPlan,
            Failure::Check(refusal) => match refusal.code {
                StepFault::Memory => Status::NoMemory,
                _ => Status::BadPlan,
            },
            Failure::Run(fault) => status_of_run(fault),
            Failure::Problems => Status::BadFile,
            Failure::Draft(DraftFault::Memory) => Status::NoMemory,
            Failure::Draft(DraftFault::Read { .. }) => Status::BadDevice,
            Failure::Draft(_) => Status::BadFile,
        }
    }
}

// The exit status of a run's fault.
fn status_of_run(fault: Fault) -> Status
    ensures { result ≡ status_of_fault fault }
{
    match fault {
        Fault::Inputs { .. } | Fault::Setting => Status::BadArguments,
        Fault::Memory => Status::NoMemory,
        Fault::Read { .. } | Fault::Write => Status::BadDevice,
        _ => Status::BadFile,
    }
}

/// The exit status of an ending. A failure is reported in one line on `err`; a failed write of that line changes nothing.
pub fn report<E: Write>(ending: Result<(), Failure>, err: &mut E) -> u8
    ensures code { result ≡ code_of ending }
    ensures quiet { OnOk ending (Keeps (E.contents err.old) (E.contents err.new)) }
{
    match ending {
        Ok(()) => Status::Done as u8,
        Err(failure) => {
            let _ = writeln!(err, "frameq: {failure}");
            failure.status() as u8
        }
    }
}

impl From<PlanFault> for Failure {
    ghost use Rattle.fq_messages.specs.Ending.{misread};

    ghost from_gives = { λ f e. e ≡ misread f };

    fn from(fault: PlanFault) -> Failure {
        match fault {
            PlanFault::Memory => Failure::MEMORY,
            _ => Failure::Plan(fault),
        }
    }
}

impl From<CheckFault> for Failure {
    ghost use Rattle.fq_messages.specs.Ending.{refused};

    ghost from_gives = { λ f e. e ≡ refused f };

    fn from(refusal: CheckFault) -> Failure {
        match refusal.code {
            StepFault::Memory => Failure::MEMORY,
            _ => Failure::Check(refusal),
        }
    }
}

impl From<NotationFault> for Failure {
    ghost use Rattle.fq_messages.specs.Ending.{unnoted};

    ghost from_gives = { λ f e. e ≡ unnoted f };

    fn from(fault: NotationFault) -> Failure {
        match fault {
            NotationFault::Memory => Failure::MEMORY,
            _ => Failure::Notation(fault),
        }
    }
}

impl From<DraftFault> for Failure {
    ghost use Rattle.fq_messages.specs.Ending.{undrafted};

    ghost from_gives = { λ f e. e ≡ undrafted f };

    fn from(fault: DraftFault) -> Failure {
        match fault {
            DraftFault::Memory => Failure::MEMORY,
            DraftFault::Read { file } => Failure::Run(Fault::Read { file }),
            _ => Failure::Draft(fault),
        }
    }
}

impl From<Fault> for Failure {
    ghost from_gives = { λ f e. e ≡ failure.Run f };

    fn from(fault: Fault) -> Failure {
        Failure::Run(fault)
    }
}

impl From<Memory> for Failure {
    ghost from_gives = { λ _ e. e ≡ failure.Run fault.Memory };

    fn from(_refused: Memory) -> Failure {
        Failure::MEMORY
    }
}

impl From<AllocError> for Failure {
    ghost from_gives = { λ _ e. e ≡ failure.Run fault.Memory };

    fn from(_error: AllocError) -> Failure {
        Failure::MEMORY
    }
}

impl<T: Drop> From<AllocFailed<T>> for Failure {
    ghost from_gives = { λ _ e. e ≡ failure.Run fault.Memory };

    fn from(_failed: AllocFailed<T>) -> Failure {
        Failure::MEMORY
    }
}
