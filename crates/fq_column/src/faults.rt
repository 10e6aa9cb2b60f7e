//! Refusals of schemas, steps and batches, and failed allocations.
use std::alloc::{AllocError, AllocFailed};
use thiserror::Error;

/// Why a schema or a step is refused. The numbers do not change from version to version.
#[derive(Clone, Copy, Debug, PartialEq, Eq, Error)]
pub enum StepFault {
    /// A name that is not a column's.
    #[error("no such column")]
    NoSuchColumn = 1,
    /// An operand, key or column of the wrong kind.
    #[error("wrong kind")]
    WrongKind = 2,
    /// Two columns of one name.
    #[error("double name")]
    DoubleName = 3,
    /// A filter whose expression is not a truth value.
    #[error("not a truth value")]
    NotBool = 4,
    /// More than 64 columns.
    #[error("too many columns")]
    TooMany = 5,
    /// No column, key or item where at least one is needed.
    #[error("no column")]
    NoColumn = 6,
    /// A join with a source that is not before the last.
    #[error("no such source")]
    NoSuchSource = 7,
    /// A rolling window that is not 1 to 65,536 rows long.
    #[error("window out of range")]
    Window = 8,
    /// A least number of values that is not 1 to the window.
    #[error("min_samples out of range")]
    Samples = 9,
    /// An allocation failed.
    #[error("out of memory")]
    Memory = 10,
}

/// Why columns do not make a batch of a schema.
#[derive(Clone, Copy, Debug, PartialEq, Eq, Error)]
pub enum BatchFault {
    /// More or fewer columns than the schema has.
    #[error("wrong number of columns")]
    Width = 1,
    /// A column of another kind than the schema says.
    #[error("column of the wrong kind")]
    Kind = 2,
    /// Columns of different lengths.
    #[error("columns of different lengths")]
    Length = 3,
}

/// An allocation failed.
#[derive(Clone, Copy, Debug, PartialEq, Eq, Error)]
#[error("out of memory")]
pub struct Memory;

impl From<AllocError> for Memory {
    fn from(_error: AllocError) -> Memory {
        Memory
    }
}

impl<T: Drop> From<AllocFailed<T>> for Memory {
    fn from(_failed: AllocFailed<T>) -> Memory {
        Memory
    }
}

impl From<Memory> for StepFault {
    ghost use Rattle.std.specs.Prelude.{◌≡◌};
    ghost use Rattle.fq_column.specs.declared.faults.StepFault.TheVariants as fault;

    ghost from_gives = { λ _ e. e ≡ fault.Memory };

    fn from(_refused: Memory) -> StepFault {
        StepFault::Memory
    }
}

impl From<AllocError> for StepFault {
    ghost use Rattle.std.specs.Prelude.{◌≡◌};
    ghost use Rattle.fq_column.specs.declared.faults.StepFault.TheVariants as fault;

    ghost from_gives = { λ _ e. e ≡ fault.Memory };

    fn from(_error: AllocError) -> StepFault {
        StepFault::Memory
    }
}

impl<T: Drop> From<AllocFailed<T>> for StepFault {
    ghost use Rattle.std.specs.Prelude.{◌≡◌};
    ghost use Rattle.fq_column.specs.declared.faults.StepFault.TheVariants as fault;

    ghost from_gives = { λ _ e. e ≡ fault.Memory };

    fn from(_failed: AllocFailed<T>) -> StepFault {
        StepFault::Memory
    }
}
