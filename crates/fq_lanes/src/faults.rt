//! What goes wrong: an allocation that fails, and a source that fails.
ghost use Rattle.std.specs.Prelude.{◌≡◌};
ghost use Rattle.fq_lanes.specs.Faults.{fault_at, first_of};

use std::alloc::{AllocError, AllocFailed};
use thiserror::Error;

/// An allocation failed, or the runtime refused a thread.
#[derive(Clone, Copy, PartialEq, Eq, Debug, Drop, Error)]
#[error("out of memory")]
pub struct Memory;

impl From<AllocError> for Memory {
    fn from(_error: AllocError) -> Memory {
        Memory
    }
}

impl<T: Drop> From<AllocFailed<T>> for Memory {
    fn from(_failed: AllocFailed<T>) -> Memory {
        Memory
    }
}

/// Why a feed ended early.
#[derive(Clone, Copy, PartialEq, Eq, Debug, Drop, Error)]
pub enum FeedFault {
    /// Its source failed.
    #[error("read failed")]
    Read,
    /// An allocation failed.
    #[error("out of memory")]
    Memory,
}

/// Why a run stopped. `Memory` takes precedence over `Read`.
#[derive(Clone, Copy, PartialEq, Eq, Debug, Drop, Error)]
pub enum RunFault {
    /// An allocation failed, or the runtime refused a thread.
    #[error("out of memory")]
    Memory,
    /// The source of a feed failed: the lowest file whose feed did.
    #[error("read failed: file {file}")]
    Read { file: u16 },
}

/// The fault of a file's feed.
pub(crate) fn feed_fault(fault: FeedFault, file: u16) -> RunFault
    ensures { result ≡ fault_at fault file }
{
    match fault {
        FeedFault::Read => RunFault::Read { file },
        FeedFault::Memory => RunFault::Memory,
    }
}

/// Of a fault and another one of a file's feed, if there is one, the one that is answered.
pub(crate) fn first_fault(first: RunFault, other: Option<FeedFault>, file: u16) -> RunFault
    ensures { result ≡ first_of first other file }
{
    match (first, other) {
        (first, None) => first,
        (RunFault::Read { file: earlier }, Some(FeedFault::Read)) => RunFault::Read {
            file: earlier.min(file),
        },
        _ => RunFault::Memory,
    }
}
