//! Why a run gives no frame.
use fq_column::Memory;
use fq_csv::ScanFault;
use fq_expr::RowFault;
use fq_lanes::RunFault;
use std::alloc::{AllocError, AllocFailed};
use thiserror::Error;

/// Why a run gives no frame.
///
/// Files, columns, steps and the items of a step count from 0; the rows of a file from 1, the header not counted.
#[derive(Clone, Copy, Debug, PartialEq, Eq, Error)]
pub enum Fault {
    /// The number of readers, `got`, is not that of the plan's files, `wanted`; nothing was read.
    #[error("inputs: wanted {wanted}, got {got}")]
    Inputs { wanted: u16, got: usize },
    /// The batch size is not from 1 to 65,536, or the number of workers not from 1 to 16; nothing was read.
    #[error("setting out of range")]
    Setting,
    /// An allocation failed, or a thread could not be started.
    #[error("out of memory")]
    Memory,
    /// A reader failed; of several, the lowest file.
    #[error("read failed: file {file}")]
    Read { file: u16 },
    /// The header of a file: as in [`ScanFault::Header`].
    #[error("file {file}: header differs")]
    Header { file: u16 },
    /// The width of a row: as in [`ScanFault::Width`].
    #[error("file {file}, row {row}: wrong number of fields")]
    Width { file: u16, row: u32 },
    /// A field: as in [`ScanFault::BadCell`].
    #[error("file {file}, row {row}, column {column}: bad cell")]
    BadCell { file: u16, row: u32, column: u16 },
    /// The number of a file's rows: as in [`ScanFault::TooLong`].
    #[error("file {file}: too many rows")]
    TooLong { file: u16 },
    /// An expression of the item does not fit 64 bits on a row.
    #[error("step {step}, item {item}: overflow")]
    Overflow { step: u16, item: u16 },
    /// The join gives more than [`MAX_JOINED_ROWS`](crate::MAX_JOINED_ROWS) rows.
    #[error("step {step}: too many joined rows")]
    JoinRows { step: u16 },
    /// A rolling sum does not fit 64 bits.
    #[error("step {step}: rolling sum out of range")]
    RollRange { step: u16 },
    /// A group's sum in the item does not fit 64 bits.
    #[error("step {step}, item {item}: sum out of range")]
    SumRange { step: u16, item: u16 },
    /// The writer failed; an unknown part was written.
    #[error("write failed")]
    Write,
}

impl From<Memory> for Fault {
    ghost use Rattle.std.specs.Prelude.{◌≡◌};
    ghost use Rattle.fq_run.specs.declared.faults.Fault.TheVariants as fault;

    ghost from_gives = { λ _ e. e ≡ fault.Memory };

    fn from(_refused: Memory) -> Fault {
        Fault::Memory
    }
}

impl From<AllocError> for Fault {
    ghost use Rattle.std.specs.Prelude.{◌≡◌};
    ghost use Rattle.fq_run.specs.declared.faults.Fault.TheVariants as fault;

    ghost from_gives = { λ _ e. e ≡ fault.Memory };

    fn from(_error: AllocError) -> Fault {
        Fault::Memory
    }
}

impl<T: Drop> From<AllocFailed<T>> for Fault {
    ghost use Rattle.std.specs.Prelude.{◌≡◌};
    ghost use Rattle.fq_run.specs.declared.faults.Fault.TheVariants as fault;

    ghost from_gives = { λ _ e. e ≡ fault.Memory };

    fn from(_failed: AllocFailed<T>) -> Fault {
        Fault::Memory
    }
}

impl From<RowFault> for Fault {
    ghost use Rattle.std.specs.Prelude.{◌≡◌};
    ghost use Rattle.fq_run.specs.Sources.{row_fault};

    ghost from_gives = { λ f e. e ≡ row_fault f };

    fn from(fault: RowFault) -> Fault {
        Fault::Overflow {
            step: fault.step,
            item: fault.item,
        }
    }
}

impl From<ScanFault> for Fault {
    ghost use Rattle.std.specs.Prelude.{◌≡◌};
    ghost use Rattle.fq_run.specs.Sources.{scan_fault};

    ghost from_gives = { λ f e. e ≡ scan_fault f };

    fn from(fault: ScanFault) -> Fault {
        match fault {
            ScanFault::Header { file } => Fault::Header { file },
            ScanFault::Width { file, row } => Fault::Width { file, row },
            ScanFault::BadCell { file, row, column } => Fault::BadCell { file, row, column },
            ScanFault::TooLong { file } => Fault::TooLong { file },
            ScanFault::Read { file } => Fault::Read { file },
            ScanFault::Memory => Fault::Memory,
        }
    }
}

impl From<RunFault> for Fault {
    ghost use Rattle.std.specs.Prelude.{◌≡◌};
    ghost use Rattle.fq_run.specs.Run.{engine_fault};

    ghost from_gives = { λ f e. e ≡ engine_fault f };

    fn from(fault: RunFault) -> Fault {
        match fault {
            RunFault::Memory => Fault::Memory,
            RunFault::Read { file } => Fault::Read { file },
        }
    }
}
