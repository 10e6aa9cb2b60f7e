//! Why the rows of a file end before its bytes do.
use fq_column::Memory;
use std::alloc::AllocError;
use thiserror::Error;

/// Why a scan of a file ended before the end of the file.
///
/// Files and columns count from 0, rows from 1, the header not counted.
#[derive(Clone, Copy, Debug, PartialEq, Eq, Error)]
pub enum ScanFault {
    /// The first record is not the schema's names in their order, or there is no record.
    #[error("file {file}: header differs")]
    Header {
        /// The file.
        file: u16,
    },
    /// A row has more or fewer fields than the schema has columns.
    #[error("file {file}, row {row}: wrong number of fields")]
    Width {
        /// The file.
        file: u16,
        /// The row.
        row: u32,
    },
    /// A field is not a cell of its column, by its kind and the notation of its ints.
    #[error("file {file}, row {row}, column {column}: bad cell")]
    BadCell {
        /// The file.
        file: u16,
        /// The row.
        row: u32,
        /// The first such column of the row.
        column: u16,
    },
    /// There are more rows than the limit.
    #[error("file {file}: too many rows")]
    TooLong {
        /// The file.
        file: u16,
    },
    /// The reader failed.
    #[error("read failed: file {file}")]
    Read {
        /// The file.
        file: u16,
    },
    /// An allocation failed.
    #[error("out of memory")]
    Memory,
}

impl From<Memory> for ScanFault {
    ghost use Rattle.std.specs.Prelude.{◌≡◌};
    ghost use Rattle.fq_csv.specs.declared.faults.ScanFault.TheVariants.{Memory as OutOfMemory};

    ghost from_gives = { λ _ fault. fault ≡ OutOfMemory };

    fn from(_memory: Memory) -> ScanFault {
        ScanFault::Memory
    }
}

impl From<AllocError> for ScanFault {
    ghost use Rattle.std.specs.Prelude.{◌≡◌};
    ghost use Rattle.fq_csv.specs.declared.faults.ScanFault.TheVariants.{Memory as OutOfMemory};

    ghost from_gives = { λ _ fault. fault ≡ OutOfMemory };

    fn from(_error: AllocError) -> ScanFault {
        ScanFault::Memory
    }
}
