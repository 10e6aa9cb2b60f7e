//! What a scanner hands out.
use crate::faults::ScanFault;
use fq_column::Batch;

/// What one call of a scanner hands out.
#[derive(Debug, Drop)]
pub enum Scan {
    /// The next rows of the file.
    Batch {
        /// The file's number.
        file: u16,
        /// How many batches of this file went before.
        serial: u32,
        /// The rows, at least one.
        batch: Batch,
    },
    /// The end of the file's rows.
    End {
        /// The file's number.
        file: u16,
        /// How many batches the file has.
        batches: u32,
        /// Why the rows ended, if not at the end of the file.
        fault: Option<ScanFault>,
    },
}
