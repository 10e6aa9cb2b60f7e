//! Rows, and the fault that ends them.
use crate::batches::Batch;

/// Rows, and why no more come, if a fault ends them.
///
/// A batch that a step, a join or a reader could make only in part: the rows before the first that faults, and that fault.
#[derive(Debug, Drop)]
pub struct Piece<F> {
    /// The rows before the fault.
    pub batch: Batch,
    /// The fault that ends them, or none.
    pub fault: Option<F>,
}
