//! What a run answers.

/// A run without a fault.
#[derive(Debug, Drop)]
pub struct Report {
    /// The file and serial of each item that the tail took, in order.
    pub trace: Vec<(u16, u32)>,
}
