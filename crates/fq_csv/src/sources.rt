//! The sources of a run.
use crate::cells::layouts::Layout;

/// The most files of a run.
pub const MAX_FILES: u16 = 16;

/// The number of a source's files, and how each of them is read.
#[derive(Drop)]
pub struct SourceFiles {
    /// How many files the source has.
    pub files: u16,
    /// How each of them is read.
    pub layout: Layout,
}
