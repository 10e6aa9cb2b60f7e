//! The records of a file as runs, and its rows as batches.

pub(crate) mod headers;
pub(crate) mod record_scanners;
pub(crate) mod runs;
pub(crate) mod scanners;
pub(crate) mod scans;
pub(crate) mod spans;
pub(crate) mod stages;
pub(crate) mod steps;
