//! Reads CSV files as streams of batches, and prints batches as CSV text.
//!
//! A [`Scanner`] reads a file on one thread and returns batches. A [`RecordScanner`] judges only the header and the number of records: it
//! finds where records end, and returns them in runs of text. Any thread can make a batch of such a [`RecordRun`], which judges the
//! fields. [`ScanFault`] lists the faults of a file.
//!
//! - [`Layout`]: how to read a file's records: its schema, which strings are null ([`NullValues`]), how its ints are written, and which
//!   columns to keep ([`Projection`]). [`SourceFiles`] is a number of files with one layout.
//! - [`Scan`]: what a call of a scanner returns, a batch or the end.
//! - [`RecordReader`]: the records of a file one at a time, with any number of fields.
//! - [`is_cell`], [`is_null`] and [`truth`]: what a single field is.
//! - [`print_frame`], [`print_names`] and [`print_rows`]: CSV text.
//! - [`scan_laws`]: laws of the definitions, proved for all values.
#![tactic(auto)]

mod cells;
mod cutting;
mod faults;
mod laws;
mod printing;
mod readers;
mod scanning;
mod sources;

pub use cells::fields::{is_cell, is_null, kind_word, truth};
pub use cells::layouts::{Layout, NullValues};
pub use cells::projections::Projection;
pub use faults::ScanFault;
pub use laws::scan_laws;
pub use printing::{print_frame, print_names, print_rows};
pub use readers::RecordReader;
pub use scanning::record_scanners::RecordScanner;
pub use scanning::runs::RecordRun;
pub use scanning::scanners::{MAX_BATCH_SIZE, MAX_ROWS, Scanner};
pub use scanning::scans::Scan;
pub use sources::{MAX_FILES, SourceFiles};
