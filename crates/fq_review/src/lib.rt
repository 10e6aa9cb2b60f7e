//! Reviews CSV files without running a plan: reports the problems in them, or drafts a plan for them.
//!
//! - [`Check`] compares files with the columns of a plan's sources ([`Expected`]). It reports each problem with its file and line: a
//!   header that differs, a row with the wrong number of fields, a bad field, too many rows, or a departure from RFC 4180.
//! - [`Draft`] reads files without a plan, and writes a plan without steps whose sources are these files. Its notes name what may need a
//!   second look. [`DraftFault`] says why files draft no plan.
//! - [`Header`], [`Separator`], [`Width`], [`BadField`], [`Wanted`] and [`CONVERSION`]: the texts of problems, which messages about a
//!   run's fault use too.
//! - [`drafted_cells`]: the law that every field that is valid UTF-8 is a cell of the kind that its column drafts.
#![tactic(auto)]

mod checks;
mod drafts;
mod guesses;
mod headers;
mod laws;
mod notes;
mod numbers;
mod options;
mod problems;
mod tallies;
mod texts;

pub use checks::{Check, Expected};
pub use drafts::{Draft, DraftFault};
pub use headers::{Header, Separator, has_names};
pub use laws::drafted_cells;
pub use notes::CONVERSION;
pub use problems::{BadField, Wanted, Width};
