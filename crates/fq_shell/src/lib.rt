//! The surroundings of the program frameq: its arguments, the files that it opens, and the file that takes the result.
//!
//! - [`Options`]: the program's arguments. [`write_refusal`] says why arguments are rejected. [`BATCH_SIZE`] and [`WORKERS`] are
//!   defaults.
//! - [`Opener`]: opens files by name, and puts a finished result in the place of a file. [`SystemFiles`] opens the system's.
//! - [`SystemOutput`]: what takes the result. A [`NewFile`] takes the place of another file, or leaves it as it was.
//! - [`OpenFault`] and [`Unread`]: why a file is not opened, and why it is not read again.
//! - [`Noted`]: a writer that remembers why its last failed write failed.
#![tactic(auto)]

mod descriptors;
mod files;
mod notations;
mod options;
mod outputs;
mod progress;
mod usage;

pub use files::{OpenFault, Opener, STANDARD_INPUT, SystemFiles};
pub use fq_places::Unread;
pub use options::{BATCH_SIZE, Options, WORKERS};
pub use outputs::{NewFile, Noted, SystemOutput};
pub use usage::write_refusal;
