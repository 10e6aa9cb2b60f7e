//! How the program frameq ends, and what it tells its user.
//!
//! - [`Failure`]: why the program ends without a result. Its text is the line that goes to standard error, and it determines the exit
//!   [`Status`]. [`report`] writes the line and returns the status.
//! - [`write_details`]: what `--details` adds. It reads the files again, and uses what the run [`Learned`].
//! - [`check_files`] and [`draft_of`]: what `--check` and `--draft` do.
//! - [`open`], [`read_whole`] and [`split_line`]: open an input, read it whole, and split off its first line.
#![tactic(auto)]

mod details;
mod failures;
mod file_details;
mod inputs;
mod reviews;
mod status;

pub use details::{Learned, write_details};
pub use failures::{Failure, report};
pub use inputs::{MAX_READS, open, read_whole, split_line};
pub use reviews::{check_files, draft_of};
pub use status::Status;
