//! What the program frameq does, given its inputs, files and outputs.
//!
//! - [`one_input`]: the program without arguments. The first line of its input is the plan, in JSON, and the rest is the only CSV file.
//! - [`with_words`]: the program with arguments. An [`Opener`] opens the plan file and the data files.
//!
//! Both return the exit status, the number of a [`Status`]. If there is no result, a [`Failure`] says why in one line, and `--details`
//! adds more. Rejected arguments are reported as `clap` does.
#![tactic(auto)]

mod command_line;
mod program;

pub use command_line::with_words;
pub use fq_messages::{Failure, Status, report};
pub use fq_shell::{Noted, OpenFault, Opener, SystemFiles, SystemOutput, Unread};
pub use program::one_input;
