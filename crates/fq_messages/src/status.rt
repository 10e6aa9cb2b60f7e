//! The exit statuses.

/// The exit status of the program.
#[derive(Clone, Copy, Debug, PartialEq, Eq)]
pub enum Status {
    /// The frame is on the output, or in the file that takes it; or the text that the arguments ask for is on the output; or a check found
    /// no problem.
    Done = 0,
    /// Arguments that are refused, or the wrong number of files.
    BadArguments = 2,
    /// No plan, or a plan that is refused.
    BadPlan = 3,
    /// A fault of a file's text, or of a step on its rows; files that draft no plan; or a check found problems.
    BadFile = 4,
    /// A file cannot be opened or read, or a write failed.
    BadDevice = 5,
    /// Out of memory.
    NoMemory = 6,
}
