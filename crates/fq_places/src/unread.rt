//! Why a file cannot be read again.
use fq_column::Memory;
use std::fmt::{Display, Formatter, InlineText};
use std::io::ErrorKind;
use std::{fmt, io};

/// Why a file is not read, or not again.
#[derive(Clone, Copy, Debug)]
pub enum Unread {
    /// It is standard input, a pipe or a device, which gives its bytes once.
    Once,
    /// Two readers of it gave different bytes.
    Changed,
    /// The system refuses.
    System(io::Error),
    /// An allocation failed.
    Memory,
}

impl Display for Unread {
    fn fmt<W: fmt::Write>(&self, f: &mut Formatter<W>) -> fmt::Result {
        match self {
            Unread::Once => f.write_str("it cannot be read again"),
            Unread::Changed => f.write_str("it changed while it was read"),
            Unread::Memory => f.write_str("out of memory"),
            Unread::System(error) => {
                // (Rust adds the error's number to the system's text)
                let text: InlineText<128> = InlineText::of(*error);
                f.write_str(
                    text.as_str()
                        .split(" (os error ")
                        .next()
                        .unwrap_or_default(),
                )
            }
        }
    }
}

impl From<io::Error> for Unread {
    fn from(error: io::Error) -> Unread {
        match error.kind() {
            ErrorKind::OutOfMemory => Unread::Memory,
            _ => Unread::System(error),
        }
    }
}

impl From<csv::Error> for Unread {
    fn from(error: csv::Error) -> Unread {
        match error.into_kind() {
            csv::ErrorKind::Io(error) => Unread::from(error),
            _ => Unread::Memory,
        }
    }
}

impl From<Memory> for Unread {
    fn from(_refused: Memory) -> Unread {
        Unread::Memory
    }
}
