//! How far a file is read, on a line that moves.
use crate::files::CLEAR_LINE;
use std::fmt::{Display, Formatter, InlineText};
use std::io::{Read, Write};
use std::{fmt, io};

/// The bytes of a megabyte.
const MEGABYTE: u64 = 1_000_000;

/// A reader that shows on a line how far it is, if it has one.
#[derive(Drop)]
pub struct Watched<R: Read, L: Write> {
    reader: R,
    line: Option<Line<L>>,
}

impl<R: Read, L: Write> Watched<R, L> {
    /// This reader, with its line.
    pub fn new(reader: R, line: Option<Line<L>>) -> Watched<R, L> {
        Watched { reader, line }
    }
}

impl<R: Read, L: Write> Read for Watched<R, L> {
    ghost remaining = { λ w. R.remaining w.reader };

    fn read(&mut self, buffer: &mut [u8]) -> io::Result<usize> {
        let count = self.reader.read(buffer)?;
        if let Some(line) = &mut self.line {
            match count {
                0 => line.clear(),
                _ => line.add(count as u64),
            }
        }
        Ok(count)
    }
}

/// The line of a file on a log. A failed write of it changes nothing.
#[derive(Drop)]
pub struct Line<L: Write> {
    log: L,
    progress: Progress,
}

impl<L: Write> Line<L> {
    /// The line of the file of this number, of which nothing is read. Its size is in bytes.
    pub fn new(log: L, file: usize, size: Option<u64>) -> Line<L> {
        let read = 0;
        Line {
            log,
            progress: Progress { file, read, size },
        }
    }

    // So many bytes more are read. Each megabyte is shown once.
    fn add(&mut self, bytes: u64) {
        let megabytes = self.progress.read / MEGABYTE;
        self.progress.read = self.progress.read.saturating_add(bytes);
        if self.progress.read / MEGABYTE != megabytes {
            // (in one write, since other files' lines are written beside it)
            let text: InlineText<96> = InlineText::of(self.progress);
            let _ = self.log.write_all(text.as_str().as_bytes());
        }
    }

    // The file is at its end.
    fn clear(&mut self) {
        let _ = self.log.write_all(CLEAR_LINE.as_bytes());
    }
}

// How many bytes of a file are read, and its size, if it is known. Its text takes the place of the line before it.
#[derive(Clone, Copy)]
struct Progress {
    file: usize,
    read: u64,
    size: Option<u64>,
}

impl Display for Progress {
    fn fmt<W: fmt::Write>(&self, f: &mut Formatter<W>) -> fmt::Result {
        let (file, megabytes) = (self.file, self.read / MEGABYTE);
        write!(f, "{CLEAR_LINE}frameq: file {file}: {megabytes} ")?;
        if let Some(size) = self.size {
            write!(f, "of {} ", size / MEGABYTE)?;
        }
        f.write_str("MB")
    }
}
