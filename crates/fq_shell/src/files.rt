//! What opens files by name.
ghost use Rattle.std.specs.Prelude.{◌≡◌, ◌≢◌, ℕ, List, [], Option, Some, None, IfOk, IfErr, OnOk, true};
ghost use Rattle.std.specs.Str.{bytes_eq};

use crate::outputs::SystemOutput;
use crate::progress::{Line, Watched};
use fq_places::Unread;
use std::alloc::Global;
use std::fs::{File, Files, OpenFile};
use std::io;
use std::io::{ErrorKind, IsTerminal, Read, Write};
use std::os::unix::fs::MetadataExt;

/// The name of standard input among the names of files.
pub const STANDARD_INPUT: &str = "-";

/// The name of standard output among the names of files that take a frame.
pub const STANDARD_OUTPUT: &str = "-";

/// Goes back to the start of a terminal's line and clears it (ECMA-48, EL).
pub const CLEAR_LINE: &str = "\r\x1b[K";

/// Why a file is not opened, or not made or put in its place.
#[derive(Clone, Copy, Debug)]
pub enum OpenFault {
    /// There is no such file, or what was asked for failed.
    Failed(io::Error),
    /// An allocation failed.
    Memory,
}

impl OpenFault {
    /// The fault of a call that the system refused: `Memory` if memory was lacking, else `Failed` with its error.
    pub fn of(error: io::Error) -> OpenFault {
        match error.kind() {
            ErrorKind::OutOfMemory => OpenFault::Memory,
            _ => OpenFault::Failed(error),
        }
    }
}

/// What opens files by name.
pub trait Opener {
    /// What reads an open file.
    type Reader: Read + Drop + Send;

    /// What takes the frame, in the place of a file once it is kept.
    type Output: Write + Drop;

    // The bytes of the file of a name, if they are known.
    ghost bytes_of: { Self → List ℕ → Option (List ℕ) } = { λ _ _. None };

    /// A reader of the file of this name, from its start. Fails if there is none, or it cannot be opened.
    fn reader_of(&mut self, name: &str) -> Result<Self::Reader, OpenFault>
        ensures same { bytes_of self.new ≡ bytes_of self.old }
        ensures told { (bytes : List ℕ) → bytes_of self.old name.now ≡ Some bytes → IfOk result (λ reader. Self.Reader.remaining reader ≡ Some bytes) };

    /// What takes the place of the file of this name, once it is kept. Fails if nothing can be written there.
    fn output_of(&mut self, alloc: Global, name: &str) -> Result<Self::Output, OpenFault>
        ensures same { bytes_of self.new ≡ bytes_of self.old }
        ensures told { (bytes : List ℕ) → bytes_of self.old name.now ≡ Some bytes → IfOk result (λ output. Self.Output.contents output ≡ Some []) };

    /// Puts what was written in the place of the file of this name, for which it was made. No other file changes. If it fails, this file too
    /// stays as it was, unless it is written as it is.
    fn keep(&mut self, name: &str, output: Self::Output) -> Result<(), OpenFault>
        ensures placed { (before written : List ℕ) → bytes_of self.old name.now ≡ Some before → Self.Output.contents output ≡ Some written →
            OnOk result (bytes_of self.new name.now ≡ Some written) }
        ensures others { (other bytes : List ℕ) → name.now ≢ other → bytes_of self.old other ≡ Some bytes → bytes_of self.new other ≡ Some bytes }
        ensures failed { IfErr result (λ _. bytes_of self.new ≡ bytes_of self.old) };

    /// Lets go what was written; the file stays as it was.
    fn discard(&mut self, output: Self::Output)
        ensures { bytes_of self.new ≡ bytes_of self.old };

    /// Whether two names are those of one file. An opener that tells the bytes of the second goes by the names alone.
    fn is_same_file(&mut self, one: &str, other: &str) -> bool
        ensures same { bytes_of self.new ≡ bytes_of self.old }
        ensures named { one.now ≡ other.now → result ≡ true }
        ensures told { (bytes : List ℕ) → bytes_of self.old other.now ≡ Some bytes → result ≡ bytes_eq one.now other.now }
    {
        one == other
    }

    /// A second reader of the file of this name, from its start: before the first, for a check or a draft, or after a run, for details.
    /// `Once` if the bytes come only once; a check or a draft then reads them into memory. An opener may have no second reader.
    fn reader_again(&mut self, _name: &str) -> Result<Self::Reader, Unread>
        ensures same { bytes_of self.new ≡ bytes_of self.old }
        ensures told { (bytes : List ℕ) → bytes_of self.old _name.now ≡ Some bytes → IfOk result (λ reader. Self.Reader.remaining reader ≡ Some bytes) }
    {
        Err(Unread::Once)
    }

    /// From here on, the readers of the files that are opened show how far they are. An opener may have nowhere to show it.
    fn show_progress(&mut self)
        ensures { bytes_of self.new ≡ bytes_of self.old }
    {}

    /// Takes away what the readers have shown.
    fn clear_progress(&mut self)
        ensures { bytes_of self.new ≡ bytes_of self.old }
    {}
}

/// The files of a system, its standard input under the name `-`, which can be opened once, and its standard error, which shows progress if
/// it is a terminal. The scanner of a file has a buffer of its own, so a file is read as it is.
#[derive(Drop)]
pub struct SystemFiles<'a, F: Files, I: Read, L: Write> {
    files: &'a F,
    // none once it is opened
    input: Option<I>,
    error: L,
    // the number of the next file that shows how far it is read, if files do
    shown: Option<usize>,
}

impl<'a, F: Files, I: Read, L: Write> SystemFiles<'a, F, I, L> {
    /// These files, this standard input and this standard error.
    pub fn new(files: &'a F, input: I, error: L) -> SystemFiles<'a, F, I, L> {
        SystemFiles {
            files,
            input: Some(input),
            error,
            shown: None,
        }
    }
}

impl<F: Files, I: Read, L: Write> SystemFiles<'_, F, I, L> {
    fn open(&mut self, name: &str) -> Result<SystemReader<F::File, I>, OpenFault> {
        if name == STANDARD_INPUT {
            return Ok(SystemReader::Input(
                self.input
                    .take()
                    .ok_or(OpenFault::Failed(io::Error::from(ErrorKind::NotFound)))?,
            ));
        }
        let file = File::open(self.files, name).map_err(OpenFault::of)?;
        Ok(SystemReader::File(file))
    }
}

impl<
    'a,
    F: Files<File = File>,
    I: Read + Drop + Send,
    L: Write + IsTerminal + Copy + Drop + Send,
> Opener for SystemFiles<'a, F, I, L> {
    type Reader = Watched<SystemReader<File, I>, L>;

    type Output = SystemOutput<'a, F, L>;

    fn reader_of(&mut self, name: &str) -> Result<Self::Reader, OpenFault> {
        let reader = self.open(name)?;
        let line = match self.shown {
            Some(file) => {
                self.shown = Some(file.saturating_add(1));
                Some(Line::new(self.error, file, reader.size()))
            }
            None => None,
        };
        Ok(Watched::new(reader, line))
    }

    fn output_of(
        &mut self,
        alloc: Global,
        name: &str,
    ) -> Result<SystemOutput<'a, F, L>, OpenFault> {
        SystemOutput::create(alloc, self.files, self.error, name).map_err(OpenFault::of)
    }

    fn keep(&mut self, _name: &str, output: SystemOutput<'a, F, L>) -> Result<(), OpenFault> {
        output.keep().map_err(OpenFault::of)
    }

    fn discard(&mut self, output: SystemOutput<'a, F, L>) {
        output.discard();
    }

    fn is_same_file(&mut self, one: &str, other: &str) -> bool {
        let place = place_of(self.files, one);
        one == other || (place.is_some() && place == place_of(self.files, other))
    }

    fn reader_again(&mut self, name: &str) -> Result<Self::Reader, Unread> {
        if name == STANDARD_INPUT {
            return Err(Unread::Once);
        }
        let there = self.files.metadata(name)?;
        if !there.is_file() && !there.is_dir() {
            return Err(Unread::Once);
        }
        let file = File::open(self.files, name)?;
        Ok(Watched::new(SystemReader::File(file), None))
    }

    fn show_progress(&mut self) {
        self.shown = self.error.is_terminal().then_some(0);
    }

    fn clear_progress(&mut self) {
        if self.shown.is_some() {
            let _ = self.error.write_all(CLEAR_LINE.as_bytes());
        }
    }
}

// Where the regular file of a name stands: its device and its number there. Standard input has a name among the files, too.
fn place_of<F: Files>(files: &F, name: &str) -> Option<(u64, u64)> {
    let name = if name == STANDARD_INPUT {
        "/dev/stdin"
    } else {
        name
    };
    let there = files.metadata(name).ok()?;
    there.is_file().then_some((there.dev(), there.ino()))
}

/// An open file of a system, or its standard input.
#[derive(Drop)]
pub enum SystemReader<F: Read, I: Read> {
    /// A file.
    File(F),
    /// Standard input.
    Input(I),
}

impl<F: Read + OpenFile, I: Read> SystemReader<F, I> {
    // The size in bytes, if the system knows it. That of a named pipe is said to be 0.
    fn size(&self) -> Option<u64> {
        match self {
            SystemReader::File(file) => {
                let size = file.metadata().ok()?.len();
                (size > 0).then_some(size)
            }
            SystemReader::Input(_) => None,
        }
    }
}

impl<F: Read, I: Read> Read for SystemReader<F, I> {
    fn read(&mut self, buffer: &mut [u8]) -> io::Result<usize> {
        match self {
            SystemReader::File(file) => file.read(buffer),
            SystemReader::Input(input) => input.read(buffer),
        }
    }
}
