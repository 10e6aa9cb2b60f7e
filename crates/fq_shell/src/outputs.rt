//! The file that takes the frame: it is written whole, or stays as it was.
ghost use Rattle.std.specs.Prelude.{◌≡◌, None, Some, IfErr, OnOk};

use crate::descriptors::{Descriptor, open_at_end};
use std::alloc::Global;
use std::fs::{File, Files, Metadata, OpenOptions, TryLockError};
use std::io;
use std::io::{ErrorKind, Write};
use std::os::unix::fs::{MetadataExt, OpenOptionsExt};
use std::path::{Path, PathBuf};

/// How many names are tried for a new file.
const MAX_TRIES: u32 = 1_000;

/// A writer, and why its last failed write failed.
#[derive(Drop)]
pub struct Noted<W: Write> {
    pub writer: W,
    pub error: Option<io::Error>,
}

impl<W: Write> Noted<W> {
    /// This writer, of which no write failed.
    pub fn new(writer: W) -> Noted<W>
        ensures writer { result.writer ≡ writer }
        ensures error { result.error ≡ None }
    {
        let error = None;
        Noted { writer, error }
    }

    // What a write answers, once its error is noted.
    fn note<T>(&mut self, answer: io::Result<T>) -> io::Result<T>
        ensures same { result ≡ answer }
        ensures writer { self.new.writer ≡ self.old.writer }
        ensures failed { IfErr answer (λ e. self.new.error ≡ Some e) }
        ensures written { OnOk answer (self.new.error ≡ self.old.error) }
    {
        if let Err(error) = &answer {
            self.error = Some(*error);
        }
        answer
    }
}

impl<W: Write> Write for Noted<W> {
    ghost contents = { λ n. W.contents n.writer };

    fn write(&mut self, buffer: &[u8]) -> io::Result<usize> {
        let answer = self.writer.write(buffer);
        self.note(answer)
    }

    fn flush(&mut self) -> io::Result<()> {
        let answer = self.writer.flush();
        self.note(answer)
    }
}

/// What takes a frame in a system.
#[derive(Drop)]
pub enum SystemOutput<'a, F: Files<File = File>, L: Write> {
    /// A new file, for the place of another.
    New(NewFile<'a, F>),
    /// What is written as it is: a pipe, a device, or the file of a descriptor.
    AsItIs(File),
    /// Standard error.
    Error(L),
}

impl<'a, F: Files<File = File>, L: Write + Drop> SystemOutput<'a, F, L> {
    /// What takes the place of the file of this name, which need not be there, or, if it is not a regular file or is named by its
    /// descriptor, what is written there. A link is followed; one to nothing is refused, since what it leads to could not stay as it was.
    pub fn create(
        alloc: Global,
        files: &'a F,
        error: L,
        name: &str,
    ) -> io::Result<SystemOutput<'a, F, L>> {
        match Descriptor::named(name) {
            Some(Descriptor::Error) => return Ok(SystemOutput::Error(error)),
            Some(Descriptor::Numbered(number)) => {
                return Ok(SystemOutput::AsItIs(open_at_end(alloc, files, number)?));
            }
            None => {}
        }
        match files.metadata(name) {
            Ok(there) if there.is_file() => {
                let place = files.canonicalize(alloc, name)?;
                SystemOutput::beside(alloc, files, place, Some(there))
            }
            Ok(_) => Ok(SystemOutput::AsItIs(File::create(files, name)?)),
            Err(error)
                if error.kind() == ErrorKind::NotFound && files.symlink_metadata(name).is_err() => {
                SystemOutput::beside(alloc, files, PathBuf::from_str(alloc, name)?, None)
            }
            Err(error) => Err(error),
        }
    }

    // A new file in the folder of the place.
    fn beside(
        alloc: Global,
        files: &'a F,
        place: PathBuf,
        there: Option<Metadata>,
    ) -> io::Result<SystemOutput<'a, F, L>> {
        Ok(SystemOutput::New(NewFile::beside(alloc, files, place, there)?))
    }

    /// Puts what was written in the place of the file. If that fails, the file stays as it was, unless it is written as it is.
    pub fn keep(self) -> io::Result<()> {
        match self {
            SystemOutput::New(new) => new.keep(),
            SystemOutput::AsItIs(_) | SystemOutput::Error(_) => Ok(()),
        }
    }

    /// Lets go what was written; the file stays as it was.
    pub fn discard(self) {
        match self {
            SystemOutput::New(new) => new.remove(),
            SystemOutput::AsItIs(_) | SystemOutput::Error(_) => {}
        }
    }
}

/// A new file of a system beside the one whose place it is to take.
///
/// Until it takes the place, a file that is to replace another can be read by its owner alone. It is locked, so that the next run can tell it
/// from what a killed run has left, which it removes.
#[derive(Drop)]
pub struct NewFile<'a, F: Files<File = File>> {
    files: &'a F,
    place: PathBuf,
    /// What is known of the file that is there.
    there: Option<Metadata>,
    file: File,
    name: PathBuf,
}

impl<'a, F: Files<File = File>> NewFile<'a, F> {
    // A new file in the folder of the place.
    fn beside(
        alloc: Global,
        files: &'a F,
        place: PathBuf,
        there: Option<Metadata>,
    ) -> io::Result<NewFile<'a, F>> {
        for number in 0..MAX_TRIES {
            let name = format!(in alloc; ".frameq-{number}")?;
            let name = place.with_file_name(alloc, name.as_str())?;
            if let Some(file) = new_file(files, name.as_path(), there.is_some())? {
                return Ok(NewFile {
                    files,
                    place,
                    there,
                    file,
                    name,
                });
            }
        }
        Err(io::Error::from(ErrorKind::AlreadyExists))
    }

    // Takes the place, or is removed.
    fn keep(self) -> io::Result<()> {
        let NewFile {
            files,
            place,
            there,
            file,
            name,
        } = self;
        let kept = put(files, file, there, name.as_path(), place.as_path());
        if kept.is_err() {
            let _ = files.remove_file(name.as_str());
        }
        kept
    }

    fn remove(self) {
        let _ = self.files.remove_file(self.name.as_str());
    }
}

// A new file of this name, or none if another run has it. What an ended run has left under the name is removed first.
fn new_file<F: Files<File = File>>(
    files: &F,
    name: Path<'_>,
    is_private: bool,
) -> io::Result<Option<File>> {
    remove_left(files, name);
    let mut options = OpenOptions::new();
    options.write(true);
    options.create_new(true);
    if is_private {
        options.mode(0o600);
    }
    match options.open(files, name) {
        Ok(file) => Ok(is_own(files, &file, name).then_some(file)),
        Err(error) if error.kind() == ErrorKind::AlreadyExists => Ok(None),
        Err(error) => Err(error),
    }
}

// Removes the file of this name if no run has it locked.
fn remove_left<F: Files<File = File>>(files: &F, name: Path<'_>) {
    let Ok(there) = files.symlink_metadata(name.as_str()) else {
        return;
    };
    if !there.is_file() {
        return;
    }
    let Ok(file) = File::open(files, name) else {
        return;
    };
    if file.try_lock().is_ok() && is_at(files, &file, name) {
        let _ = files.remove_file(name.as_str());
    }
}

// Whether a new file is this run's, and locks it. Where files cannot be locked, it is.
fn is_own<F: Files<File = File>>(files: &F, file: &File, name: Path<'_>) -> bool {
    match file.try_lock() {
        Ok(()) => is_at(files, file, name),
        Err(TryLockError::WouldBlock) => false,
        Err(TryLockError::Error(_)) => true,
    }
}

// Whether a file still has this name.
fn is_at<F: Files<File = File>>(files: &F, file: &File, name: Path<'_>) -> bool {
    match (file.metadata(), files.symlink_metadata(name.as_str())) {
        (Ok(own), Ok(there)) => own.dev() == there.dev() && own.ino() == there.ino(),
        _ => false,
    }
}

impl<F: Files<File = File>, L: Write> Write for SystemOutput<'_, F, L> {
    fn write(&mut self, buffer: &[u8]) -> io::Result<usize> {
        match self {
            SystemOutput::New(new) => new.file.write(buffer),
            SystemOutput::AsItIs(file) => file.write(buffer),
            SystemOutput::Error(error) => error.write(buffer),
        }
    }

    fn flush(&mut self) -> io::Result<()> {
        match self {
            SystemOutput::New(new) => new.file.flush(),
            SystemOutput::AsItIs(file) => file.flush(),
            SystemOutput::Error(error) => error.flush(),
        }
    }
}

// Puts a new file in the place of another, with the permissions that this has, and its owner and group where that is allowed, once the
// system has stored its bytes.
fn put<F: Files<File = File>>(
    files: &F,
    file: File,
    there: Option<Metadata>,
    new: Path<'_>,
    place: Path<'_>,
) -> io::Result<()> {
    if let Some(there) = there {
        let own = file.metadata()?;
        if own.uid() != there.uid() || own.gid() != there.gid() {
            let _ = files.chown(new.as_str(), Some(there.uid()), Some(there.gid()));
        }
        file.set_permissions(there.permissions())?;
    }
    file.sync_all()?;
    files.rename(new.as_str(), place.as_str())
}
