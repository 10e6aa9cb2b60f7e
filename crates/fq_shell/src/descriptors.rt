//! Files that are named by the descriptor on which they are open.
use std::alloc::Global;
use std::fs::{File, Files, OpenOptions};
use std::io::Read;
use std::{io, str};

/// The error of a descriptor that is not open, or not for what is asked of it (POSIX, EBADF), as Linux numbers it.
const BAD_DESCRIPTOR: i32 = 9;

/// The folders in which a system names the program's descriptors by their numbers.
const FOLDERS: [&str; 2] = ["/dev/fd/", "/proc/self/fd/"];

/// A descriptor that the program was started with, as a name of a file says it.
#[derive(Clone, Copy)]
pub enum Descriptor<'a> {
    /// That of standard error.
    Error,
    /// That of this number.
    Numbered(&'a str),
}

impl<'a> Descriptor<'a> {
    /// The descriptor that a file's name is one of.
    pub fn named(name: &'a str) -> Option<Descriptor<'a>> {
        let number = match name {
            "/dev/stdout" => "1",
            "/dev/stderr" => "2",
            _ => FOLDERS
                .iter()
                .find_map(|folder| name.strip_prefix(*folder))?,
        };
        let is_number = !number.is_empty() && number.bytes().all(|byte| byte.is_ascii_digit());
        match number {
            "2" => Some(Descriptor::Error),
            _ => is_number.then_some(Descriptor::Numbered(number)),
        }
    }
}

/// The file of a descriptor, opened anew and from its end on, so that what it holds stays: no call of the library makes a file of a number.
/// Fails if the descriptor is not open to be written, as those are not of the files that the program reads.
pub fn open_at_end<F: Files<File = File>>(
    alloc: Global,
    files: &F,
    number: &str,
) -> io::Result<File> {
    if !may_be_written(alloc, files, number)? {
        return Err(io::Error::from_raw_os_error(BAD_DESCRIPTOR));
    }
    let name = format!(in alloc; "/proc/self/fd/{number}")?;
    let mut options = OpenOptions::new();
    options.append(true);
    options.open(files, name.as_str())
}

// Whether a descriptor is open to be written.
fn may_be_written<F: Files<File = File>>(
    alloc: Global,
    files: &F,
    number: &str,
) -> io::Result<bool> {
    let name = format!(in alloc; "/proc/self/fdinfo/{number}")?;
    let mut text = [0u8; 128];
    let count = File::open(files, name.as_str())?.read(&mut text)?;
    let flags = flags_in(text.get(..count).unwrap_or_default());
    Ok(flags.is_some_and(|flags| flags & 3 != 0))
}

// The flags of a descriptor, of which the last two bits say whether it can be read and written, in `pos:\t0\nflags:\t0100001\n..`.
fn flags_in(text: &[u8]) -> Option<u32> {
    let mut lines = str::from_utf8(text).ok()?.lines();
    let digits = lines.find_map(|line| line.strip_prefix("flags:\t"))?;
    u32::from_str_radix(digits, 8).ok()
}
