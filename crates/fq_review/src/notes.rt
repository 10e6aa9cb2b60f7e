//! What is said of a file as a whole.
use crate::headers::Separator;
use crate::numbers::is_number;
use crate::problems::Problem;
use csv::ByteRecord;
use fq_column::{MAX_COLUMNS, Memory};
use fq_places::{Flaw, Quoted};
use std::alloc::Global;
use std::fmt::{Display, Formatter, Write};
use std::{fmt, str};

/// How a file in another encoding becomes one that is read.
pub const CONVERSION: &str = "if the file is in Latin-1, iconv -f LATIN1 -t UTF-8 converts it";

/// What a reader of a plan may want to know of a file.
#[derive(Drop)]
pub enum Note {
    /// It begins as a file of another format, and what to do then.
    Format(&'static str),
    /// Its header is one field with another separator.
    Separator(Separator),
    /// Each name of its header is a number.
    Numbers,
    /// Its header has more than 64 names: how many.
    Columns(usize),
    /// A name of its header is not valid UTF-8: the column, from 0, and the name.
    BadName(usize, Vec<u8>),
    /// Two names of its header are equal: the two columns, from 0, and the name.
    DoubleName(usize, usize, Vec<u8>),
    /// A quote is not closed.
    OpenQuote,
}

/// A note on a line of a file.
#[derive(Drop)]
pub struct FileNote {
    /// The number of the file, from 0.
    pub file: u16,
    /// The line, from 1.
    pub line: u64,
    /// What is said there.
    pub note: Note,
}

impl Display for Note {
    fn fmt<W: Write>(&self, f: &mut Formatter<W>) -> fmt::Result {
        match self {
            Note::Format(text) => f.write_str(text),
            Note::Separator(separator) => write!(f, "{separator}"),
            Note::Numbers => f.write_str("each name is a number: has it a header?"),
            Note::Columns(columns) => write!(f, "it has {columns} columns"),
            Note::BadName(column, name) => {
                let name = Quoted(name.as_slice());
                write!(
                    f,
                    "column {column} is {name}, not valid UTF-8: {CONVERSION}"
                )
            }
            Note::DoubleName(first, second, name) => {
                let name = Quoted(name.as_slice());
                write!(f, "columns {first} and {second} are both {name}")
            }
            Note::OpenQuote => write!(f, "{}", Problem::Flaw(Flaw::OpenQuote)),
        }
    }
}

/// What is said of a file with this header, in order.
pub fn notes_of(alloc: Global, header: &ByteRecord) -> Result<Vec<Note>, Memory> {
    let mut notes = Vec::new(alloc);
    if let Some(text) = header.get(0).and_then(other_format) {
        notes.push(Note::Format(text))?;
        return Ok(notes);
    }
    if let Some(separator) = Separator::of(header) {
        notes.push(Note::Separator(separator))?;
    }
    if are_numbers(header) {
        notes.push(Note::Numbers)?;
    }
    if let Some(note) = refusal_of(alloc, header)? {
        notes.push(note)?;
    }
    Ok(notes)
}

// What is said of a file that begins with these bytes, if it is no CSV.
fn other_format(start: &[u8]) -> Option<&'static str> {
    match start {
        [0x1F, 0x8B, ..] => Some("it is compressed by gzip: gzip -dc unpacks it"),
        [b'P', b'K', 3, 4, ..] => Some(
            "it is a ZIP archive: unpack it, or if it is a spreadsheet, save it as CSV",
        ),
        [0xD0, 0xCF, 0x11, 0xE0, ..] => Some("it is a spreadsheet: save it as CSV"),
        [0xFE, 0xFF, ..] | [0xFF, 0xFE, ..] => Some(
            "it is in UTF-16: iconv -f UTF-16 -t UTF-8 converts it",
        ),
        _ => None,
    }
}

// Whether each field of a header is a number.
fn are_numbers(header: &ByteRecord) -> bool {
    header.iter().all(is_number)
}

// Why a header is refused, if it is.
fn refusal_of(alloc: Global, header: &ByteRecord) -> Result<Option<Note>, Memory> {
    if header.len() > MAX_COLUMNS {
        return Ok(Some(Note::Columns(header.len())));
    }
    for (place, name) in header.iter().enumerate() {
        if str::from_utf8(name).is_err() {
            let name = Vec::from_slice(alloc, name)?;
            return Ok(Some(Note::BadName(place, name)));
        }
    }
    for (first, name) in header.iter().enumerate() {
        let others = header.iter().enumerate().skip(first.saturating_add(1));
        for (second, other) in others {
            if name == other {
                let name = Vec::from_slice(alloc, name)?;
                return Ok(Some(Note::DoubleName(first, second, name)));
            }
        }
    }
    Ok(None)
}
