//! The marks of a file: where its records begin, and where it is written otherwise than RFC 4180 says.
ghost use Rattle.std.specs.Prelude.{◌≡◌, ◌≤◌, ◌∷◌, [], ◌++◌, ℕ, List, Some, IfOk, MatchOption, OnOk, drop, if◌then◌else◌, is_some, length};
ghost use Rattle.fq_places.specs.Lines.{line_after};
ghost use Rattle.fq_places.specs.Marks.{HasMarks, IsSound, mark_at, mark_at_end, marks_from, marks_of, with_mark};
ghost use Rattle.fq_places.specs.Places.{state_of};
ghost use Rattle.fq_places.specs.Records.{flaws_of, lines_of};
ghost use Rattle.fq_places.specs.declared.marks.Mark.{Mark as MarkValue};

use crate::places::{Place, mark_len};
use std::alloc::Global;
use std::io;
use std::io::{BufRead, BufReader, ErrorKind, Read};

/// In which way a file is written otherwise than RFC 4180 says. `csv` reads it nevertheless.
#[derive(Clone, Copy, Debug, PartialEq, Eq)]
pub enum Flaw {
    /// A quote is not closed where the file ends: all that follows it is one field.
    OpenQuote,
    /// Text follows a closing quote: it is a part of the field.
    TextAfterQuote,
    /// A carriage return without a line feed ends a record.
    LoneReturn,
}

/// What is to be said of a place in a file: a record begins there, or a flaw shows there, or both.
#[derive(Clone, Copy, Debug, PartialEq, Eq)]
pub struct Mark {
    /// The line, from 1, as an editor counts them: a line ends with a line feed. That of an open quote is the one on which it opens.
    pub line: u64,
    /// Whether a record begins there.
    pub begins: bool,
    /// What shows there.
    pub flaw: Option<Flaw>,
}

// Where a reader of CSV stands in a text, and on which lines.
#[derive(Clone, Copy)]
struct Stand {
    place: Place,
    // the line of the next byte
    line: u64,
    // the line of the quote that opened last
    quote: u64,
}

impl Stand {
    // What is marked at this byte.
    fn mark_at(self, byte: u8) -> Option<Mark>
        ensures { result ≡ mark_at (state_of self.place) self.line byte }
    {
        let (begins, flaw) = (self.place.begins(byte), self.place.flaw_at(byte));
        if !begins && flaw.is_none() {
            return None;
        }
        let line = self.line;
        Some(Mark { line, begins, flaw })
    }

    // What is marked where the file ends.
    fn mark_at_end(self) -> Option<Mark>
        ensures { result ≡ mark_at_end (state_of self.place) self.line self.quote }
    {
        let (line, flaw) = match self.place {
            Place::InQuotes => (self.quote, Flaw::OpenQuote),
            Place::AfterReturn => (self.line, Flaw::LoneReturn),
            _ => return None,
        };
        Some(Mark {
            line,
            begins: false,
            flaw: Some(flaw),
        })
    }

    // Goes on over this byte.
    fn pass(&mut self, byte: u8) -> io::Result<()>
        ensures { OnOk result ((more : List ℕ) → marks_from (state_of self.old.place) self.old.line self.old.quote (byte ∷ more)
            ≡ with_mark (mark_at (state_of self.old.place) self.old.line byte) (marks_from (state_of self.new.place) self.new.line self.new.quote more)) }
    {
        if self.place.opens(byte) {
            self.quote = self.line;
        }
        self.line = line_after(self.line, byte)?;
        self.place = self.place.after(byte);
        Ok(())
    }

    // Goes on over bytes up to the first at which there is a mark, and over that. Gives the mark, and how many bytes these are.
    fn pass_all(&mut self, bytes: &[u8]) -> io::Result<Option<(Mark, usize)>>
        ensures { IfOk result (λ found. (more : List ℕ) → MatchOption found
            (marks_from (state_of self.old.place) self.old.line self.old.quote (bytes.now ++ more) ≡ marks_from (state_of self.new.place) self.new.line self.new.quote more)
            (λ m. (marks_from (state_of self.old.place) self.old.line self.old.quote (bytes.now ++ more) ≡ m.0 ∷ marks_from (state_of self.new.place) self.new.line self.new.quote (drop m.1 bytes.now ++ more)) × (m.1 ≤ length bytes.now))) }
    {
        for i in 0..bytes.len() {
            let mark = self.mark_at(bytes[i]);
            self.pass(bytes[i])?;
            if let Some(mark) = mark {
                return Ok(Some((mark, i + 1)));
            }
        }
        Ok(None)
    }
}

/// A reader of the marks of a file, which holds one line of it at a time.
#[derive(Drop)]
pub struct Marks<R> {
    reader: BufReader<R>,
    // the line that was read last, and how many of its bytes are passed
    bytes: Vec<u8>,
    passed: usize,
    stand: Stand,
}

impl<R: Read + Drop> Marks<R> {
    /// A reader of the marks of these bytes. A byte order mark is passed over, as `csv` does. Fails if a read fails or an allocation does
    /// (`OutOfMemory`).
    pub fn new(alloc: Global, bytes: R) -> io::Result<Marks<R>>
        ensures sound { IfOk result (λ marks. IsSound marks) }
        ensures left { IfOk result (λ marks. (all : List ℕ) → R.remaining bytes ≡ Some all → HasMarks R.remaining marks (marks_of all)) }
    {
        let mut reader = BufReader::new(alloc, bytes)?;
        let mut bytes = Vec::new(alloc);
        reader.read_until(b'\n', &mut bytes)?;
        let passed = mark_len(bytes.as_slice());
        Ok(Marks {
            reader,
            bytes,
            passed,
            stand: Stand {
                place: Place::Start,
                line: 1,
                quote: 1,
            },
        })
    }

    /// The next mark, or `None` if there is none left. Fails if a read fails, if an allocation fails (`OutOfMemory`), or if the file has
    /// more than 18,446,744,073,709,551,614 lines (`FileTooLarge`).
    pub fn next(&mut self) -> io::Result<Option<Mark>>
        requires { IsSound self.old }
        ensures sound { IsSound self.new }
        ensures reads { IfOk result (λ mark. (marks : List MarkValue) → HasMarks R.remaining self.old marks → (rest : List MarkValue) × HasMarks R.remaining self.new rest
            × MatchOption mark ((marks ≡ []) × (rest ≡ [])) (λ m. marks ≡ m ∷ rest)) }
    {
        for _ in 0..u64::MAX {
            if let Some((mark, count)) = self.stand.pass_all(&self.bytes[self.passed..])? {
                self.passed += count;
                return Ok(Some(mark));
            }
            self.bytes.clear();
            self.passed = 0;
            if self.reader.read_until(b'\n', &mut self.bytes)? == 0 {
                let mark = self.stand.mark_at_end();
                self.stand.place = Place::Start;
                return Ok(mark);
            }
        }
        // never reached: no run lives through so many rounds
        Err(io::Error::from(ErrorKind::FileTooLarge))
    }
}

impl<R: Read + Drop> Marks<R> {
    /// The line of the next record, or `None` if there is none left. The marks up to it at which a flaw shows are added to `flaws`. Fails as
    /// `next` does.
    pub fn next_record(&mut self, flaws: &mut Vec<Mark>) -> io::Result<Option<u64>>
        requires { IsSound self.old }
        ensures sound { IsSound self.new }
        ensures reads { IfOk result (λ line. (marks : List MarkValue) → HasMarks R.remaining self.old marks → (rest : List MarkValue) × HasMarks R.remaining self.new rest
            × MatchOption line ((lines_of marks ≡ []) × (rest ≡ [])) (λ l. lines_of marks ≡ l ∷ lines_of rest) × (flaws.old.items ++ flaws_of marks ≡ flaws.new.items ++ flaws_of rest)) }
    {
        for _ in 0..u64::MAX {
            let Some(mark) = self.next()? else {
                return Ok(None);
            };
            add_flaw(flaws, mark)?;
            if mark.begins {
                return Ok(Some(mark.line));
            }
        }
        // never reached: no run lives through so many rounds
        Err(io::Error::from(ErrorKind::FileTooLarge))
    }
}

// Adds a mark at which a flaw shows.
fn add_flaw(flaws: &mut Vec<Mark>, mark: Mark) -> io::Result<()>
    ensures { OnOk result (flaws.new.items ≡ (if is_some mark.flaw then flaws.old.items ++ mark ∷ [] else flaws.old.items)) }
{
    if mark.flaw.is_some() {
        flaws.push(mark)?;
    }
    Ok(())
}

// The line of the byte after this one of a line.
fn line_after(line: u64, byte: u8) -> io::Result<u64>
    ensures { IfOk result (λ after. after ≡ line_after line byte) }
{
    if byte != b'\n' {
        return Ok(line);
    }
    Ok(line.checked_add(1).ok_or(ErrorKind::FileTooLarge)?)
}
