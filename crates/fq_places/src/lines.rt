//! The line of a record, and whether a file ends in quotes.
ghost use Rattle.std.specs.Prelude.{◌≡◌, ℕ, List, Some, IfOk, slice_get};
ghost use Rattle.fq_places.specs.Records.{ends_in_quotes, is_open_quote, record_lines};

use crate::marks::{Flaw, Marks};
use std::alloc::Global;
use std::io;
use std::io::{ErrorKind, Read};

/// The line, from 1, on which the record of this number begins, from 0; or `None` if the file has no such record.
///
/// The header is record 0, so a row's number is that of its record. Fails as [`Marks`] does.
pub fn line_of_record<R: Read + Drop>(
    alloc: Global,
    reader: R,
    number: u64,
) -> io::Result<Option<u64>>
    ensures { IfOk result (λ line. (bytes : List ℕ) → R.remaining reader ≡ Some bytes → line ≡ slice_get (record_lines bytes) number) }
{
    let mut marks = Marks::new(alloc, reader)?;
    let mut left = number;
    for _ in 0..u64::MAX {
        let Some(mark) = marks.next()? else {
            return Ok(None);
        };
        if mark.begins {
            if left == 0 {
                return Ok(Some(mark.line));
            }
            left -= 1;
        }
    }
    // never reached: no run lives through so many rounds
    Err(io::Error::from(ErrorKind::FileTooLarge))
}

/// Whether a file ends in quotes that are not closed. Fails as [`Marks`] does.
pub fn ends_in_quotes<R: Read + Drop>(alloc: Global, reader: R) -> io::Result<bool>
    ensures { IfOk result (λ quoted. (bytes : List ℕ) → R.remaining reader ≡ Some bytes → quoted ≡ ends_in_quotes bytes) }
{
    let mut marks = Marks::new(alloc, reader)?;
    for _ in 0..u64::MAX {
        let Some(mark) = marks.next()? else {
            return Ok(false);
        };
        if is_open_quote(mark.flaw) {
            return Ok(true);
        }
    }
    // never reached: no run lives through so many rounds
    Err(io::Error::from(ErrorKind::FileTooLarge))
}

// Whether a flaw is a quote that is not closed.
fn is_open_quote(flaw: Option<Flaw>) -> bool
    ensures { result ≡ is_open_quote flaw }
{
    matches!(flaw, Some(Flaw::OpenQuote))
}
