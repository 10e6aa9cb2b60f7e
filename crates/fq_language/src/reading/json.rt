//! Why a text is not JSON, and where.
use crate::reading::flaws::{Flaw, first_character};
use crate::reasons::{Reason, Segment};
use fq_column::Memory;
use fq_places::Quoted;
use serde_json::Error;
use std::alloc::Global;
use std::str;

/// Why a text that was refused with an error is not JSON, with its line and its column, in bytes, from 1.
pub fn no_json(alloc: Global, text: &[u8], error: Error) -> Result<Reason, Memory> {
    let (line, mut column) = (error.line(), error.column().max(1));
    let said = match str::from_utf8(text) {
        Ok(text) => {
            let rest = rest_of_line(text, line, column);
            match flaw_at(alloc, rest, error)? {
                Some(flaw) => {
                    column = column.saturating_add(flaw.place);
                    format!(in alloc; "{flaw}")?
                }
                None => reason_at(alloc, rest, error)?,
            }
        }
        Err(_) => String::from_str(alloc, "invalid UTF-8")?,
    };
    Reason::new(alloc, said).within(Segment::Text { line, column })
}

// What is wrong in the string at the place of the error, if it is not only cut short.
fn flaw_at(alloc: Global, rest: &[u8], error: Error) -> Result<Option<Flaw<'_>>, Memory> {
    if error.is_eof() {
        Ok(None)
    } else {
        Flaw::of_string(alloc, rest)
    }
}

// The rest of a line of a text from a column on, both from 1.
fn rest_of_line(text: &str, line: usize, column: usize) -> &[u8] {
    let line = text.lines().nth(line.saturating_sub(1)).unwrap_or("");
    let before = column.saturating_sub(1);
    line.as_bytes().get(before..).unwrap_or(b"")
}

// Why a text is not JSON, if this is the rest of the line at the place of the error.
fn reason_at(alloc: Global, rest: &[u8], error: Error) -> Result<String, Memory> {
    if error.is_eof() && rest.len() <= 1 {
        return Ok(String::from_str(alloc, "the text ends here")?);
    }
    let said = error.to_string(alloc)?;
    let said = said.as_str().split(" at line ").next().unwrap_or("");
    match first_character(rest) {
        Some(found) if said == "invalid JSON" => {
            let hint = match found {
                "/" | "#" => "; JSON has no comments",
                _ => "",
            };
            Ok(format!(in alloc; "found {}{hint}", Quoted(found.as_bytes()))?)
        }
        _ => Ok(String::from_str(alloc, said)?),
    }
}
