//! What is wrong in a string of a text that is not JSON (RFC 8259, 7): the error of `serde_json` has no more than the string's place. What is
//! an escape is asked of `serde_json`.
use fq_column::Memory;
use serde_json::Value;
use std::alloc::Global;
use std::fmt::{Display, Formatter, Write};
use std::{fmt, str};

/// How many bytes an escape takes: of one character, of a UTF-16 code unit, and of a pair of these.
const LENGTHS: [usize; 3] = [2, 6, 12];

/// What is wrong in a string, and how many of its bytes stand before that.
#[derive(Clone, Copy)]
pub struct Flaw<'a> {
    pub place: usize,
    found: Found<'a>,
}

// What stands where a string goes wrong.
#[derive(Clone, Copy)]
enum Found<'a> {
    // The end of the line.
    End,
    // A control character.
    Control(u8),
    // A backslash, and what follows it.
    Backslash(&'a [u8]),
}

impl<'a> Flaw<'a> {
    /// The first flaw of the string with which the rest of a line begins; `None` if it begins with no string, or the string has none.
    pub fn of_string(alloc: Global, rest: &'a [u8]) -> Result<Option<Flaw<'a>>, Memory> {
        if rest.first() != Some(&b'"') {
            return Ok(None);
        }
        // where the next character stands that is not a part of an escape
        let mut next = 1;
        for (place, byte) in rest.iter().enumerate() {
            if place < next {
                continue;
            }
            let found = match *byte {
                b'"' => return Ok(None),
                b'\\' => {
                    let escape = rest.get(place..).unwrap_or_default();
                    match escape_length(alloc, escape)? {
                        Some(length) => {
                            next = place.saturating_add(length);
                            continue;
                        }
                        None => Found::Backslash(escape),
                    }
                }
                control @ 0..32 => Found::Control(control),
                _ => continue,
            };
            return Ok(Some(Flaw { place, found }));
        }
        let (place, found) = (rest.len(), Found::End);
        Ok(Some(Flaw { place, found }))
    }
}

// How many bytes the escape takes with which a text begins, with both halves of a surrogate pair.
fn escape_length(alloc: Global, text: &[u8]) -> Result<Option<usize>, Memory> {
    for length in LENGTHS {
        if let Some(escape) = text.get(..length)
            && is_in_strings(alloc, escape)?
        {
            return Ok(Some(length));
        }
    }
    Ok(None)
}

// Whether a text, in quotes, is a string.
fn is_in_strings(alloc: Global, text: &[u8]) -> Result<bool, Memory> {
    let mut string = Vec::with_capacity(alloc, text.len().saturating_add(2))?;
    string.push(b'"')?;
    string.extend_from_slice(text)?;
    string.push(b'"')?;
    match Value::from_slice(alloc, string.as_slice()) {
        Ok(_) => Ok(true),
        Err(error) if error.is_memory() => Err(Memory),
        Err(_) => Ok(false),
    }
}

impl Display for Flaw<'_> {
    fn fmt<W: Write>(&self, f: &mut Formatter<W>) -> fmt::Result {
        match self.found {
            Found::End => f.write_str(
                r"the line ends in a string; close its quote, or write the line break as \n",
            ),
            Found::Control(byte) => write!(
                f,
                "a string has the control character U+{byte:04X}; it is written \\u{byte:04x}"
            ),
            Found::Backslash(text) => write_escape(text, f),
        }
    }
}

// What is wrong with an escape.
fn write_escape<W: Write>(text: &[u8], f: &mut Formatter<W>) -> fmt::Result {
    if text.get(1) != Some(&b'u') {
        let next = shown_character(text.get(1..).unwrap_or_default());
        return write!(
            f,
            "\"\\{next}\" is not an escape; a backslash is written \\\\"
        );
    }
    match digits_in(text) {
        Some(digits) => write!(f, "\"\\u{digits}\" is half of a surrogate pair"),
        None => f.write_str(r#""\u" needs four hexadecimal digits"#),
    }
}

// The digits of an escape `\uXXXX`.
fn digits_in(text: &[u8]) -> Option<&str> {
    let digits = str::from_utf8(text.get(2..6)?).ok()?;
    let are_digits = digits.bytes().all(|byte| byte.is_ascii_hexdigit());
    are_digits.then_some(digits)
}

// The character with which bytes begin, if it can be seen.
fn shown_character(bytes: &[u8]) -> &str {
    match first_character(bytes) {
        Some(next) if !next.chars().any(char::is_control) => next,
        _ => "",
    }
}

/// The character with which bytes begin.
pub fn first_character(bytes: &[u8]) -> Option<&str> {
    (1..5).find_map(|length| str::from_utf8(bytes.get(..length)?).ok())
}
