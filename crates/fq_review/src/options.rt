//! The options that a note names, as a reader of it can type them.
use fq_csv::NullValues;
use fq_notation::Notation;
use std::fmt::{Display, Formatter, Write};
use std::{fmt, str};

/// `--null-values` with these texts and one more, as a shell takes it.
#[derive(Clone, Copy)]
pub struct NullOption<'a> {
    nulls: &'a NullValues,
    more: &'a str,
}

impl<'a> NullOption<'a> {
    /// The option, or `None` if one of the texts has a comma, a quote, or another character than the printable ones of ASCII.
    pub fn of(nulls: &'a NullValues, more: &'a [u8]) -> Option<NullOption<'a>> {
        let more = str::from_utf8(more).ok()?;
        let can_be_typed = can_be_quoted(more)
            && nulls
                .texts()
                .iter()
                .all(|null| can_be_quoted(null.as_str()));
        can_be_typed.then_some(NullOption { nulls, more })
    }
}

impl Display for NullOption<'_> {
    fn fmt<W: Write>(&self, f: &mut Formatter<W>) -> fmt::Result {
        let nulls = self.nulls.texts();
        let is_bare = is_bare(self.more) && nulls.iter().all(|null| is_bare(null.as_str()));
        let quote = if is_bare { "" } else { "'" };
        write!(f, "--null-values {quote}")?;
        for null in nulls {
            write!(f, "{null},")?;
        }
        write!(f, "{}{quote}", self.more)
    }
}

/// `--decimal` or `--date` with the name of a column, as a shell takes it.
#[derive(Clone, Copy)]
pub enum NotationOption<'a> {
    /// `--decimal`: the name of the column, and how many places its decimals have behind their point.
    Decimal(&'a str, usize),
    /// `--date`: the name of the column.
    Date(&'a str),
}

impl<'a> NotationOption<'a> {
    /// The option. `None` for ints in digits, and if the name is empty, begins with a hyphen, or has a comma, an equals sign, a quote, or
    /// another character than the printable ones of ASCII.
    pub fn of(name: &'a str, notation: Notation) -> Option<NotationOption<'a>> {
        if !can_be_quoted(name) || name.contains('=') || name.is_empty() || name.starts_with('-') {
            return None;
        }
        match notation {
            Notation::Plain => None,
            Notation::Decimal(scale) => Some(NotationOption::Decimal(name, scale.places())),
            Notation::Date => Some(NotationOption::Date(name)),
        }
    }
}

impl Display for NotationOption<'_> {
    fn fmt<W: Write>(&self, f: &mut Formatter<W>) -> fmt::Result {
        match self {
            NotationOption::Decimal(name, scale) => {
                let quote = quote_of(name);
                write!(f, "--decimal {quote}{name}={scale}{quote}")
            }
            NotationOption::Date(name) => {
                let quote = quote_of(name);
                write!(f, "--date {quote}{name}{quote}")
            }
        }
    }
}

// Whether a text may stand between single quotes, and has no comma.
fn can_be_quoted(text: &str) -> bool {
    text.bytes().all(|byte| (b' '..=b'~').contains(&byte) && byte != b'\'' && byte != b',')
}

// What stands before a text and after it in a shell.
fn quote_of(text: &str) -> &'static str {
    if is_bare(text) { "" } else { "'" }
}

// Whether a text needs no quotes in a shell.
fn is_bare(text: &str) -> bool {
    text.bytes().all(|byte| byte.is_ascii_alphanumeric() || b"-./_".contains(&byte))
}
