//! What is wrong with a row, a field or another place of a file.
use crate::headers::Header;
use fq_column::Kind;
use fq_csv::MAX_ROWS;
use fq_notation::Notation;
use fq_places::{Flaw, Quoted};
use std::fmt;
use std::fmt::{Display, Formatter, Write};

/// A row with more or fewer fields than the header.
#[derive(Clone, Copy)]
pub struct Width {
    /// How many fields the row has.
    pub fields: usize,
    /// How many columns the header has.
    pub columns: usize,
}

impl Display for Width {
    fn fmt<W: Write>(&self, f: &mut Formatter<W>) -> fmt::Result {
        let (fields, columns) = (self.fields, self.columns);
        let word = if fields == 1 { "field" } else { "fields" };
        write!(f, "{fields} {word}, the header has {columns}")
    }
}

/// A field that is not a cell of its column.
#[derive(Clone, Copy)]
pub struct BadField<'a> {
    /// The name of its column.
    pub column: &'a str,
    /// What it has to be.
    pub wanted: Wanted,
    /// The bytes of the field.
    pub field: &'a [u8],
}

impl<'a> BadField<'a> {
    /// A field of a column of this name and kind, whose ints are in this notation.
    pub fn of(column: &'a str, kind: Kind, notation: Notation, field: &'a [u8]) -> BadField<'a> {
        BadField {
            column,
            wanted: Wanted::of(kind, notation),
            field,
        }
    }
}

impl Display for BadField<'_> {
    fn fmt<W: Write>(&self, f: &mut Formatter<W>) -> fmt::Result {
        let (column, field) = (Quoted(self.column.as_bytes()), Quoted(self.field));
        write!(f, "column {column}: {field} is not {}", self.wanted)
    }
}

/// What a field has to be.
#[derive(Clone, Copy)]
pub enum Wanted {
    /// An int, in digits.
    Int,
    /// A number with so many places at most behind its point.
    Decimal(u8),
    /// A date, as YYYY-MM-DD.
    Date,
    /// Valid UTF-8.
    Text,
    /// A bool.
    Truth,
}

impl Wanted {
    /// A field of a column of this kind, whose ints are in this notation.
    pub fn of(kind: Kind, notation: Notation) -> Wanted {
        match kind {
            Kind::Text => Wanted::Text,
            Kind::Truth => Wanted::Truth,
            Kind::Whole => match notation {
                Notation::Plain => Wanted::Int,
                Notation::Decimal(scale) => Wanted::Decimal(scale.places() as u8),
                Notation::Date => Wanted::Date,
            },
        }
    }
}

impl Display for Wanted {
    fn fmt<W: Write>(&self, f: &mut Formatter<W>) -> fmt::Result {
        match self {
            Wanted::Int => f.write_str("an int"),
            Wanted::Decimal(places) => write!(
                f,
                "a decimal of at most {}",
                Places(u64::from(*places))
            ),
            Wanted::Date => f.write_str("a date, YYYY-MM-DD"),
            Wanted::Text => f.write_str("valid UTF-8"),
            Wanted::Truth => f.write_str("a bool"),
        }
    }
}

/// How many places a decimal has behind its point.
#[derive(Clone, Copy)]
pub struct Places(pub u64);

impl Display for Places {
    fn fmt<W: Write>(&self, f: &mut Formatter<W>) -> fmt::Result {
        let plural = if self.0 == 1 { "" } else { "s" };
        write!(f, "{} place{plural}", self.0)
    }
}

/// What is wrong at a place of a file.
#[derive(Clone, Copy)]
pub enum Problem<'a> {
    /// The file has no header.
    NoHeader,
    /// The header has not the names that it has to have.
    Header(Header<'a>),
    /// A row has more or fewer fields than the header.
    Width(Width),
    /// A field is not a cell of its column.
    Field(BadField<'a>),
    /// The file is not written as RFC 4180 says.
    Flaw(Flaw),
    /// The file has more than [`MAX_ROWS`] rows.
    TooLong,
}

impl Display for Problem<'_> {
    fn fmt<W: Write>(&self, f: &mut Formatter<W>) -> fmt::Result {
        match self {
            Problem::NoHeader => f.write_str("it has no header"),
            Problem::Header(header) => write!(f, "{header}"),
            Problem::Width(width) => write!(f, "{width}"),
            Problem::Field(field) => write!(f, "{field}"),
            Problem::Flaw(Flaw::OpenQuote) => f.write_str("a quote opened here is not closed"),
            Problem::Flaw(Flaw::TextAfterQuote) => f.write_str("text follows a closing quote"),
            Problem::Flaw(Flaw::LoneReturn) => f.write_str("a carriage return has no line feed"),
            Problem::TooLong => write!(f, "over {MAX_ROWS} rows"),
        }
    }
}
