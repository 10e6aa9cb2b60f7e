//! Where a reader of CSV stands in a text.
ghost use Rattle.std.specs.Prelude.{◌≡◌, ◌≤◌, drop, length};
ghost use Rattle.csv.specs.Machine.{step};
ghost use Rattle.csv.specs.Reading.{default_config, strip_bom};
ghost use Rattle.fq_places.specs.Lines.{begins};
ghost use Rattle.fq_places.specs.Marks.{flaw_at};
ghost use Rattle.fq_places.specs.Places.{opens, state_of};

use crate::marks::Flaw;

// The byte order mark, U+FEFF in UTF-8.
const MARK: [u8; 3] = [0xEF, 0xBB, 0xBF];

/// Where a reader of CSV stands in a text.
#[derive(Clone, Copy)]
pub enum Place {
    /// Before a record.
    Start,
    /// After the carriage return that ended a record.
    AfterReturn,
    /// At the start of a field.
    Field,
    /// In a field.
    InField,
    /// In quotes.
    InQuotes,
    /// After a quote in quotes.
    AfterQuote,
}

impl Place {
    /// Whether a record begins with this byte.
    pub fn begins(self, byte: u8) -> bool
        ensures { result ≡ begins (state_of self) byte }
    {
        match self {
            Place::Start | Place::AfterReturn => byte != b'\r' && byte != b'\n',
            _ => false,
        }
    }

    /// Where the reader stands after this byte.
    pub fn after(self, byte: u8) -> Place
        ensures { state_of result ≡ (step default_config (state_of self) byte).0 }
    {
        match (self, byte) {
            (Place::InQuotes, b'"') => Place::AfterQuote,
            (Place::InQuotes, _) | (Place::AfterQuote, b'"') => Place::InQuotes,
            (Place::Start | Place::AfterReturn | Place::Field, b'"') => Place::InQuotes,
            (Place::Start | Place::AfterReturn, b'\r') | (_, b'\n') => Place::Start,
            (_, b'\r') => Place::AfterReturn,
            (_, b',') => Place::Field,
            _ => Place::InField,
        }
    }

    /// Whether this byte opens quotes.
    pub fn opens(self, byte: u8) -> bool
        ensures { result ≡ opens (state_of self) byte }
    {
        match self {
            Place::Start | Place::AfterReturn | Place::Field => byte == b'"',
            _ => false,
        }
    }

    /// What shows at this byte.
    pub fn flaw_at(self, byte: u8) -> Option<Flaw>
        ensures { result ≡ flaw_at (state_of self) byte }
    {
        match (self, byte) {
            (Place::AfterQuote, b'"' | b',' | b'\r' | b'\n') | (Place::AfterReturn, b'\n') => None,
            (Place::AfterQuote, _) => Some(Flaw::TextAfterQuote),
            (Place::AfterReturn, _) => Some(Flaw::LoneReturn),
            _ => None,
        }
    }
}

/// How many bytes a byte order mark takes at the start of these.
pub fn mark_len(bytes: &[u8]) -> usize
    ensures fits { result ≤ length bytes.now }
    ensures rest { drop result bytes.now ≡ strip_bom bytes.now }
{
    if bytes.starts_with(&MARK) {
        MARK.len()
    } else {
        0
    }
}
