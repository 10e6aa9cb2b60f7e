//! How the ints of a column are written.
ghost use Rattle.std.specs.Prelude.{◌≡◌};
ghost use Rattle.fq_notation.specs.Notation.{int_text, int_under};

use crate::dates::{date, date_text};
use crate::decimals::{decimal, decimal_text};
use crate::digits::whole;
use crate::scales::Scale;
use crate::texts::{IntText, plain_text};
use std::fmt;
use std::fmt::{Display, Formatter, Write};

/// How the ints of a column are written in CSV text.
#[derive(Clone, Copy, Debug, Default, PartialEq, Eq)]
pub enum Notation {
    /// In digits, with a sign or not.
    #[default]
    Plain,
    /// With a decimal point: the int is the number times 10^scale.
    Decimal(Scale),
    /// As a date, `YYYY-MM-DD`: the int is year * 10,000 + month * 100 + day.
    Date,
}

impl Notation {
    /// The int that a field is in this notation; `None` if it is none.
    #[inline]
    pub fn int(self, field: &[u8]) -> Option<i64>
        ensures { result ≡ int_under self field.now }
    {
        match self {
            Notation::Plain => whole(field),
            Notation::Decimal(scale) => decimal(field, scale),
            Notation::Date => date(field),
        }
    }

    /// The text of an int in this notation.
    #[inline]
    pub fn text(self, value: i64) -> IntText
        ensures { result.items ≡ int_text self value }
    {
        match self {
            Notation::Plain => plain_text(value),
            Notation::Decimal(scale) => decimal_text(value, scale),
            Notation::Date => date_text(value),
        }
    }
}

impl Display for Notation {
    fn fmt<W: Write>(&self, f: &mut Formatter<W>) -> fmt::Result {
        match self {
            Notation::Plain => f.write_str("in digits"),
            Notation::Decimal(scale) => write!(f, "of scale {}", scale.places()),
            Notation::Date => f.write_str("of dates"),
        }
    }
}
