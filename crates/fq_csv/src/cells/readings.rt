//! How the fields of a column are read.
ghost use Rattle.std.specs.Prelude.{◌≡◌};
ghost use Rattle.fq_csv.specs.Readings.{is_plain, reading_of};

use fq_column::Kind;
use fq_notation::{Notation, Scale};

/// How the fields of a column are read: worked out once for many records, so that a field asks one question.
#[derive(Clone, Copy, Default)]
pub(crate) enum Reading {
    /// As whole numbers in digits.
    #[default]
    Whole,
    /// As decimals of this scale.
    Decimal(Scale),
    /// As dates.
    Date,
    /// As texts.
    Text,
    /// As truth values.
    Truth,
    /// As cells of this kind, whose ints are in this notation, which are judged and not kept: null stands in their places.
    Judged(Kind, Notation),
}

impl Reading {
    /// How the fields of a column of this kind are read, whose ints are in this notation, and which is kept or not.
    pub(crate) fn new(kind: Kind, notation: Notation, is_kept: bool) -> Reading
        ensures { result ≡ reading_of kind notation is_kept }
    {
        if !is_kept {
            return Reading::Judged(kind, notation);
        }
        match kind {
            Kind::Whole => match notation {
                Notation::Plain => Reading::Whole,
                Notation::Decimal(scale) => Reading::Decimal(scale),
                Notation::Date => Reading::Date,
            },
            Kind::Text => Reading::Text,
            Kind::Truth => Reading::Truth,
        }
    }

    /// Whether the column is kept, and its ints are in digits.
    pub(crate) fn is_plain(&self) -> bool
        ensures { result ≡ is_plain self.now }
    {
        matches!(self, Reading::Whole | Reading::Text | Reading::Truth)
    }
}
