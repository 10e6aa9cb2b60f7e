//! What the ints of a column, or of an expression over columns, stand for.
ghost use Rattle.std.specs.Prelude.{◌≡◌};
ghost use Rattle.fq_notation.specs.Naming.{column_followed, of_column, scales_in};

use crate::named::NamedNotations;
use crate::notations::Notation;
use crate::scale_ranges::Scales;
use fq_column::{Kind, Schema};

/// What ints stand for.
#[derive(Clone, Copy, Debug, PartialEq, Eq)]
pub enum Followed {
    /// Numbers of these scales.
    Numbers(Scales),
    /// Days.
    Days,
    /// Nothing: texts and truth values.
    Others,
}

impl Followed {
    /// What the ints of a column of this kind stand for in a notation.
    pub fn of_column(kind: Kind, notation: Notation) -> Followed
        ensures { result ≡ of_column kind notation }
    {
        match (kind, notation) {
            (Kind::Whole, Notation::Plain) => Followed::Numbers(Scales::only(0)),
            (Kind::Whole, Notation::Decimal(scale)) => Followed::Numbers(Scales::of(scale)),
            (Kind::Whole, Notation::Date) => Followed::Days,
            (Kind::Text | Kind::Truth, _) => Followed::Others,
        }
    }

    /// What the ints of a named column stand for, by the notations under the columns' names.
    pub fn of_named(columns: &Schema, named: &NamedNotations, name: &str) -> Followed
        ensures { result ≡ column_followed columns.now named.now name.now }
    {
        match columns.kind_of(name) {
            Ok(kind) => Followed::of_column(kind, named.of(name, kind)),
            Err(_) => Followed::Others,
        }
    }

    /// The scales of numbers; `None` for what stands for no numbers.
    pub fn numbers(self) -> Option<Scales>
        ensures { result ≡ scales_in self }
    {
        match self {
            Followed::Numbers(scales) => Some(scales),
            Followed::Days | Followed::Others => None,
        }
    }
}
