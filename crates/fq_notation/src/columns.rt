//! The notations of columns.
ghost use Rattle.std.specs.Prelude.{◌≡◌, [], IfOk, slice_index_or};
ghost use Rattle.fq_notation.specs.declared.notations.Notation.TheVariants.{Plain};

use crate::notations::Notation;
use fq_column::Memory;
use std::alloc::Global;
use std::marker::Model;

/// The notations of columns, one for each; the ints of a column past them are in digits.
///
/// Only the ints of a column have a notation: a column of texts or truth values is written as it is, whatever stands at its place.
#[derive(Debug, Drop)]
pub struct Notations {
    notations: Vec<Notation>,
}

impl Model for Notations {
    ghost use Rattle.std.specs.Prelude.{List};
    ghost use Rattle.fq_notation.specs.declared.notations.Notation.{Notation};

    ghost Value = { List Notation };

    ghost view = { λ n. n.notations.items };
}

impl Notations {
    /// Digits in each column, however many there are. Allocates nothing.
    pub fn plain(alloc: Global) -> Notations
        ensures { result ≡ [] }
    {
        Notations {
            notations: Vec::new(alloc),
        }
    }

    /// These notations.
    pub fn new(notations: Vec<Notation>) -> Notations
        ensures { result ≡ notations.items }
    {
        Notations { notations }
    }

    /// The same notations in memory of their own. `Memory` if an allocation fails.
    pub fn copy(&self, alloc: Global) -> Result<Notations, Memory>
        ensures { IfOk result (λ n. n ≡ self.now) }
    {
        Ok(Notations {
            notations: Vec::from_slice(alloc, self.notations.as_slice())?,
        })
    }

    /// The notation of the column at this place.
    pub fn of(&self, column: usize) -> Notation
        ensures { result ≡ slice_index_or self.now column Plain }
    {
        self.notations
            .get(column)
            .copied()
            .unwrap_or(Notation::Plain)
    }
}
