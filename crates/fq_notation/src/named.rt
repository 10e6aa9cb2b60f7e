//! Notations by the names of columns.
ghost use Rattle.std.specs.Prelude.{◌≡◌, ◌++◌, ◌∷◌, [], IfOk, OnErr, OnOk, find, map, option_map, string_bytes};
ghost use Rattle.fq_column.specs.Frame.{same_name};
ghost use Rattle.fq_notation.specs.Naming.{notation_at};
ghost use Rattle.fq_notation.specs.Notation.{notation_given, notation_in};

use crate::columns::Notations;
use crate::notations::Notation;
use fq_column::{Kind, Memory, Schema};
use std::alloc::Global;
use std::marker::Model;

/// Notations of ints by the names of the columns that they are of; the ints of a column of another name are in digits.
///
/// Where a name stands twice, the first notation is that of its columns.
#[derive(Debug, Drop)]
pub struct NamedNotations {
    named: Vec<(String, Notation)>,
}

impl Model for NamedNotations {
    ghost use Rattle.std.specs.Prelude.{List, map, string_bytes};
    ghost use Rattle.fq_notation.specs.Notation.{Named};

    ghost Value = { List Named };

    ghost view = { λ n. map (λ entry. (string_bytes entry.0, entry.1)) n.named.items };
}

impl NamedNotations {
    /// These names, each with its notation.
    pub fn new(named: Vec<(String, Notation)>) -> NamedNotations
        ensures { result ≡ map (λ entry. (string_bytes entry.0, entry.1)) named.items }
    {
        NamedNotations { named }
    }

    /// The names, each with its notation.
    pub fn entries(&self) -> &[(String, Notation)]
        ensures { map (λ entry. (string_bytes entry.0, entry.1)) result.now ≡ self.now }
    {
        self.named.as_slice()
    }

    /// No names, with room for so many. `Memory` if an allocation fails.
    pub fn with_capacity(alloc: Global, most: usize) -> Result<NamedNotations, Memory>
        ensures { IfOk result (λ n. n ≡ []) }
    {
        let named = Vec::with_capacity(alloc, most)?;
        Ok(NamedNotations { named })
    }

    /// One more name, after the others. `Memory` if an allocation fails, and then the names are as they were.
    pub fn add(&mut self, alloc: Global, name: &str, notation: Notation) -> Result<(), Memory>
        ensures added { OnOk result (self.new ≡ self.old ++ (name.now, notation) ∷ []) }
        ensures refused { OnErr result (self.new ≡ self.old) }
    {
        let name = String::from_str(alloc, name)?;
        Ok(self.named.push((name, notation))?)
    }

    /// The same names, each with the same notation. `Memory` if an allocation fails.
    pub fn copy(&self, alloc: Global) -> Result<NamedNotations, Memory>
        ensures { IfOk result (λ n. n ≡ self.now) }
    {
        let entries = self.entries();
        let mut copied = NamedNotations::with_capacity(alloc, entries.len())?;
        for entry in entries {
            copied.add(alloc, entry.0.as_str(), entry.1)?;
        }
        Ok(copied)
    }

    /// These names and their notations before others. `Memory` if an allocation fails.
    pub fn before(mut self, others: NamedNotations) -> Result<NamedNotations, Memory>
        ensures { IfOk result (λ n. n ≡ self ++ others) }
    {
        let NamedNotations { mut named } = others;
        self.named.append(&mut named)?;
        Ok(self)
    }

    /// The notation of the first entry of this name; `None` if there is none.
    pub fn given(&self, name: &str) -> Option<Notation>
        ensures { result ≡ notation_given self.now name.now }
    {
        first_under(name, self.named.as_slice())
    }

    /// The notation of a column of this name and kind: one of another kind than int is read and printed as it is.
    pub fn of(&self, name: &str, kind: Kind) -> Notation
        ensures { result ≡ notation_in self.now (name.now, kind) }
    {
        match kind {
            Kind::Whole => first_under(name, self.named.as_slice()).unwrap_or(Notation::Plain),
            Kind::Text | Kind::Truth => Notation::Plain,
        }
    }

    /// The notation of the column of this name in a schema; of none, digits.
    pub fn at(&self, columns: &Schema, name: &str) -> Notation
        ensures { result ≡ notation_at columns.now self.now name.now }
    {
        match columns.kind_of(name) {
            Ok(kind) => self.of(name, kind),
            Err(_) => Notation::Plain,
        }
    }

    /// The notations of the columns of a schema. `Memory` if an allocation fails.
    pub fn of_columns(&self, alloc: Global, columns: &Schema) -> Result<Notations, Memory>
        ensures { IfOk result (λ notations. notations ≡ map (notation_in self.now) columns.now) }
    {
        let mut notations = Vec::with_capacity(alloc, columns.len())?;
        for column in 0..columns.len() {
            notations.push(self.of(columns.name(column), columns.kind(column)))?;
        }
        Ok(Notations::new(notations))
    }
}

/// The notation of the first entry under a name.
fn first_under(name: &str, named: &[(String, Notation)]) -> Option<Notation>
    ensures { result ≡ option_map (λ entry. entry.1) (find (λ entry. same_name (string_bytes entry.0) name.now) named.now) }
{
    let entry = named.iter().find(|entry| entry.0.as_str() == name)?;
    Some(entry.1)
}
