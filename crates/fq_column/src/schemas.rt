//! Schemas: distinct names, each with the kind of its column.
ghost use Rattle.std.specs.Prelude.{◌≡◌, ◌<◌, ◌↔◌, None, Some, Ok, Err, map, length, string_bytes, not, IsTrue, IfOk, OnOk, OnErr, ◌≤◌, ◌++◌, ◌∷◌, [], MatchResult, slice_get};
ghost use Rattle.std.specs.Cmp as laws;
ghost use Rattle.fq_column.specs.Frame.{put_named, IsSchema, names_of, kinds_of, position_of, same_name};
ghost use Rattle.fq_column.specs.Lists.{is_distinct};
ghost use Rattle.fq_column.specs.Refusal.{first_refusal};
ghost use Rattle.fq_column.specs.Schema.{schema_checks, fields_of, kind_named, same_fields};
ghost use Rattle.fq_column.specs.SchemaLaws.{same_fields_equivalence};

use crate::cells::Kind;
use crate::faults::{Memory, StepFault};
use std::alloc::Global;
use std::marker::Model;

/// The most columns of a schema.
pub const MAX_COLUMNS: usize = 64;

/// From 1 to 64 names that differ, each with the kind of its column.
#[derive(Debug, Drop)]
pub struct Schema {
    names: Vec<String>,
    kinds: Vec<Kind>,
}

impl Model for Schema {
    ghost use Rattle.std.specs.Prelude.{◌≡◌, map, length, string_bytes};
    ghost use Rattle.fq_column.specs.Frame.{Fields, IsSchema};
    ghost use Rattle.fq_column.specs.Schema.{fields_of};

    ghost Value = { Fields };

    ghost view = { λ s. fields_of (map string_bytes s.names.items) s.kinds.items };

    ghost invariant = { λ s. (length s.names.items ≡ length s.kinds.items) × IsSchema (fields_of (map string_bytes s.names.items) s.kinds.items) };
}

impl Schema {
    /// The schema of these names and kinds, with no copy.
    ///
    /// Refused, in this order: `NoColumn` if there is no name, `TooMany` if there are more than 64, `DoubleName` if two
    /// are equal, byte for byte.
    pub fn new(names: Vec<String>, kinds: Vec<Kind>) -> Result<Schema, StepFault>
        requires { length names.items ≡ length kinds.items }
        ensures ok { IfOk result (λ s. s ≡ fields_of (map string_bytes names.items) kinds.items) }
        ensures refused { MatchResult result
            (λ s. first_refusal (schema_checks (map string_bytes names.items)) ≡ None)
            (λ fault. first_refusal (schema_checks (map string_bytes names.items)) ≡ Some fault) }
    {
        if names.is_empty() {
            return Err(StepFault::NoColumn);
        }
        if names.len() > MAX_COLUMNS {
            return Err(StepFault::TooMany);
        }
        if has_double(names.as_slice()) {
            return Err(StepFault::DoubleName);
        }
        Ok(Schema { names, kinds })
    }

    /// How many columns there are, from 1 to 64.
    pub fn len(&self) -> usize
        ensures len { result ≡ length self.now }
        ensures schema { IsSchema self.now }
    {
        self.names.len()
    }

    /// The name of column `i`.
    pub fn name(&self, i: usize) -> &str
        requires { i < length self.now }
        ensures { slice_get (names_of self.now) i ≡ Some result.now }
    {
        self.names[i].as_str()
    }

    /// The kind of column `i`.
    pub fn kind(&self, i: usize) -> Kind
        requires { i < length self.now }
        ensures { slice_get (kinds_of self.now) i ≡ Some result }
    {
        self.kinds[i]
    }

    /// The place of the column with this name, or `None`.
    pub fn position(&self, name: &str) -> Option<usize>
        ensures { result ≡ position_of name.now (names_of self.now) }
    {
        for i in 0..self.names.len() {
            if name == self.names[i].as_str() {
                return Some(i);
            }
        }
        None
    }

    /// The kind of the column with this name, or `NoSuchColumn`.
    pub fn kind_of(&self, name: &str) -> Result<Kind, StepFault>
        ensures { result ≡ kind_named self.now name.now }
    {
        match self.position(name) {
            Some(i) => Ok(self.kind(i)),
            None => Err(StepFault::NoSuchColumn),
        }
    }

    /// Puts a column in the place of the one of its name, or else last; may grow.
    ///
    /// If an allocation fails, the schema is as it was.
    pub fn put(&mut self, name: &str, kind: Kind) -> Result<(), Memory>
        requires { length (put_named self.old (name.now, kind)) ≤ MAX_COLUMNS }
        ensures ok { OnOk result (self.new ≡ put_named self.old (name.now, kind)) }
        ensures err { OnErr result (self.new ≡ self.old) }
    {
        match self.position(name) {
            Some(i) => self.kinds[i] = kind,
            None => {
                let name = String::from_str(*self.names.allocator(), name)?;
                push_both(&mut self.names, &mut self.kinds, name, kind)?;
            }
        }
        Ok(())
    }

    /// An equal schema in memory of its own.
    pub fn copy(&self, alloc: Global) -> Result<Schema, Memory>
        ensures { IfOk result (λ s. s ≡ self.now) }
    {
        let names = copy_strings(alloc, self.names.as_slice())?;
        let mut kinds = Vec::with_capacity(alloc, self.kinds.len())?;
        kinds.extend_from_slice(self.kinds.as_slice())?;
        Ok(Schema { names, kinds })
    }
}

impl PartialEq for Schema {
    ghost eq = { same_fields };

    ghost laws = { laws.partial_equiv_from_equiv same_fields_equivalence };

    /// Whether the names and kinds are equal, in their order.
    fn eq(&self, other: &Schema) -> bool
        ensures value { result ≡ same_fields self.now other.now }
        ensures decides { IsTrue result ↔ (self.now ≡ other.now) }
    {
        self.names == other.names && self.kinds == other.kinds
    }
}

impl Eq for Schema {
    ghost laws = { same_fields_equivalence };
}

/// Whether two of the names are equal.
pub fn has_double(names: &[String]) -> bool
    ensures { result ≡ not (is_distinct same_name (map string_bytes names.now)) }
{
    match names.split_first() {
        None => false,
        Some((first, rest)) => rest.contains(first) || has_double(rest),
    }
}

/// Copies of strings, in memory of their own.
pub fn copy_strings(alloc: Global, strings: &[String]) -> Result<Vec<String>, Memory>
    ensures { IfOk result (λ copies. map string_bytes copies.items ≡ map string_bytes strings.now) }
{
    let mut copies = Vec::with_capacity(alloc, strings.len())?;
    for string in strings {
        copies.push(String::from_str(alloc, string.as_str())?)?;
    }
    Ok(copies)
}

// Appends a name and a kind, or neither.
fn push_both(
    names: &mut Vec<String>,
    kinds: &mut Vec<Kind>,
    name: String,
    kind: Kind,
) -> Result<(), Memory>
    ensures ok { OnOk result ((names.new.items ≡ names.old.items ++ name ∷ []) × (kinds.new.items ≡ kinds.old.items ++ kind ∷ [])) }
    ensures err { OnErr result ((names.new.items ≡ names.old.items) × (kinds.new.items ≡ kinds.old.items)) }
{
    kinds.push(kind)?;
    if names.push(name).is_ok() {
        return Ok(());
    }
    kinds.truncate(kinds.len() - 1);
    Err(Memory)
}
