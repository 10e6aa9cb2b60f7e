//! The fields of a schema to be.
ghost use Rattle.std.specs.Prelude.{◌≡◌, ◌<◌, ◌++◌, [], ◌∷◌, Some, All, true, map, length, string_bytes, IfOk, IfErr, OnOk};
ghost use Rattle.fq_column.specs.Frame.{IsSchema, has_name, names_of, position_of};
ghost use Rattle.fq_column.specs.Refusal.{unless_refused};
ghost use Rattle.fq_column.specs.Schema.{schema_checks};
ghost use Rattle.fq_ops.specs.Fields.{AreAt, with_kind};
ghost use Rattle.std.specs.List.{AllPass};

use fq_column::{Kind, Memory, Schema, StepFault};
use std::alloc::Global;
use std::marker::Model;

/// Names and kinds, which need not make a schema.
#[derive(Drop)]
pub struct FieldList {
    names: Vec<String>,
    kinds: Vec<Kind>,
}

impl Model for FieldList {
    ghost use Rattle.std.specs.Prelude.{◌≡◌, map, length, string_bytes};
    ghost use Rattle.fq_column.specs.Frame.{Fields};
    ghost use Rattle.fq_column.specs.Schema.{fields_of};

    ghost Value = { Fields };

    ghost view = { λ s. fields_of (map string_bytes s.names.items) s.kinds.items };

    ghost invariant = { λ s. length s.names.items ≡ length s.kinds.items };
}

impl FieldList {
    /// No field; allocates nothing.
    pub fn new(alloc: Global) -> FieldList
        ensures { result ≡ [] }
    {
        FieldList {
            names: Vec::new(alloc),
            kinds: Vec::new(alloc),
        }
    }

    /// The fields of a schema.
    pub fn copy_of(alloc: Global, schema: &Schema) -> Result<FieldList, StepFault>
        ensures ok { IfOk result (λ fields. fields ≡ schema.now) }
        ensures err { IfErr result (λ fault. fault ≡ StepFault.Memory) }
        ensures schema { IsSchema schema.now }
    {
        let mut fields = FieldList::new(alloc);
        for i in 0..schema.len() {
            fields.push(copy_name(alloc, schema.name(i))?, schema.kind(i))?;
        }
        Ok(fields)
    }

    /// Appends a field; may grow.
    pub fn push(&mut self, name: String, kind: Kind) -> Result<(), StepFault>
        ensures ok { OnOk result (self.new ≡ self.old ++ (string_bytes name, kind) ∷ []) }
        ensures err { IfErr result (λ fault. fault ≡ StepFault.Memory) }
    {
        let Ok(()) = self.kinds.push(kind) else {
            return Err(StepFault::Memory);
        };
        let Ok(()) = self.names.push(name) else {
            self.kinds.truncate(self.names.len());
            return Err(StepFault::Memory);
        };
        Ok(())
    }

    /// Gives field `i` this kind.
    pub fn set_kind(&mut self, i: usize, kind: Kind)
        requires { i < length self.old }
        ensures { self.new ≡ with_kind i kind self.old }
    {
        self.kinds[i] = kind;
    }

    /// The schema of the fields, or its refusal, with no copy.
    pub fn into_schema(self) -> Result<Schema, StepFault>
        ensures { result ≡ unless_refused (schema_checks (names_of self)) self }
    {
        let FieldList { names, kinds } = self;
        Schema::new(names, kinds)
    }
}

/// A copy of a name.
pub fn copy_name(alloc: Global, name: &str) -> Result<String, StepFault>
    ensures ok { IfOk result (λ copy. string_bytes copy ≡ name.now) }
    ensures err { IfErr result (λ fault. fault ≡ StepFault.Memory) }
{
    String::from_str(alloc, name).map_err(|_| StepFault::Memory)
}

/// The place of the column with this name.
pub fn place_of(schema: &Schema, name: &str) -> usize
    requires { has_name (names_of schema.now) name.now ≡ true }
    ensures place { Some result ≡ position_of name.now (names_of schema.now) }
    ensures within { result < length schema.now }
{
    match schema.position(name) {
        Some(place) => place,
        None => unreachable!(),
    }
}

/// The places of named columns.
pub fn positions(alloc: Global, schema: &Schema, names: &[String]) -> Result<Vec<usize>, Memory>
    requires { AllPass (has_name (names_of schema.now)) (map string_bytes names.now) }
    ensures at { IfOk result (λ places. AreAt places.items (map string_bytes names.now) schema.now) }
    ensures within { IfOk result (λ places. All (λ p. p < length schema.now) places.items) }
{
    let mut places = Vec::with_capacity(alloc, names.len())?;
    for name in names {
        places.push(place_of(schema, name.as_str()))?;
    }
    Ok(places)
}
