//! How the records of a file are read.
ghost use Rattle.std.specs.Prelude.{◌≡◌, IfOk, map, string_bytes};
ghost use Rattle.fq_column.specs.Frame.{kinds_of};
ghost use Rattle.fq_csv.specs.Field.{is_one_of};
ghost use Rattle.fq_csv.specs.Readings.{AreReadings};

use crate::cells::projections::Projection;
use crate::cells::readings::Reading;
use arrayvec::ArrayVec;
use fq_column::{MAX_COLUMNS, Memory, Schema, copy_strings};
use fq_notation::Notations;
use std::alloc::Global;
use std::marker::Model;

/// Texts that are read as null: a field that is one of them, byte for byte, is null in a column of any kind.
///
/// Repeats change nothing, and an empty field is null without any. Polars calls them `null_values` of `scan_csv`.
#[derive(Debug, Drop)]
pub struct NullValues {
    texts: Vec<String>,
}

impl Model for NullValues {
    ghost use Rattle.std.specs.Prelude.{List, ℕ, map, string_bytes};

    ghost Value = { List (List ℕ) };

    ghost view = { λ n. map string_bytes n.texts.items };
}

impl NullValues {
    /// These texts.
    pub fn new(texts: Vec<String>) -> NullValues
        ensures { result ≡ map string_bytes texts.items }
    {
        NullValues { texts }
    }

    /// The texts.
    pub fn texts(&self) -> &[String]
        ensures { map string_bytes result.now ≡ self.now }
    {
        self.texts.as_slice()
    }

    /// The same texts in memory of their own.
    pub fn copy(&self, alloc: Global) -> Result<NullValues, Memory>
        ensures { IfOk result (λ n. n ≡ self.now) }
    {
        let texts = copy_strings(alloc, self.texts.as_slice())?;
        Ok(NullValues { texts })
    }

    /// Whether a field is one of the texts.
    pub(crate) fn has(&self, field: &[u8]) -> bool
        ensures { result ≡ is_one_of self.now field.now }
    {
        for text in &self.texts {
            if text.as_bytes() == field {
                return true;
            }
        }
        false
    }
}

/// How the records of a file are read: its columns, the texts that are null in each of them, how their ints are written, and which of the
/// columns are kept.
#[derive(Debug, Drop)]
pub struct Layout {
    /// The names that the header must have, and the kinds of the columns.
    pub schema: Schema,
    /// The texts that are read as null.
    pub nulls: NullValues,
    /// How the ints of each column are written.
    pub notations: Notations,
    /// The columns that are kept; null stands in the others.
    pub projection: Projection,
}

impl Layout {
    /// An equal layout in memory of its own.
    pub fn copy(&self, alloc: Global) -> Result<Layout, Memory>
        ensures { IfOk result (λ l. l ≡ self.now) }
    {
        Ok(Layout {
            schema: self.schema.copy(alloc)?,
            nulls: self.nulls.copy(alloc)?,
            notations: self.notations.copy(alloc)?,
            projection: self.projection.copy(alloc)?,
        })
    }

    /// How the fields of each column are read.
    pub(crate) fn readings(&self) -> ArrayVec<Reading, MAX_COLUMNS>
        ensures { AreReadings (kinds_of self.now.schema) self.now result.items }
    {
        let mut readings = ArrayVec::new();
        for column in 0..self.schema.len() {
            readings.push(Reading::new(
                self.schema.kind(column),
                self.notations.of(column),
                self.projection.keeps(column),
            ));
        }
        readings
    }
}
