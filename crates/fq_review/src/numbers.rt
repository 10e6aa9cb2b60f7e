//! Which columns of text have only numbers.
use crate::texts::decimal_places;
use csv::ByteRecord;
use fq_column::{Kind, Memory};
use fq_csv::{NullValues, is_null};
use fq_notation::whole;
use std::alloc::Global;

/// How many fields of each column of a file are numbers, as long as no field of it is something else.
#[derive(Drop)]
pub struct Numbers {
    // nothing of a column that is no text, or has a field that is neither null nor a number
    columns: Vec<Option<u64>>,
}

impl Numbers {
    /// Those of a file with these columns, before its first row. `Memory` if an allocation fails.
    pub fn of(alloc: Global, columns: &[(String, Kind)]) -> Result<Numbers, Memory> {
        let mut counts = Vec::with_capacity(alloc, columns.len())?;
        for (_, kind) in columns {
            let count = match kind {
                Kind::Text => Some(0),
                _ => None,
            };
            counts.push(count)?;
        }
        Ok(Numbers { columns: counts })
    }

    /// Takes a row, in which these texts are null. One of another width is left out.
    pub fn take_row(&mut self, row: &ByteRecord, nulls: &NullValues) {
        if row.len() != self.columns.len() {
            return;
        }
        for (count, field) in self.columns.iter_mut().zip(row.iter()) {
            let Some(before) = *count else { continue };
            if !is_null(field, nulls) {
                *count = is_number(field).then_some(before.saturating_add(1));
            }
        }
    }

    /// How many fields of a column are numbers, if each is that is not null.
    pub fn count(&self, column: usize) -> Option<u64> {
        *self.columns.get(column)?
    }
}

/// Whether a field is a number: a whole number of 64 bits, or a decimal.
pub fn is_number(field: &[u8]) -> bool {
    whole(field).is_some() || decimal_places(field).is_some()
}
