//! Lists and pairs.
ghost use Rattle.std.specs.Prelude.{List, map, string_bytes};
ghost use Rattle.fq_column.specs.Frame.{Name};
ghost use Rattle.fq_language.specs.Parts.{each_of, name_of, pair_of};

use crate::plans::Version;
use crate::reading::explanations::{no_list, wrong_length};
use crate::reading::values::two_items;
use crate::reading::{Listed, Named, Spelled, read_at};
use crate::reasons::{Explained, Segment};
use serde_json::Value;
use std::alloc::Global;

// An array whose items each spell a part.
impl<T: Spelled + Listed> Spelled for Vec<T> {
    ghost Part = { List T.Part };

    ghost spelled_by = { λ version. each_of (T.spelled_by version) };

    ghost part_of = { λ parts. map T.part_of parts.items };

    fn read(alloc: Global, version: Version, value: &Value) -> Explained<Vec<T>> {
        let Some(items) = value.as_array() else {
            return Err(no_list(alloc, value, T::ITEMS));
        };
        let mut parts = Vec::with_capacity(alloc, items.len())?;
        for item in items {
            let part = read_at(alloc, version, Segment::Item(parts.len()), item)?;
            parts.push(part)?;
        }
        Ok(parts)
    }
}

// An array of a name and a part.
impl<B: Spelled + Named> Spelled for (String, B) {
    ghost Part = { Name × B.Part };

    ghost spelled_by = { λ version. pair_of name_of (B.spelled_by version) };

    ghost part_of = { λ pair. (string_bytes pair.0, B.part_of pair.1) };

    fn read(alloc: Global, version: Version, value: &Value) -> Explained<(String, B)> {
        let Some((name, part)) = two_items(value) else {
            return Err(wrong_length(alloc, value, B::FORM));
        };
        let name = read_at(alloc, version, Segment::Item(0), name)?;
        let part = read_at(alloc, version, Segment::Item(1), part)?;
        Ok((name, part))
    }
}
