//! Aggregates of groups.
ghost use Rattle.std.specs.Prelude.{◌≡◌, option_map, string_bytes};
ghost use Rattle.serde_json.specs.View.{view};
ghost use Rattle.fq_ops.specs.Aggregate.{Output};
ghost use Rattle.fq_ops.specs.AggregateData.{aggregate_of};
ghost use Rattle.fq_language.specs.Parts.{word};
ghost use Rattle.fq_language.specs.Spelling.{aggregate, row_counts};

use crate::plans::Version;
use crate::reading::explanations::{other_word, wrong_length};
use crate::reading::values::{three_items, two_items};
use crate::reading::{Listed, Spelled, read_at};
use crate::reasons::{Explained, PartFault, Segment};
use crate::words::{AGGREGATES, function as read_function};
use fq_ops::{Agg, What};
use serde_json::Value;
use std::alloc::Global;

// `[NAME, "len"]`, or `[NAME, FUNCTION, COLUMN]`.
impl Spelled for Agg {
    ghost Part = { Output };

    ghost spelled_by = { λ _. aggregate };

    ghost part_of = { λ agg. (string_bytes agg.name, aggregate_of agg.what) };

    fn read(alloc: Global, version: Version, value: &Value) -> Explained<Agg> {
        if let Some((name, function)) = two_items(value) {
            let name = read_at(alloc, version, Segment::Item(0), name)?;
            let Some(what) = of_rows(function) else {
                let takes = "needs a column: [NAME, FUNCTION, COLUMN]";
                return Err(no_function(alloc, version, function, takes));
            };
            return Ok(Agg { name, what });
        }
        let Some((name, function, column)) = three_items(value) else {
            let form = "an aggregate is [NAME, \"len\"] or [NAME, FUNCTION, COLUMN]";
            return Err(wrong_length(alloc, value, form));
        };
        let name = read_at(alloc, version, Segment::Item(0), name)?;
        let Some(function) = read_function(function) else {
            let takes = "takes no column: [NAME, \"len\"]";
            return Err(no_function(alloc, version, function, takes));
        };
        let column = read_at(alloc, version, Segment::Item(2), column)?;
        let what = What::Of(function, column);
        Ok(Agg { name, what })
    }
}

impl Listed for Agg {
    const ITEMS: &'static str = "aggregates, each [NAME, \"len\"] or [NAME, FUNCTION, COLUMN]";
}

// The aggregate of no column that a word names.
fn of_rows(function: &Value) -> Option<What>
    ensures { option_map aggregate_of result ≡ word row_counts (view function.now) }
{
    match function.as_str()? {
        "len" => Some(What::Len),
        _ => None,
    }
}

// The second item of an aggregate is not a function of this form. If it is one of the other form, `takes` says what that takes.
fn no_function(alloc: Global, version: Version, function: &Value, takes: &str) -> PartFault {
    other_word(alloc, version, function, AGGREGATES, AGGREGATES, takes).within(Segment::Item(1))
}
