//! Which columns joins, groupings and rolling sums need of their rows.
ghost use Rattle.std.specs.Prelude.{◌≡◌, List, map, string_bytes};
ghost use Rattle.std.specs.List.{list_any};
ghost use Rattle.fq_column.specs.Frame.{Name, has_name};
ghost use Rattle.fq_ops.specs.AggregateData.{aggregate_of, outputs_of};
ghost use Rattle.fq_ops.specs.Needed.{names_aggregated, needed_before_groups, needed_before_join, needed_before_roll};

use crate::aggregates::{Agg, What};
use crate::output_schemas::contains;

/// Whether a join on these keys needs the column of this name in its left rows: it is a key, or it is needed after the join, as
/// `after` says.
pub fn join_needs(on: &[String], name: &str, after: bool) -> bool
    ensures { (needed : List Name) → has_name needed name.now ≡ after → result ≡ has_name (needed_before_join (map string_bytes on.now) needed) name.now }
{
    contains(on, name) || after
}

/// Whether a grouping needs the column of this name in its rows: it is a key, or an aggregate reads it.
pub fn group_needs(keys: &[String], aggs: &[Agg], name: &str) -> bool
    ensures { result ≡ has_name (needed_before_groups (map string_bytes keys.now) (outputs_of aggs.now)) name.now }
{
    contains(keys, name) || some_reads(aggs, name)
}

/// Whether a rolling sum of a column, put under the name `output`, needs the column of this name in its rows: it is that column, or
/// it is needed after the rolling sum, as `after` says, and comes from its rows.
pub fn roll_needs(column: &str, output: &str, name: &str, after: bool) -> bool
    ensures { (needed : List Name) → has_name needed name.now ≡ after → result ≡ has_name (needed_before_roll column.now output.now needed) name.now }
{
    name == column || (after && output != name)
}

impl What {
    // Whether the aggregate reads the column of this name.
    fn reads(&self, name: &str) -> bool
        ensures { result ≡ has_name (names_aggregated (aggregate_of self.now)) name.now }
    {
        match self {
            What::Len => false,
            What::Of(_, column) => name == column.as_str(),
        }
    }
}

// Whether an aggregate reads the column of this name.
fn some_reads(aggs: &[Agg], name: &str) -> bool
    ensures { result ≡ list_any (λ a. has_name (names_aggregated (aggregate_of a.what)) name.now) aggs.now }
{
    aggs.iter().any(|agg| agg.what.reads(name))
}
