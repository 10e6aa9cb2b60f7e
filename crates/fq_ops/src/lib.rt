//! Joins, groupings and rolling sums over batches that arrive one after another.
//!
//! The results do not depend on how the rows are cut into batches. The definitions in `specs/` speak of whole lists of rows, and of
//! neither batches nor hash tables.
//!
//! - [`JoinTable`]: the right side of a join, which left batches probe. It returns the rows of a [`Probe`], a left batch, in parts of
//!   limited size. [`How`] is the type of join.
//! - [`Grouper`]: takes batches, and returns the groups at the end, in the order of their first rows. [`Agg`], [`What`] and [`Function`]
//!   are its aggregates, [`GroupFault`] says why there are no groups.
//! - [`Rolling`]: takes columns, and returns the sums at their cells.
//! - [`join_schema`], [`group_schema`] and [`roll_schema`]: the columns that an operator leaves, or why it is rejected.
//! - [`join_needs`], [`group_needs`] and [`roll_needs`]: whether an operator needs a column of its rows.
//! - [`join_laws`], [`groups_of_parts`] and the laws of needed columns: laws of the definitions, proved for all values.
#![tactic(auto)]

mod accumulators;
mod aggregates;
mod field_lists;
mod groups;
mod joins;
mod key_sets;
mod keys;
mod laws;
mod needed;
mod noted;
mod output_schemas;
mod pairs;
mod probes;
mod rolls;
mod running;
mod states;
mod sums;

pub use aggregates::{Agg, Function, What};
pub use groups::{GroupFault, Grouper, MAX_GROUPED_ROWS, groups_of_parts};
pub use joins::{How, JoinTable, Probed, join_laws};
pub use laws::{
    aggregates_keep_scale, groups_of_needed_columns, join_of_needed_columns,
    rolling_sum_keeps_scale, rolling_sum_of_needed_columns,
};
pub use needed::{group_needs, join_needs, roll_needs};
pub use noted::{group_noted, join_noted, roll_noted};
pub use output_schemas::{group_schema, join_schema, right_name_of, roll_schema};
pub use probes::{Part, Probe, Rest};
pub use rolls::{MAX_WINDOW, Rolling};
