//! Runs physical plans over CSV files.
//!
//! A [`PhysicalPlan`] is what the check of `fq_plan` makes of a plan: its sources, the leading row-wise steps, and a [`Stage`] for each
//! [`Operator`] after them. In a run, a feed for each file cuts its text into runs of records, workers make a batch of each run and take
//! the leading steps, and a tail passes the rows through the stages and prints them. `specs/Physical.antt` defines what a run comes to,
//! without the plan language.
//!
//! - [`PhysicalPlan`]: `run` runs it, and `explain` returns its [`Explanation`], which `--explain` prints.
//! - [`Fault`]: why a run has no result.
//! - [`Worked`]: what a worker makes of an item, as a gate sees it.
#![tactic(auto)]

mod explanations;
mod faults;
mod file_feeds;
mod gathering;
mod leading_steps;
mod noted_plans;
mod openings;
mod operators;
mod passed;
mod physical_plans;
mod pipeline;
mod printed_text;
mod printing;
mod row_sinks;
mod run_tail;
mod runs;
mod stages;

pub use explanations::Explanation;
pub use faults::Fault;
pub use leading_steps::Worked;
pub use noted_plans::has_ints;
pub use operators::{GroupBy, Join, MAX_JOINED_ROWS, Operator, RollingSum};
pub use physical_plans::PhysicalPlan;
pub use stages::Stage;
