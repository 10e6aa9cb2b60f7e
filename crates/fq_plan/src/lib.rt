//! What a plan over CSV files means, its check, and its run.
//!
//! [`read_plan`] of `fq_language` reads a plan, [`Check::check`] rejects it or returns a [`Checked`] plan, and [`Checked::run`] runs that
//! over files. `specs/Meaning.antt` defines what a plan means. A checked plan is a physical plan of `fq_run`, and the contract of a run
//! says that it comes to what the plan means.
//!
//! - [`Check`] and [`Checked`]: the check, and what a run needs. Of the main source it keeps only the columns that the steps need.
//! - `Checked::with_notations`: the same plan with decimals and dates in named columns. [`NotationFault`] says why it rejects a name.
//! - [`meaning_of_items`], [`meaning_of_cut_files`], [`meaning_of_needed_columns`], [`meaning_without_notations`] and [`renamed_steps`]:
//!   laws of the meaning, proved for all plans and files.
//!
//! The crate also exports what its callers need of `fq_csv`, `fq_expr`, `fq_lanes`, `fq_language` and `fq_run`.
#![tactic(auto)]

mod checks;
mod laws;
mod noted;
mod runs;

pub use checks::{Check, Checked};
pub use fq_csv::{MAX_BATCH_SIZE, MAX_FILES, ScanFault};
pub use fq_expr::{MAX_STEPS, Piece, RowFault};
pub use fq_lanes::{Gate, MAX_WORKERS, NoGate, Report};
pub use fq_language::{
    CheckFault, ConstantComparison, MAX_NULL_VALUES, MAX_SOURCES, Place, Plan, PlanFault, Reason,
    Refusal, Source, StepText, plans_of_both_versions, read_plan, reason_of,
};
pub use fq_run::{Explanation, Fault, Worked};
pub use laws::{
    meaning_of_cut_files, meaning_of_items, meaning_of_needed_columns, meaning_without_notations,
    renamed_steps,
};
pub use noted::NotationFault;
