//! The plan language: plans as data, reading them from JSON, and explaining to people what is wrong with one.
//!
//! [`read_plan`] reads a plan from JSON text. `specs/Spelling.antt` defines the language, and `specs/Judged.antt` defines which plans the
//! check of `fq_plan` rejects. This crate knows nothing of runs.
//!
//! - [`Plan`], [`Source`] and [`Step`]: a plan as data.
//! - [`PlanFault`], and [`CheckFault`] with its [`Place`]: why a text is not a plan, and why and where the check rejects one.
//! - [`reason_of`] and `Plan::refusal`: the same for people, as a [`Reason`] and a [`Refusal`].
//! - `Plan::step_text`: what a step is called in messages, as a [`StepText`].
//! - `Plan::constant_comparisons` and `Plan::text_orders`: what is allowed but seldom meant, each a [`ConstantComparison`] or a
//!   [`TextOrder`].
//! - [`plans_of_both_versions`]: the law that a plan of version 1 is the same plan in version 2.
#![tactic(auto)]

mod constants;
mod faults;
mod hints;
mod laws;
mod orders;
mod plans;
mod reading;
mod reasons;
mod refusals;
mod step_words;
mod words;

pub use constants::ConstantComparison;
pub use faults::{CheckFault, Place, PlanFault};
pub use laws::plans_of_both_versions;
pub use orders::TextOrder;
pub use plans::{MAX_NULL_VALUES, MAX_SOURCES, Plan, Source, Step, read_plan, reason_of};
pub use reasons::Reason;
pub use refusals::Refusal;
pub use step_words::StepText;
