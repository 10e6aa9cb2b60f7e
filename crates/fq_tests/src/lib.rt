//! Tests of the program: plans over files, each with the expected result or fault, and what other arguments print.
//!
//! Each plan runs at several batch sizes and numbers of workers, and the program must return the same at each. If a plan has one file and
//! its text is one line, the program also runs it without arguments, from standard input. `cases` has these runs.
#![tactic(auto)]

#[cfg(test)]
mod arguments;
#[cfg(test)]
mod cases;
#[cfg(test)]
mod details;
#[cfg(test)]
mod expressions;
#[cfg(test)]
mod files;
#[cfg(test)]
mod groups;
#[cfg(test)]
mod joins;
#[cfg(test)]
mod needed_columns;
#[cfg(test)]
mod order_of_faults;
#[cfg(test)]
mod outputs;
#[cfg(test)]
mod plan_texts;
#[cfg(test)]
mod refused_plans;
#[cfg(test)]
mod reviews;
#[cfg(test)]
mod rolling_sums;
