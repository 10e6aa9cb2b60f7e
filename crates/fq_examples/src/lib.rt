//! Worked examples: what the definitions say about small inputs.
//!
//! The functions do nothing. Each clause of theirs is an example, which the prover proves by computing both sides. If a definition said
//! something else about an example, its clause would stay unproved.
//!
//! Each module has the examples of one part of the engine. `limits` has the limits of plans, files and runs as numbers.
#![tactic(auto)]

pub mod columns;
pub mod csv;
pub mod expressions;
pub mod lanes;
pub mod limits;
pub mod operators;
pub mod places;
pub mod plans;
pub mod program;
pub mod reviews;
