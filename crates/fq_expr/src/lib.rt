//! Expressions over the columns of a batch, and the row-wise steps `filter`, `with_columns` and `select`.
//!
//! `specs/` defines them row by row: the value of an expression on a row, or a fault if it does not fit 64 bits (Value.antt), the kind of
//! an expression in a schema (Kinds.antt), and the rows that a step leaves before the first row that faults (Steps.antt). The code
//! evaluates them column by column and returns the same values.
//!
//! - [`Expr`], with [`Unary`] and [`Binary`]: expressions. [`eval`] evaluates one on the rows of a batch.
//! - [`RowStep`]: a step. `RowStep::schema` returns the columns that it leaves, or why it is rejected.
//! - [`Front`]: steps one after another. It makes a [`Piece`] of each batch: the rows before the first that faults, and its [`RowFault`].
//! - [`steps_of_joined_streams`]: the law that steps on a stream give the same rows and fault as steps on its parts, joined.
//! - [`value_of_read_columns`] and [`step_on_needed_columns`]: the laws that columns which an expression does not read, or which a step
//!   does not need, have no effect on what it returns.
//!
//! Modules, from the bottom up: `operands` (a borrowed column, an owned one, or a single value), `operations` (the loop over rows),
//! `arithmetic`, `comparison` and `logic` (the operations), `kernels` (each operator on operands of any kind), `expressions` and
//! `evaluation`, `steps` and `application`, `fronts`, `laws`; beside them `followed`, `naming`, `beside` and `misfits`
//! (what ints stand for).
#![tactic(auto)]

mod application;
mod arithmetic;
mod beside;
mod comparison;
mod evaluation;
mod expressions;
mod followed;
mod fronts;
mod kernels;
mod laws;
mod logic;
mod misfits;
mod naming;
mod operands;
mod operations;
mod steps;

pub use beside::Beside;
pub use evaluation::eval;
pub use expressions::{Binary, Expr, Unary};
pub use fronts::{Front, MAX_STEPS, Piece, RowFault};
pub use laws::{
    scale_that_is_read, step_on_needed_columns, steps_of_joined_streams, value_keeps_scale,
    value_of_read_columns,
};
pub use misfits::Misfit;
pub use steps::RowStep;
