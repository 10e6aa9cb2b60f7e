//! The data of a dataframe: cells, schemas, columns and batches.
//!
//! A [`Column`] holds cells of one kind, as a vector of values and a mark for each that says whether it is null. A [`Batch`] is a schema
//! and rows, stored by column. To callers a batch is a list of rows: [`Batch::append`] adds rows at its end, [`Batch::keep`] filters it
//! by a mask, and [`Batch::cut`] keeps its first rows. `specs/` defines what the crates above share: rows, frames, streams, and lists cut
//! into pieces.
//!
//! - [`Kind`] and [`Cell`]: what a column may hold, and one value or null. [`Text`] is a cell's string.
//! - [`Schema`]: 1 to [`MAX_COLUMNS`] distinct names, each with the kind of its column.
//! - [`Array`] and [`Values`]: the values behind a column, to work on a whole column at a time.
//! - [`Piece`]: rows, and the fault that ends them, if one does.
//! - [`StepFault`], [`BatchFault`] and [`Memory`]: a rejected schema or step, columns that do not make a batch, a failed allocation.
//! - [`cell_laws`] and [`stream_laws`]: laws of the definitions, proved for all values.
#![tactic(auto)]

mod arrays;
mod batches;
mod cells;
mod columns;
mod faults;
mod laws;
mod pieces;
mod schemas;
mod texts;
mod validity;

pub use arrays::{Array, Element};
pub use batches::{Batch, cut_columns, empty_columns, put_column};
pub use cells::{Cell, Kind};
pub use columns::{Column, Values};
pub use faults::{BatchFault, Memory, StepFault};
pub use laws::{cell_laws, stream_laws};
pub use pieces::Piece;
pub use schemas::{MAX_COLUMNS, Schema, copy_strings, has_double};
pub use texts::Text;
