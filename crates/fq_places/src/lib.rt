//! Finds places in the text of a CSV file, so that messages can name a line or show a field.
//!
//! - [`line_of_record`] and [`record_at`]: the line on which a record begins, and the record's fields, by its number in the file.
//! - [`Marks`]: the lines of all records, and each [`Flaw`], where a file departs from RFC 4180 but is read all the same.
//! - [`LinedRecords`]: a file's records together with their lines and flaws.
//! - [`ends_in_quotes`]: whether a quote is still open at the end of a file.
//! - [`Quoted`]: bytes as a message shows them. [`Unread`]: why a file cannot be read again.
//! - [`lines_of_records`]: the law that there are as many lines on which records begin as there are records.
#![tactic(auto)]

mod laws;
mod lined;
mod lines;
mod marks;
mod places;
mod quoted;
mod records;
mod unread;

pub use laws::lines_of_records;
pub use lined::LinedRecords;
pub use lines::{ends_in_quotes, line_of_record};
pub use marks::{Flaw, Mark, Marks};
pub use quoted::Quoted;
pub use records::record_at;
pub use unread::Unread;
