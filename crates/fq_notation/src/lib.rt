//! How the ints of a column are written in CSV text: in digits, with a decimal point, or as dates.
//!
//! A [`Notation`] reads a field as a 64-bit int, and writes the int as text again. With two places after the point, `12.50` is 1250; as a
//! date, `2024-02-29` is 20240229. Nothing is rounded: a field that is not an int in the notation is rejected. [`notation_laws`] proves
//! that reading what was printed returns the same int; as a date, it does so for each int that stands for a day.
//!
//! - [`Scale`]: how many places the decimals of a column have, from 1 to 18. [`Scales`]: the scales that ints may have which are computed.
//! - [`Notations`] and [`NamedNotations`]: the notations of columns, by place and by name.
//! - [`whole`], [`decimal`] and [`date`]: the int that a field spells in digits, as a decimal, and as a date.
//! - [`decimal_text`] and [`date_text`]: the text of an int as a decimal and as a date, as an [`IntText`].
#![tactic(auto)]

mod columns;
mod dates;
mod decimals;
mod digits;
mod followed;
mod laws;
mod named;
mod naming;
mod notations;
mod scale_ranges;
mod scales;
mod texts;

pub use columns::Notations;
pub use dates::{date, date_text};
pub use decimals::{decimal, decimal_text};
pub use digits::whole;
pub use followed::Followed;
pub use laws::notation_laws;
pub use named::NamedNotations;
pub use naming::{
    Made, Said, StepUnnoted, Unnoted, column_noted, count_noted, days_noted, is_digits,
    notation_said, numbers_noted, renamed_noted, said_at, same_notation,
};
pub use notations::Notation;
pub use scale_ranges::Scales;
pub use scales::Scale;
pub use texts::IntText;
