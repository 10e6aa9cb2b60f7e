//! The notations of columns that steps make.
ghost use Rattle.std.specs.Prelude.{◌≡◌, ◌≤◌, slice_index_or};
ghost use Rattle.fq_notation.specs.declared.naming.Said.{Said};
ghost use Rattle.fq_notation.specs.Naming.{are_read_as_digits, column_noted, count_noted, days_noted, days_or_read, declared_noted, in_files_noted, is_digits, made_again_noted, may_be_days, may_have, notation_of, notation_said, numbers_noted, read_noted, read_or, reads_digits, renamed_noted, same_notation};

use crate::followed::Followed;
use crate::notations::Notation;
use crate::scale_ranges::Scales;
use crate::scales::Scale;
use fq_column::Memory;
use thiserror::Error;

/// What the name of a column that a step makes says of its ints.
#[derive(Clone, Copy, Debug, PartialEq, Eq)]
pub enum Said {
    /// Nothing: no argument has the name, and no source has ints of it.
    Nothing,
    /// A source has ints of this name, in digits, and no argument has it.
    Digits,
    /// An argument gives the ints of a source this notation.
    InFiles(Notation),
    /// An argument gives the name this notation. No source has ints of it, and no later step makes it.
    Declared(Notation),
    /// The same, and a later step makes it again.
    MadeAgain(Notation),
}

/// What the name at a place says; a name past the end says nothing.
pub fn said_at(said: &[Said], place: usize) -> Said
    ensures { result ≡ slice_index_or said.now place Said.Nothing }
{
    said.get(place).copied().unwrap_or(Said::Nothing)
}

/// Why a column that a step makes has no notation.
#[derive(Clone, Copy, Debug, PartialEq, Eq, Error)]
pub enum Unnoted {
    /// What its expression is made of cannot stand for anything together, or not for what its name says.
    #[error("notations differ")]
    Differ,
    /// Its ints may have several scales, and its name says none.
    #[error("a scale has to be named")]
    Unnamed,
}

/// Why a step leaves columns without notations.
#[derive(Clone, Copy, Debug, PartialEq, Eq, Error)]
pub enum StepUnnoted {
    /// Why what a filter, a join or a rolling sum is made of has none.
    #[error("{0}")]
    Step(Unnoted),
    /// Why an output or an aggregate has none, and its place.
    #[error("item {0}: {1}")]
    Item(usize, Unnoted),
    /// An allocation failed.
    #[error("out of memory")]
    Memory,
}

impl From<Memory> for StepUnnoted {
    ghost use Rattle.std.specs.Prelude.{◌≡◌};
    ghost use Rattle.fq_notation.specs.declared.naming.StepUnnoted.TheVariants as unnoted;

    ghost from_gives = { λ _ e. e ≡ unnoted.Memory };

    fn from(_refused: Memory) -> StepUnnoted {
        StepUnnoted::Memory
    }
}

/// What numbers are made of.
#[derive(Clone, Copy, Debug, PartialEq, Eq)]
pub struct Made {
    /// All columns are digits.
    pub digits: bool,
    /// All columns are digits or days.
    pub of_digits: bool,
    /// Something that reads a column is multiplied.
    pub multiplied: bool,
    /// They are a remainder, or are not made row by row.
    pub remainder: bool,
}

// Whether numbers may be the days that a name says they are.
fn may_be_days(made: Made, scales: Scales) -> bool
    ensures { result ≡ may_be_days made scales }
{
    reads_digits(made, scales) && !made.remainder
}

// Whether numbers are read as digits, or else are made of digits and days alone.
fn reads_digits(made: Made, scales: Scales) -> bool
    ensures { result ≡ reads_digits made scales }
{
    match scales.read() {
        Some(scale) => scale == 0,
        None => made.of_digits && scales.may_be(0),
    }
}

// Days, if they may be, or else what is read.
fn days_or_read(made: Made, scales: Scales) -> Result<Notation, Unnoted>
    ensures { result ≡ days_or_read made scales }
{
    if may_be_days(made, scales) {
        return Ok(Notation::Date);
    }
    read_noted(made.of_digits, scales).ok_or(Unnoted::Differ)
}

// The notation of numbers under a name of a source's ints.
fn in_files_noted(notation: Notation, made: Made, scales: Scales) -> Result<Notation, Unnoted>
    ensures { result ≡ in_files_noted notation made scales }
{
    if notation == Notation::Date {
        return days_or_read(made, scales);
    }
    if notation != Notation::Plain && reads_digits(made, scales) {
        return Err(Unnoted::Differ);
    }
    let possible = made.multiplied && may_have(scales, notation);
    read_or(read_noted(made.of_digits, scales), possible, notation).ok_or(Unnoted::Differ)
}

// The notation of numbers under a name that an argument gives alone.
fn declared_noted(notation: Notation, made: Made, scales: Scales) -> Result<Notation, Unnoted>
    ensures { result ≡ declared_noted notation made scales }
{
    let possible = if notation == Notation::Date {
        may_be_days(made, scales)
    } else {
        may_have(scales, notation) || (made.digits && are_read_as_digits(scales))
    };
    if possible {
        Ok(notation)
    } else {
        Err(Unnoted::Differ)
    }
}

// The notation of numbers under a name that a later step makes again.
fn made_again_noted(notation: Notation, made: Made, scales: Scales) -> Result<Notation, Unnoted>
    ensures { result ≡ made_again_noted notation made scales }
{
    if let Some(scale) = scales.read() {
        return Ok(notation_of(scale));
    }
    let possible = if notation == Notation::Date {
        may_be_days(made, scales)
    } else {
        may_have(scales, notation)
    };
    if possible {
        return Ok(notation);
    }
    read_noted(made.of_digits, scales).ok_or(Unnoted::Differ)
}

/// The notation of numbers that a step makes under a name that says this, or why they have none.
pub fn numbers_noted(said: Said, made: Made, scales: Scales) -> Result<Notation, Unnoted>
    ensures { result ≡ numbers_noted said made scales }
{
    match said {
        Said::Nothing => read_noted(made.of_digits, scales).ok_or(Unnoted::Unnamed),
        Said::Digits => {
            let possible = made.multiplied && scales.may_be(0);
            read_or(
                read_noted(made.of_digits, scales),
                possible,
                Notation::Plain,
            )
            .ok_or(Unnoted::Unnamed)
        }
        Said::InFiles(notation) => in_files_noted(notation, made, scales),
        Said::Declared(notation) => declared_noted(notation, made, scales),
        Said::MadeAgain(notation) => made_again_noted(notation, made, scales),
    }
}

/// Whether the ints of a column are digits, or, if days count too, days.
pub fn is_digits(days: bool, column: Followed) -> bool
    ensures { result ≡ is_digits days column }
{
    match column {
        Followed::Numbers(scales) => scales.may_be(0),
        Followed::Days => days,
        Followed::Others => true,
    }
}

// The notation of numbers of a scale.
fn notation_of(scale: u8) -> Notation
    requires { scale ≤ 18 }
    ensures { result ≡ notation_of scale }
{
    match Scale::new(scale) {
        Some(scale) => Notation::Decimal(scale),
        None => Notation::Plain,
    }
}

/// The notation of ints that no column gives, as a literal, under a name that says this.
pub fn notation_said(said: Said) -> Notation
    ensures { result ≡ notation_said said }
{
    match said {
        Said::Nothing | Said::Digits => Notation::Plain,
        Said::InFiles(notation) | Said::Declared(notation) | Said::MadeAgain(notation) => notation,
    }
}

/// The notation of days that a step makes under a name that says this, or why they have none.
pub fn days_noted(said: Said) -> Result<Notation, Unnoted>
    ensures { result ≡ days_noted said }
{
    match said {
        Said::Declared(Notation::Plain | Notation::Decimal(_)) => Err(Unnoted::Differ),
        _ => Ok(Notation::Date),
    }
}

// Whether numbers may have a notation of scales.
fn may_have(scales: Scales, notation: Notation) -> bool
    ensures { result ≡ may_have scales notation }
{
    match notation {
        Notation::Plain => scales.may_be(0),
        Notation::Decimal(scale) => scales.may_be(scale.places() as u8),
        Notation::Date => false,
    }
}

// Whether numbers are digits, whatever else they may be.
fn are_read_as_digits(scales: Scales) -> bool
    ensures { result ≡ are_read_as_digits scales }
{
    match scales.read() {
        Some(scale) => scale == 0,
        None => scales.may_be(0),
    }
}

// What is read of numbers, or digits if they are made of such alone.
fn read_noted(of_digits: bool, scales: Scales) -> Option<Notation>
    ensures { result ≡ read_noted of_digits scales }
{
    match scales.read() {
        Some(scale) => Some(notation_of(scale)),
        None if of_digits && scales.may_be(0) => Some(Notation::Plain),
        None => None,
    }
}

// What is read, or else this, if it is possible.
fn read_or(read: Option<Notation>, possible: bool, notation: Notation) -> Option<Notation>
    ensures { result ≡ read_or read possible notation }
{
    match read {
        Some(read) => Some(read),
        None if possible => Some(notation),
        None => None,
    }
}

/// The notation of what has the ints of a column, as its greatest value or, which `sums` says, a sum of it, under a name that says this, or
/// why it has none: a sum of days stands for nothing.
pub fn column_noted(sums: bool, said: Said, column: Followed) -> Result<Notation, Unnoted>
    ensures { result ≡ column_noted sums said column }
{
    match column {
        Followed::Numbers(scales) => {
            let digits = scales.may_be(0);
            let made = Made {
                digits,
                of_digits: digits,
                multiplied: false,
                remainder: true,
            };
            numbers_noted(said, made, scales)
        }
        Followed::Days if sums => Err(Unnoted::Differ),
        Followed::Days => days_noted(said),
        Followed::Others => Ok(Notation::Plain),
    }
}

/// The notation of a number of rows or of values: digits, unless its name, which is of no source, says another.
pub fn count_noted(said: Said) -> Result<Notation, Unnoted>
    ensures { result ≡ count_noted said }
{
    match said {
        Said::Declared(Notation::Decimal(_) | Notation::Date) => Err(Unnoted::Differ),
        _ => Ok(Notation::Plain),
    }
}

/// The notation of a column that keeps its ints under a new name which says this, or why it has none.
pub fn renamed_noted(said: Said, notation: Notation) -> Result<Notation, Unnoted>
    ensures { result ≡ renamed_noted said notation }
{
    match said {
        Said::Declared(declared) => if_same(declared, notation),
        Said::Nothing | Said::Digits | Said::InFiles(_) | Said::MadeAgain(_) => Ok(notation),
    }
}

// A notation, if it is the declared one.
fn if_same(declared: Notation, notation: Notation) -> Result<Notation, Unnoted>
    ensures { result ≡ renamed_noted (Said.Declared declared) notation }
{
    if declared == notation {
        Ok(notation)
    } else {
        Err(Unnoted::Differ)
    }
}

/// Whether two notations are one.
pub fn same_notation(left: Notation, right: Notation) -> bool
    ensures { result ≡ same_notation left right }
{
    left == right
}
