//! What the texts of a column are: decimals, dates, and others.
ghost use Rattle.std.specs.Prelude.{◌≡◌, ◌+◌, ◌-◌, ◌^◌, min, OnOk};

use crate::tallies::{Seen, Tally};
use fq_column::Memory;
use fq_notation::Notation;
use std::alloc::Global;
use std::str;

/// How many texts of a column are decimals, dates and others. The others are counted by themselves as [`Tally`] does.
#[derive(Drop)]
pub struct Texts {
    total: u64,
    decimals: Option<Seen>,
    // the most digits after a decimal point, and the most bytes before one
    places: u64,
    width: u64,
    dates: Option<Seen>,
    // those of the others that are not valid UTF-8
    unreadable: Option<Seen>,
    others: Tally,
}

impl Texts {
    /// No text.
    pub fn new(alloc: Global) -> Texts
        ensures { result.total ≡ 0 }
    {
        Texts {
            total: 0,
            decimals: None,
            places: 0,
            width: 0,
            dates: None,
            unreadable: None,
            others: Tally::new(alloc),
        }
    }

    /// Counts a text on a line of a file. `Memory` if an allocation fails.
    pub fn add(&mut self, alloc: Global, text: &[u8], place: (u16, u64)) -> Result<(), Memory>
        ensures counted { OnOk result (self.new.total ≡ min (self.old.total + 1) (2 ^ 64 - 1)) }
    {
        self.total = self.total.saturating_add(1);
        if let Some(places) = decimal_places(text) {
            self.decimals = Some(Seen::after(self.decimals, place));
            self.places = self.places.max(places);
            self.width = self.width.max(width_of_whole(text));
            return Ok(());
        }
        if Notation::Date.int(text).is_some() {
            self.dates = Some(Seen::after(self.dates, place));
            return Ok(());
        }
        if str::from_utf8(text).is_err() {
            self.unreadable = Some(Seen::after(self.unreadable, place));
        }
        self.others.add(alloc, text, place)
    }

    /// How many texts were counted.
    pub fn total(&self) -> u64
        ensures { result ≡ self.now.total }
    {
        self.total
    }

    /// The numbers with a decimal point, if there are any.
    pub fn decimals(&self) -> Option<Seen> {
        self.decimals
    }

    /// The most digits that one of the decimals has after its point.
    pub fn places(&self) -> u64 {
        self.places
    }

    /// The most bytes that one of the decimals has before its point.
    pub fn width(&self) -> u64 {
        self.width
    }

    /// The dates, such as `2024-02-29`, if there are any.
    pub fn dates(&self) -> Option<Seen> {
        self.dates
    }

    /// The texts that are not valid UTF-8, if there are any.
    pub fn unreadable(&self) -> Option<Seen> {
        self.unreadable
    }

    /// The texts that are neither decimals nor dates.
    pub fn others(&self) -> &Tally {
        &self.others
    }
}

/// How many digits a field has after its decimal point, at least one, if it is a number with one: digits, of which there may be none before the
/// point, after at most one sign. `None` for `5.` too, which `--decimal` reads.
pub fn decimal_places(field: &[u8]) -> Option<u64> {
    let digits = match field {
        [b'+' | b'-', digits @ ..] => digits,
        _ => field,
    };
    let mut places: Option<u64> = None;
    for byte in digits {
        places = match (*byte, places) {
            (b'.', None) => Some(0),
            (digit, _) if digit.is_ascii_digit() => places.map(|count| count.saturating_add(1)),
            _ => return None,
        };
    }
    places.filter(|count| *count > 0)
}

/// How many bytes a field has before its point, or in all if it has none.
pub fn width_of_whole(field: &[u8]) -> u64 {
    let point = field.iter().position(|byte| *byte == b'.');
    point.unwrap_or(field.len()) as u64
}
