//! Where the records of a text end.
ghost use Rattle.std.specs.Prelude.{◌≡◌, ◌≤◌, ◌<◌, ◌==◌, ◌-◌, ◌||◌, ℕ, length, true, false, get_or, IfSome, IfNone};
ghost use Rattle.csv.specs.declared.parser.State.TheVariants.{InField, InQuoted};
ghost use Rattle.fq_csv.specs.Cutting.{EndsBy, IsAt, IsBlank, IsIn, IsUpTo, NoQuote, NoneStops, begins, between, stops};

mod blocks;
pub(crate) mod buffers;
pub(crate) mod pieces;
pub(crate) mod records;
pub(crate) mod retrying;

use blocks::{LANES, marks_of};
use memchr::memchr;
use std::simd::prelude::*;

/// How a text's next record ends.
#[derive(Clone, Copy)]
pub(crate) enum End {
    /// Before this place, with the line that it is on.
    At(usize),
    /// With the text, if nothing follows.
    Open,
    /// There is none: what is left only ends lines.
    Nothing,
}

/// Whole records of a text.
#[derive(Clone, Copy)]
pub(crate) struct Ends {
    /// Where the last of them ends.
    pub(crate) end: usize,
    /// How many they are.
    pub(crate) count: u32,
    /// Whether a record begins after them, which ends with the text if nothing follows. If not, and they are fewer than were wanted,
    /// the bytes after them only end lines.
    pub(crate) is_open: bool,
}

// Whether a search in a field that is not quoted stops at a byte.
fn stops(byte: u8) -> bool
    ensures { result ≡ stops byte }
{
    byte == b'"' || byte == b'\r' || byte == b'\n'
}

// Where the first of sixteen bytes is at which the search stops.
#[inline]
fn first_stop(bytes: u8x16) -> Option<usize>
    ensures none { IfNone result (NoneStops bytes 0 16) }
    ensures some { IfSome result (λ i. (i < 16) × NoneStops bytes 0 i × (stops (get_or bytes i 0) ≡ true)) }
{
    let marks = marks_of(bytes, b'"') | marks_of(bytes, b'\r') | marks_of(bytes, b'\n');
    if marks == 0 {
        return None;
    }
    Some(marks.trailing_zeros() as usize)
}

// Where the search stops, or the end of the text.
#[inline]
fn stop_from(text: &[u8], from: usize) -> usize
    requires { from ≤ length text.now }
    ensures low { from ≤ result }
    ensures high { result ≤ length text.now }
    ensures none { NoneStops text.now from result }
    ensures stop { result < length text.now → stops (get_or text.now result 0) ≡ true }
{
    let mut at = from;
    'lanes: while text.len() - at >= LANES {
        if let Some(i) = first_stop(u8x16::from_slice(&text[at..])) {
            return at + i;
        }
        at += LANES;
    }
    for i in at..text.len() {
        if stops(text[i]) {
            return i;
        }
    }
    text.len()
}

// Where the first quote is, or the end of the text.
fn quote_from(text: &[u8], from: usize) -> usize
    requires { from ≤ length text.now }
    ensures low { from ≤ result }
    ensures high { result ≤ length text.now }
    ensures none { NoQuote text.now from result }
    ensures quote { result < length text.now → (get_or text.now result 0 == 34) ≡ true }
{
    match memchr(b'"', &text[from..]) {
        Some(i) => from + i,
        None => text.len(),
    }
}

// Where the quotes end that were opened before `from`: after their last one, or with the text.
fn quotes_end(text: &[u8], from: usize) -> usize
    requires { from ≤ length text.now }
    ensures low { from ≤ result }
    ensures high { result ≤ length text.now }
    ensures quote { result < length text.now → (from < result) × ((get_or text.now (result - 1) 0 == 34) ≡ true) }
    ensures at { (base : ℕ) → base ≤ from → IsIn (between text.now base from) InQuoted → IsAt text.now base result InField }
{
    let mut at = from;
    loop {
        let quote = quote_from(text, at);
        if quote == text.len() {
            return quote;
        }
        let next = quote + 1;
        if next == text.len() || text[next] != b'"' {
            return next;
        }
        at = next + 1;
    }
}

// Where a record starts: at the first byte that ends no line.
#[inline]
fn record_start(text: &[u8], from: usize) -> usize
    requires { from ≤ length text.now }
    ensures low { from ≤ result }
    ensures high { result ≤ length text.now }
    ensures start { IsBlank (between text.now from result) }
    ensures byte { result < length text.now → ((get_or text.now result 0 == 13) || (get_or text.now result 0 == 10)) ≡ false }
{
    for i in from..text.len() {
        if text[i] != b'\r' && text[i] != b'\n' {
            return i;
        }
    }
    text.len()
}

// Whether a field begins at a place of a record, outside of quotes.
#[inline]
fn begins(text: &[u8], start: usize, at: usize) -> bool
    requires low { start ≤ at }
    requires high { at < length text.now }
    ensures { result ≡ begins text.now start at }
{
    at == start || text[at - 1] == b','
}

// How the text's next record ends.
#[inline]
fn record_end(text: &[u8], from: usize) -> End
    requires { from ≤ length text.now }
    ensures { EndsBy text.now from result }
{
    let start = record_start(text, from);
    if start == text.len() {
        return End::Nothing;
    }
    let mut at = start;
    loop {
        let stop = stop_from(text, at);
        if stop == text.len() {
            return End::Open;
        }
        if text[stop] != b'"' {
            return End::At(stop + 1);
        }
        at = if begins(text, start, stop) {
            quotes_end(text, stop + 1)
        } else {
            stop + 1
        };
    }
}

/// The first whole records of a text, up to so many of them.
pub(crate) fn whole_records(text: &[u8], wanted: u32) -> Ends
    ensures { IsUpTo text.now wanted result }
{
    let mut end = 0;
    for count in 0..wanted {
        match record_end(text, end) {
            End::At(next) => end = next,
            End::Open => {
                return Ends {
                    end,
                    count,
                    is_open: true,
                };
            }
            End::Nothing => {
                return Ends {
                    end,
                    count,
                    is_open: false,
                };
            }
        }
    }
    Ends {
        end,
        count: wanted,
        is_open: false,
    }
}
