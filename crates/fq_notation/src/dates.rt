//! Dates as ISO 8601 writes them.
ghost use Rattle.std.specs.Prelude.{◌≡◌, ◌<◌, length};
ghost use Rattle.fq_notation.specs.Dates.{date_of, date_text, has_dashes, is_day, iso_date};

use crate::digits::{number_after, with_sign};
use crate::texts::{IntText, plain_text, push_two};
use arrayvec::ArrayVec;
use jiff_core::civil::Date;

/// The int that a field is as a date, `YYYY-MM-DD`: year * 10,000 + month * 100 + day, if the Gregorian calendar has that day and its
/// year is 1 to 9999.
#[inline(never)]
pub fn date(field: &[u8]) -> Option<i64>
    ensures { result ≡ date_of field.now }
{
    if field.len() != 10 {
        return None;
    }
    if !has_dashes(field) {
        return None;
    }
    let year = number_after(0, &field[..4])?;
    let month = number_after(0, &field[5..7])?;
    let day = number_after(0, &field[8..10])?;
    if !is_day(year, month, day) {
        return None;
    }
    with_sign(false, year * 10_000 + month * 100 + day)
}

/// Whether dashes stand after the year and after the month.
#[inline]
fn has_dashes(field: &[u8]) -> bool
    requires { length field.now ≡ 10 }
    ensures { result ≡ has_dashes field.now }
{
    field[4] == b'-' && field[7] == b'-'
}

/// Whether the Gregorian calendar has a day, from the year 1 on.
fn is_day(year: u64, month: u64, day: u64) -> bool
    requires year { year < 10000 }
    requires month { month < 100 }
    requires day { day < 100 }
    ensures { result ≡ is_day year month day }
{
    year > 0 && Date::new(year as i16, month as i8, day as i8).is_ok()
}

/// The text of an int as a date: `YYYY-MM-DD` if it is the int of a day, and else the int in digits.
pub fn date_text(value: i64) -> IntText
    ensures { result.items ≡ date_text value }
{
    match u64::try_from(value) {
        Ok(number)
            if number < 100_000_000 && is_day(number / 10_000, number / 100 % 100, number % 100) =>
            iso_date(number),
        _ => plain_text(value),
    }
}

/// A day's int as `YYYY-MM-DD`.
#[inline]
fn iso_date(number: u64) -> IntText
    requires { number < 100000000 }
    ensures { result.items ≡ iso_date number }
{
    let year = number / 10_000;
    let mut text = ArrayVec::new();
    push_two(&mut text, year / 100);
    push_two(&mut text, year % 100);
    text.push(b'-');
    push_two(&mut text, number / 100 % 100);
    text.push(b'-');
    push_two(&mut text, number % 100);
    text
}
