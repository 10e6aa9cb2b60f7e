//! Numbers with a decimal point.
ghost use Rattle.std.specs.Prelude.{◌≡◌, ◌^◌, ◌<◌, ◌≤◌, ◌*◌, ◌-◌, ◌==◌, ◌++◌, if◌then◌else◌, IfSome, IfNone, None, Some, drop, false, length, replicate, take, true};
ghost use Rattle.std.specs.Char.{is_ascii_digit};
ghost use Rattle.std.specs.List.{list_all, list_any};
ghost use Rattle.std.specs.Option.{SomeIff};
ghost use Rattle.std.specs.Str.{all_ascii_digits};
ghost use Rattle.std.specs.Str.Parse.{digits_value, digits_value_after};
ghost use Rattle.arrayvec.specs.ArrayVec.{array_vec_len};
ghost use Rattle.fq_column.specs.Cell.{fits};
ghost use Rattle.fq_notation.specs.Digits.{signed};
ghost use Rattle.fq_notation.specs.Decimals.{are_places, before_point, decimal_of, decimal_text, is_decimal, places, scaled, scaled_text};

use crate::digits::{FEW_DIGITS, digits_after, few_with_sign, number_after, split_sign, with_sign};
use crate::scales::Scale;
use crate::texts::{IntText, push_all};
use arrayvec::ArrayVec;
use itoa::Buffer;

/// As many zeros as a decimal has places at most.
const ZEROS: [u8; 18] = [b'0'; 18];

/// The powers of 10 from 10^0 to 10^18.
const POWERS: [u64; 19] = [
    1,
    10,
    100,
    1_000,
    10_000,
    100_000,
    1_000_000,
    10_000_000,
    100_000_000,
    1_000_000_000,
    10_000_000_000,
    100_000_000_000,
    1_000_000_000_000,
    10_000_000_000_000,
    100_000_000_000_000,
    1_000_000_000_000_000,
    10_000_000_000_000_000,
    100_000_000_000_000_000,
    1_000_000_000_000_000_000,
];

/// The int that a field is as a decimal of this scale: the number that it spells, times 10^scale, if that is a whole number within 64 bits.
///
/// An optional sign, digits, and optionally a point and more digits; one digit at least. Nothing is rounded: digits past the scale are `0`.
#[inline(never)]
pub fn decimal(field: &[u8], scale: Scale) -> Option<i64>
    ensures { result ≡ decimal_of scale field.now }
{
    let (is_negative, number) = split_sign(field);
    match short_decimal(is_negative, number, scale) {
        Some(value) => Some(value),
        None => long_decimal(is_negative, number, scale),
    }
}

/// The int of the usual decimals, by their sign and the number behind it: few bytes, and no more places than the scale has. `None` says
/// nothing.
#[inline]
fn short_decimal(is_negative: bool, number: &[u8], scale: Scale) -> Option<i64>
    ensures { IfSome result (λ z. (is_decimal scale number.now ≡ true) × (fits (signed is_negative (scaled scale number.now)) ≡ true) × (z ≡ signed is_negative (scaled scale number.now))) }
{
    if number.len() > FEW_DIGITS {
        return None;
    }
    let (digits, places) = digits_and_places(number)?;
    let most = scale.places();
    match places {
        Some(places) if places == most => Some(few_with_sign(is_negative, digits)),
        Some(places) if places < most && number.len() > 1 => {
            with_sign(is_negative, times_power(digits, most - places)?)
        }
        None if !number.is_empty() => with_sign(is_negative, times_power(digits, most)?),
        _ => None,
    }
}

/// The same of any decimal.
#[cold]
fn long_decimal(is_negative: bool, number: &[u8], scale: Scale) -> Option<i64>
    ensures decimal { IfSome result (λ z. (is_decimal scale number.now ≡ true) × (fits (signed is_negative (scaled scale number.now)) ≡ true) × (z ≡ signed is_negative (scaled scale number.now))) }
    ensures other { IfNone result (is_decimal scale number.now ≡ true → fits (signed is_negative (scaled scale number.now)) ≡ false) }
{
    with_sign(is_negative, long_scaled(number, scale)?)
}

/// The number without its sign, times 10^scale, of any decimal.
#[inline]
fn long_scaled(number: &[u8], scale: Scale) -> Option<u64>
    ensures decimal { IfSome result (λ n. (is_decimal scale number.now ≡ true) × (n ≡ scaled scale number.now)) }
    ensures other { IfNone result (is_decimal scale number.now ≡ true → 2 ^ 63 < scaled scale number.now) }
{
    if !has_digit(number) {
        return None;
    }
    let (whole, places) = split_point(number)?;
    with_places(whole, places, scale)
}

/// Whether a text has a digit.
#[inline]
fn has_digit(text: &[u8]) -> bool
    ensures { result ≡ list_any is_ascii_digit text.now }
{
    text.iter().any(|byte| byte.is_ascii_digit())
}

/// The digits of few bytes as one number, and how many of them are behind the point, if there is one. `None` if there is a byte but digits and
/// one point.
#[inline]
fn digits_and_places(number: &[u8]) -> Option<(u64, Option<usize>)>
    requires { length number.now ≤ 18 }
    ensures form { IfSome result (λ r. all_ascii_digits (before_point number.now ++ places number.now) ≡ true) }
    ensures digits { IfSome result (λ r. r.0 ≡ digits_value 10 (before_point number.now ++ places number.now)) }
    ensures places { IfSome result (λ r. r.1 ≡ (if list_any (λ c. c == 46) number.now then Some (length (places number.now)) else None)) }
    ensures few { IfSome result (λ r. r.0 < 10 ^ 18) }
{
    let mut digits = 0;
    let mut places = None;
    let mut rest = number;
    while let [byte, tail @ ..] = rest {
        if byte.is_ascii_digit() {
            digits = digits * 10 + u64::from(*byte - b'0');
        } else if *byte == b'.' && places.is_none() {
            places = Some(tail.len());
        } else {
            return None;
        }
        rest = tail;
    }
    Some((digits, places))
}

/// The number that stands before the first point, and the places behind that point.
#[inline]
fn split_point(number: &[u8]) -> Option<(u64, &[u8])>
    ensures digits { IfSome result (λ r. (all_ascii_digits (before_point number.now) ≡ true) × (r.0 ≡ digits_value 10 (before_point number.now))) }
    ensures places { IfSome result (λ r. r.1.now ≡ places number.now) }
    ensures other { IfNone result (all_ascii_digits (before_point number.now) ≡ true → 2 ^ 63 < digits_value 10 (before_point number.now)) }
{
    let (whole, rest) = digits_after(0, number)?;
    match rest {
        [] => Some((whole, rest)),
        [b'.', places @ ..] => Some((whole, places)),
        _ => None,
    }
}

/// A number and the places behind its point, times 10^scale; places past the scale are 0.
#[inline]
fn with_places(whole: u64, places: &[u8], scale: Scale) -> Option<u64>
    ensures digits { IfSome result (λ n. n ≡ digits_value_after 10 whole (take scale places.now) * 10 ^ (scale - length places.now)) }
    ensures form { IfSome result (λ n. are_places scale places.now ≡ true) }
    ensures other { IfNone result (are_places scale places.now ≡ true
        → 2 ^ 63 < digits_value_after 10 whole (take scale places.now) * 10 ^ (scale - length places.now)) }
{
    let (kept, past) = split_places(places, scale.places());
    let digits = number_after(whole, kept)?;
    if !are_zeros(past) {
        return None;
    }
    times_power(digits, scale.places() - kept.len())
}

/// The places up to a scale, and those past it.
#[inline]
fn split_places(places: &[u8], scale: usize) -> (&[u8], &[u8])
    ensures kept { result.0.now ≡ take scale places.now }
    ensures past { result.1.now ≡ drop scale places.now }
    ensures few { length result.0.now ≤ scale }
{
    if places.len() > scale {
        places.split_at(scale)
    } else {
        (places, &[])
    }
}

/// A number times 10^places, if 64 bits hold it.
#[inline]
fn times_power(number: u64, places: usize) -> Option<u64>
    requires { places ≤ 18 }
    ensures { SomeIff result (number * 10 ^ places < 2 ^ 64) (number * 10 ^ places) }
{
    number.checked_mul(POWERS[places])
}

/// Whether bytes are all `0`.
#[inline]
fn are_zeros(bytes: &[u8]) -> bool
    ensures { result ≡ list_all (λ c. c == 48) bytes.now }
{
    bytes.iter().all(|byte| *byte == b'0')
}

/// The text of an int as a decimal of this scale: the sign if it is below 0, the whole part without leading zeros, a point, and as many
/// digits as the scale has places.
pub fn decimal_text(value: i64, scale: Scale) -> IntText
    ensures { result.items ≡ decimal_text scale value }
{
    let mut text = ArrayVec::new();
    if value < 0 {
        text.push(b'-');
    }
    push_scaled(&mut text, value.unsigned_abs(), scale.places());
    text
}

/// Appends a number with a point before its last places.
#[inline]
fn push_scaled(text: &mut IntText, number: u64, places: usize)
    requires number { number ≤ 2 ^ 63 }
    requires some { 0 < places }
    requires few { places ≤ 18 }
    requires room { array_vec_len text.old ≤ 1 }
    ensures { text.new.items ≡ text.old.items ++ scaled_text places number }
{
    let mut buffer = Buffer::new();
    let digits = buffer.format(number).as_bytes();
    if digits.len() > places {
        let (whole, behind) = digits.split_at(digits.len() - places);
        push_all(text, whole);
        text.push(b'.');
        push_all(text, behind);
    } else {
        push_all(text, b"0.");
        push_all(text, zeros(places - digits.len()));
        push_all(text, digits);
    }
}

/// Zeros, of which a decimal has 18 at most behind its point.
#[inline]
fn zeros(count: usize) -> &'static [u8]
    requires { count ≤ 18 }
    ensures { result.now ≡ replicate count 48 }
{
    &ZEROS[..count]
}
