//! Signs and digits.
ghost use Rattle.std.specs.Prelude.{◌≡◌, ◌^◌, ◌<◌, IfSome, IfNone, true};
ghost use Rattle.std.specs.Option.{SomeIff};
ghost use Rattle.std.specs.Str.{all_ascii_digits};
ghost use Rattle.std.specs.Str.Parse.{digits_value, digits_value_after, starts_with_minus, without_leading_sign};
ghost use Rattle.fq_column.specs.Cell.{fits};
ghost use Rattle.fq_notation.specs.Digits.{after_digits, leading_digits, signed, whole_of};

/// From this number on, the number with one more digit is more than 2^63; below it, that number fits in 64 bits.
const ENOUGH: u64 = 1 << 60;

/// The most digits whose number is an `i64` whatever they are.
pub const FEW_DIGITS: usize = 18;

/// The whole number that a field spells, if it spells one within 64 bits: an optional sign and digits.
#[inline]
pub fn whole(field: &[u8]) -> Option<i64>
    ensures { result ≡ whole_of field.now }
{
    let (is_negative, digits) = split_sign(field);
    if digits.is_empty() {
        return None;
    }
    if digits.len() > FEW_DIGITS {
        return with_sign(is_negative, number_after(0, digits)?);
    }
    let (number, rest) = few_digits(digits);
    if !rest.is_empty() {
        return None;
    }
    Some(few_with_sign(is_negative, number))
}

/// Whether a field begins with a minus, and the field without its sign.
#[inline]
pub fn split_sign(field: &[u8]) -> (bool, &[u8])
    ensures minus { result.0 ≡ starts_with_minus field.now }
    ensures number { result.1.now ≡ without_leading_sign field.now }
{
    match field {
        [b'-', number @ ..] => (true, number),
        [b'+', number @ ..] => (false, number),
        number => (false, number),
    }
}

/// Reads digits onto the end of a number: the number that results, and the bytes after the digits. `None` only if it is more than 2^63; of such
/// numbers some are given.
#[inline]
pub fn digits_after(mut number: u64, bytes: &[u8]) -> Option<(u64, &[u8])>
    ensures number { IfSome result (λ r. r.0 ≡ digits_value_after 10 number (leading_digits bytes.now)) }
    ensures rest { IfSome result (λ r. r.1.now ≡ after_digits bytes.now) }
    ensures too_large { IfNone result (2 ^ 63 < digits_value_after 10 number (leading_digits bytes.now)) }
{
    let mut rest = bytes;
    while let [byte, tail @ ..] = rest {
        if !byte.is_ascii_digit() {
            break;
        }
        if number >= ENOUGH {
            return None;
        }
        number = number * 10 + u64::from(*byte - b'0');
        rest = tail;
    }
    Some((number, rest))
}

/// The number that leading digits write, which must be below 10^18, and the bytes after them. No digit is checked for overflow.
#[inline]
pub fn few_digits(bytes: &[u8]) -> (u64, &[u8])
    requires { digits_value 10 (leading_digits bytes.now) < 10 ^ 18 }
    ensures number { result.0 ≡ digits_value 10 (leading_digits bytes.now) }
    ensures rest { result.1.now ≡ after_digits bytes.now }
{
    let mut number = 0;
    let mut rest = bytes;
    while let [byte, tail @ ..] = rest {
        if !byte.is_ascii_digit() {
            break;
        }
        number = number * 10 + u64::from(*byte - b'0');
        rest = tail;
    }
    (number, rest)
}

/// The number that a text of digits alone writes when they follow those of another; `None` if there is another byte, and only then or for a
/// number of more than 2^63.
#[inline]
pub fn number_after(number: u64, digits: &[u8]) -> Option<u64>
    ensures digits { IfSome result (λ n. (all_ascii_digits digits.now ≡ true) × (n ≡ digits_value_after 10 number digits.now)) }
    ensures other { IfNone result (all_ascii_digits digits.now ≡ true → 2 ^ 63 < digits_value_after 10 number digits.now) }
{
    let (number, rest) = digits_after(number, digits)?;
    if rest.is_empty() { Some(number) } else { None }
}

/// A number of few digits with its sign.
#[inline]
pub fn few_with_sign(is_negative: bool, number: u64) -> i64
    requires { number < 10 ^ 18 }
    ensures { result ≡ signed is_negative number }
{
    let number = number.cast_signed();
    if is_negative { -number } else { number }
}

/// A number with its sign, if it lies within 64 bits.
#[inline]
pub fn with_sign(is_negative: bool, magnitude: u64) -> Option<i64>
    ensures { SomeIff result (fits (signed is_negative magnitude) ≡ true) (signed is_negative magnitude) }
{
    match i64::try_from(magnitude) {
        Ok(number) if is_negative => Some(-number),
        Ok(number) => Some(number),
        Err(_) if is_negative && magnitude == i64::MIN.unsigned_abs() => Some(i64::MIN),
        Err(_) => None,
    }
}
