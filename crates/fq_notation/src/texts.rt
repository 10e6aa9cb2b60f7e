//! Ints as texts of a fixed capacity.
ghost use Rattle.std.specs.Prelude.{◌≡◌, ◌+◌, ◌<◌, ◌≤◌, ◌^◌, ◌++◌, length};
ghost use Rattle.std.specs.Fmt.{signed_decimal};
ghost use Rattle.arrayvec.specs.ArrayVec.{array_vec_len};
ghost use Rattle.fq_notation.specs.Digits.{last_digits};

use arrayvec::ArrayVec;
use itoa::Buffer;

/// The most bytes of an int in any notation: a sign, 19 digits and a point.
pub const MAX_TEXT: usize = 21;

/// The text of an int.
pub type IntText = ArrayVec<u8, MAX_TEXT>;

/// An int in digits, with a minus if it is below 0.
pub fn plain_text(value: i64) -> IntText
    ensures { result.items ≡ signed_decimal value }
{
    let mut text = ArrayVec::new();
    push_all(&mut text, Buffer::new().format(value).as_bytes());
    text
}

/// Appends bytes.
#[inline]
pub fn push_all(text: &mut IntText, bytes: &[u8])
    requires { array_vec_len text.old + length bytes.now ≤ 21 }
    ensures items { text.new.items ≡ text.old.items ++ bytes.now }
    ensures len { array_vec_len text.new ≡ array_vec_len text.old + length bytes.now }
{
    let Ok(()) = text.try_extend_from_slice(bytes) else {
        unreachable!()
    };
}

/// Appends the two digits of a number below 100.
#[inline]
pub fn push_two(text: &mut IntText, number: u64)
    requires room { array_vec_len text.old < 20 }
    requires few { number < 100 }
    ensures items { text.new.items ≡ text.old.items ++ last_digits 2 number }
    ensures len { array_vec_len text.new ≡ array_vec_len text.old + 2 }
{
    text.push(b'0' + (number / 10) as u8);
    text.push(b'0' + (number % 10) as u8);
}
