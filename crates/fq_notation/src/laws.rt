//! Laws of the definitions, proved for all values.
ghost use Rattle.std.specs.Prelude.{◌≡◌, ℕ, ℤ, Some, true};
ghost use Rattle.std.specs.Fmt.{signed_decimal};
ghost use Rattle.fq_column.specs.Cell.{fits};
ghost use Rattle.fq_notation.specs.Dates.{date_of, date_text, is_date};
ghost use Rattle.fq_notation.specs.Decimals.{decimal_of, decimal_text};
ghost use Rattle.fq_notation.specs.Digits.{whole_of};

/// What is printed of an int, read in the same notation, is that int: always in digits and for a decimal, and for a date if the int is
/// that of a day.
pub fn notation_laws()
    ensures digits { (z : ℤ) → fits z ≡ true → whole_of (signed_decimal z) ≡ Some z }
    ensures decimals { (scale : ℕ) (z : ℤ) → fits z ≡ true → decimal_of scale (decimal_text scale z) ≡ Some z }
    ensures dates { (z : ℤ) → is_date z ≡ true → date_of (date_text z) ≡ Some z }
{}
