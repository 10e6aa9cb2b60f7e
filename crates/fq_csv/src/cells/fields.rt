//! The cells that fields are.
ghost use Rattle.std.specs.Prelude.{◌≡◌, ℕ, ℤ, Bool, List, Some, None, [], IfOk, IsUtf8, MatchBool, is_some, option_map, true};
ghost use Rattle.fq_column.specs.declared.cells.Cell.{Cell};
ghost use Rattle.fq_column.specs.Masked.{masked_cell};
ghost use Rattle.fq_csv.specs.Field.{cell_of, cell_under, is_null, text_of, truth_of};
ghost use Rattle.fq_csv.specs.Readings.{cell_read, is_kept_by, is_plain, kind_by};
ghost use Rattle.fq_csv.specs.Rows.{with_cell};
ghost use Rattle.fq_notation.specs.declared.notations.Notation.TheVariants.{Plain};
ghost use Rattle.fq_csv.specs.Words.{kind_word as word_of_kind};

use crate::cells::layouts::NullValues;
use crate::cells::readings::Reading;
use fq_column::{Column, Kind, Memory};
use fq_notation::Notation;
use std::str;

/// From how many bytes on a field is tested in steps of 64 bytes, by `simdutf8`; shorter ones it would hand to the standard library.
const LONG_FIELD: usize = 64;

/// The truth value that a field names, in any letter case.
pub fn truth(field: &[u8]) -> Option<bool>
    ensures { result ≡ truth_of field.now }
{
    if field.eq_ignore_ascii_case(b"true") {
        Some(true)
    } else if field.eq_ignore_ascii_case(b"false") {
        Some(false)
    } else {
        None
    }
}

/// The text that a field is, if its bytes are UTF-8, which may be known.
#[inline]
fn text(field: &[u8], is_known: bool) -> Option<&str>
    requires { is_known ≡ true → IsUtf8 field.now }
    ensures { option_map (λ t. t.now) result ≡ text_of field.now }
{
    if is_known {
        Some(unsafe { str::from_utf8_unchecked(field) })
    } else {
        judged_text(field)
    }
}

/// The text that a field is, if its bytes are UTF-8.
#[inline(never)]
fn judged_text(field: &[u8]) -> Option<&str>
    ensures { option_map (λ t. t.now) result ≡ text_of field.now }
{
    if field.len() < LONG_FIELD {
        str::from_utf8(field).ok()
    } else {
        simdutf8::compat::from_utf8(field).ok()
    }
}

/// The word for a kind of column, as plans and messages have it.
pub fn kind_word(kind: Kind) -> &'static str
    ensures { result.now ≡ word_of_kind kind }
{
    match kind {
        Kind::Whole => "int",
        Kind::Text => "text",
        Kind::Truth => "bool",
    }
}

/// Whether a field is null in a column of any kind: it is empty, or one of these texts.
pub fn is_null(field: &[u8], nulls: &NullValues) -> bool
    ensures { result ≡ is_null nulls.now field.now }
{
    field.is_empty() || nulls.has(field)
}

/// Whether a field is a cell of a column of this kind, whose ints are in this notation, where these texts are null.
///
/// An empty field is null in each column. An int is a number in the notation, within 64 bits; a truth value is `true` or `false` in any
/// letter case; a text is valid UTF-8.
pub fn is_cell(field: &[u8], kind: Kind, notation: Notation, nulls: &NullValues) -> bool
    ensures { result ≡ is_some (cell_under nulls.now kind notation field.now) }
{
    is_null(field, nulls) || is_value(field, kind, notation, false)
}

/// Whether a field that is not empty is a cell of a column of this kind, whose ints are in this notation. It may be known to be UTF-8.
#[inline(never)]
fn is_value(field: &[u8], kind: Kind, notation: Notation, is_text: bool) -> bool
    requires some { ¬ (field.now ≡ []) }
    requires text { is_text ≡ true → IsUtf8 field.now }
    ensures { result ≡ is_some (cell_of kind notation field.now) }
{
    match kind {
        Kind::Whole => notation.int(field).is_some(),
        Kind::Text => text(field, is_text).is_some(),
        Kind::Truth => truth(field).is_some(),
    }
}

/// Appends the cell that a field is to a column that is read like this, with these texts as null, or null if the column is not kept, and
/// says whether the field is a cell. The field may be known to be UTF-8.
///
/// Allocates for a text of more than 24 bytes that is kept, and if the column grows. `IS_PLAIN` says that each reading is plain, so that none is
/// looked at.
#[inline]
pub(crate) fn push_field<const IS_PLAIN: bool>(
    column: &mut Column,
    reading: &Reading,
    field: &[u8],
    is_text: bool,
    nulls: &NullValues,
) -> Result<bool, Memory>
    requires kind { column.old.kind ≡ kind_by reading.now }
    requires plain { IS_PLAIN ≡ true → is_plain reading.now ≡ true }
    requires text { is_text ≡ true → IsUtf8 field.now }
    ensures good { IfOk result (λ good. MatchBool good
        ((cell : Cell) × (cell_read nulls.now reading.now field.now ≡ Some cell) × (column.new ≡ with_cell column.old (masked_cell (is_kept_by reading.now) cell)))
        ((cell_read nulls.now reading.now field.now ≡ None) × (column.new ≡ column.old))) }
{
    if is_null(field, nulls) {
        column.push_null()?;
        return Ok(true);
    }
    if IS_PLAIN {
        return push_plain(column, field, is_text);
    }
    match reading {
        Reading::Whole => return push_int(column, Notation::Plain.int(field)),
        Reading::Decimal(scale) => {
            return push_int(column, Notation::Decimal(*scale).int(field));
        }
        Reading::Date => return push_int(column, Notation::Date.int(field)),
        Reading::Text => return push_text(column, text(field, is_text)),
        Reading::Truth => return push_truth(column, truth(field)),
        Reading::Judged(kind, notation) => {
            if !is_value(field, *kind, *notation, is_text) {
                return Ok(false);
            }
            column.push_null()?;
        }
    }
    Ok(true)
}

/// Appends the cell that a field is which is not empty, and whose column has its ints in digits, and says whether it is one.
#[inline]
fn push_plain(column: &mut Column, field: &[u8], is_text: bool) -> Result<bool, Memory>
    requires some { ¬ (field.now ≡ []) }
    requires text { is_text ≡ true → IsUtf8 field.now }
    ensures good { IfOk result (λ good. MatchBool good
        ((cell : Cell) × (cell_of column.old.kind Plain field.now ≡ Some cell) × (column.new ≡ with_cell column.old cell))
        ((cell_of column.old.kind Plain field.now ≡ None) × (column.new ≡ column.old))) }
{
    match column.kind() {
        Kind::Whole => push_int(column, Notation::Plain.int(field)),
        Kind::Text => push_text(column, text(field, is_text)),
        Kind::Truth => push_truth(column, truth(field)),
    }
}

/// Appends an int, if there is one, and says whether there is.
#[inline]
fn push_int(column: &mut Column, value: Option<i64>) -> Result<bool, Memory>
    requires { column.old.kind ≡ Kind.Whole }
    ensures good { IfOk result (λ good. MatchBool good
        ((z : ℤ) × (value ≡ Some z) × (column.new ≡ with_cell column.old (Cell.Whole z)))
        ((value ≡ None) × (column.new ≡ column.old))) }
{
    let Some(value) = value else {
        return Ok(false);
    };
    column.push_whole(value)?;
    Ok(true)
}

/// Appends a text, if there is one, and says whether there is.
#[inline]
fn push_text(column: &mut Column, value: Option<&str>) -> Result<bool, Memory>
    requires { column.old.kind ≡ Kind.Text }
    ensures good { IfOk result (λ good. MatchBool good
        ((t : List ℕ) × (option_map (λ t. t.now) value.entry ≡ Some t) × (column.new ≡ with_cell column.old (Cell.Text t)))
        ((option_map (λ t. t.now) value.entry ≡ None) × (column.new ≡ column.old))) }
{
    let Some(value) = value else {
        return Ok(false);
    };
    column.push_text(value)?;
    Ok(true)
}

/// Appends a truth value, if there is one, and says whether there is.
#[inline]
fn push_truth(column: &mut Column, value: Option<bool>) -> Result<bool, Memory>
    requires { column.old.kind ≡ Kind.Truth }
    ensures good { IfOk result (λ good. MatchBool good
        ((b : Bool) × (value ≡ Some b) × (column.new ≡ with_cell column.old (Cell.Truth b)))
        ((value ≡ None) × (column.new ≡ column.old))) }
{
    let Some(value) = value else {
        return Ok(false);
    };
    column.push_truth(value)?;
    Ok(true)
}
