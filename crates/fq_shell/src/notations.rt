//! The notations that arguments give to columns.
ghost use Rattle.std.specs.Prelude.{◌≡◌, ◌++◌, IfOk, List, MatchBool, None, OnOk, Some, flat_map, map, option_map, string_bytes};
ghost use Rattle.fq_notation.specs.Notation.{Named};
ghost use Rattle.fq_shell.specs.Notations.{date_entries, decimal_entries, decimal_entry, entries_of, notation_of, notations_in};

use fq_notation::{NamedNotations, Notation, Scale, whole};
use std::alloc::{AllocError, Global};

/// The notations of the entries of `--decimal`, and then of those of `--date`, each with its name; none if an entry of `--decimal` is no
/// `NAME=SCALE` with a scale from 0 to 18.
pub fn notations_in(
    alloc: Global,
    decimals: &[&str],
    dates: &[&str],
) -> Result<Option<NamedNotations>, AllocError>
    ensures { IfOk result (λ named. named ≡ notations_in (map (λ list. list.now) decimals.now) (map (λ list. list.now) dates.now)) }
{
    let mut named = Vec::new(alloc);
    let decimals = entries_in(alloc, decimals)?;
    if !push_decimals(alloc, &mut named, decimals.as_slice())? {
        return Ok(None);
    }
    let dates = entries_in(alloc, dates)?;
    push_dates(alloc, &mut named, dates.as_slice())?;
    Ok(Some(NamedNotations::new(named)))
}

/// The first entry of lists of `--decimal` that is no `NAME=SCALE` with a scale from 0 to 18.
pub fn wrong_decimal<'a>(
    alloc: Global,
    decimals: &[&'a str],
) -> Result<Option<&'a str>, AllocError> {
    for entry in entries_in(alloc, decimals)? {
        if decimal_entry(entry).is_none() {
            return Ok(Some(entry));
        }
    }
    Ok(None)
}

// Adds the entries of decimals, and says whether each of them is right.
fn push_decimals(
    alloc: Global,
    named: &mut Vec<(String, Notation)>,
    entries: &[&str],
) -> Result<bool, AllocError>
    ensures { IfOk result (λ right. MatchBool right
        ((more : List Named) × (decimal_entries (map (λ entry. entry.now) entries.now) ≡ Some more) × (map (λ entry. (string_bytes entry.0, entry.1)) named.new.items ≡ map (λ entry. (string_bytes entry.0, entry.1)) named.old.items ++ more))
        (decimal_entries (map (λ entry. entry.now) entries.now) ≡ None)) }
{
    for entry in entries {
        let Some((name, notation)) = decimal_entry(entry) else {
            return Ok(false);
        };
        named.push((String::from_str(alloc, name)?, notation))?;
    }
    Ok(true)
}

// Adds the entries of dates.
fn push_dates(
    alloc: Global,
    named: &mut Vec<(String, Notation)>,
    entries: &[&str],
) -> Result<(), AllocError>
    ensures { OnOk result (map (λ entry. (string_bytes entry.0, entry.1)) named.new.items ≡ map (λ entry. (string_bytes entry.0, entry.1)) named.old.items ++ date_entries (map (λ entry. entry.now) entries.now)) }
{
    for name in entries {
        named.push((String::from_str(alloc, name)?, Notation::Date))?;
    }
    Ok(())
}

// The texts between the commas of lists.
fn entries_in<'a>(alloc: Global, lists: &[&'a str]) -> Result<Vec<&'a str>, AllocError>
    ensures { IfOk result (λ entries. map (λ entry. entry.now) entries.items ≡ flat_map entries_of (map (λ list. list.now) lists.now)) }
{
    let mut entries = Vec::new(alloc);
    for list in lists {
        push_entries(&mut entries, list)?;
    }
    Ok(entries)
}

// Adds the texts between the commas of a list.
fn push_entries<'a>(entries: &mut Vec<&'a str>, list: &'a str) -> Result<(), AllocError>
    ensures { OnOk result (map (λ entry. entry.now) entries.new.items ≡ map (λ entry. entry.now) entries.old.items ++ entries_of list.now) }
{
    let mut rest = list;
    while let Some((entry, more)) = rest.split_once(',') {
        entries.push(entry)?;
        rest = more;
    }
    entries.push(rest)?;
    Ok(())
}

// What stands before the first `=`, in the notation of the scale that stands after it.
fn decimal_entry(entry: &str) -> Option<(&str, Notation)>
    ensures { option_map (λ entry. (entry.0.now, entry.1)) result ≡ decimal_entry entry.now }
{
    let (name, scale) = entry.split_once('=')?;
    Some((name, notation_of(scale)?))
}

// The notation of a scale in digits: ints of no place are in digits themselves.
fn notation_of(text: &str) -> Option<Notation>
    ensures { result ≡ notation_of text.now }
{
    match u8::try_from(whole(text.as_bytes())?).ok()? {
        0 => Some(Notation::Plain),
        places => Some(Notation::Decimal(Scale::new(places)?)),
    }
}
