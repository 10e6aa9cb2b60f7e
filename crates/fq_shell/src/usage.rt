//! What is written of arguments that are refused.
use clap::Error;
use clap::error::ErrorKind;
use fq_csv::MAX_BATCH_SIZE;
use fq_lanes::MAX_WORKERS;
use std::alloc::{AllocError, Global};
use std::io::Write;

/// Writes why arguments are refused, as `clap` does. Of a number that is refused, it says which numbers its option takes, and of a word
/// that begins with a hyphen, how it is passed as a file or as the value of an option. A failed write changes nothing. Fails if an
/// allocation does; then nothing is written.
pub fn write_refusal<E: Write>(
    alloc: Global,
    refusal: &Error,
    err: &mut E,
) -> Result<(), AllocError> {
    let _ = match own_text(alloc, refusal)? {
        Some(text) => write!(err, "{text}"),
        None => write!(err, "{refusal}"),
    };
    Ok(())
}

// What is said in the place of the text of `clap`, if anything is.
fn own_text(alloc: Global, refusal: &Error) -> Result<Option<String>, AllocError> {
    match refusal.kind() {
        ErrorKind::ValueValidation => {
            refusal_of_number(alloc, format!(in alloc; "{refusal}")?.as_str())
        }
        ErrorKind::UnknownArgument => {
            refusal_of_word(alloc, format!(in alloc; "{refusal}")?.as_str())
        }
        _ => Ok(None),
    }
}

// What is said in the place of a text of `clap` on a value that is not a number, or not one of those that its option takes.
fn refusal_of_number(alloc: Global, text: &str) -> Result<Option<String>, AllocError> {
    let Some((argument, least, most)) = number_in(text) else {
        return Ok(None);
    };
    let text = format!(in alloc;
        "{argument}': it takes a whole number from {least} to {most}\n\nFor more information, try '--help'.\n"
    )?;
    Ok(Some(text))
}

// What is said in the place of a text of `clap` on a word that begins with a hyphen and is no option. Its tip serves for a file alone.
fn refusal_of_word(alloc: Global, text: &str) -> Result<Option<String>, AllocError> {
    let Some((before, word, after)) = word_in(text) else {
        return Ok(None);
    };
    let text = format!(in alloc;
        "{before}tip: to pass '{word}' as a file, use '-- {word}'; as the value of an option, use '=', as in '--plan={word}'{after}"
    )?;
    Ok(Some(text))
}

// Of `error: unexpected argument '-x' found\n\n  tip: to pass '-x' as a value, use '-- -x'\n\n..`, what stands before the tip, the word, and
// what stands after the tip.
fn word_in(text: &str) -> Option<(&str, &str, &str)> {
    let (before, tip) = text.split_once("tip: to pass '")?;
    let (word, rest) = tip.split_once("' as a value, use '-- ")?;
    let after = rest.strip_prefix(word)?.strip_prefix("'")?;
    Some((before, word, after))
}

// Of `error: invalid value '0' for '--batch <N>': ..`, the text before its last quote, and the least and the greatest number that the
// option takes.
fn number_in(text: &str) -> Option<(&str, u64, u64)> {
    let (argument, _) = text.rsplit_once("': ")?;
    let (_, option) = argument.rsplit_once("'--")?;
    match option {
        "batch <N>" => Some((argument, 1, u64::from(MAX_BATCH_SIZE))),
        "workers <N>" => Some((argument, 1, u64::from(MAX_WORKERS))),
        "limit <N>" => Some((argument, 0, u64::MAX)),
        _ => None,
    }
}
