//! Bytes as they are shown in a message.
use bstr::{BStr, ByteSlice};
use std::fmt::{Display, Formatter, Write};
use std::{fmt, str};

/// How many characters of a text are shown.
const MAX_SHOWN: usize = 80;

/// Bytes in double quotes, as Rust writes a `str`; bytes that are not UTF-8 as `\xNN`. Of a longer text the first 80 characters are
/// shown, and `..` follows.
#[derive(Clone, Copy)]
pub struct Quoted<'a>(pub &'a [u8]);

impl Display for Quoted<'_> {
    fn fmt<W: Write>(&self, f: &mut Formatter<W>) -> fmt::Result {
        match self.0.char_indices().nth(MAX_SHOWN) {
            None => write_quoted(self.0, f),
            Some((end, _, _)) => {
                write_quoted(&self.0[..end], f)?;
                f.write_str("..")
            }
        }
    }
}

// Bytes in double quotes.
fn write_quoted<W: Write>(bytes: &[u8], f: &mut Formatter<W>) -> fmt::Result {
    match str::from_utf8(bytes) {
        Ok(text) => write!(f, "{text:?}"),
        Err(_) => write!(f, "{:?}", BStr::new(bytes)),
    }
}
