//! Texts in pieces.
ghost use Rattle.std.specs.Prelude.{◌≡◌, ◌<◌, ◌++◌, [], Some, OnOk, length};
ghost use Rattle.std.specs.Io.{ReadsAtMost};
ghost use Rattle.std.specs.Io.KnownBytes.{ReadConsumes};
ghost use Rattle.fq_csv.specs.Pieces.{AreFilled, bytes_of};

use std::alloc::{AllocError, Global};
use std::collections::VecDeque;
use std::io;
use std::io::Read;
use std::marker::Model;

// How many bytes a piece has at most: so many that the C library takes each such piece from the system by itself, and gives it back at
// once. Among others it could keep what was freed.
const PIECE: usize = 33_554_432;

/// A text in pieces, each of which is freed as soon as it was read.
#[derive(Drop)]
pub(crate) struct Pieces {
    alloc: Global,
    /// The piece that is read next.
    first: Vec<u8>,
    /// How many bytes of it were read.
    at: usize,
    /// The pieces after it.
    rest: VecDeque<Vec<u8>>,
}

impl Model for Pieces {
    ghost use Rattle.std.specs.Prelude.{ℕ, List, ◌++◌, drop};
    ghost use Rattle.fq_csv.specs.Pieces.{IsSound, bytes_of};

    ghost Value = { List ℕ };

    ghost view = { λ p. drop p.at p.first.items ++ bytes_of p.rest.items };

    ghost invariant = { λ p. IsSound p.first.items p.at p.rest.items };
}

impl Pieces {
    /// No text. It allocates nothing.
    pub(crate) fn new(alloc: Global) -> Pieces
        ensures { result ≡ [] }
    {
        Pieces {
            alloc,
            first: Vec::new(alloc),
            at: 0,
            rest: VecDeque::new(alloc),
        }
    }

    /// Adds bytes at the end.
    pub(crate) fn add(&mut self, bytes: &[u8]) -> Result<(), AllocError>
        ensures { OnOk result (self.new ≡ self.old ++ bytes.now) }
    {
        let mut rest = bytes;
        while !rest.is_empty() {
            let len = rest.len().min(PIECE);
            let piece = Vec::from_slice(self.alloc, &rest[..len])?;
            self.push(piece)?;
            rest = &rest[len..];
        }
        Ok(())
    }

    // Adds a piece at the end.
    fn push(&mut self, piece: Vec<u8>) -> Result<(), AllocError>
        requires { 0 < length piece.items }
        ensures { OnOk result (self.new ≡ self.old ++ piece.items) }
    {
        if self.at == self.first.len() {
            self.first = piece;
            self.at = 0;
            return Ok(());
        }
        self.rest.push_back(piece)?;
        Ok(())
    }
}

impl Read for Pieces {
    ghost remaining = { λ p. Some p };

    fn read(&mut self, buffer: &mut [u8]) -> io::Result<usize>
        ensures bound { ReadsAtMost result buffer.new }
        ensures bytes { ReadConsumes (Some self.old) (Some self.new) result buffer.new }
    {
        let mut part = &self.first[self.at..];
        let count = part.read(buffer)?;
        self.at += count;
        if self.at == self.first.len() {
            self.first = next_piece(self.alloc, &mut self.rest);
            self.at = 0;
        }
        Ok(count)
    }
}

// Takes the first of some pieces. If there is none, this is an empty one.
fn next_piece(alloc: Global, pieces: &mut VecDeque<Vec<u8>>) -> Vec<u8>
    requires { AreFilled pieces.old.items }
    ensures filled { AreFilled pieces.new.items }
    ensures bytes { bytes_of pieces.old.items ≡ result.items ++ bytes_of pieces.new.items }
    ensures over { length result.items ≡ 0 → bytes_of pieces.new.items ≡ [] }
{
    match pieces.pop_front() {
        Some(piece) => piece,
        None => Vec::new(alloc),
    }
}
