//! Which places of an array have a value.
ghost use Rattle.std.specs.Prelude.{◌≡◌, ◌<◌, ◌≤◌, ◌/◌, ◌*◌, ◌^◌, ◌+◌, ◌++◌, [], ◌∷◌, ℕ, List, take, length, replicate, if◌then◌else◌, IfOk, OnOk, OnErr, slice_get, slice_set, true, false, Some};
ghost use Rattle.std.specs.Bool.{◌==◌};
ghost use Rattle.std.specs.List.{filter};
ghost use Rattle.fq_column.specs.Lists.{keep as kept};
ghost use Rattle.fq_column.specs.Validity.{mark_at, marks};

use crate::faults::Memory;
use std::alloc::Global;
use std::marker::Model;

/// How many marks a word has.
const BITS: usize = 64;

/// A mark for each place: true where a value is there.
///
/// The marks lie in words of 64 bits, the lowest bit of a word first. Places behind the last word have a value, so marks take
/// memory only up to the last place that has had none. Bits behind the last place have no meaning.
#[derive(Debug, Drop)]
pub struct Validity {
    words: Vec<u64>,
    len: usize,
}

impl Model for Validity {
    ghost use Rattle.std.specs.Prelude.{List, Bool};
    ghost use Rattle.fq_column.specs.Validity.{marks};

    ghost Value = { List Bool };

    ghost view = { λ v. marks v.words.items v.len };
}

impl Validity {
    /// No place; allocates nothing.
    pub fn new(alloc: Global) -> Validity
        ensures { result ≡ [] }
    {
        Validity {
            words: Vec::new(alloc),
            len: 0,
        }
    }

    /// This many places that have no value.
    pub fn missing(alloc: Global, count: usize) -> Result<Validity, Memory>
        ensures { IfOk result (λ v. v ≡ replicate count false) }
    {
        let mut words = Vec::new(alloc);
        words.resize(count.div_ceil(BITS), 0)?;
        Ok(Validity { words, len: count })
    }

    /// How many places there are.
    pub fn len(&self) -> usize
        ensures { result ≡ length self.now }
    {
        self.len
    }

    /// Whether place `i` has a value.
    pub fn get(&self, i: usize) -> bool
        requires { i < length self.now }
        ensures { slice_get self.now i ≡ Some result }
    {
        read_mark(&self.words, i)
    }

    /// Appends a place with this mark.
    pub fn push(&mut self, mark: bool) -> Result<(), Memory>
        ensures ok { OnOk result (self.new ≡ self.old ++ mark ∷ []) }
        ensures err { OnErr result (self.new ≡ self.old) }
    {
        let at = self.len;
        let Some(len) = at.checked_add(1) else {
            return Err(Memory);
        };
        if !mark {
            reach(&mut self.words, at)?;
        }
        write_mark(&mut self.words, at, mark);
        self.len = len;
        Ok(())
    }

    /// Marks that place `i` has a value.
    pub fn set(&mut self, i: usize)
        requires { i < length self.old }
        ensures { self.new ≡ slice_set self.old i true }
    {
        write_mark(&mut self.words, i, true);
    }

    /// Keeps the first `n` places.
    pub fn truncate(&mut self, n: usize)
        ensures { self.new ≡ take n self.old }
    {
        self.len = self.len.min(n);
    }

    /// Keeps the places that the mask marks.
    pub fn keep(&mut self, mask: &[bool])
        requires { length mask.now ≡ length self.old }
        ensures { self.new ≡ kept mask.now self.old }
    {
        self.len = if self.words.is_empty() {
            count_marked(mask)
        } else {
            compact_marks(&mut self.words, mask)
        };
    }

    /// Appends copies of another's places.
    pub fn append(&mut self, other: &Validity) -> Result<(), Memory>
        ensures ok { OnOk result (self.new ≡ self.old ++ other.now) }
        ensures err { OnErr result (self.new ≡ self.old) }
    {
        let Some(len) = self.len.checked_add(other.len) else {
            return Err(Memory);
        };
        if other.words.is_empty() && self.words.len() <= self.len / BITS {
            self.len = len;
            return Ok(());
        }
        if self.len % BITS == 0 {
            let count = other.words.len().min(other.len.div_ceil(BITS));
            self.words.resize(self.len / BITS, u64::MAX)?;
            self.words
                .extend_from_slice(&other.words.as_slice()[..count])?;
        } else {
            self.words.resize(len.div_ceil(BITS), u64::MAX)?;
            copy_marks(&mut self.words, self.len, &other.words, other.len);
        }
        self.len = len;
        Ok(())
    }
}

// The mark of place `i`.
fn read_mark(words: &Vec<u64>, i: usize) -> bool
    ensures { result ≡ mark_at words.now.items i }
{
    match words.get(i / BITS) {
        Some(word) => word >> (i % BITS) & 1 == 1,
        None => true,
    }
}

// Adds words, so that place `i` lies in one.
fn reach(words: &mut Vec<u64>, i: usize) -> Result<(), Memory>
    ensures word { OnOk result (i / 64 < length words.new.items) }
    ensures marks { (j : ℕ) → mark_at words.new.items j ≡ mark_at words.old.items j }
{
    if words.len() <= i / BITS {
        words.resize(i / BITS + 1, u64::MAX)?;
    }
    Ok(())
}

// Puts the mark of place `i`, which is true if the place lies behind the last word.
fn write_mark(words: &mut Vec<u64>, i: usize, mark: bool)
    requires { length words.old.items ≤ i / 64 → mark ≡ true }
    ensures length { length words.new.items ≡ length words.old.items }
    ensures marks { (j : ℕ) → mark_at words.new.items j ≡ (if j == i then mark else mark_at words.old.items j) }
{
    if i / BITS >= words.len() {
        return;
    }
    let word = words[i / BITS];
    let bit = 1 << (i % BITS);
    let written = if mark { word | bit } else { word & !bit };
    words[i / BITS] = written;
}

// How many places a mask marks.
fn count_marked(mask: &[bool]) -> usize
    ensures { result ≡ length (filter (λ marked. marked) mask.now) }
{
    mask.iter().filter(|marked| **marked).count()
}

// Moves the marks of the places that the mask marks to the front, and says how many they are.
fn compact_marks(words: &mut Vec<u64>, mask: &[bool]) -> usize
    ensures { marks words.new.items result ≡ kept mask.now (marks words.old.items (length mask.now)) }
{
    let mut count = 0;
    for i in 0..mask.len() {
        if mask[i] {
            let mark = read_mark(words, i);
            write_mark(words, count, mark);
            count += 1;
        }
    }
    count
}

// Puts copies of the first `count` marks of others behind the first `len`; all lie in words.
fn copy_marks(words: &mut Vec<u64>, len: usize, others: &Vec<u64>, count: usize)
    requires fits { len + count < 2 ^ 64 }
    requires room { len + count ≤ length words.old.items * 64 }
    ensures { marks words.new.items (len + count) ≡ marks words.old.items len ++ marks others.now.items count }
{
    for i in 0..count {
        let mark = read_mark(others, i);
        write_mark(words, len + i, mark);
    }
}
