//! The bytes of a file, from which runs of records are taken.
//!
//! Bytes that were not taken move to the front only before the next read; all others are copied once, into the text of their run, as soon
//! as their record is whole. One that is not whole is passed over again once a quarter more bytes are there: so a long one is passed over
//! about five times in all, and what is read ahead of its end is at most a quarter of it. Once it was taken, its memory is given back.
//! Empty lines that no record follows in what was read are passed over, and not kept.
ghost use Rattle.std.specs.Prelude.{◌≡◌, ◌≤◌, ◌<◌, ◌++◌, take, drop, false, true, length, IfOk, IfErr, OnErr, OnOk};
ghost use Rattle.std.specs.Io.KnownBytes.{Keeps};
ghost use Rattle.fq_csv.specs.Buffer.{FailsBy, HandsOn, IsSound, ReadsOn, TakesText, left_of, rest_of, unread_of};
ghost use Rattle.fq_csv.specs.Records.{StopsBy};

use crate::cutting::pieces::Pieces;
use crate::cutting::retrying::Retrying;
use crate::cutting::{Ends, whole_records};
use crate::faults::ScanFault;
use std::alloc::{AllocError, Global};
use std::io::Read;

// How many bytes to ask a reader for.
const CHUNK: usize = 131_072;

// The byte order mark, U+FEFF in UTF-8.
const MARK: [u8; 3] = [0xEF, 0xBB, 0xBF];

/// The bytes of a file that were read and are still needed.
#[derive(Drop)]
pub(crate) struct Buffer<R: Read> {
    pub(crate) file: u16,
    pub(crate) reader: Retrying<R>,
    pub(crate) text: Vec<u8>,
    /// Where in the text the next record starts.
    pub(crate) at: usize,
    /// Whether a byte order mark was looked for.
    pub(crate) has_begun: bool,
    /// Whether the reader is at its end.
    pub(crate) is_last: bool,
    /// Whether the reader failed.
    pub(crate) has_failed: bool,
}

impl<R: Read> Buffer<R> {
    /// A file of which nothing was read.
    pub(crate) fn new(alloc: Global, reader: R, file: u16) -> Buffer<R>
        ensures sound { IsSound R.remaining result }
        ensures file { result.file ≡ file }
        ensures fresh { result.has_failed ≡ false }
        ensures begun { result.has_begun ≡ false }
        ensures left { left_of R.remaining result ≡ R.remaining reader }
    {
        Buffer {
            file,
            reader: Retrying { reader },
            text: Vec::new(alloc),
            at: 0,
            has_begun: false,
            is_last: false,
            has_failed: false,
        }
    }

    // The bytes that were read and not taken.
    fn rest(&self) -> &[u8]
        requires { self.now.at ≤ length self.now.text.items }
        ensures { result.now ≡ rest_of self.now }
    {
        &self.text[self.at..]
    }

    // Whether the text has far more memory than the bytes that were not taken and those of a read need.
    fn is_roomy(&self) -> bool
        requires { self.now.at ≤ length self.now.text.items }
    {
        self.text.capacity() / 4 > self.rest().len() + CHUNK
    }

    // Moves the bytes that were not taken to the start of the text, and gives memory back that a long record took.
    fn compact(&mut self)
        requires { self.old.at ≤ length self.old.text.items }
        ensures same { self.new ≡ record self.old { text = self.new.text; at = 0 } }
        ensures text { self.new.text.items ≡ rest_of self.old }
    {
        if self.at > 0 {
            let left = self.text.len() - self.at;
            self.text.copy_within(self.at.., 0);
            self.text.truncate(left);
            self.at = 0;
        }
        if self.is_roomy() {
            self.text.shrink_to(self.text.len() + CHUNK);
        }
    }

    // Reads once.
    fn read_more(&mut self) -> Result<(), ScanFault>
        requires sound { IsSound R.remaining self.old }
        requires open { self.old.is_last ≡ false }
        ensures sound { IsSound R.remaining self.new }
        ensures file { self.new.file ≡ self.old.file }
        ensures rest { OnErr result (rest_of self.new ≡ rest_of self.old) }
        ensures failed { IfErr result (FailsBy self.old self.new) }
        ensures reads { OnOk result (ReadsOn R.remaining self.old self.new) }
        ensures more { OnOk result (self.new.is_last ≡ false → length (rest_of self.old) < length (rest_of self.new)) }
    {
        self.compact();
        let filled = self.text.len();
        self.text.resize(filled + CHUNK, 0)?;
        match self.reader.read(&mut self.text.as_mut_slice()[filled..]) {
            Ok(count) => {
                self.text.truncate(filled + count);
                self.is_last = count == 0;
                Ok(())
            }
            Err(_) => {
                self.text.truncate(filled);
                self.has_failed = true;
                Err(ScanFault::Read { file: self.file })
            }
        }
    }

    // Reads until so many bytes were not taken, or the file ends.
    fn read_up_to(&mut self, wanted: usize) -> Result<(), ScanFault>
        requires { IsSound R.remaining self.old }
        ensures sound { IsSound R.remaining self.new }
        ensures file { self.new.file ≡ self.old.file }
        ensures failed { IfErr result (StopsBy self.old.file self.new.has_failed) }
        ensures reads { OnOk result (ReadsOn R.remaining self.old self.new) }
        ensures more { OnOk result (self.new.is_last ≡ false → wanted ≤ length (rest_of self.new)) }
    {
        while !self.is_last && self.rest().len() < wanted {
            self.read_more()?;
        }
        Ok(())
    }

    // Skips a byte order mark at the start of the file.
    fn begin(&mut self) -> Result<(), ScanFault>
        requires sound { IsSound R.remaining self.old }
        requires fresh { self.old.has_begun ≡ false }
        ensures sound { IsSound R.remaining self.new }
        ensures file { self.new.file ≡ self.old.file }
        ensures failed { IfErr result (StopsBy self.old.file self.new.has_failed) }
        ensures goes_on { OnOk result (self.new.has_failed ≡ self.old.has_failed) }
        ensures begun { OnOk result (self.new.has_begun ≡ true) }
        ensures left { OnOk result (Keeps (unread_of R.remaining self.old) (unread_of R.remaining self.new)) }
    {
        self.read_up_to(MARK.len())?;
        if self.text.as_slice().starts_with(&MARK) {
            self.at = MARK.len();
        }
        self.has_begun = true;
        Ok(())
    }

    // Adds the first bytes that were not taken to a text, and takes them.
    fn hand_on(&mut self, text: &mut Pieces, len: usize) -> Result<(), AllocError>
        requires sound { IsSound R.remaining self.old }
        requires begun { self.old.has_begun ≡ true }
        requires high { len ≤ length (rest_of self.old) }
        ensures sound { IsSound R.remaining self.new }
        ensures same { self.new ≡ record self.old { text = self.new.text; at = self.new.at } }
        ensures added { OnOk result (text.new ≡ text.old ++ take len (rest_of self.old)) }
        ensures rest { OnOk result (rest_of self.new ≡ drop len (rest_of self.old)) }
    {
        text.add(&self.rest()[..len])?;
        self.at += len;
        if self.is_roomy() {
            self.compact();
        }
        Ok(())
    }

    // Adds the next whole records of the bytes that were not taken to a text, up to so many, and takes them. If they are fewer, and the
    // bytes after them are no record, takes those too.
    fn hand_on_records(&mut self, text: &mut Pieces, wanted: u32) -> Result<Ends, AllocError>
        requires sound { IsSound R.remaining self.old }
        requires begun { self.old.has_begun ≡ true }
        ensures sound { IsSound R.remaining self.new }
        ensures same { self.new ≡ record self.old { text = self.new.text; at = self.new.at } }
        ensures handed { IfOk result (HandsOn R.remaining self.old self.new wanted text.old text.new) }
    {
        let found = whole_records(self.rest(), wanted);
        self.hand_on(text, found.end)?;
        if found.count < wanted && !found.is_open {
            self.at = self.text.len();
        }
        Ok(found)
    }

    // The same as `take`, of a file that was begun.
    fn take_begun(&mut self, alloc: Global, wanted: u32) -> Result<(Pieces, u32), ScanFault>
        requires sound { IsSound R.remaining self.old }
        requires begun { self.old.has_begun ≡ true }
        ensures sound { IsSound R.remaining self.new }
        ensures file { self.new.file ≡ self.old.file }
        ensures failed { IfErr result (StopsBy self.old.file self.new.has_failed) }
        ensures goes_on { OnOk result (self.new.has_failed ≡ self.old.has_failed) }
        ensures taken { IfOk result (λ r. TakesText R.remaining self.old self.new wanted r.0 r.1) }
    {
        let mut text = Pieces::new(alloc);
        let mut count = 0;
        for _ in 0..u64::MAX {
            let found = self.hand_on_records(&mut text, wanted - count)?;
            count += found.count;
            if count == wanted {
                return Ok((text, count));
            }
            let left = self.rest().len();
            if self.is_last {
                if found.is_open {
                    self.hand_on(&mut text, left)?;
                    count += 1;
                }
                return Ok((text, count));
            }
            self.read_up_to(left + left / 4 + 1)?;
        }
        // never reached: no run lives through so many rounds
        Err(ScanFault::Memory)
    }

    /// Takes the next records, up to so many: their text, and how many they are.
    pub(crate) fn take(&mut self, alloc: Global, wanted: u32) -> Result<(Pieces, u32), ScanFault>
        requires { IsSound R.remaining self.old }
        ensures sound { IsSound R.remaining self.new }
        ensures file { self.new.file ≡ self.old.file }
        ensures failed { IfErr result (StopsBy self.old.file self.new.has_failed) }
        ensures goes_on { OnOk result (self.new.has_failed ≡ self.old.has_failed) }
        ensures taken { IfOk result (λ r. TakesText R.remaining self.old self.new wanted r.0 r.1) }
    {
        if !self.has_begun {
            self.begin()?;
        }
        self.take_begun(alloc, wanted)
    }
}
