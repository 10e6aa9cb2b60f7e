//! How often texts occur.
ghost use Rattle.std.specs.Prelude.{◌≡◌, ◌+◌, ◌-◌, ◌^◌, min, OnOk};

use fq_column::Memory;
use indexmap::IndexMap;
use std::alloc::Global;

/// The most different texts that are counted by themselves.
const MAX_TEXTS: usize = 1_000;

/// The most bytes of a text that is counted by itself.
const MAX_TEXT: usize = 256;

/// How often a text occurs, and where it does first.
#[derive(Clone, Copy)]
pub struct Seen {
    /// How often the text occurs.
    pub count: u64,
    /// The number of the file and the line.
    pub first: (u16, u64),
}

impl Seen {
    /// One more than these, if there are any, on a line of a file.
    pub fn after(seen: Option<Seen>, place: (u16, u64)) -> Seen {
        match seen {
            None => Seen {
                count: 1,
                first: place,
            },
            Some(seen) => Seen {
                count: seen.count.saturating_add(1),
                first: seen.first,
            },
        }
    }
}

/// How often each of some texts occurs. Of many texts only the first 1,000 are counted by themselves, and none of more than 256 bytes.
#[derive(Drop)]
pub struct Tally {
    texts: IndexMap<Vec<u8>, Seen>,
    total: u64,
}

impl Tally {
    /// No text.
    pub fn new(alloc: Global) -> Tally
        ensures { result.total ≡ 0 }
    {
        Tally {
            texts: IndexMap::new(alloc),
            total: 0,
        }
    }

    /// Counts a text on a line of a file. `Memory` if an allocation fails.
    pub fn add(&mut self, alloc: Global, text: &[u8], place: (u16, u64)) -> Result<(), Memory>
        ensures counted { OnOk result (self.new.total ≡ min (self.old.total + 1) (2 ^ 64 - 1)) }
    {
        self.total = self.total.saturating_add(1);
        if let Some(seen) = self.texts.get_mut(text) {
            seen.count = seen.count.saturating_add(1);
        } else if self.texts.len() < MAX_TEXTS && text.len() <= MAX_TEXT {
            let seen = Seen::after(None, place);
            self.texts.insert(Vec::from_slice(alloc, text)?, seen)?;
        }
        Ok(())
    }

    /// How many texts were counted.
    pub fn total(&self) -> u64
        ensures { result ≡ self.now.total }
    {
        self.total
    }

    /// The text of this number among those that are counted by themselves, in the order in which they came.
    pub fn text(&self, number: usize) -> Option<(&[u8], Seen)> {
        let (text, seen) = self.texts.get_index(number)?;
        Some((text.as_slice(), *seen))
    }

    /// The number of the text that occurs most often of those that are after this one: by how often they occur, and then in the order in
    /// which they came.
    pub fn next_frequent(&self, last: Option<usize>) -> Option<usize> {
        let mut best = None;
        for (number, seen) in self.texts.values().enumerate() {
            if self.is_after(number, seen.count, last) && self.is_more(seen.count, best) {
                best = Some(number);
            }
        }
        best
    }

    // Whether a text that occurs so often is after another by how often they occur, and then in the order in which they came.
    fn is_after(&self, number: usize, count: u64, last: Option<usize>) -> bool {
        match last.and_then(|last| self.text(last)) {
            None => true,
            Some((_, seen)) => count < seen.count || (count == seen.count && last < Some(number)),
        }
    }

    // Whether a text that occurs so often does so more often than another.
    fn is_more(&self, count: u64, other: Option<usize>) -> bool {
        match other.and_then(|other| self.text(other)) {
            None => true,
            Some((_, seen)) => count > seen.count,
        }
    }
}
