//! A text of a cell, which contracts see as its bytes.
ghost use Rattle.std.specs.Prelude.{◌≡◌, [], ◌∷◌, Some, refl, IfOk, OnOk, OnErr, nat_eq};
ghost use Rattle.std.specs.Cmp as laws;
ghost use Rattle.std.specs.Ordering.{nat_cmp};
ghost use Rattle.std.specs.Cmp.Lexicographic.{pointwise, slice_cmp, bytes_decides, nat_list_eq_equiv, nat_list_cmp_total, texts_ties, texts_po};
ghost use Rattle.std.specs.Hash.{same_Alike};

use crate::faults::Memory;
use arrayvec::ArrayString;
use std::alloc::Global;
use std::cmp::Ordering;
use std::hash::{Hash, Hasher};
use std::marker::Model;

/// The most bytes of a text that lies in the cell itself.
const INLINE: usize = 24;

/// Where the bytes of a text lie.
#[derive(Drop, Debug)]
enum Storage {
    /// In the value itself.
    Inline(ArrayString<INLINE>),
    /// In memory of its own.
    Heap(String),
}

/// A text of a cell. Texts are compared, ordered and hashed by their UTF-8 bytes.
///
/// A copy of up to 24 bytes lies in the value itself, and a longer one is allocated; a text made from a `String` keeps its memory.
#[derive(Drop, Debug)]
pub struct Text {
    storage: Storage,
}

impl Model for Text {
    ghost use Rattle.std.specs.Prelude.{List, ℕ};
    ghost use Rattle.fq_column.specs.Text.{stored};

    ghost Value = { List ℕ };

    ghost view = { λ a. stored a.storage };
}

impl Text {
    /// The empty text, which allocates nothing.
    pub fn empty() -> Text
        ensures { result ≡ [] }
    {
        Text {
            storage: Storage::Inline(ArrayString::new()),
        }
    }

    /// A copy of these characters; allocates if they are more than 24 bytes.
    pub fn new(alloc: Global, text: &str) -> Result<Text, Memory>
        ensures { IfOk result (λ t. t ≡ text.now) }
    {
        let storage = match ArrayString::from(text) {
            Ok(string) => Storage::Inline(string),
            Err(_) => Storage::Heap(String::from_str(alloc, text)?),
        };
        Ok(Text { storage })
    }

    /// The characters.
    pub fn as_str(&self) -> &str
        ensures { result.now ≡ self.now }
    {
        match &self.storage {
            Storage::Inline(string) => string.as_str(),
            Storage::Heap(string) => string.as_str(),
        }
    }

    /// Takes these characters in place of its own, in the same memory if it has some. If an allocation fails, the text
    /// is empty.
    pub fn assign(&mut self, alloc: Global, text: &str) -> Result<(), Memory>
        ensures ok { OnOk result (self.new ≡ text.now) }
        ensures err { OnErr result (self.new ≡ []) }
    {
        match &mut self.storage {
            Storage::Inline(string) => {
                string.clear();
                if let Ok(()) = string.try_push_str(text) {
                    return Ok(());
                }
            }
            Storage::Heap(string) => {
                string.clear();
                string.push_str(text)?;
                return Ok(());
            }
        }
        *self = Text::new(alloc, text)?;
        Ok(())
    }

    /// An equal text; allocates if it is more than 24 bytes.
    pub fn copy(&self, alloc: Global) -> Result<Text, Memory>
        ensures { IfOk result (λ t. t ≡ self.now) }
    {
        Text::new(alloc, self.as_str())
    }
}

impl From<String> for Text {
    ghost use Rattle.std.specs.Prelude.{◌≡◌, string_bytes};

    ghost from_gives = { λ string text. text ≡ string_bytes string };

    /// The text of a string, which stays in the string's memory: nothing is allocated or copied.
    fn from(string: String) -> Text {
        Text {
            storage: Storage::Heap(string),
        }
    }
}

impl PartialEq for Text {
    ghost eq = { pointwise nat_eq };

    ghost laws = { laws.partial_equiv_from_equiv nat_list_eq_equiv };

    fn eq(&self, other: &Text) -> bool {
        self.as_str() == other.as_str()
    }
}

impl Eq for Text {
    ghost laws = { nat_list_eq_equiv };
}

impl PartialOrd for Text {
    ghost partial_cmp = { λ x y. Some (slice_cmp nat_cmp x y) };

    ghost laws = { texts_po };

    fn partial_cmp(&self, other: &Text) -> Option<Ordering> {
        Some(self.cmp(other))
    }
}

impl Ord for Text {
    ghost cmp = { slice_cmp nat_cmp };

    ghost total = { nat_list_cmp_total };

    ghost matches_partial_cmp = { λ x y. refl };

    ghost matches_eq = { texts_ties };

    fn cmp(&self, other: &Text) -> Ordering {
        self.as_str().cmp(other.as_str())
    }
}

impl Hash for Text {
    ghost hash_input = { λ s. s ∷ [] };

    ghost respects_eq = { (same_Alike (λ s. s ∷ []) bytes_decides).fed };

    /// One write, of the bytes alone: a hasher mixes in how many they are.
    fn hash<H: Hasher>(&self, state: &mut H) {
        state.write(self.as_str().as_bytes());
    }
}
