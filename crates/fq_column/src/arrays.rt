//! Arrays: values of one type, some of which are missing.
ghost use Rattle.std.specs.Prelude.{◌≡◌, ◌<◌, ◌++◌, [], ◌∷◌, Some, None, take, length, map, replicate, vec_len, IfOk, OnOk, OnErr, slice_get, slice_set, slice_index_or, option_copied, option_and_then};
ghost use Rattle.fq_column.specs.Lists.{keep as kept, value_if};

use crate::faults::Memory;
use crate::texts::Text;
use crate::validity::Validity;
use std::alloc::Global;
use std::marker::Model;

/// A value that an array can hold.
pub trait Element: Drop {
    /// A filler for places without a value; allocates nothing.
    fn filler() -> Self;

    /// An equal value in memory of its own.
    fn copy_of(&self, alloc: Global) -> Result<Self, Memory>
        ensures copy { IfOk result (λ x. x ≡ self.now) };

    /// Appends copies of the others, or leaves the list as it was.
    fn append_copies(items: &mut Vec<Self>, others: &[Self]) -> Result<(), Memory>
        ensures ok { OnOk result (items.new.items ≡ items.old.items ++ others.now) }
        ensures err { OnErr result (items.new.items ≡ items.old.items) };
}

impl Element for i64 {
    fn filler() -> i64 {
        0
    }

    fn copy_of(&self, _alloc: Global) -> Result<i64, Memory> {
        Ok(*self)
    }

    fn append_copies(items: &mut Vec<i64>, others: &[i64]) -> Result<(), Memory> {
        items.extend_from_slice(others)?;
        Ok(())
    }
}

impl Element for bool {
    fn filler() -> bool {
        false
    }

    fn copy_of(&self, _alloc: Global) -> Result<bool, Memory> {
        Ok(*self)
    }

    fn append_copies(items: &mut Vec<bool>, others: &[bool]) -> Result<(), Memory> {
        items.extend_from_slice(others)?;
        Ok(())
    }
}

impl Element for Text {
    fn filler() -> Text {
        Text::empty()
    }

    fn copy_of(&self, alloc: Global) -> Result<Text, Memory> {
        self.copy(alloc)
    }

    fn append_copies(items: &mut Vec<Text>, others: &[Text]) -> Result<(), Memory> {
        let alloc = *items.allocator();
        let count = items.len();
        for other in others {
            let Ok(copy) = other.copy(alloc) else {
                items.truncate(count);
                return Err(Memory);
            };
            let Ok(()) = items.push(copy) else {
                items.truncate(count);
                return Err(Memory);
            };
        }
        Ok(())
    }
}

/// Values of one type in a vector, with a mark for each that says whether it is there.
#[derive(Debug, Drop)]
pub struct Array<T> {
    values: Vec<T>,
    validity: Validity,
}

impl<T> Model for Array<T> {
    ghost use Rattle.std.specs.Prelude.{◌≡◌, List, Option, length};
    ghost use Rattle.fq_column.specs.Lists.{zip_with, value_if};

    ghost Value = { List (Option T) };

    ghost view = { λ a. zip_with value_if a.validity a.values.items };

    ghost invariant = { λ a. length a.values.items ≡ length a.validity };
}

impl<T: Element> Array<T> {
    /// The empty array, which allocates nothing.
    pub fn new(alloc: Global) -> Array<T>
        ensures { result ≡ [] }
    {
        Array {
            values: Vec::new(alloc),
            validity: Validity::new(alloc),
        }
    }

    /// The empty array, with room for this many values.
    pub fn with_capacity(alloc: Global, capacity: usize) -> Result<Array<T>, Memory>
        ensures { IfOk result (λ a. a ≡ []) }
    {
        let values = Vec::with_capacity(alloc, capacity)?;
        let validity = Validity::new(alloc);
        Ok(Array { values, validity })
    }

    /// An array of this many places with no value.
    pub fn nulls(alloc: Global, count: usize) -> Result<Array<T>, Memory>
        ensures { IfOk result (λ a. a ≡ replicate count None) }
    {
        let validity = Validity::missing(alloc, count)?;
        let mut values = Vec::with_capacity(alloc, count)?;
        for _ in 0..count {
            values.push(T::filler())?;
        }
        Ok(Array { values, validity })
    }

    /// The allocator of the values.
    pub fn allocator(&self) -> Global {
        *self.values.allocator()
    }

    /// How many places there are.
    pub fn len(&self) -> usize
        ensures { result ≡ length self.now }
    {
        self.values.len()
    }

    /// The value at place `i`, if it has one.
    pub fn get(&self, i: usize) -> Option<&T>
        requires { i < length self.now }
        ensures { slice_get self.now i ≡ Some (option_copied result) }
    {
        if self.validity.get(i) {
            Some(&self.values[i])
        } else {
            None
        }
    }

    /// Appends a value; may grow both vectors.
    pub fn push(&mut self, value: T) -> Result<(), Memory>
        ensures ok { OnOk result (self.new ≡ self.old ++ Some value ∷ []) }
        ensures err { OnErr result (self.new ≡ self.old) }
    {
        self.push_marked(value, true)
    }

    /// Appends a place with no value; may grow both vectors.
    pub fn push_null(&mut self) -> Result<(), Memory>
        ensures ok { OnOk result (self.new ≡ self.old ++ None ∷ []) }
        ensures err { OnErr result (self.new ≡ self.old) }
    {
        self.push_marked(T::filler(), false)
    }

    // Appends a place with this mark.
    fn push_marked(&mut self, value: T, mark: bool) -> Result<(), Memory>
        ensures ok { OnOk result (self.new ≡ self.old ++ value_if mark value ∷ []) }
        ensures err { OnErr result (self.new ≡ self.old) }
    {
        self.validity.push(mark)?;
        let Ok(()) = self.values.push(value) else {
            self.validity.truncate(self.values.len());
            return Err(Memory);
        };
        Ok(())
    }

    /// Puts a value at place `i`.
    pub fn set(&mut self, i: usize, value: T)
        requires { i < length self.old }
        ensures { self.new ≡ slice_set self.old i (Some value) }
    {
        self.values[i] = value;
        self.validity.set(i);
    }

    /// Copies of the values at these places, each as often as it is named. A place past the end has no value.
    pub fn gather(&self, alloc: Global, places: &[usize]) -> Result<Array<T>, Memory>
        ensures { IfOk result (λ a. a ≡ map (λ p. slice_index_or self.now p None) places.now) }
    {
        let mut gathered = Array::with_capacity(alloc, places.len())?;
        for place in places {
            gathered.push_place_of(alloc, self, *place)?;
        }
        Ok(gathered)
    }

    /// Copies of the values at these places, with no value where there is no place. A place past the end has no value.
    pub fn gather_optional(
        &self,
        alloc: Global,
        places: &[Option<usize>],
    ) -> Result<Array<T>, Memory>
        ensures { IfOk result (λ a. a ≡ map (λ p. option_and_then (λ i. slice_index_or self.now i None) p) places.now) }
    {
        let mut gathered = Array::with_capacity(alloc, places.len())?;
        for place in places {
            match place {
                Some(place) => gathered.push_place_of(alloc, self, *place)?,
                None => gathered.push_null()?,
            }
        }
        Ok(gathered)
    }

    // Appends a copy of a place of another array.
    fn push_place_of(&mut self, alloc: Global, other: &Array<T>, place: usize) -> Result<(), Memory>
        ensures { OnOk result (self.new ≡ self.old ++ slice_index_or other.now place None ∷ []) }
    {
        if place >= other.len() {
            return self.push_null();
        }
        match other.get(place) {
            Some(value) => self.push(value.copy_of(alloc)?),
            None => self.push_null(),
        }
    }

    /// Keeps the first `n` places, or all if there are fewer.
    pub fn truncate(&mut self, n: usize)
        ensures { self.new ≡ take n self.old }
    {
        self.values.truncate(n);
        self.validity.truncate(n);
    }

    /// Keeps the places that the mask marks: one pass over the values and one over the marks.
    pub fn keep(&mut self, mask: &[bool])
        requires { length mask.now ≡ length self.old }
        ensures { self.new ≡ kept mask.now self.old }
    {
        compact(&mut self.values, mask);
        self.validity.keep(mask);
    }

    /// Appends copies of another array's places.
    pub fn append(&mut self, other: &Array<T>) -> Result<(), Memory>
        ensures ok { OnOk result (self.new ≡ self.old ++ other.now) }
        ensures err { OnErr result (self.new ≡ self.old) }
    {
        self.validity.append(&other.validity)?;
        let Ok(()) = T::append_copies(&mut self.values, other.values.as_slice()) else {
            self.validity.truncate(self.values.len());
            return Err(Memory);
        };
        Ok(())
    }

    /// Appends another array's places, whose values are moved.
    pub fn extend(&mut self, other: Array<T>) -> Result<(), Memory>
        ensures ok { OnOk result (self.new ≡ self.old ++ other) }
        ensures err { OnErr result (self.new ≡ self.old) }
    {
        let Array {
            mut values,
            validity,
        } = other;
        self.validity.append(&validity)?;
        let Ok(()) = self.values.append(&mut values) else {
            self.validity.truncate(self.values.len());
            return Err(Memory);
        };
        Ok(())
    }

    /// An equal array in memory of its own.
    pub fn copy(&self, alloc: Global) -> Result<Array<T>, Memory>
        ensures { IfOk result (λ a. a ≡ self.now) }
    {
        let mut copy = Array::with_capacity(alloc, self.len())?;
        copy.append(self)?;
        Ok(copy)
    }
}

// Keeps the items that the mask marks, in place.
pub fn compact<T: Drop>(items: &mut Vec<T>, mask: &[bool])
    requires { length mask.now ≡ vec_len items.old }
    ensures { items.new.items ≡ kept mask.now items.old.items }
{
    let mut count = 0;
    for i in 0..mask.len() {
        if mask[i] {
            items.swap(count, i);
            count += 1;
        }
    }
    items.truncate(count);
}
