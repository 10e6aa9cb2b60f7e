//! The calls on lanes.
ghost use Rattle.std.specs.Prelude.{◌≡◌, ◌+◌, ◌<◌, ◌≤◌, [], ◌∷◌, ◌++◌, IfOk, IsOk, OnOk, IfErr, MatchOption, length};
ghost use mathlib.Core.List.{IsPrefix};
ghost use Rattle.fq_lanes.specs.Lane.{put_items, taken_items, left_items, room, seen_items, IsLane, SamePut, SameTake};

use super::{Left, MAX_CAPACITY, Put, Take};
use crate::faults::Memory;
use rtrb::{PushError, RingBuffer};
use std::alloc::Global;

/// A lane with room for `capacity` items, from 1 to [`MAX_CAPACITY`].
pub fn lane<T: Drop>(alloc: Global, capacity: usize) -> Result<(Put<T>, Take<T>), Memory>
    requires { (1 ≤ capacity) × (capacity ≤ MAX_CAPACITY) }
    ensures pair { IfOk result (λ r. IsLane r.0 r.1) }
    ensures room { IfOk result (λ r. room r.0 ≡ capacity) }
    ensures empty { IfOk result (λ r. (put_items r.0 ≡ []) × (taken_items r.1 ≡ [])) }
{
    match RingBuffer::new(alloc, capacity) {
        Ok((producer, consumer)) => Ok((Put { producer }, Take { consumer })),
        Err(_) => Err(Memory),
    }
}

impl<T> Put<T> {
    /// Puts an item, or hands it back if the lane is full.
    pub fn put(&mut self, item: T) -> Result<(), T>
        ensures lane { SamePut self.old self.new }
        ensures ok { OnOk result ((put_items self.new ≡ put_items self.old ++ item ∷ []) × (room self.old ≤ room self.new + 1)) }
        ensures full { IfErr result (λ back. (back ≡ item) × (put_items self.new ≡ put_items self.old)) }
        ensures fits { 0 < room self.old → IsOk result }
    {
        match self.producer.push(item) {
            Ok(()) => Ok(()),
            Err(PushError::Full(back)) => Err(back),
        }
    }

    /// How many items it surely has room for: as many as when it last looked, less what was put since then.
    pub fn room(&self) -> usize
        ensures { result ≡ room self.now }
    {
        self.producer.cached_slots()
    }
}

impl<T> Take<T> {
    /// Takes the oldest item, if one is seen.
    pub fn take(&mut self) -> Option<T>
        ensures lane { SameTake self.old self.new }
        ensures taken { MatchOption result (taken_items self.new ≡ taken_items self.old) (λ x. taken_items self.new ≡ taken_items self.old ++ x ∷ []) }
        ensures seen { MatchOption result ((seen_items self.old ≡ []) × (seen_items self.new ≡ [])) (λ x. IsPrefix (seen_items self.old) (x ∷ seen_items self.new)) }
    {
        match self.consumer.pop() {
            Ok(item) => Some(item),
            Err(_) => None,
        }
    }

    /// How many items there are to be taken. More may come at any time.
    pub fn waiting(&mut self) -> usize
        ensures lane { SameTake self.old self.new }
        ensures taken { taken_items self.new ≡ taken_items self.old }
        ensures seen { IsPrefix (seen_items self.old) (seen_items self.new) × (result ≡ length (seen_items self.new)) }
    {
        self.consumer.slots()
    }
}

/// Brings the two ends of a lane together.
pub fn rejoin<T>(put: Put<T>, take: Take<T>) -> Left<T>
    requires { IsLane put take }
    ensures { taken_items take ++ left_items result ≡ put_items put }
{
    let Put { producer: mut put } = put;
    let Take { consumer: mut take } = take;
    take.slots_beside(&mut put);
    Left { put, take }
}

impl<T> Left<T> {
    /// Hands out the oldest item that was left.
    pub fn next(&mut self) -> Option<T>
        ensures { MatchOption result ((left_items self.old ≡ []) × (left_items self.new ≡ [])) (λ x. left_items self.old ≡ x ∷ left_items self.new) }
    {
        if self.take.cached_slots() == 0 {
            return None;
        }
        Some(self.take.pop_known())
    }
}
