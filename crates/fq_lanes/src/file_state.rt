//! One file's items: those that wait, and counts.
ghost use Rattle.std.specs.Prelude.{◌≡◌, ◌≤◌, ◌<◌, ◌+◌, ℕ, List, [], ◌∷◌, ◌++◌, length, MatchResult, MatchOption, IfOk, Some, None, nat_le};
ghost use Rattle.std.specs.Option.{IfSome};
ghost use Rattle.fq_lanes.specs.declared.file_state.TheConstants.{SLOTS};

use crate::events::Why;
use crate::faults::Memory;
use std::alloc::Global;

/// How many items of one file a sink has room for: its window. Serial s waits in slot s mod `SLOTS`, so an item is too far
/// if its serial is at least `SLOTS` past the number of its file's items that were handed out.
pub const SLOTS: u32 = 8;

/// What a sink keeps of one file.
#[derive(Drop)]
pub(crate) struct FileState<T> {
    /// The items accepted and not handed out: serial s in slot s mod `SLOTS`.
    slots: Vec<Option<T>>,
    /// How many items were handed out.
    taken: u64,
    /// One past the greatest serial accepted.
    top: u64,
    /// The number of items, once closed.
    closed: Option<u32>,
    ghost whole: { length slots.items ≡ SLOTS },
    ghost small: { top ≤ 4294967296 },
}

impl<T: Drop> FileState<T> {
    ghost use Rattle.fq_lanes.specs.Due.{offer_at, offer_count, is_closed_at};
    ghost use Rattle.fq_lanes.specs.Refusals.{offer_refusal_at, close_refusal};
    ghost use Rattle.fq_lanes.specs.FileState.{FileFollows};
    ghost use Rattle.fq_lanes.specs.Slots.{held_in};
    ghost use Rattle.fq_lanes.specs.declared.events.Event.{Event};
    ghost use Rattle.fq_lanes.specs.declared.events.Event.TheVariants.{Offer, Close};

    /// A file of which nothing was accepted.
    pub(crate) fn new(alloc: Global) -> Result<Self, Memory>
        ensures { IfOk result (λ x. ((f : ℕ) → FileFollows x [] f) × (x.taken ≡ 0)) }
    {
        let mut slots = Vec::new(alloc);
        for _ in 0..SLOTS {
            if slots.push(None).is_err() {
                return Err(Memory);
            }
        }
        Ok(FileState {
            slots,
            taken: 0,
            top: 0,
            closed: None,
        })
    }

    /// Refuses Closed, Double and Far, in this order. Allocates nothing.
    pub(crate) fn offer(&mut self, serial: u32, item: T) -> Result<(), (Why, T)>
        ensures taken { self.new.taken ≡ self.old.taken }
        ensures closed { self.new.closed ≡ self.old.closed }
        ensures follows { (events : List (Event T)) (f : ℕ) → FileFollows self.old events f →
            MatchResult result
            (λ _. (offer_refusal_at events f serial self.old.taken ≡ None) × FileFollows self.new (events ++ Offer f serial item ∷ []) f)
            (λ e. (offer_refusal_at events f serial self.old.taken ≡ Some e.0) × (e.1 ≡ item) × FileFollows self.new events f) }
    {
        if let Some(items) = self.closed
            && items <= serial
        {
            return Err((Why::Closed, item));
        }
        if (serial as u64) < self.taken {
            return Err((Why::Double, item));
        }
        if self.is_far(serial) {
            return Err((Why::Far, item));
        }
        let place = (serial % SLOTS) as usize;
        if self.slots[place].is_some() {
            return Err((Why::Double, item));
        }
        self.slots[place] = Some(item);
        self.top = self.top.max(serial as u64 + 1);
        Ok(())
    }

    /// Whether this serial has no slot yet: it is at least `SLOTS` past the number of items handed out.
    pub(crate) fn is_far(&self, serial: u32) -> bool
        ensures { result ≡ nat_le (self.now.taken + SLOTS) serial }
    {
        (serial as u64).saturating_sub(self.taken) >= SLOTS as u64
    }

    /// Refuses Closed and Short, in this order.
    pub(crate) fn close(&mut self, items: u32) -> Result<(), Why>
        ensures taken { self.new.taken ≡ self.old.taken }
        ensures closed { (n : ℕ) → self.old.closed ≡ Some n → self.new.closed ≡ Some n }
        ensures follows { (events : List (Event T)) (f : ℕ) → FileFollows self.old events f →
            MatchResult result
            (λ _. (close_refusal events f items ≡ None) × FileFollows self.new (events ++ Close f items ∷ []) f)
            (λ e. (close_refusal events f items ≡ Some e) × FileFollows self.new events f) }
    {
        if self.closed.is_some() {
            return Err(Why::Closed);
        }
        if (items as u64) < self.top {
            return Err(Why::Short);
        }
        self.closed = Some(items);
        Ok(())
    }

    /// The item with the next serial, if it waits.
    pub(crate) fn next(&mut self) -> Option<(u32, T)>
        ensures closed { self.new.closed ≡ self.old.closed }
        ensures left { IfSome result (λ _. held_in self.new.slots.items + 1 ≡ held_in self.old.slots.items) }
        ensures taken { MatchOption result (self.new.taken ≡ self.old.taken)
            (λ q. (q.0 ≡ self.old.taken) × (self.new.taken ≡ self.old.taken + 1)) }
        ensures follows { (events : List (Event T)) (f : ℕ) → FileFollows self.old events f →
            FileFollows self.new events f × MatchOption result (offer_at events f self.old.taken ≡ None)
            (λ q. (offer_at events f self.old.taken ≡ Some q.1) × (self.old.taken < offer_count events f)) }
    {
        if self.taken >= self.top {
            return None;
        }
        let serial = self.taken as u32;
        let place = (serial % SLOTS) as usize;
        let slot = &mut self.slots[place];
        match slot.take() {
            Some(item) => {
                self.taken += 1;
                Some((serial, item))
            }
            None => None,
        }
    }

    /// Closed, with each item handed out.
    pub(crate) fn is_handed_out(&self) -> bool
        ensures { result ≡ is_closed_at self.now.closed self.now.taken }
    {
        match self.closed {
            Some(items) => items as u64 == self.taken,
            None => false,
        }
    }

    /// Closed, with each item accepted.
    pub(crate) fn is_finished(&self) -> bool
        ensures { result ≡ is_closed_at self.now.closed (self.now.taken + held_in self.now.slots.items) }
    {
        match self.closed {
            Some(items) => {
                let items = items as u64;
                self.taken <= items && items - self.taken == self.held()
            }
            None => false,
        }
    }

    /// How many items wait.
    pub(crate) fn held(&self) -> u64
        ensures count { result ≡ held_in self.now.slots.items }
        ensures few { result ≤ SLOTS }
    {
        self.slots.iter().filter(|slot| slot.is_some()).count() as u64
    }
}
