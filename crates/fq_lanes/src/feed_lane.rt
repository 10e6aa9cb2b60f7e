//! The hub's end of a feed's lane.
ghost use Rattle.std.specs.Prelude.{◌≡◌, ◌⊎◌, false, true, None, Some};
ghost use mathlib.Core.List.{IsPrefix};
ghost use Rattle.fq_lanes.specs.Lane.{taken_items, take_name};
ghost use Rattle.fq_lanes.specs.HubView.{Tells, end_told};
ghost use Rattle.fq_lanes.specs.declared.faults.FeedFault.{FeedFault as Fault};
ghost use Rattle.fq_lanes.specs.declared.messages.FromFeed.TheVariants.{End};

use crate::faults::FeedFault;
use crate::lanes::Take;
use crate::messages::FromFeed;
use crate::sleeping::Waiter;
use std::sync::Wait;

/// The most items that are counted of a feed.
const MOST: u32 = 2_147_483_648;

/// The hub's end of a feed's lane, how many items it took, and whether the feed has ended.
#[derive(Drop)]
pub(crate) struct FeedLane<'s, X> {
    pub(crate) waiter: Waiter<'s>,
    pub(crate) take: Take<FromFeed<X>>,
    pub(crate) items: u32,
    pub(crate) ended: bool,
}

/// What a poll of a feed finds.
#[derive(Drop)]
pub(crate) enum Polled<X> {
    /// Nothing is there, or the feed has ended.
    Nothing,
    /// Its next item, with its serial.
    Item(u32, X),
    /// It has ended, after so many items.
    End(u32),
    /// An item past the most that are counted.
    TooMany,
    /// It has ended with a fault.
    Fault(FeedFault),
}

impl<'s, X> FeedLane<'s, X> {
    ghost use Rattle.fq_lanes.specs.FeedLane.{feed_view};
    ghost use Rattle.fq_lanes.specs.Turns.{Polls};

    /// The lane of a feed of which nothing was taken.
    pub(crate) fn new(waiter: Waiter<'s>, take: Take<FromFeed<X>>) -> Self
        ensures { (result.take ≡ take) × (result.items ≡ 0) × (result.ended ≡ false) }
    {
        FeedLane {
            waiter,
            take,
            items: 0,
            ended: false,
        }
    }

    /// Polls the feed's thread.
    pub(crate) fn next(&mut self) -> Polled<X>
    where
        X: Drop,
        ensures name { take_name self.new.take ≡ take_name self.old.take }
        ensures polled { Polls (feed_view self.old) result (feed_view self.new) }
    {
        if self.ended {
            return Polled::Nothing;
        }
        let told = self.take.take();
        if told.is_some() && self.take.waiting() == 0 {
            self.waiter.wake();
        }
        match told {
            None => Polled::Nothing,
            Some(FromFeed::Item(item)) => {
                let serial = self.items;
                if serial >= MOST {
                    return Polled::TooMany;
                }
                self.items = serial + 1;
                Polled::Item(serial, item)
            }
            Some(FromFeed::End(None)) => {
                self.ended = true;
                Polled::End(self.items)
            }
            Some(FromFeed::End(Some(fault))) => {
                self.ended = true;
                Polled::Fault(fault)
            }
        }
    }

    /// Takes and drops until the feed has ended. Answers the fault that it then ends with, if any; `None` if it had ended
    /// before.
    pub(crate) fn drain<R: Wait>(&mut self, rt: &R) -> Option<FeedFault>
    where
        X: Drop,
        ensures name { take_name self.new.take ≡ take_name self.old.take }
        ensures told { IsPrefix (taken_items self.old.take) (taken_items self.new.take) }
        ensures ended { self.new.ended ≡ true }
        ensures before { self.old.ended ≡ true → result ≡ None }
        ensures end { self.old.ended ≡ false → Tells (taken_items self.new.take) (End result) }
        ensures fault { (e : Fault) → end_told (taken_items self.new.take) ≡ Some (Some e) → (end_told (taken_items self.old.take) ≡ Some (Some e)) ⊎ (result ≡ Some e) }
    {
        if self.ended {
            return None;
        }
        for _ in rt.forever() {
            match self.take.take() {
                Some(FromFeed::End(end)) => {
                    self.ended = true;
                    return end;
                }
                Some(FromFeed::Item(_)) => self.waiter.wake(),
                None => self.waiter.wait(rt),
            }
        }
        unreachable!()
    }
}
