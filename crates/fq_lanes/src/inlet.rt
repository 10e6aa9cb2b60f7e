//! The hub's side of a feed.
ghost use Rattle.std.specs.Prelude.{◌≡◌, ◌+◌, ◌≤◌, List, [], ◌∷◌, ◌++◌, length, MatchOption, MatchResult, IfOk, IfSome, true, false};
ghost use Rattle.fq_lanes.specs.declared.faults.FeedFault.TheVariants.{Read};

use crate::faults::FeedFault;
use crate::feeds::Feed;

/// A feed, how many items it gave, and whether it has ended.
#[derive(Drop)]
pub(crate) struct Inlet<F> {
    pub(crate) feed: F,
    pub(crate) items: u32,
    pub(crate) ended: bool,
}

impl<F: Feed> Inlet<F> {
    ghost use Rattle.fq_lanes.specs.Inlet.{GaveOne};

    /// The feed's next item, with its serial; `None` if it has ended.
    pub(crate) fn next(&mut self) -> Result<Option<(u32, F::Item)>, FeedFault>
        requires open { (self.old.ended ≡ false) × F.is_open self.old.feed }
        requires room { self.old.items + F.most self.old.feed ≤ 2147483648 }
        ensures ended { MatchResult result (λ o. MatchOption o (self.new.ended ≡ true) (λ _. self.new.ended ≡ false)) (λ _. self.new.ended ≡ true) }
        ensures gave { (feed : F) (xs : List F.Item) → GaveOne F.gives F.is_open F.may_fail F.most feed xs self.old →
            IfOk result (λ o. MatchOption o (GaveOne F.gives F.is_open F.may_fail F.most feed xs self.new)
            (λ e. (e.0 ≡ length xs) × GaveOne F.gives F.is_open F.may_fail F.most feed (xs ++ e.1 ∷ []) self.new)) }
        ensures fewer { IfOk result (λ o. IfSome o (λ _. F.most self.new.feed + 1 ≤ F.most self.old.feed)) }
        ensures fault { MatchResult result (λ _. Unit {0}) (λ e. e ≡ Read → F.may_fail self.old.feed) }
    {
        match self.feed.next() {
            Ok(Some(item)) => {
                let serial = self.items;
                self.items += 1;
                Ok(Some((serial, item)))
            }
            Ok(None) => {
                self.ended = true;
                Ok(None)
            }
            Err(fault) => {
                self.ended = true;
                Err(fault)
            }
        }
    }

    /// Calls the feed until it has ended, and drops its items. Answers the fault that it then ends with, if any; `None` if
    /// it had ended before.
    pub(crate) fn drain(&mut self) -> Option<FeedFault>
    where
        F::Item: Drop,
        requires { self.old.ended ≡ false → F.is_open self.old.feed }
        ensures ended { self.new.ended ≡ true }
        ensures fault { IfSome result (λ e. (self.old.ended ≡ false) × (e ≡ Read → F.may_fail self.old.feed)) }
    {
        if self.ended {
            return None;
        }
        self.ended = true;
        drain_feed(&mut self.feed)
    }
}

/// Calls a feed until it has ended, and drops its items. Answers the fault that ended it, if one did.
pub(crate) fn drain_feed<F: Feed>(feed: &mut F) -> Option<FeedFault>
where
    F::Item: Drop,
    requires { F.is_open feed.old }
    ensures { IfSome result (λ e. e ≡ Read → F.may_fail feed.old) }
{
    loop {
        match feed.next() {
            Ok(Some(_)) => {}
            Ok(None) => return None,
            Err(fault) => return Some(fault),
        }
    }
}
