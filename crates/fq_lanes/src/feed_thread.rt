//! The thread of a feed.
ghost use Rattle.std.specs.Prelude.{◌≡◌, [], ◌∷◌, ◌++◌};
ghost use Rattle.fq_lanes.specs.Lane.{put_items, SamePut};
ghost use Rattle.fq_lanes.specs.FeedThread.{ToldAll};

use crate::feeds::Feed;
use crate::lanes::Put;
use crate::messages::FromFeed;
use crate::sleeping::Waiter;
use std::sync::Wait;

/// Puts an item, and wakes the thread that takes.
pub(crate) fn put_waiting<R: Wait, T>(rt: &R, waiter: Waiter<'_>, put: &mut Put<T>, item: T)
    ensures lane { SamePut put.old put.new }
    ensures put { put_items put.new ≡ put_items put.old ++ item ∷ [] }
{
    put_quietly(rt, waiter, put, item);
    waiter.wake();
}

/// Puts an item. The thread that takes is woken only where the lane is full, and then this one waits: the caller wakes it
/// later, before it sleeps.
pub(crate) fn put_quietly<R: Wait, T>(rt: &R, waiter: Waiter<'_>, put: &mut Put<T>, item: T)
    ensures lane { SamePut put.old put.new }
    ensures put { put_items put.new ≡ put_items put.old ++ item ∷ [] }
{
    let mut item = item;
    for _ in rt.forever() {
        match put.put(item) {
            Ok(()) => return,
            Err(back) => item = back,
        }
        waiter.wake();
        waiter.wait(rt);
    }
    unreachable!()
}

/// Puts an item, and wakes the thread that takes once there is no more room. While there is, this thread goes on.
fn put_ahead<R: Wait, T>(rt: &R, waiter: Waiter<'_>, put: &mut Put<T>, item: T)
    ensures lane { SamePut put.old put.new }
    ensures put { put_items put.new ≡ put_items put.old ++ item ∷ [] }
{
    put_quietly(rt, waiter, put, item);
    if put.room() == 0 {
        waiter.wake();
    }
}

/// Puts what the feed gives, and its end.
pub(crate) fn run_feed<R: Wait, F: Feed + Drop>(
    rt: &R,
    waiter: Waiter<'_>,
    feed: F,
    put: Put<FromFeed<F::Item>>,
) -> Put<FromFeed<F::Item>>
    requires { F.is_open feed × (put_items put ≡ []) }
    ensures lane { SamePut put result }
    ensures scanned { ToldAll F.gives F.may_fail feed (put_items result) }
{
    let mut feed = feed;
    let mut put = put;
    for _ in rt.forever() {
        match feed.next() {
            Ok(Some(item)) => put_ahead(rt, waiter, &mut put, FromFeed::Item(item)),
            Ok(None) => {
                put_waiting(rt, waiter, &mut put, FromFeed::End(None));
                return put;
            }
            Err(fault) => {
                put_waiting(rt, waiter, &mut put, FromFeed::End(Some(fault)));
                return put;
            }
        }
    }
    unreachable!()
}
