//! The steps of the hub: it polls a feed, or a worker.
ghost use Rattle.std.specs.Prelude.{◌≡◌, ◌≤◌, ◌<◌, ◌==◌, ℕ, List, All, Some, length, IfNone, IfSome};
ghost use Rattle.fq_lanes.specs.WorkerLanes.{worker_names, worker_views};
ghost use Rattle.std.specs.List.{list_all, slice_get};
ghost use Rattle.fq_lanes.specs.FeedLane.{feed_names, feed_views};
ghost use Rattle.fq_lanes.specs.HubView.{FeedView, told_in};
ghost use Rattle.fq_lanes.specs.Turns.{InTurn, HubGoesOn, RunDone};
ghost use Rattle.fq_lanes.specs.declared.events.Event.{Event};
ghost use Rattle.fq_lanes.specs.declared.worker_lanes.WorkerLanes.{WorkerLanes as Lanes};

use crate::faults::{RunFault, feed_fault};
use crate::feed_lane::{FeedLane, Polled};
use crate::feeds::MAX_FEEDS;
use crate::hub::Hub;
use crate::job::Job;
use crate::tails::Tail;
use crate::worker_lanes::{MOST_OUTSTANDING, WorkerLanes};
use std::sync::Wait;
use std::thread::Parker;

/// Polls a feed: a worker gets its next item, if there is one, or its file is closed. A feed is passed over
/// if the sink has no slot for its next item yet.
fn poll_feed<R: Wait, X: Drop, S: Tail>(
    rt: &R,
    lanes: &mut Vec<FeedLane<'_, X>>,
    workers: &mut Vec<WorkerLanes<'_, X, S::Out>>,
    hub: &mut Hub<S, S::Out>,
    file: u16,
    worker: usize,
) -> Result<bool, RunFault>
where
    S::Out: Drop,
    requires file { file < length lanes.old.items }
    requires worker { (d : Lanes X S.Out) × (slice_get workers.old.items worker ≡ Some d) × (length d.outstanding.items < 4) }
    requires turn { (first : S) × (events : List (Event S.Out)) × InTurn S.takes first (feed_views lanes.old.items) (worker_views workers.old.items) hub.old events }
    ensures sizes { (length lanes.new.items ≡ length lanes.old.items) × (length workers.new.items ≡ length workers.old.items) }
    ensures lanes { feed_names lanes.new.items ≡ feed_names lanes.old.items }
    ensures workers { worker_names workers.new.items ≡ worker_names workers.old.items }
    ensures turn { (first : S) (events : List (Event S.Out)) → InTurn S.takes first (feed_views lanes.old.items) (worker_views workers.old.items) hub.old events →
        HubGoesOn S.takes S.refuses first (feed_views lanes.new.items) (worker_views workers.new.items) hub.new result }
{
    let lane = &mut lanes[file as usize];
    if hub.sink.is_far(file, lane.items) {
        return Ok(false);
    }
    match lane.next() {
        Polled::Nothing => Ok(false),
        Polled::Item(serial, item) => match workers[worker].give(rt, Job { file, serial, item }) {
            Ok(()) => Ok(true),
            Err(_) => Err(RunFault::Memory),
        },
        Polled::End(items) => match hub.close(file, items) {
            Ok(()) => Ok(true),
            Err(_) => Err(RunFault::Memory),
        },
        Polled::TooMany => Err(RunFault::Memory),
        Polled::Fault(fault) => Err(feed_fault(fault, file)),
    }
}

/// Takes a worker's answer, if one is there, and offers it under the numbers of its oldest outstanding job.
fn poll_worker<X, S: Tail>(
    workers: &mut Vec<WorkerLanes<'_, X, S::Out>>,
    hub: &mut Hub<S, S::Out>,
    worker: usize,
) -> Result<bool, RunFault>
where
    S::Out: Drop,
    requires worker { worker < length workers.old.items }
    requires turn { (first : S) × (vs : List (FeedView X)) × (events : List (Event S.Out)) × InTurn S.takes first vs (worker_views workers.old.items) hub.old events }
    ensures size { length workers.new.items ≡ length workers.old.items }
    ensures workers { worker_names workers.new.items ≡ worker_names workers.old.items }
    ensures turn { (first : S) (vs : List (FeedView X)) (events : List (Event S.Out)) → InTurn S.takes first vs (worker_views workers.old.items) hub.old events →
        HubGoesOn S.takes S.refuses first vs (worker_views workers.new.items) hub.new result }
{
    match workers[worker].receive() {
        None => Ok(false),
        Some(((file, serial), Ok(out))) => match hub.offer(file, serial, out) {
            Ok(()) => Ok(true),
            Err(_) => Err(RunFault::Memory),
        },
        Some((_, Err(_))) => Err(RunFault::Memory),
    }
}

/// The worker with the fewest outstanding jobs, and the lowest of these, if it may have one more.
fn free_worker<X, O>(workers: &Vec<WorkerLanes<'_, X, O>>) -> Option<usize>
    ensures free { IfSome result (λ w. (d : Lanes X O) × (slice_get workers.now.items w ≡ Some d) × (length d.outstanding.items < 4)
        × All (λ e. length d.outstanding.items ≤ length e.outstanding.items) workers.now.items
        × ((j : ℕ) (e : Lanes X O) → j < w → slice_get workers.now.items j ≡ Some e → length d.outstanding.items < length e.outstanding.items)) }
    ensures full { IfNone result (All (λ e. 4 ≤ length e.outstanding.items) workers.now.items) }
{
    let mut free = None;
    let mut fewest = MOST_OUTSTANDING;
    for worker in 0..workers.len() {
        let outstanding = workers[worker].outstanding.len();
        if outstanding < fewest {
            fewest = outstanding;
            free = Some(worker);
        }
    }
    free
}

/// Polls each feed once, in file order, while a worker may have one more job. Answers whether there was something.
fn poll_feeds<R: Wait, X: Drop, S: Tail>(
    rt: &R,
    lanes: &mut Vec<FeedLane<'_, X>>,
    workers: &mut Vec<WorkerLanes<'_, X, S::Out>>,
    hub: &mut Hub<S, S::Out>,
) -> Result<bool, RunFault>
where
    S::Out: Drop,
    requires few { length lanes.old.items ≤ MAX_FEEDS }
    requires turn { (first : S) × (events : List (Event S.Out)) × InTurn S.takes first (feed_views lanes.old.items) (worker_views workers.old.items) hub.old events }
    ensures sizes { (length lanes.new.items ≡ length lanes.old.items) × (length workers.new.items ≡ length workers.old.items) }
    ensures lanes { feed_names lanes.new.items ≡ feed_names lanes.old.items }
    ensures workers { worker_names workers.new.items ≡ worker_names workers.old.items }
    ensures turn { (first : S) (events : List (Event S.Out)) → InTurn S.takes first (feed_views lanes.old.items) (worker_views workers.old.items) hub.old events →
        HubGoesOn S.takes S.refuses first (feed_views lanes.new.items) (worker_views workers.new.items) hub.new result }
{
    let mut found = false;
    for file in 0..lanes.len() {
        let Some(worker) = free_worker(workers) else {
            return Ok(found);
        };
        match poll_feed(rt, lanes, workers, hub, file as u16, worker) {
            Ok(one) => found = found || one,
            Err(fault) => return Err(fault),
        }
    }
    Ok(found)
}

/// A turn: polls each worker once, and each feed before that, so that a worker has its next job while the tail works. Answers
/// whether there was something.
fn take_turn<R: Wait, X: Drop, S: Tail>(
    rt: &R,
    lanes: &mut Vec<FeedLane<'_, X>>,
    workers: &mut Vec<WorkerLanes<'_, X, S::Out>>,
    hub: &mut Hub<S, S::Out>,
) -> Result<bool, RunFault>
where
    S::Out: Drop,
    requires few { length lanes.old.items ≤ MAX_FEEDS }
    requires turn { (first : S) × (events : List (Event S.Out)) × InTurn S.takes first (feed_views lanes.old.items) (worker_views workers.old.items) hub.old events }
    ensures sizes { (length lanes.new.items ≡ length lanes.old.items) × (length workers.new.items ≡ length workers.old.items) }
    ensures lanes { feed_names lanes.new.items ≡ feed_names lanes.old.items }
    ensures workers { worker_names workers.new.items ≡ worker_names workers.old.items }
    ensures turn { (first : S) (events : List (Event S.Out)) → InTurn S.takes first (feed_views lanes.old.items) (worker_views workers.old.items) hub.old events →
        HubGoesOn S.takes S.refuses first (feed_views lanes.new.items) (worker_views workers.new.items) hub.new result }
{
    let mut found = false;
    for worker in 0..workers.len() {
        let of_feeds = poll_feeds(rt, lanes, workers, hub)?;
        let of_worker = poll_worker(workers, hub, worker)?;
        found = found || of_feeds || of_worker;
    }
    Ok(found)
}

/// Whether every feed has ended.
fn have_ended<X>(lanes: &Vec<FeedLane<'_, X>>) -> bool
    ensures { result ≡ list_all (λ lane. lane.ended) lanes.now.items }
{
    lanes.iter().all(|lane| lane.ended)
}

/// Whether no job is outstanding.
fn are_idle<X, O>(workers: &Vec<WorkerLanes<'_, X, O>>) -> bool
    ensures { result ≡ list_all (λ d. length d.outstanding.items == 0) workers.now.items }
{
    workers.iter().all(|worker| worker.outstanding.is_empty())
}

/// Turns of the hub until every feed has ended and no job is outstanding, or to the first fault. After a turn in which it found
/// nothing the hub sleeps until a thread has put something.
pub(crate) fn run_turns<R: Wait, X: Drop, S: Tail>(
    rt: &R,
    parker: &Parker,
    lanes: &mut Vec<FeedLane<'_, X>>,
    workers: &mut Vec<WorkerLanes<'_, X, S::Out>>,
    hub: &mut Hub<S, S::Out>,
) -> Result<(), RunFault>
where
    S::Out: Drop,
    requires few { length lanes.old.items ≤ MAX_FEEDS }
    requires turn { (first : S) × (events : List (Event S.Out)) × InTurn S.takes first (feed_views lanes.old.items) (worker_views workers.old.items) hub.old events }
    ensures size { length lanes.new.items ≡ length lanes.old.items }
    ensures lanes { feed_names lanes.new.items ≡ feed_names lanes.old.items }
    ensures workers { worker_names workers.new.items ≡ worker_names workers.old.items }
    ensures done { (first : S) (events : List (Event S.Out)) → InTurn S.takes first (feed_views lanes.old.items) (worker_views workers.old.items) hub.old events →
        RunDone S.takes S.refuses first (told_in (feed_views lanes.new.items)) (worker_views workers.new.items) hub.new result }
{
    for _ in rt.forever() {
        let found = take_turn(rt, lanes, workers, hub)?;
        if have_ended(lanes) && are_idle(workers) {
            return Ok(());
        }
        if !found {
            parker.park(rt);
        }
    }
    unreachable!()
}
