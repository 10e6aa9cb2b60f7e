//! What still comes after a fault is taken and dropped.
ghost use Rattle.std.specs.Prelude.{◌≡◌, ◌≤◌, ℕ, List, [], Option, Some, All, IfSome, false, true, length, if◌then◌else◌};
ghost use Rattle.std.specs.List.{slice_get};
ghost use mathlib.Core.List.{IsPrefix};
ghost use Rattle.fq_lanes.specs.WorkerLanes.{worker_names, worker_views};
ghost use Rattle.fq_lanes.specs.FeedLane.{feed_names, feed_views, told_of};
ghost use Rattle.fq_lanes.specs.Faults.{Precedes, fault_at};
ghost use Rattle.fq_lanes.specs.HubView.{Grows, Tells, WorkerGrows, any_refused, told_in};
ghost use Rattle.fq_lanes.specs.Turns.{BlamesTold, PrecedesTold};
ghost use Rattle.fq_lanes.specs.declared.faults.FeedFault.{FeedFault};
ghost use Rattle.fq_lanes.specs.declared.faults.RunFault.TheVariants as run_fault;
ghost use Rattle.fq_lanes.specs.declared.feed_lane.FeedLane.{FeedLane as Lane};
ghost use Rattle.fq_lanes.specs.declared.messages.FromFeed.{FromFeed};
ghost use Rattle.fq_lanes.specs.declared.messages.FromFeed.TheVariants.{End};

use crate::faults::{RunFault, first_fault};
use crate::feed_lane::FeedLane;
use crate::feeds::MAX_FEEDS;
use crate::worker_lanes::WorkerLanes;
use std::sync::Wait;

/// Takes and drops what still comes, until every feed has ended and no job is outstanding. Of this fault and those of the feeds
/// and of the work, answers the one that takes precedence.
pub(crate) fn drain_all<R: Wait, X: Drop, O: Drop>(
    rt: &R,
    lanes: &mut Vec<FeedLane<'_, X>>,
    workers: &mut Vec<WorkerLanes<'_, X, O>>,
    fault: RunFault,
) -> RunFault
    requires few { length lanes.old.items ≤ MAX_FEEDS }
    ensures size { length lanes.new.items ≡ length lanes.old.items }
    ensures lanes { feed_names lanes.new.items ≡ feed_names lanes.old.items }
    ensures workers { worker_names workers.new.items ≡ worker_names workers.old.items }
    ensures told { Grows IsPrefix (told_in (feed_views lanes.old.items)) (told_in (feed_views lanes.new.items)) }
    ensures answered { Grows WorkerGrows (worker_views workers.old.items) (worker_views workers.new.items) }
    ensures ended { All (λ lane. lane.ended ≡ true) lanes.new.items }
    ensures idle { All (λ d. d.outstanding.items ≡ []) workers.new.items }
    ensures given { Precedes result fault }
    ensures theirs { (file : ℕ) (old new : Lane X) → slice_get lanes.old.items file ≡ Some old → slice_get lanes.new.items file ≡ Some new → old.ended ≡ false →
        (end : Option FeedFault) × Tells (told_of new) (End end) × IfSome end (λ e. Precedes result (fault_at e file)) }
    ensures refused { any_refused (worker_views workers.old.items) (worker_views workers.new.items) ≡ true → result ≡ run_fault.Memory }
    ensures blames { BlamesTold (told_in (feed_views lanes.old.items)) fault → BlamesTold (told_in (feed_views lanes.new.items)) result }
    ensures precedes { PrecedesTold (told_in (feed_views lanes.old.items)) fault → PrecedesTold (told_in (feed_views lanes.new.items)) result }
{
    let of_feeds = drain_lanes(rt, lanes, fault);
    drain_workers(rt, workers, of_feeds)
}

/// Takes and drops until every feed has ended. Of this fault and theirs, answers the one that takes precedence.
pub(crate) fn drain_lanes<R: Wait, X: Drop>(
    rt: &R,
    lanes: &mut Vec<FeedLane<'_, X>>,
    fault: RunFault,
) -> RunFault
    requires few { length lanes.old.items ≤ MAX_FEEDS }
    ensures size { length lanes.new.items ≡ length lanes.old.items }
    ensures names { feed_names lanes.new.items ≡ feed_names lanes.old.items }
    ensures grows { Grows IsPrefix (told_in (feed_views lanes.old.items)) (told_in (feed_views lanes.new.items)) }
    ensures ended { All (λ lane. lane.ended ≡ true) lanes.new.items }
    ensures given { Precedes result fault }
    ensures theirs { (file : ℕ) (old new : Lane X) → slice_get lanes.old.items file ≡ Some old → slice_get lanes.new.items file ≡ Some new → old.ended ≡ false →
        (end : Option FeedFault) × Tells (told_of new) (End end) × IfSome end (λ e. Precedes result (fault_at e file)) }
    ensures blames { BlamesTold (told_in (feed_views lanes.old.items)) fault → BlamesTold (told_in (feed_views lanes.new.items)) result }
    ensures precedes { PrecedesTold (told_in (feed_views lanes.old.items)) fault → PrecedesTold (told_in (feed_views lanes.new.items)) result }
{
    let mut first = fault;
    for file in 0..lanes.len() {
        let other = lanes[file].drain(rt);
        first = first_fault(first, other, file as u16);
    }
    first
}

// Takes and drops until no job is outstanding. Answers `Memory` if the work on one of them did, and otherwise the fault
// that was known.
fn drain_workers<R: Wait, X, O: Drop>(
    rt: &R,
    workers: &mut Vec<WorkerLanes<'_, X, O>>,
    fault: RunFault,
) -> RunFault
    ensures names { worker_names workers.new.items ≡ worker_names workers.old.items }
    ensures grows { Grows WorkerGrows (worker_views workers.old.items) (worker_views workers.new.items) }
    ensures idle { All (λ d. d.outstanding.items ≡ []) workers.new.items }
    ensures fault { result ≡ (if any_refused (worker_views workers.old.items) (worker_views workers.new.items) then run_fault.Memory else fault) }
    ensures blames { (messages : List (List (FromFeed X))) → BlamesTold messages fault → BlamesTold messages result }
{
    let mut first = fault;
    for worker in 0..workers.len() {
        if workers[worker].drain(rt) {
            first = RunFault::Memory;
        }
    }
    first
}
