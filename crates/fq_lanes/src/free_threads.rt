//! The engine by free threads.
ghost use Rattle.std.specs.Prelude.{◌≡◌, ◌≤◌, ◌+◌, List, [], All, IfOk, IfErr, OnOk, OnErr, true, length};
ghost use Rattle.std.specs.Vec.Iter.{into_iter_items};
ghost use Rattle.fq_lanes.specs.WorkerLanes.{worker_names, worker_views, AreNewWorkers};
ghost use Rattle.fq_lanes.specs.Engine.{Finishes, StopsEarly, BlamesFeed};
ghost use Rattle.fq_lanes.specs.FeedLane.{feed_names, tolds_of, AreNewFeeds};
ghost use Rattle.fq_lanes.specs.Beside.{Each};
ghost use Rattle.fq_lanes.specs.FeedThread.{Began};
ghost use Rattle.fq_lanes.specs.Sink.{HasAccepted, file_count};
ghost use Rattle.fq_lanes.specs.HubView.{WorkerView, AllReplied};
ghost use Rattle.fq_lanes.specs.Turns.{RunDone};
ghost use Rattle.fq_lanes.specs.declared.messages.FromFeed.{FromFeed};

use crate::drains::drain_all;
use crate::faults::{Memory, RunFault};
use crate::feed_lane::FeedLane;
use crate::feeds::{Feed, MAX_FEEDS};
use crate::gates::Gate;
use crate::hub::Hub;
use crate::reports::Report;
use crate::sinks::Sink;
use crate::sleeping::Parkers;
use crate::tails::Tail;
use crate::threads::{Core, Crew, start_feeds};
use crate::turns::run_turns;
use crate::work::{MAX_WORKERS, Work};
use crate::worker_lanes::WorkerLanes;
use std::alloc::Global;
use std::sync::Wait;
use std::thread;
use std::thread::{Parker, Threads};

/// The hub, and how its turns ended.
#[derive(Drop)]
struct Run<'s, S, O> {
    parker: &'s Parker,
    hub: Hub<S, O>,
    outcome: Result<(), RunFault>,
}

/// The hub's turns, and after a fault all that still comes is taken and dropped.
fn run_hub<R: Wait, X: Drop, S: Tail>(
    rt: &R,
    parker: &Parker,
    lanes: &mut Vec<FeedLane<'_, X>>,
    workers: &mut Vec<WorkerLanes<'_, X, S::Out>>,
    hub: &mut Hub<S, S::Out>,
) -> Result<(), RunFault>
where
    S::Out: Drop,
    requires few { length lanes.old.items ≤ MAX_FEEDS }
    requires files { file_count hub.old.sink ≡ length lanes.old.items }
    requires accepted { HasAccepted hub.old.sink [] 0 }
    requires trace { hub.old.trace.items ≡ [] }
    requires lanes { AreNewFeeds lanes.old.items }
    requires workers { AreNewWorkers workers.old.items }
    ensures lanes { feed_names lanes.new.items ≡ feed_names lanes.old.items }
    ensures workers { worker_names workers.new.items ≡ worker_names workers.old.items }
    ensures done { RunDone S.takes S.refuses hub.old.tail (tolds_of lanes.new.items) (worker_views workers.new.items) hub.new result }
    ensures ended { OnErr result (All (λ lane. lane.ended ≡ true) lanes.new.items) }
    ensures idle { OnErr result (All (λ d. d.outstanding.items ≡ []) workers.new.items) }
{
    match run_turns(rt, parker, lanes, workers, hub) {
        Ok(()) => Ok(()),
        Err(fault) => Err(drain_all(rt, lanes, workers, fault)),
    }
}

impl<X: Drop, O: Drop, S: Tail<Out = O>> Core<X, O> for Run<'_, S, O> {
    ghost use Rattle.fq_lanes.specs.declared.feeds.TheConstants.{MAX_FEEDS};

    ghost can_run = { λ run n. (n ≤ MAX_FEEDS) × (file_count run.hub.sink ≡ n) × HasAccepted run.hub.sink [] 0 × (run.hub.trace.items ≡ []) };

    ghost done = { λ old messages ds new. RunDone S.takes S.refuses old.hub.tail messages ds new.hub new.outcome };

    fn run<R: Wait>(
        &mut self,
        rt: &R,
        lanes: &mut Vec<FeedLane<'_, X>>,
        workers: &mut Vec<WorkerLanes<'_, X, O>>,
    ) {
        self.outcome = run_hub(rt, self.parker, lanes, workers, &mut self.hub);
    }
}

/// Nothing was taken yet, so a run may stop here.
fn may_stop<F: Feed, W: Work<Item = F::Item>, S: Tail<Out = W::Out>>(
    feeds: &Vec<F>,
    work: &W,
    tail: &S,
)
    ensures { StopsEarly F.gives (W.gives work.now) S.takes S.refuses feeds.now.items tail.now tail.now }
{}

/// Starts all threads, runs the core, and joins them.
fn run_threads<
    'e,
    R: Threads + Wait + Sync,
    F: Feed + Drop + Send + 'e,
    W: Work<Item = F::Item> + Sync,
    G: Gate<W::Out> + Sync,
    H: Core<F::Item, W::Out> + Drop,
>(crew: &Crew<'e, R, W, G>, feeds: Vec<F>, hub: H) -> (H, Result<(), Memory>)
where
    F::Item: Drop + Send + 'e,
    W::Out: Drop + Send + 'e,
    requires few { length feeds.items ≤ MAX_FEEDS }
    requires parkers { (length crew.now.parkers.now.feeds.items ≡ length feeds.items) × (length crew.now.parkers.now.workers.items ≡ crew.now.workers) }
    requires open { All F.is_open feeds.items }
    requires hub { H.can_run hub (length feeds.items) }
    ensures refused { OnErr result.1 (result.0 ≡ hub) }
    ensures done { OnOk result.1 ((told : List (List (FromFeed F.Item))) × Each (Began F.gives F.may_fail) feeds.items told
        × ((ds : List (WorkerView F.Item W.Out)) × AllReplied (W.gives crew.now.work.now) ds × H.done hub told ds result.0)) }
{
    let feeds = feeds.into_iter();
    thread::scope(
        thread::scope_env(),
        crew.rt,
        move |scope| -> (H, Result<(), Memory>)
            requires { All F.is_open (into_iter_items feeds) × (length (into_iter_items feeds) ≤ MAX_FEEDS) × (length crew.now.parkers.now.feeds.items ≡ length (into_iter_items feeds)) × (length crew.now.parkers.now.workers.items ≡ crew.now.workers) × H.can_run hub (length (into_iter_items feeds)) }
            ensures refused { OnErr result.1 (result.0 ≡ hub) }
            ensures done { OnOk result.1 ((told : List (List (FromFeed F.Item))) × Each (Began F.gives F.may_fail) (into_iter_items feeds) told
                × ((ds : List (WorkerView F.Item W.Out)) × AllReplied (W.gives crew.entry.now.work.now) ds × H.done hub told ds result.0)) }
        {
            let mut feeds = feeds;
            let mut lanes = Vec::new(crew.alloc);
            let mut hub = hub;
            let outcome = start_feeds(scope, crew, &mut feeds, &mut lanes, &mut hub);
            (hub, outcome)
        },
    )
}

/// Runs the work on the items of the feeds in free threads, one for each feed and one for each worker, hands the answers to
/// the tail by file, then serial, and hands the tail back.
///
/// `feeds[f]` is file f. With no fault the tail has taken the work on each feed's items, each once, by file, then serial.
/// After a fault the tail has taken a prefix of that. Once a fault is known nothing more is offered; what still comes from
/// the feeds is taken and dropped until they have ended. `RunFault::Memory` takes precedence over `RunFault::Read`, which
/// names the lowest file whose feed failed. If a lane or a thread cannot be made, the feeds whose threads had started are
/// drained, and the answer is `RunFault::Memory`. If the sink or the parkers cannot be made, no feed is called, and the
/// answer is the same.
pub fn run_lanes<
    'e,
    R: Threads + Wait + Sync,
    F: Feed + Drop + Send + 'e,
    W: Work<Item = F::Item> + Sync,
    G: Gate<W::Out> + Sync,
    S: Tail<Out = W::Out> + Drop,
>(
    rt: &'e R,
    alloc: Global,
    feeds: Vec<F>,
    work: &'e W,
    gate: &'e G,
    tail: S,
    workers: u16,
) -> (S, Result<Report, RunFault>)
where
    F::Item: Drop + Send + 'e,
    W::Out: Drop + Send + 'e,
    requires feeds { length feeds.items ≤ MAX_FEEDS }
    requires open { All F.is_open feeds.items }
    requires workers { (1 ≤ workers) × (workers ≤ MAX_WORKERS) }
    ensures done { IfOk result.1 (λ report. Finishes F.gives (W.gives work.now) S.takes feeds.items tail report.trace.items result.0) }
    ensures stopped { OnErr result.1 (StopsEarly F.gives (W.gives work.now) S.takes S.refuses feeds.items tail result.0) }
    ensures fault { IfErr result.1 (λ fault. BlamesFeed F.may_fail feeds.items fault) }
{
    may_stop(&feeds, work, &tail);
    let files = feeds.len() as u16;
    let Ok(sink) = Sink::new(alloc, files) else {
        return (tail, Err(RunFault::Memory));
    };
    let Ok(parkers) = Parkers::new(alloc, feeds.len(), workers as usize) else {
        return (tail, Err(RunFault::Memory));
    };
    let run = Run {
        parker: parkers.hub(),
        hub: Hub {
            sink,
            tail,
            trace: Vec::new(alloc),
        },
        outcome: Ok(()),
    };
    let crew = Crew {
        rt,
        alloc,
        parkers: &parkers,
        work,
        gate,
        workers,
    };
    let (run, started) = run_threads(&crew, feeds, run);
    let Run {
        parker: _,
        hub,
        outcome,
    } = run;
    let Hub {
        sink: _,
        tail,
        trace,
    } = hub;
    match started {
        Err(_) => (tail, Err(RunFault::Memory)),
        Ok(()) => match outcome {
            Ok(()) => (tail, Ok(Report { trace })),
            Err(fault) => (tail, Err(fault)),
        },
    }
}
