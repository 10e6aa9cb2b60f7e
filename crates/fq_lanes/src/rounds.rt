//! The engine by rounds of workers.
ghost use Rattle.std.specs.Prelude.{◌≡◌, ◌≤◌, ◌<◌, ◌+◌, List, [], map, length, All, IfOk, IfErr, OnErr, MatchResult, false, true};
ghost use Rattle.fq_lanes.specs.Engine.{Finishes, StopsEarly, BlamesFeed};
ghost use Rattle.fq_lanes.specs.Faults.{Precedes};
ghost use Rattle.fq_lanes.specs.Inlet.{opened, DrainsOne};
ghost use Rattle.fq_lanes.specs.Ledger.{OffersWorked};
ghost use Rattle.fq_lanes.specs.Beside.{Each};
ghost use Rattle.fq_lanes.specs.Round.{InRound, Faulted};
ghost use Rattle.fq_lanes.specs.declared.events.Event.{Event};
ghost use Rattle.fq_lanes.specs.declared.inlet.Inlet.{Inlet};

use crate::faults::{RunFault, first_fault};
use crate::feeds::{Feed, MAX_FEEDS};
use crate::hub::Hub;
use crate::inlet::{Inlet, drain_feed};
use crate::reports::Report;
use crate::round::{collect_round, work_jobs};
use crate::sinks::Sink;
use crate::tails::Tail;
use crate::work::{MAX_WORKERS, Work};
use std::alloc::Global;
use std::sync::Wait;
use std::thread::Threads;

/// The feeds, of which nothing was read. If an allocation fails, they are handed back.
fn open_inlets<F: Feed + Drop>(alloc: Global, feeds: Vec<F>) -> Result<Vec<Inlet<F>>, Vec<F>>
    ensures { MatchResult result (λ inlets. inlets.items ≡ map opened feeds.items) (λ back. back.items ≡ feeds.items) }
{
    let Ok(mut inlets) = Vec::with_capacity(alloc, feeds.len()) else {
        return Err(feeds);
    };
    for feed in feeds {
        let Ok(()) = inlets.push(Inlet {
            feed,
            items: 0,
            ended: false,
        }) else {
            unreachable!()
        };
    }
    Ok(inlets)
}

/// Drains feeds of which nothing was read.
fn drain_feeds<F: Feed + Drop>(feeds: Vec<F>)
where
    F::Item: Drop,
    requires { All F.is_open feeds.items }
{
    for mut feed in feeds {
        let _fault = drain_feed(&mut feed);
    }
}

/// Drains the feeds that have not ended. Of this fault and theirs, answers the one that takes precedence.
fn drain_inlets<F: Feed>(inlets: &mut Vec<Inlet<F>>, fault: RunFault) -> RunFault
where
    F::Item: Drop,
    requires few { length inlets.old.items ≤ MAX_FEEDS }
    requires open { All (λ inlet. inlet.ended ≡ false → F.is_open inlet.feed) inlets.old.items }
    ensures ended { All (λ inlet. inlet.ended ≡ true) inlets.new.items }
    ensures given { Precedes result fault }
    ensures blames { (feeds : List F) → Each (DrainsOne F.is_open F.may_fail) feeds inlets.old.items → BlamesFeed F.may_fail feeds fault → BlamesFeed F.may_fail feeds result }
{
    let mut first = fault;
    for file in 0..inlets.len() {
        let other = inlets[file].drain();
        first = first_fault(first, other, file as u16);
    }
    first
}

/// Rounds until every feed has ended and all the work was handed on.
fn run_open<R: Threads + Sync, F: Feed, W: Work<Item = F::Item> + Sync, S: Tail<Out = W::Out>>(
    rt: &R,
    alloc: Global,
    inlets: &mut Vec<Inlet<F>>,
    work: &W,
    hub: &mut Hub<S, W::Out>,
    workers: u16,
) -> Result<(), RunFault>
where
    F::Item: Drop + Send,
    W::Out: Drop + Send,
    requires few { length inlets.old.items ≤ MAX_FEEDS }
    requires workers { 0 < workers }
    requires round { (feeds : List F) × (first : S) × (items : List (List F.Item)) × (events : List (Event W.Out))
        × InRound F.gives F.is_open F.may_fail F.most S.takes feeds first items events inlets.old.items hub.old []
        × OffersWorked (W.gives work.now) items events }
    ensures len { length inlets.new.items ≡ length inlets.old.items }
    ensures runs { (feeds : List F) (first : S) (items : List (List F.Item)) (events : List (Event W.Out)) →
        InRound F.gives F.is_open F.may_fail F.most S.takes feeds first items events inlets.old.items hub.old [] →
        OffersWorked (W.gives work.now) items events →
        MatchResult result
        (λ _. Finishes F.gives (W.gives work.now) S.takes feeds first hub.new.trace.items hub.new.tail)
        (λ fault. StopsEarly F.gives (W.gives work.now) S.takes S.refuses feeds first hub.new.tail × Faulted F.is_open F.may_fail feeds inlets.new.items fault) }
{
    loop {
        let jobs = collect_round(alloc, inlets, hub, workers)?;
        if jobs.is_empty() {
            return Ok(());
        }
        let Ok(()) = work_jobs(rt, work, hub, jobs) else {
            return Err(RunFault::Memory);
        };
    }
}

/// Runs the work on the items of the feeds in rounds of workers, hands the answers to the tail by file, then serial,
/// and hands the tail back.
///
/// In a round the hub goes round the feeds in file order, one item from each that has not ended, until it has as many
/// items as workers or no feed may give one. A feed may not if its next serial is at least [`SLOTS`](crate::SLOTS) past
/// the number of its items that the tail was handed. The items are worked by as many threads as can be made. So a round
/// is as slow as its slowest item, and memory holds a round's items and at most `SLOTS` answers of each file that wait
/// for an earlier one.
///
/// `feeds[f]` is file f. With no fault the tail has taken the work on each feed's items, each once, by file, then serial.
/// After a fault the tail has taken a prefix of that. Once a fault is known nothing more is offered; the feeds that have
/// not ended are called until they have, and their items dropped. `RunFault::Memory` takes precedence over
/// `RunFault::Read`, which names the lowest file whose feed failed.
pub fn run_rounds<
    R: Threads + Wait + Sync,
    F: Feed + Drop,
    W: Work<Item = F::Item> + Sync,
    S: Tail<Out = W::Out> + Drop,
>(
    rt: &R,
    alloc: Global,
    feeds: Vec<F>,
    work: &W,
    tail: S,
    workers: u16,
) -> (S, Result<Report, RunFault>)
where
    F::Item: Drop + Send,
    W::Out: Drop + Send,
    requires feeds { length feeds.items ≤ MAX_FEEDS }
    requires open { All F.is_open feeds.items }
    requires workers { (1 ≤ workers) × (workers ≤ MAX_WORKERS) }
    ensures done { IfOk result.1 (λ report. Finishes F.gives (W.gives work.now) S.takes feeds.items tail report.trace.items result.0) }
    ensures stopped { OnErr result.1 (StopsEarly F.gives (W.gives work.now) S.takes S.refuses feeds.items tail result.0) }
    ensures fault { IfErr result.1 (λ fault. BlamesFeed F.may_fail feeds.items fault) }
{
    let files = feeds.len() as u16;
    let mut inlets = match open_inlets(alloc, feeds) {
        Ok(inlets) => inlets,
        Err(feeds) => {
            drain_feeds(feeds);
            return (tail, Err(RunFault::Memory));
        }
    };
    let Ok(sink) = Sink::new(alloc, files) else {
        return (tail, Err(drain_inlets(&mut inlets, RunFault::Memory)));
    };
    let mut hub = Hub {
        sink,
        tail,
        trace: Vec::new(alloc),
    };
    let outcome = run_open(rt, alloc, &mut inlets, work, &mut hub, workers);
    let Hub {
        sink: _,
        tail,
        trace,
    } = hub;
    match outcome {
        Ok(()) => (tail, Ok(Report { trace })),
        Err(fault) => (tail, Err(drain_inlets(&mut inlets, fault))),
    }
}
