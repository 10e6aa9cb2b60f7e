//! The threads of the feeds, and then those of the workers.
ghost use Rattle.std.specs.Prelude.{◌≡◌, ◌<◌, ◌≤◌, ◌+◌, ℕ, List, [], ◌∷◌, ◌++◌, IfOk, OnOk, OnErr, All, Result, length};
ghost use Rattle.std.specs.Vec.Iter.{into_iter_items};
ghost use Rattle.fq_lanes.specs.WorkerLanes.{worker_name, worker_names, worker_view, worker_views, idle_worker, AreNewWorkers};
ghost use Rattle.fq_lanes.specs.FeedLane.{feed_names, feed_view, new_feed, told_of, tolds_of, AreNewFeeds};
ghost use Rattle.fq_lanes.specs.Lane.{Name, put_items, put_name, take_name, taken_items, IsLane, SamePut, SameTake};
ghost use Rattle.fq_lanes.specs.Beside.{Each};
ghost use Rattle.fq_lanes.specs.FeedThread.{ToldAll, Began};
ghost use Rattle.fq_lanes.specs.HubView.{WorkerView, AllReplied};
ghost use Rattle.fq_lanes.specs.WorkerThread.{Replied};
ghost use Rattle.fq_lanes.specs.declared.messages.FromFeed.{FromFeed};

use crate::drains::drain_lanes;
use crate::faults::{Memory, RunFault};
use crate::feed_lane::FeedLane;
use crate::feed_thread::run_feed;
use crate::feeds::{Feed, MAX_FEEDS};
use crate::gates::Gate;
use crate::lanes::{Put, Take, lane, rejoin};
use crate::messages::{FromFeed, ToWorker};
use crate::sleeping::{Parkers, Waiter};
use crate::work::Work;
use crate::worker_lanes::{MOST_OUTSTANDING, WorkerLanes};
use crate::worker_thread::run_worker;
use std::alloc::Global;
use std::snapshot::Snapshot;
use std::sync::Wait;
use std::thread::{Promise, PromisedHandle, Scope, Threads};
use std::vec::IntoIter;

/// How many items a feed's thread may be ahead of the hub, besides the one in its hand.
const ITEMS_AHEAD: usize = 2;

/// What runs once all threads have started.
pub(crate) trait Core<X, O> {
    /// It can run over so many feeds' lanes.
    ghost can_run: { Self → ℕ → Type 0 };

    /// What the run did, by what went through its ends of the lanes.
    ghost done: { Self → List (List (FromFeed X)) → List (WorkerView X O) → Self → Type 0 };

    /// Runs, to the end of all that comes from the lanes.
    fn run<R: Wait>(
        &mut self,
        rt: &R,
        lanes: &mut Vec<FeedLane<'_, X>>,
        workers: &mut Vec<WorkerLanes<'_, X, O>>,
    )
        requires run { can_run self.old (length lanes.old.items) }
        requires lanes { AreNewFeeds lanes.old.items }
        requires workers { AreNewWorkers workers.old.items }
        ensures lanes { feed_names lanes.new.items ≡ feed_names lanes.old.items }
        ensures workers { worker_names workers.new.items ≡ worker_names workers.old.items }
        ensures done { done self.old (tolds_of lanes.new.items) (worker_views workers.new.items) self.new };
}

/// What the threads of a run share, and how many workers there are.
#[derive(Drop)]
pub(crate) struct Crew<'s, R, W, G> {
    pub(crate) rt: &'s R,
    pub(crate) alloc: Global,
    pub(crate) parkers: &'s Parkers,
    pub(crate) work: &'s W,
    pub(crate) gate: &'s G,
    pub(crate) workers: u16,
}

/// What a worker's thread promises of its ends.
#[derive(Drop)]
struct WorkerPromise<W: Work> {
    work: Snapshot<W>,
    jobs: Snapshot<Take<ToWorker<W::Item>>>,
    answers: Snapshot<Put<Result<W::Out, Memory>>>,
}

impl<W: Work> Promise<(Take<ToWorker<W::Item>>, Put<Result<W::Out, Memory>>)> for WorkerPromise<W> {
    ghost kept_by = { λ p r. SameTake p.jobs.value r.0 × SamePut p.answers.value r.1 × Replied (W.gives p.work.value) (taken_items r.0) (put_items r.1) };
}

/// What a feed's thread promises of its end.
#[derive(Drop)]
struct FeedPromise<F: Feed> {
    feed: Snapshot<F>,
    put: Snapshot<Put<FromFeed<F::Item>>>,
}

impl<F: Feed> Promise<Put<FromFeed<F::Item>>> for FeedPromise<F> {
    ghost kept_by = { λ p r. SamePut p.put.value r × ToldAll F.gives F.may_fail p.feed.value (put_items r) };
}

/// The thread of a worker.
type WorkerHandle<W> = PromisedHandle<
    (
        Take<ToWorker<<W as Work>::Item>>,
        Put<Result<<W as Work>::Out, Memory>>,
    ),
    WorkerPromise<W>,
>;

/// The thread of a feed.
type FeedHandle<F> = PromisedHandle<Put<FromFeed<<F as Feed>::Item>>, FeedPromise<F>>;

/// Opens the lanes of a worker: the hub's ends come last among `workers`, and the answer is the ends of its thread.
fn open_worker<'s, X: Drop, O: Drop>(
    alloc: Global,
    waiter: Waiter<'s>,
    workers: &mut Vec<WorkerLanes<'s, X, O>>,
) -> Result<(Take<ToWorker<X>>, Put<Result<O, Memory>>), Memory>
    ensures opened { IfOk result (λ ends. (hub : WorkerLanes X O) × (workers.new.items ≡ workers.old.items ++ hub ∷ []) × (worker_view hub ≡ idle_worker)
        × IsLane hub.jobs ends.0 × IsLane ends.1 hub.answers × (taken_items ends.0 ≡ []) × (put_items ends.1 ≡ [])) }
    ensures refused { OnErr result (workers.new.items ≡ workers.old.items) }
{
    let (jobs, their_jobs) = lane(alloc, MOST_OUTSTANDING)?;
    let (their_answers, answers) = lane(alloc, MOST_OUTSTANDING)?;
    match workers.push(WorkerLanes::new(alloc, waiter.turned(), jobs, answers)) {
        Ok(()) => Ok((their_jobs, their_answers)),
        Err(_) => Err(Memory),
    }
}

/// Opens the lanes of a worker and starts its thread: the hub's ends come last among `workers`. `Memory` if an allocation
/// fails or the runtime refuses the thread; the workers are then as before.
fn start_worker<'s, E, R: Threads + Wait + Sync, W: Work + Sync, G: Gate<W::Out> + Sync>(
    scope: &Scope<'s, E>,
    crew: &Crew<'s, R, W, G>,
    number: u16,
    workers: &mut Vec<WorkerLanes<'s, W::Item, W::Out>>,
) -> Result<WorkerHandle<W>, Memory>
where
    W::Item: Drop + Send + 's,
    W::Out: Drop + Send + 's,
    requires { number < length crew.now.parkers.now.workers.items }
    ensures started { IfOk result (λ child. (hub : WorkerLanes W.Item W.Out) × (workers.new.items ≡ workers.old.items ++ hub ∷ []) × (worker_view hub ≡ idle_worker)
        × (child.promise.work.value ≡ crew.now.work.now) × (worker_name hub ≡ (take_name child.promise.jobs.value, put_name child.promise.answers.value))) }
    ensures refused { OnErr result (workers.new.items ≡ workers.old.items) }
{
    let (rt, work, gate) = (crew.rt, crew.work, crew.gate);
    let waiter = crew.parkers.of_worker(number);
    let (their_jobs, their_answers) = open_worker(crew.alloc, waiter, workers)?;
    let promise = WorkerPromise {
        work: Snapshot::of(work),
        jobs: Snapshot::of(&their_jobs),
        answers: Snapshot::of(&their_answers),
    };
    let task = move || -> (Take<ToWorker<W::Item>>, Put<Result<W::Out, Memory>>)
        requires { (taken_items their_jobs ≡ []) × (put_items their_answers ≡ []) }
        ensures { SameTake their_jobs result.0 × SamePut their_answers result.1 × Replied (W.gives work.entry.now) (taken_items result.0) (put_items result.1) }
    { run_worker(rt, waiter, number, work, gate, their_jobs, their_answers) };
    match scope.spawn_with(promise, task) {
        Ok(child) => Ok(child),
        Err(refused) => {
            drop(refused);
            workers.pop();
            Err(Memory)
        }
    }
}

/// Removes the last worker, stops it and joins its thread.
fn close_worker<R: Threads + Wait, W: Work>(
    rt: &R,
    workers: &mut Vec<WorkerLanes<'_, W::Item, W::Out>>,
    child: WorkerHandle<W>,
)
where
    W::Item: Drop,
    W::Out: Drop,
    requires { (names : List (Name × Name)) × (worker_names workers.old.items ≡ names ++ (take_name child.promise.jobs.value, put_name child.promise.answers.value) ∷ []) }
    ensures names { (names : List (Name × Name)) → worker_names workers.old.items ≡ names ++ (take_name child.promise.jobs.value, put_name child.promise.answers.value) ∷ [] →
        worker_names workers.new.items ≡ names }
    ensures last { (hub : WorkerLanes W.Item W.Out) × (workers.old.items ≡ workers.new.items ++ hub ∷ []) × Replied (W.gives child.promise.work.value) (put_items hub.jobs) (taken_items hub.answers) }
{
    let Some(worker) = workers.pop() else {
        unreachable!()
    };
    let (jobs, answers) = worker.stop(rt);
    let (their_jobs, their_answers) = child.join(rt);
    drop(rejoin(jobs, their_jobs));
    drop(rejoin(their_answers, answers));
}

/// Starts the threads of the workers from a number on, runs the core, and joins them.
fn start_workers_from<
    's,
    E,
    R: Threads + Wait + Sync,
    W: Work + Sync,
    G: Gate<W::Out> + Sync,
    H: Core<W::Item, W::Out>,
>(
    scope: &Scope<'s, E>,
    crew: &Crew<'s, R, W, G>,
    from: u16,
    lanes: &mut Vec<FeedLane<'s, W::Item>>,
    workers: &mut Vec<WorkerLanes<'s, W::Item, W::Out>>,
    hub: &mut H,
) -> Result<(), Memory>
where
    W::Item: Drop + Send + 's,
    W::Out: Drop + Send + 's,
    requires few { length lanes.old.items ≤ MAX_FEEDS }
    requires parkers { length crew.now.parkers.now.workers.items ≡ crew.now.workers }
    requires hub { H.can_run hub.old (length lanes.old.items) }
    requires lanes { AreNewFeeds lanes.old.items }
    requires workers { AreNewWorkers workers.old.items }
    ensures lanes { feed_names lanes.new.items ≡ feed_names lanes.old.items }
    ensures workers { worker_names workers.new.items ≡ worker_names workers.old.items }
    ensures refused { OnErr result (hub.new ≡ hub.old) }
    ensures done { OnOk result ((ds : List (WorkerView W.Item W.Out)) × AllReplied (W.gives crew.now.work.now) ds × H.done hub.old (tolds_of lanes.new.items) (worker_views workers.new.items ++ ds) hub.new) }
{
    if from >= crew.workers {
        hub.run(crew.rt, lanes, workers);
        return Ok(());
    }
    let Ok(child) = start_worker(scope, crew, from, workers) else {
        drain_lanes(crew.rt, lanes, RunFault::Memory);
        return Err(Memory);
    };
    let outcome = start_workers_from(scope, crew, from + 1, lanes, workers, hub);
    close_worker(crew.rt, workers, child);
    outcome
}

/// Starts a thread for each worker, runs the core, and joins them.
fn start_workers<
    's,
    E,
    R: Threads + Wait + Sync,
    W: Work + Sync,
    G: Gate<W::Out> + Sync,
    H: Core<W::Item, W::Out>,
>(
    scope: &Scope<'s, E>,
    crew: &Crew<'s, R, W, G>,
    lanes: &mut Vec<FeedLane<'s, W::Item>>,
    hub: &mut H,
) -> Result<(), Memory>
where
    W::Item: Drop + Send + 's,
    W::Out: Drop + Send + 's,
    requires few { length lanes.old.items ≤ MAX_FEEDS }
    requires parkers { length crew.now.parkers.now.workers.items ≡ crew.now.workers }
    requires hub { H.can_run hub.old (length lanes.old.items) }
    requires lanes { AreNewFeeds lanes.old.items }
    ensures lanes { feed_names lanes.new.items ≡ feed_names lanes.old.items }
    ensures refused { OnErr result (hub.new ≡ hub.old) }
    ensures done { OnOk result ((ds : List (WorkerView W.Item W.Out)) × AllReplied (W.gives crew.now.work.now) ds × H.done hub.old (tolds_of lanes.new.items) ds hub.new) }
{
    let mut workers = Vec::new(crew.alloc);
    start_workers_from(scope, crew, 0, lanes, &mut workers, hub)
}

/// Opens the lane of a feed: the hub's end comes last among `lanes`, and the answer is the end of its thread.
fn open_feed<'s, X: Drop>(
    alloc: Global,
    waiter: Waiter<'s>,
    lanes: &mut Vec<FeedLane<'s, X>>,
) -> Result<Put<FromFeed<X>>, Memory>
    ensures opened { IfOk result (λ put. (hub : FeedLane X) × (lanes.new.items ≡ lanes.old.items ++ hub ∷ []) × (feed_view hub ≡ new_feed) × IsLane put hub.take × (put_items put ≡ [])) }
    ensures refused { OnErr result (lanes.new.items ≡ lanes.old.items) }
{
    let (put, take) = lane(alloc, ITEMS_AHEAD)?;
    match lanes.push(FeedLane::new(waiter.turned(), take)) {
        Ok(()) => Ok(put),
        Err(_) => Err(Memory),
    }
}

/// Removes the last lane, whose thread has ended, and drops what was not taken from it.
fn close_feed<X: Drop>(lanes: &mut Vec<FeedLane<'_, X>>, put: Put<FromFeed<X>>)
    requires { (names : List Name) × (feed_names lanes.old.items ≡ names ++ put_name put ∷ []) }
    ensures names { (names : List Name) → feed_names lanes.old.items ≡ names ++ put_name put ∷ [] → feed_names lanes.new.items ≡ names }
    ensures last { (hub : FeedLane X) × (lanes.old.items ≡ lanes.new.items ++ hub ∷ []) × ((left : List (FromFeed X)) × (told_of hub ++ left ≡ put_items put)) }
{
    let Some(lane) = lanes.pop() else {
        unreachable!()
    };
    let FeedLane {
        waiter: _,
        take,
        items: _,
        ended: _,
    } = lane;
    drop(rejoin(put, take));
}

/// Opens the lane of a feed and starts its thread: the hub's end comes last among `lanes`. `Memory` if an allocation fails
/// or the runtime refuses the thread; the lanes are then as before.
fn start_feed<'s, E, R: Threads + Wait + Sync, F: Feed + Drop + Send + 's>(
    scope: &Scope<'s, E>,
    rt: &'s R,
    alloc: Global,
    waiter: Waiter<'s>,
    feed: F,
    lanes: &mut Vec<FeedLane<'s, F::Item>>,
) -> Result<FeedHandle<F>, Memory>
where
    F::Item: Drop + Send + 's,
    requires { F.is_open feed }
    ensures started { IfOk result (λ child. (hub : FeedLane F.Item) × (lanes.new.items ≡ lanes.old.items ++ hub ∷ []) × (feed_view hub ≡ new_feed)
        × (child.promise.feed.value ≡ feed) × IsLane child.promise.put.value hub.take) }
    ensures refused { OnErr result (lanes.new.items ≡ lanes.old.items) }
{
    let put = open_feed(alloc, waiter, lanes)?;
    let promise = FeedPromise {
        feed: Snapshot::of(&feed),
        put: Snapshot::of(&put),
    };
    let task = move || -> Put<FromFeed<F::Item>>
        requires { F.is_open feed × (put_items put ≡ []) }
        ensures { SamePut put result × ToldAll F.gives F.may_fail feed (put_items result) }
    { run_feed(rt, waiter, feed, put) };
    match scope.spawn_with(promise, task) {
        Ok(child) => Ok(child),
        Err(refused) => {
            drop(refused);
            lanes.pop();
            Err(Memory)
        }
    }
}

/// Starts a thread for each feed that is left, then the workers, runs the core, and joins them.
pub(crate) fn start_feeds<
    's,
    E,
    R: Threads + Wait + Sync,
    F: Feed + Drop + Send + 's,
    W: Work<Item = F::Item> + Sync,
    G: Gate<W::Out> + Sync,
    H: Core<F::Item, W::Out>,
>(
    scope: &Scope<'s, E>,
    crew: &Crew<'s, R, W, G>,
    feeds: &mut IntoIter<F>,
    lanes: &mut Vec<FeedLane<'s, F::Item>>,
    hub: &mut H,
) -> Result<(), Memory>
where
    F::Item: Drop + Send + 's,
    W::Out: Drop + Send + 's,
    requires open { All F.is_open (into_iter_items feeds.old) }
    requires few { length lanes.old.items + length (into_iter_items feeds.old) ≤ MAX_FEEDS }
    requires parkers { (length crew.now.parkers.now.feeds.items ≡ length lanes.old.items + length (into_iter_items feeds.old)) × (length crew.now.parkers.now.workers.items ≡ crew.now.workers) }
    requires hub { H.can_run hub.old (length lanes.old.items + length (into_iter_items feeds.old)) }
    requires lanes { AreNewFeeds lanes.old.items }
    ensures lanes { feed_names lanes.new.items ≡ feed_names lanes.old.items }
    ensures refused { OnErr result (hub.new ≡ hub.old) }
    ensures done { OnOk result ((told : List (List (FromFeed F.Item))) × Each (Began F.gives F.may_fail) (into_iter_items feeds.old) told
        × ((ds : List (WorkerView F.Item W.Out)) × AllReplied (W.gives crew.now.work.now) ds × H.done hub.old (tolds_of lanes.new.items ++ told) ds hub.new)) }
{
    let Some(feed) = feeds.next() else {
        return start_workers(scope, crew, lanes, hub);
    };
    let waiter = crew.parkers.of_feed(lanes.len());
    let Ok(child) = start_feed(scope, crew.rt, crew.alloc, waiter, feed, lanes) else {
        drain_lanes(crew.rt, lanes, RunFault::Memory);
        return Err(Memory);
    };
    let outcome = start_feeds(scope, crew, feeds, lanes, hub);
    close_feed(lanes, child.join(crew.rt));
    outcome
}
