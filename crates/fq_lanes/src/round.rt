//! A round: jobs from the feeds, and the work on them.
ghost use Rattle.std.specs.Prelude.{◌≡◌, ◌≤◌, ◌<◌, ◌+◌, ℕ, List, [], length, MatchResult, OnOk, IfOk, true};
ghost use Rattle.std.specs.List.{slice_get};
ghost use Rattle.fq_lanes.specs.Due.{close_at};
ghost use Rattle.fq_lanes.specs.Hub.{HandedOn, HasStopped};
ghost use Rattle.fq_lanes.specs.Inlet.{left_in};
ghost use Rattle.fq_lanes.specs.Ledger.{times, Books, OffersWorked};
ghost use Rattle.fq_lanes.specs.Round.{InRound, ReadsOn, BreaksOff, AreItems, job_numbers};
ghost use Rattle.fq_lanes.specs.FileWindow.{AreNear};
ghost use Rattle.fq_lanes.specs.Sink.{file_count};
ghost use Rattle.fq_lanes.specs.declared.events.Event.{Event};
ghost use Rattle.fq_lanes.specs.declared.inlet.Inlet.{Inlet};

use crate::faults::{Memory, RunFault, feed_fault};
use crate::feeds::{Feed, MAX_FEEDS};
use crate::hub::Hub;
use crate::inlet::Inlet;
use crate::job::{Answer, Job, work_round};
use crate::tails::Tail;
use crate::work::Work;
use std::alloc::Global;
use std::thread::Threads;

/// One feed's turn in a round: its next item is one job more, or its file is closed. It is passed over if the sink has
/// no slot for its next item yet.
fn take_turn<F: Feed, S: Tail>(
    inlets: &mut Vec<Inlet<F>>,
    hub: &mut Hub<S, S::Out>,
    jobs: &mut Vec<Job<F::Item>>,
    file: u16,
) -> Result<(), RunFault>
where
    F::Item: Drop,
    S::Out: Drop,
    requires file { file < length inlets.old.items }
    requires round { (feeds : List F) × (first : S) × (items : List (List F.Item)) × (events : List (Event S.Out))
        × InRound F.gives F.is_open F.may_fail F.most S.takes feeds first items events inlets.old.items hub.old jobs.old.items }
    ensures len { length inlets.new.items ≡ length inlets.old.items }
    ensures round { (feeds : List F) (first : S) (items : List (List F.Item)) (events : List (Event S.Out)) →
        InRound F.gives F.is_open F.may_fail F.most S.takes feeds first items events inlets.old.items hub.old jobs.old.items →
        MatchResult result
        (λ _. ReadsOn F.gives F.is_open F.may_fail F.most S.takes feeds first items events inlets.new.items hub.new jobs.new.items)
        (BreaksOff F.gives F.is_open F.may_fail S.takes S.refuses feeds first items events inlets.new.items hub.new) }
    ensures fewer { OnOk result (left_in F.most inlets.new.items + length jobs.new.items ≤ left_in F.most inlets.old.items + length jobs.old.items) }
    ensures jobs { OnOk result ((length jobs.old.items ≤ length jobs.new.items) × (length jobs.new.items ≤ length jobs.old.items + 1)) }
    ensures ended { OnOk result (length jobs.new.items ≡ 0 → ((i : ℕ) (inlet : Inlet F) → i < file → slice_get inlets.old.items i ≡ Some inlet → inlet.ended ≡ true) →
        (inlet : Inlet F) → slice_get inlets.new.items file ≡ Some inlet → inlet.ended ≡ true) }
    ensures others { (i : ℕ) → (i ≡ file → ⊥) → slice_get inlets.new.items i ≡ slice_get inlets.old.items i }
{
    let inlet = &mut inlets[file as usize];
    if inlet.ended {
        return Ok(());
    }
    if hub.sink.is_far(file, inlet.items) {
        return Ok(());
    }
    match inlet.next() {
        Ok(Some((serial, item))) => {
            let Ok(()) = jobs.push(Job { file, serial, item }) else {
                return Err(RunFault::Memory);
            };
            Ok(())
        }
        Ok(None) => {
            let items = inlet.items;
            let Ok(()) = hub.close(file, items) else {
                return Err(RunFault::Memory);
            };
            Ok(())
        }
        Err(fault) => Err(feed_fault(fault, file)),
    }
}

/// Once round the feeds, in file order, up to as many jobs as workers.
fn go_round<F: Feed, S: Tail>(
    inlets: &mut Vec<Inlet<F>>,
    hub: &mut Hub<S, S::Out>,
    jobs: &mut Vec<Job<F::Item>>,
    workers: usize,
) -> Result<(), RunFault>
where
    F::Item: Drop,
    S::Out: Drop,
    requires few { length inlets.old.items ≤ MAX_FEEDS }
    requires room { length jobs.old.items < workers }
    requires round { (feeds : List F) × (first : S) × (items : List (List F.Item)) × (events : List (Event S.Out))
        × InRound F.gives F.is_open F.may_fail F.most S.takes feeds first items events inlets.old.items hub.old jobs.old.items }
    ensures len { length inlets.new.items ≡ length inlets.old.items }
    ensures round { (feeds : List F) (first : S) (items : List (List F.Item)) (events : List (Event S.Out)) →
        InRound F.gives F.is_open F.may_fail F.most S.takes feeds first items events inlets.old.items hub.old jobs.old.items →
        MatchResult result
        (λ _. ReadsOn F.gives F.is_open F.may_fail F.most S.takes feeds first items events inlets.new.items hub.new jobs.new.items)
        (BreaksOff F.gives F.is_open F.may_fail S.takes S.refuses feeds first items events inlets.new.items hub.new) }
    ensures fewer { OnOk result (left_in F.most inlets.new.items + length jobs.new.items ≤ left_in F.most inlets.old.items + length jobs.old.items) }
    ensures jobs { OnOk result ((length jobs.old.items ≤ length jobs.new.items) × (length jobs.new.items ≤ workers)) }
    ensures ended { OnOk result (length jobs.new.items ≡ 0 → (i : ℕ) (inlet : Inlet F) → slice_get inlets.new.items i ≡ Some inlet → inlet.ended ≡ true) }
{
    for file in 0..inlets.len() {
        if jobs.len() >= workers {
            return Ok(());
        }
        take_turn(inlets, hub, jobs, file as u16)?;
    }
    Ok(())
}

/// The jobs of the next round: round and round the feeds, one item from each that has not ended and that the sink has a
/// slot for, until there are as many as workers or no feed may give one. While the round has no job, the lowest feed that
/// has not ended may.
pub(crate) fn collect_round<F: Feed, S: Tail>(
    alloc: Global,
    inlets: &mut Vec<Inlet<F>>,
    hub: &mut Hub<S, S::Out>,
    workers: u16,
) -> Result<Vec<Job<F::Item>>, RunFault>
where
    F::Item: Drop,
    S::Out: Drop,
    requires few { length inlets.old.items ≤ MAX_FEEDS }
    requires workers { 0 < workers }
    requires round { (feeds : List F) × (first : S) × (items : List (List F.Item)) × (events : List (Event S.Out))
        × InRound F.gives F.is_open F.may_fail F.most S.takes feeds first items events inlets.old.items hub.old [] }
    ensures len { length inlets.new.items ≡ length inlets.old.items }
    ensures round { (feeds : List F) (first : S) (items : List (List F.Item)) (events : List (Event S.Out)) →
        InRound F.gives F.is_open F.may_fail F.most S.takes feeds first items events inlets.old.items hub.old [] →
        MatchResult result
        (λ jobs. ReadsOn F.gives F.is_open F.may_fail F.most S.takes feeds first items events inlets.new.items hub.new jobs.items)
        (BreaksOff F.gives F.is_open F.may_fail S.takes S.refuses feeds first items events inlets.new.items hub.new) }
    ensures fewer { IfOk result (λ jobs. left_in F.most inlets.new.items + length jobs.items ≤ left_in F.most inlets.old.items) }
    ensures ended { IfOk result (λ jobs. length jobs.items ≡ 0 → (i : ℕ) (inlet : Inlet F) → slice_get inlets.new.items i ≡ Some inlet → inlet.ended ≡ true) }
{
    let most = workers as usize;
    let mut jobs = Vec::new(alloc);
    loop {
        let before = jobs.len();
        go_round(inlets, hub, &mut jobs, most)?;
        if jobs.len() == before || jobs.len() >= most {
            return Ok(jobs);
        }
    }
}

/// Works the jobs, and offers the answers in the jobs' order.
pub(crate) fn work_jobs<R: Threads + Sync, W: Work + Sync, S: Tail<Out = W::Out>>(
    rt: &R,
    work: &W,
    hub: &mut Hub<S, W::Out>,
    jobs: Vec<Job<W::Item>>,
) -> Result<(), Memory>
where
    W::Item: Drop + Send,
    W::Out: Drop + Send,
    requires { (first : S) × (items : List (List W.Item)) × (events : List (Event W.Out)) × HandedOn S.takes first events hub.old
        × Books items (λ f s. times f s (job_numbers jobs.items)) events × OffersWorked (W.gives work.now) items events
        × AreItems items jobs.items × (file_count hub.old.sink ≡ length items) × AreNear events (file_count hub.old.sink) (job_numbers jobs.items) }
    ensures files { file_count hub.new.sink ≡ file_count hub.old.sink }
    ensures offers { (first : S) (items : List (List W.Item)) (events : List (Event W.Out)) → HandedOn S.takes first events hub.old
        → Books items (λ f s. times f s (job_numbers jobs.items)) events → OffersWorked (W.gives work.now) items events
        → AreItems items jobs.items → file_count hub.old.sink ≡ length items → AreNear events (file_count hub.old.sink) (job_numbers jobs.items)
        → (events' : List (Event W.Out)) × (waiting : ℕ → ℕ → ℕ) × Books items waiting events' × OffersWorked (W.gives work.now) items events'
        × ((f : ℕ) → close_at events' f ≡ close_at events f)
        × MatchResult result (λ _. HandedOn S.takes first events' hub.new × ((f s : ℕ) → waiting f s ≡ 0))
        (λ _. HasStopped S.takes S.refuses first events' (file_count hub.old.sink) hub.new.tail) }
{
    let answers = work_round(rt, work, jobs)?;
    for answer in answers {
        let Answer {
            file,
            serial,
            outcome,
        } = answer;
        hub.offer(file, serial, outcome?)?;
    }
    Ok(())
}
