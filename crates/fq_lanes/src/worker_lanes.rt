//! The hub's side of a worker.
ghost use Rattle.std.specs.Prelude.{◌≡◌, ◌<◌, [], ◌∷◌, ◌++◌, length, OnOk, OnErr, MatchOption};
ghost use Rattle.fq_lanes.specs.Lane.{put_items, taken_items, SamePut};
ghost use Rattle.fq_lanes.specs.declared.messages.ToWorker.TheVariants.{Do, Stop};

use crate::faults::Memory;
use crate::feed_thread::put_waiting;
use crate::job::Job;
use crate::lanes::{Put, Take};
use crate::messages::ToWorker;
use crate::sleeping::Waiter;
use std::alloc::Global;
use std::collections::VecDeque;
use std::sync::Wait;

/// The most jobs that a worker has outstanding. Its two lanes have room for as many, so no put meets a full one.
pub(crate) const MOST_OUTSTANDING: usize = 4;

/// The hub's ends of a worker's lanes, and the numbers of the jobs that have no answer yet.
#[derive(Drop)]
pub(crate) struct WorkerLanes<'s, X, O> {
    pub(crate) waiter: Waiter<'s>,
    pub(crate) jobs: Put<ToWorker<X>>,
    pub(crate) answers: Take<Result<O, Memory>>,
    pub(crate) outstanding: VecDeque<(u16, u32)>,
}

impl<'s, X, O> WorkerLanes<'s, X, O> {
    ghost use Rattle.fq_lanes.specs.WorkerLanes.{worker_name, worker_view};
    ghost use Rattle.fq_lanes.specs.HubView.{WorkerGrows, refused_between};

    /// A worker that was given no job.
    pub(crate) fn new(
        alloc: Global,
        waiter: Waiter<'s>,
        jobs: Put<ToWorker<X>>,
        answers: Take<Result<O, Memory>>,
    ) -> Self
        ensures { (result.jobs ≡ jobs) × (result.answers ≡ answers) × (result.outstanding.items ≡ []) }
    {
        WorkerLanes {
            waiter,
            jobs,
            answers,
            outstanding: VecDeque::new(alloc),
        }
    }

    /// Gives the worker a job, if it may have one more.
    pub(crate) fn give<R: Wait>(&mut self, rt: &R, job: Job<X>) -> Result<(), Memory>
    where
        X: Drop,
        requires few { length self.old.outstanding.items < 4 }
        ensures name { worker_name self.new ≡ worker_name self.old }
        ensures answers { taken_items self.new.answers ≡ taken_items self.old.answers }
        ensures ok { OnOk result ((put_items self.new.jobs ≡ put_items self.old.jobs ++ Do job ∷ []) × (self.new.outstanding.items ≡ self.old.outstanding.items ++ (job.file, job.serial) ∷ [])) }
        ensures err { OnErr result (put_items self.new.jobs ≡ put_items self.old.jobs) }
    {
        if self.outstanding.push_back((job.file, job.serial)).is_err() {
            return Err(Memory);
        }
        put_waiting(rt, self.waiter, &mut self.jobs, ToWorker::Do(job));
        Ok(())
    }

    /// An answer, with the numbers of the oldest job that had none.
    pub(crate) fn receive(&mut self) -> Option<((u16, u32), Result<O, Memory>)>
        ensures name { worker_name self.new ≡ worker_name self.old }
        ensures jobs { put_items self.new.jobs ≡ put_items self.old.jobs }
        ensures taken { MatchOption result
            ((taken_items self.new.answers ≡ taken_items self.old.answers) × (self.new.outstanding.items ≡ self.old.outstanding.items))
            (λ r. (taken_items self.new.answers ≡ taken_items self.old.answers ++ r.1 ∷ []) × (self.old.outstanding.items ≡ r.0 ∷ self.new.outstanding.items)) }
    {
        if self.outstanding.is_empty() {
            return None;
        }
        match self.answers.take() {
            None => None,
            Some(answer) => match self.outstanding.pop_front() {
                Some(pair) => Some((pair, answer)),
                None => unreachable!(),
            },
        }
    }

    /// Takes and drops until no job is outstanding. Answers whether the work on one of them answered `Memory`.
    pub(crate) fn drain<R: Wait>(&mut self, rt: &R) -> bool
    where
        O: Drop,
        ensures name { worker_name self.new ≡ worker_name self.old }
        ensures grows { WorkerGrows (worker_view self.old) (worker_view self.new) }
        ensures idle { self.new.outstanding.items ≡ [] }
        ensures refused { result ≡ refused_between (worker_view self.old) (worker_view self.new) }
    {
        let mut refused = false;
        for _ in rt.forever() {
            if self.outstanding.is_empty() {
                return refused;
            }
            match self.receive() {
                Some((_, Err(_))) => refused = true,
                Some((_, Ok(_))) => {}
                None => self.waiter.wait(rt),
            }
        }
        unreachable!()
    }

    /// Tells the worker to stop, and hands out its lanes.
    pub(crate) fn stop<R: Wait>(self, rt: &R) -> (Put<ToWorker<X>>, Take<Result<O, Memory>>)
        ensures jobs { SamePut self.entry.jobs result.0 }
        ensures stopped { put_items result.0 ≡ put_items self.entry.jobs ++ Stop ∷ [] }
        ensures answers { result.1 ≡ self.entry.answers }
    {
        let WorkerLanes {
            waiter,
            jobs,
            answers,
            outstanding: _,
        } = self;
        let mut jobs = jobs;
        put_waiting(rt, waiter, &mut jobs, ToWorker::Stop);
        (jobs, answers)
    }
}
