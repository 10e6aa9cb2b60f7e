//! Jobs, their answers, and the work on those of a round.
ghost use Rattle.std.specs.Prelude.{IfOk};
ghost use Rattle.fq_lanes.specs.Beside.{Each};
ghost use Rattle.fq_lanes.specs.Round.{Answers};

use crate::faults::Memory;
use crate::work::Work;
use std::thread;
use std::thread::Threads;

/// An item and its numbers.
#[derive(Drop)]
pub(crate) struct Job<X> {
    pub(crate) file: u16,
    pub(crate) serial: u32,
    pub(crate) item: X,
}

/// The work on a job's item, under the job's numbers.
#[derive(Drop)]
pub(crate) struct Answer<O> {
    pub(crate) file: u16,
    pub(crate) serial: u32,
    pub(crate) outcome: Result<O, Memory>,
}

/// The work on each job, in order, in as many threads as there are jobs, if they can be made.
pub(crate) fn work_round<R: Threads + Sync, W: Work + Sync>(
    rt: &R,
    work: &W,
    jobs: Vec<Job<W::Item>>,
) -> Result<Vec<Answer<W::Out>>, Memory>
where
    W::Item: Drop + Send,
    W::Out: Drop + Send,
    ensures { IfOk result (λ v. Each (Answers (W.gives work.now)) jobs.items v.items) }
{
    let done = thread::map_vec(
        rt,
        jobs,
        &|job: Job<W::Item>| -> Answer<W::Out>
            ensures { Answers (W.gives work.entry.now) job result }
        {
            let Job { file, serial, item } = job;
            let outcome = work.work(file, item);
            Answer {
                file,
                serial,
                outcome,
            }
        },
    );
    match done {
        Ok(answers) => Ok(answers),
        Err(_) => Err(Memory),
    }
}
