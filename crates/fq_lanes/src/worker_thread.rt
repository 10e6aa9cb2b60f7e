//! The thread of a worker.
ghost use Rattle.std.specs.Prelude.{◌≡◌, []};
ghost use Rattle.fq_lanes.specs.Lane.{put_items, taken_items, SamePut, SameTake};
ghost use Rattle.fq_lanes.specs.WorkerThread.{Replied};

use crate::faults::Memory;
use crate::feed_thread::put_quietly;
use crate::gates::Gate;
use crate::job::Job;
use crate::lanes::{Put, Take};
use crate::messages::ToWorker;
use crate::sleeping::Waiter;
use crate::work::Work;
use std::sync::Wait;

/// Answers each job until it is to stop.
pub(crate) fn run_worker<R: Wait, W: Work, G: Gate<W::Out>>(
    rt: &R,
    waiter: Waiter<'_>,
    number: u16,
    work: &W,
    gate: &G,
    jobs: Take<ToWorker<W::Item>>,
    answers: Put<Result<W::Out, Memory>>,
) -> (Take<ToWorker<W::Item>>, Put<Result<W::Out, Memory>>)
    requires { (taken_items jobs ≡ []) × (put_items answers ≡ []) }
    ensures jobs { SameTake jobs result.0 }
    ensures answers { SamePut answers result.1 }
    ensures replied { Replied (W.gives work.now) (taken_items result.0) (put_items result.1) }
{
    let mut jobs = jobs;
    let mut answers = answers;
    for _ in rt.forever() {
        match jobs.take() {
            None => waiter.wait(rt),
            Some(ToWorker::Stop) => return (jobs, answers),
            Some(ToWorker::Do(job)) => {
                let Job { file, serial, item } = job;
                let answer = work.work(file, item);
                if let Ok(out) = &answer {
                    gate.pass(number, file, serial, out);
                }
                put_quietly(rt, waiter, &mut answers, answer);
                wake_hub(waiter, &mut jobs);
            }
        }
    }
    unreachable!()
}

/// Wakes the hub if at most one job is left, so that the next jobs arrive before this thread has to sleep.
fn wake_hub<T>(waiter: Waiter<'_>, jobs: &mut Take<T>)
    ensures lane { SameTake jobs.old jobs.new }
    ensures taken { taken_items jobs.new ≡ taken_items jobs.old }
{
    if jobs.waiting() <= 1 {
        waiter.wake();
    }
}
