//! How the threads of a run wait for one another.
ghost use Rattle.std.specs.Prelude.{◌≡◌, ◌<◌, length, IfOk};

use crate::faults::Memory;
use std::alloc::Global;
use std::sync::Wait;
use std::thread::Parker;

/// The two threads at a lane, as one of them has it: it sleeps until it is woken, and wakes the other.
///
/// A thread that was woken before it sleeps does not sleep. So no wake-up is lost if each thread first puts or takes and
/// then wakes the other, and looks once more after it has slept.
#[derive(Clone, Copy)]
pub(crate) struct Waiter<'s> {
    own: &'s Parker,
    other: &'s Parker,
}

impl<'s> Waiter<'s> {
    /// Sleeps until this thread is woken.
    pub(crate) fn wait<R: Wait>(self, rt: &R) {
        self.own.park(rt);
    }

    /// Wakes the other thread.
    pub(crate) fn wake(self) {
        self.other.unpark();
    }

    /// The same two threads, as the other has it.
    pub(crate) fn turned(self) -> Waiter<'s> {
        Waiter {
            own: self.other,
            other: self.own,
        }
    }
}

/// A parker for each thread of a run: the hub, the feeds and the workers.
#[derive(Drop)]
pub(crate) struct Parkers {
    hub: Parker,
    feeds: Vec<Parker>,
    workers: Vec<Parker>,
}

impl Parkers {
    pub(crate) fn new(alloc: Global, feeds: usize, workers: usize) -> Result<Self, Memory>
        ensures { IfOk result (λ p. (length p.feeds.items ≡ feeds) × (length p.workers.items ≡ workers)) }
    {
        Ok(Parkers {
            hub: Parker::new(),
            feeds: make_parkers(alloc, feeds)?,
            workers: make_parkers(alloc, workers)?,
        })
    }

    pub(crate) fn hub(&self) -> &Parker {
        &self.hub
    }

    /// A feed's thread, and the hub.
    pub(crate) fn of_feed(&self, file: usize) -> Waiter<'_>
        requires { file < length self.now.feeds.items }
    {
        Waiter {
            own: &self.feeds[file],
            other: &self.hub,
        }
    }

    /// A worker's thread, and the hub.
    pub(crate) fn of_worker(&self, worker: u16) -> Waiter<'_>
        requires { worker < length self.now.workers.items }
    {
        Waiter {
            own: &self.workers[worker as usize],
            other: &self.hub,
        }
    }
}

/// A parker for each of so many threads.
fn make_parkers(alloc: Global, count: usize) -> Result<Vec<Parker>, Memory>
    ensures { IfOk result (λ parkers. length parkers.items ≡ count) }
{
    let mut parkers = Vec::with_capacity(alloc, count)?;
    for _ in 0..count {
        parkers.push(Parker::new())?;
    }
    Ok(parkers)
}
