//! What goes through the lanes between the hub and its threads.
use crate::faults::FeedFault;
use crate::job::Job;

/// What the thread of a feed tells the hub.
#[derive(Drop)]
pub(crate) enum FromFeed<T> {
    /// The next item.
    Item(T),
    /// No more comes, or a fault.
    End(Option<FeedFault>),
}

/// What the hub tells a worker.
#[derive(Drop)]
pub(crate) enum ToWorker<X> {
    /// Do this job.
    Do(Job<X>),
    /// No more comes.
    Stop,
}
