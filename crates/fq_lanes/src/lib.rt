//! Runs work on the items of several files in threads, and puts the results back in order.
//!
//! A [`Feed`] gives the items of one file, [`Work`] is done on each item, and a [`Tail`] takes the results. Whatever order the threads
//! finish in, a tail takes the work on each item once, by file and then by serial, the item's number in its file; after a fault it has
//! taken the first part of that. The crate knows nothing of CSV and frames.
//!
//! - [`run_lanes`]: gives each feed and each worker a thread of its own. Lanes, which are bounded rings, connect these threads with the
//!   caller's: [`lane`] makes one, [`Put`] and [`Take`] are its ends.
//! - [`run_rounds`]: keeps the same contract, but works in rounds. The caller's thread reads the feeds, and threads work the items of a
//!   round.
//! - [`Sink`]: accepts items in any order and returns them by file, then serial. A serial must be less than [`SLOTS`] past the number of
//!   its file's items that the sink has returned. The list of [`Event`]s that it accepted determines what it may return; [`drive`] runs
//!   such a list.
//! - [`Gate`]: sees each result before it leaves its worker, and can hold the worker up. [`NoGate`] does nothing.
//! - [`Report`], [`FeedFault`] and [`RunFault`]: how a run ends.
//! - [`due_grows`], [`due_of_the_set`] and [`schedules_settle`]: laws of the definitions, proved for all values.
#![tactic(auto)]

mod drains;
mod driver;
mod events;
mod faults;
mod feed_lane;
mod feed_thread;
mod feeds;
mod file_state;
mod free_threads;
mod gates;
mod hub;
mod inlet;
mod job;
mod lanes;
mod laws;
mod messages;
mod reports;
mod round;
mod rounds;
mod sinks;
mod sleeping;
mod tails;
mod threads;
mod turns;
mod work;
mod worker_lanes;
mod worker_thread;

pub use driver::drive;
pub use events::{Event, Refused, Why};
pub use faults::{FeedFault, Memory, RunFault};
pub use feeds::{Feed, MAX_FEEDS};
pub use file_state::SLOTS;
pub use free_threads::run_lanes;
pub use gates::{Gate, NoGate};
pub use lanes::{Left, MAX_CAPACITY, Put, Take, lane, rejoin};
pub use laws::{due_grows, due_of_the_set, schedules_settle};
pub use reports::Report;
pub use rounds::run_rounds;
pub use sinks::Sink;
pub use tails::Tail;
pub use work::{MAX_WORKERS, Work};
