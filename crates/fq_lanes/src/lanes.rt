//! A lane: a ring whose two ends may stand in two threads.
ghost use Rattle.std.specs.Prelude.{◌≡◌, ◌++◌};
ghost use Rattle.rtrb.specs.Ring.{sent, received, known_items};

use rtrb::{Consumer, Producer};

/// The most items that a lane has room for.
pub const MAX_CAPACITY: usize = 65_536;

/// The end that puts.
#[derive(Drop)]
pub struct Put<T> {
    producer: Producer<T>,
}

/// The end that takes.
#[derive(Drop)]
pub struct Take<T> {
    consumer: Consumer<T>,
}

/// Both ends of a lane, brought together.
#[derive(Drop)]
pub struct Left<T> {
    put: Producer<T>,
    take: Consumer<T>,
    ghost whole: { received take ++ known_items take ≡ sent put },
}

mod calls;

pub use calls::{lane, rejoin};
