//! What a sink is told, and why it refuses.
use thiserror::Error;

/// What a sink is told: an item under its file and serial, or that a file is closed and how many items it has.
#[derive(Drop)]
pub enum Event<T> {
    /// File, serial and item.
    Offer(u16, u32, T),
    /// File and number of items.
    Close(u16, u32),
}

/// Why an event is refused. If several reasons hold, the answer is the first in the order that `Sink::offer` and
/// `Sink::close` give.
#[derive(Clone, Copy, PartialEq, Eq, Debug, Drop, Error)]
pub enum Why {
    /// No such file.
    #[error("no such file")]
    Stranger,
    /// An offer at or past its file's close, or a second close.
    #[error("file closed")]
    Closed,
    /// The item of this file and serial was accepted before.
    #[error("item accepted before")]
    Double,
    /// The serial is at least [`SLOTS`](crate::SLOTS) past the number of that file's items that were handed out.
    #[error("too far ahead of what was handed out")]
    Far,
    /// A close below a serial that was accepted before.
    #[error("closed below an accepted serial")]
    Short,
}

/// An event that was refused.
#[derive(Drop)]
pub struct Refused<T> {
    /// Its number in the list of events, from 0.
    pub event: usize,
    /// The first reason that holds.
    pub why: Why,
    /// The item, if the event was an offer.
    pub item: Option<T>,
}
