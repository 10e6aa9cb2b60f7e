//! The hub: a sink, the tail behind it, and the trace of what went through.
ghost use Rattle.std.specs.Prelude.{◌≡◌, ℕ, List, [], ◌∷◌, ◌++◌, MatchResult, None};

use crate::faults::Memory;
use crate::sinks::Sink;
use crate::tails::Tail;

/// What is offered to the sink goes on to the tail as soon as it is due, and the trace notes its file and serial.
#[derive(Drop)]
pub(crate) struct Hub<S, O> {
    pub(crate) sink: Sink<O>,
    pub(crate) tail: S,
    pub(crate) trace: Vec<(u16, u32)>,
}

impl<O: Drop, S: Tail<Out = O>> Hub<S, O> {
    ghost use Rattle.fq_lanes.specs.Refusals.{refusal_now};
    ghost use Rattle.fq_lanes.specs.Sink.{file_count};
    ghost use Rattle.fq_lanes.specs.Hub.{HandsOn, HandedOn, HasStopped, MayTell};
    ghost use Rattle.fq_lanes.specs.declared.events.Event.{Event};
    ghost use Rattle.fq_lanes.specs.declared.events.Event.TheVariants.{Offer, Close};

    /// Hands on what is due.
    fn hand_on(&mut self) -> Result<(), Memory>
        ensures files { file_count self.new.sink ≡ file_count self.old.sink }
        ensures handed { (first : S) (events : List (Event O)) (log : List (ℕ × ℕ × O)) → HandsOn S.takes first events log self.old →
            MatchResult result (λ _. HandedOn S.takes first events self.new)
            (λ _. HasStopped S.takes S.refuses first events (file_count self.old.sink) self.new.tail) }
    {
        while let Some((file, serial, out)) = self.sink.next() {
            self.trace.push((file, serial))?;
            self.tail.take(file, serial, out)?;
        }
        Ok(())
    }

    /// Offers the work on an item, and hands on what is due then.
    pub(crate) fn offer(&mut self, file: u16, serial: u32, out: O) -> Result<(), Memory>
        requires { MayTell self.old (Offer file serial out) }
        ensures files { file_count self.new.sink ≡ file_count self.old.sink }
        ensures handed { (first : S) (events : List (Event O)) → HandedOn S.takes first events self.old →
            refusal_now (file_count self.old.sink) events (Offer file serial out) ≡ None →
            let now = events ++ Offer file serial out ∷ [] in
            MatchResult result (λ _. HandedOn S.takes first now self.new)
            (λ _. HasStopped S.takes S.refuses first now (file_count self.old.sink) self.new.tail) }
    {
        match self.sink.offer(file, serial, out) {
            Ok(()) => self.hand_on(),
            Err(_) => unreachable!(),
        }
    }

    /// Closes a file at its number of items, and hands on what is due then.
    pub(crate) fn close(&mut self, file: u16, items: u32) -> Result<(), Memory>
        requires { MayTell self.old (Close file items) }
        ensures files { file_count self.new.sink ≡ file_count self.old.sink }
        ensures handed { (first : S) (events : List (Event O)) → HandedOn S.takes first events self.old →
            refusal_now (file_count self.old.sink) events (Close file items) ≡ None →
            let now = events ++ Close file items ∷ [] in
            MatchResult result (λ _. HandedOn S.takes first now self.new)
            (λ _. HasStopped S.takes S.refuses first now (file_count self.old.sink) self.new.tail) }
    {
        match self.sink.close(file, items) {
            Ok(()) => self.hand_on(),
            Err(_) => unreachable!(),
        }
    }
}
