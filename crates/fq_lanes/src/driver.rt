//! A list of events on a fresh sink.
ghost use Rattle.std.specs.Prelude.{◌≡◌, ◌<◌, ◌+◌, ℕ, List, [], ◌++◌, length, IfOk, OnErr, ◌⊎◌};
ghost use Rattle.std.specs.Option.{option_to_list};
ghost use mathlib.Core.List.{IsPrefix};
ghost use Rattle.fq_lanes.specs.Due.{due};
ghost use Rattle.fq_lanes.specs.Refusals.{refusal_at, after, refused_one, accepted_of, refused_of};
ghost use Rattle.fq_lanes.specs.Sink.{HasAccepted, file_count};
ghost use Rattle.fq_lanes.specs.declared.events.Event.{Event};

use crate::events::{Event, Refused};
use crate::faults::Memory;
use crate::sinks::Sink;
use std::alloc::Global;

/// Tells the sink of an event, and answers the event if it was refused.
fn tell<T: Drop>(sink: &mut Sink<T>, number: usize, event: Event<T>) -> Option<Refused<T>>
    ensures files { file_count sink.new ≡ file_count sink.old }
    ensures holds { (es : List (Event T)) (t : ℕ) → HasAccepted sink.old es t →
        let reason = refusal_at (file_count sink.old) es t event in
        HasAccepted sink.new (after reason es event) t × (option_to_list result ≡ refused_one reason number event) }
{
    match event {
        Event::Offer(file, serial, item) => match sink.offer(file, serial, item) {
            Ok(()) => None,
            Err((why, item)) => Some(Refused {
                event: number,
                why,
                item: Some(item),
            }),
        },
        Event::Close(file, items) => match sink.close(file, items) {
            Ok(()) => None,
            Err(why) => Some(Refused {
                event: number,
                why,
                item: None,
            }),
        },
    }
}

/// Takes items until none is due.
fn drain<T: Drop>(sink: &mut Sink<T>, taken: &mut Vec<(u16, u32, T)>) -> Result<(), Memory>
    ensures files { file_count sink.new ≡ file_count sink.old }
    ensures holds { (es : List (Event T)) → HasAccepted sink.old es (length taken.old.items) → IsPrefix taken.old.items (due es (file_count sink.old)) →
        IfOk result (λ _. HasAccepted sink.new es (length taken.new.items) × (taken.new.items ≡ due es (file_count sink.old))) }
{
    while let Some(next) = sink.next() {
        if taken.push(next).is_err() {
            return Err(Memory);
        }
    }
    Ok(())
}

/// Notes an event that was refused, if there is one.
fn note<T: Drop>(refused: &mut Vec<Refused<T>>, refusal: Option<Refused<T>>) -> Result<(), Memory>
    ensures { IfOk result (λ _. refused.new.items ≡ refused.old.items ++ option_to_list refusal) }
{
    if let Some(event) = refusal {
        if refused.push(event).is_err() {
            return Err(Memory);
        }
    }
    Ok(())
}

/// Runs a list of events on a fresh sink of so many files, and takes what is due after each event.
/// Answers the items taken, in order, and the events refused, in order.
/// `Memory` if the sink could not be made or one of these two lists could not grow, so never without a file or an event;
/// no event is refused for it. Both lists are then dropped.
pub fn drive<T: Drop>(
    alloc: Global,
    files: u16,
    events: Vec<Event<T>>,
) -> Result<(Vec<(u16, u32, T)>, Vec<Refused<T>>), Memory>
    ensures taken { IfOk result (λ r. r.0.items ≡ due (accepted_of files [] events.items) files) }
    ensures refused { IfOk result (λ r. r.1.items ≡ refused_of files 0 [] events.items) }
    ensures memory { OnErr result ((0 < files) ⊎ (0 < length events.items)) }
{
    let mut sink = Sink::new(alloc, files)?;
    let mut taken = Vec::new(alloc);
    let mut refused = Vec::new(alloc);
    for (number, event) in events.into_iter().enumerate() {
        let refusal = tell(&mut sink, number, event);
        note(&mut refused, refusal)?;
        drain(&mut sink, &mut taken)?;
    }
    Ok((taken, refused))
}
