//! The reorder sink.
ghost use Rattle.std.specs.Prelude.{◌≡◌, ◌≤◌, ◌<◌, ◌+◌, ℕ, List, [], ◌∷◌, ◌++◌, length, MatchResult, MatchOption, IfOk, OnErr, Some, None, vec_len, false, nat_le};
ghost use Rattle.std.specs.List.{slice_get, list_all};
ghost use Rattle.std.specs.Option.{IfSome};

use crate::events::Why;
use crate::faults::Memory;
use crate::file_state::{FileState, SLOTS};
use std::alloc::Global;

/// Takes the items of several files in any order, each less than [`SLOTS`] past the number of its file's items that were
/// handed out, and hands them out by file, then serial: file 0's serials from 0 on, then file 1's once file 0 is closed and
/// complete, and so on.
///
/// What it did so far is told by the list of events that it accepted and by how many items it handed out: `new`
/// starts with none, and each call says how it goes on.
#[derive(Drop)]
pub struct Sink<T> {
    files: Vec<FileState<T>>,
    /// The files before this one were handed out whole.
    at: usize,
    ghost few: { vec_len files < 65536 },
}

impl<T: Drop> Sink<T> {
    ghost use Rattle.fq_lanes.specs.Due.{due, handed_count, offer_count, is_closed_at, all_finished};
    ghost use Rattle.fq_lanes.specs.Refusals.{refusal_at};
    ghost use Rattle.fq_lanes.specs.Sink.{HasAccepted, file_count, is_finished_file, waiting_in};
    ghost use Rattle.fq_lanes.specs.declared.events.Event.{Event};
    ghost use Rattle.fq_lanes.specs.declared.file_state.FileState.{FileState};
    ghost use Rattle.fq_lanes.specs.declared.events.Event.TheVariants.{Offer, Close};

    /// A sink of files 0 to `files` - 1, of which nothing was accepted, with `SLOTS` slots for each. The other calls allocate
    /// nothing. `Memory` if the slots could not be made; a sink of no file allocates nothing.
    pub fn new(alloc: Global, files: u16) -> Result<Self, Memory>
        ensures made { IfOk result (λ s. (file_count s ≡ files) × HasAccepted s [] 0) }
        ensures memory { OnErr result (0 < files) }
    {
        let mut made = Vec::new(alloc);
        for _ in 0..files {
            let file = FileState::new(alloc)?;
            if made.push(file).is_err() {
                return Err(Memory);
            }
        }
        Ok(Sink { files: made, at: 0 })
    }

    /// Accepts an item, or hands it back with the first that holds: `Stranger` (no such file), `Closed` (the serial
    /// is at or past the file's close), `Double` (an item of this file and serial was accepted), `Far` (the serial is at
    /// least `SLOTS` past the number of that file's items that were handed out).
    /// A refused offer changes nothing. Allocates nothing.
    pub fn offer(&mut self, file: u16, serial: u32, item: T) -> Result<(), (Why, T)>
        ensures files { file_count self.new ≡ file_count self.old }
        ensures accepts { (events : List (Event T)) (taken : ℕ) → HasAccepted self.old events taken →
            let event = Offer file serial item in let reason = refusal_at (file_count self.old) events taken event in
            MatchResult result
            (λ _. (reason ≡ None) × HasAccepted self.new (events ++ event ∷ []) taken)
            (λ e. (reason ≡ Some e.0) × (e.1 ≡ item) × HasAccepted self.new events taken) }
    {
        if file as usize >= self.files.len() {
            return Err((Why::Stranger, item));
        }
        let entry = &mut self.files[file as usize];
        entry.offer(serial, item)
    }

    /// Whether an offer of this file and serial is too early, since the serial is at least `SLOTS` past the number of that
    /// file's items that were handed out. Allocates nothing.
    pub(crate) fn is_far(&self, file: u16, serial: u32) -> bool
        requires { file < file_count self.now }
        ensures { (events : List (Event T)) (taken : ℕ) → HasAccepted self.now events taken →
            result ≡ nat_le (handed_count file taken (due events (file_count self.now)) + SLOTS) serial }
    {
        self.files[file as usize].is_far(serial)
    }

    /// Says that a file has `items` items, or answers the first that holds: `Stranger` (no such file), `Closed`
    /// (closed before), `Short` (an item of this file with a serial of `items` or more was accepted).
    /// A refused close changes nothing. Allocates nothing.
    pub fn close(&mut self, file: u16, items: u32) -> Result<(), Why>
        ensures files { file_count self.new ≡ file_count self.old }
        ensures accepts { (events : List (Event T)) (taken : ℕ) → HasAccepted self.old events taken →
            let event = Close file items in let reason = refusal_at (file_count self.old) events taken event in
            MatchResult result
            (λ _. (reason ≡ None) × HasAccepted self.new (events ++ event ∷ []) taken)
            (λ why. (reason ≡ Some why) × HasAccepted self.new events taken) }
    {
        if file as usize >= self.files.len() {
            return Err(Why::Stranger);
        }
        let entry = &mut self.files[file as usize];
        entry.close(items)
    }

    /// Goes past the files that were handed out whole.
    fn pass(&mut self)
        ensures same { self.new.files ≡ self.old.files }
        ensures stays { (x : FileState T) → slice_get self.new.files.items self.new.at ≡ Some x → is_closed_at x.closed x.taken ≡ false }
        ensures accepts { (events : List (Event T)) (taken : ℕ) → HasAccepted self.old events taken → HasAccepted self.new events taken }
    {
        while self.at < self.files.len() && self.files[self.at].is_handed_out() {
            self.at += 1;
        }
    }

    /// The next item by file, then serial, with its file and serial; `None` if nothing more is due yet.
    /// Allocates nothing.
    pub fn next(&mut self) -> Option<(u16, u32, T)>
        ensures fewer { IfSome result (λ _. waiting_in self.new + 1 ≡ waiting_in self.old) }
        ensures files { file_count self.new ≡ file_count self.old }
        ensures gives { (events : List (Event T)) (taken : ℕ) → HasAccepted self.old events taken →
            let all = due events (file_count self.old) in
            MatchOption result ((taken ≡ length all) × HasAccepted self.new events taken)
            (λ q. (slice_get all taken ≡ Some q) × HasAccepted self.new events (taken + 1)) }
    {
        self.pass();
        if self.at >= self.files.len() {
            return None;
        }
        let number = self.at as u16;
        let entry = &mut self.files[self.at];
        match entry.next() {
            Some((serial, item)) => Some((number, serial, item)),
            None => None,
        }
    }

    /// Whether each file is closed and has as many accepted items as its close says, handed out or not.
    /// Allocates nothing; one pass over the files.
    pub fn finished(&self) -> bool
        ensures { (events : List (Event T)) (taken : ℕ) → HasAccepted self.now events taken →
            result ≡ all_finished events 0 (file_count self.now) }
    {
        self.all_finished_files()
    }

    fn all_finished_files(&self) -> bool
        ensures { result ≡ list_all (λ x. is_finished_file x) self.now.files.items }
    {
        self.files.iter().all(|file| file.is_finished())
    }

    /// How many items of this file were accepted and not handed out: at most `SLOTS`. Allocates nothing.
    pub fn held(&self, file: u16) -> u64
        requires { file < file_count self.now }
        ensures few { result ≤ SLOTS }
        ensures count { (events : List (Event T)) (taken : ℕ) → HasAccepted self.now events taken →
            result + handed_count file taken (due events (file_count self.now)) ≡ offer_count events file }
    {
        self.files[file as usize].held()
    }
}
