// Reading a trace from bytes that come in any pieces.
ghost use Rattle.std.specs.Prelude.{◌≡◌, true, ◌↔◌, ◌⊎◌, Ok, ℕ, List, IfErr, ◌+◌, ◌-◌, ◌^◌, ◌<◌, ◌≤◌, ◌++◌, [], None, IfOk, length, take, drop, vec_len, vec_capacity};
ghost use Rattle.trace_stream.specs.Items.{found_of, item_of, outcome_with};
ghost use Rattle.trace_stream.specs.declared.items.Item.{Item};
ghost use Rattle.trace_stream.specs.Readings.{Answered, IsDrained, IsGiven, IsPause, IsQuiet, after_next, fed_count, fed_with, finish_of, room as longest, taken_count, taken_with};
ghost use Rattle.trace_stream.specs.Runs.{HasFault, HasRead, IsTraceOf, items_after};

use crate::items::{Found, Item, Reason, TraceFault};
use crate::records::read_at;
use crate::rooms::Room;
use crate::stages::{Stage, advanced, takes_events, takes_openings};
use crate::waiting::Waiting;
use arrayvec::ArrayVec;
use event_scan::opening_cut_below;
use std::alloc::{AllocError, Global};
use std::marker::Model;

/// A reader of a trace of either version that comes in any pieces. It keeps at most 370 bytes, in memory that it takes at once (own rule).
///
/// A contract sees the bytes that wait, the place of the first of them, what was read before it, and the fault that was
/// met.
#[derive(Debug, Drop)]
pub struct TraceReader {
    waiting: Waiting,
    // The place of the first byte that waits.
    place: u64,
    stage: Stage,
    fault: Option<TraceFault>,
    // As long as fewer bytes wait, more is to come.
    quiet: usize,
}

impl Model for TraceReader {
    ghost use Rattle.std.specs.Prelude.{◌+◌, ◌^◌, ◌<◌, ◌≤◌, length};
    ghost use Rattle.trace_stream.specs.Readings.{IsQuiet, Reading};
    ghost use Rattle.trace_stream.specs.Items.{event_count};

    ghost Value = { Reading };

    ghost view = { λ r. record { place = r.place; waiting = r.waiting; stage = r.stage; fault = r.fault } };

    ghost invariant = { λ r. (length r.waiting ≤ 370) × (r.place + length r.waiting < 2 ^ 63) × (event_count r.stage ≤ r.place) × IsQuiet (record { place = r.place; waiting = r.waiting; stage = r.stage; fault = r.fault }) r.quiet };
}

impl TraceReader {
    /// A reader that was fed nothing. It takes memory for 370 bytes, and `Err` is want of it; no other call takes
    /// memory.
    pub fn new(alloc: Global) -> Result<TraceReader, AllocError>
        ensures new { IfOk result (λ reader. reader ≡ record { place = 0; waiting = []; stage = Stage.Start; fault = None }) }
        ensures nothing { IfOk result (λ reader. HasRead [] [] reader) }
    {
        let waiting = Waiting::new(alloc)?;
        Ok(TraceReader {
            waiting,
            place: 0,
            stage: Stage::Start,
            fault: None,
            quiet: 0,
        })
    }

    /// Takes as many bytes of the piece as there is room for, and answers how many: 0 exactly where the piece is empty
    /// or 370 bytes wait.
    pub fn feed(&mut self, piece: &[u8]) -> usize
        requires { fed_count self.old + length piece.now < 2 ^ 63 }
        ensures count { result ≡ taken_count self.old piece.now }
        ensures after { self.new ≡ record self.old { waiting = self.old.waiting ++ take result piece.now } }
        ensures goes_on { (bytes : List ℕ) (items : List Item) → HasRead bytes items self.old → HasRead (bytes ++ take result piece.now) items self.new }
        ensures none { (result ≡ 0) ↔ ((length piece.now ≡ 0) ⊎ (length self.old.waiting ≡ longest)) }
        ensures kept { length self.new.waiting ≤ longest }
    {
        self.take(piece)
    }

    /// How many bytes were fed.
    pub fn fed(&self) -> u64
        ensures { result ≡ fed_count self.now }
    {
        self.place + self.waiting.len() as u64
    }

    /// The next item of the bytes that were fed; what it has is written to `room`, all but the count of an `End`. `More`
    /// comes exactly where the bytes that wait are a proper prefix of a record that may come there, the empty prefix
    /// among them, and behind the end record exactly where no byte waits. A fault comes exactly where the grammar
    /// refuses the bytes, and is answered again by every later call. Nothing is said of what else stands in `room`.
    pub fn next_into(&mut self, room: &mut Room) -> Result<Found, TraceFault>
        ensures answer { Answered self.old (outcome_with room.new result) }
        ensures after { self.new ≡ after_next self.old (outcome_with room.new result) }
        ensures goes_on { (bytes : List ℕ) (items : List Item) → HasRead bytes items self.old → HasRead bytes (items_after items (outcome_with room.new result)) self.new }
        ensures fewer { IsGiven (outcome_with room.new result) → length self.new.waiting < length self.old.waiting }
        ensures room_left { outcome_with room.new result ≡ Ok Item.More → length self.new.waiting < longest }
        ensures drained { IsPause (outcome_with room.new result) → IsDrained self.new }
        ensures fed { fed_count self.new ≡ fed_count self.old }
    {
        self.step(room)
    }

    /// The next item of the bytes that were fed, as by `next_into`.
    pub fn next(&mut self) -> Result<Item, TraceFault>
        ensures answer { Answered self.old result }
        ensures after { self.new ≡ after_next self.old result }
        ensures goes_on { (bytes : List ℕ) (items : List Item) → HasRead bytes items self.old → HasRead bytes (items_after items result) self.new }
        ensures fewer { IsGiven result → length self.new.waiting < length self.old.waiting }
        ensures room_left { result ≡ Ok Item.More → length self.new.waiting < longest }
        ensures drained { IsPause result → IsDrained self.new }
        ensures fed { fed_count self.new ≡ fed_count self.old }
    {
        let mut room = Room::new();
        match self.next_into(&mut room) {
            Ok(found) => Ok(item_from(found, &room)),
            Err(fault) => Err(fault),
        }
    }

    /// The next item of the bytes that wait and of a piece behind them, with the number of bytes of the piece that were
    /// taken, as if these had been fed before `next_into`. A record that is whole is read where it stands, and only one
    /// that is cut short is kept: so all of the piece is taken where `More` is answered. After each item the next call
    /// is given the rest of the piece. Where a fault is answered, as many bytes were taken as there was room for.
    ///
    /// It is made for large pieces. Who has bytes one by one is quicker by `feed` and `next_into`.
    #[inline(always)]
    pub fn next_from(&mut self, piece: &[u8], room: &mut Room) -> Result<(Found, usize), TraceFault>
        requires { fed_count self.old + length piece.now < 2 ^ 63 }
        ensures answer { Answered (fed_with self.old piece.now result) (outcome_with room.new (found_of result)) }
        ensures after { self.new ≡ after_next (fed_with self.old piece.now result) (outcome_with room.new (found_of result)) }
        ensures goes_on { (bytes : List ℕ) (items : List Item) → HasRead bytes items self.old → HasRead (bytes ++ take (taken_with self.old piece.now result) piece.now) (items_after items (outcome_with room.new (found_of result))) self.new }
        ensures within { taken_with self.old piece.now result ≤ length piece.now }
        ensures all { outcome_with room.new (found_of result) ≡ Ok Item.More → taken_with self.old piece.now result ≡ length piece.now }
        ensures fewer { IsGiven (outcome_with room.new (found_of result)) → length self.new.waiting < length self.old.waiting + taken_with self.old piece.now result }
        ensures drained { IsPause (outcome_with room.new (found_of result)) → IsDrained self.new }
        ensures fed { fed_count self.new ≡ fed_count self.old + taken_with self.old piece.now result }
    {
        self.read_from(piece, room)
    }

    /// Says that no byte follows. It is `Ok`, with the number of events, exactly where the end record was read and no
    /// byte waits. Else it is the fault that was met, or that the trace is short at the number of bytes that were fed.
    /// `next` was called after the last `feed`, and answered `More` or a fault.
    pub fn finish(self) -> Result<u64, TraceFault>
        requires { IsDrained self }
        ensures answer { result ≡ finish_of self }
        ensures whole { (bytes : List ℕ) (items : List Item) → HasRead bytes items self → IfOk result (λ count. IsTraceOf bytes items count) }
        ensures fault { (bytes : List ℕ) (items : List Item) → HasRead bytes items self → IfErr result (λ fault. HasFault bytes fault) }
    {
        if let Some(fault) = self.fault {
            return Err(fault);
        }
        match self.stage {
            Stage::Ended { count } => Ok(count),
            _ => Err(TraceFault {
                at: self.place + self.waiting.len() as u64,
                reason: Reason::Short,
            }),
        }
    }

    /// Takes as many bytes of the piece as there is room for.
    fn take(&mut self, piece: &[u8]) -> usize
        requires { fed_count self.old + length piece.now < 2 ^ 63 }
        ensures count { result ≡ taken_count self.old piece.now }
        ensures after { self.new ≡ record self.old { waiting = self.old.waiting ++ take result piece.now } }
        ensures none { (result ≡ 0) ↔ ((length piece.now ≡ 0) ⊎ (length self.old.waiting ≡ longest)) }
        ensures kept { length self.new.waiting ≤ longest }
    {
        self.waiting.feed(piece)
    }

    /// The next item of the bytes that wait and of a piece behind them, read where the piece stands if none wait.
    #[inline(always)]
    fn read_from(&mut self, piece: &[u8], room: &mut Room) -> Result<(Found, usize), TraceFault>
        requires { fed_count self.old + length piece.now < 2 ^ 63 }
        ensures answer { Answered (fed_with self.old piece.now result) (outcome_with room.new (found_of result)) }
        ensures after { self.new ≡ after_next (fed_with self.old piece.now result) (outcome_with room.new (found_of result)) }
        ensures within { taken_with self.old piece.now result ≤ length piece.now }
        ensures all { outcome_with room.new (found_of result) ≡ Ok Item.More → taken_with self.old piece.now result ≡ length piece.now }
    {
        if self.waiting.len() != 0 || self.fault.is_some() {
            return self.read_joined(piece, room);
        }
        match read_at(self.stage, self.place, piece, room) {
            Ok((Found::More, _)) => self.read_joined(piece, room),
            Ok((found, length)) => {
                self.place += length as u64;
                self.stage = advanced(self.stage, found, room);
                self.quiet = 0;
                Ok((found, length))
            }
            Err(_) => self.read_joined(piece, room),
        }
    }

    /// The next item of the bytes that wait and of a piece behind them, of which as many are fed as there is room for.
    /// Those that stand behind an item aren't kept.
    #[inline(never)]
    fn read_joined(&mut self, piece: &[u8], room: &mut Room) -> Result<(Found, usize), TraceFault>
        requires { fed_count self.old + length piece.now < 2 ^ 63 }
        ensures answer { Answered (fed_with self.old piece.now result) (outcome_with room.new (found_of result)) }
        ensures after { self.new ≡ after_next (fed_with self.old piece.now result) (outcome_with room.new (found_of result)) }
        ensures within { taken_with self.old piece.now result ≤ length piece.now }
        ensures all { outcome_with room.new (found_of result) ≡ Ok Item.More → taken_with self.old piece.now result ≡ length piece.now }
    {
        let count = self.take(piece);
        match self.step(room) {
            Ok(found) => match found {
                Found::More => Ok((found, count)),
                _ => {
                    let behind = count.min(self.waiting.len());
                    self.leave(behind);
                    Ok((found, count - behind))
                }
            },
            Err(fault) => Err(fault),
        }
    }

    /// Forgets so many of the last bytes that wait.
    fn leave(&mut self, count: usize)
        requires { count ≤ length self.old.waiting }
        ensures { self.new ≡ record self.old { waiting = take (length self.old.waiting - count) self.old.waiting } }
    {
        self.waiting.leave(count);
        self.quiet = 0;
    }

    /// The next item; what it has is written to `room`, all but the count of an `End`.
    #[inline(always)]
    fn step(&mut self, room: &mut Room) -> Result<Found, TraceFault>
        ensures answer { Answered self.old (outcome_with room.new result) }
        ensures after { self.new ≡ after_next self.old (outcome_with room.new result) }
    {
        if self.waiting.len() < self.quiet {
            return Ok(Found::More);
        }
        if self.waiting.may_be_cut() && self.is_cut() {
            return Ok(Found::More);
        }
        self.tries(room)
    }

    /// Whether an event record that is cut short is found to wait. Where the answer is false, nothing is said.
    #[inline(never)]
    fn is_cut(&mut self) -> bool
        ensures cut { result ≡ true → Answered self.old (Ok Item.More) }
        ensures same { self.new ≡ self.old }
    {
        if self.fault.is_some() || !takes_events(self.stage) {
            return false;
        }
        self.quiet = self.waiting.cut_below();
        self.quiet != 0
    }

    /// Up to how many bytes an opening record that waits is known to be cut short: 0 where none waits.
    fn quiet_below(&self) -> usize
        ensures { IsQuiet self.now result }
    {
        if self.fault.is_some() || !takes_openings(self.stage) {
            return 0;
        }
        opening_cut_below(self.waiting.bytes())
    }

    /// Tries the record at the front of the bytes that wait; what is read is written to `room`.
    #[inline(never)]
    fn tries(&mut self, room: &mut Room) -> Result<Found, TraceFault>
        ensures answer { Answered self.old (outcome_with room.new result) }
        ensures after { self.new ≡ after_next self.old (outcome_with room.new result) }
    {
        if let Some(fault) = self.fault {
            return Err(fault);
        }
        match read_at(self.stage, self.place, self.waiting.bytes(), room) {
            Ok((found, length)) => {
                self.waiting.pass(length);
                self.quiet = 0;
                self.place += length as u64;
                self.stage = advanced(self.stage, found, room);
                if found == Found::More {
                    self.quiet = self.quiet_below();
                }
                Ok(found)
            }
            Err(fault) => {
                self.quiet = 0;
                self.fault = Some(fault);
                Err(fault)
            }
        }
    }
}

/// The item that was found, with what was written to the room.
fn item_from(found: Found, room: &Room) -> Item
    ensures { result ≡ item_of room.now found }
{
    match found {
        Found::Header => Item::Header(room.version, room.setup),
        Found::Name => Item::Name {
            stream: room.stream,
            name: name_from(&room.name),
        },
        Found::Opened => Item::Opened {
            line: room.line,
            bytes: room.bytes,
        },
        Found::Event => Item::Event(room.event.event()),
        Found::End { count } => Item::End { count },
        Found::More => Item::More,
    }
}

/// A name of its own.
fn name_from(name: &ArrayVec<u8, 32>) -> ArrayVec<u8, 32>
    ensures { result ≡ name.now }
{
    let mut own = ArrayVec::new();
    let _fits = own.try_extend_from_slice(name);
    own
}
