// What is counted of events: how many operations of each kind begin on each line, events and commits.
ghost use Rattle.std.specs.Prelude.{◌≡◌, ◌+◌, ◌-◌, ◌^◌, ◌<◌, ◌++◌, ◌∷◌, [], List, IsTrue, OnErr, OnOk};
ghost use Rattle.cxl_message.specs.declared.events.Event.{Event as SomeEvent};
ghost use Rattle.event_room.specs.Parts.{cause_of};
ghost use Rattle.cxl_view.specs.Tallies.{counts_of, tally_lines};
ghost use Rattle.cxl_view.specs.Counting.{and_event, names_first};

use crate::counting::{LineTally, count_cause};
use crate::totals::put_tallies;
use cxl_message::Event;
use event_room::{CauseRef, EventRoom};
use indexmap::IndexMap;
use std::alloc::{AllocError, Global};
use std::marker::Model;

/// What is counted of the events of a trace: how many operations of each kind begin on each line that the setup has, how many
/// events there are, and how many of them commit (own rule).
#[derive(Drop)]
pub struct Tallies {
    lines: u32,
    on_lines: IndexMap<u32, LineTally>,
    events: u64,
    commits: u64,
}

impl Model for Tallies {
    ghost use Rattle.cxl_view.specs.Tallies.{Counts};
    ghost use Rattle.cxl_view.specs.Counting.{AreWithin};

    ghost Value = { Counts };

    ghost view = { λ t. record { lines = t.lines; on_lines = t.on_lines.entries; events = t.events; commits = t.commits } };

    ghost invariant = { λ t. AreWithin t.events t.on_lines.entries t.commits };
}

impl Tallies {
    /// Nothing is counted yet, of a setup with so many lines.
    pub fn new(alloc: Global, lines: u32) -> Tallies
        ensures { result ≡ counts_of lines [] }
    {
        Tallies {
            lines,
            on_lines: IndexMap::new(alloc),
            events: 0,
            commits: 0,
        }
    }

    /// How many events are counted.
    pub fn events(&self) -> u64
        ensures { result ≡ self.now.events }
    {
        self.events
    }

    /// How many of them commit an operation.
    pub fn commits(&self) -> u64
        ensures { result ≡ self.now.commits }
    {
        self.commits
    }

    /// Counts an event. Its operation counts where the setup has the line. The error is want of memory, only where the event
    /// begins an operation on a line that no operation before it named; then nothing is counted.
    #[tactic(auto, using(crate::proofs::Counted::event_counted))]
    pub fn count(&mut self, event: &Event) -> Result<(), AllocError>
        requires { self.old.events < 2 ^ 64 - 1 }
        ensures ok { (events : List SomeEvent) → self.old ≡ counts_of self.old.lines events → OnOk result (self.new ≡ counts_of self.old.lines (events ++ event.now ∷ [])) }
        ensures more { OnOk result (self.new.events ≡ self.old.events + 1) }
        ensures memory { OnErr result (IsTrue (names_first self.old event.now.cause)) }
        ensures err { OnErr result (self.new ≡ self.old) }
    {
        self.count_parts(CauseRef::of(&event.cause), event.commit.is_some())
    }

    /// Counts the event in a room, as `count` does an event.
    #[tactic(auto, using(crate::proofs::Counted::event_counted))]
    pub fn count_room(&mut self, room: &EventRoom) -> Result<(), AllocError>
        requires { self.old.events < 2 ^ 64 - 1 }
        ensures ok { (events : List SomeEvent) → self.old ≡ counts_of self.old.lines events → OnOk result (self.new ≡ counts_of self.old.lines (events ++ room.now ∷ [])) }
        ensures more { OnOk result (self.new.events ≡ self.old.events + 1) }
        ensures memory { OnErr result (IsTrue (names_first self.old room.now.cause)) }
        ensures err { OnErr result (self.new ≡ self.old) }
    {
        self.count_parts(room.cause(), room.commit().is_some())
    }

    /// Counts an event by its cause and by whether it commits.
    #[tactic(auto, using(crate::proofs::Within::all_within_cause))]
    fn count_parts(&mut self, cause: CauseRef<'_>, commits: bool) -> Result<(), AllocError>
        requires { self.old.events < 2 ^ 64 - 1 }
        ensures ok { OnOk result (self.new ≡ and_event self.old (cause_of cause.entry) commits) }
        ensures memory { OnErr result (IsTrue (names_first self.old (cause_of cause.entry))) }
        ensures err { OnErr result (self.new ≡ self.old) }
    {
        count_cause(&mut self.on_lines, self.lines, cause)?;
        self.events += 1;
        if commits {
            self.commits += 1;
        }
        Ok(())
    }

    /// Appends the lines of text of what is counted: each line that operations named, in the order in which they first named
    /// it, and then events and commits (own rule). The error is want of memory, and `out` is then as before.
    pub fn render(&self, out: &mut Vec<u8>) -> Result<(), AllocError>
        ensures ok { OnOk result (out.new.items ≡ out.old.items ++ tally_lines self.now) }
        ensures err { OnErr result (out.new.items ≡ out.old.items) }
    {
        let length = out.len();
        let shown = put_tallies(out, &self.on_lines, self.events, self.commits);
        if shown.is_err() {
            out.truncate(length);
        }
        shown
    }
}
