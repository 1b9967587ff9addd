// How far the streams of a script are.
ghost use Rattle.std.specs.Prelude.{◌≡◌, ◌<◌, List, length};
ghost use Rattle.std.specs.List.{list_all};
ghost use Rattle.cxl_message.specs.declared.events.Event.{Event as AnEvent};
ghost use Rattle.coherence_model.specs.Choices.{is_all_begun, streams_of};
ghost use Rattle.step_driver.specs.Driver.{IsCounted, MayCount, counts_after, empty_table, noted};
ghost use Rattle.event_room.specs.Parts.{cause_of};

use event_room::{CauseRef, EventRoom};
use script_text::Script;

/// For each stream how many operations it began, and whether its host offers its next one, where the host was asked since its last
/// event.
#[derive(Drop)]
pub struct StreamTable {
    pub begun: [u32; 64],
    pub offered: [bool; 64],
    pub asked: [bool; 16],
}

impl StreamTable {
    /// The table before the first event.
    pub fn new() -> StreamTable
        ensures { result ≡ empty_table }
    {
        StreamTable {
            begun: [0; 64],
            offered: [false; 64],
            asked: [false; 16],
        }
    }

    /// Whether each stream has begun all of its operations.
    pub fn all_begun(&self, script: &Script) -> bool
        ensures { (t : List AnEvent) → IsCounted script.now self.now.begun t → result ≡ list_all (is_all_begun t) (streams_of script.now) }
    {
        for stream in 0..script.setup().streams().len() {
            if self.begun[stream] as usize != script.ops(stream as u8).len() {
                return false;
            }
        }
        true
    }

    /// Counts the operation that an event begins, if it begins one, and forgets what its host offered.
    pub fn note(&mut self, event: &EventRoom)
        requires { MayCount event.now.cause self.old.begun }
        ensures { self.new ≡ noted event.now self.old }
    {
        self.count(event.cause());
        let agent = event.agent() as usize;
        if agent < self.asked.len() {
            self.asked[agent] = false;
        }
    }

    /// Counts the operation that a cause begins, if it begins one.
    fn count(&mut self, cause: CauseRef<'_>)
        requires { MayCount (cause_of cause) self.old.begun }
        ensures begun { self.new.begun ≡ counts_after (cause_of cause.entry) self.old.begun }
        ensures offered { self.new.offered ≡ self.old.offered }
        ensures asked { self.new.asked ≡ self.old.asked }
    {
        match cause {
            CauseRef::Op { stream, .. } => self.begun[stream as usize] += 1,
            CauseRef::Take { .. } | CauseRef::Act(_) => {}
        }
    }
}
