// What was judged of the items that were read.
ghost use Rattle.std.specs.Prelude.{◌++◌, ◌∷◌, ◌<◌, ◌^◌, ◌≡◌, ◌↔◌, IsOk, IsTrue, List, OnOk, [], length};
ghost use Rattle.cxl_message.specs.declared.events.Event.{Event as AnEvent};
ghost use Rattle.cxl_message.specs.Setup.{Configuration};
ghost use Rattle.coherence_model.specs.Verdicts.{verdict_on};
ghost use Rattle.trace_stream.specs.Items.{item_of};
ghost use Rattle.trace_stream.specs.declared.items.Item.{Item};
ghost use Rattle.trace_check.specs.Items.{events_in, openings_in, setups_in};
ghost use Rattle.trace_check.specs.Judged.{GoesOnBy, IsBegun, IsJudged, IsLost, IsSettled};
ghost use Rattle.trace_check.specs.Verdicts.{as_verdict};

use crate::runs::Run;
use crate::verdicts::Verdict;
use cxl_message::{Bytes64, Line, Opening, OpeningRefusal, RuleNo, Setup};
use event_room::EventRoom;
use std::alloc::{AllocError, Global};
use trace_stream::{Found, Room};

/// How far the judging of a trace is (own rule).
#[derive(Drop)]
pub enum Judging {
    /// Nothing was read.
    Start,
    /// The header was read, and these openings.
    Opened { setup: Setup, opening: Opening },
    /// Events were read, which are a run.
    Running(Run),
    /// The event of this number was the first that isn't allowed, and breaks this rule.
    Broken { event: u64, rule: RuleNo },
    /// Memory was wanting.
    NoMemory,
}

impl Judging {
    /// Judges one more item, which stands in a room. Once an event was judged, no memory is taken.
    pub fn take(&mut self, alloc: Global, found: Found, room: &Room) -> Result<(), AllocError>
        requires { (items : List Item) × GoesOnBy items (item_of room.now found) self.old }
        ensures judged { (items : List Item) → GoesOnBy items (item_of room.now found) self.old → OnOk result (IsJudged (items ++ item_of room.now found ∷ []) self.new) }
        ensures settled { IsSettled self.old → IsOk result }
        ensures stays { IsSettled self.old → IsSettled self.new }
    {
        match found {
            Found::Header => {
                *self = Judging::Opened {
                    setup: room.setup,
                    opening: Opening::new(alloc),
                };
                Ok(())
            }
            Found::Opened => self.open_line(room.line, &room.bytes),
            Found::Event => self.judge(alloc, &room.event),
            Found::Name => Ok(()),
            Found::End { .. } => Ok(()),
            Found::More => Ok(()),
        }
    }

    /// Adds a line to the opening.
    fn open_line(&mut self, line: Line, bytes: &Bytes64) -> Result<(), AllocError>
        requires { (items : List Item) × GoesOnBy items (Item.Opened line bytes.now) self.old }
        ensures judged { (items : List Item) → GoesOnBy items (Item.Opened line bytes.now) self.old → OnOk result (IsJudged (items ++ Item.Opened line bytes.now ∷ []) self.new) }
        ensures unsettled { IsSettled self.old → ⊥ }
    {
        let Judging::Opened { opening, .. } = self else {
            unreachable!("lines are opened behind the header and before the events")
        };
        match opening.add(line, bytes) {
            Ok(()) => Ok(()),
            Err(OpeningRefusal::Memory) => Err(AllocError),
            Err(OpeningRefusal::Order) => unreachable!("a reader refuses lines out of order"),
            Err(OpeningRefusal::Zero) => unreachable!("a reader refuses a line of zeros"),
        }
    }

    /// Judges one more event. The first one makes the machine.
    fn judge(&mut self, alloc: Global, event: &EventRoom) -> Result<(), AllocError>
        requires { (items : List Item) × GoesOnBy items (Item.Event event.now) self.old }
        ensures judged { (items : List Item) → GoesOnBy items (Item.Event event.now) self.old → OnOk result (IsJudged (items ++ Item.Event event.now ∷ []) self.new) }
        ensures settled { IsSettled self.old → IsOk result }
        ensures stays { IsSettled self.old → IsSettled self.new }
    {
        self.begin(alloc)?;
        self.judge_next(event);
        Ok(())
    }

    /// Makes the machine, unless it was made.
    fn begin(&mut self, alloc: Global) -> Result<(), AllocError>
        requires { (items : List Item) × (e : AnEvent) × GoesOnBy items (Item.Event e) self.old }
        ensures begun { (items : List Item) (e : AnEvent) → GoesOnBy items (Item.Event e) self.old → OnOk result (IsBegun items self.new) }
        ensures settled { IsSettled self.old → IsOk result }
        ensures stays { IsSettled self.old → IsSettled self.new }
    {
        if let Judging::Opened { setup, opening } = self {
            let run = Run::open(alloc, setup, opening)?;
            *self = Judging::Running(run);
        }
        Ok(())
    }

    /// Judges one more event by the machine, unless one wasn't allowed before.
    fn judge_next(&mut self, event: &EventRoom)
        requires { (items : List Item) × IsBegun items self.old × (length (events_in items) < 2 ^ 63) }
        ensures judged { (items : List Item) → IsBegun items self.old → IsJudged (items ++ Item.Event event.now ∷ []) self.new }
        ensures stays { IsSettled self.old → IsSettled self.new }
    {
        if let Judging::Running(run) = self {
            if let Err(rule) = run.judge(event) {
                *self = Judging::Broken {
                    event: run.events,
                    rule,
                };
            }
        }
    }

    /// Whether memory was wanting.
    pub fn is_lost(&self) -> bool
        ensures { IsTrue result ↔ IsLost self.now }
    {
        matches!(self, Judging::NoMemory)
    }

    /// The verdict on the items of a whole trace.
    pub fn verdict(&self) -> Verdict
        requires { (items : List Item) × (setup : Configuration) × (setups_in items ≡ setup ∷ []) × IsJudged items self.now }
        ensures { (items : List Item) (setup : Configuration) → setups_in items ≡ setup ∷ [] → IsJudged items self.now → result ≡ as_verdict (verdict_on setup (openings_in items) (events_in items)) }
    {
        match self {
            Judging::Start => unreachable!("a trace has a header"),
            Judging::Opened { .. } => Verdict::Run {
                events: 0,
                commits: 0,
            },
            Judging::Running(run) => Verdict::Run {
                events: run.events,
                commits: run.commits,
            },
            Judging::Broken { event, rule } => Verdict::Broken {
                event: *event,
                rule: *rule,
            },
            Judging::NoMemory => unreachable!("memory wasn't wanting"),
        }
    }
}
