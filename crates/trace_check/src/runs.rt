// The run that the events of a trace are so far.
ghost use Rattle.std.specs.Prelude.{◌∷◌, ◌≡◌, ◌+◌, ◌^◌, ◌<◌, OnErr, OnOk, [], IfOk, true};
ghost use Rattle.std.specs.Option.{option_len};
ghost use Rattle.coherence_model.specs.Runs.{first_broken};
ghost use Rattle.cxl_message.specs.Opening.{opening_fits};
ghost use Rattle.machine.specs.Stands.{StandsFor, WhereStands, verdict};

use cxl_message::{Opening, RuleNo, Setup};
use event_room::EventRoom;
use machine::{Machine, OpenMachineRefusal};
use std::alloc::{AllocError, Global};

/// A run that grows event by event (own rule): the machine that stands for it, and its numbers.
#[derive(Drop)]
pub struct Run {
    machine: Machine,
    /// How many events it has.
    pub events: u64,
    /// How many of them commit.
    pub commits: u64,
}

impl Run {
    /// The run without events of a setup and an opening that names lines of it.
    pub fn open(alloc: Global, setup: &Setup, opening: &Opening) -> Result<Run, AllocError>
        requires { opening_fits setup.now.lines opening.now ≡ true }
        ensures stands { IfOk result (λ run. StandsFor run.machine setup.now opening.now []) }
        ensures events { IfOk result (λ run. run.events ≡ 0) }
        ensures commits { IfOk result (λ run. run.commits ≡ 0) }
    {
        match Machine::open(alloc, setup, opening) {
            Ok(machine) => Ok(Run {
                machine,
                events: 0,
                commits: 0,
            }),
            Err(OpenMachineRefusal::BadOpening) => {
                unreachable!("a trace opens lines of its setup")
            }
            Err(OpenMachineRefusal::Memory) => Err(AllocError),
        }
    }

    /// Goes on by an event that is allowed next. Any other one is refused by the first rule that it breaks, and changes nothing.
    pub fn judge(&mut self, event: &EventRoom) -> Result<(), RuleNo>
        requires events { self.old.events + 1 < 2 ^ 64 }
        requires commits { self.old.commits + 1 < 2 ^ 64 }
        ensures answer { WhereStands self.old.machine (λ setup opening t. result ≡ verdict (first_broken setup opening t event.now)) }
        ensures goes_on { WhereStands self.old.machine (λ setup opening t. OnOk result (StandsFor self.new.machine setup opening (event.now ∷ t))) }
        ensures events { OnOk result (self.new.events ≡ self.old.events + 1) }
        ensures commits { OnOk result (self.new.commits ≡ self.old.commits + option_len event.now.commit) }
        ensures refused { OnErr result (self.new ≡ self.old) }
    {
        self.machine.judge(event)?;
        self.events += 1;
        if event.commit().is_some() {
            self.commits += 1;
        }
        Ok(())
    }
}
