// Making the next step of a number.
ghost use Rattle.std.specs.Prelude.{◌≡◌, ◌∷◌, Some, false, slice_get, true};
ghost use Rattle.coherence_model.specs.Fitting.{is_device as agent_is_device};
ghost use Rattle.coherence_model.specs.Next.{next_steps};
ghost use Rattle.machine.specs.Stands.{StandsFor, WhereStands};
ghost use Rattle.machine.specs.Steps.{IsChoice, IsStepAt};

use crate::agents::perform_at_host;
use crate::judging::is_device;
use crate::machine::Machine;
use crate::moving::move_made;
use crate::steps::Step;
use event_room::EventRoom;

impl Machine {
    /// Makes the next step of a number, which is below `choices`: its event is written into a room, and the machine stands for the run
    /// with it then. The row is decided once. It takes no memory.
    pub fn perform(&mut self, k: u32, made: &mut EventRoom)
        requires { IsChoice self.old k }
        ensures next { WhereStands self.old (λ setup opening t. slice_get (next_steps setup opening t) k ≡ Some made.new) }
        ensures goes_on { WhereStands self.old (λ setup opening t. StandsFor self.new setup opening (made.new ∷ t)) }
    {
        let Some(step) = self.step_at(k) else {
            unreachable!("the number is below the number of next steps")
        };
        self.perform_step(k, &step, made);
    }

    /// Makes the next step of a number, which is this one.
    fn perform_step(&mut self, k: u32, step: &Step, made: &mut EventRoom)
        requires { IsStepAt self.old k step.now }
        ensures next { WhereStands self.old (λ setup opening t. slice_get (next_steps setup opening t) k ≡ Some made.new) }
        ensures goes_on { WhereStands self.old (λ setup opening t. StandsFor self.new setup opening (made.new ∷ t)) }
    {
        if is_device(step.agent) {
            self.perform_of_device(k, step, made);
        } else {
            self.perform_of_host(k, step, made);
        }
    }

    /// Makes a next step of the device.
    fn perform_of_device(&mut self, k: u32, step: &Step, made: &mut EventRoom)
        requires step { IsStepAt self.old k step.now }
        requires device { agent_is_device step.now.agent ≡ true }
        ensures next { WhereStands self.old (λ setup opening t. slice_get (next_steps setup opening t) k ≡ Some made.new) }
        ensures goes_on { WhereStands self.old (λ setup opening t. StandsFor self.new setup opening (made.new ∷ t)) }
    {
        self.device.perform(&step.cause, made);
        move_made(&mut self.links, &step.cause, made);
    }

    /// Makes a next step of a host.
    fn perform_of_host(&mut self, k: u32, step: &Step, made: &mut EventRoom)
        requires step { IsStepAt self.old k step.now }
        requires host { agent_is_device step.now.agent ≡ false }
        ensures next { WhereStands self.old (λ setup opening t. slice_get (next_steps setup opening t) k ≡ Some made.new) }
        ensures goes_on { WhereStands self.old (λ setup opening t. StandsFor self.new setup opening (made.new ∷ t)) }
    {
        perform_at_host(&mut self.hosts, step.agent, &step.cause, made);
        move_made(&mut self.links, &step.cause, made);
    }
}
