// Going on by an event, with what the laws of every run say of it.
ghost use Rattle.std.specs.Prelude.{◌≡◌, ◌∷◌, IsTrue, OnErr, OnOk};
ghost use Rattle.coherence_model.specs.Runs.{first_broken};
ghost use Rattle.coherence_model.specs.Weight.{weight_is_bounded};
ghost use Rattle.coherent_runs.specs.Coherent.{IsCoherent};
ghost use Rattle.machine.specs.Stands.{StandsFor, WhereStands, verdict};

use cxl_message::{Event, RuleNo};
use machine::Machine;

/// Applies an event, as `Machine::apply` does, and the laws of every run hold of the run that the machine stands for then: its commits
/// are a legal history of a flat memory, after each front of it a writable copy is the only copy of its line, and where something is
/// pending some step that isn't an operation is next; and the event lowered the weight, or is an operation and raised it by at most
/// `108 * H - 4` (CXL 3.1, chapter 3: the states of copies; own rule: what is pending, and the weights). An event that isn't allowed is
/// refused by the first rule that it breaks, in the order P0, K0, S0, the row, and changes nothing. It takes no memory.
pub fn advance(machine: &mut Machine, event: &Event) -> Result<(), RuleNo>
    ensures answer { WhereStands machine.old (λ setup opening t. result ≡ verdict (first_broken setup opening t event.now)) }
    ensures goes_on { WhereStands machine.old (λ setup opening t. OnOk result (StandsFor machine.new setup opening (event.now ∷ t))) }
    ensures coherent { WhereStands machine.old (λ setup opening t. OnOk result (IsCoherent setup opening (event.now ∷ t))) }
    ensures weight { WhereStands machine.old (λ setup opening t. OnOk result (IsTrue (weight_is_bounded setup t event.now))) }
    ensures refused { OnErr result (machine.new ≡ machine.old) }
{
    machine.apply(event)
}
