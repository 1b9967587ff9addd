// Whether a machine is at rest.
ghost use Rattle.std.specs.Prelude.{◌≡◌, ◌==◌, IsTrue, false, length};
ghost use Rattle.coherence_laws.specs.Laws.{ReadyStreamsAreOffered};
ghost use Rattle.coherence_model.specs.Next.{next_steps};
ghost use Rattle.coherence_model.specs.Pending.{is_pending};
ghost use Rattle.machine.specs.Stands.{WhereStands};

use machine::Machine;

/// Whether no step that isn't an operation is next after the run that the machine stands for. Then nothing is pending, and each stream
/// whose last operation has its commit, and that made fewer than 4,294,967,295 operations, is offered each operation whose line the setup
/// has and whose place, if it is a Word, is below 8 (own rule: what is pending, and the limit of a stream). It takes no memory.
pub fn quiet(machine: &Machine) -> bool
    ensures none { WhereStands machine.now (λ setup opening t. result ≡ (length (next_steps setup opening t) == 0)) }
    ensures rest { WhereStands machine.now (λ setup opening t. IsTrue result → is_pending setup t ≡ false) }
    ensures offers { WhereStands machine.now (λ setup opening t. IsTrue result → ReadyStreamsAreOffered setup t) }
{
    machine.choices() == 0
}
