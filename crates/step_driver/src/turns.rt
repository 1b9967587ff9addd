// One turn of driving.
ghost use Rattle.std.specs.Prelude.{◌≡◌, IsTrue, List, Some, false, ℕ};
ghost use Rattle.cxl_message.specs.declared.events.Event.{Event as AnEvent};
ghost use Rattle.coherence_model.specs.Choices.{is_done as all_done};
ghost use Rattle.driven_laws.specs.Scripts.{IsDrivable};
ghost use Rattle.step_driver.specs.Driver.{IsKept};
ghost use Rattle.step_driver.specs.Picks.{IsChosen, IsOfferOf, IsTaken, IsTurned, chosen};

use crate::choosing::{Choice, choose};
use crate::table::StreamTable;
use cxl_message::Cause;
use event_room::EventRoom;
use machine::Machine;
use script_text::Script;

/// Takes the choice of a pick, and writes its event into a room; `false` exactly where all is done.
pub fn turn(
    script: &Script,
    machine: &mut Machine,
    table: &mut StreamTable,
    pick: u16,
    made: &mut EventRoom,
) -> bool
    requires drivable { IsDrivable script.now }
    requires kept { (t : List AnEvent) × IsKept script.now machine.old table.old t }
    ensures ends { (t : List AnEvent) → IsKept script.now machine.old table.old t → result ≡ false → IsTrue (all_done script.now t) }
    ensures goes { (t : List AnEvent) → IsKept script.now machine.old table.old t → IsTrue result → IsTurned script.now machine.new table.new pick t made.new }
{
    if is_done(script, machine, table) {
        return false;
    }
    let Some(choice) = choose(script, machine, table, pick, made) else {
        unreachable!("where not all is done, something can be chosen")
    };
    take(script, machine, table, choice, made);
    table.note(made);
    true
}

/// Whether each stream has begun all of its operations, and nothing is pending.
fn is_done(script: &Script, machine: &Machine, table: &StreamTable) -> bool
    ensures { (t : List AnEvent) → IsKept script.now machine.now table.now t → result ≡ all_done script.now t }
{
    if machine.pending() {
        return false;
    }
    table.all_begun(script)
}

/// Makes what was chosen, and writes its event into a room.
fn take(
    script: &Script,
    machine: &mut Machine,
    table: &StreamTable,
    choice: Choice,
    made: &mut EventRoom,
)
    requires drivable { IsDrivable script.now }
    requires chosen { (t : List AnEvent) × IsKept script.now machine.old table.now t × (pick : ℕ) × IsChosen script.now machine.old t pick (Some choice) }
    ensures taken { (t : List AnEvent) → IsKept script.now machine.old table.now t → (pick : ℕ) → IsChosen script.now machine.old t pick (Some choice) → IsTaken script.now machine.new pick t made.new }
{
    match choice {
        Choice::Step(k) => machine.perform(k, made),
        Choice::Offer(stream) => begin(script, machine, table, stream, made),
    }
}

/// Begins the operation that a stream is offered, and writes its event into a room.
fn begin(
    script: &Script,
    machine: &mut Machine,
    table: &StreamTable,
    stream: u8,
    made: &mut EventRoom,
)
    requires drivable { IsDrivable script.now }
    requires offered { (t : List AnEvent) × IsKept script.now machine.old table.now t × (pick : ℕ) × IsOfferOf script.now t (chosen script.now pick t) stream }
    ensures begun { (t : List AnEvent) → IsKept script.now machine.old table.now t → (pick : ℕ) → IsOfferOf script.now t (chosen script.now pick t) stream → IsTaken script.now machine.new pick t made.new }
{
    let Some(host) = script.setup().stream_host(stream) else {
        unreachable!("the script has the stream")
    };
    let index = table.begun[stream as usize];
    let cause = Cause::Op {
        stream,
        index,
        op: script.ops(stream)[index as usize],
    };
    if machine.host(host).would_into(&cause, made).is_err() {
        unreachable!("the host offers the operation")
    }
    if machine.judge(made).is_err() {
        unreachable!("what a host offers is allowed")
    }
}
