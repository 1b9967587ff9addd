// What is chosen next.
ghost use Rattle.std.specs.Prelude.{◌≡◌, List};
ghost use Rattle.cxl_message.specs.declared.events.Event.{Event as AnEvent};
ghost use Rattle.driven_laws.specs.Scripts.{IsDrivable};
ghost use Rattle.step_driver.specs.Driver.{IsKept};
ghost use Rattle.step_driver.specs.Picks.{IsChosen};

use crate::table::StreamTable;
use event_room::EventRoom;
use machine::Machine;
use script_text::Script;

/// What can be chosen (own rule): the next steps, and behind them the operations that streams are offered.
#[derive(Clone, Copy, PartialEq, Eq, Debug)]
pub enum Choice {
    /// The next step of this number.
    Step(u32),
    /// The next operation of this stream.
    Offer(u8),
}

/// The choice of a pick: that of its number modulo their count. The hosts are asked only where that tells. The room may be written
/// over.
pub fn choose(
    script: &Script,
    machine: &Machine,
    table: &mut StreamTable,
    pick: u16,
    made: &mut EventRoom,
) -> Option<Choice>
    requires drivable { IsDrivable script.now }
    requires kept { (t : List AnEvent) × IsKept script.now machine.now table.old t }
    ensures kept { (t : List AnEvent) → IsKept script.now machine.now table.old t → IsKept script.now machine.now table.new t }
    ensures chosen { (t : List AnEvent) → IsKept script.now machine.now table.old t → IsChosen script.now machine.now t pick result }
{
    let steps = machine.choices();
    if pick == 0 && steps > 0 {
        return Some(Choice::Step(0));
    }
    table.ask(script, machine, made);
    let all = steps + table.offer_count(script);
    if all == 0 {
        return None;
    }
    let k = u32::from(pick) % all;
    if k < steps {
        return Some(Choice::Step(k));
    }
    match table.offer_at(script, k - steps) {
        Some(stream) => Some(Choice::Offer(stream)),
        None => None,
    }
}
