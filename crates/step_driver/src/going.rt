// The next event of a trace that is put.
ghost use Rattle.std.specs.Prelude.{◌≡◌, ◌∷◌, IsTrue, List, false};
ghost use Rattle.cxl_message.specs.declared.events.Event.{Event as AnEvent};
ghost use Rattle.coherence_model.specs.Driven.{pick_now, picks_left};
ghost use Rattle.driven_laws.specs.Scripts.{IsDrivable};
ghost use Rattle.step_driver.specs.Schedules.{IsAt, target};

use crate::journals::Journals;
use crate::schedules::Schedule;
use crate::table::StreamTable;
use crate::turns::turn;
use event_room::EventRoom;
use machine::Machine;
use script_text::Script;

/// Makes the next event of the scheduled trace, and writes it into a room; `false` exactly where the trace is at its end.
pub fn go_on(
    schedule: Schedule,
    script: &Script,
    machine: &mut Machine,
    table: &mut StreamTable,
    journals: &mut Journals,
    picks: &[u16],
    made: &mut EventRoom,
) -> bool
    requires drivable { IsDrivable script.now }
    requires at { (t : List AnEvent) × IsAt schedule script.now machine.old table.old journals.old.0 picks.now t }
    ensures ends { (t : List AnEvent) → IsAt schedule script.now machine.old table.old journals.old.0 picks.now t → result ≡ false → t ≡ target schedule script.now }
    ensures goes { (t : List AnEvent) → IsAt schedule script.now machine.old table.old journals.old.0 picks.now t → IsTrue result → IsAt schedule script.now machine.new table.new journals.new.0 (picks_left picks.now) (made.new ∷ t) }
{
    if !turn(script, machine, table, pick_of(picks), made) {
        return false;
    }
    journals.enter(made, schedule.room(script))
}

/// The pick that is used now: 0 once the picks are used up.
fn pick_of(picks: &[u16]) -> u16
    ensures { result ≡ pick_now picks.now }
{
    match picks {
        [] => 0,
        [pick, ..] => *pick,
    }
}

/// The picks that are left after one was used.
pub fn left_of(picks: &[u16]) -> &[u16]
    ensures { result.now ≡ picks_left picks.now }
{
    match picks {
        [] => picks,
        [_, left @ ..] => left,
    }
}
