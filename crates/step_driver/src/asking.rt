// What the hosts offer to the streams of a script.
ghost use Rattle.std.specs.Prelude.{◌≡◌, ◌<◌, ◌≤◌, List, length, option_map, slice_get};
ghost use Rattle.cxl_message.specs.declared.events.Event.{Event as AnEvent};
ghost use Rattle.choice_laws.specs.Answered.{next_answer};
ghost use Rattle.coherence_model.specs.Choices.{Stream};
ghost use Rattle.driven_laws.specs.Scripts.{IsDrivable};
ghost use Rattle.machine.specs.Stands.{StandsFor};
ghost use Rattle.step_driver.specs.Driver.{IsAsked, IsKept, IsNext, IsStreamOf, one_if};
ghost use Rattle.step_driver.specs.Picks.{IsOfferAt, offers as all_offers};

use crate::table::StreamTable;
use cxl_message::Cause;
use event_room::EventRoom;
use machine::Machine;
use script_text::Script;

impl StreamTable {
    /// Asks each host that made an event since it was asked what it offers to its streams. The room is written over.
    pub fn ask(&mut self, script: &Script, machine: &Machine, made: &mut EventRoom)
        requires drivable { IsDrivable script.now }
        requires kept { (t : List AnEvent) × IsKept script.now machine.now self.old t }
        ensures kept { (t : List AnEvent) → IsKept script.now machine.now self.old t → IsKept script.now machine.now self.new t }
        ensures asked { (t : List AnEvent) → IsKept script.now machine.now self.old t → IsAsked script.now self.new.offered t }
    {
        for stream in 0..script.setup().streams().len() {
            self.offered[stream] = self.offers(script, machine, stream as u8, made);
        }
        self.asked = [true; 16];
    }

    /// Whether a stream's host offers its next operation. The room may be written over.
    fn offers(&self, script: &Script, machine: &Machine, stream: u8, made: &mut EventRoom) -> bool
        requires drivable { IsDrivable script.now }
        requires kept { (t : List AnEvent) × IsKept script.now machine.now self.now t }
        requires stream { stream < length script.now.setup.streams }
        ensures { (t : List AnEvent) → IsKept script.now machine.now self.now t → (y : Stream) → IsStreamOf script.now y → y.number ≡ stream → length (next_answer script.now t y) ≡ one_if result }
    {
        let Some(host) = script.setup().stream_host(stream) else {
            unreachable!("the script has the stream")
        };
        if self.asked[host as usize] {
            return self.offered[stream as usize];
        }
        is_offered(script, machine, self.begun[stream as usize], stream, made)
    }

    /// How many streams are offered an operation, where each host was asked.
    pub fn offer_count(&self, script: &Script) -> u32
        requires drivable { IsDrivable script.now }
        ensures count { (t : List AnEvent) → IsAsked script.now self.now.offered t → result ≡ length (all_offers script.now t) }
        ensures few { result ≤ 64 }
    {
        let mut count = 0u32;
        for stream in 0..script.setup().streams().len() {
            if self.offered[stream] {
                count += 1;
            }
        }
        count
    }

    /// The stream of a number among those that are offered an operation, where each host was asked.
    pub fn offer_at(&self, script: &Script, k: u32) -> Option<u8>
        requires drivable { IsDrivable script.now }
        ensures { (t : List AnEvent) → IsAsked script.now self.now.offered t → IsOfferAt script.now t (slice_get (all_offers script.now t) k) result }
    {
        let mut left = k;
        for stream in 0..script.setup().streams().len() {
            if self.offered[stream] {
                if left == 0 {
                    return Some(stream as u8);
                }
                left -= 1;
            }
        }
        None
    }
}

/// Asks a stream's host whether it offers the operation after so many that began. The room may be written over.
fn is_offered(
    script: &Script,
    machine: &Machine,
    begun: u32,
    stream: u8,
    made: &mut EventRoom,
) -> bool
    requires setup { machine.now.setup ≡ script.now.setup }
    requires stream { stream < length script.now.setup.streams }
    ensures { (t : List AnEvent) → StandsFor machine.now script.now.setup script.now.opening t → (y : Stream) → IsNext script.now y stream begun t → length (next_answer script.now t y) ≡ one_if result }
{
    let Some(op) = script.ops(stream).get(begun as usize) else {
        return false;
    };
    let Some(host) = script.setup().stream_host(stream) else {
        unreachable!("the script has the stream")
    };
    let cause = Cause::Op {
        stream,
        index: begun,
        op: *op,
    };
    machine.host(host).would_into(&cause, made).is_ok()
}
