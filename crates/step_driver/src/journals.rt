// How many events each agent has.
ghost use Rattle.std.specs.Prelude.{◌≡◌, ◌<◌, IsTrue, get_or, length, nat_lt};
ghost use Rattle.step_driver.specs.Driver.{one_counted};
ghost use Rattle.step_driver.specs.Schedules.{no_events};

use event_room::EventRoom;

/// How many events of each agent are put: those of the hosts by their numbers, and the device's.
#[derive(Drop)]
pub struct Journals(pub [u32; 17]);

impl Journals {
    /// Before the first event.
    pub fn new() -> Journals
        ensures { result.0 ≡ no_events }
    {
        Journals([0; 17])
    }

    /// Counts an event, unless its agent has as many already as there is room for.
    pub fn enter(&mut self, event: &EventRoom, room: u32) -> bool
        requires agent { event.now.agent < length self.old.0 }
        ensures room { result ≡ nat_lt (get_or self.old.0 event.now.agent 0) room }
        ensures counted { IsTrue result → self.new.0 ≡ one_counted event.now.agent self.old.0 }
    {
        let agent = event.agent() as usize;
        if self.0[agent] >= room {
            return false;
        }
        self.0[agent] += 1;
        true
    }
}
