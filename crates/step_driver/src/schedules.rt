// Which trace of a script is put.
ghost use Rattle.std.specs.Prelude.{◌≡◌};
ghost use Rattle.step_driver.specs.Schedules.{picks_of, room_of};

use script_text::Script;

/// Which trace of a script is put (own rule).
#[derive(Clone, Copy, PartialEq, Eq, Debug)]
pub enum Schedule {
    /// The driven trace, by the script's picks.
    Picked,
    /// The serial trace: by the first choices, until an event has no room in its agent's journal.
    Serial,
}

impl Schedule {
    /// The picks by which choices are taken.
    pub fn picks(self, script: &Script) -> &[u16]
        ensures { result.now ≡ picks_of self script.now }
    {
        match self {
            Schedule::Picked => script.picks(),
            Schedule::Serial => &[],
        }
    }

    /// How many events of each agent there is room for.
    pub fn room(self, script: &Script) -> u32
        ensures { result ≡ room_of self script.now }
    {
        match self {
            Schedule::Picked => u32::MAX,
            Schedule::Serial => script.room(),
        }
    }
}
