// A script.
ghost use Rattle.std.specs.Prelude.{◌≡◌, ◌<◌, Some, length, slice_get};

use crate::drafts::Draft;
use cxl_message::{Names, Op, Opening, Setup};
use std::marker::Model;

/// A machine, the names of its streams, what its memory holds at first, what its streams do and the picks of a schedule (own rule).
#[derive(Drop)]
pub struct Script {
    draft: Draft,
}

impl Model for Script {
    ghost use Rattle.cxl_message.specs.Script.{ScriptValue};

    ghost Value = { ScriptValue };

    ghost use Rattle.script_text.specs.Drafts.{script_of};
    ghost use Rattle.script_text.specs.Script.{IsScript};

    ghost view = { λ s. script_of s.draft };

    ghost invariant = { λ s. IsScript (script_of s.draft) };
}

impl Script {
    ghost use Rattle.script_text.specs.Drafts.{script_of};
    ghost use Rattle.script_text.specs.Script.{IsScript};

    /// The script that was read.
    pub(crate) fn new(draft: Draft) -> Script
        requires { IsScript (script_of draft) }
        ensures { result ≡ script_of draft }
    {
        Script { draft }
    }

    /// The numbers of the machine, and the host of each stream.
    pub fn setup(&self) -> &Setup
        ensures setup { result.now ≡ self.now.setup }
        ensures script { IsScript self.now }
    {
        &self.draft.setup
    }

    /// The names of streams, each of a stream of the setup.
    pub fn names(&self) -> &Names
        ensures names { result.now ≡ self.now.names }
        ensures script { IsScript self.now }
    {
        &self.draft.names
    }

    /// How many events each agent's journal has room for: 1 to 200,000.
    pub fn room(&self) -> u32
        ensures room { result ≡ self.now.room }
        ensures script { IsScript self.now }
    {
        self.draft.room
    }

    /// What memory holds before the first event.
    pub fn opening(&self) -> &Opening
        ensures opening { result.now ≡ self.now.opening }
        ensures script { IsScript self.now }
    {
        &self.draft.opening
    }

    /// The operations of a stream, in their order. The stream has to exist.
    pub fn ops(&self, stream: u8) -> &[Op]
        requires { stream < length self.now.setup.streams }
        ensures ops { slice_get self.now.operations stream ≡ Some result.now }
        ensures script { IsScript self.now }
    {
        &self.draft.operations[stream as usize]
    }

    /// The picks of a schedule, each at most 65,535.
    pub fn picks(&self) -> &[u16]
        ensures picks { result.now ≡ self.now.picks }
        ensures script { IsScript self.now }
    {
        &self.draft.picks
    }
}
