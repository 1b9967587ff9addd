// What comes before the first event of a trace.
ghost use Rattle.std.specs.Prelude.{◌∷◌, ◌++◌, [], List, OnOk, ℕ};
ghost use Rattle.trace_stream.specs.Items.{item_of};
ghost use Rattle.trace_stream.specs.declared.items.Item.{Item};
ghost use Rattle.trace_migration.specs.Heads.{GoesOnBy, IsHead};

use arrayvec::ArrayVec;
use cxl_message::{Bytes64, Line, NameRefusal, Names, Opening, OpeningRefusal, Setup};
use std::alloc::{AllocError, Global};
use trace_stream::{Found, Room};

/// What comes before the first event of a trace: the setup, the names and the opening.
#[derive(Drop)]
pub struct Head {
    /// The setup; before the header was read, any.
    pub setup: Setup,
    /// The names of streams, none in version 1.
    pub names: Names,
    /// What memory holds at first.
    pub opening: Opening,
}

impl Head {
    /// A head that has no name and no opening, and any setup.
    pub fn new(alloc: Global, any: Setup) -> Head
        ensures { IsHead [] result }
    {
        Head {
            setup: any,
            names: Names::new(alloc),
            opening: Opening::new(alloc),
        }
    }

    /// Takes what the next item of a trace has for the head. The error is want of memory.
    pub fn take(&mut self, found: Found, room: &Room) -> Result<(), AllocError>
        requires { (items : List Item) × GoesOnBy items (item_of room.now found) self.old }
        ensures { (items : List Item) → GoesOnBy items (item_of room.now found) self.old → OnOk result (IsHead (items ++ item_of room.now found ∷ []) self.new) }
    {
        match found {
            Found::Header => {
                self.setup = room.setup;
                Ok(())
            }
            Found::Name => self.name_stream(room.stream, &room.name),
            Found::Opened => self.open_line(room.line, &room.bytes),
            Found::Event => Ok(()),
            Found::End { .. } => Ok(()),
            Found::More => Ok(()),
        }
    }

    /// Adds the name of a stream.
    fn name_stream(&mut self, stream: u8, name: &ArrayVec<u8, 32>) -> Result<(), AllocError>
        requires { (items : List Item) × GoesOnBy items (Item.Name stream name.now) self.old }
        ensures { (items : List Item) → GoesOnBy items (Item.Name stream name.now) self.old → OnOk result (IsHead (items ++ Item.Name stream name.now ∷ []) self.new) }
    {
        match self.names.add(stream, name) {
            Ok(()) => Ok(()),
            Err(NameRefusal::Memory) => Err(AllocError),
            Err(NameRefusal::Order) => unreachable!("a reader refuses streams out of order"),
            Err(NameRefusal::Spelling) => unreachable!("a reader refuses what is no name"),
        }
    }

    /// Adds a line to the opening.
    fn open_line(&mut self, line: Line, bytes: &Bytes64) -> Result<(), AllocError>
        requires { (items : List Item) × GoesOnBy items (Item.Opened line bytes.now) self.old }
        ensures { (items : List Item) → GoesOnBy items (Item.Opened line bytes.now) self.old → OnOk result (IsHead (items ++ Item.Opened line bytes.now ∷ []) self.new) }
    {
        match self.opening.add(line, bytes) {
            Ok(()) => Ok(()),
            Err(OpeningRefusal::Memory) => Err(AllocError),
            Err(OpeningRefusal::Order) => unreachable!("a reader refuses lines out of order"),
            Err(OpeningRefusal::Zero) => unreachable!("a reader refuses a line of zeros"),
        }
    }
}
