// Showing an item.
ghost use Rattle.std.specs.Prelude.{◌++◌, ◌-◌, ◌<◌, ◌^◌, ◌∷◌, ◌≡◌, [], List, OnErr, OnOk};
ghost use Rattle.trace_stream.specs.Items.{item_of};
ghost use Rattle.trace_stream.specs.Runs.{Follow};
ghost use Rattle.trace_stream.specs.declared.items.Item.{Item};
ghost use Rattle.trace_stream.specs.declared.stages.Stage.{Stage};
ghost use Rattle.trace_viewer.specs.Items.{counts_in, item_text};

use cxl_view::{Tallies, render_header, render_name, render_opening, render_room};
use event_room::EventRoom;
use std::alloc::{AllocError, Global};
use trace_stream::{Found, Room};

/// Appends the lines of an item that stands in a room, and counts it if it is an event. The error is want of memory, and `out` is
/// then as before.
pub fn show_item(
    alloc: Global,
    found: Found,
    room: &Room,
    tallies: &mut Tallies,
    out: &mut Vec<u8>,
) -> Result<(), AllocError>
    requires { tallies.old.events < 2 ^ 64 - 1 }
    ensures shown { OnOk result (out.new.items ≡ out.old.items ++ item_text tallies.old.events (item_of room.now found)) }
    ensures counted { (items : List Item) → Follow Stage.Start (items ++ item_of room.now found ∷ []) → tallies.old ≡ counts_in items → OnOk result (tallies.new ≡ counts_in (items ++ item_of room.now found ∷ [])) }
    ensures err { OnErr result (out.new.items ≡ out.old.items) }
{
    match found {
        Found::Header => {
            *tallies = Tallies::new(alloc, room.setup.lines());
            render_header(room.version, &room.setup, out)
        }
        Found::Name => render_name(room.stream, &room.name, out),
        Found::Opened => render_opening(room.line, &room.bytes, out),
        Found::Event => show_event(&room.event, tallies, out),
        Found::End { .. } => Ok(()),
        Found::More => Ok(()),
    }
}

/// Appends the line of an event, and counts it. The error is want of memory, and `out` is then as before.
fn show_event(event: &EventRoom, tallies: &mut Tallies, out: &mut Vec<u8>) -> Result<(), AllocError>
    requires { tallies.old.events < 2 ^ 64 - 1 }
    ensures shown { OnOk result (out.new.items ≡ out.old.items ++ item_text tallies.old.events (Item.Event event.now)) }
    ensures counted { (items : List Item) → tallies.old ≡ counts_in items → OnOk result (tallies.new ≡ counts_in (items ++ Item.Event event.now ∷ [])) }
    ensures err { OnErr result (out.new.items ≡ out.old.items) }
{
    let number = tallies.events();
    tallies.count_room(event)?;
    render_room(number, event, out)
}
