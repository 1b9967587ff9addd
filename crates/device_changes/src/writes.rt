// V3: what a served RwD message changes.
ghost use Rattle.std.specs.Prelude.{◌≡◌, ◌<◌, IfSome, length};
ghost use Rattle.coherence_model.specs.Buffers.{message_with};
ghost use Rattle.coherence_model.specs.DirectoryChanges.{listing_after_write as listing_written};
ghost use Rattle.device_lines.specs.Lines.{served_record, write_of};
ghost use Rattle.device_record.specs.Record.{writes_at};
ghost use Rattle.device_record.specs.RowChanges.{rows_served};

use cxl_message::{Listing, Meta, Tag};
use device_lines::{DeviceLines, Served};
use snoop_filter::Filter;

/// V3: the message is gone; a MemWr writes its line, which exists, and lists its host anew.
pub fn serve(lines: &mut DeviceLines, filter: &mut Filter, host: u8, tag: Tag)
    requires host { host < length lines.old.writes }
    requires hosts { filter.old.hosts ≡ length lines.old.writes }
    requires memory { filter.old.lines ≡ length lines.old.memory }
    requires line { IfSome (write_of host tag.0 lines.old.writes) (λ w. w.0 < length lines.old.memory) }
    ensures lines { lines.new ≡ served_record host tag.0 lines.old }
    ensures filter { filter.new ≡ record filter.old { rows = rows_served host (message_with tag.0 (writes_at host lines.old.writes)) filter.old.rows } }
{
    let served = lines.with_tag(host, tag);
    lines.serve(host, tag);
    match served {
        Some(Served::Write { meta, line }) => {
            let listing = listing_after_write(meta, filter.has_row(line));
            filter.set(line, host, listing);
        }
        Some(Served::Conflict) => {}
        None => {}
    }
}

/// How a served MemWr lists its host: S for Shared where its line has a row.
fn listing_after_write(meta: Meta, has_row: bool) -> Listing
    ensures { result ≡ listing_written meta has_row }
{
    match meta {
        Meta::Shared if has_row => Listing::S,
        _ => Listing::I,
    }
}
