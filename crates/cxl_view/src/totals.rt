// What is counted, as text.
ghost use Rattle.std.specs.Prelude.{◌≡◌, ◌++◌, OnErr, OnOk, length, take};
ghost use Rattle.std.specs.List.{flat_map};
ghost use Rattle.cxl_view.specs.Tallies.{tally_line, total_line};

use crate::counting::LineTally;
use crate::writing::{put, put_field};
use indexmap::IndexMap;
use std::alloc::AllocError;

/// How many bytes the text of a line's tally has at most.
const LONGEST_TALLY: usize = 108;
/// How many bytes the text of the totals has at most.
const LONGEST_TOTAL: usize = 57;

/// Appends the lines of tallies, and the last line. After the error, want of memory, some of them may stand there.
pub fn put_tallies(
    out: &mut Vec<u8>,
    on_lines: &IndexMap<u32, LineTally>,
    events: u64,
    commits: u64,
) -> Result<(), AllocError>
    ensures ok { OnOk result (out.new.items ≡ out.old.items ++ (flat_map tally_line on_lines.now.entries ++ total_line events commits)) }
    ensures kept { take (length out.old.items) out.new.items ≡ out.old.items }
{
    put_lines(out, on_lines)?;
    put_total(out, events, commits)
}

/// Appends the lines of tallies. After the error, want of memory, some of them may stand there.
fn put_lines(out: &mut Vec<u8>, on_lines: &IndexMap<u32, LineTally>) -> Result<(), AllocError>
    ensures ok { OnOk result (out.new.items ≡ out.old.items ++ flat_map tally_line on_lines.now.entries) }
    ensures kept { take (length out.old.items) out.new.items ≡ out.old.items }
{
    for (line, tally) in on_lines.iter() {
        put_tally(out, *line, *tally)?;
    }
    Ok(())
}

/// Appends the line of a tally. After the error, want of memory, `out` is as before.
fn put_tally(out: &mut Vec<u8>, line: u32, tally: LineTally) -> Result<(), AllocError>
    ensures ok { OnOk result (out.new.items ≡ out.old.items ++ tally_line (line, tally)) }
    ensures err { OnErr result (out.new.items ≡ out.old.items) }
{
    out.reserve(LONGEST_TALLY)?;
    put_field(out, b"line ", u64::from(line));
    put_field(out, b" loads ", tally.loads);
    put_field(out, b" words ", tally.words);
    put_field(out, b" wholes ", tally.wholes);
    put(out, b"\n");
    Ok(())
}

/// Appends the last line. After the error, want of memory, `out` is as before.
fn put_total(out: &mut Vec<u8>, events: u64, commits: u64) -> Result<(), AllocError>
    ensures ok { OnOk result (out.new.items ≡ out.old.items ++ total_line events commits) }
    ensures err { OnErr result (out.new.items ≡ out.old.items) }
{
    out.reserve(LONGEST_TOTAL)?;
    put_field(out, b"events ", events);
    put_field(out, b" commits ", commits);
    put(out, b"\n");
    Ok(())
}
