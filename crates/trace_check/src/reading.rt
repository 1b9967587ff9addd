// Reading a piece, and judging what it has.
ghost use Rattle.std.specs.Prelude.{◌++◌, ◌+◌, ◌<◌, ◌^◌, ◌≤◌, IsOk, List, OnOk, length, ℕ};
ghost use Rattle.trace_stream.specs.Readings.{fed_count};
ghost use Rattle.trace_check.specs.Judged.{HasChecked, IsLost, IsSettled};

use crate::judging::Judging;
use std::alloc::{AllocError, Global};
use trace_stream::{Found, Room, TraceReader};

/// Reads the items of the bytes that wait and of a piece behind them, and judges each. It goes on reading behind an event that isn't
/// allowed. What comes behind a fault isn't read any more.
pub fn read_piece(
    alloc: Global,
    reader: &mut TraceReader,
    room: &mut Room,
    judging: &mut Judging,
    piece: &[u8],
) -> Result<(), AllocError>
    requires fits { fed_count reader.old + length piece.now < 2 ^ 63 }
    requires kept { IsLost judging.old → ⊥ }
    requires some { (bytes : List ℕ) × HasChecked bytes (record { reading = reader.old; judging = judging.old }) }
    ensures checked { (bytes : List ℕ) → HasChecked bytes (record { reading = reader.old; judging = judging.old }) → OnOk result (HasChecked (bytes ++ piece.now) (record { reading = reader.new; judging = judging.new })) }
    ensures kept { OnOk result (IsLost judging.new → ⊥) }
    ensures settled { IsSettled judging.old → IsOk result }
    ensures stays { IsSettled judging.old → IsSettled judging.new }
    ensures fed { fed_count reader.new ≤ fed_count reader.old + length piece.now }
{
    let mut rest = piece;
    loop {
        match reader.next_from(rest, room) {
            Ok((found, count)) => match found {
                Found::More => return Ok(()),
                _ => {
                    judging.take(alloc, found, room)?;
                    rest = rest.split_at(count).1;
                }
            },
            Err(_) => return Ok(()),
        }
    }
}
