// Loads of hosts that load lines of their own: host 0 line 0, and host 1 line 1.
ghost use Rattle.std.specs.Prelude.{IsTrue};
ghost use Rattle.board_trial.specs.Trial.{is_operation};

use cxl_message::{Bytes64, Cause, Commit, Line, Op, Sends};
use host_home::Emitted;

/// The bytes of a line as it was opened.
pub const ZEROS: Bytes64 = Bytes64([0; 64]);

/// The operation of a host's own stream that loads the host's own line.
pub fn load(host: u8, index: u32) -> Cause
    ensures { IsTrue (is_operation result) }
{
    Cause::Op {
        stream: host,
        index,
        op: Op::Load {
            line: Line(u32::from(host)),
        },
    }
}

/// The commit of that operation, where the line is as it was opened.
pub fn loaded(host: u8, index: u32) -> Commit {
    Commit {
        stream: host,
        index,
        op: Op::Load {
            line: Line(u32::from(host)),
        },
        value: ZEROS,
    }
}

/// What that operation sends and commits where it hits.
pub fn hit(host: u8, index: u32) -> Emitted {
    Emitted {
        sends: Sends::Nothing,
        commit: Some(loaded(host, index)),
    }
}
