// Operations as text.
ghost use Rattle.std.specs.Prelude.{◌≡◌, ◌+◌, ◌≤◌, ◌++◌, codes, length, vec_len, vec_capacity};
ghost use Rattle.event_room.specs.Parts.{op_of};
ghost use Rattle.cxl_view.specs.Events.{field, op_text};

use crate::writing::{put_field, put_line_bytes, put_value};
use cxl_message::Line;
use event_room::{OpHead, OpRef};

/// How many bytes the text of an operation has at most.
pub const LONGEST_OP: usize = 209;
/// How many bytes the text of an operation has at most up to its line.
const LONGEST_FRONT: usize = 74;

/// Appends an operation of a stream. There is room for it.
pub fn put_op(out: &mut Vec<u8>, stream: u8, index: u32, op: OpRef<'_>)
    requires { vec_len out.old + LONGEST_OP ≤ vec_capacity out.old }
    ensures items { out.new.items ≡ out.old.items ++ op_text stream index (op_of op.entry) }
    ensures len { vec_len out.new ≤ vec_len out.old + LONGEST_OP }
    ensures capacity { vec_capacity out.old ≤ vec_capacity out.new }
{
    match op.head {
        OpHead::Load { line } => put_front(out, b"load s", stream, index, line),
        OpHead::Word { line, place, value } => {
            put_front(out, b"word s", stream, index, line);
            put_field(out, b" place=", u64::from(place));
            put_value(out, b" value=", value);
        }
        OpHead::Whole { line } => {
            put_front(out, b"whole s", stream, index, line);
            put_line_bytes(out, b" bytes=", op.payload);
        }
    }
}

/// Appends an operation up to its line: a word that ends in the stream's letter, its stream, which of the stream's operations
/// it is, and the line. There is room for them.
#[inline(always)]
fn put_front(out: &mut Vec<u8>, word: &[u8], stream: u8, index: u32, line: Line)
    requires room { vec_len out.old + LONGEST_FRONT ≤ vec_capacity out.old }
    requires word { length word.now ≤ 7 }
    ensures items { out.new.items ≡ out.old.items ++ (field word.now stream ++ field (codes ".") index ++ field (codes " line=") line.0) }
    ensures len { vec_len out.new ≤ vec_len out.old + LONGEST_FRONT }
    ensures capacity { vec_capacity out.old ≤ vec_capacity out.new }
{
    put_field(out, word, u64::from(stream));
    put_field(out, b".", u64::from(index));
    put_field(out, b" line=", u64::from(line.0));
}
