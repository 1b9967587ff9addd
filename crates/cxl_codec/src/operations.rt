// The operations inside event records.
ghost use Rattle.std.specs.Prelude.{◌≡◌, ◌+◌, ◌≤◌, ◌++◌, vec_len, vec_capacity};
ghost use Rattle.event_room.specs.Parts.{op_of};
ghost use Rattle.cxl_codec.specs.Cells.{bytes_of};
ghost use Rattle.cxl_codec.specs.Events.{op_cells, OpInRange};
ghost use Rattle.cxl_codec.specs.Reading.{Gives};
ghost use Rattle.cxl_codec.specs.ReadingEvents.{op_fields_at, op_at};

use crate::faults::Fault;
use crate::fields::FieldName;
use crate::kind_bytes::read_op_kind;
use crate::kinds::OpKind;
use crate::reading::{read_line, read_payload, read_u64, read_within};
use crate::writing::{put, put_payload};
use cxl_message::PLACES;
use event_room::{OpHead, OpRef};

/// How many bytes an operation has at most.
pub const LONGEST_OP: usize = 69;

/// Appends an operation. There is room for it.
pub fn put_op(out: &mut Vec<u8>, op: OpRef<'_>)
    requires { vec_len out.old + LONGEST_OP ≤ vec_capacity out.old }
    ensures items { out.new.items ≡ out.old.items ++ bytes_of (op_cells (op_of op.entry)) }
    ensures range { OpInRange (op_of op.entry) }
    ensures len { vec_len out.new ≤ vec_len out.old + LONGEST_OP }
    ensures capacity { vec_capacity out.old ≤ vec_capacity out.new }
{
    match op.head {
        OpHead::Load { line } => {
            let [l3, l2, l1, l0] = line.0.to_be_bytes();
            put(out, &[0x01, l3, l2, l1, l0])
        }
        OpHead::Word { line, place, value } => {
            let [l3, l2, l1, l0] = line.0.to_be_bytes();
            let [v7, v6, v5, v4, v3, v2, v1, v0] = value.to_be_bytes();
            put(
                out,
                &[0x02, l3, l2, l1, l0, place, v7, v6, v5, v4, v3, v2, v1, v0],
            )
        }
        OpHead::Whole { line } => {
            let [l3, l2, l1, l0] = line.0.to_be_bytes();
            put(out, &[0x03, l3, l2, l1, l0]);
            put_payload(out, op.payload)
        }
    }
}

/// Reads an operation.
#[inline(always)]
#[tactic(auto, unfolding(crate::specs::ReadingEvents::op_at))]
pub fn read_op(bytes: &[u8]) -> Result<(OpRef<'_>, &[u8]), Fault>
    ensures { Gives (λ x. (op_of x.0, x.1.now)) result (op_at bytes.now) }
{
    let (kind, rest) = read_op_kind(bytes)?;
    read_op_fields(kind, rest)
}

/// Reads the fields of an operation of this kind.
#[inline(always)]
#[tactic(auto, unfolding(crate::specs::ReadingEvents::op_fields_at))]
fn read_op_fields(kind: OpKind, bytes: &[u8]) -> Result<(OpRef<'_>, &[u8]), Fault>
    ensures { Gives (λ x. (op_of x.0, x.1.now)) result (op_fields_at kind bytes.now) }
{
    let (line, rest) = read_line(bytes)?;
    match kind {
        OpKind::Load => Ok((OpRef::plain(OpHead::Load { line }), rest)),
        OpKind::Word => {
            let (place, rest) = read_within(rest, FieldName::Place, 0, PLACES - 1)?;
            let (value, rest) = read_u64(rest)?;
            Ok((OpRef::plain(OpHead::Word { line, place, value }), rest))
        }
        OpKind::Whole => {
            let (payload, rest) = read_payload(rest)?;
            Ok((
                OpRef {
                    head: OpHead::Whole { line },
                    payload,
                },
                rest,
            ))
        }
    }
}
