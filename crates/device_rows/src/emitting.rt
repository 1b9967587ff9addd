// The event of a cause, made in a room.
ghost use Rattle.std.specs.Prelude.{◌≡◌, ◌<◌, IfOk, IsTrue, OnErr, length};
ghost use Rattle.cxl_message.specs.declared.messages.Message.{Message};
ghost use Rattle.coherence_model.specs.Next.{event_with};
ghost use Rattle.coherence_model.specs.Traces.{device};
ghost use Rattle.device_record.specs.Answers.{answer_in};
ghost use Rattle.device_record.specs.Record.{bytes_in};
ghost use Rattle.device_record.specs.Steady.{IsSteady};
ghost use Rattle.device_rows.specs.Answering.{decided};
ghost use Rattle.device_state.specs.Decisions.{HasLine, emission_by};
ghost use Rattle.event_room.specs.Made.{begun, emitting, may_send, with_send};

use crate::answers::DeviceRefusal;
use crate::deciding::decide;
use cxl_message::{Cause, DEVICE, Line, Tag};
use device_state::{Decision, Tables};
use event_room::{CauseRef, EventRoom, MessageHead, MessageRef};

/// Makes the event that a cause would bring in a room, and answers what was decided: rule P0, then the row, then the
/// credits for what is sent, NDR before DRS. A refusal leaves the room as it was.
pub fn answer_into(
    tables: &Tables,
    cause: &Cause,
    room: &mut EventRoom,
) -> Result<Decision, DeviceRefusal>
    requires { IsSteady tables.now.setup tables.now.kept }
    ensures answer { decided tables.now.kept.memory result ≡ answer_in tables.now.setup cause.now tables.now.kept }
    ensures event { IfOk result (λ d. room.new ≡ event_with device cause.now (emission_by tables.now.kept.memory d)) }
    ensures refused { OnErr result (room.new ≡ room.old) }
{
    match decide(tables, cause) {
        Ok(decision) => {
            begin(cause, room);
            emit(tables, decision, room);
            Ok(decision)
        }
        Err(refusal) => Err(refusal),
    }
}

/// Begins an event of the device.
fn begin(cause: &Cause, room: &mut EventRoom)
    ensures { room.new ≡ begun device cause.now }
{
    match CauseRef::of(cause) {
        CauseRef::Op { stream, index, op } => room.begin_op(DEVICE, stream, index, op),
        CauseRef::Take { host, message } => room.begin_take(DEVICE, host, message),
        CauseRef::Act(act) => room.begin_act(DEVICE, act),
    }
}

/// Writes what was decided into the room of an event: what is sent, the bytes of its line among it, and no commit.
fn emit(tables: &Tables, decision: Decision, room: &mut EventRoom)
    requires { HasLine tables.now.kept.memory decision }
    ensures { room.new ≡ emitting room.old (emission_by tables.now.kept.memory decision).sends (emission_by tables.now.kept.memory decision).commit }
{
    room.clear();
    match decision {
        Decision::Nothing => {}
        Decision::Completion { host, op, tag } => room.send(host, MessageHead::Ndr { op, tag }),
        Decision::Grant {
            host,
            op,
            tag,
            line,
        } => {
            room.send(host, MessageHead::Ndr { op, tag });
            send_line(tables, host, tag, line, room);
        }
        Decision::Snoop {
            host,
            op,
            bitag,
            line,
            span,
        } => room.send(
            host,
            MessageHead::BiSnp {
                op,
                bitag,
                line,
                span,
            },
        ),
        Decision::Credit { host, channel } => room.send(host, MessageHead::Credit { channel }),
    }
}

/// Sends the bytes of a line, which exists, from where they stand. At most one message was sent before.
fn send_line(tables: &Tables, host: u8, tag: Tag, line: Line, room: &mut EventRoom)
    requires line { line.0 < length tables.now.kept.memory }
    requires room { IsTrue (may_send room.old.sends) }
    ensures { room.new ≡ with_send room.old (record { host = host; message = Message.MemData tag (bytes_in tables.now.kept.memory line.0) }) }
{
    let data = MessageRef {
        head: MessageHead::MemData { tag },
        payload: tables.lines.bytes(line),
    };
    room.send_message(host, data);
}
