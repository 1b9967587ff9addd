// What each event leaves of what the device keeps.
ghost use Rattle.std.specs.Prelude.{◌≡◌};
ghost use Rattle.cxl_message.specs.declared.events.Act.{Act as Acted};
ghost use Rattle.cxl_message.specs.declared.events.Cause.{Cause as Caused};
ghost use Rattle.cxl_message.specs.declared.events.Sends.{Sends as Sent};
ghost use Rattle.cxl_message.specs.declared.messages.Message.{Message as Messaged};
ghost use Rattle.device_record.specs.BufferChanges.{request_taken};
ghost use Rattle.device_record.specs.Changes.{device_after};
ghost use Rattle.device_changes.specs.Passing.{MayStep, MayTake};
ghost use Rattle.device_state.specs.Decisions.{emission_by, heads_sent};

use crate::accounts::{buffer_at, pay, took_at};
use crate::tasks::{answered, finish, snoop};
use crate::waiting::{clean, evict, start};
use crate::writes::serve;
use cxl_message::{Act, BiTag, Cause, Line, Message, Meta, ReqOp, RspOp, SnpType, Tag};
use device_state::{Decision, Tables};
use device_tables::{Progress, Waiting};

/// Makes of what the device keeps what is kept after an event with this cause by which this was decided, where the device
/// may step so.
pub fn change(tables: &mut Tables, cause: &Cause, decision: Decision)
    requires may { MayStep tables.old.setup tables.old.kept cause.now (emission_by tables.old.kept.memory decision) }
    ensures changed { tables.new ≡ record tables.old { kept = device_after tables.old.setup cause.now (emission_by tables.old.kept.memory decision).sends tables.old.kept } }
{
    match cause {
        Cause::Op { .. } => unreachable!("the device has no operations"),
        Cause::Take { host, message } => take(tables, *host, message),
        Cause::Act(act) => make(tables, act, decision),
    }
}

/// V3 to V9: an act is done, and what it sends is paid for.
fn make(tables: &mut Tables, act: &Act, decision: Decision)
    requires { MayStep tables.old.setup tables.old.kept (Caused.Act act.now) (emission_by tables.old.kept.memory decision) }
    ensures { tables.new ≡ record tables.old { kept = device_after tables.old.setup (Caused.Act act.now) (heads_sent decision) tables.old.kept } }
{
    act_on(tables, act, decision);
    pay(&mut tables.credits, decision);
}

/// V1 and V2: a message is buffered, answers a snoop or is a Credit, and it is counted.
fn take(tables: &mut Tables, host: u8, message: &Message)
    requires { MayTake tables.old.setup host message.now tables.old.kept }
    ensures { tables.new ≡ record tables.old { kept = device_after tables.old.setup (Caused.Take host message.now) Sent.Nothing tables.old.kept } }
{
    buffer(tables, host, message);
    took_at(&mut tables.credits, host, message);
}

/// V1 and V2, the credits aside.
fn buffer(tables: &mut Tables, host: u8, message: &Message)
    requires { MayTake tables.old.setup host message.now tables.old.kept }
    ensures { tables.new ≡ record tables.old { kept = record (device_after tables.old.setup (Caused.Take host message.now) Sent.Nothing tables.old.kept) { credits = tables.old.kept.credits } } }
{
    match message {
        Message::Req {
            op,
            meta,
            snp,
            tag,
            line,
        } => {
            let request = taken(*op, *meta, *snp, *tag, *line);
            buffer_at(&mut tables.requests, host, request);
        }
        Message::MemWr {
            meta,
            snp,
            tag,
            line,
            bytes,
        } => tables
            .lines
            .take_write(host, *meta, *snp, *tag, *line, bytes),
        Message::BiConflict { tag } => tables.lines.take_conflict(host, *tag),
        Message::BiRsp { op, bitag, low } => answer(tables, host, *op, *bitag, *low),
        Message::Credit { .. } => {}
        Message::Ndr { .. } => unreachable!("it goes to a host"),
        Message::MemData { .. } => unreachable!("it goes to a host"),
        Message::BiSnp { .. } => unreachable!("it goes to a host"),
    }
}

/// A request that is taken: it has no eviction.
fn taken(op: ReqOp, meta: Meta, snp: SnpType, tag: Tag, line: Line) -> Waiting
    ensures { result ≡ request_taken (Messaged.Req op meta snp tag line) }
{
    Waiting {
        op,
        meta,
        snp,
        tag,
        line,
        progress: Progress::NoEviction,
    }
}

/// V2, the credits aside.
fn answer(tables: &mut Tables, host: u8, op: RspOp, bitag: BiTag, low: u8)
    requires { MayTake tables.old.setup host (Messaged.BiRsp op bitag low) tables.old.kept }
    ensures { tables.new ≡ record tables.old { kept = record (device_after tables.old.setup (Caused.Take host (Messaged.BiRsp op bitag low)) Sent.Nothing tables.old.kept) { credits = tables.old.kept.credits } } }
{
    let first = u32::from(bitag.0);
    answered(&mut tables.filter, &mut tables.tasks, host, op, first, low);
}

/// V3 to V9, the credits aside.
fn act_on(tables: &mut Tables, act: &Act, decision: Decision)
    requires { MayStep tables.old.setup tables.old.kept (Caused.Act act.now) (emission_by tables.old.kept.memory decision) }
    ensures { tables.new ≡ record tables.old { kept = record (device_after tables.old.setup (Caused.Act act.now) (heads_sent decision) tables.old.kept) { credits = tables.old.kept.credits } } }
{
    match act {
        Act::Serve { host, tag } => {
            serve(&mut tables.lines, &mut tables.filter, *host, *tag);
        }
        Act::Clean { host, tag } => {
            clean(&mut tables.requests, &mut tables.filter, *host, *tag);
        }
        Act::Start { host, tag } => {
            start(
                &mut tables.requests,
                &mut tables.filter,
                &mut tables.tasks,
                *host,
                *tag,
            );
        }
        Act::Evict { host, tag } => {
            evict(
                &mut tables.requests,
                &mut tables.filter,
                &mut tables.tasks,
                *host,
                *tag,
            );
        }
        Act::Snoop { host, line } => snoop(&mut tables.tasks, *line, *host),
        Act::Finish(line) => end(tables, *line, decision),
        Act::DeviceReturn { .. } => {}
        Act::Conflict(_) => unreachable!("it is a host's"),
        Act::WriteBack(_) => unreachable!("it is a host's"),
        Act::Answer(_) => unreachable!("it is a host's"),
        Act::AnswerBlock(_) => unreachable!("it is a host's"),
        Act::HostReturn(_) => unreachable!("it is a host's"),
    }
}

/// V8, the credits aside.
fn end(tables: &mut Tables, line: Line, decision: Decision)
    requires { MayStep tables.old.setup tables.old.kept (Caused.Act (Acted.Finish line)) (emission_by tables.old.kept.memory decision) }
    ensures { tables.new ≡ record tables.old { kept = record (device_after tables.old.setup (Caused.Act (Acted.Finish line)) (heads_sent decision) tables.old.kept) { credits = tables.old.kept.credits } } }
{
    finish(
        &mut tables.requests,
        &mut tables.filter,
        &mut tables.tasks,
        line,
        decision,
    );
}
