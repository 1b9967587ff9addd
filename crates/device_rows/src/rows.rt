// The rows of buffered requests and of credits: what a cause sends by what is kept, the credits aside.
ghost use Rattle.std.specs.Prelude.{◌≡◌, ◌<◌, ◌≤◌, ◌&&◌, IfSome, length, nat_le, option_and_then, option_map};
ghost use Rattle.cxl_message.specs.declared.channels.Channel.{Channel as Channeled};
ghost use Rattle.coherence_model.specs.Copies.{asks_for_grant as op_asks_for_grant};
ghost use Rattle.coherence_model.specs.DeviceActs.{device_returns};
ghost use Rattle.coherence_model.specs.Room.{is_no_eviction};
ghost use Rattle.device_record.specs.Answers.{clean_of, clean_row, evict_of, evict_row, has_room_for as has_room_for_in, has_room_in as has_place_in, return_row as return_row_in, start_of, start_row, wants_eviction_in};
ghost use Rattle.device_record.specs.Record.{credits_at, owed_on, request_with, requests_at, writes_at};
ghost use Rattle.device_record.specs.Steady.{IsSteady};
ghost use Rattle.device_rows.specs.Rows.{LinesExist};
ghost use Rattle.device_state.specs.Decisions.{HasLine, emission_by};
ghost use Rattle.device_tables.specs.Waiting.{room_seen};

use cxl_message::{Channel, Line, NdrOp, ReqOp, Tag};
use device_state::{Decision, Tables};
use device_tables::Progress;

/// V1: whether there is room for one more message of a channel.
pub fn has_room_for(tables: &Tables, credits: u8, host: u8, channel: Channel) -> bool
    ensures { result ≡ has_room_for_in credits host channel tables.now.kept }
{
    !channel.has_credits() || tables.credits_of(host).held(channel) < credits
}

/// V5: whether a request for a line has room in the filter.
fn has_place(tables: &Tables, progress: Progress, line: Line) -> bool
    requires line { line.0 < tables.now.kept.filter.lines }
    ensures { result ≡ has_place_in (room_seen progress) line.0 tables.now.kept }
{
    match progress {
        Progress::NoEviction => tables.filter.has_row(line) || tables.filter.free_entries() >= 1,
        Progress::Evicting => false,
        Progress::Reserved => true,
    }
}

/// V4: a MemClnEvct whose line isn't held is answered by Cmp.
fn clean_of(tables: &Tables, host: u8, op: ReqOp, tag: Tag, line: Line) -> Option<Decision>
    requires line { line.0 < tables.now.kept.filter.lines }
    ensures sends { option_map (emission_by tables.now.kept.memory) result ≡ clean_of host tables.now.kept.filter.rows (record { op = op; tag = tag; line = line.0 }) }
    ensures line { IfSome result (HasLine tables.now.kept.memory) }
{
    if asks_for_grant(op) {
        return None;
    }
    if tables.filter.held(line) {
        return None;
    }
    Some(Decision::Completion {
        host,
        op: NdrOp::Cmp,
        tag,
    })
}

/// V4 for a buffered request.
pub fn clean_row(tables: &Tables, host: u8, tag: Tag) -> Option<Decision>
    requires lines { LinesExist tables.now.kept host tag.0 }
    ensures sends { option_map (emission_by tables.now.kept.memory) result ≡ option_and_then (clean_row host tables.now.kept.filter.rows) (request_with tag.0 (requests_at host tables.now.kept.requests)) }
    ensures line { IfSome result (HasLine tables.now.kept.memory) }
{
    match tables.request(host, tag) {
        Some(request) => clean_of(tables, host, request.op, request.tag, request.line),
        None => None,
    }
}

/// V5: a MemRd or MemInv whose line isn't held starts where there is room.
fn start_of(
    tables: &Tables,
    progress: Progress,
    op: ReqOp,
    tag: Tag,
    line: Line,
) -> Option<Decision>
    requires line { line.0 < tables.now.kept.filter.lines }
    ensures sends { option_map (emission_by tables.now.kept.memory) result ≡ start_of tables.now.kept (room_seen progress) (record { op = op; tag = tag; line = line.0 }) }
    ensures line { IfSome result (HasLine tables.now.kept.memory) }
{
    if !asks_for_grant(op) {
        return None;
    }
    if tables.filter.held(line) {
        return None;
    }
    if has_place(tables, progress, line) {
        Some(Decision::Nothing)
    } else {
        None
    }
}

/// V5 for a buffered request.
pub fn start_row(tables: &Tables, host: u8, tag: Tag) -> Option<Decision>
    requires lines { LinesExist tables.now.kept host tag.0 }
    ensures sends { option_map (emission_by tables.now.kept.memory) result ≡ option_and_then (start_row tables.now.kept) (request_with tag.0 (requests_at host tables.now.kept.requests)) }
    ensures line { IfSome result (HasLine tables.now.kept.memory) }
{
    match tables.request(host, tag) {
        Some(request) => {
            start_of(
                tables,
                request.progress,
                request.op,
                request.tag,
                request.line,
            )
        }
        None => None,
    }
}

/// V6: a MemRd or MemInv whose line isn't held and has no row, without an eviction or a reservation, where no entry
/// is free and there is a victim.
fn evict_of(
    tables: &Tables,
    progress: Progress,
    op: ReqOp,
    tag: Tag,
    line: Line,
) -> Option<Decision>
    requires line { line.0 < tables.now.kept.filter.lines }
    ensures sends { option_map (emission_by tables.now.kept.memory) result ≡ evict_of tables.now.kept (room_seen progress) (record { op = op; tag = tag; line = line.0 }) }
    ensures line { IfSome result (HasLine tables.now.kept.memory) }
{
    if !asks_for_grant(op) {
        return None;
    }
    if tables.filter.held(line) {
        return None;
    }
    if !wants_eviction(tables, progress, line) {
        return None;
    }
    if tables.filter.victim().is_some() {
        Some(Decision::Nothing)
    } else {
        None
    }
}

/// Whether a request for a line wants an eviction.
fn wants_eviction(tables: &Tables, progress: Progress, line: Line) -> bool
    requires line { line.0 < tables.now.kept.filter.lines }
    ensures { result ≡ wants_eviction_in (room_seen progress) line.0 tables.now.kept }
{
    if tables.filter.has_row(line) {
        return false;
    }
    if !has_no_eviction(progress) {
        return false;
    }
    tables.filter.free_entries() == 0
}

/// V6 for a buffered request.
pub fn evict_row(tables: &Tables, host: u8, tag: Tag) -> Option<Decision>
    requires lines { LinesExist tables.now.kept host tag.0 }
    ensures sends { option_map (emission_by tables.now.kept.memory) result ≡ option_and_then (evict_row tables.now.kept) (request_with tag.0 (requests_at host tables.now.kept.requests)) }
    ensures line { IfSome result (HasLine tables.now.kept.memory) }
{
    match tables.request(host, tag) {
        Some(request) => {
            evict_of(
                tables,
                request.progress,
                request.op,
                request.tag,
                request.line,
            )
        }
        None => None,
    }
}

/// V9: whether a Credit for a channel is owed to a host.
fn owes(tables: &Tables, host: u8, channel: Channel) -> bool
    requires steady { IsSteady tables.now.setup tables.now.kept }
    requires host { host < length tables.now.kept.writes }
    ensures { result ≡ (device_returns channel && nat_le 1 (owed_on host channel tables.now.kept)) }
{
    match channel {
        Channel::Req => owed_requests(tables, host) >= 1,
        Channel::Rwd => owed_writes(tables, host) >= 1,
        Channel::BiRsp => owed_answers(tables, host) >= 1,
        Channel::Ndr => false,
        Channel::Drs => false,
        Channel::BiSnp => false,
        Channel::CreditUp => false,
        Channel::CreditDown => false,
    }
}

/// V9: a Credit that is owed.
pub fn return_row(tables: &Tables, host: u8, channel: Channel) -> Option<Decision>
    requires steady { IsSteady tables.now.setup tables.now.kept }
    requires host { host < length tables.now.kept.writes }
    ensures sends { option_map (emission_by tables.now.kept.memory) result ≡ return_row_in host channel tables.now.kept }
    ensures line { IfSome result (HasLine tables.now.kept.memory) }
{
    if owes(tables, host, channel) {
        Some(Decision::Credit { host, channel })
    } else {
        None
    }
}

/// How many Credits of Req are owed to a host: as many as messages are held and not buffered.
pub fn owed_requests(tables: &Tables, host: u8) -> u8
    requires { length (requests_at host tables.now.kept.requests) ≤ (credits_at host tables.now.kept.credits).req_held }
    ensures { result ≡ owed_on host Channeled.Req tables.now.kept }
{
    let held = tables.credits_of(host).held(Channel::Req);
    held - buffered(tables, host)
}

/// How many Credits of RwD are owed to a host: as many as messages are held and not buffered.
pub fn owed_writes(tables: &Tables, host: u8) -> u8
    requires host { host < length tables.now.kept.writes }
    requires held { length (writes_at host tables.now.kept.writes) ≤ (credits_at host tables.now.kept.credits).rwd_held }
    ensures { result ≡ owed_on host Channeled.Rwd tables.now.kept }
{
    tables.credits_of(host).held(Channel::Rwd) - tables.lines.count(host)
}

/// How many Credits of BIRsp are owed to a host: no answer is buffered.
pub fn owed_answers(tables: &Tables, host: u8) -> u8
    ensures { result ≡ owed_on host Channeled.BiRsp tables.now.kept }
{
    tables.credits_of(host).held(Channel::BiRsp)
}

/// How many requests of a host are buffered.
fn buffered(tables: &Tables, host: u8) -> u8
    requires { length (requests_at host tables.now.kept.requests) ≤ 255 }
    ensures { result ≡ length (requests_at host tables.now.kept.requests) }
{
    match tables.requests.get(host as usize) {
        Some(requests) => requests.waiting().len() as u8,
        None => 0,
    }
}

/// Whether a Req opcode asks for a grant.
fn asks_for_grant(op: ReqOp) -> bool
    ensures { result ≡ op_asks_for_grant op }
{
    match op {
        ReqOp::MemRd => true,
        ReqOp::MemInv => true,
        ReqOp::MemClnEvct => false,
    }
}

/// Whether a request has neither an eviction in progress nor a reservation.
fn has_no_eviction(progress: Progress) -> bool
    ensures { result ≡ is_no_eviction (room_seen progress) }
{
    match progress {
        Progress::NoEviction => true,
        Progress::Evicting => false,
        Progress::Reserved => false,
    }
}
