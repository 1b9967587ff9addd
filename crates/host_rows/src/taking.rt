// Rows H3 to H6: what a taken message commits.
ghost use Rattle.std.specs.Prelude.{◌≡◌, ◌<◌, Some, option_map};
ghost use Rattle.cxl_message.specs.declared.identifiers.Bytes64.{Bytes64 as TheBytes};
ghost use Rattle.cxl_message.specs.declared.messages.Message.{Message as TheMessage};
ghost use Rattle.cxl_message.specs.Opening.{zero_bytes};
ghost use Rattle.host_rows.specs.Messages.{IsLow};
ghost use Rattle.host_rows.specs.Rows.{row_emission, take_emission};
ghost use Rattle.coherence_model.specs.Emission.{nothing};
ghost use Rattle.coherence_model.specs.HostTakes.{grant_emission, h3_completion, h3_data, h3_grant};
ghost use Rattle.host_record.specs.HostRecord.{view_in};
ghost use Rattle.host_record.specs.ViewRows.{credit_by, ndr_by, snoop_by, takes_by};

use cxl_message::{Channel, Line, Message, NdrOp, Span, Tag};
use host_tables::HostTables;
use line_states::Open;

/// What the take of a message commits: a decision, made once (own rule). What is open with the message's Tag is performed on
/// the bytes named here.
#[derive(Clone, Copy)]
pub enum TakeRow {
    /// Nothing is committed.
    Quiet,
    /// The bytes that were taken for it before.
    Held,
    /// The bytes of the message.
    Carried,
    /// Zeros: it stores the whole line.
    Zeros,
}

/// H3, Cmp: it ends the eviction that is open with its Tag, or the write-back.
fn completes(written_back: bool, found: Option<&Open>) -> Option<TakeRow>
    ensures { option_map (λ row. row_emission row zero_bytes (option_map (λ o. o.now) found.entry)) result ≡ h3_completion written_back (option_map (λ o. o.now) found.entry) }
{
    let ends = match found {
        None => written_back,
        Some(open) => !open.kind.is_request(),
    };
    if ends { Some(TakeRow::Quiet) } else { None }
}

/// What a grant performs: a read whose MemData was taken fills with it, a MemInv with its own bytes alone.
#[tactic(auto, using(crate::proofs::Filling::held_is))]
fn performs(what: &Open) -> TakeRow
    ensures { row_emission result zero_bytes (Some what.now) ≡ grant_emission what.now what.now.bytes }
{
    match what.bytes {
        Some(_) => TakeRow::Held,
        None => {
            if what.kind.is_read() {
                TakeRow::Quiet
            } else {
                TakeRow::Zeros
            }
        }
    }
}

/// H3, Cmp-S and Cmp-E: a request with that Tag is open and wasn't granted.
fn grants(grant: NdrOp, found: Option<&Open>) -> Option<TakeRow>
    ensures { option_map (λ row. row_emission row zero_bytes (option_map (λ o. o.now) found.entry)) result ≡ h3_grant grant (option_map (λ o. o.now) found.entry) }
{
    match found {
        None => None,
        Some(open) => {
            if open.kind.may_be_granted(grant) && open.grant.is_none() {
                Some(performs(open))
            } else {
                None
            }
        }
    }
}

/// H3, MemData: a MemRd with that Tag is open and had none. It fills where the grant was taken.
fn brings(found: Option<&Open>) -> Option<TakeRow>
    ensures { (bytes : TheBytes) → option_map (λ row. row_emission row bytes (option_map (λ o. o.now) found.entry)) result ≡ h3_data bytes (option_map (λ o. o.now) found.entry) }
{
    match found {
        None => None,
        Some(open) => {
            if open.kind.is_read() && open.bytes.is_none() {
                if open.grant.is_none() {
                    Some(TakeRow::Quiet)
                } else {
                    Some(TakeRow::Carried)
                }
            } else {
                None
            }
        }
    }
}

/// What the take of a message commits, or None where its row doesn't hold. Messages that go to the device are taken by no host.
pub fn take_row(agent: &HostTables, message: &Message) -> Option<TakeRow>
    requires { IsLow message.now }
    ensures { option_map (take_emission message.now agent.now.kept) result ≡ takes_by agent.now.setup message.now (view_in agent.now.kept) }
{
    match message {
        Message::Ndr { op, tag } => takes_ndr(agent, *op, *tag),
        Message::MemData { tag, .. } => brings(agent.open_with(*tag)),
        Message::BiSnp { line, span, .. } => takes_snoop(agent, *line, *span),
        Message::Credit { channel } => takes_credit(agent, *channel),
        Message::Req { .. } => None,
        Message::MemWr { .. } => None,
        Message::BiConflict { .. } => None,
        Message::BiRsp { .. } => None,
    }
}

/// H3 and H5: the take of an NDR message, by what is open with its Tag.
fn takes_ndr(agent: &HostTables, op: NdrOp, tag: Tag) -> Option<TakeRow>
    ensures { option_map (take_emission (TheMessage.Ndr op tag) agent.now.kept) result ≡ ndr_by agent.now.setup op tag.0 (view_in agent.now.kept) }
{
    match op {
        NdrOp::Cmp => completes(agent.is_write_back_tag(tag), agent.open_with(tag)),
        NdrOp::CmpS => grants(NdrOp::CmpS, agent.open_with(tag)),
        NdrOp::CmpE => grants(NdrOp::CmpE, agent.open_with(tag)),
        NdrOp::ConflictAck => {
            if agent.has_conflict(tag) {
                Some(TakeRow::Quiet)
            } else {
                None
            }
        }
    }
}

/// H4: the take of a snoop, none of whose lines is Snooped.
fn takes_snoop(agent: &HostTables, first: Line, span: Span) -> Option<TakeRow>
    requires { first.0 < 65536 }
    ensures { option_map (λ row. nothing) result ≡ snoop_by first.0 span (view_in agent.now.kept) }
{
    if agent.has_none_snooped(first, span) {
        Some(TakeRow::Quiet)
    } else {
        None
    }
}

/// H6: the take of a Credit, where one is lacking.
fn takes_credit(agent: &HostTables, channel: Channel) -> Option<TakeRow>
    ensures { option_map (λ row. nothing) result ≡ credit_by agent.now.setup channel (view_in agent.now.kept) }
{
    if agent.left(channel) < agent.setup().credits() {
        Some(TakeRow::Quiet)
    } else {
        None
    }
}
