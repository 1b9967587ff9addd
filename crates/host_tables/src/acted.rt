// What an act changes, rows H7 to H10.
ghost use Rattle.std.specs.Prelude.{◌≡◌, ◌+◌, ◌-◌, ◌<◌, ◌≤◌, Some, is_some, length, slice_set, unwrap_or};
ghost use Rattle.coherence_model.specs.Copies.{keeps_shared as message_keeps_shared, shared};
ghost use Rattle.coherence_model.specs.Snoops.{snoops_after_answer};
ghost use Rattle.coherence_model.specs.Stages.{Stage};
ghost use Rattle.event_room.specs.Parts.{message_of, sends_of};
ghost use Rattle.host_record.specs.HostChanges.{acted, answered_block, answered_line, block_lines, conflicted, pay, pay_all, repay, respond, wants_way, wrote_back};
ghost use Rattle.host_record.specs.HostRecord.{view_in};
ghost use Rattle.host_record.specs.View.{owed_of};
ghost use Rattle.host_tables.specs.Kept.{IsOwed, line_dropped, lines_dropped};
ghost use Rattle.host_record.specs.Tables.{lookup};
ghost use Rattle.host_record.specs.Ways.{copy_in, give_up, put_way};

use crate::host::HostTables;
use crate::tables::set;
use arrayvec::ArrayVec;
use cxl_message::{Act, Channel, CopyState, Line, Meta, RspOp, Tag};
use event_room::{MessageHead, MessageRef, SendsRef};
use line_states::{LineStage, StageKind};

impl HostTables {
    /// One credit is spent for a message.
    pub(crate) fn pay(&mut self, message: MessageRef<'_>)
        ensures { self.new ≡ record self.old { kept = pay (message_of message.entry) self.old.kept } }
    {
        match message.head {
            MessageHead::Req { .. } => {
                let _paid = self.req.spend();
            }
            MessageHead::MemWr { .. } | MessageHead::BiConflict { .. } => {
                let _paid = self.rwd.spend();
            }
            MessageHead::BiRsp { .. } => {
                let _paid = self.bi_rsp.spend();
            }
            MessageHead::Ndr { .. }
            | MessageHead::MemData { .. }
            | MessageHead::BiSnp { .. }
            | MessageHead::Credit { .. } => {}
        }
    }

    /// The credits for what is sent are spent.
    pub(crate) fn pay_all(&mut self, sends: SendsRef<'_>)
        ensures { self.new ≡ record self.old { kept = pay_all (sends_of sends.entry) self.old.kept } }
    {
        match sends {
            SendsRef::Nothing => {}
            SendsRef::One(out) => self.pay(out.message),
            SendsRef::Two(first, second) => {
                self.pay(first.message);
                self.pay(second.message);
            }
        }
    }

    /// H7: a conflict was declared for a line.
    fn declare(&mut self, line: Line)
        ensures { self.new ≡ record self.old { kept = conflicted line.0 self.old.kept } }
    {
        let tag = match self.tag_at(line) {
            Some(tag) => tag,
            None => 0,
        };
        let asked = LineStage {
            kind: StageKind::Asked(Tag(tag)),
        };
        set(&mut self.stages, line.0 as usize, asked);
        set(&mut self.conflicts, tag as usize, true);
    }

    /// Whether a request is open for a line, so that it keeps its way.
    fn wants_way(&self, line: Line) -> bool
        ensures { result ≡ wants_way self.now.kept line.0 }
    {
        match self.open_at(line) {
            Some(open) => open.kind.is_request(),
            None => false,
        }
    }

    /// A line's copy is given up: its way stays where it is still wanted.
    #[tactic(auto, using(crate::proofs::Copies::give_up_nowhere))]
    fn give_up(&mut self, line: Line, wanted: bool)
        ensures { self.new ≡ record self.old { kept = record self.old.kept { ways = give_up line.0 wanted self.old.kept.ways } } }
    {
        if self.cache.has_way(line) {
            self.cache.drop_copy(line, wanted);
        }
    }

    /// A line keeps its copy as a shared one.
    #[tactic(auto, using(crate::proofs::Copies::put_nowhere))]
    fn keep_shared(&mut self, line: Line)
        ensures { self.new ≡ record self.old { kept = record self.old.kept { ways = put_way line.0 (shared (copy_in self.old.kept.ways line.0)) self.old.kept.ways } } }
    {
        if self.cache.has_way(line) {
            let bytes = self.cache.bytes(line);
            self.cache.put(line, CopyState::S, &bytes);
        }
    }

    /// The copy after a write-back or an answer for a line: a shared one stays where the message says so.
    fn respond(&mut self, line: Line, sends: SendsRef<'_>)
        ensures { self.new ≡ record self.old { kept = record self.old.kept { ways = respond line.0 (sends_of sends.entry) self.old.kept } } }
    {
        let SendsRef::One(out) = sends else {
            return;
        };
        if keeps_shared(out.message) {
            self.keep_shared(line);
        } else {
            let wanted = self.wants_way(line);
            self.give_up(line, wanted);
        }
    }

    /// H8: a write-back of a line was sent.
    fn write(&mut self, line: Line, sends: SendsRef<'_>)
        ensures { self.new ≡ record self.old { kept = wrote_back line.0 (sends_of sends.entry) self.old.kept } }
    {
        self.respond(line, sends);
        let writing = LineStage {
            kind: StageKind::Writing,
        };
        set(&mut self.stages, line.0 as usize, writing);
        self.writing = Some(line.0);
    }

    /// H9: a line was answered.
    fn answer(&mut self, line: Line, sends: SendsRef<'_>)
        ensures { self.new ≡ record self.old { kept = answered_line line.0 (sends_of sends.entry) self.old.kept } }
    {
        self.respond(line, sends);
        let open = self.tag_at(line).is_some();
        self.mark_busy(line, open);
        let before = self.held.len();
        self.held.answer_line(line);
        self.bi_snp_owed += (before - self.held.len()) as u8;
    }

    /// A line of a whole block was answered: its copy and its way go, and it isn't busy any more.
    fn drop_line(&mut self, line: Line)
        ensures { self.new ≡ record self.old { kept = line_dropped line.0 self.old.kept } }
    {
        self.give_up(line, false);
        self.mark_busy(line, false);
    }

    /// The lines of a whole block were answered.
    fn drop_lines(&mut self, lines: &[u32])
        ensures { self.new ≡ record self.old { kept = lines_dropped lines.now self.old.kept } }
    {
        for line in lines {
            self.drop_line(Line(*line));
        }
    }

    /// The lines of the whole block with this first line.
    fn block_lines(&self, first: Line) -> ArrayVec<u32, 4>
        ensures { result.items ≡ block_lines first.0 self.now.kept }
    {
        match self.held.whole_block(first) {
            Some(snoop) => snoop.lines(),
            None => ArrayVec::new(),
        }
    }

    /// H9: a whole block was answered.
    #[tactic(auto, using(crate::proofs::Dropping::all_dropped))]
    fn answer_block(&mut self, first: Line)
        ensures { self.new ≡ record self.old { kept = answered_block first.0 self.old.kept } }
    {
        let lines = self.block_lines(first);
        self.drop_lines(lines.as_slice());
        let before = self.held.len();
        self.held.answer_block(first);
        self.bi_snp_owed += (before - self.held.len()) as u8;
    }

    /// What an act changes, by what it sent. A Credit is given back where one is owed.
    pub fn act(&mut self, act: &Act, sends: SendsRef<'_>)
        requires { IsOwed act.now self.old.kept }
        ensures { self.new ≡ record self.old { kept = acted act.now (sends_of sends.entry) self.old.kept } }
    {
        match act {
            Act::Conflict(line) => {
                self.declare(*line);
                self.pay_all(sends);
            }
            Act::WriteBack(line) => {
                self.write(*line, sends);
                self.pay_all(sends);
            }
            Act::Answer(line) => {
                self.answer(*line, sends);
                self.pay_all(sends);
            }
            Act::AnswerBlock(line) => {
                self.answer_block(*line);
                self.pay_all(sends);
            }
            Act::HostReturn(channel) => self.repay(*channel),
            Act::Serve { .. } => {}
            Act::Clean { .. } => {}
            Act::Start { .. } => {}
            Act::Evict { .. } => {}
            Act::Snoop { .. } => {}
            Act::Finish(_) => {}
            Act::DeviceReturn { .. } => {}
        }
    }

    /// H10: a Credit was given back, where one was owed.
    fn repay(&mut self, channel: Channel)
        requires { 1 ≤ owed_of (view_in self.old.kept) channel }
        ensures { self.new ≡ record self.old { kept = repay channel self.old.kept } }
    {
        match channel {
            Channel::Ndr => self.ndr_owed -= 1,
            Channel::Drs => self.drs_owed -= 1,
            Channel::BiSnp => self.bi_snp_owed -= 1,
            Channel::Req | Channel::Rwd | Channel::BiRsp => {}
            Channel::CreditUp | Channel::CreditDown => {}
        }
    }
}

/// Whether a host keeps a shared copy beside a message: MemWr Shared and BIRspS say so.
fn keeps_shared(message: MessageRef<'_>) -> bool
    ensures { result ≡ message_keeps_shared (message_of message.entry) }
{
    match message.head {
        MessageHead::MemWr { meta, .. } => match meta {
            Meta::Shared => true,
            Meta::Invalid | Meta::Any => false,
        },
        MessageHead::BiRsp { op, .. } => match op {
            RspOp::S => true,
            _ => false,
        },
        MessageHead::Req { .. } => false,
        MessageHead::BiConflict { .. } => false,
        MessageHead::Ndr { .. } => false,
        MessageHead::MemData { .. } => false,
        MessageHead::BiSnp { .. } => false,
        MessageHead::Credit { .. } => false,
    }
}
