// What the take of a message changes, rows H3 to H6.
ghost use Rattle.std.specs.Prelude.{◌≡◌, ◌<◌, ◌+◌, None, Option, Some, is_some, length, option_map, slice_set, true};
ghost use Rattle.std.specs.Option.{option_map_or};
ghost use Rattle.cxl_message.specs.Events.{line_of};
ghost use Rattle.cxl_message.specs.Spans.{lines_of};
ghost use Rattle.event_room.specs.Parts.{commit_of, op_of};
ghost use Rattle.coherence_model.specs.Snoops.{Snoop};
ghost use Rattle.coherence_model.specs.Stages.{Stage, conflict_end};
ghost use Rattle.host_record.specs.HostChanges.{acknowledged, answered, completed, earn, filled_by, grant_in, owing_drs, owing_ndr, snooped, stream_ends, took, took_ndr, with_finished, with_marked};
ghost use Rattle.host_record.specs.HostRecord.{open_in, view_in};
ghost use Rattle.host_record.specs.Tables.{lookup, set_at};
ghost use Rattle.host_record.specs.ViewRows.{snoop_of_line};
ghost use Rattle.host_record.specs.View.{left_of};
ghost use Rattle.host_record.specs.Ways.{has_way as line_has_way, put_way};
ghost use Rattle.host_tables.specs.Kept.{IsRoomy, state_filled};
ghost use Rattle.host_cache.specs.Caches.{copy_with};

use crate::host::HostTables;
use crate::streams::end_stream;
use crate::tables::{number_at, set};
use cxl_message::{Bytes64, Channel, CopyState, Line, Message, NdrOp, SnpOp, Span, Tag};
use event_room::{CommitRef, OpHead, OpRef};
use line_states::{LineStage, Open, StageKind};

impl HostTables {
    /// A line is Open or Snooped, or it isn't any more.
    pub(crate) fn mark_busy(&mut self, line: Line, on: bool)
        ensures { self.new ≡ record self.old { kept = record self.old.kept { busy = slice_set self.old.kept.busy line.0 on } } }
    {
        if line.0 < self.setup.lines() {
            self.busy.mark(line, on);
        }
    }

    /// What is open with a Tag is finished: its line stays busy where it is Snooped.
    fn finish(&mut self, tag: Tag)
        ensures { self.new ≡ record self.old { kept = with_finished tag.0 self.old.kept } }
    {
        set(&mut self.opened, tag.0 as usize, None);
        if let Some(line) = number_at(&self.tag_lines, tag.0 as usize) {
            set(&mut self.line_tags, line as usize, None);
            let snooped = self.held.has(Line(line));
            self.mark_busy(Line(line), snooped);
        }
    }

    /// H3, Cmp: the eviction or the write-back of a Tag has ended.
    fn complete(&mut self, tag: Tag)
        ensures { self.new ≡ record self.old { kept = completed self.old.setup tag.0 self.old.kept } }
    {
        if tag.0 == self.write_back_tag().0 {
            if let Some(line) = self.writing {
                let written = LineStage {
                    kind: StageKind::Written,
                };
                set(&mut self.stages, line as usize, written);
            }
            self.writing = None;
        } else {
            self.finish(tag);
        }
    }

    /// H3, Cmp-S and Cmp-E where no MemData was taken: the grant is kept.
    #[tactic(auto, using(crate::proofs::Nothing::marked_nothing))]
    fn mark_granted(&mut self, tag: Tag, grant: NdrOp)
        ensures { self.new ≡ record self.old { kept = with_marked tag.0 (λ o. record o { grant = Some grant }) self.old.kept } }
    {
        if let Some(open) = self.open_with(tag) {
            let granted = open.granted(grant);
            set(&mut self.opened, tag.0 as usize, Some(granted));
        }
    }

    /// H3, MemData where no grant was taken: the bytes are kept.
    #[tactic(auto, using(crate::proofs::Nothing::marked_nothing))]
    fn mark_data(&mut self, tag: Tag, bytes: &Bytes64)
        ensures { self.new ≡ record self.old { kept = with_marked tag.0 (λ o. record o { bytes = Some bytes.now }) self.old.kept } }
    {
        if let Some(open) = self.open_with(tag) {
            let brought = open.with_data(bytes);
            set(&mut self.opened, tag.0 as usize, Some(brought));
        }
    }

    /// H5: the conflict of a Tag's line has ended, early or late.
    fn acknowledge(&mut self, tag: Tag)
        ensures { self.new ≡ record self.old { kept = acknowledged tag.0 self.old.kept } }
    {
        set(&mut self.conflicts, tag.0 as usize, false);
        if let Some(line) = number_at(&self.tag_lines, tag.0 as usize) {
            let end = Open::end_of_conflict(self.open_at(Line(line)).copied());
            set(&mut self.stages, line as usize, end);
        }
    }

    /// A line that has a way has another copy, S, E or M.
    #[tactic(auto, using(crate::proofs::Copies::put_nowhere))]
    pub(crate) fn put_copy(&mut self, line: Line, state: CopyState, bytes: &[u8; 64])
        ensures { self.new ≡ record self.old { kept = record self.old.kept { ways = put_way line.0 (copy_with state (record { 0 = bytes.now })) self.old.kept.ways } } }
    {
        if self.cache.has_way(line) {
            self.cache.put(line, state, &Bytes64(*bytes));
        }
    }

    /// A fill: the way of the operation's line has its copy, the stream has its commit, and what is open is finished.
    fn fill(&mut self, tag: Tag, grant: Option<NdrOp>, commit: CommitRef<'_>)
        ensures { self.new ≡ record self.old { kept = answered tag.0 grant (λ o. o) (Some (commit_of commit.entry)) self.old.kept } }
    {
        self.put_filled(grant, commit);
        end_stream(&mut self.streams, commit.stream);
        self.finish(tag);
    }

    /// A fill: the way of the operation's line has its copy.
    fn put_filled(&mut self, grant: Option<NdrOp>, commit: CommitRef<'_>)
        ensures { self.new ≡ record self.old { kept = record self.old.kept { ways = put_way (line_of (op_of commit.entry.op)) (filled_by grant (commit_of commit.entry) (op_of commit.entry.op)) self.old.kept.ways } } }
    {
        let state = filled_state(grant, commit.op);
        self.put_copy(line_named(commit.op), state, commit.value);
    }

    /// H3, Cmp-S and Cmp-E: it fills, or the grant is kept.
    fn grant(&mut self, tag: Tag, grant: NdrOp, commit: Option<CommitRef<'_>>)
        ensures { self.new ≡ record self.old { kept = answered tag.0 (Some grant) (λ o. record o { grant = Some grant }) (option_map commit_of commit.entry) self.old.kept } }
    {
        match commit {
            Some(commit) => self.fill(tag, Some(grant), commit),
            None => self.mark_granted(tag, grant),
        }
    }

    /// H3, MemData: it fills with the grant that was taken, or the bytes are kept.
    fn bring(&mut self, tag: Tag, bytes: &Bytes64, commit: Option<CommitRef<'_>>)
        ensures { self.new ≡ record self.old { kept = answered tag.0 (grant_in tag.0 self.old.kept) (λ o. record o { bytes = Some bytes.now }) (option_map commit_of commit.entry) self.old.kept } }
    {
        match commit {
            Some(commit) => self.fill(tag, self.grant_of(tag), commit),
            None => self.mark_data(tag, bytes),
        }
    }

    /// The grant that was taken for what is open with a Tag.
    fn grant_of(&self, tag: Tag) -> Option<NdrOp>
        ensures { result ≡ grant_in tag.0 self.now.kept }
    {
        match self.open_with(tag) {
            Some(open) => open.grant,
            None => None,
        }
    }

    /// H3 and H5: an NDR message was taken.
    fn take_ndr(&mut self, op: NdrOp, tag: Tag, commit: Option<CommitRef<'_>>)
        ensures { self.new ≡ record self.old { kept = took_ndr self.old.setup op tag.0 (option_map commit_of commit.entry) self.old.kept } }
    {
        match op {
            NdrOp::Cmp => self.complete(tag),
            NdrOp::CmpS => self.grant(tag, NdrOp::CmpS, commit),
            NdrOp::CmpE => self.grant(tag, NdrOp::CmpE, commit),
            NdrOp::ConflictAck => self.acknowledge(tag),
        }
    }

    /// H4: a snoop was taken: its lines are Snooped, stage New.
    fn take_snoop(&mut self, op: SnpOp, first: Line, span: Span)
        requires lines { first.0 < 65536 }
        requires room { length self.old.kept.snoops + self.old.kept.bi_snp_owed < self.old.setup.credits }
        ensures { self.new ≡ record self.old { kept = snooped (Some (record { op = op; first = first.0; span = span; unanswered = lines_of first.0 span })) (lines_of first.0 span) self.old.kept } }
    {
        self.held.take(op, first, span);
        self.begin_snoop(first);
        match span {
            Span::One => {}
            Span::Two => self.begin_snoop(Line(first.0 + 1)),
            Span::Four => {
                self.begin_snoop(Line(first.0 + 1));
                self.begin_snoop(Line(first.0 + 2));
                self.begin_snoop(Line(first.0 + 3));
            }
        }
    }

    /// A line was snooped.
    fn begin_snoop(&mut self, line: Line)
        ensures { self.new ≡ record self.old { kept = record self.old.kept { stages = slice_set self.old.kept.stages line.0 Stage.New; busy = slice_set self.old.kept.busy line.0 true } } }
    {
        set(&mut self.stages, line.0 as usize, LineStage::NEW);
        self.mark_busy(line, true);
    }

    /// H6: a Credit was taken, where one was lacking.
    fn earn(&mut self, channel: Channel)
        requires { left_of (view_in self.old.kept) channel < self.old.setup.credits }
        ensures { self.new ≡ record self.old { kept = earn channel self.old.kept } }
    {
        match channel {
            Channel::Req => self.req.earn(),
            Channel::Rwd => self.rwd.earn(),
            Channel::BiRsp => self.bi_rsp.earn(),
            Channel::Ndr | Channel::Drs | Channel::BiSnp => {}
            Channel::CreditUp | Channel::CreditDown => {}
        }
    }

    /// What the take of a message changes, by what it committed.
    pub fn take(&mut self, message: &Message, commit: Option<CommitRef<'_>>)
        requires { IsRoomy self.old.setup message.now self.old.kept }
        ensures { self.new ≡ record self.old { kept = took self.old.setup message.now (option_map commit_of commit.entry) self.old.kept } }
    {
        match message {
            Message::Ndr { op, tag } => {
                self.take_ndr(*op, *tag, commit);
                self.ndr_owed += 1;
            }
            Message::MemData { tag, bytes } => {
                self.bring(*tag, bytes, commit);
                self.drs_owed += 1;
            }
            Message::BiSnp { op, line, span, .. } => self.take_snoop(*op, *line, *span),
            Message::Credit { channel } => self.earn(*channel),
            Message::Req { .. } => {}
            Message::MemWr { .. } => {}
            Message::BiConflict { .. } => {}
            Message::BiRsp { .. } => {}
        }
    }
}

/// The state of a copy that a fill leaves: as it was granted for a Load, M for a store.
fn filled_state(grant: Option<NdrOp>, op: OpRef<'_>) -> CopyState
    ensures { result ≡ state_filled grant (op_of op.entry) }
{
    match op.head {
        OpHead::Word { .. } | OpHead::Whole { .. } => CopyState::M,
        OpHead::Load { .. } => match grant {
            Some(NdrOp::CmpS) => CopyState::S,
            Some(NdrOp::Cmp | NdrOp::CmpE | NdrOp::ConflictAck) | None => CopyState::E,
        },
    }
}

/// The line of an operation.
fn line_named(op: OpRef<'_>) -> Line
    ensures { result.0 ≡ line_of (op_of op.entry) }
{
    match op.head {
        OpHead::Load { line } => line,
        OpHead::Word { line, .. } => line,
        OpHead::Whole { line } => line,
    }
}
