// What an operation changes, rows H1 and H2.
ghost use Rattle.std.specs.Prelude.{◌≡◌, ◌+◌, ◌<◌, ◌^◌, IfSome, IsTrue, Some, option_map, true};
ghost use Rattle.cxl_message.specs.Formed.{place_exists};
ghost use Rattle.event_room.specs.Parts.{commit_of, message_of, sends_of};
ghost use Rattle.host_tables.specs.Operating.{GoesOn, opened_all};
ghost use Rattle.host_plans.specs.Plans.{HasRoomFor, PlanHolds};
ghost use Rattle.host_record.specs.HostChanges.{opened_by, operated, stream_begins, with_opened, ways_after_hit};
ghost use Rattle.host_record.specs.HostRecord.{stream_in};
ghost use Rattle.host_record.specs.Ways.{add_way, drop_way_of, has_way};

use crate::host::HostTables;
use crate::streams::begin_stream;
use crate::tables::set;
use cxl_message::{CopyState, Line, Op, Tag};
use event_room::{CommitRef, MessageHead, MessageRef, SendsRef};
use host_plans::Plan;
use line_states::{Open, OpenKind};

impl HostTables {
    /// An operation went by its plan.
    pub fn operate(
        &mut self,
        plan: Plan,
        stream: u8,
        index: u32,
        op: &Op,
        sends: SendsRef<'_>,
        commit: Option<CommitRef<'_>>,
    )
        requires holds { PlanHolds self.old.setup.ways self.old.setup.lines self.old.kept.ways self.old.kept.busy op.now plan }
        requires goes_on { GoesOn self.old.host stream index self.old.kept op.now plan (record { sends = sends_of sends; commit = option_map commit_of commit }) }
        ensures { self.new ≡ record self.old { kept = operated self.old.setup stream index op.now (sends_of sends.entry) (option_map commit_of commit.entry) self.old.kept } }
    {
        match plan {
            Plan::Hit => {
                self.store(op, commit);
                self.begin(stream, false);
            }
            Plan::Request { .. } => {
                self.enter(op.line(), None);
                self.begin(stream, true);
                self.open_all(stream, index, op, sends);
                self.pay_all(sends);
            }
            Plan::Drop { victim, .. } => {
                self.enter(op.line(), Some(victim));
                self.begin(stream, true);
                self.open_all(stream, index, op, sends);
                self.pay_all(sends);
            }
            Plan::Replace { victim, .. } => {
                self.enter(op.line(), Some(victim));
                self.begin(stream, true);
                self.open_all(stream, index, op, sends);
                self.pay_all(sends);
            }
        }
    }

    /// A stream began an operation, which has its commit or waits for it.
    fn begin(&mut self, stream: u8, waits: bool)
        requires { (stream_in self.old.kept.streams stream).begun + 1 < 2 ^ 32 }
        ensures { self.new ≡ record self.old { kept = record self.old.kept { streams = stream_begins stream waits self.old.kept.streams } } }
    {
        begin_stream(&mut self.streams, stream, waits);
    }

    /// H1: a store that hits is in its line's copy, which is modified then.
    fn store(&mut self, op: &Op, commit: Option<CommitRef<'_>>)
        ensures { self.new ≡ record self.old { kept = record self.old.kept { ways = ways_after_hit op.now (option_map commit_of commit.entry) self.old.kept.ways } } }
    {
        match (op, commit) {
            (Op::Word { line, .. } | Op::Whole { line, .. }, Some(commit)) => {
                self.put_copy(*line, CopyState::M, commit.value);
            }
            _ => {}
        }
    }

    /// H2: a line has a way, its own or a new one, and a victim's way has gone.
    fn enter(&mut self, line: Line, victim: Option<Line>)
        requires exists { line.0 < self.old.setup.lines }
        requires stands { IfSome victim (λ v. has_way v.0 self.old.kept.ways ≡ true) }
        requires fits { HasRoomFor self.old.setup.ways (drop_way_of (option_map (λ v. v.0) victim) self.old.kept.ways) line.0 }
        ensures { self.new ≡ record self.old { kept = record self.old.kept { ways = add_way line.0 (drop_way_of (option_map (λ v. v.0) victim) self.old.kept.ways) } } }
    {
        if let Some(victim) = victim {
            self.cache.drop_copy(victim, false);
        }
        if !self.cache.has_way(line) {
            self.cache.add(line);
        }
    }

    /// H2: what the messages of an operation open.
    fn open_all(&mut self, stream: u8, index: u32, op: &Op, sends: SendsRef<'_>)
        requires { IsTrue (place_exists op.now) }
        ensures { self.new ≡ record self.old { kept = opened_all stream index op.now (sends_of sends.entry) self.old.kept } }
    {
        match sends {
            SendsRef::Nothing => {}
            SendsRef::One(out) => self.open_by(stream, index, op, out.message),
            SendsRef::Two(first, second) => {
                self.open_by(stream, index, op, first.message);
                self.open_by(stream, index, op, second.message);
            }
        }
    }

    /// H2: what a message of an operation opens.
    fn open_by(&mut self, stream: u8, index: u32, op: &Op, message: MessageRef<'_>)
        requires { IsTrue (place_exists op.now) }
        ensures { self.new ≡ record self.old { kept = with_opened (opened_by stream index op.now (message_of message.entry)) self.old.kept } }
    {
        match message.head {
            MessageHead::Req {
                op: request,
                meta,
                tag,
                line,
                ..
            } => {
                let kind = OpenKind::of_request(request, meta);
                self.open_with_tag(line, tag, Open::new(kind, tag, stream, index, op));
            }
            MessageHead::MemWr { tag, line, .. } => {
                let kind = OpenKind::DirtyEviction;
                self.open_with_tag(line, tag, Open::new(kind, tag, stream, index, op));
            }
            MessageHead::BiConflict { .. } => {}
            MessageHead::BiRsp { .. } => {}
            MessageHead::Ndr { .. } => {}
            MessageHead::MemData { .. } => {}
            MessageHead::BiSnp { .. } => {}
            MessageHead::Credit { .. } => {}
        }
    }

    /// Something is open for a line with a Tag from now on.
    fn open_with_tag(&mut self, line: Line, tag: Tag, what: Open)
        ensures { self.new ≡ record self.old { kept = with_opened (Some (record { line = line.0; tag = tag.0; what = what })) self.old.kept } }
    {
        set(&mut self.opened, tag.0 as usize, Some(what));
        set(&mut self.tag_lines, tag.0 as usize, Some(line.0));
        set(&mut self.line_tags, line.0 as usize, Some(tag.0));
        self.mark_busy(line, true);
    }
}
