// What the rows read of the snoops, the streams and the numbers that a host keeps.
ghost use Rattle.std.specs.List.{list_all, list_any};
ghost use Rattle.std.specs.Prelude.{◌≡◌, ◌≤◌, ◌<◌, IfSome, find, is_some, length, option_map, true};
ghost use Rattle.cxl_message.specs.Lists.{is_in};
ghost use Rattle.cxl_message.specs.Spans.{lines_of};
ghost use Rattle.coherence_model.specs.Snoops.{is_whole_block};
ghost use Rattle.held_snoops.specs.Held.{is_free};
ghost use Rattle.host_record.specs.HostRecord.{stream_in, view_in};
ghost use Rattle.host_record.specs.View.{held_of};
ghost use Rattle.host_record.specs.ViewRows.{block_at, snoop_of_line};

use crate::host::HostTables;
use crate::streams::place_of;
use cxl_message::{Channel, Line, Setup, Span};
use held_snoops::HeldSnoop;

impl HostTables {
    /// The setup.
    pub fn setup(&self) -> &Setup
        ensures { result.now ≡ self.now.setup }
    {
        &self.setup
    }

    /// The number of the host.
    pub fn host(&self) -> u8
        ensures { result ≡ self.now.host }
    {
        self.host
    }

    /// The snoops that are held, in the order taken.
    pub fn snoops(&self) -> &[HeldSnoop]
        ensures snoops { result.now ≡ self.now.kept.snoops }
        ensures few { length result.now ≤ 64 }
    {
        self.held.snoops()
    }

    /// Whether a line is Snooped: a held snoop has it without an answer.
    pub fn is_snooped(&self, line: Line) -> bool
        ensures { result ≡ is_some (snoop_of_line self.now.kept.snoops line.0) }
    {
        self.held.has(line)
    }

    /// The held snoop that has a line without an answer.
    pub fn snoop_of(&self, line: Line) -> Option<&HeldSnoop>
        ensures found { option_map (λ s. s.now) result ≡ snoop_of_line self.now.kept.snoops line.0 }
        ensures has { IfSome result (λ s. is_in line.0 s.now.unanswered ≡ true) }
    {
        self.held.of_line(line)
    }

    /// The held BISnpInvBlk with this first line, none of whose lines was answered.
    pub fn whole_block(&self, first: Line) -> Option<&HeldSnoop>
        ensures found { option_map (λ s. s.now) result ≡ block_at self.now.kept.snoops first.0 }
        ensures first { IfSome result (λ s. s.now.first ≡ first.0) }
    {
        self.held.whole_block(first)
    }

    /// Whether none of the lines of a span is Snooped.
    pub fn has_none_snooped(&self, first: Line, span: Span) -> bool
        requires { first.0 < 65536 }
        ensures { result ≡ list_all (is_free self.now.kept.snoops) (lines_of first.0 span) }
    {
        self.held.has_none(first, span)
    }

    /// The messages of a channel that are held: those owed and those buffered.
    pub fn held_messages(&self, channel: Channel) -> usize
        ensures { result ≡ held_of (view_in self.now.kept) channel }
    {
        match channel {
            Channel::Ndr => self.ndr_owed as usize,
            Channel::Drs => self.drs_owed as usize,
            Channel::BiSnp => self.bi_snp_owed as usize + self.held.len(),
            Channel::Req | Channel::Rwd | Channel::BiRsp => 0,
            Channel::CreditUp | Channel::CreditDown => 0,
        }
    }

    /// Whether the write-back Tag is in use.
    pub fn is_writing(&self) -> bool
        ensures { result ≡ is_some self.now.kept.writing }
    {
        self.writing.is_some()
    }

    /// How many operations a stream began: 0 for a stream that isn't there.
    pub fn begun(&self, stream: u8) -> u32
        ensures { result ≡ (stream_in self.now.kept.streams stream).begun }
    {
        place_of(&self.streams, stream).begun
    }

    /// Whether the last operation of a stream has no commit yet.
    pub fn waits(&self, stream: u8) -> bool
        ensures { result ≡ (stream_in self.now.kept.streams stream).waits }
    {
        place_of(&self.streams, stream).waits
    }

    /// Whether some line is Open or Snooped.
    pub fn any_busy(&self) -> bool
        ensures { result ≡ list_any (λ on. on) self.now.kept.busy }
    {
        self.busy.any()
    }
}
