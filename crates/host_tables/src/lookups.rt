// What the rows read of what a host keeps.
ghost use Rattle.std.specs.List.{list_all};
ghost use Rattle.std.specs.Prelude.{◌≡◌, ◌==◌, ◌&&◌, ◌||◌, ◌+◌, ◌≤◌, false, is_some, length, nat_le, not, option_map};
ghost use Rattle.coherence_model.specs.Cache.{is_valid};
ghost use Rattle.coherence_model.specs.Stages.{Stage};
ghost use Rattle.host_record.specs.HostRecord.{open_in, view_in};
ghost use Rattle.host_record.specs.Tables.{lookup, place_or};
ghost use Rattle.host_record.specs.View.{held_of, left_of, owed_of};
ghost use Rattle.host_record.specs.ViewRows.{is_dirty as copy_is_dirty};
ghost use Rattle.host_record.specs.Ways.{copy_in};

use crate::host::{HostTables, TagNumber};
use cxl_message::{Bytes64, Channel, CopyState, Line, Tag};
use line_states::{LineStage, Open};

/// What is open with a Tag, where it stands.
fn open_in_table(opened: &[Option<Open>], tag: usize) -> Option<&Open>
    ensures { option_map (λ o. o.now) result ≡ lookup opened.now tag }
{
    match opened.get(tag) {
        Some(Some(open)) => Some(open),
        Some(None) | None => None,
    }
}

/// The Tag of what is open for a line.
fn tag_in_table(tags: &[Option<TagNumber>], line: usize) -> Option<TagNumber>
    ensures { result ≡ lookup tags.now line }
{
    match tags.get(line) {
        Some(tag) => *tag,
        None => None,
    }
}

/// The stage of a line.
fn stage_in_table(stages: &[LineStage], line: usize) -> LineStage
    ensures { result ≡ place_or Stage.New stages.now line }
{
    match stages.get(line) {
        Some(stage) => *stage,
        None => LineStage::NEW,
    }
}

/// The flag at a place.
fn flag_in_table(flags: &[bool], place: usize) -> bool
    ensures { result ≡ place_or false flags.now place }
{
    match flags.get(place) {
        Some(flag) => *flag,
        None => false,
    }
}

impl HostTables {
    /// What is open with a Tag.
    pub fn open_with(&self, tag: Tag) -> Option<&Open>
        ensures { option_map (λ o. o.now) result ≡ lookup self.now.kept.opened tag.0 }
    {
        open_in_table(&self.opened, tag.0 as usize)
    }

    /// The Tag of what is open for a line.
    pub fn tag_at(&self, line: Line) -> Option<TagNumber>
        ensures { result ≡ lookup self.now.kept.line_tags line.0 }
    {
        tag_in_table(&self.line_tags, line.0 as usize)
    }

    /// What is open for a line.
    pub fn open_at(&self, line: Line) -> Option<&Open>
        ensures { option_map (λ o. o.now) result ≡ open_in self.now.kept line.0 }
    {
        match self.tag_at(line) {
            Some(tag) => open_in_table(&self.opened, tag as usize),
            None => None,
        }
    }

    /// Whether something is open for a line.
    pub fn opens(&self, line: Line) -> bool
        ensures { result ≡ is_some (open_in self.now.kept line.0) }
    {
        match self.open_at(line) {
            Some(_) => true,
            None => false,
        }
    }

    /// The stage of a line since the last snoop of it.
    pub fn stage(&self, line: Line) -> LineStage
        ensures { result ≡ place_or Stage.New self.now.kept.stages line.0 }
    {
        stage_in_table(&self.stages, line.0 as usize)
    }

    /// Whether the conflict of a Tag is open.
    pub fn has_conflict(&self, tag: Tag) -> bool
        ensures { result ≡ place_or false self.now.kept.conflicts tag.0 }
    {
        flag_in_table(&self.conflicts, tag.0 as usize)
    }

    /// The write-back Tag: it comes after the others.
    pub fn write_back_tag(&self) -> Tag
        ensures { result ≡ record { 0 = self.now.setup.tags } }
    {
        Tag(TagNumber::from(self.setup.tags()))
    }

    /// Whether a Tag is the write-back Tag, and in use.
    pub fn is_write_back_tag(&self, tag: Tag) -> bool
        ensures { result ≡ ((tag.0 == self.now.setup.tags) && is_some self.now.kept.writing) }
    {
        tag.0 == TagNumber::from(self.setup.tags()) && self.writing.is_some()
    }

    /// The state of a line's copy: I where it has none.
    pub fn copy(&self, line: Line) -> CopyState
        ensures { result ≡ (copy_in self.now.kept.ways line.0).state }
    {
        self.cache.copy(line)
    }

    /// Whether a line's copy isn't I.
    pub fn has_copy(&self, line: Line) -> bool
        ensures { result ≡ is_valid (copy_in self.now.kept.ways line.0) }
    {
        match self.cache.copy(line) {
            CopyState::I => false,
            CopyState::S | CopyState::E | CopyState::M => true,
        }
    }

    /// Whether a line's copy is M.
    pub fn is_dirty(&self, line: Line) -> bool
        ensures { result ≡ copy_is_dirty (copy_in self.now.kept.ways line.0) }
    {
        match self.cache.copy(line) {
            CopyState::I | CopyState::S | CopyState::E => false,
            CopyState::M => true,
        }
    }

    /// The bytes of a line's copy: zeros where it has none.
    #[tactic(auto, using(crate::proofs::Copies::no_way_no_copy))]
    pub fn bytes_of(&self, line: Line) -> Bytes64
        ensures { result ≡ (copy_in self.now.kept.ways line.0).bytes }
    {
        if self.cache.has_way(line) {
            self.cache.bytes(line)
        } else {
            Bytes64([0; 64])
        }
    }

    /// The credits left of a channel on which a host sends.
    pub fn left(&self, channel: Channel) -> u8
        ensures { result ≡ left_of (view_in self.now.kept) channel }
    {
        match channel {
            Channel::Req => self.req.left(),
            Channel::Rwd => self.rwd.left(),
            Channel::BiRsp => self.bi_rsp.left(),
            Channel::Ndr | Channel::Drs | Channel::BiSnp => 0,
            Channel::CreditUp | Channel::CreditDown => 0,
        }
    }

    /// The credits owed for a channel from which a host takes.
    pub fn owed(&self, channel: Channel) -> u8
        ensures { result ≡ owed_of (view_in self.now.kept) channel }
    {
        match channel {
            Channel::Ndr => self.ndr_owed,
            Channel::Drs => self.drs_owed,
            Channel::BiSnp => self.bi_snp_owed,
            Channel::Req | Channel::Rwd | Channel::BiRsp => 0,
            Channel::CreditUp | Channel::CreditDown => 0,
        }
    }
}
