// The RwD messages of a host that are buffered at the device.
ghost use Rattle.std.specs.Prelude.{◌≡◌, ◌<◌, ◌++◌, ◌∷◌, [], IfOk, find, length, position, vec_capacity};
ghost use Rattle.device_lines.specs.Buffered.{completion_of, has_write_tag, served_as, tag_of_write, target_of, without_write};

use cxl_message::{Line, Meta, NdrOp, SnpType, Tag};
use line_pool::SlotId;
use std::alloc::{AllocError, Global};
use std::marker::Model;

/// The most messages of a channel that are buffered for a host, which is the most credits that a setup has.
pub const MOST: usize = 64;

/// A buffered RwD message: a MemWr, whose bytes are in a slot of the region, or a BIConflict.
#[derive(Clone, Copy)]
pub enum Write {
    Line {
        meta: Meta,
        snp: SnpType,
        tag: Tag,
        line: Line,
        slot: SlotId,
    },
    Conflict {
        tag: Tag,
    },
}

/// The line that a buffered MemWr writes, and the slot with its bytes.
#[derive(Clone, Copy)]
pub struct Target {
    /// The line that it writes.
    pub line: Line,
    /// The slot that has its bytes.
    pub slot: SlotId,
}

/// What a buffered RwD message is, without its bytes.
#[derive(Clone, Copy, PartialEq, Eq, Debug)]
pub enum Served {
    /// A MemWr of a line.
    Write { meta: Meta, line: Line },
    /// A BIConflict.
    Conflict,
}

impl Write {
    /// The tag.
    pub fn tag(&self) -> Tag
        ensures { result ≡ tag_of_write self.now }
    {
        match self {
            Write::Line { tag, .. } => *tag,
            Write::Conflict { tag } => *tag,
        }
    }

    /// Whether it has a tag.
    pub fn has_tag(&self, tag: Tag) -> bool
        ensures { result ≡ has_write_tag tag.0 self.now }
    {
        self.tag().0 == tag.0
    }

    /// What it writes, if it is a MemWr.
    pub fn target(&self) -> Option<Target>
        ensures { result ≡ target_of self.now }
    {
        match self {
            Write::Line { line, slot, .. } => Some(Target {
                line: *line,
                slot: *slot,
            }),
            Write::Conflict { .. } => None,
        }
    }

    /// The opcode of the message that answers it.
    pub fn completion(&self) -> NdrOp
        ensures { result ≡ completion_of self.now }
    {
        match self {
            Write::Line { .. } => NdrOp::Cmp,
            Write::Conflict { .. } => NdrOp::ConflictAck,
        }
    }

    /// What it is.
    pub fn served(&self) -> Served
        ensures { result ≡ served_as self.now }
    {
        match self {
            Write::Line { meta, line, .. } => Served::Write {
                meta: *meta,
                line: *line,
            },
            Write::Conflict { .. } => Served::Conflict,
        }
    }
}

/// The buffered RwD messages of a host, in the order taken. Only `open` takes memory.
#[derive(Drop)]
pub struct Writes {
    writes: Vec<Write>,
}

impl Model for Writes {
    ghost use Rattle.std.specs.Prelude.{List, ◌≤◌, vec_capacity};
    ghost use Rattle.device_lines.specs.declared.buffers.Write.{Write};

    ghost Value = { List Write };

    ghost view = { λ w. w.writes.items };

    ghost invariant = { λ w. 64 ≤ vec_capacity w.writes };
}

impl Writes {
    /// No messages.
    pub fn open(alloc: Global) -> Result<Writes, AllocError>
        ensures { IfOk result (λ writes. writes ≡ []) }
    {
        let writes = Vec::with_capacity(alloc, MOST)?;
        Ok(Writes { writes })
    }

    /// The messages.
    pub fn all(&self) -> &[Write]
        ensures { result.now ≡ self.now }
    {
        &self.writes
    }

    /// The message with a tag.
    pub fn with_tag(&self, tag: Tag) -> Option<Write>
        ensures { result ≡ find (has_write_tag tag.0) self.now }
    {
        self.writes.iter().copied().find(|write| write.has_tag(tag))
    }

    /// Appends one that was taken. There is room for it.
    pub fn push(&mut self, write: Write)
        requires { length self.old < 64 }
        ensures { self.new ≡ self.old ++ write ∷ [] }
    {
        self.writes.push_reserved(write);
    }

    /// Takes the first one with a tag away.
    pub fn remove(&mut self, tag: Tag)
        ensures { self.new ≡ without_write tag.0 self.old }
    {
        remove_with(&mut self.writes, tag);
    }
}

/// The place of the first message with a tag.
fn place_with(writes: &[Write], tag: Tag) -> Option<usize>
    ensures { result ≡ position (has_write_tag tag.0) writes.now }
{
    writes.iter().position(|write| write.has_tag(tag))
}

/// Takes the first message with a tag away.
fn remove_with(writes: &mut Vec<Write>, tag: Tag)
    ensures items { writes.new.items ≡ without_write tag.0 writes.old.items }
    ensures capacity { vec_capacity writes.new ≡ vec_capacity writes.old }
{
    if let Some(place) = place_with(writes, tag) {
        let _used = writes.remove(place);
    }
}
