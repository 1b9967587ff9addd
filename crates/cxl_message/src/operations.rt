// What is asked of an operation and of an act.
ghost use Rattle.std.specs.Prelude.{◌≡◌, ◌*◌, ◌+◌, ◌≤◌, IsTrue, option_map};
ghost use Rattle.cxl_message.specs.Events.{is_load as loads, is_whole as stores_whole, line_of, tag_of_act};
ghost use Rattle.cxl_message.specs.Formed.{place_exists as has_place};
ghost use Rattle.cxl_message.specs.Stores.{line_after, with_word};

use crate::events::{Act, Op};
use crate::identifiers::{Bytes64, Line, Tag};
use crate::limits::PLACES;

impl Op {
    /// The line that the operation reads or stores to.
    pub fn line(&self) -> Line
        ensures { result.0 ≡ line_of self.now }
    {
        match self {
            Op::Load { line } | Op::Word { line, .. } | Op::Whole { line, .. } => *line,
        }
    }

    /// Whether the operation is a Load.
    pub fn is_load(&self) -> bool
        ensures { result ≡ loads self.now }
    {
        matches!(self, Op::Load { .. })
    }

    /// Whether the operation stores a whole line.
    pub fn is_whole(&self) -> bool
        ensures { result ≡ stores_whole self.now }
    {
        matches!(self, Op::Whole { .. })
    }

    /// Whether the place of a Word is one of the eight of its line. Other operations name no place.
    pub fn place_exists(&self) -> bool
        ensures { result ≡ has_place self.now }
    {
        match self {
            Op::Word { place, .. } => *place < PLACES,
            Op::Load { .. } | Op::Whole { .. } => true,
        }
    }

    /// The line's 64 bytes after the operation, of those before it: a Load leaves them, a Word replaces eight, a Whole
    /// replaces all. The place of a Word is one of its line (own rule).
    pub fn line_after(&self, bytes: &Bytes64) -> Bytes64
        requires { IsTrue (has_place self.now) }
        ensures { result ≡ line_after self.now bytes.now }
    {
        match self {
            Op::Load { .. } => *bytes,
            Op::Word { place, value, .. } => word_stored(bytes, *place, *value),
            Op::Whole { bytes: whole, .. } => *whole,
        }
    }
}

impl Act {
    /// The Tag that the act names: that of Serve, Clean, Start and Evict, and None for any other act.
    pub fn tag(&self) -> Option<Tag>
        ensures { option_map (λ tag. tag.0) result ≡ tag_of_act self.now }
    {
        match self {
            Act::Serve { tag, .. }
            | Act::Clean { tag, .. }
            | Act::Start { tag, .. }
            | Act::Evict { tag, .. } => Some(*tag),
            _ => None,
        }
    }
}

/// The bytes with the eight of a place replaced, the highest byte of the value first.
fn word_stored(bytes: &Bytes64, place: u8, value: u64) -> Bytes64
    requires { place + 1 ≤ 8 }
    ensures { result ≡ with_word bytes.now place value }
{
    let mut line = bytes.0;
    let first = 8 * place as usize;
    line[first..first + 8].copy_from_slice(&value.to_be_bytes());
    Bytes64(line)
}
