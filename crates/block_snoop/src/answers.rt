// Which lines of a snooped block have no answer yet.
ghost use Rattle.std.specs.Prelude.{◌≡◌, ◌≤◌, ◌+◌, [], if◌then◌else◌, length, not};
ghost use Rattle.cxl_message.specs.Lists.{is_in};
ghost use Rattle.block_snoop.specs.Answering.{are_all_left, line_answered, none_answered, some_left};

use crate::span_len;
use cxl_message::Span;
use snoop_filter::Block;
use std::marker::Model;

/// The lines of a snooped block that have no answer yet (own rule).
///
/// A contract sees the block and the list of these lines, ascending. No call takes memory.
#[derive(Clone, Copy, Debug)]
pub struct AnswersLeft {
    block: Block,
    // For each line of the block, from its first on, whether it has no answer.
    left: [bool; 4],
}

impl Model for AnswersLeft {
    ghost use Rattle.block_snoop.specs.Answering.{LeftRecord};

    ghost Value = { LeftRecord };

    ghost use Rattle.std.specs.Prelude.{◌≡◌, length};
    ghost use Rattle.block_snoop.specs.Flags.{flags_of};
    ghost use Rattle.block_snoop.specs.FlagsBack.{flags_back, seen_left};

    ghost view = { seen_left };

    ghost invariant = { λ a. length a.left ≡ 4 };

    ghost inverse = { λ r. record { block = r.block; left = flags_of r.block.first.0 r.left } };

    ghost inverse_ok = { λ a four. flags_back a.block a.left four };
}

impl AnswersLeft {
    /// All lines of a block.
    pub fn new(block: Block) -> AnswersLeft
        ensures all { result ≡ none_answered block }
    {
        AnswersLeft {
            block,
            left: all_of(block.span),
        }
    }

    /// The line that is `low` lines after the first is answered. It is `false` exactly where that line isn't left, and
    /// then nothing changes.
    pub fn answer_line(&mut self, low: u8) -> bool
        ensures left { result ≡ is_in (self.old.block.first.0 + low) self.old.left }
        ensures answered { self.new ≡ record self.old { left = line_answered (self.old.block.first.0 + low) self.old.left } }
    {
        if low < 4 && self.left[low as usize] {
            self.left[low as usize] = false;
            true
        } else {
            false
        }
    }

    /// All lines are answered at once. It is `false` exactly where not all are left, and then nothing changes.
    pub fn answer_all(&mut self) -> bool
        ensures left { result ≡ are_all_left self.old.block.span self.old.left }
        ensures answered { self.new ≡ record self.old { left = if are_all_left self.old.block.span self.old.left then [] else self.old.left } }
    {
        if self.count() == span_len(self.block.span) {
            self.left = [false; 4];
            true
        } else {
            false
        }
    }

    /// Whether no line is left.
    pub fn is_done(&self) -> bool
        ensures done { result ≡ not (some_left self.now.left) }
    {
        self.count() == 0
    }

    /// How many lines are left.
    fn count(&self) -> u8
        ensures { result ≡ length self.now.left }
    {
        one_if(self.left[0]) + one_if(self.left[1]) + one_if(self.left[2]) + one_if(self.left[3])
    }
}

ghost use Rattle.block_snoop.specs.Flags.{all_flags, one_set};

/// The flags of all lines of a block of some length.
fn all_of(span: Span) -> [bool; 4]
    ensures { result ≡ all_flags span }
{
    match span {
        Span::One => [true, false, false, false],
        Span::Two => [true, true, false, false],
        Span::Four => [true, true, true, true],
    }
}

/// 1 for a flag that is set.
fn one_if(set: bool) -> u8
    ensures count { result ≡ one_set set }
    ensures within { result ≤ 1 }
{
    if set { 1 } else { 0 }
}
