// The snoops that a host holds, in the order taken.
ghost use Rattle.std.specs.Prelude.{◌≡◌, ◌≤◌, ◌&&◌, ◌+◌, ◌<◌, ◌==◌, [], IfOk, IfSome, filter, find, is_some, length, not, option_map, position, slice_index_or, slice_set, true, vec_capacity};
ghost use Rattle.std.specs.List.{list_all};
ghost use Rattle.cxl_message.specs.Lists.{is_in};
ghost use Rattle.cxl_message.specs.Spans.{lines_of};
ghost use Rattle.coherence_model.specs.Snoops.{is_whole_block, snoops_after_answer};
ghost use Rattle.held_snoops.specs.Held.{answered, has_no_other, is_free, no_snoop, with_block_answered, with_line_answered, with_taken};

use crate::snoops::HeldSnoop;
use cxl_message::{Line, SnpOp, Span};
use std::alloc::{AllocError, Global};
use std::marker::Model;

/// The snoops that a host holds, the oldest first, with room for so many.
#[derive(Drop)]
pub struct HeldSnoops {
    snoops: Vec<HeldSnoop>,
}

impl Model for HeldSnoops {
    ghost use Rattle.std.specs.Prelude.{vec_capacity};
    ghost use Rattle.held_snoops.specs.Held.{SnoopsRecord};

    ghost Value = { SnoopsRecord };

    ghost view = { λ h. record { snoops = h.snoops.items; room = vec_capacity h.snoops } };
}

impl HeldSnoops {
    /// No snoops, with room for so many. It is refused only for want of memory (own rule).
    pub fn open(alloc: Global, room: u8) -> Result<HeldSnoops, AllocError>
        ensures { IfOk result (λ held. held ≡ record { snoops = []; room = room }) }
    {
        Ok(HeldSnoops {
            snoops: Vec::with_capacity(alloc, room as usize)?,
        })
    }

    /// How many snoops are held.
    pub fn len(&self) -> usize
        ensures { result ≡ length self.now.snoops }
    {
        self.snoops.len()
    }

    /// Whether none is held.
    pub fn is_empty(&self) -> bool
        ensures { result ≡ (length self.now.snoops == 0) }
    {
        self.snoops.is_empty()
    }

    /// The snoops, in the order taken.
    pub fn snoops(&self) -> &[HeldSnoop]
        ensures { result.now ≡ self.now.snoops }
    {
        &self.snoops
    }

    /// Whether some snoop has a line without an answer: whether the line is Snooped.
    pub fn has(&self, line: Line) -> bool
        ensures { result ≡ is_some (find (λ s. is_in line.0 s.unanswered) self.now.snoops) }
    {
        match self.of_line(line) {
            Some(_) => true,
            None => false,
        }
    }

    /// Whether none of the lines of a span is Snooped.
    #[tactic(auto, using(crate::proofs::Marks::all_of_one, crate::proofs::Marks::all_of_two, crate::proofs::Marks::all_of_four))]
    pub fn has_none(&self, first: Line, span: Span) -> bool
        requires { first.0 < 65536 }
        ensures { result ≡ list_all (is_free self.now.snoops) (lines_of first.0 span) }
    {
        match span {
            Span::One => self.is_free(first),
            Span::Two => self.two_are_free(first),
            Span::Four => self.four_are_free(first),
        }
    }

    /// Whether a line isn't Snooped.
    fn is_free(&self, line: Line) -> bool
        ensures { result ≡ is_free self.now.snoops line.0 }
    {
        !self.has(line)
    }

    /// Whether two lines from one on aren't Snooped.
    fn two_are_free(&self, first: Line) -> bool
        requires { first.0 < 65540 }
        ensures { result ≡ (is_free self.now.snoops first.0 && is_free self.now.snoops (first.0 + 1)) }
    {
        self.is_free(first) && self.is_free(Line(first.0 + 1))
    }

    /// Whether four lines from one on aren't Snooped.
    fn four_are_free(&self, first: Line) -> bool
        requires { first.0 < 65536 }
        ensures { result ≡ ((is_free self.now.snoops first.0 && is_free self.now.snoops (first.0 + 1)) && (is_free self.now.snoops (first.0 + 2) && is_free self.now.snoops (first.0 + 2 + 1))) }
    {
        self.two_are_free(first) && self.two_are_free(Line(first.0 + 2))
    }

    /// The snoop that has a line without an answer.
    pub fn of_line(&self, line: Line) -> Option<&HeldSnoop>
        ensures found { option_map (λ s. s.now) result ≡ find (λ s. is_in line.0 s.unanswered) self.now.snoops }
        ensures has { IfSome result (λ s. is_in line.0 s.now.unanswered ≡ true) }
    {
        self.snoops.iter().find(|snoop| snoop.has(line))
    }

    /// The BISnpInvBlk with this first line, none of whose lines was answered.
    pub fn whole_block(&self, first: Line) -> Option<&HeldSnoop>
        ensures found { option_map (λ s. s.now) result ≡ find (is_whole_block first.0) self.now.snoops }
        ensures first { IfSome result (λ s. s.now.first ≡ first.0) }
    {
        self.snoops.iter().find(|snoop| snoop.is_whole_at(first))
    }

    /// Takes a snoop: it is held last, with all its lines. There is room for one more.
    pub fn take(&mut self, op: SnpOp, first: Line, span: Span)
        requires room { length self.old.snoops < self.old.room }
        requires line { first.0 < 65536 }
        ensures { self.new ≡ with_taken op first.0 span self.old }
    {
        self.snoops.push_reserved(HeldSnoop::new(op, first, span));
    }

    /// Takes the answer for a line away: the snoop goes where no line of it is left.
    pub fn answer_line(&mut self, line: Line)
        ensures answered { self.new ≡ with_line_answered line.0 self.old }
        ensures fewer { length self.new.snoops ≤ length self.old.snoops }
    {
        take_answer(&mut self.snoops, line);
    }

    /// Takes the answer for a whole block with this first line away.
    pub fn answer_block(&mut self, first: Line)
        ensures answered { self.new ≡ with_block_answered first.0 self.old }
        ensures fewer { length self.new.snoops ≤ length self.old.snoops }
    {
        take_blocks(&mut self.snoops, first);
    }
}

/// The place of the snoop that has a line without an answer.
fn place_of(snoops: &[HeldSnoop], line: Line) -> Option<usize>
    ensures { result ≡ position (λ s. is_in line.0 s.unanswered) snoops.now }
{
    snoops.iter().position(|snoop| snoop.has(line))
}

/// Whether the snoop at a place has no other line than this without an answer.
fn has_no_other_at(snoops: &[HeldSnoop], place: usize, line: Line) -> bool
    requires { place < length snoops.now }
    ensures { result ≡ has_no_other line.0 (slice_index_or snoops.now place no_snoop) }
{
    snoops[place].has_no_other(line)
}

/// Takes a line's answer from the snoop at a place.
fn answer_at(snoops: &mut Vec<HeldSnoop>, place: usize, line: Line)
    requires { place < length snoops.old.items }
    ensures len { length snoops.new.items ≡ length snoops.old.items }
    ensures items { snoops.new.items ≡ slice_set snoops.old.items place (answered line.0 (slice_index_or snoops.old.items place no_snoop)) }
    ensures capacity { vec_capacity snoops.new ≡ vec_capacity snoops.old }
{
    snoops[place].answer(line);
}

/// Takes the answer for a line away.
#[tactic(auto, using(crate::proofs::Answering::below, crate::proofs::Answering::gone, crate::proofs::Answering::kept, crate::proofs::Answering::stays))]
fn take_answer(snoops: &mut Vec<HeldSnoop>, line: Line)
    ensures items { snoops.new.items ≡ snoops_after_answer line.0 snoops.old.items }
    ensures fewer { length snoops.new.items ≤ length snoops.old.items }
    ensures capacity { vec_capacity snoops.new ≡ vec_capacity snoops.old }
{
    let Some(place) = place_of(snoops, line) else {
        return;
    };
    if has_no_other_at(snoops, place, line) {
        let _answered = snoops.remove(place);
    } else {
        answer_at(snoops, place, line);
    }
}

/// Takes the snoops of whole blocks with this first line away.
fn take_blocks(snoops: &mut Vec<HeldSnoop>, first: Line)
    ensures items { snoops.new.items ≡ filter (λ s. not (is_whole_block first.0 s)) snoops.old.items }
    ensures fewer { length snoops.new.items ≤ length snoops.old.items }
    ensures capacity { vec_capacity snoops.new ≡ vec_capacity snoops.old }
{
    snoops.retain(|snoop| !snoop.is_whole_at(first));
}
