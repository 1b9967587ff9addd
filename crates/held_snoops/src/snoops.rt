// One snoop that a host holds.
ghost use Rattle.std.specs.Prelude.{◌≡◌, ◌-◌, ◌<◌, ◌==◌, length, true};
ghost use Rattle.coherence_model.specs.Words.{one_if as number_of};
ghost use Rattle.held_snoops.specs.Marks.{mark_count, marked, with_marked};
ghost use Rattle.cxl_message.specs.Codes.{span_len as len_of_span};
ghost use Rattle.cxl_message.specs.Lists.{is_in, without};
ghost use Rattle.cxl_message.specs.Spans.{lines_of};
ghost use Rattle.coherence_model.specs.Snoops.{invalidates_block as opcode_invalidates_block, is_whole_block};

use arrayvec::ArrayVec;
use cxl_message::{BiTag, Line, SnpOp, Span};
use std::marker::Model;

/// A snoop that a host holds: its opcode, its first line, its span, and which of its lines have no answer yet.
#[derive(Drop)]
pub struct HeldSnoop {
    op: SnpOp,
    first: u16,
    span: Span,
    // A mark for each line without an answer.
    left: [bool; 4],
}

impl Model for HeldSnoop {
    ghost use Rattle.coherence_model.specs.Snoops.{Snoop};
    ghost use Rattle.held_snoops.specs.Marks.{mark_count, marked, with_marked};

    ghost Value = { Snoop };

    ghost view = { λ s. record { op = s.op; first = s.first; span = s.span; unanswered = marked s.first s.left } };
}

impl HeldSnoop {
    /// A snoop none of whose lines was answered.
    #[tactic(auto, using(crate::proofs::Marks::one_marked, crate::proofs::Marks::two_marked, crate::proofs::Marks::four_marked))]
    pub fn new(op: SnpOp, first: Line, span: Span) -> HeldSnoop
        requires { first.0 < 65536 }
        ensures { result ≡ record { op = op; first = first.0; span = span; unanswered = lines_of first.0 span } }
    {
        let left = match span {
            Span::One => [true, false, false, false],
            Span::Two => [true, true, false, false],
            Span::Four => [true, true, true, true],
        };
        HeldSnoop {
            op,
            first: first.0 as u16,
            span,
            left,
        }
    }

    /// The opcode.
    pub fn op(&self) -> SnpOp
        ensures { result ≡ self.now.op }
    {
        self.op
    }

    /// The first line of its span.
    pub fn first(&self) -> Line
        ensures { result.0 ≡ self.now.first }
    {
        Line(u32::from(self.first))
    }

    /// The BITag that its answers have: the number of its first line.
    pub fn bitag(&self) -> BiTag
        ensures { result.0 ≡ self.now.first }
    {
        BiTag(self.first)
    }

    /// How many lines after the first a line without an answer is, 0 to 3.
    #[tactic(auto, using(crate::proofs::Marks::in_range))]
    pub fn low(&self, line: Line) -> u8
        requires { is_in line.0 self.now.unanswered ≡ true }
        ensures { result ≡ line.0 - self.now.first }
    {
        (line.0 - u32::from(self.first)) as u8
    }

    /// How many lines it is for.
    pub fn span(&self) -> Span
        ensures { result ≡ self.now.span }
    {
        self.span
    }

    /// Whether a line has no answer yet.
    #[tactic(auto, using(crate::proofs::Marks::marked_in, crate::proofs::Marks::in_low, crate::proofs::Marks::in_high))]
    pub fn has(&self, line: Line) -> bool
        ensures { result ≡ is_in line.0 self.now.unanswered }
    {
        let first = u32::from(self.first);
        line.0 >= first && line.0 - first < 4 && self.left[(line.0 - first) as usize]
    }

    /// How many lines have no answer yet.
    #[tactic(auto, using(crate::proofs::Marks::marked_count))]
    pub fn left(&self) -> usize
        ensures { result ≡ length self.now.unanswered }
    {
        count(self.left)
    }

    /// The lines without an answer, ascending.
    #[tactic(auto, using(crate::proofs::Marks::pushed_marks))]
    pub fn lines(&self) -> ArrayVec<u32, 4>
        ensures { result.items ≡ self.now.unanswered }
    {
        let first = u32::from(self.first);
        let [a, b, c, d] = self.left;
        let mut lines = ArrayVec::new();
        push_if(&mut lines, a, first);
        push_if(&mut lines, b, first + 1);
        push_if(&mut lines, c, first + 2);
        push_if(&mut lines, d, first + 3);
        lines
    }

    /// Whether no other line than this is without an answer.
    #[tactic(auto, using(crate::proofs::Marks::marked_count))]
    pub fn has_no_other(&self, line: Line) -> bool
        ensures { result ≡ (length (without line.0 self.now.unanswered) == 0) }
    {
        count(without_line(u32::from(self.first), self.left, line)) == 0
    }

    /// Takes a line's answer.
    pub(crate) fn answer(&mut self, line: Line)
        ensures { self.new ≡ record self.old { unanswered = without line.0 self.old.unanswered } }
    {
        self.left = without_line(u32::from(self.first), self.left, line);
    }

    /// Whether it is a BISnpInvBlk with this first line, none of whose lines was answered.
    pub fn is_whole_at(&self, first: Line) -> bool
        ensures { result ≡ is_whole_block first.0 self.now }
    {
        invalidates_block(self.op)
            && u32::from(self.first) == first.0
            && self.left() == span_len(self.span)
    }
}

/// Whether an opcode is BISnpInvBlk.
fn invalidates_block(op: SnpOp) -> bool
    ensures { result ≡ opcode_invalidates_block op }
{
    match op {
        SnpOp::InvBlk => true,
        SnpOp::Cur | SnpOp::Dat | SnpOp::Inv | SnpOp::CurBlk | SnpOp::DatBlk => false,
    }
}

/// How many lines a span has.
fn span_len(span: Span) -> usize
    ensures { result ≡ len_of_span span }
{
    match span {
        Span::One => 1,
        Span::Two => 2,
        Span::Four => 4,
    }
}

/// The marks of the lines from a first one on, without that of a line.
#[tactic(auto, using(crate::proofs::Marks::marked_set, crate::proofs::Marks::marked_low, crate::proofs::Marks::marked_high))]
fn without_line(first: u32, left: [bool; 4], line: Line) -> [bool; 4]
    ensures { marked first result ≡ without line.0 (marked first left) }
{
    let mut rest = left;
    if line.0 >= first && line.0 - first < 4 {
        rest[(line.0 - first) as usize] = false;
    }
    rest
}

/// How many of four marks are set.
fn count(left: [bool; 4]) -> usize
    ensures { result ≡ mark_count left }
{
    let [a, b, c, d] = left;
    one_if(a) + one_if(b) + one_if(c) + one_if(d)
}

/// 1 where it holds, else 0.
fn one_if(mark: bool) -> usize
    ensures { result ≡ number_of mark }
{
    if mark { 1 } else { 0 }
}

/// Puts a line at the end, where it is marked.
fn push_if(lines: &mut ArrayVec<u32, 4>, mark: bool, line: u32)
    requires { length lines.old.items < 4 }
    ensures { lines.new.items ≡ with_marked mark line lines.old.items }
{
    if mark {
        lines.push(line);
    }
}
