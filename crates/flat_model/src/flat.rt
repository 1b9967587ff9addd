// The flat memory.
ghost use Rattle.std.specs.Prelude.{[], IfOk, IsTrue, length, slice_set, ℕ, ◌<◌, ◌≡◌, ◌∷◌};
ghost use Rattle.cxl_message.specs.Events.{line_of};
ghost use Rattle.cxl_message.specs.Formed.{place_exists};
ghost use Rattle.cxl_message.specs.Stores.{line_after};
ghost use Rattle.coherence_model.specs.FlatMemory.{flat_line};
ghost use Rattle.flat_model.specs.Histories.{WhereStands, flat_lines};

use cxl_message::{Bytes64, Line, Op, Opening, Setup};
use std::alloc::{AllocError, Global};
use std::marker::Model;

/// A memory of lines of 64 bytes without any cache (own rule). A contract sees it as the list of its lines. Only `open`
/// takes memory.
#[derive(Drop)]
pub struct Flat {
    lines: Vec<Bytes64>,
}

impl Model for Flat {
    ghost use Rattle.std.specs.Prelude.{List};
    ghost use Rattle.cxl_message.specs.declared.identifiers.Bytes64.{Bytes64};

    ghost Value = { List Bytes64 };

    ghost view = { λ f. f.lines.items };
}

impl Flat {
    /// The setup's lines, each as the opening has it. What the opening says of further lines counts for nothing. The
    /// error is want of memory.
    pub fn open(alloc: Global, setup: &Setup, opening: &Opening) -> Result<Flat, AllocError>
        ensures { IfOk result (λ flat. flat ≡ flat_lines setup.now.lines opening.now []) }
    {
        let lines = opened_lines(alloc, setup.lines(), opening)?;
        Ok(Flat { lines })
    }

    /// Performs an operation, whose line and place exist, and answers its line after it.
    pub fn apply(&mut self, op: &Op) -> Bytes64
        requires line { line_of op.now < length self.old }
        requires place { IsTrue (place_exists op.now) }
        ensures value { WhereStands self.old (λ opening older. result ≡ line_after op.now (flat_line opening (line_of op.now) older)) }
        ensures changed { self.new ≡ slice_set self.old (line_of op.now) result }
        ensures stands { WhereStands self.old (λ opening older. (stream index : ℕ) → self.new ≡ flat_lines (length self.old) opening (record { stream = stream; index = index; op = op.now; value = result } ∷ older)) }
    {
        let line = op.line().0 as usize;
        let value = op.line_after(&self.lines[line]);
        self.lines[line] = value;
        value
    }

    /// The bytes of a line, which exists.
    pub fn line(&self, line: Line) -> Bytes64
        requires { line.0 < length self.now }
        ensures { WhereStands self.now (λ opening older. result ≡ flat_line opening line.0 older) }
    {
        self.lines[line.0 as usize]
    }

    /// How many lines there are.
    pub fn len(&self) -> usize
        ensures { result ≡ length self.now }
    {
        self.lines.len()
    }
}

/// So many lines, each as the opening has it.
fn opened_lines(alloc: Global, count: u32, opening: &Opening) -> Result<Vec<Bytes64>, AllocError>
    ensures { IfOk result (λ lines. lines.items ≡ flat_lines count opening.now []) }
{
    let mut lines = Vec::with_capacity(alloc, count as usize)?;
    for line in 0..count {
        lines.push(opening.bytes_at(Line(line)))?;
    }
    Ok(lines)
}
