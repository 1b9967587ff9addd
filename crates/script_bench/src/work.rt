// Rounds over the text of one script.
use crate::texts::make_text;
use cxl_message::Op;
use script_text::{Script, ScriptRefusal, parse_script, print_script};
use std::alloc::{AllocError, Global};

/// The most bytes of a script.
const LIMIT: usize = 67_108_864;

/// What is timed.
#[derive(Clone, Copy)]
pub enum Work {
    Copy,
    Parse,
    Print,
}

impl Work {
    /// The work of this name.
    pub fn named(name: &str) -> Option<Work> {
        match name {
            "copy" => Some(Work::Copy),
            "parse" => Some(Work::Parse),
            "print" => Some(Work::Print),
            _ => None,
        }
    }
}

/// What a run went over. The lines, the operations, the picks and the weight are those of the script that the last round
/// parsed or printed, and none where nothing was parsed or printed; the weight stands for what a reader takes from it.
/// `same` says whether the text that was copied or printed last is the text that was made.
#[derive(Clone, Copy)]
pub struct Tally {
    pub lines: usize,
    pub bytes: usize,
    pub operations: usize,
    pub picks: usize,
    pub weight: u64,
    pub same: bool,
}

impl Tally {
    /// Counts the script's lines, and weighs what they say.
    fn add_script(&mut self, script: &Script) {
        let streams = script.setup().streams().len();
        for stream in 0..streams {
            self.add_operations(script.ops(stream as u8));
        }
        for pick in script.picks() {
            self.weight = self.weight.wrapping_add(u64::from(*pick));
        }
        self.picks = script.picks().len();
        self.lines = script.opening().pairs().len().wrapping_add(7);
        self.lines = self.lines.wrapping_add(streams);
        self.lines = self.lines.wrapping_add(self.operations);
        self.lines = self.lines.wrapping_add(self.picks);
    }

    /// Counts and weighs the operations of a stream.
    fn add_operations(&mut self, ops: &[Op]) {
        for op in ops {
            self.weight = self.weight.wrapping_add(weight_of(op));
        }
        self.operations = self.operations.wrapping_add(ops.len());
    }
}

/// Does the work so many rounds over a text of about so many bytes.
pub fn run(alloc: Global, work: Work, size: usize, rounds: u32) -> Result<Tally, AllocError> {
    let text = make_text(alloc, size.min(LIMIT))?;
    let mut tally = Tally {
        lines: 0,
        bytes: text.len(),
        operations: 0,
        picks: 0,
        weight: 0,
        same: true,
    };
    match work {
        Work::Copy => copy(alloc, &text, rounds, &mut tally)?,
        Work::Parse => parse(alloc, &text, rounds, &mut tally)?,
        Work::Print => print(alloc, &text, rounds, &mut tally)?,
    }
    Ok(tally)
}

/// Copies the text into the same room, round by round.
fn copy(alloc: Global, text: &[u8], rounds: u32, tally: &mut Tally) -> Result<(), AllocError> {
    let mut room = Vec::from_slice(alloc, text)?;
    for _ in 0..rounds {
        room.clear();
        room.extend_from_slice(text)?;
    }
    tally.same = room.as_slice() == text;
    Ok(())
}

/// Parses the text, round by round.
fn parse(alloc: Global, text: &[u8], rounds: u32, tally: &mut Tally) -> Result<(), AllocError> {
    let mut last = None;
    for _ in 0..rounds {
        last = script_of(alloc, text)?;
    }
    if let Some(script) = &last {
        tally.add_script(script);
    }
    Ok(())
}

/// Parses the text once, and prints the script, round by round.
fn print(alloc: Global, text: &[u8], rounds: u32, tally: &mut Tally) -> Result<(), AllocError> {
    let Some(script) = script_of(alloc, text)? else {
        return Ok(());
    };
    let mut last = print_script(alloc, &script)?;
    for _ in 0..rounds {
        last = print_script(alloc, &script)?;
    }
    tally.add_script(&script);
    tally.same = last.as_slice() == text;
    Ok(())
}

/// The script of a text, if it is one.
fn script_of(alloc: Global, text: &[u8]) -> Result<Option<Script>, AllocError> {
    if text.len() > LIMIT {
        return Ok(None);
    }
    match parse_script(alloc, text) {
        Ok(script) => Ok(Some(script)),
        Err(ScriptRefusal::Bad { .. }) => Ok(None),
        Err(ScriptRefusal::Memory) => Err(AllocError),
    }
}

/// A number that depends on an operation.
fn weight_of(op: &Op) -> u64 {
    match op {
        Op::Load { line } => u64::from(line.0),
        Op::Word { line, value, .. } => u64::from(line.0).wrapping_add(*value),
        Op::Whole { line, bytes } => u64::from(line.0).wrapping_add(u64::from(bytes.0[63])),
    }
}
