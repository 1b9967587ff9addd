// How many operations of each kind begin on each line.
ghost use Rattle.std.specs.Prelude.{◌≡◌, ◌-◌, ◌^◌, ◌<◌, ◌∷◌, [], IsTrue, OnErr, OnOk, fold};
ghost use Rattle.cxl_message.specs.Events.{line_of};
ghost use Rattle.event_room.specs.Parts.{cause_of, op_of};
ghost use Rattle.cxl_view.specs.Tallies.{begun_by};
ghost use Rattle.cxl_view.specs.Counting.{all_within, and_op, counted_on, names_first_on, none_counted, tally_within, with_op};

use event_room::{CauseRef, OpHead, OpRef};
use indexmap::IndexMap;
use std::alloc::AllocError;

/// How many operations of each kind begin on a line (own rule).
#[derive(Clone, Copy, PartialEq, Eq, Debug)]
pub struct LineTally {
    /// Loads.
    pub loads: u64,
    /// Stores of one word.
    pub words: u64,
    /// Stores of the whole line.
    pub wholes: u64,
}

/// Nothing of a line is counted.
const NONE_COUNTED: LineTally = LineTally {
    loads: 0,
    words: 0,
    wholes: 0,
};

/// Counts the operation that a cause begins, if it begins one on a line below `lines`. No count is at its end.
pub fn count_cause(
    on_lines: &mut IndexMap<u32, LineTally>,
    lines: u32,
    cause: CauseRef<'_>,
) -> Result<(), AllocError>
    requires { IsTrue (all_within (2 ^ 64 - 2) on_lines.old.entries) }
    ensures ok { OnOk result (on_lines.new.entries ≡ fold and_op on_lines.old.entries (begun_by lines (cause_of cause.entry))) }
    ensures memory { OnErr result (IsTrue (names_first_on on_lines.old.entries (begun_by lines (cause_of cause.entry)))) }
    ensures err { OnErr result (on_lines.new.entries ≡ on_lines.old.entries) }
{
    match cause {
        CauseRef::Op { op, .. } => {
            if line_of_op(op) >= lines {
                return Ok(());
            }
            count_op(on_lines, op)
        }
        CauseRef::Take { .. } | CauseRef::Act(_) => Ok(()),
    }
}

/// Counts an operation. No count is at its end.
#[tactic(auto, using(crate::proofs::Within::counted_within))]
fn count_op(on_lines: &mut IndexMap<u32, LineTally>, op: OpRef<'_>) -> Result<(), AllocError>
    requires { IsTrue (all_within (2 ^ 64 - 2) on_lines.old.entries) }
    ensures ok { OnOk result (on_lines.new.entries ≡ and_op on_lines.old.entries (op_of op.entry)) }
    ensures memory { OnErr result (IsTrue (names_first_on on_lines.old.entries (op_of op.entry ∷ []))) }
    ensures err { OnErr result (on_lines.new.entries ≡ on_lines.old.entries) }
{
    let line = line_of_op(op);
    let tally = counted_with(tally_on(on_lines, line), op);
    on_lines.insert(line, tally)?;
    Ok(())
}

/// What is counted of a line.
fn tally_on(on_lines: &IndexMap<u32, LineTally>, line: u32) -> LineTally
    ensures { result ≡ counted_on line on_lines.now.entries }
{
    match on_lines.get(&line) {
        Some(tally) => *tally,
        None => NONE_COUNTED,
    }
}

/// A line's tally with an operation more. No count is at its end.
fn counted_with(tally: LineTally, op: OpRef<'_>) -> LineTally
    requires { IsTrue (tally_within (2 ^ 64 - 2) tally) }
    ensures { result ≡ with_op (op_of op.entry) tally }
{
    match op.head {
        OpHead::Load { .. } => LineTally {
            loads: tally.loads + 1,
            ..tally
        },
        OpHead::Word { .. } => LineTally {
            words: tally.words + 1,
            ..tally
        },
        OpHead::Whole { .. } => LineTally {
            wholes: tally.wholes + 1,
            ..tally
        },
    }
}

/// The number of an operation's line.
fn line_of_op(op: OpRef<'_>) -> u32
    ensures { result ≡ line_of (op_of op.entry) }
{
    match op.head {
        OpHead::Load { line } | OpHead::Word { line, .. } | OpHead::Whole { line } => line.0,
    }
}
