// Histories of loads and stores, judged by the flat memory.
ghost use Rattle.std.specs.Prelude.{[], IfOk, IsTrue, length, ◌≡◌, ◌∷◌};
ghost use Rattle.coherence_model.specs.FlatMemory.{commit_is_legal};
ghost use Rattle.flat_model.specs.Histories.{NoneIsLegal, WhereStands, first_illegal_from, flat_lines};

use crate::flat::Flat;
use cxl_message::{Commit, Opening, Setup};
use std::alloc::{AllocError, Global};

/// The place, counted from 0, of the first commit that isn't legal after those before it: its line doesn't exist, its
/// Word has a place of 8 or more, or its value isn't what the flat memory gives there. None exactly where each commit is
/// legal. The error is want of memory (own rule).
pub fn first_illegal(
    alloc: Global,
    setup: &Setup,
    opening: &Opening,
    commits: &[Commit],
) -> Result<Option<usize>, AllocError>
    ensures { IfOk result (λ place. place ≡ first_illegal_from setup.now.lines opening.now [] 0 commits.now) }
{
    let mut flat = Flat::open(alloc, setup, opening)?;
    for (place, commit) in commits.iter().enumerate() {
        if !is_next(&mut flat, commit) {
            return Ok(Some(place));
        }
    }
    Ok(None)
}

/// `first_illegal` names no place exactly where the model calls the history legal (own rule).
pub fn none_is_legal()
    ensures { NoneIsLegal }
{}

/// Performs a commit's operation, and answers whether the commit is legal. Where its line or its place doesn't exist,
/// nothing is performed.
fn is_next(flat: &mut Flat, commit: &Commit) -> bool
    ensures legal { WhereStands flat.old (λ opening older. result ≡ commit_is_legal (length flat.old) opening commit.now older) }
    ensures stands { WhereStands flat.old (λ opening older. IsTrue result → flat.new ≡ flat_lines (length flat.old) opening (commit.now ∷ older)) }
{
    (commit.op.line().0 as usize) < flat.len()
        && commit.op.place_exists()
        && flat.apply(&commit.op) == commit.value
}
