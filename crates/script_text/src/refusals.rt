// Why bytes are no script.
ghost use Rattle.std.specs.Prelude.{◌≡◌};
ghost use Rattle.script_text.specs.declared.refusals.ScriptRefusal.TheVariants.{Memory};

use std::alloc::{AllocError, AllocFailed};
use thiserror::Error;

/// What is wrong with a line of a script: the first of these that holds (own rule).
#[derive(Clone, Copy, PartialEq, Eq, Debug, Error)]
pub enum ScriptReason {
    /// The line isn't of a form allowed at its place, or has no line feed.
    #[error("spelling")]
    Spelling,
    /// A number is outside its limits.
    #[error("range")]
    Range,
    /// An `open` whose line isn't greater than the one before, or whose bytes are all zero.
    #[error("order")]
    Order,
    /// The 65th stream or the 65,537th operation.
    #[error("many")]
    Many,
    /// The input ends before the seven lines that a script begins with.
    #[error("missing")]
    Missing,
}

/// Why bytes aren't taken as a script (own rule).
#[derive(Clone, Copy, PartialEq, Eq, Debug, Error)]
pub enum ScriptRefusal {
    /// The first line that fails, counted from 1, and why.
    #[error("line {line}: {reason}")]
    Bad { line: u32, reason: ScriptReason },
    /// There is no memory.
    #[error("memory")]
    Memory,
}

impl From<AllocError> for ScriptRefusal {
    ghost from_gives = { λ _ refusal. refusal ≡ Memory };

    fn from(_error: AllocError) -> ScriptRefusal {
        ScriptRefusal::Memory
    }
}

impl<T: Drop> From<AllocFailed<T>> for ScriptRefusal {
    ghost from_gives = { λ _ refusal. refusal ≡ Memory };

    fn from(_error: AllocFailed<T>) -> ScriptRefusal {
        ScriptRefusal::Memory
    }
}
