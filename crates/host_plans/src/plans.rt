// Plans of operations.
use cxl_message::{Line, Tag};
use thiserror::Error;

/// How an operation goes: a decision, made once, that names what its event needs (own rule).
#[derive(Clone, Copy, PartialEq, Eq, Debug)]
pub enum Plan {
    /// It hits, and commits at once.
    Hit,
    /// It sends its request with this Tag; its line has a way, or one is free.
    Request { tag: Tag },
    /// It sends its request with this Tag; its line takes the way of a victim, whose shared copy is dropped without a message.
    Drop { victim: Line, tag: Tag },
    /// It sends the eviction of a victim, whose line's way it takes, with the lower Tag, and then its request with the other.
    Replace { victim: Line, lower: Tag, tag: Tag },
}

/// Why an operation has no plan, in the order in which the causes are tried (own rule).
#[derive(Clone, Copy, PartialEq, Eq, Debug, Error)]
pub enum Unplanned {
    /// The line isn't below the setup's lines.
    #[error("no such line")]
    NoSuchLine,
    /// The line is Open or Snooped.
    #[error("again")]
    Again,
    /// It doesn't hit and no Tag is free, or an eviction is needed too and only one is free.
    #[error("no tag")]
    NoTag,
    /// A victim is needed and no way is idle.
    #[error("no way")]
    NoWay,
}
