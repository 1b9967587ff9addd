// Why a host refuses.
use cxl_message::{Channel, RuleNo};
use thiserror::Error;

/// Why a host refuses a cause. The variants stand in the order in which an operation's refusals are tried; a take or an act is
/// refused by P0, by its row or by NoCredit, in that order (own rule).
#[derive(Clone, Copy, PartialEq, Eq, Debug, Error)]
pub enum HostRefusal {
    /// The line isn't below the setup's lines.
    #[error("no such line")]
    NoSuchLine,
    /// The line is Open or Snooped.
    #[error("again")]
    Again,
    /// The operation doesn't hit and no tag is free, or an eviction is needed too and only one is free.
    #[error("no tag")]
    NoTag,
    /// A victim is needed and no way is idle.
    #[error("no way")]
    NoWay,
    /// The credits don't reach; the first such channel in the order of the messages sent.
    #[error("no credit")]
    NoCredit(Channel),
    /// The rule that fails: P0, S0 or the row.
    #[error("broken")]
    Broken(RuleNo),
}
