//! Scripts as text: a machine, the names of its streams, what its memory holds at first, and what its streams do. A text that `parse_script` takes
//! spells that script and no other; one that it refuses spells none, and fails first at the line and for the reason that it
//! answers. `generate` makes a large script of a seed.
//!
//! The grammar is this project's own and no statement about the CXL standard.
#![tactic(auto)]

mod drafts;
mod draws;
mod generating;
mod head;
mod laws;
mod limits;
mod lines;
mod parsing;
mod printing;
mod refusals;
mod scripts;
mod words;

pub use generating::generate;
pub use laws::{failures_are_alone, texts_spell_one_script};
pub use limits::{MAX_OPERATIONS, MAX_PICK, MAX_ROOM};
pub use parsing::parse_script;
pub use printing::print_script;
pub use refusals::{ScriptReason, ScriptRefusal};
pub use scripts::Script;
