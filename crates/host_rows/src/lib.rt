//! The rows H1 to H10 of a host over what it keeps: what an operation, a take or an act sends and commits, or why it is refused, and the
//! event of it (CXL 3.1, chapter 3: the flows of HDM-DB; own rule: the rows and the order of refusals).
//!
//! A contract says the answer and the change by the record of `host_record`. No call takes memory.
#![tactic(auto)]

mod acting;
mod answers;
mod crediting;
mod emitting;
mod judging;
mod operating;
mod rules;
mod stepping;
mod taking;

pub use acting::act_row;
pub use answers::HostRefusal;
pub use crediting::lacking;
pub use stepping::{answer_into, change};
pub use taking::{TakeRow, take_row};
