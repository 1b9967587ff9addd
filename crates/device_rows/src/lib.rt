//! What the device answers to a cause, by what it keeps: rule P0, the row, and the credits for what the row sends; and the
//! event of it, made in a room.
#![tactic(auto)]

mod answers;
mod deciding;
mod emitting;
mod rows;
mod rules;
mod task_rows;

pub use answers::DeviceRefusal;
pub use deciding::{decide, lacking, serve_row};
pub use emitting::answer_into;
pub use rows::{
    clean_row, evict_row, owed_answers, owed_requests, owed_writes, return_row, start_row,
};
pub use task_rows::{finish_row, snoop_row};
