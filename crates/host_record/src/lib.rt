//! What a host agent keeps, as a record of tables and short lists, and what it answers and does by that record alone. A body
//! that answers and changes so stands for every list of its own events that its rules allow: `host_laws` shows it.
//!
//! The files of `specs/` in the order in which they are read:
//!
//! - what the rows read of a host's own events, as look-backs by line and by tag: `View`; the rows H1 to H10, the answers and
//!   the acts over it: `ViewRows`, `ViewAnswers`;
//! - what is kept: `Tables`, `Ways`, `HostRecord`, with the view that it gives;
//! - what an event does to it: `HostChanges`;
//! - the record of a list of own events, and answers and acts by the record: `Stands`; the laws: `Laws`.
#![tactic(auto)]

ghost use Rattle.host_record.specs.Laws.{RecordsBegin};

/// Before the first event an agent keeps empty tables, no way, no snoop and all credits: the record of no events (own rule).
pub fn records_begin()
    ensures { RecordsBegin }
{}
