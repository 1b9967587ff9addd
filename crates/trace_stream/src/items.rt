// What a trace is read as: its items, and why it isn't one.
use arrayvec::ArrayVec;
use cxl_codec::{FieldName, Version};
use cxl_message::{Bytes64, Event, Line, Setup};
use std::fmt;
use thiserror::Error;

/// What comes next in a trace (own rule).
#[derive(PartialEq, Eq, Debug, Drop)]
pub enum Item {
    /// The header: the version of the trace, and its setup.
    Header(Version, Setup),
    /// A name record, in version 2 alone.
    Name {
        /// The stream.
        stream: u8,
        /// Its name: 1 to 32 lower-case letters, digits or `_`.
        name: ArrayVec<u8, 32>,
    },
    /// An opening record: what a line holds at first.
    Opened {
        /// The line.
        line: Line,
        /// Its bytes, which aren't all zero.
        bytes: Bytes64,
    },
    /// An event.
    Event(Event),
    /// The end record, with the number of events.
    End {
        /// How many events the trace has.
        count: u64,
    },
    /// Nothing yet: more bytes are wanted, or the trace has ended.
    More,
}

/// An item of which all but a count of events stands in a `Room` (own rule).
#[derive(Clone, Copy, PartialEq, Eq, Debug)]
pub enum Found {
    /// The header, whose version and setup were written to the room.
    Header,
    /// A name record, whose stream and name were written to the room.
    Name,
    /// An opening record, whose line and bytes were written to the room.
    Opened,
    /// An event, which was written to the room.
    Event,
    /// The end record, with the number of events.
    End {
        /// How many events the trace has.
        count: u64,
    },
    /// Nothing yet: more bytes are wanted, or the trace has ended.
    More,
}

/// Why bytes aren't a trace (own rule).
#[derive(Clone, Copy, PartialEq, Eq, Debug)]
pub enum Reason {
    /// The trace ends before its end record is whole.
    Short,
    /// No record has this kind byte here.
    Kind,
    /// No record has this byte of the field here.
    Field(FieldName),
    /// A stream that doesn't exist or isn't greater than the one before is named.
    Name,
    /// A line that doesn't exist, isn't greater than the one before or is all zeros is opened.
    Opening,
    /// The end record has another number of events.
    Count,
    /// A byte stands after the end record.
    Trailing,
}

/// The first place where bytes aren't a trace, counted from 0, and why (own rule).
#[derive(Clone, Copy, PartialEq, Eq, Debug, Error)]
#[error("byte {at}: {reason}")]
pub struct TraceFault {
    /// The number of bytes before that place.
    pub at: u64,
    /// Why no trace has the byte that stands there, or ends there.
    pub reason: Reason,
}

impl fmt::Display for Reason {
    fn fmt<W: fmt::Write>(&self, f: &mut fmt::Formatter<W>) -> fmt::Result {
        match self {
            Reason::Short => f.write_str("short"),
            Reason::Kind => f.write_str("kind"),
            Reason::Field(which) => {
                f.write_str("field ")?;
                f.write_str(which.name())
            }
            Reason::Name => f.write_str("name"),
            Reason::Opening => f.write_str("opening"),
            Reason::Count => f.write_str("count"),
            Reason::Trailing => f.write_str("trailing"),
        }
    }
}
