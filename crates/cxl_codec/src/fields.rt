// The names of the fields that a byte of a record may break.
ghost use Rattle.std.specs.Prelude.{◌≡◌, Some};

use std::fmt;

/// A field of a record of which not every value is allowed (own rule).
#[derive(Clone, Copy, PartialEq, Eq, Debug)]
pub enum FieldName {
    /// The four bytes that begin a trace.
    Magic,
    /// The version, 1 or 2.
    Version,
    /// The number of hosts, 1 to 16.
    Hosts,
    /// The high byte of the filter entries less 1, 0 to 15.
    Entries,
    /// The number of tags, 2 to 64, or in version 2 to 1,024.
    Tags,
    /// The number of credits, 2 to 64.
    Credits,
    /// The number of streams, 0 to 64.
    StreamCount,
    /// A stream's host, below the number of hosts.
    StreamHost,
    /// The agent of an event, 0 to 16, or the first byte of another record.
    Agent,
    /// A host, 0 to 15.
    Host,
    /// A stream, 0 to 63.
    Stream,
    /// The place of a word in its line, 0 to 7.
    Place,
    /// How many messages an event sends, 0 to 2.
    SendCount,
    /// Whether an event has a commit, 0 or 1.
    CommitFlag,
    /// A Meta0-State value, 0 to 2.
    Meta,
    /// A snoop type, 0 to 3.
    SnpType,
    /// The payload of a BIConflict, 64 zeros.
    Payload,
    /// The line that a snoop's answer is for, counted from the snoop's first, 0 to 3.
    LowAddr,
    /// The lines of a snoop: 1, or for a block 2 or 4.
    Span,
    /// A channel with credits, 1 to 6.
    Channel,
    /// The length of a stream's name, 1 to 32.
    NameLength,
    /// A byte of a stream's name: a lower-case letter, a digit or `_`.
    NameByte,
}

impl FieldName {
    ghost use Rattle.cxl_codec.specs.Names.{name_of};

    /// The name of the field, as it is written above.
    pub fn name(self) -> &'static str
        ensures { result.now ≡ name_of self }
    {
        match self {
            FieldName::Magic => "Magic",
            FieldName::Version => "Version",
            FieldName::Hosts => "Hosts",
            FieldName::Entries => "Entries",
            FieldName::Tags => "Tags",
            FieldName::Credits => "Credits",
            FieldName::StreamCount => "StreamCount",
            FieldName::StreamHost => "StreamHost",
            FieldName::Agent => "Agent",
            FieldName::Host => "Host",
            FieldName::Stream => "Stream",
            FieldName::Place => "Place",
            FieldName::SendCount => "SendCount",
            FieldName::CommitFlag => "CommitFlag",
            FieldName::Meta => "Meta",
            FieldName::SnpType => "SnpType",
            FieldName::Payload => "Payload",
            FieldName::LowAddr => "LowAddr",
            FieldName::Span => "Span",
            FieldName::Channel => "Channel",
            FieldName::NameLength => "NameLength",
            FieldName::NameByte => "NameByte",
        }
    }
}

impl fmt::Display for FieldName {
    ghost use Rattle.cxl_codec.specs.Names.{name_of};

    ghost output = { λ f. Some (name_of f) };

    fn fmt<W: fmt::Write>(&self, f: &mut fmt::Formatter<W>) -> fmt::Result {
        f.write_str(self.name())
    }
}
