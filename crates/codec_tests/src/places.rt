// What each place of a record allows, and how it refuses the rest: one table.
use cxl_codec::{DecodeRefusal, FieldName};

// What stands at some bytes of a sample.
#[derive(Clone, Copy)]
pub enum Place {
    CauseKind,
    OpKind,
    ActKind,
    MessageKind,
    Field(FieldName),
    // The first byte of a record that isn't an event.
    Mark,
    SingleSpan,
    BlockSpan,
    // The version, where both are read.
    EitherVersion,
    // The two bytes of the tags of version 2: the first, and the second behind a 0 and behind a 4.
    HighTags,
    FewTags,
    MostTags,
    Free,
}

// The table: whether a byte is allowed at a place. The bytes of the magic, of the version and of a mark are allowed only
// as they stand in the sample.
pub fn is_allowed(place: Place, byte: u8) -> bool {
    match place {
        Place::CauseKind | Place::OpKind => matches!(byte, 1..=3),
        Place::ActKind => matches!(byte, 1..=5 | 0x11..=0x17),
        Place::MessageKind => is_message_kind(byte),
        Place::Field(which) => is_value(which, byte),
        Place::Mark => false,
        Place::SingleSpan => byte == 1,
        Place::BlockSpan => matches!(byte, 2 | 4),
        Place::EitherVersion => matches!(byte, 1 | 2),
        Place::HighTags => byte <= 4,
        Place::FewTags => byte >= 2,
        Place::MostTags => byte == 0,
        Place::Free => true,
    }
}

// The kind bytes of messages.
fn is_message_kind(byte: u8) -> bool {
    matches!(
        byte,
        1..=3 | 0x11..=0x12 | 0x21..=0x26 | 0x31..=0x34 | 0x41 | 0x51..=0x56 | 0x61
    )
}

// The bytes of a field, in a header of two hosts.
fn is_value(which: FieldName, byte: u8) -> bool {
    match which {
        FieldName::Magic | FieldName::Version => false,
        FieldName::Hosts => matches!(byte, 1..=16),
        FieldName::Entries | FieldName::Host => byte <= 15,
        FieldName::Tags | FieldName::Credits => matches!(byte, 2..=64),
        FieldName::StreamCount => byte <= 64,
        FieldName::StreamHost | FieldName::CommitFlag => byte <= 1,
        FieldName::Agent => byte <= 16,
        FieldName::Stream => byte <= 63,
        FieldName::Place => byte <= 7,
        FieldName::SendCount | FieldName::Meta => byte <= 2,
        FieldName::SnpType | FieldName::LowAddr => byte <= 3,
        FieldName::Payload => byte == 0,
        FieldName::Span => matches!(byte, 1 | 2 | 4),
        FieldName::Channel => matches!(byte, 1..=6),
        FieldName::NameLength => matches!(byte, 1..=32),
        FieldName::NameByte => matches!(byte, b'0'..=b'9' | b'a'..=b'z' | b'_'),
    }
}

// What is answered where a byte of the sample is wrong, or free.
pub fn expected(place: Place, at: usize, whole: usize) -> Result<usize, DecodeRefusal> {
    let which = match place {
        Place::Free => return Ok(whole),
        Place::CauseKind | Place::OpKind | Place::ActKind | Place::MessageKind => {
            return Err(DecodeRefusal::Kind { at });
        }
        Place::Mark => FieldName::Agent,
        Place::SingleSpan | Place::BlockSpan => FieldName::Span,
        Place::EitherVersion => FieldName::Version,
        Place::HighTags | Place::FewTags | Place::MostTags => FieldName::Tags,
        Place::Field(which) => which,
    };
    Err(DecodeRefusal::Field { at, which })
}
