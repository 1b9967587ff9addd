// Messages, acts and operations as the words of lines.
use crate::names::{channel_name, meta_name, ndr_name, req_name, rsp_name, snoop_name, snp_name};
use cxl_message::{Act, BiTag, Bytes64, Line, Message, Op, Span, Tag};
use std::alloc::AllocError;

/// A word of a line: a name, or a label with what stands behind it.
#[derive(Clone, Copy)]
pub enum Word {
    Nothing,
    Name(&'static str),
    Number(&'static str, u32),
    Hex(&'static str, u64),
    Place(u8, u32),
    Bytes(&'static str, Bytes64),
}

/// Adds words to a line, each behind a space.
pub fn add(line: &mut String, words: &[Word]) -> Result<(), AllocError> {
    for word in words {
        add_word(line, word)?;
    }
    Ok(())
}

fn add_word(line: &mut String, word: &Word) -> Result<(), AllocError> {
    match word {
        Word::Nothing => Ok(()),
        Word::Name(name) => write!(line, " {name}"),
        Word::Number(label, number) => write!(line, " {label}{number}"),
        Word::Hex(label, number) => write!(line, " {label}{number:x}"),
        Word::Place(stream, index) => write!(line, " s{stream}.{index}"),
        Word::Bytes(label, bytes) => add_bytes(line, label, bytes),
    }
}

/// Adds 64 bytes, as `Row` says.
fn add_bytes(line: &mut String, label: &str, bytes: &Bytes64) -> Result<(), AllocError> {
    let first = bytes.0[0];
    if first != 0 && bytes.0 == [first; 64] {
        return write!(line, " {label}{first:x}*");
    }
    let rest = if bytes.0[16..] == [0; 48] { "" } else { ".." };
    match words_of(bytes) {
        (one, 0) => write!(line, " {label}{one:x}{rest}"),
        (one, two) => write!(line, " {label}{one:x}.{two:x}{rest}"),
    }
}

/// The first two words of 64 bytes.
fn words_of(bytes: &Bytes64) -> (u64, u64) {
    let b = &bytes.0;
    (
        u64::from_be_bytes([b[0], b[1], b[2], b[3], b[4], b[5], b[6], b[7]]),
        u64::from_be_bytes([b[8], b[9], b[10], b[11], b[12], b[13], b[14], b[15]]),
    )
}

/// The word of a host.
pub fn host_word(host: u8) -> Word {
    Word::Number("h", u32::from(host))
}

/// The word of a Tag.
fn tag_word(tag: Tag) -> Word {
    Word::Number("tag=", tag.0)
}

/// The word of a line's number.
fn line_word(line: Line) -> Word {
    Word::Number("line=", line.0)
}

/// The word of a BITag.
fn bitag_word(bitag: BiTag) -> Word {
    Word::Number("bitag=", u32::from(bitag.0))
}

fn span_word(span: Span) -> Word {
    match span {
        Span::One => Word::Nothing,
        Span::Two => Word::Number("span=", 2),
        Span::Four => Word::Number("span=", 4),
    }
}

/// A message, with its fields.
pub fn message_words(message: &Message) -> [Word; 6] {
    let [first, second, third] = message_names(message);
    let [tag, line, more] = message_fields(message);
    [first, second, third, tag, line, more]
}

/// The names of a message that has one.
fn alone(name: &'static str) -> [Word; 3] {
    [Word::Name(name), Word::Nothing, Word::Nothing]
}

/// The names in a message.
fn message_names(message: &Message) -> [Word; 3] {
    match *message {
        Message::Req { op, meta, snp, .. } => [
            Word::Name(req_name(op)),
            Word::Name(meta_name(meta)),
            Word::Name(snp_name(snp)),
        ],
        Message::MemWr { meta, snp, .. } => [
            Word::Name("MemWr"),
            Word::Name(meta_name(meta)),
            Word::Name(snp_name(snp)),
        ],
        Message::BiConflict { .. } => alone("BIConflict"),
        Message::BiRsp { op, .. } => alone(rsp_name(op)),
        Message::Ndr { op, .. } => alone(ndr_name(op)),
        Message::MemData { .. } => alone("MemData"),
        Message::BiSnp { op, .. } => alone(snoop_name(op)),
        Message::Credit { channel } => [
            Word::Name("Credit"),
            Word::Name(channel_name(channel)),
            Word::Nothing,
        ],
    }
}

/// The numbers and bytes in a message.
fn message_fields(message: &Message) -> [Word; 3] {
    match *message {
        Message::Req { tag, line, .. } => [tag_word(tag), line_word(line), Word::Nothing],
        Message::MemWr {
            tag,
            line,
            bytes,
            ..
        } => [tag_word(tag), line_word(line), Word::Bytes("bytes=", bytes)],
        Message::BiConflict { tag } | Message::Ndr { tag, .. } => {
            [tag_word(tag), Word::Nothing, Word::Nothing]
        }
        Message::BiRsp { bitag, low, .. } => {
            let low = Word::Number("low=", u32::from(low));
            [bitag_word(bitag), low, Word::Nothing]
        }
        Message::MemData { tag, bytes } => {
            [tag_word(tag), Word::Bytes("bytes=", bytes), Word::Nothing]
        }
        Message::BiSnp {
            bitag,
            line,
            span,
            ..
        } => [bitag_word(bitag), line_word(line), span_word(span)],
        Message::Credit { .. } => [Word::Nothing; 3],
    }
}

/// An act, with what it names.
pub fn act_words(act: &Act) -> [Word; 3] {
    match *act {
        Act::Conflict(line) => of_line("Conflict", line),
        Act::WriteBack(line) => of_line("WriteBack", line),
        Act::Answer(line) => of_line("Answer", line),
        Act::AnswerBlock(line) => of_line("AnswerBlock", line),
        Act::Finish(line) => of_line("Finish", line),
        Act::Serve { host, tag } => of_host("Serve", host, tag_word(tag)),
        Act::Clean { host, tag } => of_host("Clean", host, tag_word(tag)),
        Act::Start { host, tag } => of_host("Start", host, tag_word(tag)),
        Act::Evict { host, tag } => of_host("Evict", host, tag_word(tag)),
        Act::Snoop { host, line } => of_host("Snoop", host, line_word(line)),
        Act::HostReturn(channel) => {
            let channel = Word::Name(channel_name(channel));
            [Word::Name("Return"), channel, Word::Nothing]
        }
        Act::DeviceReturn { host, channel } => {
            of_host("Return", host, Word::Name(channel_name(channel)))
        }
    }
}

/// The words of an act on a line.
fn of_line(name: &'static str, line: Line) -> [Word; 3] {
    [Word::Name(name), line_word(line), Word::Nothing]
}

/// The words of an act for a host.
fn of_host(name: &'static str, host: u8, what: Word) -> [Word; 3] {
    [Word::Name(name), host_word(host), what]
}

/// An operation, with its place in its stream.
pub fn operation_words(stream: u8, index: u32, op: &Op) -> [Word; 5] {
    let place = Word::Place(stream, index);
    match *op {
        Op::Load { line } => [
            Word::Name("load"),
            place,
            line_word(line),
            Word::Nothing,
            Word::Nothing,
        ],
        Op::Word {
            line,
            place: at,
            value,
        } => [
            Word::Name("word"),
            place,
            line_word(line),
            Word::Number("place=", u32::from(at)),
            Word::Hex("value=", value),
        ],
        Op::Whole { line, bytes } => [
            Word::Name("whole"),
            place,
            line_word(line),
            Word::Bytes("bytes=", bytes),
            Word::Nothing,
        ],
    }
}
