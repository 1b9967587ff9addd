// The lines after the seventh.
ghost use Rattle.std.specs.Option.{option_map};
ghost use Rattle.std.specs.Prelude.{◌≡◌};
ghost use Rattle.script_text.specs.Lines.{line_and_bytes_in, word_in, named_stream_in, stream_in, line_of_word, line_in, first_line};

use crate::words::{bytes_of, cut_at, name_of, number_of};
use arrayvec::ArrayVec;
use cxl_message::Bytes64;

/// A line as it is spelled: each number has up to ten digits, and needn't be within its limits.
#[derive(Drop)]
pub enum ScriptLine {
    Open { line: u64, bytes: Bytes64 },
    Stream { host: u64 },
    NamedStream { host: u64, name: ArrayVec<u8, 32> },
    Load { line: u64 },
    Word { line: u64, place: u64, value: u64 },
    Whole { line: u64, bytes: Bytes64 },
    Pick { pick: u64 },
}

/// The first line of a text, if it is of one of the forms, and the text after it.
#[tactic(auto, unfolding(crate::specs::Lines::first_line))]
pub fn next_line(text: &[u8]) -> Option<(ScriptLine, &[u8])>
    ensures { option_map (λ found. (found.0, found.1.now)) result ≡ first_line text.now }
{
    let (line, rest) = cut_at(text, b'\n')?;
    Some((parse_line(line)?, rest))
}

/// The line that a text without a line feed is, if it is of one of the forms.
#[tactic(auto, unfolding(crate::specs::Lines::line_in))]
fn parse_line(text: &[u8]) -> Option<ScriptLine>
    ensures { result ≡ line_in text.now }
{
    let (word, rest) = cut_at(text, b' ')?;
    parse_after(word, rest)
}

/// The line of this first word and the rest of its text.
#[tactic(auto, unfolding(crate::specs::Lines::line_of_word))]
fn parse_after(word: &[u8], text: &[u8]) -> Option<ScriptLine>
    ensures { result ≡ line_of_word word.now text.now }
{
    if word == b"open".as_slice() {
        let (line, bytes) = line_and_bytes(text)?;
        return Some(ScriptLine::Open { line, bytes });
    }
    if word == b"stream".as_slice() {
        return parse_stream(text);
    }
    if word == b"load".as_slice() {
        let line = number_of(text)?;
        return Some(ScriptLine::Load { line });
    }
    if word == b"word".as_slice() {
        return parse_word(text);
    }
    if word == b"whole".as_slice() {
        let (line, bytes) = line_and_bytes(text)?;
        return Some(ScriptLine::Whole { line, bytes });
    }
    if word == b"pick".as_slice() {
        let pick = number_of(text)?;
        return Some(ScriptLine::Pick { pick });
    }
    None
}

/// A line's number and its 64 bytes.
#[tactic(auto, unfolding(crate::specs::Lines::line_and_bytes_in))]
fn line_and_bytes(text: &[u8]) -> Option<(u64, Bytes64)>
    ensures { result ≡ line_and_bytes_in text.now }
{
    let (line, word) = cut_at(text, b' ')?;
    Some((number_of(line)?, Bytes64(bytes_of(word)?)))
}

/// What follows `stream`: a host, and a name if there is a second word.
#[tactic(auto, unfolding(crate::specs::Lines::stream_in))]
fn parse_stream(text: &[u8]) -> Option<ScriptLine>
    ensures { result ≡ stream_in text.now }
{
    match cut_at(text, b' ') {
        Some((host, name)) => named_stream(host, name),
        None => Some(ScriptLine::Stream {
            host: number_of(text)?,
        }),
    }
}

/// The stream of a host and a name.
fn named_stream(host: &[u8], name: &[u8]) -> Option<ScriptLine>
    ensures { result ≡ named_stream_in host.now name.now }
{
    let host = number_of(host)?;
    let name = name_of(name)?;
    Some(ScriptLine::NamedStream { host, name })
}

/// What follows `word`: a line's number, a place and a value.
#[tactic(auto, unfolding(crate::specs::Lines::word_in))]
fn parse_word(text: &[u8]) -> Option<ScriptLine>
    ensures { result ≡ word_in text.now }
{
    let (line, rest) = cut_at(text, b' ')?;
    let (place, word) = cut_at(rest, b' ')?;
    let line = number_of(line)?;
    let place = number_of(place)?;
    let bytes = bytes_of::<8>(word)?;
    Some(ScriptLine::Word {
        line,
        place,
        value: u64::from_be_bytes(bytes),
    })
}
