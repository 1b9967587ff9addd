// The seven lines that a script begins with.
ghost use Rattle.std.specs.Option.{option_map};
ghost use Rattle.std.specs.Prelude.{◌≡◌, ◌≤◌, ◌<◌, ◌^◌, IfOk, IfSome};
ghost use Rattle.script_text.specs.Head.{number_behind, setting_in, number_at, head_at};
ghost use Rattle.script_text.specs.Refusals.{Gives};
ghost use Rattle.script_text.specs.declared.limits.TheConstants.{MAX_ROOM};

use crate::limits::MAX_ROOM;
use crate::refusals::{ScriptReason, ScriptRefusal};
use crate::words::{cut_at, number_of};
use cxl_message::{
    MAX_CREDITS, MAX_ENTRIES, MAX_HOSTS, MAX_LINES, MAX_TAGS, MAX_WAYS, MIN_CREDITS, MIN_TAGS,
    Setup,
};

/// The setup without streams and the room of the seven lines, and the text after them.
#[tactic(auto, unfolding(crate::specs::Head::head_at))]
pub fn head_of(text: &[u8]) -> Result<(Setup, u32, &[u8]), ScriptRefusal>
    ensures head { Gives (λ head. (head.0, head.1, head.2.now)) result (head_at text.now) }
    ensures room { IfOk result (λ head. (1 ≤ head.1) × (head.1 ≤ MAX_ROOM)) }
{
    let (hosts, text) = number_line(text, 1, b"hosts", 1, u64::from(MAX_HOSTS))?;
    let (lines, text) = number_line(text, 2, b"lines", 1, u64::from(MAX_LINES))?;
    let (entries, text) = number_line(text, 3, b"filter", 1, u64::from(MAX_ENTRIES))?;
    let (ways, text) = number_line(text, 4, b"ways", 1, u64::from(MAX_WAYS))?;
    let (tags, text) = number_line(text, 5, b"tags", u64::from(MIN_TAGS), u64::from(MAX_TAGS))?;
    let (credits, text) = number_line(
        text,
        6,
        b"credits",
        u64::from(MIN_CREDITS),
        u64::from(MAX_CREDITS),
    )?;
    let (room, text) = number_line(text, 7, b"room", 1, u64::from(MAX_ROOM))?;
    match Setup::new(
        hosts as u8,
        lines,
        entries as u16,
        ways as u16,
        tags as u16,
        credits as u8,
        &[],
    ) {
        Ok(setup) => Ok((setup, room, text)),
        Err(_) => unreachable!("each number was read within its limits"),
    }
}

/// The number in the line of this number, behind its word and within its limits, and the text after the line.
#[tactic(auto, unfolding(crate::specs::Head::number_at))]
fn number_line<'a>(
    text: &'a [u8],
    line: u32,
    word: &[u8],
    least: u64,
    most: u64,
) -> Result<(u32, &'a [u8]), ScriptRefusal>
    requires { most < 2 ^ 32 }
    ensures number { Gives (λ found. (found.0, found.1.now)) result (number_at line word.now least most text.now) }
    ensures within { IfOk result (λ found. (least ≤ found.0) × (found.0 ≤ most)) }
{
    if text.is_empty() {
        let reason = ScriptReason::Missing;
        return Err(ScriptRefusal::Bad { line, reason });
    }
    let Some((number, rest)) = setting_of(word, text) else {
        let reason = ScriptReason::Spelling;
        return Err(ScriptRefusal::Bad { line, reason });
    };
    if number < least || number > most {
        let reason = ScriptReason::Range;
        return Err(ScriptRefusal::Bad { line, reason });
    }
    Ok((number as u32, rest))
}

/// The number in the first line of a text, behind this word, and the text after the line.
#[tactic(auto, unfolding(crate::specs::Head::setting_in))]
fn setting_of<'a>(word: &[u8], text: &'a [u8]) -> Option<(u64, &'a [u8])>
    ensures { option_map (λ found. (found.0, found.1.now)) result ≡ setting_in word.now text.now }
{
    let (line, rest) = cut_at(text, b'\n')?;
    Some((number_after(word, line)?, rest))
}

/// The number behind this word in a text without a line feed.
#[tactic(auto, unfolding(crate::specs::Head::number_behind))]
fn number_after(word: &[u8], text: &[u8]) -> Option<u64>
    ensures { result ≡ number_behind word.now text.now }
{
    let (found, rest) = cut_at(text, b' ')?;
    if found != word {
        return None;
    }
    number_of(rest)
}
