// Refusals by line and reason, one table for all forms of lines.
use script_text::{ScriptReason, ScriptRefusal, parse_script, print_script};
use std::alloc::{AllocError, Global};
use std::process::Abort;
use std::test::Fail;

// A script with a line of each form.
const LINES: [&str; 16] = [
    "hosts 2\n",
    "lines 8\n",
    "filter 4\n",
    "ways 4\n",
    "tags 2\n",
    "credits 2\n",
    "room 100\n",
    "open 1 00000000000000000000000000000000000000000000000000000000000000000000000000000000000000000000000000000000000000000000000000000001\n",
    "open 7 abababababababababababababababababababababababababababababababababababababababababababababababababababababababababababababababab\n",
    "stream 1\n",
    "load 7\n",
    "word 3 7 0123456789abcdef\n",
    "whole 0 abababababababababababababababababababababababababababababababababababababababababababababababababababababababababababababababab\n",
    "stream 0\n",
    "pick 0\n",
    "pick 65535\n",
];

// What stands instead of a line, by its place; the line that is refused, and why.
type Damage = (usize, &'static str, u32, ScriptReason);

// Damages of the seven lines outside their limits, and left out.
static HEAD_LIMITS: [Damage; 21] = [
    (0, "hosts 0\n", 1, ScriptReason::Range),
    (0, "hosts 17\n", 1, ScriptReason::Range),
    (0, "", 1, ScriptReason::Spelling),
    (1, "lines 0\n", 2, ScriptReason::Range),
    (1, "lines 65537\n", 2, ScriptReason::Range),
    (1, "", 2, ScriptReason::Spelling),
    (2, "filter 0\n", 3, ScriptReason::Range),
    (2, "filter 4097\n", 3, ScriptReason::Range),
    (2, "", 3, ScriptReason::Spelling),
    (3, "ways 0\n", 4, ScriptReason::Range),
    (3, "ways 257\n", 4, ScriptReason::Range),
    (3, "", 4, ScriptReason::Spelling),
    (4, "tags 1\n", 5, ScriptReason::Range),
    (4, "tags 1025\n", 5, ScriptReason::Range),
    (4, "", 5, ScriptReason::Spelling),
    (5, "credits 1\n", 6, ScriptReason::Range),
    (5, "credits 65\n", 6, ScriptReason::Range),
    (5, "", 6, ScriptReason::Spelling),
    (6, "room 0\n", 7, ScriptReason::Range),
    (6, "room 200001\n", 7, ScriptReason::Range),
    (6, "", 7, ScriptReason::Spelling),
];

// Damages of the seven lines spelled otherwise.
static HEAD_SPELLINGS: [Damage; 14] = [
    (0, "hosts hosts 2\n", 1, ScriptReason::Spelling),
    (0, "hosts 02\n", 1, ScriptReason::Spelling),
    (0, "hosts 2\r\n", 1, ScriptReason::Spelling),
    (0, "hosts  2\n", 1, ScriptReason::Spelling),
    (0, "hosts 2 \n", 1, ScriptReason::Spelling),
    (0, "hosts \n", 1, ScriptReason::Spelling),
    (0, "hosts\n", 1, ScriptReason::Spelling),
    (0, " hosts 2\n", 1, ScriptReason::Spelling),
    (0, "Hosts 2\n", 1, ScriptReason::Spelling),
    (0, "hosts 10000000001\n", 1, ScriptReason::Spelling),
    (0, "hosts 9999999999\n", 1, ScriptReason::Range),
    (0, "hosts -1\n", 1, ScriptReason::Spelling),
    (0, "hosts 2\nhosts 2\n", 2, ScriptReason::Spelling),
    (6, "room 100\n\n", 8, ScriptReason::Spelling),
];

// Damages of openings.
static OPENINGS: [Damage; 13] = [
    (
        7,
        "open 8 00000000000000000000000000000000000000000000000000000000000000000000000000000000000000000000000000000000000000000000000000000001\n",
        8,
        ScriptReason::Range,
    ),
    (
        7,
        "open 1 00000000000000000000000000000000000000000000000000000000000000000000000000000000000000000000000000000000000000000000000000000000\n",
        8,
        ScriptReason::Order,
    ),
    (
        7,
        "open 8 00000000000000000000000000000000000000000000000000000000000000000000000000000000000000000000000000000000000000000000000000000000\n",
        8,
        ScriptReason::Range,
    ),
    (
        7,
        "open 1 0000000000000000000000000000000000000000000000000000000000000000000000000000000000000000000000000000000000000000000000000000001\n",
        8,
        ScriptReason::Spelling,
    ),
    (
        7,
        "open 1 000000000000000000000000000000000000000000000000000000000000000000000000000000000000000000000000000000000000000000000000000000010\n",
        8,
        ScriptReason::Spelling,
    ),
    (
        7,
        "open 1 ABABABABABABABABABABABABABABABABABABABABABABABABABABABABABABABABABABABABABABABABABABABABABABABABABABABABABABABABABABABABABABABAB\n",
        8,
        ScriptReason::Spelling,
    ),
    (
        7,
        "open 01 00000000000000000000000000000000000000000000000000000000000000000000000000000000000000000000000000000000000000000000000000000001\n",
        8,
        ScriptReason::Spelling,
    ),
    (
        7,
        "open 1  00000000000000000000000000000000000000000000000000000000000000000000000000000000000000000000000000000000000000000000000000000001\n",
        8,
        ScriptReason::Spelling,
    ),
    (
        7,
        "open 1 00000000000000000000000000000000000000000000000000000000000000000000000000000000000000000000000000000000000000000000000000000001\r\n",
        8,
        ScriptReason::Spelling,
    ),
    (7, "open 1\n", 8, ScriptReason::Spelling),
    (
        7,
        "open 7 00000000000000000000000000000000000000000000000000000000000000000000000000000000000000000000000000000000000000000000000000000001\n",
        9,
        ScriptReason::Order,
    ),
    (
        8,
        "open 1 abababababababababababababababababababababababababababababababababababababababababababababababababababababababababababababababab\n",
        9,
        ScriptReason::Order,
    ),
    (
        8,
        "open 0 abababababababababababababababababababababababababababababababababababababababababababababababababababababababababababababababab\n",
        9,
        ScriptReason::Order,
    ),
];

// Damages of streams and loads.
static STREAMS: [Damage; 12] = [
    (9, "stream 2\n", 10, ScriptReason::Range),
    (9, "", 10, ScriptReason::Spelling),
    (9, "stream 01\n", 10, ScriptReason::Spelling),
    (9, "stream\n", 10, ScriptReason::Spelling),
    (
        9,
        "stream 1\nopen 7 00000000000000000000000000000000000000000000000000000000000000000000000000000000000000000000000000000000000000000000000000000001\n",
        11,
        ScriptReason::Spelling,
    ),
    (10, "load 8\n", 11, ScriptReason::Range),
    (10, "load 08\n", 11, ScriptReason::Spelling),
    (10, "load\n", 11, ScriptReason::Spelling),
    (10, "load 7 \n", 11, ScriptReason::Spelling),
    (10, "load 7\r\n", 11, ScriptReason::Spelling),
    (10, "store 7\n", 11, ScriptReason::Spelling),
    (10, "load load 7\n", 11, ScriptReason::Spelling),
];

// Damages of streams with names.
static NAMES: [Damage; 14] = [
    (9, "stream 2 cpu\n", 10, ScriptReason::Range),
    (9, "stream 1 \n", 10, ScriptReason::Spelling),
    (9, "stream  cpu\n", 10, ScriptReason::Spelling),
    (9, "stream cpu\n", 10, ScriptReason::Spelling),
    (9, "stream 1 Cpu\n", 10, ScriptReason::Spelling),
    (9, "stream 1 cpu-0\n", 10, ScriptReason::Spelling),
    (9, "stream 1  cpu\n", 10, ScriptReason::Spelling),
    (9, "stream 1 cpu \n", 10, ScriptReason::Spelling),
    (9, "stream 1 cpu 0\n", 10, ScriptReason::Spelling),
    (9, "stream 1 cpu\r\n", 10, ScriptReason::Spelling),
    (9, "stream 01 cpu\n", 10, ScriptReason::Spelling),
    (
        9,
        "stream 1 abcdefghijklmnopqrstuvwxyz0123456\n",
        10,
        ScriptReason::Spelling,
    ),
    (14, "pick 0\nstream 0 cpu\n", 16, ScriptReason::Spelling),
    (14, "pick 0\nstream 2 cpu\n", 16, ScriptReason::Spelling),
];

// Damages of stores.
static STORES: [Damage; 14] = [
    (11, "word 8 7 0123456789abcdef\n", 12, ScriptReason::Range),
    (11, "word 3 8 0123456789abcdef\n", 12, ScriptReason::Range),
    (11, "word 3 7 0123456789abcde\n", 12, ScriptReason::Spelling),
    (
        11,
        "word 3 7 0123456789abcdef0\n",
        12,
        ScriptReason::Spelling,
    ),
    (
        11,
        "word 3 7 0123456789ABCDEF\n",
        12,
        ScriptReason::Spelling,
    ),
    (11, "word 3 0123456789abcdef\n", 12, ScriptReason::Spelling),
    (
        11,
        "word 3 07 0123456789abcdef\n",
        12,
        ScriptReason::Spelling,
    ),
    (
        11,
        "word 3 7  0123456789abcdef\n",
        12,
        ScriptReason::Spelling,
    ),
    (
        11,
        "word 3 7 0123456789abcdef \n",
        12,
        ScriptReason::Spelling,
    ),
    (
        12,
        "whole 8 abababababababababababababababababababababababababababababababababababababababababababababababababababababababababababababababab\n",
        13,
        ScriptReason::Range,
    ),
    (
        12,
        "whole 0 bababababababababababababababababababababababababababababababababababababababababababababababababababababababababababababababab\n",
        13,
        ScriptReason::Spelling,
    ),
    (
        12,
        "whole abababababababababababababababababababababababababababababababababababababababababababababababababababababababababababababababab\n",
        13,
        ScriptReason::Spelling,
    ),
    (
        12,
        "whole 0 abababababababababababababababababababababababababababababababababababababababababababababababababababababababababababababababab\r\n",
        13,
        ScriptReason::Spelling,
    ),
    (
        12,
        "whole 00 abababababababababababababababababababababababababababababababababababababababababababababababababababababababababababababababab\n",
        13,
        ScriptReason::Spelling,
    ),
];

// Damages of picks, and the last line.
static PICKS: [Damage; 11] = [
    (14, "pick 65536\n", 15, ScriptReason::Range),
    (14, "pick 00\n", 15, ScriptReason::Spelling),
    (14, "pick\n", 15, ScriptReason::Spelling),
    (14, "pick 0 0\n", 15, ScriptReason::Spelling),
    (14, "pick 0\nload 0\n", 16, ScriptReason::Spelling),
    (14, "pick 0\nstream 0\n", 16, ScriptReason::Spelling),
    (
        14,
        "pick 0\nopen 7 00000000000000000000000000000000000000000000000000000000000000000000000000000000000000000000000000000000000000000000000000000001\n",
        16,
        ScriptReason::Spelling,
    ),
    (15, "pick 65535", 16, ScriptReason::Spelling),
    (15, "pick", 16, ScriptReason::Spelling),
    (15, "\n", 16, ScriptReason::Spelling),
    (15, "x\n", 16, ScriptReason::Spelling),
];

// Texts that end within the first seven lines, with the line that is missing or not ended.
const SHORT: [(&str, u32, ScriptReason); 5] = [
    ("", 1, ScriptReason::Missing),
    ("hosts 1", 1, ScriptReason::Spelling),
    ("hosts 1\n", 2, ScriptReason::Missing),
    (
        "hosts 1\nlines 1\nfilter 1\nways 1\ntags 2\ncredits 2\n",
        7,
        ScriptReason::Missing,
    ),
    (
        "hosts 1\nlines 1\nfilter 1\nways 1\ntags 2\ncredits 2\nroom 1",
        7,
        ScriptReason::Spelling,
    ),
];

// The script of which the line at this place is replaced.
fn damaged(alloc: Global, place: usize, line: &str) -> Result<String, AllocError> {
    let mut text = String::new(alloc);
    for (at, kept) in LINES.iter().enumerate() {
        text.push_str(if at == place { line } else { kept })?;
    }
    Ok(text)
}

// The refusal of a text.
fn refusal_of(rt: &impl Abort, alloc: Global, text: &str) -> Option<ScriptRefusal> {
    assert!(rt; text.len() < 10000);
    parse_script(alloc, text.as_bytes()).err()
}

// Each damage is refused at its line, for its reason.
fn try_damages(rt: &impl Abort, alloc: Global, damages: &[Damage]) -> Result<(), AllocError> {
    for (place, line, at, reason) in damages {
        let text = damaged(alloc, *place, line)?;
        let wanted = ScriptRefusal::Bad {
            line: *at,
            reason: *reason,
        };
        let found = refusal_of(rt, alloc, text.as_str());
        assert_eq!(rt; found, Some(wanted), "{line} at {place}");
    }
    Ok(())
}

#[test]
fn each_damage_is_refused_at_its_line(rt: HostRuntime) -> Result<(), Fail> {
    let whole = damaged(rt.alloc(), LINES.len(), "")?;
    assert_eq!(rt; refusal_of(&rt, rt.alloc(), whole.as_str()), None);
    try_damages(&rt, rt.alloc(), &HEAD_LIMITS)?;
    try_damages(&rt, rt.alloc(), &HEAD_SPELLINGS)?;
    try_damages(&rt, rt.alloc(), &OPENINGS)?;
    try_damages(&rt, rt.alloc(), &STREAMS)?;
    try_damages(&rt, rt.alloc(), &NAMES)?;
    try_damages(&rt, rt.alloc(), &STORES)?;
    try_damages(&rt, rt.alloc(), &PICKS)?;
    for (text, at, reason) in SHORT {
        let wanted = Some(ScriptRefusal::Bad { line: at, reason });
        assert_eq!(rt; refusal_of(&rt, rt.alloc(), text), wanted, "{text}");
    }
    Ok(())
}

// The script is printed as it was read.
#[test]
fn printed_as_it_was_read(rt: HostRuntime) -> Result<(), Fail> {
    let text = damaged(rt.alloc(), LINES.len(), "")?;
    assert!(rt; text.len() < 10000);
    let script = parse_script(rt.alloc(), text.as_bytes())?;
    let printed = print_script(rt.alloc(), &script)?;
    assert!(rt; printed.as_slice() == text.as_bytes());
    Ok(())
}
