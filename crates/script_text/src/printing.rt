// From a script to its text.
ghost use Rattle.std.specs.Prelude.{◌≡◌, ◌++◌, ◌∷◌, ◌<◌, ◌/◌, ◌%◌, [], IfOk, OnOk, codes, false, map};
ghost use Rattle.std.specs.Fmt.{decimal, digit_glyph};
ghost use Rattle.std.specs.Int.{to_be_bytes, w64};
ghost use Rattle.std.specs.List.{flat_map};
ghost use Rattle.std.specs.Option.{option_map};
ghost use Rattle.script_text.specs.Spelling.{head_bytes, hex, hex_byte, line_bytes, open_line, op_line, script_bytes, setting, stream_line, stream_lines};

use crate::lines::ScriptLine;
use crate::scripts::Script;
use cxl_message::{Line, Op};
use itoa::Buffer;
use std::alloc::{AllocError, Global};

/// The text of a script: its one spelling, which is parsed to the same script again (own rule). It is refused only for want of
/// memory.
pub fn print_script(alloc: Global, script: &Script) -> Result<Vec<u8>, AllocError>
    ensures spelled { IfOk result (λ text. text.items ≡ script_bytes script.now) }
{
    let mut out = Vec::new(alloc);
    put_head(&mut out, script)?;
    put_openings(&mut out, script)?;
    put_streams(&mut out, script)?;
    put_picks(&mut out, script)?;
    Ok(out)
}

/// Appends the seven lines that a script begins with.
fn put_head(out: &mut Vec<u8>, script: &Script) -> Result<(), AllocError>
    ensures { OnOk result (out.new.items ≡ out.old.items ++ head_bytes script.now) }
{
    let setup = script.setup();
    put_setting(out, b"hosts", u32::from(setup.hosts()))?;
    put_setting(out, b"lines", setup.lines())?;
    put_setting(out, b"filter", u32::from(setup.entries()))?;
    put_setting(out, b"ways", u32::from(setup.ways()))?;
    put_setting(out, b"tags", u32::from(setup.tags()))?;
    put_setting(out, b"credits", u32::from(setup.credits()))?;
    put_setting(out, b"room", script.room())?;
    Ok(())
}

/// Appends the lines of the opening.
fn put_openings(out: &mut Vec<u8>, script: &Script) -> Result<(), AllocError>
    ensures { OnOk result (out.new.items ≡ out.old.items ++ flat_map line_bytes (map open_line script.now.opening)) }
{
    for (line, bytes) in script.opening().pairs() {
        put_line_and_bytes(out, b"open", *line, &bytes.0)?;
    }
    Ok(())
}

/// Appends the lines of the streams: each one's host and name, then its operations.
fn put_streams(out: &mut Vec<u8>, script: &Script) -> Result<(), AllocError>
    ensures { OnOk result (out.new.items ≡ out.old.items ++ flat_map line_bytes (stream_lines script.now.names 0 script.now.setup.streams script.now.operations)) }
{
    let hosts = script.setup().streams();
    let names = script.names();
    for stream in 0..hosts.len() {
        put_stream(out, hosts[stream], names.name(stream as u8))?;
        put_operations(out, script.ops(stream as u8))?;
    }
    Ok(())
}

/// Appends the line of a stream: its host, and its name if it has one.
fn put_stream(out: &mut Vec<u8>, host: u8, name: Option<&[u8]>) -> Result<(), AllocError>
    ensures { OnOk result (out.new.items ≡ out.old.items ++ line_bytes (stream_line host (option_map (λ name. name.now) name.entry))) }
{
    put_named(out, b"stream", u32::from(host))?;
    if let Some(name) = name {
        out.push(b' ')?;
        out.extend_from_slice(name)?;
    }
    out.push(b'\n')?;
    Ok(())
}

/// Appends the lines of operations.
fn put_operations(out: &mut Vec<u8>, ops: &[Op]) -> Result<(), AllocError>
    ensures { OnOk result (out.new.items ≡ out.old.items ++ flat_map line_bytes (map op_line ops.now)) }
{
    for op in ops {
        put_operation(out, op)?;
    }
    Ok(())
}

/// Appends the line of an operation.
fn put_operation(out: &mut Vec<u8>, op: &Op) -> Result<(), AllocError>
    ensures { OnOk result (out.new.items ≡ out.old.items ++ line_bytes (op_line op.now)) }
{
    match op {
        Op::Load { line } => put_setting(out, b"load", line.0),
        Op::Word { line, place, value } => put_word(out, *line, *place, *value),
        Op::Whole { line, bytes } => put_line_and_bytes(out, b"whole", *line, &bytes.0),
    }
}

/// Appends the line of a word's store.
fn put_word(out: &mut Vec<u8>, line: Line, place: u8, value: u64) -> Result<(), AllocError>
    ensures { OnOk result (out.new.items ≡ out.old.items ++ line_bytes (ScriptLine.Word line.0 place value)) }
{
    put_named(out, b"word", line.0)?;
    out.push(b' ')?;
    put_number(out, u32::from(place))?;
    put_last(out, &value.to_be_bytes())?;
    Ok(())
}

/// Appends the lines of the picks.
fn put_picks(out: &mut Vec<u8>, script: &Script) -> Result<(), AllocError>
    ensures { OnOk result (out.new.items ≡ out.old.items ++ flat_map line_bytes (map (λ pick. ScriptLine.Pick pick) script.now.picks)) }
{
    for pick in script.picks() {
        put_setting(out, b"pick", u32::from(*pick))?;
    }
    Ok(())
}

/// Appends a line of one word and one number.
fn put_setting(out: &mut Vec<u8>, word: &[u8], number: u32) -> Result<(), AllocError>
    ensures { OnOk result (out.new.items ≡ out.old.items ++ setting word.now number) }
{
    put_named(out, word, number)?;
    out.push(b'\n')?;
    Ok(())
}

/// Appends a line of a word, the number of a line, and 64 bytes.
fn put_line_and_bytes(
    out: &mut Vec<u8>,
    word: &[u8],
    line: Line,
    bytes: &[u8],
) -> Result<(), AllocError>
    ensures { OnOk result (out.new.items ≡ out.old.items ++ (word.now ++ 32 ∷ decimal line.0 ++ 32 ∷ hex bytes.now ++ 10 ∷ [])) }
{
    put_named(out, word, line.0)?;
    put_last(out, bytes)?;
    Ok(())
}

/// Appends a word and a number.
fn put_named(out: &mut Vec<u8>, word: &[u8], number: u32) -> Result<(), AllocError>
    ensures { OnOk result (out.new.items ≡ out.old.items ++ (word.now ++ 32 ∷ decimal number)) }
{
    out.extend_from_slice(word)?;
    out.push(b' ')?;
    put_number(out, number)?;
    Ok(())
}

/// Appends a last word of hexadecimal digits, and the line feed.
fn put_last(out: &mut Vec<u8>, bytes: &[u8]) -> Result<(), AllocError>
    ensures { OnOk result (out.new.items ≡ out.old.items ++ (32 ∷ hex bytes.now ++ 10 ∷ [])) }
{
    out.push(b' ')?;
    put_hex(out, bytes)?;
    out.push(b'\n')?;
    Ok(())
}

/// Appends a number in decimal digits.
fn put_number(out: &mut Vec<u8>, number: u32) -> Result<(), AllocError>
    ensures { OnOk result (out.new.items ≡ out.old.items ++ decimal number) }
{
    let mut buffer = Buffer::new();
    out.extend_from_slice(buffer.format(number).as_bytes())
}

/// Appends bytes in hexadecimal digits.
fn put_hex(out: &mut Vec<u8>, bytes: &[u8]) -> Result<(), AllocError>
    ensures { OnOk result (out.new.items ≡ out.old.items ++ hex bytes.now) }
{
    for byte in bytes {
        put_hex_byte(out, *byte)?;
    }
    Ok(())
}

/// Appends a byte as two hexadecimal digits, the high one first.
fn put_hex_byte(out: &mut Vec<u8>, byte: u8) -> Result<(), AllocError>
    ensures { OnOk result (out.new.items ≡ out.old.items ++ hex_byte byte) }
{
    out.push(digit_of_value(byte / 16))?;
    out.push(digit_of_value(byte % 16))?;
    Ok(())
}

/// The hexadecimal digit of a value below 16, in lower case.
fn digit_of_value(value: u8) -> u8
    requires { value < 16 }
    ensures { result ≡ digit_glyph false value }
{
    if value < 10 {
        b'0' + value
    } else {
        b'a' + (value - 10)
    }
}
