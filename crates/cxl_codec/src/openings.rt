// The opening records of a trace.
ghost use Rattle.std.specs.Prelude.{◌≡◌, ◌<◌, ◌++◌, OnOk, OnErr, IfOk, IfErr};
ghost use Rattle.cxl_codec.specs.Grammar.{BeginsWith, Refuses};
ghost use Rattle.cxl_codec.specs.Openings.{OpeningFits, opening_cells};
ghost use Rattle.cxl_codec.specs.Traces.{opening_bytes};
ghost use Rattle.cxl_codec.specs.Reading.{Gives};
ghost use Rattle.cxl_codec.specs.ReadingFiles.{opening_at};

use crate::faults::{Fault, refusal};
use crate::fields::FieldName;
use crate::reading::{read_payload, read_u16, read_within};
use crate::refusals::DecodeRefusal;
use crate::writing::{put, put_payload};
use cxl_message::{Bytes64, Line};
use std::alloc::AllocError;

/// How many bytes an opening record has (own rule).
pub const OPENING_LENGTH: usize = 67;

/// Appends the opening record of a line, which is below 65,536, and its bytes (own rule). The error is want of
/// memory, and `out` is then as before.
pub fn encode_opening(line: Line, bytes: &Bytes64, out: &mut Vec<u8>) -> Result<(), AllocError>
    requires { line.0 < 65536 }
    ensures ok { OnOk result (out.new.items ≡ out.old.items ++ opening_bytes (line, bytes.now)) }
    ensures fits { OnOk result (OpeningFits (line, bytes.now)) }
    ensures err { OnErr result (out.new.items ≡ out.old.items) }
{
    out.reserve(OPENING_LENGTH)?;
    let [high, low] = (line.0 as u16).to_be_bytes();
    put(out, &[0xf0, high, low]);
    put_payload(out, &bytes.0);
    Ok(())
}

/// Reads the opening record at the front of the bytes, and answers its line, its 64 bytes and how many bytes the record
/// has. It is Short exactly where the bytes are a proper prefix of some opening record, and else refused by the field
/// Agent at the first byte (own rule). Whether the line exists, ascends and isn't all zeros is not asked here.
pub fn decode_opening(bytes: &[u8]) -> Result<(Line, Bytes64, usize), DecodeRefusal>
    ensures found { IfOk result (λ found. BeginsWith OpeningFits opening_cells bytes.now (found.0, found.1) found.2) }
    ensures refused { IfErr result (λ refusal. Refuses OpeningFits opening_cells bytes.now refusal) }
{
    match read_opening(bytes) {
        Ok((opened, rest)) => Ok((opened.0, opened.1, bytes.len() - rest.len())),
        Err(fault) => Err(refusal(bytes.len(), fault)),
    }
}

/// Reads an opening record.
#[tactic(auto, unfolding(crate::specs::ReadingFiles::opening_at))]
fn read_opening(bytes: &[u8]) -> Result<((Line, Bytes64), &[u8]), Fault>
    ensures { Gives (λ x. (x.0, x.1.now)) result (opening_at bytes.now) }
{
    let (_, rest) = read_within(bytes, FieldName::Agent, 0xf0, 0xf0)?;
    let (line, rest) = read_u16(rest)?;
    let (bytes, rest) = read_payload(rest)?;
    let opened = (Line(u32::from(line)), Bytes64(*bytes));
    Ok((opened, rest))
}
