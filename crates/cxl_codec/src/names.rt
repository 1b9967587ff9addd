// The name records of a trace of version 2.
ghost use Rattle.std.specs.Prelude.{◌≡◌, ◌<◌, ◌≤◌, ◌++◌, IsTrue, length, OnOk, OnErr, IfOk, IfErr};
ghost use Rattle.cxl_message.specs.Names.{is_name};
ghost use Rattle.cxl_message.specs.declared.limits.TheConstants.{MAX_STREAMS};
ghost use Rattle.cxl_codec.specs.Grammar.{BeginsWith, Refuses};
ghost use Rattle.cxl_codec.specs.NameRecord.{NameFits, name_cells};
ghost use Rattle.cxl_codec.specs.Traces.{name_bytes};
ghost use Rattle.cxl_codec.specs.Reading.{Gives, bytes_at, letter};
ghost use Rattle.cxl_codec.specs.declared.fields.FieldName.{FieldName as Field};
ghost use Rattle.cxl_codec.specs.ReadingFiles.{name_at};

use crate::faults::{Fault, refusal};
use crate::fields::FieldName;
use crate::reading::read_within;
use crate::refusals::DecodeRefusal;
use crate::writing::put;
use arrayvec::ArrayVec;
use cxl_message::{MAX_NAME_LEN, MAX_STREAMS, is_name_byte};
use std::alloc::AllocError;

/// Appends the name record of a stream, which is below 64, and its name, which is 1 to 32 lower-case letters, digits or
/// `_` (own rule). The error is want of memory, and `out` is then as before.
pub fn encode_name(stream: u8, name: &[u8], out: &mut Vec<u8>) -> Result<(), AllocError>
    requires stream { stream < MAX_STREAMS }
    requires spelled { IsTrue (is_name name.now) }
    ensures ok { OnOk result (out.new.items ≡ out.old.items ++ name_bytes (stream, name.now)) }
    ensures fits { NameFits (stream, name.now) }
    ensures err { OnErr result (out.new.items ≡ out.old.items) }
{
    out.reserve(3 + name.len())?;
    put(out, &[0xf1, stream, name.len() as u8]);
    put(out, name);
    Ok(())
}

/// Reads the name record at the front of the bytes, and answers its stream, the name and how many bytes the record has.
/// It is Short exactly where the bytes are a proper prefix of some name record, and else refused at the first byte that no
/// name record can have after the bytes before it, by the field that stands there (own rule). Whether the stream exists and
/// ascends is not asked here.
pub fn decode_name(bytes: &[u8]) -> Result<(u8, ArrayVec<u8, 32>, usize), DecodeRefusal>
    ensures found { IfOk result (λ found. BeginsWith NameFits name_cells bytes.now (found.0, found.1.items) found.2) }
    ensures refused { IfErr result (λ refusal. Refuses NameFits name_cells bytes.now refusal) }
{
    match read_name(bytes) {
        Ok((named, rest)) => Ok((named.0, held(named.1), bytes.len() - rest.len())),
        Err(fault) => Err(refusal(bytes.len(), fault)),
    }
}

/// A name in a room of its own.
fn held(name: &[u8]) -> ArrayVec<u8, 32>
    requires { length name.now ≤ 32 }
    ensures { result.items ≡ name.now }
{
    let mut held = ArrayVec::new();
    let _fits = held.try_extend_from_slice(name);
    held
}

/// Reads a name record.
#[tactic(auto, unfolding(crate::specs::ReadingFiles::name_at))]
fn read_name(bytes: &[u8]) -> Result<((u8, &[u8]), &[u8]), Fault>
    ensures { Gives (λ x. ((x.0.0, x.0.1.now), x.1.now)) result (name_at bytes.now) }
{
    let (_, rest) = read_within(bytes, FieldName::Agent, 0xf1, 0xf1)?;
    let (stream, rest) = read_within(rest, FieldName::Stream, 0, MAX_STREAMS - 1)?;
    let (count, rest) = read_within(rest, FieldName::NameLength, 1, MAX_NAME_LEN)?;
    let (name, rest) = read_letters(rest, count as usize)?;
    Ok(((stream, name), rest))
}

/// So many bytes of a name.
fn read_letters(bytes: &[u8], count: usize) -> Result<(&[u8], &[u8]), Fault>
    ensures { Gives (λ x. (x.0.now, x.1.now)) result (bytes_at Field.NameByte letter count bytes.now) }
{
    for i in 0..count {
        if bytes.len() <= i {
            return Err(Fault::Short);
        }
        if !is_name_byte(bytes[i]) {
            return Err(Fault::Field {
                left: bytes.len() - i,
                which: FieldName::NameByte,
            });
        }
    }
    Ok(bytes.split_at(count))
}
