// The end record of a trace.
ghost use Rattle.std.specs.Prelude.{◌≡◌, ◌++◌, OnOk, OnErr, IfOk, IfErr};
ghost use Rattle.cxl_codec.specs.Grammar.{BeginsWith, Refuses};
ghost use Rattle.cxl_codec.specs.EndRecord.{EndFits, end_cells};
ghost use Rattle.cxl_codec.specs.Traces.{end_bytes};
ghost use Rattle.cxl_codec.specs.Reading.{Gives};
ghost use Rattle.cxl_codec.specs.ReadingFiles.{end_at};

use crate::faults::{Fault, refusal};
use crate::fields::FieldName;
use crate::reading::{read_u64, read_within};
use crate::refusals::DecodeRefusal;
use crate::writing::put;
use std::alloc::AllocError;

/// Appends the end record of a trace of so many events (own rule). The error is want of memory, and `out` is then
/// as before.
pub fn encode_end(count: u64, out: &mut Vec<u8>) -> Result<(), AllocError>
    ensures ok { OnOk result (out.new.items ≡ out.old.items ++ end_bytes count) }
    ensures fits { EndFits count }
    ensures err { OnErr result (out.new.items ≡ out.old.items) }
{
    out.reserve(9)?;
    put(out, &[0xff]);
    put(out, &count.to_be_bytes());
    Ok(())
}

/// Reads the end record at the front of the bytes, and answers the number of events and how many bytes the record has.
/// It is Short exactly where the bytes are a proper prefix of some end record, and else refused by the field Agent at
/// the first byte (own rule).
pub fn decode_end(bytes: &[u8]) -> Result<(u64, usize), DecodeRefusal>
    ensures found { IfOk result (λ found. BeginsWith EndFits end_cells bytes.now found.0 found.1) }
    ensures refused { IfErr result (λ refusal. Refuses EndFits end_cells bytes.now refusal) }
{
    match read_end(bytes) {
        Ok((count, rest)) => Ok((count, bytes.len() - rest.len())),
        Err(fault) => Err(refusal(bytes.len(), fault)),
    }
}

/// Reads an end record.
#[tactic(auto, unfolding(crate::specs::ReadingFiles::end_at))]
fn read_end(bytes: &[u8]) -> Result<(u64, &[u8]), Fault>
    ensures { Gives (λ x. (x.0, x.1.now)) result (end_at bytes.now) }
{
    let (_, rest) = read_within(bytes, FieldName::Agent, 0xff, 0xff)?;
    let (count, rest) = read_u64(rest)?;
    Ok((count, rest))
}
