ghost use Rattle.std.specs.Prelude.{◌≡◌, ◌+◌, ◌*◌, ◌^◌, ◌<◌, ◌≤◌, length, take, IfOk, IfErr, OnOk, IsErrOf, vec_len};
ghost use Rattle.std.specs.Io.KnownBytes.{Appends};
ghost use Rattle.outside_io.specs.Counts.{HasCause, RisesAtMost, TellsFaults};
ghost use Rattle.outside_io.specs.Whole.{ReadsWhole, LosesOver, LosesWithin};

use crate::{Sink, Source};
use std::alloc::Global;
use thiserror::Error;

// How many bytes a read asks for.
const PIECE: usize = 4096;

/// Why an input wasn't read whole (own rule). What was read is gone.
#[derive(Clone, Copy, Debug, PartialEq, Eq, Error)]
pub enum ReadAllRefusal {
    /// A read failed, and at most the limit had come until then.
    #[error("read fault")]
    ReadFault,

    /// More than the limit of bytes came.
    #[error("too long")]
    TooLong,

    /// Memory was refused.
    #[error("out of memory")]
    Memory,
}

/// A write failed after the first `gone` bytes had gone (own rule).
#[derive(Clone, Copy, Debug, PartialEq, Eq, Error)]
#[error("write fault after {gone} bytes")]
pub struct WriteAllRefusal {
    /// How many bytes went: fewer than there were.
    pub gone: u64,
}

/// Reads all that is left, up to its end (own rule).
///
/// `ReadFault` comes exactly where a fault was counted in this call, `TooLong` exactly where more than `limit` bytes
/// came before an end or a fault, `Memory` where memory was refused. What was read is gone after each refusal.
/// No count of the source rises by more than `limit` + 1.
#[tactic(auto, using(crate::proofs::Bytes::LosesOver_more, crate::proofs::Bytes::LosesWithin_more))]
pub fn read_all<S: Source>(
    alloc: Global,
    source: &mut S,
    limit: u64,
) -> Result<Vec<u8>, ReadAllRefusal>
    requires { S.highest_count source.old + limit + 1 < 2 ^ 63 }

    ensures whole { IfOk result (λ bytes. ReadsWhole (S.left source.old) (S.left source.new) bytes.items) }
    ensures within { IfOk result (λ bytes. vec_len bytes ≤ limit) }

    ensures faults { TellsFaults (S.faults source.old) (S.faults source.new) (IsErrOf result ReadAllRefusal.ReadFault) }
    ensures read_until_fault { IsErrOf result ReadAllRefusal.ReadFault → LosesWithin limit (S.left source.old) (S.left source.new) }
    ensures too_long { IsErrOf result ReadAllRefusal.TooLong → LosesOver limit (S.left source.old) (S.left source.new) }
    ensures memory { IsErrOf result ReadAllRefusal.Memory → LosesWithin limit (S.left source.old) (S.left source.new) }

    ensures counts { RisesAtMost (limit + 1) (S.highest_count source.old) (S.highest_count source.new) }
{
    let mut bytes = Vec::new(alloc);
    let mut piece = [0u8; PIECE];
    loop {
        let Ok(count) = source.read(&mut piece) else {
            return Err(ReadAllRefusal::ReadFault);
        };
        if count == 0 {
            return Ok(bytes);
        }
        if count as u64 > limit - bytes.len() as u64 {
            return Err(ReadAllRefusal::TooLong);
        }
        bytes
            .extend_from_slice(&piece[..count])
            .map_err(|_| ReadAllRefusal::Memory)?;
    }
}

/// Writes all of `bytes` (own rule).
///
/// `Err` comes exactly where a fault was counted in this call; exactly the first `gone` bytes went. It takes no memory.
/// No count of the sink rises by more than twice the number of `bytes`, and one.
pub fn write_all<K: Sink>(sink: &mut K, bytes: &[u8]) -> Result<(), WriteAllRefusal>
    requires { K.highest_count sink.old + 2 * length bytes.now + 1 < 2 ^ 63 }

    ensures whole { OnOk result (Appends (K.gone sink.old) (K.gone sink.new) bytes.now) }

    ensures cause { HasCause (K.faults sink.old) (K.faults sink.new) result }
    ensures part { IfErr result (λ refusal. refusal.gone < length bytes.now) }
    ensures front { IfErr result (λ refusal. Appends (K.gone sink.old) (K.gone sink.new) (take refusal.gone bytes.now)) }

    ensures counts { RisesAtMost (2 * length bytes.now + 1) (K.highest_count sink.old) (K.highest_count sink.new) }
{
    let mut gone = 0;
    while gone < bytes.len() {
        match sink.write(&bytes[gone..]) {
            Ok(count) => gone += count,
            Err(_) => return Err(WriteAllRefusal { gone: gone as u64 }),
        }
    }
    Ok(())
}
