// Why a trace isn't written.
ghost use Rattle.std.specs.Prelude.{◌≡◌};
ghost use Rattle.trace_stream.specs.declared.refusals.TraceWriteRefusal.TheVariants.{Memory};

use std::alloc::AllocError;
use thiserror::Error;

/// Why a call of a writer of traces fails (own rule). The writer isn't used again.
#[derive(Clone, Copy, PartialEq, Eq, Debug, Error)]
pub enum TraceWriteRefusal {
    /// The sink failed, and has counted a fault in this call.
    #[error("write fault")]
    WriteFault,
    /// There is no memory.
    #[error("memory")]
    Memory,
}

impl From<AllocError> for TraceWriteRefusal {
    ghost from_gives = { λ _ refusal. refusal ≡ Memory };

    fn from(_error: AllocError) -> TraceWriteRefusal {
        TraceWriteRefusal::Memory
    }
}
