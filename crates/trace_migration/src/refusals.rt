// Why bytes aren't migrated.
ghost use Rattle.std.specs.Prelude.{◌≡◌};
ghost use Rattle.trace_migration.specs.declared.refusals.MigrateRefusal.TheVariants.{Memory, NotATrace};
ghost use Rattle.trace_migration.specs.Outcomes.{refusal_of};

use std::alloc::AllocError;
use thiserror::Error;
use trace_stream::{TraceFault, TraceWriteRefusal};

/// Why a trace isn't migrated (own rule).
#[derive(Clone, Copy, PartialEq, Eq, Debug, Error)]
pub enum MigrateRefusal {
    /// The bytes aren't a trace: the first place where, and why. Nothing was written.
    #[error("not a trace: {0}")]
    NotATrace(TraceFault),
    /// The sink failed, and has counted a fault in this call.
    #[error("write fault")]
    WriteFault,
    /// There is no memory.
    #[error("memory")]
    Memory,
}

impl From<AllocError> for MigrateRefusal {
    ghost from_gives = { λ _ refusal. refusal ≡ Memory };

    fn from(_error: AllocError) -> MigrateRefusal {
        MigrateRefusal::Memory
    }
}

impl From<TraceFault> for MigrateRefusal {
    ghost from_gives = { λ fault refusal. refusal ≡ NotATrace fault };

    fn from(fault: TraceFault) -> MigrateRefusal {
        MigrateRefusal::NotATrace(fault)
    }
}

impl From<TraceWriteRefusal> for MigrateRefusal {
    ghost from_gives = { λ refusal result. result ≡ refusal_of refusal };

    fn from(refusal: TraceWriteRefusal) -> MigrateRefusal {
        match refusal {
            TraceWriteRefusal::WriteFault => MigrateRefusal::WriteFault,
            TraceWriteRefusal::Memory => MigrateRefusal::Memory,
        }
    }
}
