// Why a trace of a script isn't written whole.
ghost use Rattle.std.specs.Prelude.{◌≡◌};
ghost use Rattle.step_driver.specs.Outcomes.{refusal_of};

use thiserror::Error;
use trace_stream::TraceWriteRefusal;

/// Why a script's trace isn't written whole (own rule). What the sink holds then is a front of it.
#[derive(Clone, Copy, PartialEq, Eq, Debug, Error)]
pub enum DriveRefusal {
    /// The sink failed, and has counted a fault in this call.
    #[error("write fault")]
    WriteFault,
    /// There is no memory.
    #[error("memory")]
    Memory,
}

impl From<TraceWriteRefusal> for DriveRefusal {
    ghost from_gives = { λ refusal result. result ≡ refusal_of refusal };

    fn from(refusal: TraceWriteRefusal) -> DriveRefusal {
        match refusal {
            TraceWriteRefusal::WriteFault => DriveRefusal::WriteFault,
            TraceWriteRefusal::Memory => DriveRefusal::Memory,
        }
    }
}
