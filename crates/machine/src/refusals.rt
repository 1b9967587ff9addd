// Why a machine can't be opened.
use thiserror::Error;

/// Why a machine can't be opened (own rule).
#[derive(Clone, Copy, PartialEq, Eq, Debug, Error)]
pub enum OpenMachineRefusal {
    /// The opening names a line that the setup hasn't.
    #[error("bad opening")]
    BadOpening,
    /// Memory is wanting.
    #[error("memory")]
    Memory,
}
