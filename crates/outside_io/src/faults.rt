use thiserror::Error;

/// A read or a write failed. The source or the sink has counted a fault (own rule).
#[derive(Clone, Copy, Debug, PartialEq, Eq, Error)]
#[error("the read or the write failed")]
pub struct Failed;
