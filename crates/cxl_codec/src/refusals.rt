// Why bytes aren't a record.
use crate::fields::FieldName;
use thiserror::Error;

/// Why there is no record at the front of some bytes (own rule).
#[derive(Clone, Copy, PartialEq, Eq, Debug, Error)]
pub enum DecodeRefusal {
    /// The bytes are a proper prefix of such a record.
    #[error("short")]
    Short,
    /// The byte at this place, counted from 0, is the first that no such record can have after the bytes before it,
    /// and a kind byte stands there.
    #[error("kind")]
    Kind { at: usize },
    /// The byte at this place, counted from 0, is the first that no such record can have after the bytes before it,
    /// and a byte of this field stands there.
    #[error("field {which}")]
    Field { at: usize, which: FieldName },
}
