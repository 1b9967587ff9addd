// What a way holds.
use cxl_message::CopyState;
use line_pool::SlotId;

/// The state of a way's copy, and the slot of its bytes.
#[derive(Clone, Copy, Debug)]
pub struct Held {
    /// The state of the copy.
    pub state: CopyState,
    /// The slot that has its bytes.
    pub slot: SlotId,
}
