// The worked rows: runs of small setups, each event as a line.
mod conflicts;
mod evictions;
mod sharing;

pub use conflicts::{EARLY_CONFLICT, LATE_CONFLICT, WHOLE_STORES_IN_CONFLICT};
use cxl_message::Op;
pub use evictions::{
    BLOCKS_OF_FOUR, CLEAN_EVICTION_CROSSES, DIRTY_EVICTION, DIRTY_EVICTION_CROSSES,
    FILTER_OF_ONE_ENTRY, SHARED_COPY_IS_DROPPED, WHOLE_STORE_AND_HIT,
};
pub use sharing::{MODIFIED_LINE_IS_WANTED, SHARING, SILENT_UPGRADE, STORE_OVER_SHARED_COPIES};

/// A worked row.
#[derive(Clone, Copy)]
pub struct Row<'a> {
    /// The numbers of hosts, lines, filter entries, ways, Tags and credits of its setup.
    pub limits: (u8, u32, u16, u16, u16, u8),
    /// The host of each stream.
    pub streams: &'a [u8],
    /// The streams and the operations that begin, in this order.
    pub operations: &'a [(u8, Op)],
    /// The events: the row, the agent, the cause, and behind `>` what is sent, behind `=` the commit. Bytes are written as `11*` where each
    /// is 0x11, and else as the first of their words, the second if it isn't zero, and `..` if bytes behind these aren't.
    pub events: &'a [&'a str],
}

impl Row<'_> {
    /// The stream and the operation that begins with the event of this place, if one does.
    pub fn operation_at(&self, place: usize) -> Option<(u8, Op)> {
        let line = self.events.get(place)?;
        if !is_operation(line) {
            return None;
        }
        let earlier = self.events.iter().take(place);
        let number = earlier.filter(|line| is_operation(line)).count();
        self.operations.get(number).copied()
    }
}

/// Whether a line is an operation's.
fn is_operation(line: &str) -> bool {
    matches!(line.as_bytes(), [b'H', b'1' | b'2', b' ', ..])
}
