// Blocks of lines.
use cxl_message::{Line, Span};

/// A block of lines: its first line, and how many lines it has. A block that a filter answers begins at a multiple of
/// its length (CXL 3.1, chapter 3: BISnp for blocks).
#[derive(Clone, Copy, PartialEq, Eq, Debug)]
pub struct Block {
    /// Its first line.
    pub first: Line,
    /// How many lines it has.
    pub span: Span,
}
