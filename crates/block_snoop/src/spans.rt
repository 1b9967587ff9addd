// Spans of lines.
ghost use Rattle.std.specs.Prelude.{◌≡◌, ◌≤◌};
ghost use Rattle.cxl_message.specs.Codes.{span_len as span_length};
ghost use Rattle.cxl_message.specs.Spans.{aligned};

use cxl_message::{Line, Span};

/// How many lines a span has: 1, 2 or 4.
pub fn span_len(span: Span) -> u8
    ensures lines { result ≡ span_length span }
{
    match span {
        Span::One => 1,
        Span::Two => 2,
        Span::Four => 4,
    }
}

/// The first line of the block with a line that begins at a multiple of its length (CXL 3.1, chapter 3: BISnp for
/// blocks).
pub fn span_of(line: Line, span: Span) -> Line
    ensures first { result.0 ≡ aligned (span_length span) line.0 }
{
    match span {
        Span::One => Line(line.0 - line.0 % 1),
        Span::Two => Line(line.0 - line.0 % 2),
        Span::Four => Line(line.0 - line.0 % 4),
    }
}
