// Changes of the filter line by line.
ghost use Rattle.std.specs.Prelude.{◌≡◌, ◌+◌, ◌<◌, ◌≤◌};
ghost use Rattle.std.specs.List.{range_with_len};
ghost use Rattle.snoop_filter.specs.Changes.{rows_hold_all, rows_let_go};
ghost use Rattle.device_changes.specs.FilterLines.{AreHeld, AreIdle, rows_unlisted};

use block_snoop::AnswersLeft;
use cxl_message::{Line, Listing};
use snoop_filter::Filter;

/// Holds so many lines from a line on, each of which has a row that isn't held.
pub fn hold_lines(filter: &mut Filter, line: u32, count: u8)
    requires some { 1 ≤ count }
    requires lines { line + count ≤ filter.old.lines }
    requires small { filter.old.lines ≤ 65536 }
    requires idle { AreIdle filter.old.rows line count }
    ensures { filter.new ≡ record filter.old { rows = rows_hold_all (range_with_len line count) filter.old.rows } }
{
    filter.hold(Line(line));
    if count > 1 {
        hold_lines(filter, line + 1, count - 1);
    }
}

/// Lets so many lines from a line on go, each of which is held.
pub fn let_go_lines(filter: &mut Filter, line: u32, count: u8)
    requires some { 1 ≤ count }
    requires lines { line + count ≤ filter.old.lines }
    requires small { filter.old.lines ≤ 65536 }
    requires held { AreHeld filter.old.rows line count }
    ensures { filter.new ≡ record filter.old { rows = rows_let_go (range_with_len line count) filter.old.rows } }
{
    filter.let_go(Line(line));
    if count > 1 {
        let_go_lines(filter, line + 1, count - 1);
    }
}

/// Unlists a host for those of so many lines of a block that it has left to answer, from the line on that is `low` lines
/// after the first.
pub fn unlist_lines(
    filter: &mut Filter,
    host: u8,
    left: AnswersLeft,
    first: u32,
    low: u8,
    count: u8,
)
    requires host { host < filter.old.hosts }
    requires block { left.block.first.0 ≡ first }
    requires few { low + count ≤ 4 }
    requires lines { first + (low + count) ≤ filter.old.lines }
    requires small { filter.old.lines ≤ 65536 }
    ensures { filter.new ≡ record filter.old { rows = rows_unlisted host (range_with_len (first + low) count) left.left filter.old.rows } }
{
    if count > 0 {
        let mut left = left;
        if left.answer_line(low) {
            filter.set(Line(first + u32::from(low)), host, Listing::I);
        }
        unlist_lines(filter, host, left, first, low + 1, count - 1);
    }
}
