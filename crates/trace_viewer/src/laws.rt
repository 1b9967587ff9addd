// Laws of what is shown. The functions do nothing.
ghost use Rattle.trace_viewer.specs.Laws.{FrontsHaveFaults, ItemsAreShown, OneView, TracesAreShown};

use cxl_codec::one_trace;
use trace_stream::{one_reading, traces_are_read};

/// The text of a trace's items is the front of the shown trace: its header, names, openings and events, each event with the number
/// of those before it (own rule).
pub fn items_are_shown()
    ensures { ItemsAreShown }
{}

/// Bytes are viewed as one thing, a trace or a fault, and one text is shown of them. So it doesn't matter how they were cut into
/// pieces (own rule).
pub fn one_view()
    ensures { OneView }
{
    one_trace();
    one_reading();
    traces_are_read();
}

/// A trace is viewed whole, and what is shown of it is its text. Where a front alone is shown the bytes are no trace, and the fault
/// is the first place where they aren't (own rule).
pub fn traces_are_shown()
    ensures shown { TracesAreShown }
    ensures fault { FrontsHaveFaults }
{
    one_view();
}
