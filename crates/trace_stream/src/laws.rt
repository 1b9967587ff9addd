// Laws of whole inputs. The functions do nothing.
ghost use Rattle.trace_stream.specs.Laws.{OneFault, OneList, OneReading, TracesAreRead, TracesHaveNoFault};

use cxl_codec::one_answer;

/// Bytes are read in one way: at each point they say one thing, they have one list of items up to where they want more
/// or have a fault, and one fault. So it doesn't matter how they were cut into pieces (own rule).
pub fn one_reading()
    ensures says { OneReading }
    ensures items { OneList }
    ensures fault { OneFault }
{
    one_answer();
}

/// A trace is read as its header, openings, events and end record, all of it, and has no fault. So a reader that has a
/// fault, at its place, says that the bytes are no trace (own rule).
pub fn traces_are_read()
    ensures items { TracesAreRead }
    ensures fault { TracesHaveNoFault }
{
    one_answer();
}
