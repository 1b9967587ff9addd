// The version of a script's traces, and a writer of it.
ghost use Rattle.std.specs.Prelude.{◌≡◌};
ghost use Rattle.step_driver.specs.Outputs.{version_of};
ghost use Rattle.trace_stream.specs.Writing.{new_writing_in};

use cxl_codec::{Version, setup_fits_version_one};
use outside_io::Sink;
use script_text::Script;
use std::alloc::Global;
use trace_stream::TraceWriter;

/// The version of the traces of a script: 2 exactly where the script names a stream or has more than 64 tags (own rule).
pub fn trace_version(script: &Script) -> Version
    ensures { result ≡ version_of script.now }
{
    if setup_fits_version_one(script.setup()) && script.names().is_empty() {
        Version::One
    } else {
        Version::Two
    }
}

/// A new writer to a sink, of the version and with the names that a script's traces have. It writes nothing yet.
pub fn writer_for<'a, K: Sink>(
    alloc: Global,
    script: &'a Script,
    sink: &'a mut K,
) -> TraceWriter<'a, K>
    ensures { result ≡ new_writing_in (version_of script.now) script.now.names sink.entry.ghost_name (K.gone sink.old) (K.faults sink.old) (K.highest_count sink.old) }
{
    match TraceWriter::named(alloc, sink, trace_version(script), script.names()) {
        Ok(writer) => writer,
        Err(_) => unreachable!("a new writer is never refused"),
    }
}
