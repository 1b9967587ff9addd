ghost use Rattle.std.specs.Prelude.{◌≡◌, ℕ, ◌+◌, ◌^◌, ◌<◌, length, None};
ghost use Rattle.std.specs.Io.{ReadsAtMost, WritesAtMost};
ghost use Rattle.std.specs.Io.KnownBytes.{ReadConsumes, WriteAppends};
ghost use Rattle.outside_io.specs.Counts.{TakesSome, error_count};

use crate::{Failed, Sink, Source};
use std::io::{Read, Write};

/// A source over a reader of std, as the runtime's standard input (own rule).
///
/// It doesn't tell what is left. Each error of the reader is a fault, also an interruption.
#[derive(Debug, Drop)]
pub struct StdSource<I> {
    input: I,
    faults: u64,
}

impl<I: Read> StdSource<I> {
    ghost use Rattle.outside_io.specs.Standard.{reader_of, source_faults};

    /// A source of what `input` gives.
    pub fn new(input: I) -> StdSource<I>
        ensures reader { reader_of result ≡ input }
        ensures faults { source_faults result ≡ 0 }
    {
        StdSource { input, faults: 0 }
    }
}

impl<I: Read> Source for StdSource<I> {
    ghost use Rattle.outside_io.specs.Standard.{reader_of, source_faults};

    ghost left = { λ _. None };

    ghost faults = { source_faults };

    ghost highest_count = { source_faults };

    /// One read of the reader.
    fn read(&mut self, into: &mut [u8]) -> Result<usize, Failed>
        requires { source_faults self.old + 1 < 2 ^ 63 }
        ensures within { ReadsAtMost result into.new }
        ensures passed { ReadConsumes (I.remaining (reader_of self.old)) (I.remaining (reader_of self.new)) result into.new }
        ensures counted { source_faults self.new ≡ source_faults self.old + error_count result }
    {
        match self.input.read(into) {
            Ok(count) => Ok(count),
            Err(_) => {
                self.faults += 1;
                Err(Failed)
            }
        }
    }
}

/// A sink over a writer of std, as the runtime's standard output (own rule).
///
/// It doesn't tell what has gone. Each error of the writer is a fault, also an interruption, and so is a write of
/// bytes of which the writer takes none.
///
/// The writer has to hand on what it takes at once, as the runtime's standard output does. One that keeps bytes back,
/// as a `BufWriter`, answers before they are out, and nobody would count what fails later: where one is wanted, lend
/// it here as a `&mut`, flush it afterwards, and take an error of that flush as a failed write.
#[derive(Debug, Drop)]
pub struct StdSink<O> {
    output: O,
    faults: u64,
}

impl<O: Write> StdSink<O> {
    ghost use Rattle.outside_io.specs.Standard.{writer_of, sink_faults};

    /// A sink that passes on to `output`.
    pub fn new(output: O) -> StdSink<O>
        ensures writer { writer_of result ≡ output }
        ensures faults { sink_faults result ≡ 0 }
    {
        StdSink { output, faults: 0 }
    }
}

impl<O: Write> Sink for StdSink<O> {
    ghost use Rattle.outside_io.specs.Standard.{writer_of, sink_faults};

    ghost gone = { λ _. None };

    ghost faults = { sink_faults };

    ghost highest_count = { sink_faults };

    /// One write of the writer. `Err` also where it takes none of some bytes.
    fn write(&mut self, from: &[u8]) -> Result<usize, Failed>
        requires { sink_faults self.old + length from.now + 1 < 2 ^ 63 }
        ensures within { WritesAtMost result from.now }
        ensures progress { TakesSome result from.now }
        ensures passed { WriteAppends (O.contents (writer_of self.old)) (O.contents (writer_of self.new)) result from.now }
        ensures counted { sink_faults self.new ≡ sink_faults self.old + error_count result }
    {
        match self.output.write(from) {
            Ok(count) if count > 0 || from.is_empty() => Ok(count),
            _ => {
                self.faults += 1;
                Err(Failed)
            }
        }
    }
}
