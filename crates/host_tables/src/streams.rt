// How far a stream is.
use std::marker::Model;

/// How far a stream is: how many operations it began, and whether the last one has no commit yet.
#[derive(Clone, Copy)]
pub struct StreamPlace {
    pub begun: u32,
    pub waits: bool,
}

impl Model for StreamPlace {
    ghost use Rattle.host_record.specs.HostRecord.{StreamPlace as Place};
    ghost use Rattle.host_tables.specs.Kept.{place_inside};

    ghost Value = { Place };

    ghost view = { λ p. record { begun = p.begun; waits = p.waits } };

    ghost inverse = { place_inside };
}

/// A stream that began nothing.
pub const IDLE: StreamPlace = StreamPlace {
    begun: 0,
    waits: false,
};

ghost use Rattle.std.specs.Prelude.{◌+◌, ◌<◌, ◌^◌, ◌≡◌};
ghost use Rattle.host_record.specs.HostChanges.{stream_begins, stream_ends};
ghost use Rattle.host_record.specs.HostRecord.{stream_in};

/// How far a stream is: nothing where there is no such stream.
pub fn place_of(streams: &[StreamPlace], stream: u8) -> StreamPlace
    ensures { result ≡ stream_in streams.now stream }
{
    match streams.get(stream as usize) {
        Some(place) => *place,
        None => IDLE,
    }
}

/// A stream has its commit.
pub fn end_stream(streams: &mut [StreamPlace], stream: u8)
    ensures { streams.new ≡ stream_ends stream streams.old }
{
    let begun = place_of(streams, stream).begun;
    let at = stream as usize;
    if at < streams.len() {
        streams[at] = StreamPlace {
            begun,
            waits: false,
        };
    }
}

/// A stream began an operation, which has its commit or waits for it.
pub fn begin_stream(streams: &mut [StreamPlace], stream: u8, waits: bool)
    requires { (stream_in streams.old stream).begun + 1 < 2 ^ 32 }
    ensures { streams.new ≡ stream_begins stream waits streams.old }
{
    let begun = place_of(streams, stream).begun + 1;
    let at = stream as usize;
    if at < streams.len() {
        streams[at] = StreamPlace { begun, waits };
    }
}
