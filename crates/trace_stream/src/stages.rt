// Where a trace stands after the records that were read.
ghost use Rattle.std.specs.Prelude.{◌≡◌, ◌+◌, ◌^◌, ◌<◌, ◌≤◌, ℕ, IsTrue};
ghost use Rattle.trace_stream.specs.declared.items.Item.{Item};
ghost use Rattle.arrayvec.specs.ArrayVec.{ArrayVec};
ghost use Rattle.trace_stream.specs.Items.{IsBelow, advance, after_header as stage_after_header, event_count, is_one as is_version_one, item_of, lines_of, may_name as may_name_at, may_open as may_open_at, opens_well as opens_well_at, record_fault, streams_of, takes_events as may_take_events, takes_openings as may_take_openings, version_of};

use crate::items::{Found, Reason};
use crate::rooms::Room;
use cxl_codec::Version;
use cxl_message::{Bytes64, Line, Setup};

/// What the records that were read say of the next ones (own rule).
#[derive(Clone, Copy, PartialEq, Eq, Debug)]
pub enum Stage {
    /// None was read: the header comes.
    Start,
    /// The header of version 2 of a setup of so many streams and lines was read, and perhaps names: a stream that is
    /// named is at least `next`.
    Names {
        streams: u8,
        lines: u32,
        next: u8,
    },
    /// The header of a setup of so many lines was read, and perhaps names and openings: a line that is opened is at least
    /// `next`.
    Openings {
        version: Version,
        lines: u32,
        next: u32,
    },
    /// So many events were read, one at least.
    Events {
        version: Version,
        count: u64,
    },
    /// The end record was read, behind so many events.
    Ended {
        count: u64,
    },
}

/// How many events were read.
#[inline(always)]
pub fn events_read(stage: Stage) -> u64
    ensures { result ≡ event_count stage }
{
    match stage {
        Stage::Start | Stage::Names { .. } | Stage::Openings { .. } => 0,
        Stage::Events { count, .. } | Stage::Ended { count } => count,
    }
}

/// The version of a trace at a stage, where it is known.
#[inline(always)]
fn version_at(stage: Stage) -> Version
    ensures { result ≡ version_of stage }
{
    match stage {
        Stage::Start | Stage::Ended { .. } => Version::One,
        Stage::Names { .. } => Version::Two,
        Stage::Openings { version, .. } | Stage::Events { version, .. } => version,
    }
}

/// Whether an event of version 1 may come next.
#[inline(always)]
pub fn takes_events(stage: Stage) -> bool
    ensures { result ≡ may_take_events stage }
{
    match stage {
        Stage::Start | Stage::Names { .. } | Stage::Ended { .. } => false,
        Stage::Openings { version, .. } | Stage::Events { version, .. } => is_one(version),
    }
}

/// Whether it is version 1.
#[inline(always)]
fn is_one(version: Version) -> bool
    ensures { result ≡ is_version_one version }
{
    match version {
        Version::One => true,
        Version::Two => false,
    }
}

/// Whether an opening may come next.
#[inline(always)]
pub fn takes_openings(stage: Stage) -> bool
    ensures { result ≡ may_take_openings stage }
{
    match stage {
        Stage::Names { .. } | Stage::Openings { .. } => true,
        Stage::Start | Stage::Events { .. } | Stage::Ended { .. } => false,
    }
}

/// How many streams the setup has, as long as streams may be named.
#[inline(always)]
fn streams_left(stage: Stage) -> u8
    ensures { result ≡ streams_of stage }
{
    match stage {
        Stage::Names { streams, .. } => streams,
        Stage::Start | Stage::Openings { .. } | Stage::Events { .. } | Stage::Ended { .. } => 0,
    }
}

/// How many lines the setup has, as long as lines may be opened.
#[inline(always)]
fn lines_left(stage: Stage) -> u32
    ensures { result ≡ lines_of stage }
{
    match stage {
        Stage::Names { lines, .. } | Stage::Openings { lines, .. } => lines,
        Stage::Start | Stage::Events { .. } | Stage::Ended { .. } => 0,
    }
}

/// Whether a stream may be named: it exists and is greater than those before it.
#[inline(always)]
fn may_name(stage: Stage, stream: u8) -> bool
    ensures { result ≡ may_name_at stage stream }
{
    match stage {
        Stage::Names { streams, next, .. } => next <= stream && stream < streams,
        Stage::Start | Stage::Openings { .. } | Stage::Events { .. } | Stage::Ended { .. } => false,
    }
}

/// Whether a line exists among so many, is greater than those before it, and these bytes aren't all zeros.
#[inline(always)]
fn opens_well(lines: u32, next: u32, line: Line, bytes: &Bytes64) -> bool
    ensures { result ≡ opens_well_at lines next line.0 bytes.now }
{
    next <= line.0 && line.0 < lines && !(*bytes == Bytes64([0; 64]))
}

/// Whether a line may be opened with these bytes.
#[inline(always)]
fn may_open(stage: Stage, line: Line, bytes: &Bytes64) -> bool
    ensures { result ≡ may_open_at stage line.0 bytes.now }
{
    match stage {
        Stage::Names { lines, .. } => opens_well(lines, 0, line, bytes),
        Stage::Openings { lines, next, .. } => opens_well(lines, next, line, bytes),
        Stage::Start | Stage::Events { .. } | Stage::Ended { .. } => false,
    }
}

/// Why a whole record is refused at its first byte, if it is.
#[inline(always)]
pub fn refused_whole(stage: Stage, found: Found, room: &Room) -> Option<Reason>
    ensures { result ≡ record_fault stage (item_of room.now found) }
{
    match found {
        Found::Header => None,
        Found::Name => refused_name(stage, room.stream),
        Found::Opened => refused_opening(stage, room.line, &room.bytes),
        Found::Event => None,
        Found::End { count } => refused_end(stage, count),
        Found::More => None,
    }
}

/// Why a name is refused, if it is.
#[inline(always)]
fn refused_name(stage: Stage, stream: u8) -> Option<Reason>
    ensures { (name : ArrayVec ℕ) → result ≡ record_fault stage (Item.Name stream name) }
{
    if may_name(stage, stream) {
        None
    } else {
        Some(Reason::Name)
    }
}

/// Why an opening is refused, if it is.
#[inline(always)]
fn refused_opening(stage: Stage, line: Line, bytes: &Bytes64) -> Option<Reason>
    ensures { result ≡ record_fault stage (Item.Opened line bytes.now) }
{
    if may_open(stage, line, bytes) {
        None
    } else {
        Some(Reason::Opening)
    }
}

/// Why an end record is refused, if it is.
#[inline(always)]
fn refused_end(stage: Stage, count: u64) -> Option<Reason>
    ensures { result ≡ record_fault stage (Item.End count) }
{
    if count == events_read(stage) {
        None
    } else {
        Some(Reason::Count)
    }
}

/// The stage after an item.
#[inline(always)]
pub fn advanced(stage: Stage, found: Found, room: &Room) -> Stage
    requires count { event_count stage + 1 < 2 ^ 64 }
    requires opening { IsBelow room.now found }
    ensures { result ≡ advance stage (item_of room.now found) }
{
    match found {
        Found::Header => after_header(room.version, &room.setup),
        Found::Name => after_name(stage, room.stream),
        Found::Opened => after_opening(stage, room.line),
        Found::Event => Stage::Events {
            version: version_at(stage),
            count: events_read(stage) + 1,
        },
        Found::End { count } => Stage::Ended { count },
        Found::More => stage,
    }
}

/// The stage after the header of a setup.
#[inline(always)]
fn after_header(version: Version, setup: &Setup) -> Stage
    ensures { result ≡ stage_after_header version setup.now }
{
    let lines = setup.lines();
    match version {
        Version::One => Stage::Openings {
            version: Version::One,
            lines,
            next: 0,
        },
        Version::Two => Stage::Names {
            streams: setup.streams().len() as u8,
            lines,
            next: 0,
        },
    }
}

/// The stage after a stream was named.
#[inline(always)]
fn after_name(stage: Stage, stream: u8) -> Stage
    requires { stream < 64 }
    ensures { result ≡ Stage.Names (streams_of stage) (lines_of stage) (stream + 1) }
{
    Stage::Names {
        streams: streams_left(stage),
        lines: lines_left(stage),
        next: stream + 1,
    }
}

/// The stage after a line was opened.
#[inline(always)]
fn after_opening(stage: Stage, line: Line) -> Stage
    requires { line.0 + 1 < 2 ^ 32 }
    ensures { result ≡ Stage.Openings (version_of stage) (lines_of stage) (line.0 + 1) }
{
    Stage::Openings {
        version: version_at(stage),
        lines: lines_left(stage),
        next: line.0 + 1,
    }
}
