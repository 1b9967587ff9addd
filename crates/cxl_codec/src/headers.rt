// The header of a trace.
ghost use Rattle.std.specs.Prelude.{◌≡◌, ◌+◌, ◌≤◌, ◌++◌, IsTrue, IfErr, IfOk, OnErr, OnOk, vec_capacity, vec_len};
ghost use Rattle.cxl_message.specs.Setup.{IsWithinLimits};
ghost use Rattle.cxl_message.specs.declared.limits.TheConstants.{MAX_TAGS, MIN_TAGS};
ghost use Rattle.cxl_codec.specs.Cells.{bytes_of};
ghost use Rattle.cxl_codec.specs.Grammar.{BeginsWith, Refuses};
ghost use Rattle.cxl_codec.specs.Header.{HeaderFits, HeaderFitsIn, VersionedFits, header_cells, tags_cells, versioned_cells};
ghost use Rattle.cxl_codec.specs.VersionOne.{setup_fits_version_one};
ghost use Rattle.cxl_codec.specs.Versions.{setup_fits};
ghost use Rattle.cxl_codec.specs.Traces.{header_bytes, header_bytes_in};
ghost use Rattle.cxl_codec.specs.Reading.{Gives};
ghost use Rattle.cxl_codec.specs.ReadingFiles.{header_at, magic_at, setup_at, streams_at, tags_at, version_at, versioned_at};

use crate::faults::{Fault, refusal};
use crate::fields::FieldName;
use crate::reading::{read_free, read_run, read_u16, read_within};
use crate::refusals::DecodeRefusal;
use crate::version_one::MOST_SHORT_TAGS;
use crate::versions::Version;
use crate::writing::put;
use cxl_message::{MAX_CREDITS, MAX_HOSTS, MAX_STREAMS, MAX_TAGS, MIN_CREDITS, MIN_TAGS, Setup};
use std::alloc::AllocError;

/// The first of the two bytes of the greatest number of tags that a setup may have, 1,024.
const HIGHEST_TAGS: u8 = 4;

/// Appends the header of a trace of version 1 of this setup, as `encode_header_in` does. The setup has at most 64 tags.
pub fn encode_header(setup: &Setup, out: &mut Vec<u8>) -> Result<(), AllocError>
    requires version_one { IsTrue (setup_fits_version_one setup.now) }
    ensures ok { OnOk result (out.new.items ≡ out.old.items ++ header_bytes setup.now) }
    ensures fits { HeaderFits setup.now }
    ensures err { OnErr result (out.new.items ≡ out.old.items) }
{
    encode_header_in(Version::One, setup, out)
}

/// Appends the header of a trace of this setup, whose number of tags the version has room for: the four fixed bytes, the
/// version, the numbers of the setup and the host of each stream (own rule). The error is want of memory, and `out` is
/// then as before.
pub fn encode_header_in(
    version: Version,
    setup: &Setup,
    out: &mut Vec<u8>,
) -> Result<(), AllocError>
    requires version { IsTrue (setup_fits version setup.now) }
    ensures ok { OnOk result (out.new.items ≡ out.old.items ++ header_bytes_in version setup.now) }
    ensures fits { HeaderFitsIn version setup.now }
    ensures err { OnErr result (out.new.items ≡ out.old.items) }
{
    let streams = setup.streams();
    out.reserve(16 + streams.len())?;
    let [lines_high, lines_low] = ((setup.lines() - 1) as u16).to_be_bytes();
    let [entries_high, entries_low] = (setup.entries() - 1).to_be_bytes();
    let numbers = [
        b'C',
        b'X',
        b'L',
        b'T',
        version.number(),
        setup.hosts(),
        lines_high,
        lines_low,
        entries_high,
        entries_low,
        (setup.ways() - 1) as u8,
    ];
    put(out, &numbers);
    put_tags(out, version, setup.tags());
    put(out, &[setup.credits(), streams.len() as u8]);
    put(out, streams);
    Ok(())
}

/// Appends the number of tags of a setup, as wide as the version has it. There is room for it.
fn put_tags(out: &mut Vec<u8>, version: Version, tags: u16)
    requires room { vec_len out.old + 2 ≤ vec_capacity out.old }
    requires fits { version ≡ Version.One → tags ≤ 64 }
    ensures items { out.new.items ≡ out.old.items ++ bytes_of (tags_cells version tags) }
    ensures len { vec_len out.new ≤ vec_len out.old + 2 }
    ensures capacity { vec_capacity out.old ≤ vec_capacity out.new }
{
    match version {
        Version::One => put(out, &[tags as u8]),
        Version::Two => put(out, &tags.to_be_bytes()),
    }
}

/// Reads the header of version 1 at the front of the bytes, and answers the setup and how many bytes the header has. It
/// is Short exactly where the bytes are a proper prefix of some such header, and else refused at the first byte that no
/// header of version 1 can have after the bytes before it, by the field that stands there (own rule).
pub fn decode_header(bytes: &[u8]) -> Result<(Setup, usize), DecodeRefusal>
    ensures found { IfOk result (λ found. BeginsWith HeaderFits header_cells bytes.now found.0 found.1) }
    ensures refused { IfErr result (λ refusal. Refuses HeaderFits header_cells bytes.now refusal) }
{
    match read_header(bytes) {
        Ok(found) => Ok((found.0, bytes.len() - found.1.len())),
        Err(fault) => Err(refusal(bytes.len(), fault)),
    }
}

/// Reads the header of either version at the front of the bytes, and answers the version, the setup and how many bytes
/// the header has. It refuses as `decode_header` does, by the headers of both versions (own rule).
pub fn decode_header_in(bytes: &[u8]) -> Result<(Version, Setup, usize), DecodeRefusal>
    ensures found { IfOk result (λ found. BeginsWith VersionedFits versioned_cells bytes.now (found.0, found.1) found.2) }
    ensures refused { IfErr result (λ refusal. Refuses VersionedFits versioned_cells bytes.now refusal) }
{
    match read_versioned(bytes) {
        Ok(found) => Ok((found.0, found.1, bytes.len() - found.2.len())),
        Err(fault) => Err(refusal(bytes.len(), fault)),
    }
}

/// Reads a header of version 1.
#[tactic(auto, unfolding(crate::specs::ReadingFiles::header_at))]
fn read_header(bytes: &[u8]) -> Result<(Setup, &[u8]), Fault>
    ensures { Gives (λ x. (x.0, x.1.now)) result (header_at bytes.now) }
{
    let (_, rest) = read_magic(bytes)?;
    let (_, rest) = read_within(rest, FieldName::Version, 1, 1)?;
    match read_setup(Version::One, rest) {
        Ok((setup, rest)) => Ok((setup, rest)),
        Err(fault) => Err(fault),
    }
}

/// Reads a header of either version.
#[tactic(auto, unfolding(crate::specs::ReadingFiles::versioned_at))]
fn read_versioned(bytes: &[u8]) -> Result<(Version, Setup, &[u8]), Fault>
    ensures { Gives (λ x. ((x.0, x.1), x.2.now)) result (versioned_at bytes.now) }
{
    let (_, rest) = read_magic(bytes)?;
    let (version, rest) = read_version(rest)?;
    match read_setup(version, rest) {
        Ok((setup, rest)) => Ok((version, setup, rest)),
        Err(fault) => Err(fault),
    }
}

/// Reads the version of a header.
fn read_version(bytes: &[u8]) -> Result<(Version, &[u8]), Fault>
    ensures { Gives (λ x. (x.0, x.1.now)) result (version_at bytes.now) }
{
    match bytes {
        [] => Err(Fault::Short),
        [1, rest @ ..] => Ok((Version::One, rest)),
        [2, rest @ ..] => Ok((Version::Two, rest)),
        _ => Err(Fault::Field {
            left: bytes.len(),
            which: FieldName::Version,
        }),
    }
}

/// Reads the setup behind the version of a header.
#[tactic(auto, unfolding(crate::specs::ReadingFiles::setup_at))]
fn read_setup(version: Version, bytes: &[u8]) -> Result<(Setup, &[u8]), Fault>
    ensures { Gives (λ x. (x.0, x.1.now)) result (setup_at version bytes.now) }
{
    let (hosts, rest) = read_within(bytes, FieldName::Hosts, 1, MAX_HOSTS)?;
    let (lines, rest) = read_u16(rest)?;
    let (high, rest) = read_within(rest, FieldName::Entries, 0, 15)?;
    let (low, rest) = read_free(rest)?;
    let (ways, rest) = read_free(rest)?;
    let (tags, rest) = read_tags(version, rest)?;
    let (credits, rest) = read_within(rest, FieldName::Credits, MIN_CREDITS, MAX_CREDITS)?;
    let (streams, rest) = read_streams(hosts, rest)?;
    let lines = u32::from(lines) + 1;
    let entries = 256 * u16::from(high) + u16::from(low) + 1;
    let ways = u16::from(ways) + 1;
    let setup = setup_within(hosts, lines, entries, ways, tags, credits, streams);
    Ok((setup, rest))
}

/// Reads the number of tags of a setup, as wide as the version has it.
#[tactic(auto, unfolding(crate::specs::ReadingFiles::tags_at))]
fn read_tags(version: Version, bytes: &[u8]) -> Result<(u16, &[u8]), Fault>
    ensures gives { Gives (λ x. (x.0, x.1.now)) result (tags_at version bytes.now) }
    ensures limits { IfOk result (λ x. (MIN_TAGS ≤ x.0) × (x.0 ≤ MAX_TAGS)) }
{
    match version {
        Version::One => {
            let most = MOST_SHORT_TAGS as u8;
            let (tags, rest) = read_within(bytes, FieldName::Tags, MIN_TAGS as u8, most)?;
            Ok((u16::from(tags), rest))
        }
        Version::Two => {
            let (high, rest) = read_within(bytes, FieldName::Tags, 0, HIGHEST_TAGS)?;
            let least = if high == 0 { MIN_TAGS as u8 } else { 0 };
            let most = if high == HIGHEST_TAGS { 0 } else { 255 };
            let (low, rest) = read_within(rest, FieldName::Tags, least, most)?;
            Ok((256 * u16::from(high) + u16::from(low), rest))
        }
    }
}

/// Reads the four bytes that begin every trace.
#[tactic(auto, unfolding(crate::specs::ReadingFiles::magic_at))]
fn read_magic(bytes: &[u8]) -> Result<(u8, &[u8]), Fault>
    ensures { Gives (λ x. (x.0, x.1.now)) result (magic_at bytes.now) }
{
    let (_, rest) = read_within(bytes, FieldName::Magic, b'C', b'C')?;
    let (_, rest) = read_within(rest, FieldName::Magic, b'X', b'X')?;
    let (_, rest) = read_within(rest, FieldName::Magic, b'L', b'L')?;
    let (last, rest) = read_within(rest, FieldName::Magic, b'T', b'T')?;
    Ok((last, rest))
}

/// Reads the number of streams, and the host of each: one of so many hosts.
#[tactic(auto, unfolding(crate::specs::ReadingFiles::streams_at))]
fn read_streams(hosts: u8, bytes: &[u8]) -> Result<(&[u8], &[u8]), Fault>
    requires { 1 ≤ hosts }
    ensures { Gives (λ x. (x.0.now, x.1.now)) result (streams_at hosts bytes.now) }
{
    let (count, rest) = read_within(bytes, FieldName::StreamCount, 0, MAX_STREAMS)?;
    let (streams, rest) = read_run(rest, FieldName::StreamHost, hosts - 1, count as usize)?;
    Ok((streams, rest))
}

/// The setup of these numbers, which are within their limits.
fn setup_within(
    hosts: u8,
    lines: u32,
    entries: u16,
    ways: u16,
    tags: u16,
    credits: u8,
    streams: &[u8],
) -> Setup
    requires { IsWithinLimits (record { hosts = hosts; lines = lines; entries = entries; ways = ways; tags = tags; credits = credits; streams = streams.now }) }
    ensures { result ≡ record { hosts = hosts; lines = lines; entries = entries; ways = ways; tags = tags; credits = credits; streams = streams.now } }
{
    match Setup::new(hosts, lines, entries, ways, tags, credits, streams) {
        Ok(setup) => setup,
        Err(_) => unreachable!("the numbers are within their limits"),
    }
}
