// The lines before the events: headers, names and openings.
ghost use Rattle.std.specs.Prelude.{◌≡◌, ◌+◌, ◌*◌, ◌≤◌, ◌++◌, OnErr, OnOk, length, vec_len, vec_capacity};
ghost use Rattle.cxl_view.specs.Traces.{header_lines, name_line, opening_line, setup_line, stream_line, stream_lines};

use crate::writing::{put, put_field, put_line_bytes};
use cxl_codec::Version;
use cxl_message::{Bytes64, Line, Setup};
use std::alloc::AllocError;

/// How many bytes the first line has at most.
const LONGEST_SETUP: usize = 190;
/// How many bytes the line of a stream has at most.
const LONGEST_STREAM: usize = 54;
/// How many bytes the lines of a header have at most.
const LONGEST_HEADER: usize = 3646;

/// Appends the lines of a header: the version and the numbers of the setup, and the host of each stream (own rule). The error
/// is want of memory, and `out` is then as before.
pub fn render_header(version: Version, setup: &Setup, out: &mut Vec<u8>) -> Result<(), AllocError>
    ensures ok { OnOk result (out.new.items ≡ out.old.items ++ header_lines version setup.now) }
    ensures err { OnErr result (out.new.items ≡ out.old.items) }
{
    out.reserve(LONGEST_HEADER)?;
    put_setup(out, version, setup);
    put_streams(out, setup.streams());
    Ok(())
}

/// Appends the first line. There is room for it.
fn put_setup(out: &mut Vec<u8>, version: Version, setup: &Setup)
    requires { vec_len out.old + LONGEST_SETUP ≤ vec_capacity out.old }
    ensures items { out.new.items ≡ out.old.items ++ setup_line version setup.now }
    ensures len { vec_len out.new ≤ vec_len out.old + LONGEST_SETUP }
    ensures capacity { vec_capacity out.old ≤ vec_capacity out.new }
{
    put_field(out, b"trace ", u64::from(version.number()));
    put_field(out, b" hosts ", u64::from(setup.hosts()));
    put_field(out, b" lines ", u64::from(setup.lines()));
    put_field(out, b" filter ", u64::from(setup.entries()));
    put_field(out, b" ways ", u64::from(setup.ways()));
    put_field(out, b" tags ", u64::from(setup.tags()));
    put_field(out, b" credits ", u64::from(setup.credits()));
    put(out, b"\n");
}

/// Appends the lines of the streams, at most 64. There is room for them.
fn put_streams(out: &mut Vec<u8>, hosts: &[u8])
    requires room { vec_len out.old + LONGEST_STREAM * length hosts.now ≤ vec_capacity out.old }
    requires few { length hosts.now ≤ 64 }
    ensures { out.new.items ≡ out.old.items ++ stream_lines 0 hosts.now }
{
    for stream in 0..hosts.len() {
        put_stream(out, stream as u64, hosts[stream]);
    }
}

/// Appends the line of a stream. There is room for it.
#[inline(always)]
fn put_stream(out: &mut Vec<u8>, stream: u64, host: u8)
    requires { vec_len out.old + LONGEST_STREAM ≤ vec_capacity out.old }
    ensures items { out.new.items ≡ out.old.items ++ stream_line stream host }
    ensures len { vec_len out.new ≤ vec_len out.old + LONGEST_STREAM }
    ensures capacity { vec_capacity out.old ≤ vec_capacity out.new }
{
    put_field(out, b"stream ", stream);
    put_field(out, b" host ", u64::from(host));
    put(out, b"\n");
}

/// Appends the line of a stream's name (own rule). The error is want of memory, and `out` is then as before.
pub fn render_name(stream: u8, name: &[u8], out: &mut Vec<u8>) -> Result<(), AllocError>
    ensures ok { OnOk result (out.new.items ≡ out.old.items ++ name_line (stream, name.now)) }
    ensures err { OnErr result (out.new.items ≡ out.old.items) }
{
    out.reserve(27 + name.len())?;
    put_field(out, b"name ", u64::from(stream));
    put(out, b" ");
    put(out, name);
    put(out, b"\n");
    Ok(())
}

/// Appends the line of an opening: a line that holds something else than zeros at first, and its bytes (own rule). The error is
/// want of memory, and `out` is then as before.
pub fn render_opening(line: Line, bytes: &Bytes64, out: &mut Vec<u8>) -> Result<(), AllocError>
    ensures ok { OnOk result (out.new.items ≡ out.old.items ++ opening_line (line, bytes.now)) }
    ensures err { OnErr result (out.new.items ≡ out.old.items) }
{
    out.reserve(155)?;
    put_field(out, b"open ", u64::from(line.0));
    put_line_bytes(out, b" ", &bytes.0);
    put(out, b"\n");
    Ok(())
}
