// Bytes at the end of a vector that has room for them.
ghost use Rattle.std.specs.Prelude.{◌≡◌, ◌+◌, ◌≤◌, ◌<◌, ◌++◌, IsTrue, length, vec_len, vec_capacity};
ghost use Rattle.cxl_codec.specs.Cells.{bytes_of, number, payload};
ghost use Rattle.cxl_codec.specs.Openings.{IsPayload};
ghost use Rattle.cxl_codec.specs.Versions.{tag_fits, tag_limit, tag_width};

use crate::versions::Version;
use cxl_message::Tag;

/// Appends the bytes. There is room for them.
#[inline(always)]
pub fn put(out: &mut Vec<u8>, bytes: &[u8])
    requires { vec_len out.old + length bytes.now ≤ vec_capacity out.old }
    ensures items { out.new.items ≡ out.old.items ++ bytes.now }
    ensures len { vec_len out.new ≡ vec_len out.old + length bytes.now }
    ensures capacity { vec_capacity out.old ≤ vec_capacity out.new }
{
    let _ = out.extend_from_slice(bytes);
}

/// Appends the 64 bytes of a line. There is room for them.
#[inline(always)]
#[tactic(auto, using(crate::proofs::CellBytes::bytes_of_free))]
pub fn put_payload(out: &mut Vec<u8>, bytes: &[u8; 64])
    requires { vec_len out.old + 64 ≤ vec_capacity out.old }
    ensures items { out.new.items ≡ out.old.items ++ bytes_of (payload (record { 0 = bytes.now })) }
    ensures range { IsPayload (record { 0 = bytes.now }) }
    ensures len { vec_len out.new ≡ vec_len out.old + 64 }
    ensures capacity { vec_capacity out.old ≤ vec_capacity out.new }
{
    put(out, bytes);
}

/// Appends a Tag, as wide as the version has it. There is room for it.
#[inline(always)]
#[tactic(auto, using(crate::proofs::CellBytes::bytes_of_free))]
pub fn put_tag(out: &mut Vec<u8>, version: Version, tag: Tag)
    requires room { vec_len out.old + 4 ≤ vec_capacity out.old }
    requires fits { IsTrue (tag_fits version tag.0) }
    ensures items { out.new.items ≡ out.old.items ++ bytes_of (number (tag_width version) tag.0) }
    ensures range { tag.0 < tag_limit version }
    ensures len { vec_len out.new ≤ vec_len out.old + 4 }
    ensures capacity { vec_capacity out.old ≤ vec_capacity out.new }
{
    match version {
        Version::One => put(out, &(tag.0 as u16).to_be_bytes()),
        Version::Two => put(out, &tag.0.to_be_bytes()),
    }
}
