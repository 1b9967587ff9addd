// The fields of records, read at the front of some bytes. Each reader gives the value and the bytes after it, or the
// first fault.
ghost use Rattle.std.specs.Prelude.{◌≡◌, ◌↔◌, ◌≤◌, ◌==◌, true, false, find, replicate, IfOk, IsTrue};
ghost use Rattle.std.specs.Int.{w16, w32, w64};
ghost use Rattle.cxl_message.specs.Codes.{meta_code, snoop_type_code, channel_code, span_len};
ghost use Rattle.cxl_message.specs.Formed.{is_block_snoop};
ghost use Rattle.cxl_codec.specs.Kinds.{metas, snoop_types, credit_channels};
ghost use Rattle.cxl_codec.specs.Reading.{Gives, field_of, within, number_at, free_at, payload_at, run_at, meta_at, snoop_type_at, channel_at, spans_of, span_at};
ghost use Rattle.cxl_codec.specs.Versions.{tag_width};

use crate::faults::Fault;
use crate::fields::FieldName;
use crate::versions::Version;
use cxl_message::{BiTag, Channel, Line, Meta, SnpOp, SnpType, Span, Tag};

/// A byte of a field that is a number within these limits.
#[inline(always)]
pub fn read_within(
    bytes: &[u8],
    which: FieldName,
    least: u8,
    most: u8,
) -> Result<(u8, &[u8]), Fault>
    ensures gives { Gives (λ x. (x.0, x.1.now)) result (field_of which (within least most) bytes.now) }
    ensures limits { IfOk result (λ x. (least ≤ x.0) × (x.0 ≤ most)) }
{
    match bytes {
        [] => Err(Fault::Short),
        [byte, rest @ ..] => {
            if least <= *byte && *byte <= most {
                Ok((*byte, rest))
            } else {
                Err(Fault::Field {
                    left: bytes.len(),
                    which,
                })
            }
        }
    }
}

/// A byte of any value.
#[inline(always)]
pub fn read_free(bytes: &[u8]) -> Result<(u8, &[u8]), Fault>
    ensures { Gives (λ x. (x.0, x.1.now)) result (free_at bytes.now) }
{
    match bytes {
        [] => Err(Fault::Short),
        [byte, rest @ ..] => Ok((*byte, rest)),
    }
}

/// A number of 16 bits.
#[inline(always)]
pub fn read_u16(bytes: &[u8]) -> Result<(u16, &[u8]), Fault>
    ensures { Gives (λ x. (x.0, x.1.now)) result (number_at w16 bytes.now) }
{
    if bytes.len() < 2 {
        return Err(Fault::Short);
    }
    let (front, rest) = bytes.split_at(2);
    Ok((u16::from_be_bytes([front[0], front[1]]), rest))
}

/// A number of 32 bits.
#[inline(always)]
pub fn read_u32(bytes: &[u8]) -> Result<(u32, &[u8]), Fault>
    ensures { Gives (λ x. (x.0, x.1.now)) result (number_at w32 bytes.now) }
{
    if bytes.len() < 4 {
        return Err(Fault::Short);
    }
    let (front, rest) = bytes.split_at(4);
    let number = u32::from_be_bytes([front[0], front[1], front[2], front[3]]);
    Ok((number, rest))
}

/// A number of 64 bits.
#[inline(always)]
pub fn read_u64(bytes: &[u8]) -> Result<(u64, &[u8]), Fault>
    ensures { Gives (λ x. (x.0, x.1.now)) result (number_at w64 bytes.now) }
{
    if bytes.len() < 8 {
        return Err(Fault::Short);
    }
    let (front, rest) = bytes.split_at(8);
    let number = u64::from_be_bytes([
        front[0], front[1], front[2], front[3], front[4], front[5], front[6], front[7],
    ]);
    Ok((number, rest))
}

/// A Tag, as wide as the version has it.
#[inline(always)]
pub fn read_tag(version: Version, bytes: &[u8]) -> Result<(Tag, &[u8]), Fault>
    ensures { Gives (λ x. (x.0.0, x.1.now)) result (number_at (tag_width version) bytes.now) }
{
    match version {
        Version::One => {
            let (number, rest) = read_u16(bytes)?;
            Ok((Tag(u32::from(number)), rest))
        }
        Version::Two => {
            let (number, rest) = read_u32(bytes)?;
            Ok((Tag(number), rest))
        }
    }
}

/// A BITag.
#[inline(always)]
pub fn read_bitag(bytes: &[u8]) -> Result<(BiTag, &[u8]), Fault>
    ensures { Gives (λ x. (x.0.0, x.1.now)) result (number_at w16 bytes.now) }
{
    let (number, rest) = read_u16(bytes)?;
    Ok((BiTag(number), rest))
}

/// The number of a line.
#[inline(always)]
pub fn read_line(bytes: &[u8]) -> Result<(Line, &[u8]), Fault>
    ensures { Gives (λ x. (x.0.0, x.1.now)) result (number_at w32 bytes.now) }
{
    let (number, rest) = read_u32(bytes)?;
    Ok((Line(number), rest))
}

/// The 64 bytes of a line, where they stand.
#[inline(always)]
pub fn read_payload(bytes: &[u8]) -> Result<(&[u8; 64], &[u8]), Fault>
    ensures { Gives (λ x. (record { 0 = x.0.now }, x.1.now)) result (payload_at bytes.now) }
{
    match bytes.split_first_chunk::<64>() {
        None => Err(Fault::Short),
        Some((front, rest)) => Ok((front, rest)),
    }
}

/// A Meta0-State value.
#[inline(always)]
pub fn read_meta(bytes: &[u8]) -> Result<(Meta, &[u8]), Fault>
    ensures { Gives (λ x. (x.0, x.1.now)) result (meta_at bytes.now) }
{
    match bytes {
        [] => Err(Fault::Short),
        [0, rest @ ..] => Ok((Meta::Invalid, rest)),
        [1, rest @ ..] => Ok((Meta::Any, rest)),
        [2, rest @ ..] => Ok((Meta::Shared, rest)),
        _ => Err(Fault::Field {
            left: bytes.len(),
            which: FieldName::Meta,
        }),
    }
}

/// A snoop type.
#[inline(always)]
pub fn read_snoop_type(bytes: &[u8]) -> Result<(SnpType, &[u8]), Fault>
    ensures { Gives (λ x. (x.0, x.1.now)) result (snoop_type_at bytes.now) }
{
    match bytes {
        [] => Err(Fault::Short),
        [0, rest @ ..] => Ok((SnpType::NoOp, rest)),
        [1, rest @ ..] => Ok((SnpType::SnpData, rest)),
        [2, rest @ ..] => Ok((SnpType::SnpCur, rest)),
        [3, rest @ ..] => Ok((SnpType::SnpInv, rest)),
        _ => Err(Fault::Field {
            left: bytes.len(),
            which: FieldName::SnpType,
        }),
    }
}

/// A channel with credits.
#[inline(always)]
pub fn read_channel(bytes: &[u8]) -> Result<(Channel, &[u8]), Fault>
    ensures { Gives (λ x. (x.0, x.1.now)) result (channel_at bytes.now) }
{
    match bytes {
        [] => Err(Fault::Short),
        [1, rest @ ..] => Ok((Channel::Req, rest)),
        [2, rest @ ..] => Ok((Channel::Rwd, rest)),
        [3, rest @ ..] => Ok((Channel::BiRsp, rest)),
        [4, rest @ ..] => Ok((Channel::Ndr, rest)),
        [5, rest @ ..] => Ok((Channel::Drs, rest)),
        [6, rest @ ..] => Ok((Channel::BiSnp, rest)),
        _ => Err(Fault::Field {
            left: bytes.len(),
            which: FieldName::Channel,
        }),
    }
}

/// The span of a snoop: one line, or for a block two or four.
#[inline(always)]
pub fn read_span(op: SnpOp, bytes: &[u8]) -> Result<(Span, &[u8]), Fault>
    ensures { Gives (λ x. (x.0, x.1.now)) result (span_at op bytes.now) }
{
    match op {
        SnpOp::Cur | SnpOp::Dat | SnpOp::Inv => read_single_span(bytes),
        SnpOp::CurBlk | SnpOp::DatBlk | SnpOp::InvBlk => read_block_span(bytes),
    }
}

/// The span of a snoop of one line.
#[inline(always)]
fn read_single_span(bytes: &[u8]) -> Result<(Span, &[u8]), Fault>
    ensures { Gives (λ x. (x.0, x.1.now)) result (field_of FieldName.Span (λ b. find (λ s. span_len s == b) (spans_of false)) bytes.now) }
{
    match bytes {
        [] => Err(Fault::Short),
        [1, rest @ ..] => Ok((Span::One, rest)),
        _ => Err(Fault::Field {
            left: bytes.len(),
            which: FieldName::Span,
        }),
    }
}

/// The span of a block snoop.
#[inline(always)]
fn read_block_span(bytes: &[u8]) -> Result<(Span, &[u8]), Fault>
    ensures { Gives (λ x. (x.0, x.1.now)) result (field_of FieldName.Span (λ b. find (λ s. span_len s == b) (spans_of true)) bytes.now) }
{
    match bytes {
        [] => Err(Fault::Short),
        [2, rest @ ..] => Ok((Span::Two, rest)),
        [4, rest @ ..] => Ok((Span::Four, rest)),
        _ => Err(Fault::Field {
            left: bytes.len(),
            which: FieldName::Span,
        }),
    }
}

/// So many bytes of a field, none of them above the limit.
pub fn read_run(
    bytes: &[u8],
    which: FieldName,
    most: u8,
    count: usize,
) -> Result<(&[u8], &[u8]), Fault>
    ensures { Gives (λ x. (x.0.now, x.1.now)) result (run_at which most count bytes.now) }
{
    for i in 0..count {
        if bytes.len() <= i {
            return Err(Fault::Short);
        }
        if bytes[i] > most {
            return Err(Fault::Field {
                left: bytes.len() - i,
                which,
            });
        }
    }
    Ok(bytes.split_at(count))
}

/// The 64 bytes of a BIConflict's payload, all of them zero. They are compared at once, and one by one only to find the
/// first that isn't zero.
#[inline(always)]
pub fn read_zeros(bytes: &[u8]) -> Result<(&[u8], &[u8]), Fault>
    ensures { Gives (λ x. (x.0.now, x.1.now)) result (run_at FieldName.Payload 0 64 bytes.now) }
{
    if let Ok((front, rest)) = read_payload(bytes)
        && all_zero(front)
    {
        return Ok((front, rest));
    }
    read_run(bytes, FieldName::Payload, 0, 64)
}

/// Whether 64 bytes are all zero.
#[inline(always)]
fn all_zero(bytes: &[u8; 64]) -> bool
    ensures { IsTrue result ↔ (bytes.now ≡ replicate 64 0) }
{
    *bytes == [0; 64]
}
