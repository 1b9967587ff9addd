// Free Tags.
ghost use Rattle.std.specs.Prelude.{◌+◌, ◌-◌, ◌<◌, ◌≡◌, false, find, is_some, option_map};
ghost use Rattle.std.specs.List.{range_with_len};
ghost use Rattle.host_plans.specs.Plans.{first_spare, is_spare, second_spare, tag_named};
ghost use Rattle.host_record.specs.Tables.{lookup, place_or};

use cxl_message::Tag;
use line_states::Open;

/// Whether something is open with a Tag.
fn is_open(opened: &[Option<Open>], tag: u32) -> bool
    ensures { result ≡ is_some (lookup opened.now tag) }
{
    match opened.get(tag as usize) {
        Some(open) => open.is_some(),
        None => false,
    }
}

/// Whether the conflict of a Tag is open.
fn has_conflict(conflicts: &[bool], tag: u32) -> bool
    ensures { result ≡ place_or false conflicts.now tag }
{
    match conflicts.get(tag as usize) {
        Some(on) => *on,
        None => false,
    }
}

/// Whether a Tag is free: nothing is open with it, and its conflict isn't either.
fn is_free(opened: &[Option<Open>], conflicts: &[bool], tag: u32) -> bool
    ensures { result ≡ is_spare opened.now conflicts.now tag }
{
    !(is_open(opened, tag) || has_conflict(conflicts, tag))
}

/// The lowest free Tag of those from `from` on and below `tags`.
fn spare_from(opened: &[Option<Open>], conflicts: &[bool], from: u32, tags: u32) -> Option<u32>
    ensures { result ≡ find (is_spare opened.now conflicts.now) (range_with_len from (tags - from)) }
{
    (from..tags).find(|tag| is_free(opened, conflicts, *tag))
}

/// The lowest free Tag below `tags`.
pub fn first_tag(opened: &[Option<Open>], conflicts: &[bool], tags: u32) -> Option<Tag>
    ensures { result ≡ option_map tag_named (first_spare opened.now conflicts.now tags) }
{
    let tag = spare_from(opened, conflicts, 0, tags)?;
    Some(Tag(tag))
}

/// The lowest free Tag below `tags` after the first one, where there is one.
pub fn second_tag(
    opened: &[Option<Open>],
    conflicts: &[bool],
    first: Option<Tag>,
    tags: u32,
) -> Option<Tag>
    requires { first ≡ option_map tag_named (first_spare opened.now conflicts.now tags) }
    ensures { result ≡ option_map tag_named (second_spare opened.now conflicts.now tags) }
{
    match first {
        Some(first) => next_tag(opened, conflicts, first, tags),
        None => None,
    }
}

/// The lowest free Tag below `tags` after another.
fn next_tag(opened: &[Option<Open>], conflicts: &[bool], first: Tag, tags: u32) -> Option<Tag>
    requires { first.0 < tags }
    ensures { result ≡ option_map tag_named (find (is_spare opened.now conflicts.now) (range_with_len (first.0 + 1) (tags - (first.0 + 1)))) }
{
    let tag = spare_from(opened, conflicts, first.0 + 1, tags)?;
    Some(Tag(tag))
}
