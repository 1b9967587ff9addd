// Who is asked about a block.
ghost use Rattle.std.specs.Prelude.{◌≡◌, ◌==◌, ◌+◌, ◌^◌, ◌<◌, ◌≤◌, ◌⊎◌};
ghost use Rattle.cxl_message.specs.Codes.{listing_code, span_len as span_length};
ghost use Rattle.cxl_message.specs.declared.opcodes.Span.{Span as Spanned};
ghost use Rattle.block_snoop.specs.Asking.{hosts_asked, is_asked_for, lists_block};
ghost use Rattle.block_snoop.specs.declared.purposes.Purpose.{Purpose as Purposed};
ghost use Rattle.snoop_filter.specs.Rows.{is_some_listing, listed_in};

use crate::Purpose;
use arrayvec::ArrayVec;
use cxl_message::{Line, Listing, Span};
use snoop_filter::{Block, Filter};

/// The hosts to ask about a block, ascending: for a shared copy each other host that is listed A, for the only copy
/// each other host that is listed S or A, and for an eviction each host that is listed for a line of the block. The
/// block is of the filter's lines, and of one line unless it is evicted.
pub fn hosts_to_ask(filter: &Filter, block: Block, purpose: Purpose) -> ArrayVec<u8, 16>
    requires lines { block.first.0 + span_length block.span ≤ filter.now.lines }
    requires span { (block.span ≡ Spanned.One) ⊎ (purpose ≡ Purposed.Evicting) }
    ensures asked { result.items ≡ hosts_asked filter.now block purpose }
{
    let mut asked = ArrayVec::new();
    for host in 0..filter.hosts() {
        if is_asked(filter, block, purpose, host) {
            asked.push(host);
        }
    }
    asked
}

/// Whether a host is one of those to ask about a block.
pub fn is_asked(filter: &Filter, block: Block, purpose: Purpose, host: u8) -> bool
    requires lines { block.first.0 + span_length block.span ≤ filter.now.lines }
    requires host { host < filter.now.hosts }
    ensures asked { result ≡ is_asked_for purpose block filter.now.rows host }
{
    match purpose {
        Purpose::SharedFor(requester) => {
            requester != host && is_any(filter.listed(block.first, host))
        }
        Purpose::OwnedFor(requester) => {
            requester != host && is_listed(filter.listed(block.first, host))
        }
        Purpose::Evicting => lists_block(filter, block, host),
    }
}

/// Whether a listing is A.
fn is_any(listing: Listing) -> bool
    ensures { result ≡ (listing_code listing == 2) }
{
    match listing {
        Listing::I => false,
        Listing::S => false,
        Listing::A => true,
    }
}

/// Whether a listing is S or A.
fn is_listed(listing: Listing) -> bool
    ensures { result ≡ is_some_listing listing }
{
    match listing {
        Listing::I => false,
        Listing::S => true,
        Listing::A => true,
    }
}

/// Whether a host is listed for a line.
fn lists_line(filter: &Filter, line: u32, host: u8) -> bool
    requires line { line < filter.now.lines }
    requires host { host < filter.now.hosts }
    ensures listed { result ≡ is_some_listing (listed_in line host filter.now.rows) }
    ensures lines { filter.now.lines < 2 ^ 32 }
{
    is_listed(filter.listed(Line(line), host))
}

/// Whether a host is listed for some line of a block.
fn lists_block(filter: &Filter, block: Block, host: u8) -> bool
    requires lines { block.first.0 + span_length block.span ≤ filter.now.lines }
    requires host { host < filter.now.hosts }
    ensures { result ≡ lists_block block filter.now.rows host }
{
    let first = block.first.0;
    let here = lists_line(filter, first, host);
    match block.span {
        Span::One => here,
        Span::Two => here || lists_line(filter, first + 1, host),
        Span::Four => {
            here || lists_line(filter, first + 1, host)
                || lists_line(filter, first + 2, host)
                || lists_line(filter, first + 3, host)
        }
    }
}
