//! Laws of every run on listings and copies.
#![tactic(auto)]

ghost use Rattle.listing_laws.specs.Laws.{ListingsAreKept, WritableCopiesAreAlone};

/// After every run of a setup within its limits, each copy is listed at the device, and a writable copy, or a Cmp-E on its way, is
/// listed A. Who is listed A for a line is listed alone, and has a copy, a grant on its way, or gives the line up
/// (CXL 3.1, chapter 3: the states I, S, E and M, and the inclusive snoop filter; own rule: the listings I, S and A).
pub fn listings_are_kept()
    ensures { ListingsAreKept }
{}

/// After every run of a setup within its limits, a host's exclusive or modified copy of a line is the only copy of it: the
/// device lists its host alone (CXL 3.1, chapter 3: the states E and M).
pub fn writable_copies_are_alone()
    ensures { WritableCopiesAreAlone }
{}
