//! Laws of every run on what lines hold.
#![tactic(auto)]

ghost use Rattle.value_laws.specs.Laws.{RunsAreLegal, ValuesAreKept};

/// After every run of a setup within its limits, the flat memory's line stands in the writable copy if there is one, else in a
/// MemWr that wasn't served if there is one, else in memory. Each copy, and each MemData that is in flight or taken for an open
/// MemRd, has it too (CXL 3.1, chapter 3: the states I, S, E and M, MemWr and MemData; own rule: the flat memory).
pub fn values_are_kept()
    ensures { ValuesAreKept }
{}

/// After every run of a setup within its limits, the commits form a legal history: each has the line that the flat memory has
/// after the operations up to and including it (own rule).
pub fn runs_are_legal()
    ensures { RunsAreLegal }
{}
