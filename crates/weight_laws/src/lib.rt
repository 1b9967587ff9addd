//! Laws of the weight over every run: each event that isn't an operation lowers it.
#![tactic(auto)]

ghost use Rattle.weight_laws.specs.Laws.{RunsAreShort, WeightsAreBounded};
ghost use Rattle.weight_laws.specs.ListingLaws.{AnsweredHostsAreUnlisted, SharedWritesServeReads};

/// In every run of a setup within its limits each event that isn't an operation lowers the weight, and an operation raises it by
/// at most `108 * H - 4`, with H hosts. So the steps that aren't operations come to an end from wherever a run is (own rule: the
/// weights).
pub fn weights_are_bounded()
    ensures { WeightsAreBounded }
{}

/// A run of a setup within its limits with n operations has at most `(108 * H - 3) * n` events (own rule).
pub fn runs_are_short()
    ensures { RunsAreShort }
{}

/// After every run of a setup within its limits, a buffered MemWr Shared is for a line whose task serves a MemRd Shared: a host sends
/// one only as the write-back for a BISnpData, and answers after its Cmp. So serving it makes no host one that is to be asked (own
/// rule: MemWr Shared).
pub fn shared_writes_serve_reads()
    ensures { SharedWritesServeReads }
{}

/// After every run of a setup within its limits, a host whose answer for a line of an evicted block was taken isn't listed for that
/// line while it is Asked for others: nothing lists a host for a Busy line but the end of its own task (own rule).
pub fn answered_hosts_are_unlisted()
    ensures { AnsweredHostsAreUnlisted }
{}
