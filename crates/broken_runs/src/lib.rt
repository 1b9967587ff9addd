//! Traces that break a rule: each function has an empty body, and its contract is theorems that the check computes.
//!
//! Each is a worked trace with one event changed. The verdict names that event and the first rule that fails there.
#![tactic(auto)]

ghost use Rattle.broken_runs.specs.FirstRules.{BreaksP0, BreaksK0, BreaksS0};
ghost use Rattle.broken_runs.specs.HostRules.{BreaksH1, BreaksH2, BreaksH3, BreaksH4, BreaksH5, BreaksH6, BreaksH7, BreaksH8, BreaksH9, BreaksH10};
ghost use Rattle.broken_runs.specs.DeviceRules.{BreaksV1, BreaksV2, BreaksV3, BreaksV4, BreaksV5, BreaksV6, BreaksV7, BreaksV8, BreaksV9};
ghost use Rattle.broken_runs.specs.NotRuns.{EarlyAckIsBroken, WrongValueIsBroken, WrongIndexIsBroken, SnoopByHostIsBroken, HitOfOpenLineIsBroken, HitOfSnoopedLineIsBroken, RequestForSnoopedLineIsBroken, WaitingStreamIsBroken, TakeByWrongAgentIsBroken, LineOfWholeBlockIsBroken, SecondWriteBackIsBroken, StartAgainstReservationIsBroken, EvictionOfNewerEntryIsBroken, SharedEvictionIsBroken};
ghost use Rattle.broken_runs.specs.Accepted.{NothingIsRun, OneLoadIsRun, LateConflictIsRun, CleanEvictionCrossesIsRun, BlocksOfFourIsRun, SharedCopyDroppedIsRun, ModifiedLineIsReadIsRun, BlockOfTwoModifiedLinesIsRun, ReservationIsKeptIsRun, EarlyConflictKeepsItsWayIsRun};

/// P0, K0 and S0 are named, each for a trace in which one event breaks it.
#[tactic(auto, using(crate::proofs::First::p0, crate::proofs::First::k0, crate::proofs::First::s0))]
pub fn first_rules()
    ensures breaks_p0 { BreaksP0 }
    ensures breaks_k0 { BreaksK0 }
    ensures breaks_s0 { BreaksS0 }
{}

/// H1 to H10 are named, each for a trace in which one event of a host breaks it.
#[tactic(auto, using(crate::proofs::Host::h1, crate::proofs::Host::h2, crate::proofs::Host::h3, crate::proofs::Host::h4, crate::proofs::Host::h5, crate::proofs::Host::h6, crate::proofs::Host::h7, crate::proofs::Host::h8, crate::proofs::Host::h9, crate::proofs::Host::h10))]
pub fn host_rules()
    ensures breaks_h1 { BreaksH1 }
    ensures breaks_h2 { BreaksH2 }
    ensures breaks_h3 { BreaksH3 }
    ensures breaks_h4 { BreaksH4 }
    ensures breaks_h5 { BreaksH5 }
    ensures breaks_h6 { BreaksH6 }
    ensures breaks_h7 { BreaksH7 }
    ensures breaks_h8 { BreaksH8 }
    ensures breaks_h9 { BreaksH9 }
    ensures breaks_h10 { BreaksH10 }
{}

/// V1 to V9 are named, each for a trace in which one event of the device breaks it.
#[tactic(auto, using(crate::proofs::Device::v1, crate::proofs::Device::v2, crate::proofs::Device::v3, crate::proofs::Device::v4, crate::proofs::Device::v5, crate::proofs::Device::v6, crate::proofs::Device::v7, crate::proofs::Device::v8, crate::proofs::Device::v9))]
pub fn device_rules()
    ensures breaks_v1 { BreaksV1 }
    ensures breaks_v2 { BreaksV2 }
    ensures breaks_v3 { BreaksV3 }
    ensures breaks_v4 { BreaksV4 }
    ensures breaks_v5 { BreaksV5 }
    ensures breaks_v6 { BreaksV6 }
    ensures breaks_v7 { BreaksV7 }
    ensures breaks_v8 { BreaksV8 }
    ensures breaks_v9 { BreaksV9 }
{}

/// Further traces that aren't runs: an acknowledgement that is taken too early, a wrong value, a shared copy that is
/// evicted with a message, a start against a reservation and others.
#[tactic(auto, using(crate::proofs::Others::early_ack, crate::proofs::Others::wrong_value, crate::proofs::Others::wrong_index, crate::proofs::Others::snoop_by_host, crate::proofs::Others::hit_of_open_line, crate::proofs::Others::hit_of_snooped_line, crate::proofs::Others::request_for_snooped_line, crate::proofs::Others::waiting_stream, crate::proofs::Others::take_by_wrong_agent, crate::proofs::Others::line_of_whole_block, crate::proofs::Others::second_write_back, crate::proofs::Others::start_against_reservation, crate::proofs::Others::eviction_of_newer_entry, crate::proofs::Others::shared_eviction))]
pub fn not_runs()
    ensures early_ack_is_broken { EarlyAckIsBroken }
    ensures wrong_value_is_broken { WrongValueIsBroken }
    ensures wrong_index_is_broken { WrongIndexIsBroken }
    ensures snoop_by_host_is_broken { SnoopByHostIsBroken }
    ensures hit_of_open_line_is_broken { HitOfOpenLineIsBroken }
    ensures hit_of_snooped_line_is_broken { HitOfSnoopedLineIsBroken }
    ensures request_for_snooped_line_is_broken { RequestForSnoopedLineIsBroken }
    ensures waiting_stream_is_broken { WaitingStreamIsBroken }
    ensures take_by_wrong_agent_is_broken { TakeByWrongAgentIsBroken }
    ensures line_of_whole_block_is_broken { LineOfWholeBlockIsBroken }
    ensures second_write_back_is_broken { SecondWriteBackIsBroken }
    ensures start_against_reservation_is_broken { StartAgainstReservationIsBroken }
    ensures eviction_of_newer_entry_is_broken { EvictionOfNewerEntryIsBroken }
    ensures shared_eviction_is_broken { SharedEvictionIsBroken }
{}

/// The worked traces are accepted as runs, with their numbers of events and commits.
#[tactic(auto, using(crate::proofs::AcceptedRuns::nothing, crate::proofs::AcceptedRuns::one_load, crate::proofs::AcceptedRuns::late_conflict, crate::proofs::AcceptedRuns::clean_eviction_crosses, crate::proofs::AcceptedRuns::blocks_of_four, crate::proofs::AcceptedRuns::shared_copy_dropped, crate::proofs::AcceptedRuns::modified_line_is_read, crate::proofs::AcceptedRuns::block_of_two_modified_lines, crate::proofs::AcceptedRuns::reservation_is_kept, crate::proofs::AcceptedRuns::early_conflict_keeps_its_way))]
pub fn accepted()
    ensures nothing_is_run { NothingIsRun }
    ensures one_load_is_run { OneLoadIsRun }
    ensures late_conflict_is_run { LateConflictIsRun }
    ensures clean_eviction_crosses_is_run { CleanEvictionCrossesIsRun }
    ensures blocks_of_four_is_run { BlocksOfFourIsRun }
    ensures shared_copy_dropped_is_run { SharedCopyDroppedIsRun }
    ensures modified_line_is_read_is_run { ModifiedLineIsReadIsRun }
    ensures block_of_two_modified_lines_is_run { BlockOfTwoModifiedLinesIsRun }
    ensures reservation_is_kept_is_run { ReservationIsKeptIsRun }
    ensures early_conflict_keeps_its_way_is_run { EarlyConflictKeepsItsWayIsRun }
{}
