//! The worked traces: each function has an empty body, and its contract is a theorem that the check computes.
//!
//! A driven trace is given event by event, as the rules and the order of next steps make it of a script.
#![tactic(auto)]

ghost use Rattle.worked_runs.specs.AnOpening.{AnOpeningIsDriven};
ghost use Rattle.worked_runs.specs.BlockOfTwoModifiedLines.{BlockOfTwoModifiedLinesIsDriven};
ghost use Rattle.worked_runs.specs.BlocksOfFour.{BlocksOfFourIsDriven};
ghost use Rattle.worked_runs.specs.CleanEvictionCrosses.{CleanEvictionCrossesIsDriven};
ghost use Rattle.worked_runs.specs.DirtyEvictionByOneHost.{DirtyEvictionByOneHostIsDriven};
ghost use Rattle.worked_runs.specs.DirtyEvictionCrosses.{DirtyEvictionCrossesIsDriven};
ghost use Rattle.worked_runs.specs.DowngradeAndSharing.{DowngradeAndSharingIsDriven};
ghost use Rattle.worked_runs.specs.EarlyConflict.{EarlyConflictIsDriven};
ghost use Rattle.worked_runs.specs.EarlyConflictKeepsItsWay.{EarlyConflictKeepsItsWayIsDriven};
ghost use Rattle.worked_runs.specs.FilterOfOneEntry.{FilterOfOneEntryIsDriven};
ghost use Rattle.worked_runs.specs.LateConflict.{LateConflictIsDriven};
ghost use Rattle.worked_runs.specs.ModifiedLineIsRead.{ModifiedLineIsReadIsDriven};
ghost use Rattle.worked_runs.specs.ModifiedLineIsWanted.{ModifiedLineIsWantedIsDriven};
ghost use Rattle.worked_runs.specs.Nothing.{NothingIsDriven};
ghost use Rattle.worked_runs.specs.OldestEntryIsEvicted.{OldestEntryIsEvictedIsDriven};
ghost use Rattle.worked_runs.specs.OneLoad.{OneLoadIsDriven, PickedLoadIsDriven};
ghost use Rattle.worked_runs.specs.ReservationIsKept.{ReservationIsKeptIsDriven};
ghost use Rattle.worked_runs.specs.RoomForOneEvent.{RoomForOneEventIsSerial};
ghost use Rattle.worked_runs.specs.SharedCopyDropped.{SharedCopyDroppedIsDriven};
ghost use Rattle.worked_runs.specs.SilentUpgrade.{SilentUpgradeIsDriven};
ghost use Rattle.worked_runs.specs.StoreOverTwoSharedCopies.{StoreOverTwoSharedCopiesIsDriven};
ghost use Rattle.worked_runs.specs.ThirdReader.{ThirdReaderIsDriven};
ghost use Rattle.worked_runs.specs.UpgradeKeepsItsPlace.{UpgradeKeepsItsPlaceIsDriven};
ghost use Rattle.worked_runs.specs.WholeLineStoreThenHit.{WholeLineStoreThenHitIsDriven};
ghost use Rattle.worked_runs.specs.WholeLineStoresUnderEarlyConflict.{WholeLineStoresUnderEarlyConflictIsDriven};
ghost use Rattle.worked_runs.specs.Histories.{HistoryIsStoredOver, StoredOverIsLegal, LostWordIsNotLegal};
ghost use Rattle.worked_runs.specs.SummariesOfTraces.{CleanEvictionCrossesIsSummed, WholeLineStoresUnderEarlyConflictIsSummed, BlocksOfFourIsSummed, SharedCopyDroppedIsSummed};

/// Nothing: no stream and no operation. Its driven trace is the one that `specs/` lists.
#[tactic(auto, using(crate::proofs::Driven::nothing))]
pub fn nothing()
    ensures { NothingIsDriven }
{}

/// One load: one host loads line 0. Its driven trace is the one that `specs/` lists.
#[tactic(auto, using(crate::proofs::Driven::one_load))]
pub fn one_load()
    ensures { OneLoadIsDriven }
{}

/// One load with the pick 65535, far above the number of choices: a pick is taken modulo that number, so the driven trace is the
/// same.
#[tactic(auto, using(crate::proofs::Driven::picked_load))]
pub fn picked_load()
    ensures { PickedLoadIsDriven }
{}

/// Silent upgrade: one host loads line 0 and then stores a word to it. Its driven trace is the one that `specs/` lists.
#[tactic(auto, using(crate::proofs::Driven::silent_upgrade))]
pub fn silent_upgrade()
    ensures { SilentUpgradeIsDriven }
{}

/// Downgrade and sharing: two hosts load line 0, one after the other. Its driven trace is the one that `specs/` lists.
#[tactic(auto, using(crate::proofs::Driven::downgrade_and_sharing))]
pub fn downgrade_and_sharing()
    ensures { DowngradeAndSharingIsDriven }
{}

/// Store over two shared copies: two hosts load line 0, and then the first stores a word to it. Its driven trace is the one that `specs/` lists.
#[tactic(auto, using(crate::proofs::Driven::store_over_two_shared_copies))]
pub fn store_over_two_shared_copies()
    ensures { StoreOverTwoSharedCopiesIsDriven }
{}

/// Modified line is wanted: two hosts store a word to line 0, one after the other. Its driven trace is the one that `specs/` lists.
#[tactic(auto, using(crate::proofs::Driven::modified_line_is_wanted))]
pub fn modified_line_is_wanted()
    ensures { ModifiedLineIsWantedIsDriven }
{}

/// Early conflict: two hosts share line 0, and then both store a word to it at once. Its driven trace is the one that `specs/` lists.
#[tactic(auto, using(crate::proofs::Driven::early_conflict))]
pub fn early_conflict()
    ensures { EarlyConflictIsDriven }
{}

/// Late conflict: two hosts store a word to line 0 at once, and the snoop comes after the grant was sent. Its driven trace is the one that `specs/` lists.
#[tactic(auto, using(crate::proofs::Driven::late_conflict))]
pub fn late_conflict()
    ensures { LateConflictIsDriven }
{}

/// Dirty eviction crosses: a host with one way evicts its modified line 0 while the other host wants it. Its driven trace is the one that `specs/` lists.
#[tactic(auto, using(crate::proofs::Driven::dirty_eviction_crosses))]
pub fn dirty_eviction_crosses()
    ensures { DirtyEvictionCrossesIsDriven }
{}

/// Clean eviction crosses: a host with one way evicts its exclusive line 0 while the other host wants it. Its driven trace is the one that `specs/` lists.
#[tactic(auto, using(crate::proofs::Driven::clean_eviction_crosses))]
pub fn clean_eviction_crosses()
    ensures { CleanEvictionCrossesIsDriven }
{}

/// Filter of one entry: one host loads two lines under a filter of one entry. Its driven trace is the one that `specs/` lists.
#[tactic(auto, using(crate::proofs::Driven::filter_of_one_entry))]
pub fn filter_of_one_entry()
    ensures { FilterOfOneEntryIsDriven }
{}

/// Whole line stores under early conflict: two hosts share line 0, and then both store the whole of it at once. Its driven trace is the one that `specs/` lists.
#[tactic(auto, using(crate::proofs::Driven::whole_line_stores_under_early_conflict))]
pub fn whole_line_stores_under_early_conflict()
    ensures { WholeLineStoresUnderEarlyConflictIsDriven }
{}

/// Blocks of four: one host loads five lines under a filter of four entries. Its driven trace is the one that `specs/` lists.
#[tactic(auto, using(crate::proofs::Driven::blocks_of_four))]
pub fn blocks_of_four()
    ensures { BlocksOfFourIsDriven }
{}

/// Dirty eviction by one host: a host with one way stores a word to line 0 and then loads line 1. Its driven trace is the one that `specs/` lists.
#[tactic(auto, using(crate::proofs::Driven::dirty_eviction_by_one_host))]
pub fn dirty_eviction_by_one_host()
    ensures { DirtyEvictionByOneHostIsDriven }
{}

/// Whole line store then hit: one host stores the whole of line 0 and then loads it. Its driven trace is the one that `specs/` lists.
#[tactic(auto, using(crate::proofs::Driven::whole_line_store_then_hit))]
pub fn whole_line_store_then_hit()
    ensures { WholeLineStoreThenHitIsDriven }
{}

/// Shared copy dropped: a host with one way drops its shared copy of line 0 for line 1, and is snooped for line 0 all the same. Its driven trace is the one that `specs/` lists.
#[tactic(auto, using(crate::proofs::Driven::shared_copy_dropped))]
pub fn shared_copy_dropped()
    ensures { SharedCopyDroppedIsDriven }
{}

/// An opening: one host loads line 1, which memory opens with. Its driven trace is the one that `specs/` lists.
#[tactic(auto, using(crate::proofs::Driven::an_opening))]
pub fn an_opening()
    ensures { AnOpeningIsDriven }
{}

/// Third reader: three hosts load line 0, one after the other, and then the first loads it again. Its driven trace is the one that `specs/` lists.
#[tactic(auto, using(crate::proofs::Driven::third_reader))]
pub fn third_reader()
    ensures { ThirdReaderIsDriven }
{}

/// Modified line is read: a host stores a word to line 0, the other loads it, and then the first loads it again. Its driven trace is the one that `specs/` lists.
#[tactic(auto, using(crate::proofs::Driven::modified_line_is_read))]
pub fn modified_line_is_read()
    ensures { ModifiedLineIsReadIsDriven }
{}

/// Oldest entry is evicted: one host loads three lines of different blocks under a filter of two entries. Its driven trace is the one that `specs/` lists.
#[tactic(auto, using(crate::proofs::Driven::oldest_entry_is_evicted))]
pub fn oldest_entry_is_evicted()
    ensures { OldestEntryIsEvictedIsDriven }
{}

/// Block of two modified lines: one host stores a word to two lines of a block under a filter of two entries, and then loads a third. Its driven trace is the one that `specs/` lists.
#[tactic(auto, using(crate::proofs::Driven::block_of_two_modified_lines))]
pub fn block_of_two_modified_lines()
    ensures { BlockOfTwoModifiedLinesIsDriven }
{}

/// Reservation is kept: two hosts want lines under a filter of one entry, and the eviction is for the second. Its driven trace is the one that `specs/` lists.
#[tactic(auto, using(crate::proofs::Driven::reservation_is_kept))]
pub fn reservation_is_kept()
    ensures { ReservationIsKeptIsDriven }
{}

/// Upgrade keeps its place: a host with two ways upgrades its oldest line, and then evicts it for a third. Its driven trace is the one that `specs/` lists.
#[tactic(auto, using(crate::proofs::Driven::upgrade_keeps_its_place))]
pub fn upgrade_keeps_its_place()
    ensures { UpgradeKeepsItsPlaceIsDriven }
{}

/// Early conflict keeps its way: two hosts with one way are in an early conflict, and then the second evicts the line that it got. Its driven trace is the one that `specs/` lists.
#[tactic(auto, using(crate::proofs::Driven::early_conflict_keeps_its_way))]
pub fn early_conflict_keeps_its_way()
    ensures { EarlyConflictKeepsItsWayIsDriven }
{}

/// Room for one event: one host loads line 0, and each agent has room for one event. Its serial trace is the one that `specs/` lists.
#[tactic(auto, using(crate::proofs::Driven::room_for_one_event))]
pub fn room_for_one_event()
    ensures { RoomForOneEventIsSerial }
{}

/// The summaries of four worked traces.
#[tactic(auto, using(crate::proofs::Counted::clean_eviction_crosses_is_summed, crate::proofs::Counted::whole_line_stores_under_early_conflict_is_summed, crate::proofs::Counted::blocks_of_four_is_summed, crate::proofs::Counted::shared_copy_dropped_is_summed))]
pub fn summaries()
    ensures clean_eviction_crosses_is_summed { CleanEvictionCrossesIsSummed }
    ensures whole_line_stores_under_early_conflict_is_summed { WholeLineStoresUnderEarlyConflictIsSummed }
    ensures blocks_of_four_is_summed { BlocksOfFourIsSummed }
    ensures shared_copy_dropped_is_summed { SharedCopyDroppedIsSummed }
{}

/// The history of a worked trace is legal, and one that lost a word is not.
#[tactic(auto, using(crate::proofs::Counted::history_is_stored_over, crate::proofs::Counted::stored_over_is_legal, crate::proofs::Counted::lost_word_is_not_legal))]
pub fn histories()
    ensures history_is_stored_over { HistoryIsStoredOver }
    ensures stored_over_is_legal { StoredOverIsLegal }
    ensures lost_word_is_not_legal { LostWordIsNotLegal }
{}
