//! Worked steps of single agents, under peers that may break the rules: each function has an empty body, and its
//! contract is theorems that the check computes.
#![tactic(auto)]

ghost use Rattle.worked_agents.specs.AgainAndNoSuchLine.{AgainAndNoSuchLineIsAnswered};
ghost use Rattle.worked_agents.specs.BlockAnswers.{BlockAnswersIsAnswered};
ghost use Rattle.worked_agents.specs.BlockOfMixedLines.{BlockOfMixedLinesIsAnswered, MixedActsAreNext};
ghost use Rattle.worked_agents.specs.CompletionOfNothing.{CompletionOfNothingIsAnswered};
ghost use Rattle.worked_agents.specs.DeviceRefusals.{DeviceRefusalsIsAnswered};
ghost use Rattle.worked_agents.specs.EarlyConflictOfSharedCopy.{EarlyConflictOfSharedCopyIsAnswered};
ghost use Rattle.worked_agents.specs.EvictionNeedsTwoCredits.{EvictionNeedsTwoCreditsIsAnswered};
ghost use Rattle.worked_agents.specs.FreshDevice.{NoVictimAtFirst, OpeningOfLineFourFails};
ghost use Rattle.worked_agents.specs.NoCredit.{NoCreditIsAnswered};
ghost use Rattle.worked_agents.specs.NoTag.{NoTagIsAnswered};
ghost use Rattle.worked_agents.specs.NoWay.{NoWayIsAnswered};
ghost use Rattle.worked_agents.specs.OtherOrder.{OtherOrderIsAnswered};
ghost use Rattle.worked_agents.specs.ReaderAlone.{ReaderAloneIsAnswered};
ghost use Rattle.worked_agents.specs.SecondGrant.{SecondGrantIsAnswered};
ghost use Rattle.worked_agents.specs.SecondSnoop.{SecondSnoopIsAnswered};
ghost use Rattle.worked_agents.specs.TagOfAConflict.{TagOfAConflictIsAnswered};
ghost use Rattle.worked_agents.specs.WriteToUnlistedLine.{WriteToUnlistedLineIsAnswered, WriteIsInMemory, WriterIsNotListed};

/// A host with one way is snooped for both lines while it evicts the one and loads the other: the first
/// conflict ends late, the second early.
#[tactic(auto, using(crate::proofs::Computed::other_order_is_answered))]
pub fn other_order()
    ensures { OtherOrderIsAnswered }
{}

/// A host is snooped for a block of four lines: exclusive, modified, pending and exclusive.
#[tactic(auto, using(crate::proofs::Computed::block_of_mixed_lines_is_answered, crate::proofs::Computed::mixed_acts_are_next))]
pub fn block_of_mixed_lines()
    ensures block_of_mixed_lines_is_answered { BlockOfMixedLinesIsAnswered }
    ensures mixed_acts_are_next { MixedActsAreNext }
{}

/// One way, and its line is open: NoWay, until the line is filled and can be evicted.
#[tactic(auto, using(crate::proofs::Computed::no_way_is_answered))]
pub fn no_way()
    ensures { NoWayIsAnswered }
{}

/// Two tags, and both are in use: NoTag.
#[tactic(auto, using(crate::proofs::Computed::no_tag_is_answered))]
pub fn no_tag()
    ensures { NoTagIsAnswered }
{}

/// Two credits, and both are spent: NoCredit.
#[tactic(auto, using(crate::proofs::Computed::no_credit_is_answered))]
pub fn no_credit()
    ensures { NoCreditIsAnswered }
{}

/// A line that is open: Again; a line that does not exist: NoSuchLine.
#[tactic(auto, using(crate::proofs::Computed::again_and_no_such_line_is_answered))]
pub fn again_and_no_such_line()
    ensures { AgainAndNoSuchLineIsAnswered }
{}

/// A Cmp with nothing open breaks H3.
#[tactic(auto, using(crate::proofs::Computed::completion_of_nothing_is_answered))]
pub fn completion_of_nothing()
    ensures { CompletionOfNothingIsAnswered }
{}

/// A third request while two Req credits are owed breaks V1; a grant without a credit for NDR is NoCredit.
#[tactic(auto, using(crate::proofs::Computed::device_refusals_is_answered))]
pub fn device_refusals()
    ensures { DeviceRefusalsIsAnswered }
{}

/// A MemWr Shared of a line without an entry changes memory and lists nobody; Finish without a task breaks V8.
#[tactic(auto, using(crate::proofs::Computed::write_to_unlisted_line_is_answered, crate::proofs::Computed::write_is_in_memory, crate::proofs::Computed::writer_is_not_listed))]
pub fn write_to_unlisted_line()
    ensures write_to_unlisted_line_is_answered { WriteToUnlistedLineIsAnswered }
    ensures write_is_in_memory { WriteIsInMemory }
    ensures writer_is_not_listed { WriterIsNotListed }
{}

/// A request is finished while its conflict is open: its tag is still in use, and the next request takes the
/// other one.
#[tactic(auto, using(crate::proofs::Computed::tag_of_a_conflict_is_answered))]
pub fn tag_of_a_conflict()
    ensures { TagOfAConflictIsAnswered }
{}

/// A shared copy is given up after an early conflict, though the snoop is BISnpData.
#[tactic(auto, using(crate::proofs::Computed::early_conflict_of_shared_copy_is_answered))]
pub fn early_conflict_of_shared_copy()
    ensures { EarlyConflictOfSharedCopyIsAnswered }
{}

/// A second grant and a second MemData of one request break H3.
#[tactic(auto, using(crate::proofs::Computed::second_grant_is_answered))]
pub fn second_grant()
    ensures { SecondGrantIsAnswered }
{}

/// A snoop of a line that is snooped breaks H4, until the line is answered.
#[tactic(auto, using(crate::proofs::Computed::second_snoop_is_answered))]
pub fn second_snoop()
    ensures { SecondSnoopIsAnswered }
{}

/// A MemClnEvct and a MemRd need two Req credits: with one left the answer is NoCredit.
#[tactic(auto, using(crate::proofs::Computed::eviction_needs_two_credits_is_answered))]
pub fn eviction_needs_two_credits()
    ensures { EvictionNeedsTwoCreditsIsAnswered }
{}

/// The lines of a block are answered one by one, and then neither the whole block nor a line again; a host is
/// not asked twice.
#[tactic(auto, using(crate::proofs::Computed::block_answers_is_answered))]
pub fn block_answers()
    ensures { BlockAnswersIsAnswered }
{}

/// A host that is itself listed S reads alone: its grant is Cmp-E.
#[tactic(auto, using(crate::proofs::Computed::reader_alone_is_answered))]
pub fn reader_alone()
    ensures { ReaderAloneIsAnswered }
{}

/// The device before its first event.
#[tactic(auto, using(crate::proofs::Computed::no_victim_at_first, crate::proofs::Computed::opening_of_line_four_fails))]
pub fn fresh_device()
    ensures no_victim_at_first { NoVictimAtFirst }
    ensures opening_of_line_four_fails { OpeningOfLineFourFails }
{}
