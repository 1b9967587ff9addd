//! Laws of the record that the device agent keeps, over every list of the device's own events that its rules allow,
//! whatever the hosts did.
//!
//! The record is what looking back over the list gives, and what each event makes of it is what looking back over one
//! event more gives. So what is answered by the record, the acts that it allows, its weight and what it shows are the
//! model's. All of it is the project's own.
#![tactic(auto)]

ghost use Rattle.device_laws.specs.Laws.{ActsAreCounted, ActsAreNext, AnswersAreTheModels, BlocksAreDoneByLine, DeviceFollows, KeptIsSteady, OpenedStands, PendingIsTheModels, ReadsAreTheModels, StandsOn, WeightIsTheModels};

/// What is kept follows each event: what looking back gives at one event more is what the event makes of what it gave
/// before. What is opened stands for the empty list, and what stands for a list stands for it with each event that the
/// model answers by (own rule).
#[tactic(auto, using(crate::proofs::Follows::device_follows, crate::proofs::Opened::opened_stands, crate::proofs::GoesOn::stands_on))]
pub fn device_is_kept()
    ensures follows { DeviceFollows }
    ensures opened { OpenedStands }
    ensures stands_on { StandsOn }
{}

/// The answers to every cause are the model's, and so are the acts, in their order; their number is the sum of what each
/// host's writes, each buffered request, each task and each host's returns wait for (own rule).
#[tactic(auto, using(crate::proofs::Answers::answer_is, crate::proofs::Acts::acts_of_list, crate::proofs::CountAll::acts_counted))]
pub fn device_answers()
    ensures answers { AnswersAreTheModels }
    ensures acts { ActsAreNext }
    ensures counted { ActsAreCounted }
{}

/// Memory, listings, which lines are Busy, the weight and whether something is pending are the model's (own rule).
#[tactic(auto, using(crate::proofs::Weights::weight_is, crate::proofs::Weights::pending_is, crate::proofs::Opened::reads_are))]
pub fn device_is_read()
    ensures weight { WeightIsTheModels }
    ensures pending { PendingIsTheModels }
    ensures reads { ReadsAreTheModels }
{}

/// What is kept is steady, which makes each of the device's steps possible: the lines, hosts and tasks that it names
/// exist, rows and reservations fit into the filter, and nothing is above the setup's credits (own rule).
pub fn device_is_steady()
    ensures { KeptIsSteady }
{}

/// What an event does to the lines of a block it may do to one line after the other (own rule).
#[tactic(auto, using(crate::proofs::Loops::block_by_line))]
pub fn blocks_are_done_by_line()
    ensures { BlocksAreDoneByLine }
{}
