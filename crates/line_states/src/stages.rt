// The stage of a line since the last snoop of it.
ghost use Rattle.std.specs.Prelude.{◌≡◌};
ghost use Rattle.coherence_model.specs.Stages.{is_early as stage_is_early, is_early_or_written as stage_is_early_or_written, is_new as stage_is_new, is_new_or_late as stage_is_new_or_late};
ghost use Rattle.coherence_model.specs.Weight.{stage_weight};

use cxl_message::Tag;
use std::marker::Model;

/// How far a snooped line is (CXL 3.1, chapter 3: early and late conflict; own rule: the other stages).
#[derive(Clone, Copy)]
pub enum StageKind {
    /// Nothing was done for the snoop yet.
    New,
    /// A conflict was declared with this Tag.
    Asked(Tag),
    /// The conflict ended before the request was granted.
    Early,
    /// The conflict ended after the request was granted.
    Late,
    /// A write-back is under way.
    Writing,
    /// The write-back has ended.
    Written,
}

/// The stage of a line since the last snoop of it.
#[derive(Clone, Copy)]
pub struct LineStage {
    /// How far it is.
    pub kind: StageKind,
}

impl Model for LineStage {
    ghost use Rattle.coherence_model.specs.Stages.{Stage};
    ghost use Rattle.line_states.specs.Stages.{inside_of, restored, stage_of};

    ghost Value = { Stage };

    ghost view = { λ s. stage_of s.kind };

    ghost inverse = { inside_of };

    ghost inverse_ok = { restored };
}

impl LineStage {
    ghost use Rattle.coherence_model.specs.Stages.{Stage};

    /// The stage of a line that was just snooped, or never was.
    pub const NEW: LineStage = LineStage {
        kind: StageKind::New,
    };

    /// Whether nothing was done for the snoop yet.
    pub fn is_new(&self) -> bool
        ensures { result ≡ stage_is_new self.now }
    {
        match self.kind {
            StageKind::New => true,
            StageKind::Asked(_)
            | StageKind::Early
            | StageKind::Late
            | StageKind::Writing
            | StageKind::Written => false,
        }
    }

    /// Whether nothing was done, or the conflict ended late.
    pub fn is_new_or_late(&self) -> bool
        ensures { result ≡ stage_is_new_or_late self.now }
    {
        match self.kind {
            StageKind::New | StageKind::Late => true,
            StageKind::Asked(_) | StageKind::Early | StageKind::Writing | StageKind::Written =>
                false,
        }
    }

    /// Whether the conflict ended early, or the write-back has ended.
    pub fn is_early_or_written(&self) -> bool
        ensures { result ≡ stage_is_early_or_written self.now }
    {
        match self.kind {
            StageKind::Early | StageKind::Written => true,
            StageKind::New | StageKind::Asked(_) | StageKind::Late | StageKind::Writing => false,
        }
    }

    /// Whether the conflict ended early.
    pub fn is_early(&self) -> bool
        ensures { result ≡ stage_is_early self.now }
    {
        match self.kind {
            StageKind::Early => true,
            StageKind::New
            | StageKind::Asked(_)
            | StageKind::Late
            | StageKind::Writing
            | StageKind::Written => false,
        }
    }

    /// What the stage of a snooped line adds to the weight: at most so many events may still come for it (own rule).
    pub fn weight(&self) -> u8
        ensures { result ≡ stage_weight self.now }
    {
        match self.kind {
            StageKind::New => 20,
            StageKind::Asked(_) | StageKind::Late => 12,
            StageKind::Early | StageKind::Writing | StageKind::Written => 4,
        }
    }
}
