// The kinds of step on the board's word. The close is one more, which no type names: it changes no view.
ghost use Rattle.std.specs.Prelude.{List};
ghost use Rattle.cxl_message.specs.declared.events.Event.{Event};
ghost use Rattle.cxl_message.specs.declared.identifiers.Bytes64.{Bytes64};
ghost use Rattle.cxl_message.specs.declared.identifiers.Line.{Line};
ghost use Rattle.cxl_message.specs.Setup.{Configuration};

use crate::view::View;
use atomic_table::{Join, Play, Split};
use std::marker::{Brand, PhantomData};

/// What a step is about: the board's setup and opening, and the event that is marked. It is picked where the step is made.
pub trait Subject {
    ghost use Rattle.std.specs.Prelude.{List};
    ghost use Rattle.cxl_message.specs.declared.events.Event.{Event};
    ghost use Rattle.cxl_message.specs.declared.identifiers.Bytes64.{Bytes64};
    ghost use Rattle.cxl_message.specs.declared.identifiers.Line.{Line};
    ghost use Rattle.cxl_message.specs.Setup.{Configuration};

    ghost setup: { Configuration };

    ghost opening: { List (Line × Bytes64) };

    ghost event: { Event };
}

impl Subject for Brand {
    ghost use Rattle.std.specs.Prelude.{[]};
    ghost use Rattle.fabric_rule.specs.Steps.{no_event, no_setup};

    ghost setup = { no_setup };

    ghost opening = { [] };

    ghost event = { no_event };
}

/// Opening: the next host's seat is split from the device's.
pub struct NextHost;

impl Split<View> for NextHost {
    ghost use Rattle.fabric_rule.specs.Board.{next_host, with_next_host};

    ghost left = { with_next_host };

    ghost right = { next_host };
}

/// The `fetch_add` of a mark.
pub struct Marking<J> {
    subject: PhantomData<J>,
}

impl<J: Subject> Play<(), View> for Marking<J> {
    ghost use Rattle.fabric_rule.specs.Steps.{Marked};

    ghost then = { λ _ before found after. Marked J.setup J.opening J.event before found after };
}

/// The split of a note.
pub struct Noting;

impl Split<View> for Noting {
    ghost use Rattle.fabric_rule.specs.Board.{note_of};

    ghost left = { λ v. v };

    ghost right = { λ v. note_of v.seen };
}

/// The join of a meeting.
pub struct Meeting;

impl Join<View> for Meeting {
    ghost use Rattle.fabric_rule.specs.Board.{met, spent};

    ghost both = { met };

    ghost spent = { spent };
}

/// The load of a meeting.
pub struct Learning<J> {
    subject: PhantomData<J>,
}

impl<J: Subject> Play<(), View> for Learning<J> {
    ghost use Rattle.fabric_rule.specs.Steps.{Learnt};

    ghost then = { λ _ before found after. Learnt J.setup J.opening before after };
}

/// The join of a close.
pub struct TakingOver;

impl Join<View> for TakingOver {
    ghost use Rattle.fabric_rule.specs.Board.{spent, taken_over};

    ghost both = { taken_over };

    ghost spent = { spent };
}
