// What an agent's event sends and commits.
ghost use Rattle.std.specs.Prelude.{◌≡◌};
ghost use Rattle.coherence_model.specs.Emission.{nothing, one_commit as committed, one_send, two_sends};

use cxl_message::{Bytes64, Commit, Message, Op, Out, Sends};
use std::marker::Model;

/// What an event sends, and the operation that it commits (own rule: at most two messages and one commit). A contract
/// sees it as the model's emission.
#[derive(Clone, Copy, PartialEq, Eq, Debug)]
pub struct Emitted {
    /// The messages that are sent, in their order.
    pub sends: Sends,
    /// The operation that is performed, and the bytes of its line after it.
    pub commit: Option<Commit>,
}

impl Model for Emitted {
    ghost use Rattle.coherence_model.specs.Emission.{Emission};

    ghost Value = { Emission };

    ghost view = { λ e. record { sends = e.sends; commit = e.commit } };

    ghost inverse = { λ w. record { sends = w.sends; commit = w.commit } };
}

impl Emitted {
    /// Nothing is sent and nothing is committed.
    pub fn nothing() -> Emitted
        ensures { result ≡ nothing }
    {
        Emitted {
            sends: Sends::Nothing,
            commit: None,
        }
    }

    /// One message is sent, to or from a host.
    pub fn one_send(host: u8, message: Message) -> Emitted
        ensures { result ≡ one_send host message }
    {
        Emitted {
            sends: Sends::One(Out { host, message }),
            commit: None,
        }
    }

    /// Two messages are sent in this order, to or from a host.
    pub fn two_sends(host: u8, message: Message, other: Message) -> Emitted
        ensures { result ≡ two_sends host message other }
    {
        let first = Out { host, message };
        let last = Out {
            host,
            message: other,
        };
        Emitted {
            sends: Sends::Two(first, last),
            commit: None,
        }
    }

    /// An operation of a stream is performed, and leaves these bytes of its line.
    pub fn one_commit(stream: u8, index: u32, op: Op, value: Bytes64) -> Emitted
        ensures { result ≡ committed stream index op value }
    {
        Emitted {
            sends: Sends::Nothing,
            commit: Some(Commit {
                stream,
                index,
                op,
                value,
            }),
        }
    }
}
