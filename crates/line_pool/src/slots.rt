// The names of slots.
use std::marker::Model;

/// The name of a slot, as the pool that it was taken from numbers it, from 0 (own rule).
///
/// A contract sees the number.
#[derive(Clone, Copy, PartialEq, Eq, Debug)]
pub struct SlotId(pub(crate) u32);

impl Model for SlotId {
    ghost use Rattle.std.specs.Prelude.{ℕ};

    ghost Value = { ℕ };

    ghost view = { λ s. s.0 };

    ghost inverse = { λ n. record { 0 = n } };
}
