// Purses of credits.
ghost use Rattle.std.specs.Prelude.{◌≡◌, ◌↔◌, ◌+◌, ◌-◌, ◌<◌, ◌≤◌, true, false};

use std::marker::Model;

/// A purse of credits, from 0 up to its limit (own rule).
///
/// A contract sees how many credits are left, and the limit. No call takes memory.
#[derive(Clone, Copy, PartialEq, Eq, Debug)]
pub struct Purse {
    left: u8,
    limit: u8,
}

impl Model for Purse {
    ghost use Rattle.std.specs.Prelude.{◌≤◌};
    ghost use Rattle.credit_rules.specs.Credits.{Credits};

    ghost Value = { Credits };

    ghost view = { λ p. record { left = p.left; limit = p.limit } };

    ghost inverse = { λ c. record { left = c.left; limit = c.limit } };

    ghost invariant = { λ p. p.left ≤ p.limit };
}

impl Purse {
    /// A full purse: all `limit` credits, 0 to 255, are left.
    pub fn new(limit: u8) -> Purse
        ensures full { result ≡ record { left = limit; limit = limit } }
    {
        Purse { left: limit, limit }
    }

    /// Spends one credit, and answers whether there was one: `false` exactly where none is left, and then nothing
    /// changes.
    pub fn spend(&mut self) -> bool
        ensures none_left { (result ≡ false) ↔ (self.old.left ≡ 0) }
        ensures spent { result ≡ true → self.new ≡ record self.old { left = self.old.left - 1 } }
        ensures refused { result ≡ false → self.new ≡ self.old }
    {
        if self.left == 0 {
            return false;
        }
        self.left -= 1;
        true
    }

    /// Earns one credit back. Fewer than the limit are left before.
    pub fn earn(&mut self)
        requires { self.old.left < self.old.limit }
        ensures earned { self.new ≡ record self.old { left = self.old.left + 1 } }
    {
        self.left += 1;
    }

    /// How many credits are left, from 0 up to the limit.
    pub fn left(&self) -> u8
        ensures value { result ≡ self.now.left }
        ensures within { result ≤ self.now.limit }
    {
        self.left
    }
}
