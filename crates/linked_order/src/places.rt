// The places of an order, one after another.
ghost use Rattle.std.specs.Prelude.{◌≡◌};
ghost use Rattle.std.specs.Iterator.{YieldsFirst, item_count};

use crate::LinkedOrder;
use std::marker::Model;

/// The places of an order from one on (own rule).
///
/// A contract sees the list of those left.
#[derive(Debug, Drop)]
pub struct Places<'a> {
    order: &'a LinkedOrder,
    next: Option<u32>,
}

impl<'a> Model for Places<'a> {
    ghost use Rattle.std.specs.Prelude.{List, ℕ};
    ghost use Rattle.linked_order.specs.Orders.{IsAt, left_from};

    ghost Value = { List ℕ };

    ghost view = { λ p. left_from p.next p.order.now.listed };

    ghost invariant = { λ p. IsAt p.next p.order.now.listed };
}

impl<'a> Places<'a> {
    /// All places of an order.
    pub(crate) fn of(order: &'a LinkedOrder) -> Places<'a>
        ensures { result ≡ order.now.listed }
    {
        Places {
            order,
            next: order.first(),
        }
    }
}

impl<'a> Iterator for Places<'a> {
    type Item = u32;

    ghost next_gives = { YieldsFirst (λ p. p) };

    ghost remaining = { item_count (λ p. p) };

    fn next(&mut self) -> Option<u32> {
        let place = self.next?;
        let order = self.order;
        self.next = order.next(place);
        Some(place)
    }
}
