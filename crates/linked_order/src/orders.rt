// Orders of places.
ghost use Rattle.std.specs.Prelude.{◌≡◌, ◌<◌, ◌++◌, ◌∷◌, [], IfOk, None, Some, false, length, slice_get, true};
ghost use Rattle.linked_order.specs.Orders.{AreBelow, IsOnce, after, is_listed, without_place};

use crate::Places;
use crate::links::{ALONE, Link, append, place_named, replaced, unlink};
use std::alloc::{AllocError, Global};
use std::marker::Model;

/// An order of some of the places of a table, oldest first (own rule).
///
/// A contract sees how many places the table has, and the list of those in the order: each is one of the table's, and
/// none is there twice. Only `open` takes memory, and no call but a walk by `iter` looks at more than one place and its
/// neighbours.
#[derive(Debug, Drop)]
pub struct LinkedOrder {
    links: Vec<Link>,
    // The names of the oldest and the newest place, or 0.
    oldest: u32,
    newest: u32,
    len: u32,
}

impl Model for LinkedOrder {
    ghost use Rattle.std.specs.Prelude.{length};
    ghost use Rattle.linked_order.specs.Orders.{Order};
    ghost use Rattle.linked_order.specs.Links.{IsLinked, walk};

    ghost Value = { Order };

    ghost view = { λ o. record { places = length o.links.items; listed = walk o.len o.oldest o.links.items } };

    ghost invariant = { λ o. IsLinked o.links.items o.oldest o.newest o.len (walk o.len o.oldest o.links.items) };
}

impl LinkedOrder {
    /// The empty order of a table with this many places. It takes all the memory that the order ever has, and `Err` is
    /// want of it.
    pub fn open(alloc: Global, places: u32) -> Result<LinkedOrder, AllocError>
        ensures opened { IfOk result (λ order. order ≡ record { places = places; listed = [] }) }
    {
        let links = vec![in alloc; ALONE; places as usize]?;
        Ok(LinkedOrder {
            links,
            oldest: 0,
            newest: 0,
            len: 0,
        })
    }

    /// Puts a place of the table that isn't in the order last.
    pub fn add_last(&mut self, place: u32)
        requires below { place < self.old.places }
        requires new { is_listed place self.old.listed ≡ false }
        ensures added { self.new ≡ record { places = self.old.places; listed = self.old.listed ++ place ∷ [] } }
    {
        append(&mut self.links, place, self.newest);
        self.oldest = replaced(self.oldest, 0, place + 1);
        self.newest = place + 1;
        self.len += 1;
    }

    /// Takes a place out of the order; the others keep theirs.
    pub fn take_out(&mut self, place: u32)
        requires listed { is_listed place self.old.listed ≡ true }
        ensures taken_out { self.new ≡ record { places = self.old.places; listed = without_place place self.old.listed } }
        ensures once { IsOnce self.old.listed }
    {
        let link = unlink(&mut self.links, place);
        self.oldest = replaced(self.oldest, place + 1, link.newer);
        self.newest = replaced(self.newest, place + 1, link.older);
        self.len -= 1;
    }

    /// The oldest place, or `None` where the order is empty.
    pub fn first(&self) -> Option<u32>
        ensures value { result ≡ slice_get self.now.listed 0 }
    {
        place_named(self.oldest)
    }

    /// The place after one of the order, or `None` where it is the newest.
    pub fn next(&self, place: u32) -> Option<u32>
        requires listed { is_listed place self.now.listed ≡ true }
        ensures value { result ≡ after place self.now.listed }
        ensures once { IsOnce self.now.listed }
    {
        place_named(self.links[place as usize].newer)
    }

    /// How many places are in the order.
    pub fn len(&self) -> u32
        ensures value { result ≡ length self.now.listed }
        ensures once { IsOnce self.now.listed }
        ensures below { AreBelow self.now.places self.now.listed }
    {
        self.len
    }

    /// The places of the order, oldest first.
    pub fn iter(&self) -> Places
        ensures value { result ≡ self.now.listed }
    {
        Places::of(self)
    }
}
