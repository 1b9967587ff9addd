// The inclusive filter.
ghost use Rattle.std.specs.Prelude.{◌≡◌, ◌+◌, ◌-◌, ◌^◌, ◌<◌, ◌≤◌, ◌∷◌, ◌⊎◌, [], IfOk, IsTrue, false, true};
ghost use Rattle.cxl_message.specs.declared.states.Listing.{Listing as Listed};
ghost use Rattle.snoop_filter.specs.Changes.{rows_hold, rows_let_go, rows_set};
ghost use Rattle.snoop_filter.specs.Filters.{free_in, opened_filter};
ghost use Rattle.snoop_filter.specs.Rows.{has_row, held_in, listed_in};
ghost use Rattle.snoop_filter.specs.Victims.{victim_in};

use crate::Block;
use crate::places::{Places, Row};
use cxl_message::{Line, Listing, Span};
use std::alloc::{AllocError, Global};
use std::marker::Model;

/// The device's inclusive filter (own rule).
///
/// A contract sees its rows, oldest first, how many reservations there are, and the numbers of entries, hosts and
/// lines. A row stands exactly while it is held or some host is listed. Only `open` takes memory.
#[derive(Drop)]
pub struct Filter {
    places: Places,
    reserved: u32,
    entries: u16,
    hosts: u8,
    lines: u32,
}

impl Model for Filter {
    ghost use Rattle.snoop_filter.specs.Filters.{FilterRecord};

    ghost Value = { FilterRecord };

    ghost use Rattle.snoop_filter.specs.Kept.{IsKept, seen};

    ghost view = { seen };

    ghost invariant = { IsKept };
}

impl Filter {
    /// A filter of so many entries for so many lines and up to 16 hosts, without rows. It takes all the memory that the
    /// filter ever has, and `Err` is want of it.
    pub fn open(alloc: Global, entries: u16, hosts: u8, lines: u32) -> Result<Filter, AllocError>
        requires { hosts ≤ 16 }
        ensures opened { IfOk result (λ filter. filter ≡ opened_filter entries hosts lines) }
    {
        let places = Places::open(alloc, u32::from(entries), lines)?;
        Ok(Filter {
            places,
            reserved: 0,
            entries,
            hosts,
            lines,
        })
    }

    /// How a host is listed for a line: I where the line has no row. There are fewer than 2^32 lines.
    pub fn listed(&self, line: Line, host: u8) -> Listing
        requires line { line.0 < self.now.lines }
        requires host { host < self.now.hosts }
        ensures listed { result ≡ listed_in line.0 host self.now.rows }
        ensures lines { self.now.lines < 2 ^ 32 }
    {
        match self.places.table[line.0 as usize] {
            Some(place) => self.places.rows[place as usize].listed[host as usize],
            None => Listing::I,
        }
    }

    /// Whether a line has a row.
    pub fn has_row(&self, line: Line) -> bool
        requires line { line.0 < self.now.lines }
        ensures row { result ≡ has_row line.0 self.now.rows }
    {
        self.places.table[line.0 as usize].is_some()
    }

    /// Whether a line has a row that is held.
    pub fn held(&self, line: Line) -> bool
        requires line { line.0 < self.now.lines }
        ensures held { result ≡ held_in line.0 self.now.rows }
    {
        match self.places.table[line.0 as usize] {
            Some(place) => self.places.rows[place as usize].held,
            None => false,
        }
    }

    /// How many hosts there are, 16 at most.
    pub fn hosts(&self) -> u8
        ensures hosts { result ≡ self.now.hosts }
        ensures within { result ≤ 16 }
    {
        self.hosts
    }
}

impl Filter {
    /// Lists a host for a line. With I it isn't listed any more, and a row that doesn't stand any more is gone.
    pub fn set(&mut self, line: Line, host: u8, to: Listing)
        requires line { line.0 < self.old.lines }
        requires host { host < self.old.hosts }
        requires row { IsTrue (has_row line.0 self.old.rows) ⊎ (to ≡ Listed.I) }
        ensures set { self.new ≡ record self.old { rows = rows_set (line.0 ∷ []) host to self.old.rows } }
    {
        match self.places.table[line.0 as usize] {
            Some(place) => {
                let mut row = self.places.rows[place as usize];
                row.listed[host as usize] = to;
                self.places.put(self.hosts, place, &row);
            }
            None => {}
        }
    }

    /// Holds a line: its row, in its place, or a new one that goes last. The line isn't held before, and has a row or
    /// finds an entry free.
    pub fn hold(&mut self, line: Line)
        requires line { line.0 < self.old.lines }
        requires not_held { held_in line.0 self.old.rows ≡ false }
        requires room { IsTrue (has_row line.0 self.old.rows) ⊎ (1 ≤ free_in self.old) }
        ensures held { self.new ≡ record self.old { rows = rows_hold self.old.hosts line.0 self.old.rows } }
    {
        match self.places.table[line.0 as usize] {
            Some(place) => {
                let mut row = self.places.rows[place as usize];
                row.held = true;
                self.places.rows[place as usize] = row;
            }
            None => self.places.add(line.0),
        }
    }

    /// Lets a line go that is held. A row that doesn't stand any more is gone.
    pub fn let_go(&mut self, line: Line)
        requires line { line.0 < self.old.lines }
        requires held { held_in line.0 self.old.rows ≡ true }
        ensures let_go { self.new ≡ record self.old { rows = rows_let_go (line.0 ∷ []) self.old.rows } }
    {
        match self.places.table[line.0 as usize] {
            Some(place) => {
                let mut row = self.places.rows[place as usize];
                row.held = false;
                self.places.put(self.hosts, place, &row);
            }
            None => {}
        }
    }

    /// Reserves an entry. One is free before.
    pub fn reserve(&mut self)
        requires { 1 ≤ free_in self.old }
        ensures reserved { self.new ≡ record self.old { reserved = self.old.reserved + 1 } }
    {
        self.reserved += 1;
    }

    /// Gives a reservation up. There is one before.
    pub fn release(&mut self)
        requires { 1 ≤ self.old.reserved }
        ensures released { self.new ≡ record self.old { reserved = self.old.reserved - 1 } }
    {
        self.reserved -= 1;
    }

    /// How many entries are free: all less the rows and the reservations, which are never more.
    #[tactic(auto, using(crate::proofs::Seen::shown_length))]
    pub fn free_entries(&self) -> u32
        ensures free { result ≡ free_in self.now }
    {
        u32::from(self.entries) - self.places.order.len() - self.reserved
    }
}

impl Filter {
    ghost use Rattle.cxl_message.specs.Codes.{span_len};
    ghost use Rattle.snoop_filter.specs.Victims.{idle_block_around, is_idle_block, is_idle_in};

    /// The block that is evicted next: for the oldest row that isn't held, the largest aligned block of 4, 2 or 1 lines
    /// with its line in which each line has a row that isn't held. `None` where every row is held, or there is none.
    pub fn victim(&self) -> Option<Block>
        ensures victim { result ≡ victim_in self.now.rows }
    {
        match self.places.oldest_free() {
            Some(place) => Some(self.idle_block_around(self.places.row(place).line)),
            None => None,
        }
    }

    /// Whether a line has a row that isn't held.
    fn is_idle(&self, line: u32) -> bool
        ensures { result ≡ is_idle_in self.now.rows line }
    {
        match self.places.place_of(line) {
            Some(place) => self.places.is_free(place),
            None => false,
        }
    }

    /// Whether each line of a block has a row that isn't held.
    fn is_idle_block(&self, first: u32, span: Span) -> bool
        requires { first + span_len span ≤ 2 ^ 32 }
        ensures { result ≡ is_idle_block self.now.rows first span }
    {
        match span {
            Span::One => self.is_idle(first),
            Span::Two => self.is_idle(first) && self.is_idle(first + 1),
            Span::Four => {
                self.is_idle(first)
                    && self.is_idle(first + 1)
                    && self.is_idle(first + 2)
                    && self.is_idle(first + 3)
            }
        }
    }

    /// The largest aligned block with a line in which each line has a row that isn't held, where that line has one.
    fn idle_block_around(&self, line: u32) -> Block
        ensures { result ≡ idle_block_around self.now.rows line }
    {
        let four = line - line % 4;
        if self.is_idle_block(four, Span::Four) {
            return Block {
                first: Line(four),
                span: Span::Four,
            };
        }
        let two = line - line % 2;
        if self.is_idle_block(two, Span::Two) {
            return Block {
                first: Line(two),
                span: Span::Two,
            };
        }
        Block {
            first: Line(line),
            span: Span::One,
        }
    }
}
