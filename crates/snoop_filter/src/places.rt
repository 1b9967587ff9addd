// The places of rows: each has a line, is filed under it in a table, and is joined to its neighbours in an order.
ghost use Rattle.std.specs.Prelude.{◌≡◌, ◌<◌, ◌≤◌, ◌+◌, ◌++◌, ◌∷◌, ◌⊎◌, ℕ, List, [], IfOk, None, Some, false, find, length, not, replicate, slice_get, slice_set, take, true, unwrap_or, vec_capacity, vec_len};
ghost use Rattle.std.specs.List.{list_any, range_with_len};
ghost use Rattle.cxl_message.specs.Lists.{is_in};
ghost use Rattle.snoop_filter.specs.Moves.{IsAdded, IsPut, IsRemoved};
ghost use Rattle.snoop_filter.specs.Places.{blank_row, row_in, row_seen};
ghost use Rattle.snoop_filter.specs.Rows.{is_some_listing, stands};

use cxl_message::Listing;
use linked_order::LinkedOrder;
use std::alloc::{AllocError, Global};

/// A row: its line, the listing of each host, and whether it is held.
#[derive(Clone, Copy)]
pub struct Row {
    /// The line.
    pub line: u32,
    /// How each host is listed for it.
    pub listed: [Listing; 16],
    /// Whether a task holds it.
    pub held: bool,
}

/// What a place holds that has no row.
const BLANK: Row = Row {
    line: 0,
    listed: [Listing::I; 16],
    held: false,
};

/// The places of a filter's rows.
#[derive(Drop)]
pub struct Places {
    // For each line the place of its row.
    pub table: Vec<Option<u32>>,
    /// The rows by place.
    pub rows: Vec<Row>,
    // The places that have a row, by the age of the rows.
    pub order: LinkedOrder,
    // The places that have none.
    pub spare: Vec<u32>,
}

impl Row {
    /// Whether one of the first hosts is listed S or A.
    fn lists(&self, hosts: u8) -> bool
        requires { hosts ≤ 16 }
        ensures { result ≡ list_any is_some_listing (take hosts self.now.listed) }
    {
        self.listed[..hosts as usize]
            .iter()
            .any(|listing| is_listed(*listing))
    }

    /// Whether the row stands: one of the first hosts is listed, or it is held.
    fn stands(&self, hosts: u8) -> bool
        requires { hosts ≤ 16 }
        ensures { result ≡ stands (row_seen hosts self.now) }
    {
        self.lists(hosts) || self.held
    }
}

/// Whether a listing is S or A.
fn is_listed(listing: Listing) -> bool
    ensures { result ≡ is_some_listing listing }
{
    match listing {
        Listing::I => false,
        Listing::S | Listing::A => true,
    }
}

impl Places {
    /// Places for so many rows, of which none has one, and a table for so many lines.
    pub fn open(alloc: Global, entries: u32, lines: u32) -> Result<Places, AllocError>
        ensures table { IfOk result (λ p. p.table.items ≡ replicate lines None) }
        ensures rows { IfOk result (λ p. p.rows.items ≡ replicate entries blank_row) }
        ensures order { IfOk result (λ p. p.order ≡ record { places = entries; listed = [] }) }
        ensures spare { IfOk result (λ p. p.spare.items ≡ range_with_len 0 entries) }
    {
        let table = vec![in alloc; None; lines as usize]?;
        let rows = vec![in alloc; BLANK; entries as usize]?;
        let order = LinkedOrder::open(alloc, entries)?;
        let spare = numbers_below(alloc, entries)?;
        Ok(Places {
            table,
            rows,
            order,
            spare,
        })
    }

    /// Puts a new row of a line last, which is held and lists no host.
    pub fn add(&mut self, line: u32)
        requires line { line < vec_len self.old.table }
        requires spare { 0 < vec_len self.old.spare }
        requires apart { (p : ℕ) (rest : List ℕ) → self.old.spare.items ≡ rest ++ p ∷ [] → (p < vec_len self.old.rows) × (p < self.old.order.places) × (is_in p self.old.order.listed ≡ false) }
        ensures added { IsAdded self.old self.new line }
    {
        match self.spare.pop() {
            Some(place) => {
                self.table[line as usize] = Some(place);
                self.rows[place as usize] = Row {
                    line,
                    listed: [Listing::I; 16],
                    held: true,
                };
                self.order.add_last(place);
            }
            None => unreachable!("an entry is free"),
        }
    }

    /// Puts a row for the one in its place. One that doesn't stand is taken out.
    pub fn put(&mut self, hosts: u8, place: u32, row: &Row)
        requires hosts { hosts ≤ 16 }
        requires line { row.now.line < vec_len self.old.table }
        requires place { place < vec_len self.old.rows }
        requires listed { is_in place self.old.order.listed ≡ true }
        requires room { vec_len self.old.spare < vec_capacity self.old.spare }
        ensures put { IsPut hosts self.old self.new place row.now ⊎ IsRemoved hosts self.old self.new place row.now }
    {
        if row.stands(hosts) {
            self.rows[place as usize] = *row;
        } else {
            self.table[row.line as usize] = None;
            self.order.take_out(place);
            push_spare(&mut self.spare, place);
        }
    }

    /// The place of a line's row, if the line is one of the table's and has a row.
    pub fn place_of(&self, line: u32) -> Option<u32>
        ensures { result ≡ unwrap_or (slice_get self.now.table.items line) None }
    {
        match self.table.get(line as usize) {
            Some(place) => *place,
            None => None,
        }
    }

    /// The row in a place.
    pub fn row(&self, place: u32) -> Row
        ensures { result ≡ row_in self.now.rows.items place }
    {
        match self.rows.get(place as usize) {
            Some(row) => *row,
            None => BLANK,
        }
    }

    /// Whether a place's row isn't held.
    pub fn is_free(&self, place: u32) -> bool
        ensures { result ≡ not (row_in self.now.rows.items place).held }
    {
        !self.row(place).held
    }

    /// The place of the oldest row that isn't held.
    pub fn oldest_free(&self) -> Option<u32>
        ensures { result ≡ find (λ p. not (row_in self.now.rows.items p).held) self.now.order.listed }
    {
        self.order.iter().find(|place| self.is_free(*place))
    }
}

/// Appends a place for which there is room.
fn push_spare(spare: &mut Vec<u32>, place: u32)
    requires { vec_len spare.old < vec_capacity spare.old }
    ensures items { spare.new.items ≡ spare.old.items ++ place ∷ [] }
    ensures capacity { vec_capacity spare.old ≤ vec_capacity spare.new }
{
    spare.push_reserved(place);
}

/// The numbers below `count`, from 0 on.
fn numbers_below(alloc: Global, count: u32) -> Result<Vec<u32>, AllocError>
    ensures { IfOk result (λ numbers. numbers.items ≡ range_with_len 0 count) }
{
    (0..count).collect(alloc)
}
