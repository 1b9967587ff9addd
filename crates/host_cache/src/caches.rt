// Caches.
ghost use Rattle.std.specs.Prelude.{◌++◌, ◌<◌, ◌∷◌, ◌≡◌, ◌≤◌, [], IfOk, Some, false, length, map, nat_le, option_map, slice_get, true};
ghost use Rattle.coherence_model.specs.Copies.{no_copy};
ghost use Rattle.cxl_message.specs.Opening.{zero_bytes};
ghost use Rattle.host_cache.specs.Caches.{copy_held, copy_with, first_idle, line_named};
ghost use Rattle.line_pool.specs.Pools.{IsInUse};
ghost use Rattle.host_record.specs.Ways.{copy_in, give_up, has_way as line_has_way, put_way};
ghost use Rattle.host_record.specs.Tables.{lookup};

use crate::BusyLines;
use crate::held::Held;
use cxl_message::{Bytes64, CopyState, Line};
use line_pool::LinePool;
use linked_order::LinkedOrder;
use std::alloc::{AllocError, Global};
use std::marker::Model;

/// The ways of a host's cache (own rule).
///
/// A contract sees the list of its ways, oldest first: each has a line and its copy, a state with 64 bytes; a way whose
/// state is I waits for a fill, and its bytes are zero. It sees how many ways there may be, and how many lines there are.
/// Only `open` takes memory. No call but `oldest_idle` and `way_at`, which walk, looks at more than one way and its
/// neighbours.
#[derive(Debug, Drop)]
pub struct HostCache {
    // By line.
    table: Vec<Option<Held>>,
    pool: LinePool,
    order: LinkedOrder,
}

impl Model for HostCache {
    ghost use Rattle.host_cache.specs.Caches.{Cache, IsKept, cache_of};

    ghost Value = { Cache };

    ghost view = { λ c. cache_of c.table.items c.pool c.order };

    ghost invariant = { λ c. IsKept c.table.items c.pool c.order };
}

impl HostCache {
    /// A cache without a way, for so many ways at most of lines below `lines`. It takes all the memory that the cache ever
    /// has, and `Err` is want of it.
    pub fn open(alloc: Global, ways: u16, lines: u32) -> Result<HostCache, AllocError>
        ensures opened { IfOk result (λ cache. cache ≡ record { ways = []; room = ways; lines = lines }) }
    {
        let table = vec![in alloc; None; lines as usize]?;
        let pool = LinePool::open(alloc, u32::from(ways))?;
        let order = LinkedOrder::open(alloc, lines)?;
        Ok(HostCache { table, pool, order })
    }

    /// The state of a line's copy: I where the line has no way.
    pub fn copy(&self, line: Line) -> CopyState
        ensures value { result ≡ (copy_in self.now.ways line.0).state }
    {
        match held_at(&self.table, line) {
            Some(held) => held.state,
            None => CopyState::I,
        }
    }

    /// Whether a line has a way.
    pub fn has_way(&self, line: Line) -> bool
        ensures value { result ≡ line_has_way line.0 self.now.ways }
    {
        held_at(&self.table, line).is_some()
    }

    /// Whether there are as many ways as there may be.
    pub fn full(&self) -> bool
        ensures value { result ≡ nat_le self.now.room (length self.now.ways) }
        ensures most { length self.now.ways ≤ self.now.room }
    {
        self.pool.spare() == 0
    }

    /// The bytes of a line's copy: zeros where its state is I, or where the line has no way.
    pub fn bytes(&self, line: Line) -> Bytes64
        ensures value { result ≡ (copy_in self.now.ways line.0).bytes }
    {
        match held_at(&self.table, line) {
            Some(held) => bytes_held(&self.pool, held),
            None => zero(),
        }
    }

    /// Gives a line that has none a way, the newest, without a copy.
    pub fn add(&mut self, line: Line)
        requires below { line.0 < self.old.lines }
        requires no_way { line_has_way line.0 self.old.ways ≡ false }
        requires room { length self.old.ways < self.old.room }
        ensures added { self.new ≡ record { ways = self.old.ways ++ record { line = line.0; copy = no_copy } ∷ []; room = self.old.room; lines = self.old.lines } }
    {
        if let Some(slot) = self.pool.take() {
            let state = CopyState::I;
            self.table[line.0 as usize] = Some(Held { state, slot });
            self.order.add_last(line.0);
        }
    }

    /// Gives the line of a way another copy; the way keeps its place.
    pub fn put(&mut self, line: Line, state: CopyState, bytes: &Bytes64)
        requires { line_has_way line.0 self.old.ways ≡ true }
        ensures put { self.new ≡ record { ways = put_way line.0 (copy_with state bytes.now) self.old.ways; room = self.old.room; lines = self.old.lines } }
    {
        if let Some(held) = held_at(&self.table, line) {
            let slot = held.slot;
            *self.pool.bytes_mut(slot) = bytes.0;
            self.table[line.0 as usize] = Some(Held { state, slot });
        }
    }

    /// Takes the copy of a way's line away: the way keeps its place where it is still wanted, and else it goes too.
    pub fn drop_copy(&mut self, line: Line, keep_way: bool)
        requires { line_has_way line.0 self.old.ways ≡ true }
        ensures dropped { self.new ≡ record { ways = give_up line.0 keep_way self.old.ways; room = self.old.room; lines = self.old.lines } }
    {
        if let Some(held) = held_at(&self.table, line) {
            if keep_way {
                let slot = held.slot;
                let state = CopyState::I;
                self.table[line.0 as usize] = Some(Held { state, slot });
            } else {
                self.pool.give(held.slot);
                self.table[line.0 as usize] = None;
                self.order.take_out(line.0);
            }
        }
    }

    /// The line of the way with this number, counted from the oldest.
    pub fn way_at(&self, k: u16) -> Option<Line>
        ensures value { result ≡ option_map line_named (slice_get (map (λ w. w.line) self.now.ways) k) }
    {
        let line = self.order.iter().nth(k as usize)?;
        Some(Line(line))
    }

    /// The line of the oldest way that isn't busy, or `None` where each way's line is.
    pub fn oldest_idle(&self, busy: &BusyLines) -> Option<Line>
        ensures value { result ≡ option_map line_named (first_idle busy.now self.now.ways) }
    {
        let line = self.order.iter().find(|line| !busy.has(Line(*line)))?;
        Some(Line(line))
    }
}

/// What the way of a line holds, if it has one.
fn held_at(table: &[Option<Held>], line: Line) -> Option<Held>
    ensures { result ≡ lookup table.now line.0 }
{
    match table.get(line.0 as usize) {
        Some(held) => *held,
        None => None,
    }
}

/// The bytes of the copy that a way holds: zeros where its state is I.
fn bytes_held(pool: &LinePool, held: Held) -> Bytes64
    requires { IsInUse pool.now held.slot }
    ensures { result ≡ (copy_held pool.now (Some held)).bytes }
{
    match held.state {
        CopyState::I => zero(),
        CopyState::S => Bytes64(*pool.bytes(held.slot)),
        CopyState::E => Bytes64(*pool.bytes(held.slot)),
        CopyState::M => Bytes64(*pool.bytes(held.slot)),
    }
}

/// The bytes of a line without a copy.
fn zero() -> Bytes64
    ensures { result ≡ zero_bytes }
{
    Bytes64([0; 64])
}
