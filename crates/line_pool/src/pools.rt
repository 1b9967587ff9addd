// Pools of 64-byte lines.
ghost use Rattle.std.specs.Prelude.{◌≡◌, ◌↔◌, ◌+◌, ◌-◌, ◌<◌, ◌≤◌, ℕ, None, Some, IfOk, IfNone, IfSome, IsNone, count_by, is_none, length, replicate, slice_set, vec_len, vec_capacity, ◌++◌, ◌∷◌, []};
ghost use Rattle.std.specs.Borrow.{sem};
ghost use Rattle.std.specs.List.{range_with_len};
ghost use Rattle.line_pool.specs.Pools.{IsInUse, line_of};
ghost use Rattle.line_pool.specs.Lending.{LendsLine};

use crate::SlotId;
use std::alloc::{AllocError, Global};
use std::marker::Model;

/// How many bytes a line has.
const LINE: usize = 64;

/// A region of 64-byte lines, each in a slot of its own (own rule).
///
/// A contract sees of each slot its 64 bytes, or `None` where it is not in use, and how many slots are spare. Only
/// `open` takes memory.
#[derive(Debug, Drop)]
pub struct LinePool {
    lines: Vec<[u8; LINE]>,
    // The slots that are not in use, each once. A slot is in use exactly where it is not among them.
    free: Vec<u32>,
}

impl Model for LinePool {
    ghost use Rattle.std.specs.Prelude.{vec_len, vec_capacity};
    ghost use Rattle.line_pool.specs.Pools.{Pool, lines_in_use};
    ghost use Rattle.line_pool.specs.Region.{IsSound, marks};

    ghost Value = { Pool };

    ghost view = { λ p. record { slots = lines_in_use (marks p.free.items (vec_len p.lines)) p.lines.items; spare = vec_len p.free } };

    ghost invariant = { λ p. IsSound p.lines.items (marks p.free.items (vec_len p.lines)) p.free.items (vec_capacity p.free) };
}

impl LinePool {
    /// A pool of this many slots, 131,072 at most, of which none is in use. It takes all the memory that the pool ever
    /// has, and `Err` is want of it.
    pub fn open(alloc: Global, slots: u32) -> Result<LinePool, AllocError>
        requires { slots ≤ 131072 }
        ensures opened { IfOk result (λ pool. pool ≡ record { slots = replicate slots None; spare = slots }) }
    {
        let lines = vec![in alloc; [0; LINE]; slots as usize]?;
        let free = numbers_below(alloc, slots)?;
        Ok(LinePool { lines, free })
    }

    /// Takes a slot that was not in use, and its bytes are zero. The answer is `None` exactly where none is spare, and
    /// then nothing changes.
    pub fn take(&mut self) -> Option<SlotId>
        ensures none_spare { IsNone result ↔ (self.old.spare ≡ 0) }
        ensures refused { IfNone result (self.new ≡ self.old) }
        ensures not_in_use { IfSome result (λ slot. (slot < length self.old.slots) × (line_of self.old slot ≡ None)) }
        ensures taken { IfSome result (λ slot. self.new ≡ record { slots = slice_set self.old.slots slot (Some (replicate 64 0)); spare = self.old.spare - 1 }) }
    {
        let slot = self.free.pop()?;
        self.lines[slot as usize] = [0; LINE];
        Some(SlotId(slot))
    }

    /// Gives back a slot that is in use in this pool; from then on it is not. No other slot changes.
    pub fn give(&mut self, slot: SlotId)
        requires { IsInUse self.old slot }
        ensures given { self.new ≡ record { slots = slice_set self.old.slots slot None; spare = self.old.spare + 1 } }
    {
        put(&mut self.free, slot.0);
    }

    /// The bytes of a slot that is in use in this pool.
    pub fn bytes(&self, slot: SlotId) -> &[u8; LINE]
        requires { IsInUse self.now slot }
        ensures value { line_of self.now slot ≡ Some result.now }
    {
        &self.lines[slot.0 as usize]
    }

    /// The bytes of a slot that is in use in this pool, to be written. What is written is what the slot holds
    /// afterwards, and no other slot changes.
    pub fn bytes_mut(&mut self, slot: SlotId) -> &mut [u8; LINE]
        requires { IsInUse self.old slot }
        ensures* written { sem 𝓛 (LendsLine self.entry slot result) }
        ensures value { line_of self.old slot ≡ Some result.now }
    {
        &mut self.lines[slot.0 as usize]
    }

    /// How many slots are not in use, 131,072 at most.
    pub fn spare(&self) -> u32
        ensures value { result ≡ self.now.spare }
        ensures counted { result ≡ count_by is_none self.now.slots }
        ensures within { result ≤ 131072 }
    {
        self.free.len() as u32
    }
}

/// Appends a number for which there is room.
fn put(numbers: &mut Vec<u32>, number: u32)
    requires { vec_len numbers.old < vec_capacity numbers.old }
    ensures items { numbers.new.items ≡ numbers.old.items ++ number ∷ [] }
    ensures len { vec_len numbers.new ≡ vec_len numbers.old + 1 }
    ensures capacity { vec_capacity numbers.old ≤ vec_capacity numbers.new }
{
    let _ = numbers.push(number);
}

/// The numbers below `count`, from 0 on.
fn numbers_below(alloc: Global, count: u32) -> Result<Vec<u32>, AllocError>
    ensures { IfOk result (λ numbers. numbers.items ≡ range_with_len 0 count) }
{
    (0..count).collect(alloc)
}
