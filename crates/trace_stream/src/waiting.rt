// The bytes of a trace that wait to be read.
ghost use Rattle.std.specs.Prelude.{◌≡◌, ◌+◌, ◌-◌, ◌<◌, ◌≤◌, ◌⊎◌, ◌++◌, ◌∷◌, ℕ, List, All, [], IfOk, drop, length, min, take, vec_len, vec_capacity};
ghost use Rattle.cxl_codec.specs.Events.{event_cells, EventFits};
ghost use Rattle.cxl_codec.specs.Grammar.{IsCutShort};

use event_scan::EventScan;
use std::alloc::{AllocError, Global};
use std::marker::Model;

/// How many bytes the longest record has.
const ROOM: usize = 370;

/// How many bytes that came since are scanned one by one, at most.
const FEW: usize = 16;

/// The bytes that wait, at most 370, in memory that is taken at once, and what the first of them leave to come where
/// they are those of an event record.
///
/// A contract sees the bytes.
#[derive(Debug, Drop)]
pub struct Waiting {
    bytes: Vec<u8>,
    // The bytes before this one were read.
    start: usize,
    // What is to come of an event record behind the first `scanned` bytes that wait.
    scan: EventScan,
    scanned: usize,
}

impl Model for Waiting {
    ghost use Rattle.std.specs.Prelude.{◌-◌, ◌≤◌, ℕ, List, drop, take, vec_len, vec_capacity};
    ghost use Rattle.event_scan.specs.Scanning.{IsBehind};

    ghost Value = { List ℕ };

    ghost view = { λ w. drop w.start w.bytes.items };

    ghost invariant = { λ w. (w.start ≤ vec_len w.bytes) × (vec_len w.bytes ≤ 370) × (370 ≤ vec_capacity w.bytes) × (w.scanned ≤ vec_len w.bytes - w.start) × IsBehind (take w.scanned (drop w.start w.bytes.items)) w.scan };
}

impl Waiting {
    /// No byte waits, with memory for 370; the error is want of it.
    pub fn new(alloc: Global) -> Result<Waiting, AllocError>
        ensures { IfOk result (λ waiting. waiting ≡ []) }
    {
        let bytes = Vec::with_capacity(alloc, ROOM)?;
        Ok(Waiting {
            bytes,
            start: 0,
            scan: EventScan::new(),
            scanned: 0,
        })
    }

    /// How many bytes wait.
    #[inline(always)]
    pub fn len(&self) -> usize
        ensures value { result ≡ length self.now }
        ensures fits { result ≤ 370 }
    {
        self.bytes.len() - self.start
    }

    /// The bytes.
    #[inline(always)]
    pub fn bytes(&self) -> &[u8]
        ensures { result.now ≡ self.now }
    {
        &self.bytes[self.start..]
    }

    /// Takes as many bytes of the piece as there is room for, and answers how many.
    #[inline(always)]
    pub fn feed(&mut self, piece: &[u8]) -> usize
        ensures count { result ≡ min (length piece.now) (370 - length self.old) }
        ensures after { self.new ≡ self.old ++ take result piece.now }
        ensures fits { length self.new ≤ 370 }
    {
        if piece.len() == 1 && self.bytes.len() < ROOM {
            put_one(&mut self.bytes, piece[0]);
            return 1;
        }
        self.feed_piece(piece)
    }

    /// Takes as many bytes of the piece as there is room for, and answers how many.
    #[inline(never)]
    fn feed_piece(&mut self, piece: &[u8]) -> usize
        ensures count { result ≡ min (length piece.now) (370 - length self.old) }
        ensures after { self.new ≡ self.old ++ take result piece.now }
        ensures fits { length self.new ≤ 370 }
    {
        let count = piece.len().min(ROOM - self.len());
        if ROOM - self.bytes.len() < count {
            forget(&mut self.bytes, self.start);
            self.start = 0;
            put(&mut self.bytes, &piece[..count]);
            return count;
        }
        put(&mut self.bytes, &piece[..count]);
        count
    }

    /// Forgets the first bytes, which were read.
    #[inline(always)]
    pub fn pass(&mut self, count: usize)
        requires { count ≤ length self.old }
        ensures { self.new ≡ drop count self.old }
    {
        self.start += count;
        if self.scanned != 0 {
            self.scan = EventScan::new();
            self.scanned = 0;
        }
    }

    /// Forgets so many of the last bytes.
    pub fn leave(&mut self, count: usize)
        requires { count ≤ length self.old }
        ensures { self.new ≡ take (length self.old - count) self.old }
    {
        let left = self.len() - count;
        self.bytes.truncate(self.start + left);
        if self.scanned != 0 {
            self.scan = EventScan::new();
            self.scanned = 0;
        }
    }

    /// Whether it is worth while to look for an event record that is cut short: a record is scanned already, or only a
    /// few bytes wait.
    #[inline(always)]
    pub fn may_be_cut(&self) -> bool {
        self.scanned != 0 || self.len() <= FEW
    }

    /// Up to how many bytes they are known to be those of an event record that is cut short, whatever comes: with fewer
    /// it is. The answer is 0 where nothing is known, as where many bytes came since the last look.
    #[inline(always)]
    pub fn cut_below(&mut self) -> usize
        ensures cut { (more : List ℕ) → All (λ b. b < 256) more → length (self.old ++ more) < result → IsCutShort EventFits event_cells (self.old ++ more) }
        ensures above { (result ≡ 0) ⊎ (length self.old < result) }
        ensures same { self.new ≡ self.old }
    {
        let waiting = self.len();
        if waiting - self.scanned > FEW + self.scan.patience() {
            return 0;
        }
        if self.scan.goes_on(&self.bytes[self.start + self.scanned..]) {
            self.scanned = waiting;
            return waiting + self.scan.patience();
        }
        self.scan = EventScan::new();
        self.scanned = 0;
        0
    }
}

/// Forgets the first bytes.
fn forget(bytes: &mut Vec<u8>, count: usize)
    requires { count ≤ vec_len bytes.old }
    ensures items { bytes.new.items ≡ drop count bytes.old.items }
    ensures len { vec_len bytes.new + count ≡ vec_len bytes.old }
    ensures capacity { vec_capacity bytes.new ≡ vec_capacity bytes.old }
{
    let left = bytes.len() - count;
    bytes.copy_within(count.., 0);
    bytes.truncate(left);
}

/// Appends bytes for which there is room.
#[inline(always)]
fn put(bytes: &mut Vec<u8>, more: &[u8])
    requires { vec_len bytes.old + length more.now ≤ vec_capacity bytes.old }
    ensures items { bytes.new.items ≡ bytes.old.items ++ more.now }
    ensures len { vec_len bytes.new ≡ vec_len bytes.old + length more.now }
    ensures capacity { vec_capacity bytes.old ≤ vec_capacity bytes.new }
{
    let _ = bytes.extend_from_slice(more);
}

/// Appends a byte for which there is room.
#[inline(always)]
fn put_one(bytes: &mut Vec<u8>, byte: u8)
    requires { vec_len bytes.old + 1 ≤ vec_capacity bytes.old }
    ensures items { bytes.new.items ≡ bytes.old.items ++ byte ∷ [] }
    ensures len { vec_len bytes.new ≡ vec_len bytes.old + 1 }
    ensures capacity { vec_capacity bytes.old ≤ vec_capacity bytes.new }
{
    let _ = bytes.push(byte);
}
