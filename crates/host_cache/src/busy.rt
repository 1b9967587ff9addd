// Sets of lines.
ghost use Rattle.std.specs.Prelude.{◌+◌, ◌<◌, ◌^◌, ◌≡◌, IfOk, false, length, replicate, slice_set, true};
ghost use Rattle.std.specs.List.{list_any};
ghost use Rattle.host_cache.specs.Busy.{count_after};
ghost use Rattle.host_record.specs.Tables.{place_or};

use cxl_message::Line;
use std::alloc::{AllocError, Global};
use std::marker::Model;

/// A set of the lines below a number (own rule).
///
/// A contract sees of each line whether it is in the set. Only `open` takes memory.
#[derive(Debug, Drop)]
pub struct BusyLines {
    marks: Vec<bool>,
    // How many lines are in the set.
    count: u32,
}

impl Model for BusyLines {
    ghost use Rattle.std.specs.Prelude.{Bool, List};
    ghost use Rattle.host_cache.specs.Busy.{IsCounted};

    ghost Value = { List Bool };

    ghost view = { λ b. b.marks.items };

    ghost invariant = { λ b. IsCounted b.count b.marks.items };
}

impl BusyLines {
    /// The empty set, with room for each line below `lines`. It takes all the memory that the set ever has, and `Err` is
    /// want of it.
    pub fn open(alloc: Global, lines: u32) -> Result<BusyLines, AllocError>
        ensures opened { IfOk result (λ busy. busy ≡ replicate lines false) }
    {
        let marks = vec![in alloc; false; lines as usize]?;
        Ok(BusyLines { marks, count: 0 })
    }

    /// Puts a line for which there is room into the set, or takes it out.
    pub fn mark(&mut self, line: Line, on: bool)
        requires { line.0 < length self.old }
        ensures marked { self.new ≡ slice_set self.old line.0 on }
    {
        let at = line.0 as usize;
        self.count = recounted(self.count, self.marks[at], on);
        self.marks[at] = on;
    }

    /// Whether a line is in the set.
    pub fn has(&self, line: Line) -> bool
        ensures value { result ≡ place_or false self.now line.0 }
    {
        match self.marks.get(line.0 as usize) {
            Some(on) => *on,
            None => false,
        }
    }

    /// Whether some line is in the set.
    pub fn any(&self) -> bool
        ensures value { result ≡ list_any (λ on. on) self.now }
    {
        self.count > 0
    }
}

/// A count after a mark was put in the place of another.
fn recounted(count: u32, was: bool, is: bool) -> u32
    requires more { was ≡ false → count + 1 < 2 ^ 32 }
    requires less { was ≡ true → 0 < count }
    ensures { result ≡ count_after count was is }
{
    match (was, is) {
        (false, true) => count + 1,
        (true, false) => count - 1,
        _ => count,
    }
}
