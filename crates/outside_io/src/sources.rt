ghost use Rattle.std.specs.Prelude.{ℕ, ◌+◌, ◌^◌, ◌<◌, List};
ghost use Rattle.std.specs.declared.option.Option.{Option};
ghost use Rattle.std.specs.Io.{ReadsAtMost};
ghost use Rattle.std.specs.Io.KnownBytes.{ReadConsumes};
ghost use Rattle.outside_io.specs.Counts.{HasCause, RisesAtMost};

use crate::Failed;

/// Where bytes come from (own rule).
///
/// A source may tell what it has left. Its count of faults rises where a read fails, and stands still where none
/// does: no fault is made up, and none is passed over.
pub trait Source {
    /// The bytes that are left to read, where the source tells.
    ghost left: { Self → Option (List ℕ) };

    /// How many faults there were.
    ghost faults: { Self → ℕ };

    /// No count that the source keeps, of bytes, reads or faults, is above this number.
    ghost highest_count: { Self → ℕ };

    /// Reads some of the bytes that are left into the front of `into`, and answers how many.
    ///
    /// `Ok(0)` for an `into` that isn't empty is the end of the input. `Err` comes exactly where a fault was counted
    /// in this call, and what is left is then unchanged.
    fn read(&mut self, into: &mut [u8]) -> Result<usize, Failed>
        requires { highest_count self.old + 1 < 2 ^ 63 }
        ensures within { ReadsAtMost result into.new }
        ensures bytes { ReadConsumes (left self.old) (left self.new) result into.new }
        ensures cause { HasCause (faults self.old) (faults self.new) result }
        ensures counts { RisesAtMost 1 (highest_count self.old) (highest_count self.new) };
}
