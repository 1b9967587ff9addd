ghost use Rattle.std.specs.Prelude.{ℕ, ◌+◌, ◌^◌, ◌<◌, List, length};
ghost use Rattle.std.specs.declared.option.Option.{Option};
ghost use Rattle.std.specs.Io.{WritesAtMost};
ghost use Rattle.std.specs.Io.KnownBytes.{WriteAppends};
ghost use Rattle.outside_io.specs.Counts.{HasCause, RisesAtMost, TakesSome, taken_count};

use crate::Failed;

/// Where bytes go to (own rule).
///
/// A sink may tell what has gone to it. Its count of faults rises where a write fails, and stands still where none
/// does: no fault is made up, and none is passed over.
pub trait Sink {
    /// The bytes that have gone to the sink, where it tells.
    ghost gone: { Self → Option (List ℕ) };

    /// How many faults there were.
    ghost faults: { Self → ℕ };

    /// No count that the sink keeps, of bytes, writes or faults, is above this number.
    ghost highest_count: { Self → ℕ };

    /// Takes some of the first bytes of `from`, and answers how many: at least one, where `from` isn't empty.
    ///
    /// `Err` comes exactly where a fault was counted in this call, and what has gone is then unchanged.
    fn write(&mut self, from: &[u8]) -> Result<usize, Failed>
        requires { highest_count self.old + length from.now + 1 < 2 ^ 63 }
        ensures within { WritesAtMost result from.now }
        ensures progress { TakesSome result from.now }
        ensures bytes { WriteAppends (gone self.old) (gone self.new) result from.now }
        ensures cause { HasCause (faults self.old) (faults self.new) result }
        ensures counts { RisesAtMost (taken_count result + 1) (highest_count self.old) (highest_count self.new) };
}
