// What memory holds before the first event.
ghost use Rattle.std.specs.Option.{option_map_or};
ghost use Rattle.std.specs.Prelude.{◌≡◌, ◌==◌, find, IsTrue};
ghost use Rattle.cxl_message.specs.Codes.{bytes_eq};
ghost use Rattle.cxl_message.specs.Opening.{ascends_from, is_after_last, zero_bytes};

use crate::configuration::Setup;
use crate::identifiers::{Bytes64, Line};
use std::alloc::Global;
use std::marker::Model;
use thiserror::Error;

/// Why `Opening::add` refuses (own rule).
#[derive(Clone, Copy, PartialEq, Eq, Debug, Error)]
pub enum OpeningRefusal {
    /// The line isn't greater than the last one added.
    #[error("order: the line isn't greater than the last one")]
    Order,
    /// All bytes are 0.
    #[error("zero: all bytes of the line are 0")]
    Zero,
    /// There is no memory.
    #[error("memory: there is none left")]
    Memory,
}

/// What memory holds before the first event: lines that ascend, each with bytes that aren't all zero. A line that
/// isn't among them holds zeros (own rule).
#[derive(Drop)]
pub struct Opening {
    pairs: Vec<(Line, Bytes64)>,
}

impl Model for Opening {
    ghost use Rattle.std.specs.Prelude.{List};
    ghost use Rattle.cxl_message.specs.declared.identifiers.Line.{Line};
    ghost use Rattle.cxl_message.specs.declared.identifiers.Bytes64.{Bytes64};
    ghost use Rattle.cxl_message.specs.Opening.{IsOpening};

    ghost Value = { List (Line × Bytes64) };

    ghost view = { λ o. o.pairs.items };

    ghost invariant = { λ o. IsOpening o.pairs.items };
}

impl Opening {
    ghost use Rattle.std.specs.Prelude.{[], ◌∷◌, ◌++◌, OnOk, OnErr, Err, Some, None};
    ghost use Rattle.cxl_message.specs.Opening.{IsOpening, bytes_at as opening_bytes_at, opening_fits, opening_refusal};

    /// The opening of which all lines are zero.
    pub fn new(alloc: Global) -> Opening
        ensures { result ≡ [] }
    {
        Opening {
            pairs: Vec::new(alloc),
        }
    }

    /// Adds a line and its bytes after those that are there. It is refused by Order where the line isn't greater
    /// than the last one added, else by Zero where all bytes are 0, and otherwise only for want of memory. A refusal
    /// changes nothing.
    pub fn add(&mut self, line: Line, bytes: &Bytes64) -> Result<(), OpeningRefusal>
        ensures ok { OnOk result (self.new ≡ self.old ++ (line, bytes.now) ∷ []) }
        ensures err { OnErr result (self.new ≡ self.old) }
        ensures allowed { OnOk result (opening_refusal self.old line.0 bytes.now ≡ None) }
        ensures order { result ≡ Err OpeningRefusal.Order → opening_refusal self.old line.0 bytes.now ≡ Some OpeningRefusal.Order }
        ensures zero { result ≡ Err OpeningRefusal.Zero → opening_refusal self.old line.0 bytes.now ≡ Some OpeningRefusal.Zero }
        ensures memory { result ≡ Err OpeningRefusal.Memory → opening_refusal self.old line.0 bytes.now ≡ None }
    {
        if !comes_last(&self.pairs, line) {
            return Err(OpeningRefusal::Order);
        }
        if is_zero(bytes) {
            return Err(OpeningRefusal::Zero);
        }
        match self.pairs.push((line, *bytes)) {
            Ok(()) => Ok(()),
            Err(_) => Err(OpeningRefusal::Memory),
        }
    }

    /// The pairs of a line and its bytes, in the order of the lines.
    pub fn pairs(&self) -> &[(Line, Bytes64)]
        ensures pairs { result.now ≡ self.now }
        ensures opening { IsOpening self.now }
    {
        &self.pairs
    }

    /// Whether the opening names only lines of the setup.
    pub fn fits(&self, setup: &Setup) -> bool
        ensures { result ≡ opening_fits setup.now.lines self.now }
    {
        self.pairs.iter().all(|pair| pair.0.0 < setup.lines())
    }

    /// The bytes of a line: zeros where it isn't among the pairs. It takes time logarithmic in their number.
    pub fn bytes_at(&self, line: Line) -> Bytes64
        ensures { result ≡ opening_bytes_at self.now line.0 }
    {
        bytes_in(&self.pairs, line)
    }
}

/// Whether a line is greater than the last of the pairs, if there is one.
fn comes_last(pairs: &[(Line, Bytes64)], line: Line) -> bool
    ensures { result ≡ is_after_last pairs.now line.0 }
{
    match pairs.last() {
        Some(last) => last.0.0 < line.0,
        None => true,
    }
}

/// Whether all bytes are 0.
fn is_zero(bytes: &Bytes64) -> bool
    ensures { result ≡ bytes_eq bytes.now zero_bytes }
{
    *bytes == Bytes64([0; 64])
}

/// The bytes of a line among pairs whose lines ascend.
fn bytes_in(pairs: &[(Line, Bytes64)], line: Line) -> Bytes64
    requires { IsTrue (ascends_from 0 pairs.now) }
    ensures { result ≡ option_map_or (λ p. p.1) (find (λ p. p.0.0 == line.0) pairs.now) zero_bytes }
{
    match pairs.binary_search_by_key(&line.0, |pair| pair.0.0) {
        Ok(place) => pairs[place].1,
        Err(_) => Bytes64([0; 64]),
    }
}
