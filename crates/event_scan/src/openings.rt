// Opening records that are begun.
ghost use Rattle.std.specs.Prelude.{◌≡◌, ◌<◌, ◌++◌, ℕ, List, All, length};
ghost use Rattle.cxl_codec.specs.Grammar.{IsCutShort};
ghost use Rattle.cxl_codec.specs.Openings.{OpeningFits, opening_cells};
ghost use Rattle.event_scan.specs.Scanning.{opening_length};

use cxl_codec::OPENING_LENGTH;

/// Below how many bytes an opening record is cut short that begins with these, whatever follows: 67, the length of each
/// opening record, or 0 where none begins so (own rule).
pub fn opening_cut_below(bytes: &[u8]) -> usize
    ensures value { result ≡ opening_length bytes.now }
    ensures cut { (more : List ℕ) → All (λ b. b < 256) more → length (bytes.now ++ more) < result → IsCutShort OpeningFits opening_cells (bytes.now ++ more) }
{
    if bytes.is_empty() || bytes[0] != 0xf0 {
        return 0;
    }
    OPENING_LENGTH
}
