// What is wrong with the bytes of a record, while it is read and afterwards.
ghost use Rattle.std.specs.Prelude.{◌≡◌};
ghost use Rattle.cxl_codec.specs.Refusals.{LeavesAtMost, refusal_of};

use crate::fields::FieldName;
use crate::refusals::DecodeRefusal;

/// The first fault from left to right. `left` is how many bytes there are from the wrong one on.
#[derive(Clone, Copy)]
pub enum Fault {
    /// The record goes on after the last byte.
    Short,
    /// No record has this kind byte here.
    Kind { left: usize },
    /// No record has this byte of the field here.
    Field { left: usize, which: FieldName },
}

/// The refusal of so many bytes with this fault.
#[inline(always)]
pub fn refusal(length: usize, fault: Fault) -> DecodeRefusal
    requires { LeavesAtMost length fault }
    ensures { result ≡ refusal_of length fault }
{
    match fault {
        Fault::Short => DecodeRefusal::Short,
        Fault::Kind { left } => DecodeRefusal::Kind { at: length - left },
        Fault::Field { left, which } => DecodeRefusal::Field {
            at: length - left,
            which,
        },
    }
}
