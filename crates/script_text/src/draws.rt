// A generator of numbers, and the operations that its draws make.
ghost use Rattle.std.specs.Prelude.{◌≡◌, ◌<◌};
ghost use Rattle.script_text.specs.Generator.{drawn_of, drawn_operation, eight_times, given, next_number};

use cxl_message::{Bytes64, Line, Op, PLACES};

/// The generator's number, which each draw replaces.
#[derive(Clone, Copy, PartialEq, Eq, Debug)]
pub struct Draws(pub u64);

impl Draws {
    /// What the next draw gives.
    pub fn draw(&mut self) -> u32
        ensures number { self.new.0 ≡ next_number self.old.0 }
        ensures given { result ≡ given self.new.0 }
    {
        let product = self.0.wrapping_mul(6_364_136_223_846_793_005);
        self.0 = product.wrapping_add(1_442_695_040_888_963_407);
        (self.0 >> 32) as u32
    }

    /// The operation that the next draws make.
    pub fn operation(&mut self) -> Op
        ensures { (result, self.new.0) ≡ drawn_operation self.old.0 }
    {
        let kind = self.draw() % 4;
        let line = Line(self.draw() % 64);
        self.operation_of(kind, line)
    }

    /// The operation of a kind below four on a line. What it stores is drawn.
    fn operation_of(&mut self, kind: u32, line: Line) -> Op
        requires { kind < 4 }
        ensures { (result, self.new.0) ≡ drawn_of kind line self.old.0 }
    {
        if kind < 2 {
            return Op::Load { line };
        }
        let drawn = self.draw();
        if kind == 2 {
            let place = (drawn % u32::from(PLACES)) as u8;
            return Op::Word {
                line,
                place,
                value: self.0,
            };
        }
        let bytes = repeated(self.0);
        Op::Whole { line, bytes }
    }
}

/// The eight bytes of a number, the highest first, eight times.
fn repeated(number: u64) -> Bytes64
    ensures { result ≡ eight_times number }
{
    let [a, b, c, d, e, f, g, h] = number.to_be_bytes();
    Bytes64([
        a, b, c, d, e, f, g, h, a, b, c, d, e, f, g, h, a, b, c, d, e, f, g, h, a, b, c, d, e, f,
        g, h, a, b, c, d, e, f, g, h, a, b, c, d, e, f, g, h, a, b, c, d, e, f, g, h, a, b, c, d,
        e, f, g, h,
    ])
}
