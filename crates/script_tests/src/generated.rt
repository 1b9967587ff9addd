use cxl_message::{Bytes64, Line, Op};
use script_text::{Script, generate};
use std::process::Abort;
use std::test::Fail;

// Seventy operations of seed 1: the first six streams have two, and each kind stands among them.
#[test]
fn seventy_operations(rt: HostRuntime) -> Result<(), Fail> {
    let script = generate(rt.alloc(), 70, 1)?;
    assert!(rt; script.setup().streams().len() == 64);
    let load = Op::Load { line: Line(51) };
    assert_eq!(rt; script.ops(0), [load, load].as_slice());
    let word = Op::Word {
        line: Line(53),
        place: 6,
        value: 13_756_953_107_850_766_454,
    };
    assert!(rt; script.ops(4).len() == 2);
    assert_eq!(rt; script.ops(4)[0], word);
    let [a, b, c, d, e, f, g, h] = 0x3406_c46a_fac7_2955_u64.to_be_bytes();
    let bytes = Bytes64([
        a, b, c, d, e, f, g, h, a, b, c, d, e, f, g, h, a, b, c, d, e, f, g, h, a, b, c, d, e, f,
        g, h, a, b, c, d, e, f, g, h, a, b, c, d, e, f, g, h, a, b, c, d, e, f, g, h, a, b, c, d,
        e, f, g, h,
    ]);
    let whole = Op::Whole {
        line: Line(41),
        bytes,
    };
    assert_eq!(rt; script.ops(8), [whole].as_slice());
    assert_eq!(rt; script.picks().len(), 560);
    Ok(())
}

// How many operations a stream has.
fn operation_count(rt: &impl Abort, script: &Script, stream: u8) -> usize {
    assert!(rt; usize::from(stream) < script.setup().streams().len());
    script.ops(stream).len()
}

// No operation, and as many as a script may have.
#[test]
fn least_and_most(rt: HostRuntime) -> Result<(), Fail> {
    let none = generate(rt.alloc(), 0, 1)?;
    assert_eq!(rt; none.picks().len(), 0);
    let most = generate(rt.alloc(), 65536, 1)?;
    assert_eq!(rt; most.setup().streams().len(), 64);
    assert_eq!(rt; operation_count(&rt, &most, 63), 1024);
    assert_eq!(rt; most.picks().len(), 524_288);
    Ok(())
}
