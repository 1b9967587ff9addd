use cxl_message::{Bytes64, Line, Op};
use script_text::{Script, ScriptReason, ScriptRefusal, parse_script, print_script};
use std::alloc::{AllocError, Global};
use std::process::Abort;
use std::test::Fail;

const NOTHING: &str = "hosts 1\nlines 1\nfilter 1\nways 1\ntags 2\ncredits 2\nroom 100\n";

const ONE_LOAD: &str =
    "hosts 1\nlines 4\nfilter 4\nways 4\ntags 2\ncredits 2\nroom 100\nstream 0\nload 0\n";

const SILENT_UPGRADE: &str =
    "hosts 1\nlines 4\nfilter 4\nways 4\ntags 2\ncredits 2\nroom 100\nstream 0\nload 0\nword 0 0 00000000000000ff\n";

fn short_script(rt: &impl Abort, alloc: Global, text: &str) -> Result<Script, ScriptRefusal> {
    assert!(rt; text.len() < 1000);
    parse_script(alloc, text.as_bytes())
}

#[test]
fn nothing(rt: HostRuntime) -> Result<(), Fail> {
    let script = short_script(&rt, rt.alloc(), NOTHING)?;
    let setup = script.setup();
    assert_eq!(rt; setup.hosts(), 1);
    assert_eq!(rt; setup.lines(), 1);
    assert_eq!(rt; setup.entries(), 1);
    assert_eq!(rt; setup.ways(), 1);
    assert_eq!(rt; setup.tags(), 2);
    assert_eq!(rt; setup.credits(), 2);
    assert_eq!(rt; setup.streams().len(), 0);
    assert_eq!(rt; script.room(), 100);
    assert_eq!(rt; script.opening().pairs().len(), 0);
    assert_eq!(rt; script.picks().len(), 0);
    Ok(())
}

#[test]
fn one_load(rt: HostRuntime) -> Result<(), Fail> {
    let script = short_script(&rt, rt.alloc(), ONE_LOAD)?;
    assert_eq!(rt; script.setup().streams(), [0].as_slice());
    assert!(rt; script.setup().streams().len() == 1);
    assert_eq!(rt; script.ops(0), [Op::Load { line: Line(0) }].as_slice());
    Ok(())
}

#[test]
fn silent_upgrade(rt: HostRuntime) -> Result<(), Fail> {
    let script = short_script(&rt, rt.alloc(), SILENT_UPGRADE)?;
    assert!(rt; script.setup().streams().len() == 1);
    let load = Op::Load { line: Line(0) };
    let word = Op::Word {
        line: Line(0),
        place: 0,
        value: 255,
    };
    assert_eq!(rt; script.ops(0), [load, word].as_slice());
    Ok(())
}

// A stream for each of the 64, and one more; operations up to the last, and one more.
#[test]
fn greatest_numbers(rt: HostRuntime) -> Result<(), Fail> {
    let mut text = String::new(rt.alloc());
    text.push_str(
        "hosts 16\nlines 65536\nfilter 4096\nways 256\ntags 1024\ncredits 64\nroom 200000\n",
    )?;
    for _ in 0..64 {
        text.push_str("stream 15\n")?;
    }
    for _ in 0..65536 {
        text.push_str("load 65535\n")?;
    }
    assert!(rt; text.len() < 1000000);
    let script = parse_script(rt.alloc(), text.as_bytes())?;
    assert_eq!(rt; script.setup().streams().len(), 64);
    assert!(rt; script.setup().streams().len() == 64);
    assert_eq!(rt; script.ops(63).len(), 65536);
    let printed = print_script(rt.alloc(), &script)?;
    assert!(rt; printed.as_slice() == text.as_bytes());
    text.push_str("load 0\n")?;
    assert!(rt; text.len() < 1000000);
    let one_more = ScriptRefusal::Bad {
        line: 65608,
        reason: ScriptReason::Many,
    };
    assert_eq!(rt;
        parse_script(rt.alloc(), text.as_bytes()).err(),
        Some(one_more)
    );
    Ok(())
}

#[test]
fn one_stream_too_many(rt: HostRuntime) -> Result<(), Fail> {
    let mut text = String::new(rt.alloc());
    text.push_str("hosts 1\nlines 1\nfilter 1\nways 1\ntags 2\ncredits 2\nroom 1\n")?;
    for _ in 0..65 {
        text.push_str("stream 0\n")?;
    }
    let many = ScriptRefusal::Bad {
        line: 72,
        reason: ScriptReason::Many,
    };
    assert!(rt; text.len() < 10000);
    assert_eq!(rt; parse_script(rt.alloc(), text.as_bytes()).err(), Some(many));
    Ok(())
}

const EVERY_FORM: &str =
    "hosts 2\nlines 8\nfilter 4\nways 4\ntags 64\ncredits 2\nroom 200000\nopen 1 00000000000000000000000000000000000000000000000000000000000000000000000000000000000000000000000000000000000000000000000000000001\nopen 7 abababababababababababababababababababababababababababababababababababababababababababababababababababababababababababababababab\nstream 1\nload 7\nwhole 0 abababababababababababababababababababababababababababababababababababababababababababababababababababababababababababababababab\nstream 0\nstream 1\nword 3 7 0123456789abcdef\npick 0\npick 65535\n";

// A script of every form is read whole.
#[test]
fn every_form(rt: HostRuntime) -> Result<(), Fail> {
    assert!(rt; EVERY_FORM.len() < 1000);
    let script = parse_script(rt.alloc(), EVERY_FORM.as_bytes())?;
    assert_eq!(rt; script.setup().streams(), [1, 0, 1].as_slice());
    assert!(rt; script.setup().streams().len() == 3);
    let whole = Op::Whole {
        line: Line(0),
        bytes: Bytes64([0xab; 64]),
    };
    let word = Op::Word {
        line: Line(3),
        place: 7,
        value: 0x0123456789abcdef,
    };
    assert_eq!(rt;
        script.ops(0),
        [Op::Load { line: Line(7) }, whole].as_slice()
    );
    assert_eq!(rt; script.ops(1).len(), 0);
    assert_eq!(rt; script.ops(2), [word].as_slice());
    let mut last = Bytes64([0; 64]);
    last.0[63] = 1;
    assert_eq!(rt; script.opening().bytes_at(Line(1)), last);
    assert_eq!(rt; script.opening().bytes_at(Line(7)), Bytes64([0xab; 64]));
    assert_eq!(rt; script.opening().pairs().len(), 2);
    assert_eq!(rt; script.picks(), [0, 65535].as_slice());
    Ok(())
}
