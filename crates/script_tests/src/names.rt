// Scripts whose streams have names: each is read and printed again.
use script_text::{Script, ScriptReason, ScriptRefusal, parse_script, print_script};
use std::alloc::Global;
use std::process::Abort;
use std::test::Fail;

const CPU: &str =
    "hosts 1\nlines 4\nfilter 4\nways 4\ntags 2\ncredits 2\nroom 100\nstream 0 cpu\nload 0\n";

const TWO_OF_THREE: &str =
    "hosts 2\nlines 4\nfilter 4\nways 4\ntags 1024\ncredits 2\nroom 100\nstream 1 abcdefghijklmnopqrstuvwxyz012345\nload 0\nstream 0\nstream 1 _6789\npick 0\n";

fn short_script(rt: &impl Abort, alloc: Global, text: &str) -> Result<Script, ScriptRefusal> {
    assert!(rt; text.len() < 1000);
    parse_script(alloc, text.as_bytes())
}

// The name of a stream, or no letter where it has none.
fn name_of(script: &Script, stream: u8) -> &[u8] {
    match script.names().name(stream) {
        Some(name) => name,
        None => &[],
    }
}

#[test]
fn a_stream_with_a_name(rt: HostRuntime) -> Result<(), Fail> {
    let script = short_script(&rt, rt.alloc(), CPU)?;
    assert_eq!(rt; script.names().len(), 1);
    assert_eq!(rt; name_of(&script, 0), b"cpu".as_slice());
    assert_eq!(rt; script.setup().streams(), [0].as_slice());
    let printed = print_script(rt.alloc(), &script)?;
    assert!(rt; printed.as_slice() == CPU.as_bytes());
    Ok(())
}

#[test]
fn names_of_two_of_three_streams(rt: HostRuntime) -> Result<(), Fail> {
    let script = short_script(&rt, rt.alloc(), TWO_OF_THREE)?;
    assert_eq!(rt; script.setup().tags(), 1024);
    assert_eq!(rt; script.names().len(), 2);
    assert_eq!(rt;
        name_of(&script, 0),
        b"abcdefghijklmnopqrstuvwxyz012345".as_slice()
    );
    assert!(rt; script.names().name(1).is_none());
    assert_eq!(rt; name_of(&script, 2), b"_6789".as_slice());
    let printed = print_script(rt.alloc(), &script)?;
    assert!(rt; printed.as_slice() == TWO_OF_THREE.as_bytes());
    Ok(())
}

// The 65th stream is one too many, with a name or without.
#[test]
fn one_named_stream_too_many(rt: HostRuntime) -> Result<(), Fail> {
    let mut text = String::new(rt.alloc());
    text.push_str("hosts 1\nlines 1\nfilter 1\nways 1\ntags 2\ncredits 2\nroom 1\n")?;
    for _ in 0..64 {
        text.push_str("stream 0 same\n")?;
    }
    assert!(rt; text.len() < 10000);
    let script = parse_script(rt.alloc(), text.as_bytes())?;
    assert_eq!(rt; script.names().len(), 64);
    text.push_str("stream 0 same\n")?;
    let many = ScriptRefusal::Bad {
        line: 72,
        reason: ScriptReason::Many,
    };
    assert!(rt; text.len() < 10000);
    assert_eq!(rt; parse_script(rt.alloc(), text.as_bytes()).err(), Some(many));
    Ok(())
}
