ghost use Rattle.std.specs.Prelude.{◌≡◌, IfOk};

use super::*;
use std::alloc::{AllocError, Global};
use std::io;
use std::io::{ErrorKind, Read, Write};
use std::test::Fail;

const FIVE: [u8; 5] = [10, 20, 30, 40, 50];

// A reader and a writer of which each call fails.
#[derive(Drop)]
struct Broken;

impl Read for Broken {
    fn read(&mut self, _into: &mut [u8]) -> io::Result<usize> {
        Err(io::Error::from(ErrorKind::Other))
    }
}

impl Write for Broken {
    fn write(&mut self, _from: &[u8]) -> io::Result<usize> {
        Err(io::Error::from(ErrorKind::Other))
    }

    fn flush(&mut self) -> io::Result<()> {
        Ok(())
    }
}

// A writer that takes nothing.
#[derive(Drop)]
struct Stuck;

impl Write for Stuck {
    fn write(&mut self, _from: &[u8]) -> io::Result<usize> {
        Ok(0)
    }

    fn flush(&mut self) -> io::Result<()> {
        Ok(())
    }
}

fn five_bytes(alloc: Global, failing: u8) -> Result<MemSource, AllocError>
    ensures { IfOk result (λ source. (source.reads ≡ 0) × (source.faults ≡ 0)) }
{
    let bytes = FIVE.to_vec(alloc)?;
    let fails = vec![in alloc; u64::from(failing)]?;
    Ok(MemSource::new(bytes, 2, fails))
}

#[test]
fn a_source_in_memory_gives_its_chunks(rt: HostRuntime) -> Result<(), Fail> {
    let mut source = five_bytes(rt.alloc(), 1)?;
    let mut into = [0u8; 4];
    assert_eq!(rt; source.read(&mut into), Ok(2));
    assert_eq!(rt; into, [10, 20, 0, 0]);
    assert_eq!(rt; source.read(&mut into), Err(Failed));
    assert_eq!(rt; source.read(&mut into), Ok(2));
    assert_eq!(rt; into, [30, 40, 0, 0]);
    assert_eq!(rt; source.read(&mut into), Ok(1));
    assert_eq!(rt; into, [50, 40, 0, 0]);
    assert_eq!(rt; source.read(&mut into), Ok(0));
    Ok(())
}

#[test]
fn a_sink_in_memory_fails_where_it_is_told_to_and_where_it_is_full(
    rt: HostRuntime,
) -> Result<(), Fail> {
    let alloc = rt.alloc();
    let mut sink = MemSink::new(alloc, 5, 3, vec![in alloc; 1]?)?;
    assert_eq!(rt; sink.write(&FIVE), Ok(3));
    assert_eq!(rt; sink.write(&FIVE), Err(Failed));
    assert_eq!(rt; sink.write(&FIVE), Ok(2));
    assert_eq!(rt; sink.write(&FIVE), Err(Failed));
    assert_eq!(rt; sink.write(&[]), Ok(0));
    assert_eq!(rt; sink.bytes(), [10, 20, 30, 10, 20].as_slice());
    Ok(())
}

#[test]
fn a_count_sink_counts(rt: HostRuntime) {
    let mut sink = CountSink::new();
    assert_eq!(rt; write_all(&mut sink, &FIVE), Ok(()));
    assert_eq!(rt; sink.write(&FIVE), Ok(5));
    assert_eq!(rt; sink.count(), 10);
}

#[test]
fn a_whole_input_has_at_most_the_limit(rt: HostRuntime) -> Result<(), Fail> {
    for (limit, failing, want) in [
        (5, 9, Ok(())),
        (6, 9, Ok(())),
        (4, 9, Err(ReadAllRefusal::TooLong)),
        (0, 9, Err(ReadAllRefusal::TooLong)),
        (5, 0, Err(ReadAllRefusal::ReadFault)),
        (5, 1, Err(ReadAllRefusal::ReadFault)),
        (5, 2, Err(ReadAllRefusal::ReadFault)),
        (5, 3, Err(ReadAllRefusal::ReadFault)),
        (5, 4, Ok(())),
        (4, 2, Err(ReadAllRefusal::ReadFault)),
        (4, 3, Err(ReadAllRefusal::TooLong)),
    ] {
        let mut source = five_bytes(rt.alloc(), failing)?;
        match read_all(rt.alloc(), &mut source, u64::from(limit as u8)) {
            Ok(bytes) => {
                assert_eq!(rt; want, Ok(()), "at limit {limit}, fault {failing}");
                assert_eq!(rt; bytes.as_slice(), FIVE.as_slice());
            }
            Err(refusal) => {
                assert_eq!(rt; want, Err(refusal), "at limit {limit}, fault {failing}");
            }
        }
    }
    Ok(())
}

#[test]
fn a_long_input_is_read_in_pieces(rt: HostRuntime) -> Result<(), Fail> {
    let alloc = rt.alloc();
    let long = vec![in alloc; 7u8; 10_000]?;
    let mut source = MemSource::new(long.clone()?, 100_000, vec![in alloc]?);
    let bytes = read_all(alloc, &mut source, 10_000)?;
    assert_eq!(rt; bytes.as_slice(), long.as_slice());
    Ok(())
}

#[test]
fn a_write_fault_says_how_much_went(rt: HostRuntime) -> Result<(), Fail> {
    let alloc = rt.alloc();
    for (room, failing, want) in [
        (5, 0, Err(0)),
        (5, 1, Err(2)),
        (5, 2, Err(4)),
        (5, 3, Ok(())),
        (6, 9, Ok(())),
        (3, 9, Err(3)),
        (0, 9, Err(0)),
    ] {
        let fails = vec![in alloc; failing]?;
        let mut sink = MemSink::new(alloc, room, 2, fails)?;
        let result = write_all(&mut sink, &FIVE).map_err(|refusal| refusal.gone);
        assert_eq!(rt; result, want, "with room {room}, fault {failing}");
        let gone = want.err().unwrap_or(5) as usize;
        assert_eq!(rt;
            sink.bytes().len(),
            gone,
            "with room {room}, fault {failing}"
        );
    }
    Ok(())
}

#[test]
fn std_sources_and_sinks_pass_on_and_count(rt: HostRuntime) -> Result<(), Fail> {
    let alloc = rt.alloc();
    let mut source = StdSource::new(FIVE.as_slice());
    let bytes = read_all(alloc, &mut source, 5)?;
    assert_eq!(rt; bytes.as_slice(), FIVE.as_slice());

    let mut broken = StdSource::new(Broken);
    assert_eq!(rt;
        read_all(alloc, &mut broken, 5).err(),
        Some(ReadAllRefusal::ReadFault)
    );

    let mut out = Vec::new(alloc);
    let mut sink = StdSink::new(&mut out);
    assert_eq!(rt; write_all(&mut sink, &FIVE), Ok(()));
    drop(sink);
    assert_eq!(rt; out.as_slice(), FIVE.as_slice());

    let mut broken = StdSink::new(Broken);
    assert_eq!(rt;
        write_all(&mut broken, &FIVE),
        Err(WriteAllRefusal { gone: 0 })
    );
    let mut stuck = StdSink::new(Stuck);
    assert_eq!(rt;
        write_all(&mut stuck, &FIVE),
        Err(WriteAllRefusal { gone: 0 })
    );
    assert_eq!(rt; stuck.write(&[]), Ok(0));
    Ok(())
}
