// Records that are read where they stand in a piece.
use crate::samples::*;
use cxl_message::Event;
use std::alloc::{AllocError, Global};
use std::test::Fail;
use trace_stream::*;

// The events that were read, how many bytes each call took, and how it ends.
#[derive(Drop)]
struct Standing {
    events: Vec<Event>,
    counts: Vec<usize>,
    end: Result<u64, TraceFault>,
}

// What is read of two pieces.
fn read_two(alloc: Global, first: &[u8], second: &[u8]) -> Result<Standing, AllocError> {
    let mut reader = TraceReader::new(alloc)?;
    let mut room = Room::new();
    let mut events = Vec::new(alloc);
    let mut counts = Vec::new(alloc);
    let mut left = first;
    let mut behind = second;
    for _ in 0..1000 {
        if reader.fed() > 1_000_000 || left.len() > 1_000_000 {
            break;
        }
        match reader.next_from(left, &mut room) {
            Ok((Found::More, _)) => {
                if behind.is_empty() {
                    let end = reader.finish();
                    return Ok(Standing {
                        events,
                        counts,
                        end,
                    });
                }
                left = behind;
                behind = &[];
            }
            Ok((found, count)) => {
                if found == Found::Event {
                    events.push(room.event.event())?;
                }
                counts.push(count)?;
                left = left.get(count..).unwrap_or(&[]);
            }
            Err(_) => {
                let end = reader.finish();
                return Ok(Standing {
                    events,
                    counts,
                    end,
                });
            }
        }
    }
    let reason = Reason::Trailing;
    let end = Err(TraceFault { at: 0, reason });
    Ok(Standing {
        events,
        counts,
        end,
    })
}

#[test]
fn each_call_takes_one_record(rt: HostRuntime) -> Result<(), Fail> {
    let bytes = one_load_bytes(rt.alloc())?;
    let read = read_two(rt.alloc(), &bytes, &[])?;
    assert_eq!(rt;
        read.counts.as_slice(),
        [15, 24, 14, 8, 81, 8, 146, 9].as_slice()
    );
    assert!(rt; read.events.as_slice() == one_load().as_slice());
    assert_eq!(rt; read.end, Ok(6));
    Ok(())
}

#[test]
fn only_a_cut_record_is_kept(rt: HostRuntime) -> Result<(), Fail> {
    let bytes = one_load_bytes(rt.alloc())?;
    for cut in 0..=bytes.len() {
        let (first, second) = bytes.split_at(cut);
        let read = read_two(rt.alloc(), first, second)?;
        assert!(rt;
            read.events.as_slice() == one_load().as_slice(),
            "cut at {cut}"
        );
        assert_eq!(rt; read.end, Ok(6), "cut at {cut}");
    }
    Ok(())
}

#[test]
fn a_fault_where_it_stands(rt: HostRuntime) -> Result<(), Fail> {
    let bytes = joined(rt.alloc(), &[HEADER, b"\x00\x04"])?;
    let read = read_two(rt.alloc(), &bytes, &[])?;
    let reason = Reason::Kind;
    assert_eq!(rt; read.end, Err(TraceFault { at: 16, reason }));
    assert_eq!(rt; read.counts.as_slice(), [15].as_slice());
    Ok(())
}
