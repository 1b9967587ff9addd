use super::*;
use cxl_message::{Bytes64, Commit, Line, Op, Opening, Setup};
use std::test::Fail;

const ZERO: Bytes64 = Bytes64([0; 64]);

const FIVES: Bytes64 = Bytes64([5; 64]);

const NINES: Bytes64 = Bytes64([9; 64]);

const WHOLE: Op = Op::Whole {
    line: Line(1),
    bytes: NINES,
};

const NINTH_PLACE: Op = Op::Word {
    line: Line(1),
    place: 8,
    value: 0,
};

/// The commit of an operation that leaves these bytes.
fn commit(op: Op, value: Bytes64) -> Commit {
    Commit {
        stream: 0,
        index: 0,
        op,
        value,
    }
}

fn load(line: u32) -> Op {
    Op::Load { line: Line(line) }
}

#[test]
fn a_store_is_read_back(rt: HostRuntime) -> Result<(), Fail> {
    let setup = Setup::new(1, 4, 1, 1, 2, 2, &[0])?;
    let mut opening = Opening::new(rt.alloc());
    assert_eq!(rt; opening.add(Line(1), &FIVES), Ok(()));
    let mut flat = Flat::open(rt.alloc(), &setup, &opening)?;
    assert_eq!(rt; flat.len(), 4);
    assert_eq!(rt; flat.line(Line(1)), FIVES);
    assert_eq!(rt; flat.apply(&WHOLE), NINES);
    assert_eq!(rt; flat.line(Line(1)), NINES);
    assert_eq!(rt; flat.line(Line(2)), ZERO);
    Ok(())
}

#[test]
fn the_first_illegal_commit_is_named(rt: HostRuntime) -> Result<(), Fail> {
    let setup = Setup::new(1, 4, 1, 1, 2, 2, &[0])?;
    let mut opening = Opening::new(rt.alloc());
    assert_eq!(rt; opening.add(Line(1), &FIVES), Ok(()));
    for (op, values, place) in [
        (WHOLE, [FIVES, NINES, NINES], None),
        (WHOLE, [ZERO, NINES, NINES], Some(0)),
        (WHOLE, [FIVES, NINES, FIVES], Some(2)),
        (NINTH_PLACE, [FIVES, FIVES, FIVES], Some(1)),
        (load(4), [FIVES, ZERO, FIVES], Some(1)),
    ] {
        let [first, second, third] = values;
        let commits = [
            commit(load(1), first),
            commit(op, second),
            commit(load(1), third),
        ];
        assert_eq!(rt;
            first_illegal(rt.alloc(), &setup, &opening, &commits)?,
            place
        );
    }
    Ok(())
}
