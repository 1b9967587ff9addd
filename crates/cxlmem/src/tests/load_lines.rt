// `load N`: the nine lines of a script that a seed makes, and each write of them failing once.
use super::{Outcome, run};
use crate::Status;
use std::alloc::{AllocError, Global};
use std::test::Fail;

const NO_OPERATION: &str =
    "operations 0\nevents 0\nloads 0\nwords 0\nwholes 0\nsnoops 0\nconflicts 0\nhost evictions 0\nfilter evictions 0\n";

const ONE_OPERATION: &str =
    "operations 1\nevents 7\nloads 1\nwords 0\nwholes 0\nsnoops 0\nconflicts 0\nhost evictions 0\nfilter evictions 0\n";

const A_HUNDRED_OPERATIONS: &str =
    "operations 100\nevents 1959\nloads 55\nwords 21\nwholes 24\nsnoops 68\nconflicts 2\nhost evictions 6\nfilter evictions 26\n";

/// What `load` writes for so many operations, with these writes failing.
fn load(alloc: Global, count: &str, failing_writes: &[u64]) -> Result<Outcome, AllocError> {
    run(alloc, &["load", count], b"", &[], failing_writes)
}

#[test]
fn loads_are_summed_up(rt: HostRuntime) -> Result<(), Fail> {
    for (count, lines) in [
        ("0", NO_OPERATION),
        ("1", ONE_OPERATION),
        ("100", A_HUNDRED_OPERATIONS),
        ("100", A_HUNDRED_OPERATIONS),
    ] {
        let done = load(rt.alloc(), count, &[])?;
        assert_eq!(rt; done.status, Status::Ok);
        assert!(rt; done.written.as_slice() == lines.as_bytes(), "load {count}");
    }
    Ok(())
}

#[test]
fn each_write_that_fails_cuts_the_lines(rt: HostRuntime) -> Result<(), Fail> {
    for k in 0..NO_OPERATION.len() {
        let failed = load(rt.alloc(), "0", &[k as u64])?;
        assert_eq!(rt; failed.status, Status::WriteFault, "at write {k}");
        assert!(rt;
            Some(failed.written.as_slice()) == NO_OPERATION.as_bytes().get(..k),
            "at write {k}"
        );
    }
    Ok(())
}
