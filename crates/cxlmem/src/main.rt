//! The program: words and bytes in, a status and bytes out. `command` does all of it, over any source and sink, and its
//! contract says what each status means; `main` hands it the words, standard input and standard output, and has no
//! contract.
//!
//! The words, the statuses and the texts are this project's own and no statement about the CXL standard.
#![tactic(auto)]

mod checking;
mod commands;
mod driving;
mod ends;
mod forms;
mod loading;
mod summaries;
#[cfg(test)]
mod tests;
mod traces;
mod verdicts;

pub use commands::command;
pub use ends::Status;
use outside_io::{StdSink, StdSource};
use std::alloc::AllocError;
use std::process::ExitCode;
use std::rt::Env;
use std::{env, io};

/// The words after the program's name.
fn words(rt: &(impl Env + AllocGlobal)) -> io::Result<Vec<String>> {
    let mut words = Vec::new(rt.alloc());
    for word in env::args(rt)?.skip(1) {
        words.push(word)?;
    }
    Ok(words)
}

fn main(rt: HostRuntime) -> ExitCode {
    let status = match words(&rt) {
        Ok(words) => {
            let mut source = StdSource::new(rt.stdin());
            let mut sink = StdSink::new(rt.stdout());
            command(rt.alloc(), &words, &mut source, &mut sink)
        }
        Err(_) => Status::Memory,
    };
    ExitCode::from(status.code())
}
