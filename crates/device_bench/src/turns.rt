// What the device does turn after turn, as its hosts would have it.
//
// The lines are every fourth one, so that the filter evicts them one by one. There is one more of them than entries.
ghost use Rattle.std.specs.Prelude.{◌<◌, ◌≤◌};

use crate::causes::{
    TAGS, answers, asks, cleans, credit, evicts, finishes, gives_up, returned, serves, snoops,
    starts, writes_back,
};
use cxl_message::{Cause, Channel, Setup, SetupRefusal};
use std::alloc::AllocError;

/// What the device does in each turn. Before the first one its filter is full: a host has a line for each entry.
#[derive(Clone, Copy)]
pub enum Kind {
    /// A host gives up its oldest line, which is clean, and is granted another one: ten events.
    Grants,
    /// A host is granted a line that the other one wrote back and gave up, as it was asked: fourteen events.
    Snoops,
    /// A host is granted a line for which the filter evicts its oldest entry: twelve events.
    Evictions,
}

impl Kind {
    /// The kind of this name.
    pub fn named(name: &str) -> Option<Kind> {
        match name {
            "grants" => Some(Kind::Grants),
            "snoops" => Some(Kind::Snoops),
            "evictions" => Some(Kind::Evictions),
            _ => None,
        }
    }

    /// Appends the causes of a turn: the first one has number 0.
    pub fn push_turn(
        self,
        setup: &Setup,
        turn: u32,
        causes: &mut Vec<Cause>,
    ) -> Result<(), AllocError> {
        let entries = u32::from(setup.entries());
        let oldest = 4 * (turn % (entries + 1));
        let other = 4 * (turn.wrapping_add(entries) % (entries + 1));
        match self {
            Kind::Grants => {
                push_clean_eviction(0, oldest, causes)?;
                push_start(0, other, causes)?;
                push_finish(0, other, causes)
            }
            Kind::Snoops if turn / entries % 2 == 0 => {
                push_snooped(1, 0, 4 * (turn % entries), causes)
            }
            Kind::Snoops => push_snooped(0, 1, 4 * (turn % entries), causes),
            Kind::Evictions => push_evicted(oldest, other, causes),
        }
    }
}

/// The setup of so many entries, with two hosts.
pub fn setup(entries: u16) -> Result<Setup, SetupRefusal> {
    let lines = 4 * (u32::from(entries) + 1);
    Setup::new(2, lines, entries, 256, TAGS, 64, &[])
}

/// Appends what comes before the first turn: host 0 is granted a line for each entry.
pub fn push_first(setup: &Setup, causes: &mut Vec<Cause>) -> Result<(), AllocError> {
    for entry in 0..u32::from(setup.entries()) {
        push_start(0, 4 * entry, causes)?;
        push_finish(0, 4 * entry, causes)?;
    }
    Ok(())
}

/// A host's request for a line starts.
fn push_start(host: u8, line: u32, causes: &mut Vec<Cause>) -> Result<(), AllocError> {
    causes.push(asks(host, line))?;
    causes.push(starts(host))?;
    Ok(())
}

/// A host's request for a line is granted, and the credits of it come and go.
fn push_finish(host: u8, line: u32, causes: &mut Vec<Cause>) -> Result<(), AllocError> {
    causes.push(finishes(line))?;
    causes.push(credit(host, Channel::Ndr))?;
    causes.push(credit(host, Channel::Drs))?;
    causes.push(returned(host, Channel::Req))?;
    Ok(())
}

/// A host's clean eviction of a line is completed, and the credits of it come and go.
fn push_clean_eviction(host: u8, line: u32, causes: &mut Vec<Cause>) -> Result<(), AllocError> {
    causes.push(gives_up(host, line))?;
    causes.push(cleans(host))?;
    causes.push(credit(host, Channel::Ndr))?;
    causes.push(returned(host, Channel::Req))?;
    Ok(())
}

/// A host is granted a line after the other one wrote it back and gave it up.
fn push_snooped(host: u8, other: u8, line: u32, causes: &mut Vec<Cause>) -> Result<(), AllocError>
    requires { line < 16384 }
{
    push_start(host, line, causes)?;
    causes.push(snoops(other, line))?;
    causes.push(writes_back(other, line))?;
    causes.push(serves(other))?;
    causes.push(credit(other, Channel::Ndr))?;
    causes.push(returned(other, Channel::Rwd))?;
    push_answer(other, line, causes)?;
    push_finish(host, line, causes)
}

/// Host 0 is granted a line for which the filter takes its oldest line back.
fn push_evicted(oldest: u32, line: u32, causes: &mut Vec<Cause>) -> Result<(), AllocError>
    requires { oldest < 16388 }
{
    causes.push(asks(0, line))?;
    causes.push(evicts(0))?;
    causes.push(snoops(0, oldest))?;
    push_answer(0, oldest, causes)?;
    causes.push(finishes(oldest))?;
    causes.push(starts(0))?;
    push_finish(0, line, causes)
}

/// A host gives up the line that it was snooped for, and the credits of that come and go.
fn push_answer(host: u8, line: u32, causes: &mut Vec<Cause>) -> Result<(), AllocError>
    requires { line < 16388 }
{
    causes.push(answers(host, line))?;
    causes.push(credit(host, Channel::BiSnp))?;
    causes.push(returned(host, Channel::BiRsp))?;
    Ok(())
}
