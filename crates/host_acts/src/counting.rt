// The allowed acts, counted and picked without a list of them.
ghost use Rattle.std.specs.Prelude.{◌≡◌, ◌≤◌, ◌*◌, ◌==◌, if◌then◌else◌, None, Some, filter_map, length, slice_get, sum_by};
ghost use Rattle.coherence_model.specs.Next.{host_return_channels};
ghost use Rattle.host_acts.specs.Counting.{act_at_of, act_count_of, acts_of_agent, line_act_of, may_act, may_answer_whole, nth_of, pick_of, return_act_of, return_at_of, snoop_act_at_of, snoop_act_count_of};
ghost use Rattle.cxl_message.specs.declared.events.Act.{Act as TheAct};

use cxl_message::{Act, Channel, Line};
use held_snoops::HeldSnoop;
use host_rows::{act_row, lacking};
use host_tables::HostTables;

/// The channels whose credits a host gives back, in the order of the returns.
const RETURNS: [Channel; 3] = [Channel::Ndr, Channel::Drs, Channel::BiSnp];

/// Whether an act's row holds, credits included.
#[tactic(auto, using(crate::proofs::Acting::act_may, crate::proofs::Acting::act_may_not))]
fn may_act(agent: &HostTables, act: &Act) -> bool
    ensures { result ≡ may_act agent.now act.now }
{
    match act_row(agent, act) {
        Some(head) => lacking(agent, head).is_none(),
        None => false,
    }
}

/// The one of Conflict, WriteBack and Answer that is allowed for a line.
fn line_act(agent: &HostTables, line: u32) -> Option<Act>
    ensures { result ≡ line_act_of agent.now line }
{
    let conflict = Act::Conflict(Line(line));
    if may_act(agent, &conflict) {
        return Some(conflict);
    }
    let write_back = Act::WriteBack(Line(line));
    if may_act(agent, &write_back) {
        return Some(write_back);
    }
    let answer = Act::Answer(Line(line));
    if may_act(agent, &answer) {
        return Some(answer);
    }
    None
}

/// Whether AnswerBlock is allowed for a snoop.
fn may_answer_whole(agent: &HostTables, snoop: &HeldSnoop) -> bool
    ensures { result ≡ may_answer_whole agent.now snoop.now }
{
    snoop.is_whole_at(snoop.first()) && may_act(agent, &Act::AnswerBlock(snoop.first()))
}

/// How many acts are allowed for some lines.
fn line_act_count(agent: &HostTables, lines: &[u32]) -> usize
    ensures { result ≡ length (filter_map (line_act_of agent.now) lines.now) }
{
    lines
        .iter()
        .filter_map(|line| line_act(agent, *line))
        .count()
}

/// The allowed act of a number for some lines.
#[tactic(auto, using(crate::proofs::ActCounts::nth_here, crate::proofs::ActCounts::nth_after, crate::proofs::ActCounts::nth_passed, crate::proofs::ActCounts::nth_last))]
fn line_act_at(agent: &HostTables, lines: &[u32], k: u32) -> Option<Act>
    ensures { result ≡ nth_of (line_act_of agent.now) lines.now k }
{
    let mut skip = k;
    for line in lines {
        if let Some(act) = line_act(agent, *line) {
            if skip == 0 {
                return Some(act);
            }
            skip -= 1;
        }
    }
    None
}

/// How many acts are allowed for a snoop.
#[tactic(auto, using(crate::proofs::ActCounts::few_acts))]
fn snoop_act_count(agent: &HostTables, snoop: &HeldSnoop) -> u32
    ensures count { result ≡ snoop_act_count_of agent.now snoop.now }
    ensures few { result ≤ 4 }
{
    if may_answer_whole(agent, snoop) {
        return 1;
    }
    let lines = snoop.lines();
    line_act_count(agent, lines.as_slice()) as u32
}

/// AnswerBlock for a snoop, as the act of number 0.
fn block_act_at(agent: &HostTables, first: Line, k: u32) -> Option<Act>
    ensures { result ≡ (if k == 0 then Some (TheAct.AnswerBlock first) else None) }
{
    if k == 0 {
        Some(Act::AnswerBlock(first))
    } else {
        None
    }
}

/// The allowed act for a snoop with a number below their count.
fn snoop_act_at(agent: &HostTables, snoop: &HeldSnoop, k: u32) -> Option<Act>
    ensures { result ≡ snoop_act_at_of agent.now snoop.now k }
{
    if may_answer_whole(agent, snoop) {
        block_act_at(agent, snoop.first(), k)
    } else {
        let lines = snoop.lines();
        line_act_at(agent, lines.as_slice(), k)
    }
}

/// The return of a Credit for a channel, where it is allowed.
fn return_act(agent: &HostTables, channel: Channel) -> Option<Act>
    ensures { result ≡ return_act_of agent.now channel }
{
    let act = Act::HostReturn(channel);
    if may_act(agent, &act) {
        Some(act)
    } else {
        None
    }
}

/// How many acts are allowed for some snoops.
fn act_count_for(agent: &HostTables, snoops: &[HeldSnoop]) -> u32
    requires { length snoops.now ≤ 255 }
    ensures count { result ≡ sum_by (snoop_act_count_of agent.now) snoops.now }
    ensures few { result ≤ 4 * length snoops.now }
{
    let mut count = 0;
    for snoop in snoops {
        count += snoop_act_count(agent, snoop);
    }
    count
}

/// How many returns are allowed.
fn return_count(agent: &HostTables) -> u32
    ensures count { result ≡ length (filter_map (return_act_of agent.now) host_return_channels) }
    ensures few { result ≤ 3 }
{
    RETURNS
        .iter()
        .filter_map(|channel| return_act(agent, *channel))
        .count() as u32
}

/// How many acts a host's rows allow now, credits included (own rule).
#[tactic(auto, using(crate::proofs::ActCounts::acts_counted))]
pub fn act_count(agent: &HostTables) -> u32
    ensures { result ≡ length (acts_of_agent agent.now) }
{
    count_acts(agent)
}

/// How many acts are allowed now.
fn count_acts(agent: &HostTables) -> u32
    ensures { result ≡ act_count_of agent.now }
{
    act_count_for(agent, agent.snoops()) + return_count(agent)
}

/// The allowed return of a number, for some channels.
#[tactic(auto, using(crate::proofs::ActCounts::nth_here, crate::proofs::ActCounts::nth_after, crate::proofs::ActCounts::nth_passed, crate::proofs::ActCounts::nth_last))]
fn return_at_for(agent: &HostTables, channels: &[Channel], k: u32) -> Option<Act>
    ensures { result ≡ nth_of (return_act_of agent.now) channels.now k }
{
    let mut skip = k;
    for channel in channels {
        if let Some(act) = return_act(agent, *channel) {
            if skip == 0 {
                return Some(act);
            }
            skip -= 1;
        }
    }
    None
}

/// The allowed return of a number.
fn return_at(agent: &HostTables, k: u32) -> Option<Act>
    ensures { result ≡ return_at_of agent.now k }
{
    return_at_for(agent, &RETURNS, k)
}

/// The allowed act of a number for some snoops and then the returns.
#[tactic(auto, using(crate::proofs::ActCounts::pick_here, crate::proofs::ActCounts::pick_later, crate::proofs::ActCounts::pick_last))]
fn act_at_for(agent: &HostTables, snoops: &[HeldSnoop], k: u32) -> Option<Act>
    ensures { result ≡ pick_of agent.now snoops.now k }
{
    let mut skip = k;
    for snoop in snoops {
        let count = snoop_act_count(agent, snoop);
        if skip < count {
            return snoop_act_at(agent, snoop, skip);
        }
        skip -= count;
    }
    return_at(agent, skip)
}

/// The allowed act of a number, in the order of the next steps: `None` exactly where there is none (own rule).
#[tactic(auto, using(crate::proofs::ActCounts::acts_picked))]
pub fn act_at(agent: &HostTables, k: u32) -> Option<Act>
    ensures { result ≡ slice_get (acts_of_agent agent.now) k }
{
    pick_act(agent, k)
}

/// The allowed act of a number.
fn pick_act(agent: &HostTables, k: u32) -> Option<Act>
    ensures { result ≡ act_at_of agent.now k }
{
    act_at_for(agent, agent.snoops(), k)
}
