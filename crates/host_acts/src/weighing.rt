// What a host adds to the weight.
ghost use Rattle.std.specs.Prelude.{◌≡◌, ◌≤◌, ◌*◌, ◌+◌, length, sum_by};
ghost use Rattle.coherence_model.specs.Stages.{Stage};
ghost use Rattle.coherence_model.specs.Weight.{stage_weight};
ghost use Rattle.host_record.specs.Stands.{snoop_weight_in, weight_in};
ghost use Rattle.host_record.specs.Tables.{place_or};

use cxl_message::{Channel, Line};
use held_snoops::HeldSnoop;
use host_tables::HostTables;

/// What some lines of a snoop add to the weight, by their stages.
fn lines_weight(agent: &HostTables, lines: &[u32]) -> u64
    requires { length lines.now ≤ 4 }
    ensures weight { result ≡ sum_by (λ a. stage_weight (place_or Stage.New agent.now.kept.stages a)) lines.now }
    ensures few { result ≤ 255 * length lines.now }
{
    let mut weight = 0;
    for line in lines {
        weight += u64::from(agent.stage(Line(*line)).weight());
    }
    weight
}

/// What a snoop adds to the weight.
fn snoop_weight(agent: &HostTables, snoop: &HeldSnoop) -> u64
    ensures weight { result ≡ snoop_weight_in agent.now.kept.stages snoop.now }
    ensures few { result ≤ 1022 }
{
    let lines = snoop.lines();
    2 + lines_weight(agent, lines.as_slice())
}

/// What some snoops add to the weight.
fn snoops_weight(agent: &HostTables, snoops: &[HeldSnoop]) -> u64
    requires { length snoops.now ≤ 255 }
    ensures weight { result ≡ sum_by (snoop_weight_in agent.now.kept.stages) snoops.now }
    ensures few { result ≤ 1022 * length snoops.now }
{
    let mut weight = 0;
    for snoop in snoops {
        weight += snoop_weight(agent, snoop);
    }
    weight
}

/// What the held snoops add to the weight.
fn held_weight(agent: &HostTables) -> u64
    ensures weight { result ≡ sum_by (snoop_weight_in agent.now.kept.stages) agent.now.kept.snoops }
    ensures few { result ≤ 1022 * 255 }
{
    snoops_weight(agent, agent.snoops())
}

/// What the credits that a host owes and the snoops that it holds add to the weight (own rule).
pub fn weight(agent: &HostTables) -> u64
    ensures { result ≡ weight_in agent.now.kept }
{
    let ndr = u64::from(agent.owed(Channel::Ndr));
    let drs = u64::from(agent.owed(Channel::Drs));
    let bi_snp = u64::from(agent.owed(Channel::BiSnp));
    let owed = ndr + (drs + bi_snp);
    2 * owed + held_weight(agent)
}
