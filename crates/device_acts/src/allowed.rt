// Whether an act is allowed: its row holds, and the credits reach for what it sends.
ghost use Rattle.std.specs.Prelude.{◌≡◌, ◌<◌, [], IsTrue, is_some, length, option_map, option_to_list};
ghost use Rattle.cxl_message.specs.declared.events.Act.{Act as Acted};
ghost use Rattle.cxl_message.specs.declared.events.Cause.{Cause as Caused};
ghost use Rattle.device_acts.specs.Sections.{Stands, first_of, is_evictable, paid};
ghost use Rattle.device_record.specs.Acts.{act_if, acts_or};
ghost use Rattle.device_record.specs.Answers.{emission_in};
ghost use Rattle.device_record.specs.Steady.{IsSteady};
ghost use Rattle.device_rows.specs.Rows.{LinesExist};
ghost use Rattle.device_state.specs.Decisions.{emission_by};

use cxl_message::{Act, Channel, Tag};
use device_rows::{
    clean_row, evict_row, finish_row, lacking, return_row, serve_row, snoop_row, start_row,
};
use device_state::{Decision, Tables};
use device_tables::Task;

/// Whether a row holds and the credits reach for what it sends.
fn is_paid(tables: &Tables, row: Option<Decision>) -> bool
    ensures { result ≡ is_some (paid tables.now.kept.credits (option_map (emission_by tables.now.kept.memory) row)) }
{
    match row {
        Some(decision) => lacking(tables, decision).is_none(),
        None => false,
    }
}

/// Whether the buffered RwD message of a host with a tag may be served.
pub fn may_serve(tables: &Tables, host: u8, tag: Tag) -> bool
    requires { host < length tables.now.kept.writes }
    ensures { result ≡ is_some (emission_in tables.now.setup (Caused.Act (Acted.Serve host tag)) tables.now.kept) }
{
    is_paid(tables, serve_row(tables, host, tag))
}

/// Whether the buffered MemClnEvct of a host with a tag may be answered.
fn may_clean(tables: &Tables, host: u8, tag: Tag) -> bool
    requires { LinesExist tables.now.kept host tag.0 }
    ensures { result ≡ is_some (emission_in tables.now.setup (Caused.Act (Acted.Clean host tag)) tables.now.kept) }
{
    is_paid(tables, clean_row(tables, host, tag))
}

/// Whether the buffered request of a host with a tag may start its task.
fn may_start(tables: &Tables, host: u8, tag: Tag) -> bool
    requires { LinesExist tables.now.kept host tag.0 }
    ensures { result ≡ is_some (emission_in tables.now.setup (Caused.Act (Acted.Start host tag)) tables.now.kept) }
{
    is_paid(tables, start_row(tables, host, tag))
}

/// Whether an eviction can begin for any request: no entry of the filter is free, and there is a victim.
pub fn can_evict(tables: &Tables) -> bool
    ensures { result ≡ is_evictable tables.now.kept.filter }
{
    if tables.filter.free_entries() >= 1 {
        return false;
    }
    tables.filter.victim().is_some()
}

/// Whether an eviction may begin for the buffered request of a host with a tag, where `can_evict` answers so.
#[tactic(auto, using(crate::proofs::Evictions::no_eviction))]
fn may_evict(tables: &Tables, can_evict: bool, host: u8, tag: Tag) -> bool
    requires can { can_evict ≡ is_evictable tables.now.kept.filter }
    requires lines { LinesExist tables.now.kept host tag.0 }
    ensures { result ≡ is_some (emission_in tables.now.setup (Caused.Act (Acted.Evict host tag)) tables.now.kept) }
{
    if !can_evict {
        return false;
    }
    is_paid(tables, evict_row(tables, host, tag))
}

/// Whether the line of the buffered request of a host with a tag is held: nothing is allowed for the request then.
fn waits_for_line(tables: &Tables, host: u8, tag: Tag) -> bool
    requires { LinesExist tables.now.kept host tag.0 }
    ensures { IsTrue result → acts_or (act_if tables.now.setup tables.now.kept (Acted.Clean host tag)) (acts_or (act_if tables.now.setup tables.now.kept (Acted.Start host tag)) (act_if tables.now.setup tables.now.kept (Acted.Evict host tag))) ≡ [] }
{
    match tables.request(host, tag) {
        Some(request) => tables.is_held(request.line),
        None => false,
    }
}

/// The one of Clean, Start and Evict that is allowed for the buffered request of a host with a tag.
pub fn waiting_act(tables: &Tables, can_evict: bool, host: u8, tag: Tag) -> Option<Act>
    requires can { can_evict ≡ is_evictable tables.now.kept.filter }
    requires lines { LinesExist tables.now.kept host tag.0 }
    ensures { option_to_list result ≡ acts_or (act_if tables.now.setup tables.now.kept (Acted.Clean host tag)) (acts_or (act_if tables.now.setup tables.now.kept (Acted.Start host tag)) (act_if tables.now.setup tables.now.kept (Acted.Evict host tag))) }
{
    if waits_for_line(tables, host, tag) {
        return None;
    }
    if may_clean(tables, host, tag) {
        return Some(Act::Clean { host, tag });
    }
    if may_start(tables, host, tag) {
        return Some(Act::Start { host, tag });
    }
    if may_evict(tables, can_evict, host, tag) {
        return Some(Act::Evict { host, tag });
    }
    None
}

/// Whether a host may be asked by a task that stands.
pub fn may_snoop(tables: &Tables, host: u8, task: &Task) -> bool
    requires steady { IsSteady tables.now.setup tables.now.kept }
    requires stands { Stands tables.now.kept task.now }
    requires host { host < tables.now.setup.hosts }
    ensures { result ≡ is_some (emission_in tables.now.setup (Caused.Act (Acted.Snoop host (first_of task.now))) tables.now.kept) }
{
    is_paid(tables, snoop_row(tables, host, task))
}

/// Whether a task that stands may be finished.
pub fn may_finish(tables: &Tables, task: &Task) -> bool
    requires steady { IsSteady tables.now.setup tables.now.kept }
    requires stands { Stands tables.now.kept task.now }
    ensures { result ≡ is_some (emission_in tables.now.setup (Caused.Act (Acted.Finish (first_of task.now))) tables.now.kept) }
{
    is_paid(tables, finish_row(tables, task))
}

/// Whether a Credit for a channel may be given back to a host.
pub fn may_return(tables: &Tables, host: u8, channel: Channel) -> bool
    requires steady { IsSteady tables.now.setup tables.now.kept }
    requires host { host < length tables.now.kept.writes }
    ensures { result ≡ is_some (emission_in tables.now.setup (Caused.Act (Acted.DeviceReturn host channel)) tables.now.kept) }
{
    is_paid(tables, return_row(tables, host, channel))
}
