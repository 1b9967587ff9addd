// The allowed acts in their order, passed one after another.
ghost use Rattle.std.specs.Prelude.{◌≡◌, ◌<◌, ◌&&◌, All, flat_map, length, not};
ghost use Rattle.cxl_message.specs.Lists.{below};
ghost use Rattle.device_acts.specs.Searching.{searched};
ghost use Rattle.device_acts.specs.Sections.{Stands, is_evictable, return_act, serve_at, serves_at, snoop_for, starts_at};
ghost use Rattle.device_record.specs.Acts.{acts_in, acts_of_task, return_acts, waiting_acts};
ghost use Rattle.device_record.specs.Answers.{is_asked_by, is_finished, is_wanted};
ghost use Rattle.device_record.specs.Steady.{IsSteady};

use crate::allowed::{can_evict, may_finish, may_return, may_serve, may_snoop, waiting_act};
use crate::searching::{Search, pass_if, pass_some};
use block_snoop::is_asked;
use cxl_message::{Act, Channel, Line};
use device_state::Tables;
use device_tables::{Task, Waiting};

/// Passes the serve of a host's buffered RwD message of a number, where it is allowed.
fn pass_serve(tables: &Tables, host: u8, number: u8, search: &mut Search)
    requires { host < length tables.now.kept.writes }
    ensures { search.new ≡ searched (serve_at tables.now host number) search.old }
{
    match tables.lines.tag_at(host, number) {
        Some(tag) => pass_if(
            search,
            may_serve(tables, host, tag),
            Act::Serve { host, tag },
        ),
        None => {}
    }
}

/// Passes the serves of a host.
#[tactic(auto, using(crate::proofs::Passing::stays))]
fn pass_serves_of(tables: &Tables, host: u8, search: &mut Search)
    requires { host < length tables.now.kept.writes }
    ensures { search.new ≡ searched (serves_at tables.now host) search.old }
{
    if search.is_found() {
        return;
    }
    for number in 0..tables.lines.count(host) {
        pass_serve(tables, host, number, search);
    }
}

/// Passes the serves.
#[tactic(auto, using(crate::proofs::Passing::searched_below))]
fn pass_serves(tables: &Tables, search: &mut Search)
    requires { IsSteady tables.now.setup tables.now.kept }
    ensures { search.new ≡ searched (flat_map (serves_at tables.now) (below tables.now.setup.hosts)) search.old }
{
    for host in 0..tables.setup.hosts() {
        pass_serves_of(tables, host, search);
    }
}

/// Passes what is allowed of Clean, Start and Evict for some requests of a host.
fn pass_waiting(
    tables: &Tables,
    can_evict: bool,
    host: u8,
    waiting: &[Waiting],
    search: &mut Search,
)
    requires steady { IsSteady tables.now.setup tables.now.kept }
    requires can { can_evict ≡ is_evictable tables.now.kept.filter }
    ensures { search.new ≡ searched (flat_map (waiting_acts tables.now.setup tables.now.kept host) waiting.now) search.old }
{
    for request in waiting {
        pass_some(search, waiting_act(tables, can_evict, host, request.tag));
    }
}

/// Passes what is allowed of Clean, Start and Evict for the requests of a host.
#[tactic(auto, using(crate::proofs::Passing::stays))]
fn pass_starts_of(tables: &Tables, can_evict: bool, host: u8, search: &mut Search)
    requires steady { IsSteady tables.now.setup tables.now.kept }
    requires can { can_evict ≡ is_evictable tables.now.kept.filter }
    ensures { search.new ≡ searched (starts_at tables.now host) search.old }
{
    if search.is_found() {
        return;
    }
    if let Some(requests) = tables.requests.get(host as usize) {
        pass_waiting(tables, can_evict, host, requests.waiting(), search);
    }
}

/// Passes what is allowed of Clean, Start and Evict.
#[tactic(auto, using(crate::proofs::Passing::searched_below))]
fn pass_starts(tables: &Tables, search: &mut Search)
    requires { IsSteady tables.now.setup tables.now.kept }
    ensures { search.new ≡ searched (flat_map (starts_at tables.now) (below tables.now.setup.hosts)) search.old }
{
    let can_evict = can_evict(tables);
    for host in 0..tables.setup.hosts() {
        pass_starts_of(tables, can_evict, host, search);
    }
}

/// Passes the snoop of a task that stands to a host, where it is allowed, and tells whether the host is Asked or to be asked.
#[tactic(auto, using(crate::proofs::Tasks::passes_asked, crate::proofs::Tasks::passes_unwanted))]
fn pass_snoop(tables: &Tables, task: &Task, host: u8, search: &mut Search) -> bool
    requires steady { IsSteady tables.now.setup tables.now.kept }
    requires stands { Stands tables.now.kept task.now }
    requires host { host < tables.now.setup.hosts }
    ensures concerned { not result ≡ (not (is_asked_by host task.now) && not (is_wanted tables.now.kept.filter.rows task.now host)) }
    ensures passed { search.new ≡ searched (snoop_for tables.now task.now host) search.old }
{
    if task.has_asked(host) {
        return true;
    }
    if !is_asked(&tables.filter, task.block(), task.asks_for(), host) {
        return false;
    }
    let line = Line(task.first());
    pass_if(
        search,
        may_snoop(tables, host, task),
        Act::Snoop { host, line },
    );
    true
}

/// Passes the snoops of a task that stands, and tells whether no host is Asked or to be asked.
fn pass_snoops(tables: &Tables, task: &Task, search: &mut Search) -> bool
    requires steady { IsSteady tables.now.setup tables.now.kept }
    requires stands { Stands tables.now.kept task.now }
    ensures finished { result ≡ is_finished tables.now.setup.hosts tables.now.kept.filter.rows task.now }
    ensures passed { search.new ≡ searched (flat_map (snoop_for tables.now task.now) (below tables.now.setup.hosts)) search.old }
{
    let mut is_finished = true;
    for host in 0..tables.setup.hosts() {
        if pass_snoop(tables, task, host, search) {
            is_finished = false;
        }
    }
    is_finished
}

/// Passes what is allowed for a task that stands: its snoops, and its end.
fn pass_task(tables: &Tables, task: &Task, search: &mut Search)
    requires steady { IsSteady tables.now.setup tables.now.kept }
    requires stands { Stands tables.now.kept task.now }
    ensures { search.new ≡ searched (acts_of_task tables.now.setup tables.now.kept task.now) search.old }
{
    if search.is_found() {
        return;
    }
    if pass_snoops(tables, task, search) {
        let line = Line(task.first());
        pass_if(search, may_finish(tables, task), Act::Finish(line));
    }
}

/// Passes what is allowed for some tasks that stand.
fn pass_tasks(tables: &Tables, tasks: &[Task], search: &mut Search)
    requires steady { IsSteady tables.now.setup tables.now.kept }
    requires stand { All (Stands tables.now.kept) tasks.now }
    ensures { search.new ≡ searched (flat_map (acts_of_task tables.now.setup tables.now.kept) tasks.now) search.old }
{
    for task in tasks {
        pass_task(tables, task, search);
    }
}

/// Passes a return to a host, where it is allowed.
fn pass_return(tables: &Tables, host: u8, channel: Channel, search: &mut Search)
    requires steady { IsSteady tables.now.setup tables.now.kept }
    requires host { host < length tables.now.kept.writes }
    ensures { search.new ≡ searched (return_act tables.now host channel) search.old }
{
    pass_if(
        search,
        may_return(tables, host, channel),
        Act::DeviceReturn { host, channel },
    );
}

/// Passes the returns to a host.
#[tactic(auto, using(crate::proofs::Passing::stays))]
fn pass_returns_to(tables: &Tables, host: u8, search: &mut Search)
    requires steady { IsSteady tables.now.setup tables.now.kept }
    requires host { host < length tables.now.kept.writes }
    ensures { search.new ≡ searched (return_acts tables.now.setup tables.now.kept host) search.old }
{
    if search.is_found() {
        return;
    }
    pass_return(tables, host, Channel::Req, search);
    pass_return(tables, host, Channel::Rwd, search);
    pass_return(tables, host, Channel::BiRsp, search);
}

/// Passes the returns.
#[tactic(auto, using(crate::proofs::Passing::searched_below))]
fn pass_returns(tables: &Tables, search: &mut Search)
    requires { IsSteady tables.now.setup tables.now.kept }
    ensures { search.new ≡ searched (flat_map (return_acts tables.now.setup tables.now.kept) (below tables.now.setup.hosts)) search.old }
{
    for host in 0..tables.setup.hosts() {
        pass_returns_to(tables, host, search);
    }
}

/// Passes all allowed acts, in the order of the next steps.
pub fn pass_all(tables: &Tables, search: &mut Search)
    requires { IsSteady tables.now.setup tables.now.kept }
    ensures { search.new ≡ searched (acts_in tables.now.setup tables.now.kept) search.old }
{
    pass_serves(tables, search);
    pass_starts(tables, search);
    pass_tasks(tables, tables.tasks.all(), search);
    pass_returns(tables, search);
}
