// A board of two hosts with its agents and seats in one hand, until two threads take a host each.
ghost use Rattle.std.specs.Prelude.{IfOk, IsTrue, OnOk, [], length, ◌+◌, ◌∷◌, ◌≡◌, ◌≤◌};
ghost use Rattle.fabric_rule.specs.Values.{HaveOneRun, mine};
ghost use Rattle.host_home.specs.Contract.{StandsFor};
ghost use Rattle.board_trial.specs.Trial.{ClosesWith, HasMade, IsClosed, MayMark, ShowsOwn, is_operation};

use crate::events::{hit, load};
use crate::front::Front;
use crate::host::Host;
use crate::marks::{Refused, mark_own};
use cxl_message::{Cause, Event, Setup};
use fabric_rule::{AgentSeat, Board};
use host_home::HostAgent;
use std::alloc::{AllocError, Global};
use std::marker::Model;
use std::thread::{Threads, join};

/// The numbers of the operations that a host has marked, with its seat.
type Made<const N: usize> = Result<([u64; N], AgentSeat), Refused>;

/// What two hosts did: the numbers of the operations of each, in the order in which it made them, and how many events the run has
/// (own rule).
#[derive(Drop)]
pub struct Race<const N: usize> {
    /// The numbers of host 0's operations, ascending.
    pub first: [u64; N],
    /// The numbers of host 1's operations, ascending.
    pub second: [u64; N],
    /// How many events the closed board's run has.
    pub events: u64,
}

/// A board of two hosts, with the hosts' agents and all seats (own rule).
#[derive(Drop)]
pub struct Stage {
    front: Front,
    first: Host,
    second: Host,
    device: AgentSeat,
}

impl Model for Stage {
    ghost use Rattle.board_trial.specs.Trial.{FrontValue, IsStage};

    ghost Value = { FrontValue };

    ghost view = { λ s. s.front };

    ghost invariant = { λ s. IsStage s.front s.first s.second s.device };
}

impl Stage {
    /// A stage with no event. It is refused where the room is none that a board can have, or for want of memory.
    pub fn open(alloc: Global, setup: &Setup, room: u32) -> Result<Stage, Refused>
        requires { setup.now.hosts ≡ 2 }
        ensures setup { IfOk result (λ s. s.board.setup ≡ setup.now) }
        ensures room { IfOk result (λ s. s.board.room ≡ room) }
        ensures seen { IfOk result (λ s. s.seen ≡ []) }
    {
        if room == 0 || room > 200_000 {
            return Err(Refused::NoRoom);
        }
        let (one, two) = agents_of_both(alloc, setup)?;
        let (front, (first, second, device)) = Front::open(alloc, setup, room)?;
        Ok(Stage {
            front,
            first: Host {
                agent: one,
                seat: first,
            },
            second: Host {
                agent: two,
                seat: second,
            },
            device,
        })
    }

    /// The event's seat marks it as the next one, and where it is a host's, the host's agent makes it too.
    pub fn play(self, event: &Event) -> Result<Stage, Refused>
        ensures { IfOk result (λ s. (s.board ≡ self.board) × (s.seen ≡ event.now ∷ self.seen)) }
    {
        let Stage {
            front,
            mut first,
            mut second,
            mut device,
        } = self;
        match event.agent {
            0 => {
                let front = first.play(front, event)?;
                Ok(Stage {
                    front,
                    first,
                    second,
                    device,
                })
            }
            1 => {
                let front = second.play(front, event)?;
                Ok(Stage {
                    front,
                    first,
                    second,
                    device,
                })
            }
            16 => {
                let front = front.advance(&mut device, event)?;
                Ok(Stage {
                    front,
                    first,
                    second,
                    device,
                })
            }
            _ => Err(Refused::NoRoom),
        }
    }

    /// The hosts mark an operation each. Neither knows of the other's. Then the board is closed.
    pub fn mark_apart(self, alloc: Global, one: &Cause, two: &Cause) -> Result<Race<1>, Refused>
        requires one { IsTrue (is_operation one.now) }
        requires two { IsTrue (is_operation two.now) }
        ensures { IfOk result (λ r. IsClosed self r.first r.second r.events) }
    {
        let Stage {
            front,
            first,
            second,
            device,
        } = self;
        let board = front.into_board(1)?;
        let one = mark_one(&board, first, one);
        let two = mark_one(&board, second, two);
        closed(alloc, board, one, two, device)
    }

    /// Two threads mark N loads of a host each, which hit. Then the board is closed.
    pub fn race<const N: usize, R: Threads + Sync>(
        self,
        rt: &R,
        alloc: Global,
    ) -> Result<Race<N>, Refused>
        requires { N ≤ 200000 }
        ensures { IfOk result (λ r. IsClosed self r.first r.second r.events) }
    {
        let Stage {
            front,
            first,
            second,
            device,
        } = self;
        let board = front.into_board(N as u64)?;
        let (one, two) = mark_hits_of_both(rt, &board, first, second);
        closed(alloc, board, one, two, device)
    }
}

/// The home agents of both hosts, before any event.
fn agents_of_both(alloc: Global, setup: &Setup) -> Result<(HostAgent, HostAgent), AllocError>
    requires { setup.now.hosts ≡ 2 }
    ensures first { IfOk result (λ r. StandsFor r.0 setup.now 0 []) }
    ensures second { IfOk result (λ r. StandsFor r.1 setup.now 1 []) }
{
    let first = HostAgent::open(alloc, setup, 0)?;
    let second = HostAgent::open(alloc, setup, 1)?;
    Ok((first, second))
}

/// The host marks an operation.
fn mark_one(board: &Board, host: Host, cause: &Cause) -> Made<1>
    requires may { MayMark board.now host.agent host.seat 1 }
    requires operation { IsTrue (is_operation cause.now) }
    ensures { IfOk result (λ r. HasMade board.now host.seat r.0 r.1) }
{
    let Host {
        mut agent,
        mut seat,
    } = host;
    let number = mark_own(board, &mut agent, &mut seat, cause)?;
    Ok(([number], seat))
}

/// Closes the board once both hosts have marked their operations.
fn closed<const N: usize>(
    alloc: Global,
    board: Board,
    one: Made<N>,
    two: Made<N>,
    device: AgentSeat,
) -> Result<Race<N>, Refused>
    requires hosts { board.setup.hosts ≡ 2 }
    requires first { IfOk one (λ r. (r.1.board ≡ board.id) × (r.1.agent ≡ 0)) }
    requires second { IfOk two (λ r. (r.1.board ≡ board.id) × (r.1.agent ≡ 1)) }
    requires third { (device.board ≡ board.id) × (device.agent ≡ 16) }
    ensures { IfOk result (λ r. ClosesWith board one.entry two.entry device r.first r.second r.events) }
{
    let (one, first) = one?;
    let (two, second) = two?;
    let events = close_with(alloc, board, first, second, device)?;
    Ok(Race {
        first: one,
        second: two,
        events,
    })
}

/// Closes the board of two hosts with its three seats.
fn close_with(
    alloc: Global,
    board: Board,
    first: AgentSeat,
    second: AgentSeat,
    device: AgentSeat,
) -> Result<u64, AllocError>
    requires hosts { board.setup.hosts ≡ 2 }
    requires first { (first.board ≡ board.id) × (first.agent ≡ 0) }
    requires second { (second.board ≡ board.id) × (second.agent ≡ 1) }
    requires third { (device.board ≡ board.id) × (device.agent ≡ 16) }
    ensures { IfOk result (λ n. HaveOneRun board.setup board.opening n (first ∷ second ∷ device ∷ [])) }
{
    let seats = listed(alloc, first, second, device)?;
    Ok(board.close(seats))
}

/// Two threads mark N loads of a host each.
fn mark_hits_of_both<const N: usize, R: Threads + Sync>(
    rt: &R,
    board: &Board,
    first: Host,
    second: Host,
) -> (Made<N>, Made<N>)
    requires loads { N ≤ 200000 }
    requires first { MayMark board.now first.agent first.seat N }
    requires second { MayMark board.now second.agent second.seat N }
    ensures first { IfOk result.0 (λ r. HasMade board.now first.seat r.0 r.1) }
    ensures second { IfOk result.1 (λ r. HasMade board.now second.seat r.0 r.1) }
{
    join(
        rt,
        move || -> Made<N>
            requires { (N ≤ 200000) × MayMark board.now first.agent first.seat N }
            ensures { IfOk result (λ r. HasMade board.entry.now first.seat r.0 r.1) }
        { mark_hits(board, first) },
        move || -> Made<N>
            requires { (N ≤ 200000) × MayMark board.now second.agent second.seat N }
            ensures { IfOk result (λ r. HasMade board.entry.now second.seat r.0 r.1) }
        { mark_hits(board, second) },
    )
}

/// Marks loads, one after another, and gives their numbers. A load that doesn't hit is refused.
fn mark_hits<const N: usize>(board: &Board, host: Host) -> Made<N>
    requires loads { N ≤ 200000 }
    requires may { MayMark board.now host.agent host.seat N }
    ensures { IfOk result (λ r. HasMade board.now host.seat r.0 r.1) }
{
    let Host {
        mut agent,
        mut seat,
    } = host;
    let mut numbers = [0; N];
    let mut index = 1;
    for place in 0..N {
        numbers[place] = mark_hit(board, &mut agent, &mut seat, index)?;
        index += 1;
    }
    Ok((numbers, seat))
}

/// Marks the host's load of this index, where it hits.
fn mark_hit(
    board: &Board,
    agent: &mut HostAgent,
    seat: &mut AgentSeat,
    index: u32,
) -> Result<u64, Refused>
    requires { MayMark board.now agent.old seat.old 1 }
    ensures shows { OnOk result (ShowsOwn board.now agent.new seat.new) }
    ensures made { IfOk result (λ n. HasMade board.now seat.old (n ∷ []) seat.new) }
    ensures room { OnOk result (length (mine seat.new) ≡ length (mine seat.old) + 1) }
{
    let number = seat.agent();
    let cause = load(number, index);
    if agent.would(&cause)? != hit(number, index) {
        return Err(Refused::OtherEvent);
    }
    mark_own(board, agent, seat, &cause)
}

/// The three seats in a list.
fn listed(
    alloc: Global,
    first: AgentSeat,
    second: AgentSeat,
    device: AgentSeat,
) -> Result<Vec<AgentSeat>, AllocError>
    ensures { IfOk result (λ v. v.items ≡ first ∷ second ∷ device ∷ []) }
{
    let mut seats = Vec::with_capacity(alloc, 3)?;
    seats.push(first)?;
    seats.push(second)?;
    seats.push(device)?;
    Ok(seats)
}
