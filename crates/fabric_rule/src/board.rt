// The board: one word that counts the events of one run, with a seat for each agent.
ghost use Rattle.std.specs.Prelude.{IfOk, IsTrue, OnOk, [], map, position, ◌++◌, ◌==◌, ◌≡◌, ◌≤◌};
ghost use Rattle.std.specs.List.{All};
ghost use Rattle.cxl_message.specs.Lists.{below};
ghost use Rattle.cxl_message.specs.Opening.{opening_fits as lines_exist};
ghost use Rattle.coherence_model.specs.Traces.{device};
ghost use Rattle.fabric_rule.specs.Board.{device_view};
ghost use Rattle.fabric_rule.specs.Values.{HasOneOfEach, HaveOneRun, agent_and_seen, agents_of, new_seats};

use crate::key::{BoardKey, BoardRule};
use crate::seat::AgentSeat;
use crate::steps::{NextHost, TakingOver};
use crate::view::View;
use atomic_table::{Seat, Table};
use cxl_message::{Opening, Setup};
use std::alloc::{AllocError, Global};
use std::marker::Model;
use std::snapshot::Snapshot;

const DEVICE: u8 = 16;

type BoardTable = Table<(), View, BoardKey, BoardRule, Global>;

/// The shared word of a fabric: how many events the one run of its agents has (own rule).
#[derive(Drop)]
pub struct Board {
    pub(crate) table: BoardTable,
}

impl Model for Board {
    ghost use Rattle.std.specs.Prelude.{◌≡◌};
    ghost use Rattle.fabric_rule.specs.Values.{BoardValue};

    ghost Value = { BoardValue };

    ghost view = { λ b. record { id = b.table.shared.table_id; setup = b.table.shared.key.setup; opening = b.table.shared.key.opening.value; room = b.table.shared.key.room } };

    ghost invariant = { λ b. (b.table.shared.table_id.words ≡ 1) × (b.table.shared.table_id.slots ≡ 0) };
}

impl Board {
    /// A board with no event, and the seats of the hosts, ascending, and then the device's. The board's runs are those of the setup
    /// and the opening, and each agent may make `room` events, from 1 to 200,000. The one error is want of memory (own rule).
    pub fn open(
        alloc: Global,
        setup: &Setup,
        opening: &Opening,
        room: u32,
    ) -> Result<(Board, Vec<AgentSeat>), AllocError>
        requires lines { IsTrue (lines_exist setup.now.lines opening.now) }
        requires room { (1 ≤ room) × (room ≤ 200000) }
        ensures setup { IfOk result (λ r. r.0.setup ≡ setup.now) }
        ensures opening { IfOk result (λ r. r.0.opening ≡ opening.now) }
        ensures room { IfOk result (λ r. r.0.room ≡ room) }
        ensures seats { IfOk result (λ r. r.1.items ≡ new_seats r.0.id (agents_of setup.now)) }
    {
        let key = BoardKey {
            setup: *setup,
            opening: Snapshot::of(opening),
            room,
        };
        let (table, mut first) = Table::of_words(alloc, &[0], &key)?;
        let mut seats = host_seats(alloc, &table, setup.hosts(), &mut first)?;
        seats.push(AgentSeat {
            agent: DEVICE,
            seat: first,
        })?;
        Ok((Board { table }, seats))
    }

    /// Ends the board, and answers how many events its one run has. What each seat has seen begins this run, and the seat's own are
    /// all events that the run has of its agent, with their numbers there (own rule). It takes no memory.
    pub fn close(self, mut seats: Vec<AgentSeat>) -> u64
        requires board { All (λ s. s.board ≡ self.id) seats.items }
        requires agents { HasOneOfEach (agents_of self.setup) seats.items }
        ensures run { HaveOneRun self.setup self.opening result seats.items }
    {
        let Board { table } = self;
        let Some(place) = place_of_device(&seats) else {
            unreachable!("one of the seats is the device's")
        };
        let AgentSeat { agent: _, mut seat } = seats.swap_remove(place);
        take_over(&table, &mut seat, seats);
        let closed = table.close_with(seat);
        let count = closed.word(0);
        closed.free();
        count
    }
}

/// Splits the seats of the hosts off the device's, ascending.
fn host_seats(
    alloc: Global,
    table: &BoardTable,
    hosts: u8,
    device: &mut Seat<(), View>,
) -> Result<Vec<AgentSeat>, AllocError>
    requires table { device.old.table_id ≡ table.now.shared.table_id }
    requires words { table.now.shared.table_id.words ≡ 1 }
    requires first { device.old.me ≡ (device_view 0, []) }
    requires hosts { hosts ≤ 16 }
    ensures table { OnOk result (device.new.table_id ≡ device.old.table_id) }
    ensures device { OnOk result (device.new.me ≡ (device_view hosts, [])) }
    ensures seats { IfOk result (λ v. v.items ≡ new_seats table.now.shared.table_id (below hosts)) }
{
    let mut seats = Vec::with_capacity(alloc, usize::from(hosts) + 1)?;
    for host in 0..hosts {
        seats.push(AgentSeat {
            agent: host,
            seat: table.shared.split_seat::<NextHost>(device),
        })?;
    }
    Ok(seats)
}

/// The place of the device's seat.
fn place_of_device(seats: &[AgentSeat]) -> Option<usize>
    ensures { result ≡ position (λ s. s.agent == device) seats.now }
{
    seats.iter().position(|seat| seat.agent() == DEVICE)
}

/// A seat takes over the agents of the others.
fn take_over(table: &BoardTable, seat: &mut Seat<(), View>, mut others: Vec<AgentSeat>)
    requires words { table.now.shared.table_id.words ≡ 1 }
    requires table { seat.old.table_id ≡ table.now.shared.table_id }
    requires others { All (λ s. s.board ≡ table.now.shared.table_id) others.items }
    ensures table { seat.new.table_id ≡ seat.old.table_id }
    ensures agents { seat.new.me.0.agents ≡ map agent_and_seen others.items ++ seat.old.me.0.agents }
{
    while let Some(next) = others.pop() {
        let AgentSeat {
            agent: _,
            seat: other,
        } = next;
        table.shared.join_seat::<TakingOver>(seat, other);
    }
}
