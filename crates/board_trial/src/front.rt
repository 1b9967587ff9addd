// The whole run of a board so far, in one hand.
ghost use Rattle.std.specs.Prelude.{IfOk, OnOk, [], length, vec_len, ◌+◌, ◌∷◌, ◌≡◌, ◌≤◌};
ghost use Rattle.fabric_rule.specs.Values.{agents_of, new_seats};
ghost use Rattle.board_trial.specs.Trial.{SitsBy};

use crate::marks::{Refused, mark_next};
use cxl_message::{Event, Opening, Setup};
use fabric_rule::{AgentSeat, Board, Note};
use machine::Machine;
use std::alloc::Global;
use std::marker::Model;

/// The seats of host 0, of host 1 and of the device.
pub type Seats = (AgentSeat, AgentSeat, AgentSeat);

/// A board, a note of its whole run, and a machine that stands for it.
#[derive(Drop)]
pub struct Front {
    /// The board.
    pub board: Board,
    /// How many events each agent may make, 1 to 200,000.
    pub room: u32,
    /// The machine, which stands for the whole run.
    pub machine: Machine,
    /// A note of the whole run.
    pub note: Note,
    /// How many events the run has.
    pub count: u64,
}

impl Model for Front {
    ghost use Rattle.board_trial.specs.Trial.{FrontValue, IsFront};

    ghost Value = { FrontValue };

    ghost view = { λ f. record { board = f.board; seen = f.note.seen } };

    ghost invariant = { λ f. IsFront f.board f.room f.machine f.note f.count };
}

impl Front {
    /// The front of a board with no event, with its seats: the hosts', and then the device's.
    pub fn open(alloc: Global, setup: &Setup, room: u32) -> Result<(Front, Seats), Refused>
        requires hosts { setup.now.hosts ≡ 2 }
        requires room { (1 ≤ room) × (room ≤ 200000) }
        ensures setup { IfOk result (λ r. r.0.board.setup ≡ setup.now) }
        ensures room { IfOk result (λ r. r.0.board.room ≡ room) }
        ensures seen { IfOk result (λ r. r.0.seen ≡ []) }
        ensures seats { IfOk result (λ r. new_seats r.0.board.id (agents_of setup.now) ≡ r.1.0 ∷ r.1.1 ∷ r.1.2 ∷ []) }
    {
        let opening = Opening::new(alloc);
        let Ok(machine) = Machine::open(alloc, setup, &opening) else {
            return Err(Refused::Memory);
        };
        let (board, seats) = Board::open(alloc, setup, &opening, room)?;
        let (first, second, mut device) = three_of(seats);
        let note = device.note(&board);
        let front = Front {
            board,
            room,
            machine,
            note,
            count: 0,
        };
        Ok((front, (first, second, device)))
    }

    /// Whether each agent has room for so many more events.
    pub fn has_room(&self, more: u64) -> Result<(), Refused>
        requires { more ≤ 200000 }
        ensures { OnOk result (length self.now.seen + more ≤ self.now.board.room) }
    {
        if self.count < 1 << 32 && self.count + more <= u64::from(self.room) {
            Ok(())
        } else {
            Err(Refused::NoRoom)
        }
    }

    /// The board alone, where each agent has room for so many more events.
    pub fn into_board(self, more: u64) -> Result<Board, Refused>
        requires { more ≤ 200000 }
        ensures board { IfOk result (λ b. b ≡ self.board) }
        ensures room { OnOk result (length self.seen + more ≤ self.board.room) }
    {
        self.has_room(more)?;
        let Front { board, .. } = self;
        Ok(board)
    }

    /// The seat marks the event as the next one.
    pub fn advance(self, seat: &mut AgentSeat, event: &Event) -> Result<Front, Refused>
        requires seat { SitsBy self event.now.agent seat.old }
        ensures front { IfOk result (λ f. (f.board ≡ self.board) × (f.seen ≡ event.now ∷ self.seen)) }
        ensures seat { IfOk result (λ f. SitsBy f event.now.agent seat.new) }
    {
        self.has_room(1)?;
        let Front {
            board,
            room,
            mut machine,
            note,
            count,
        } = self;
        let note = mark_next(&board, &mut machine, note, count, seat, event)?;
        Ok(Front {
            board,
            room,
            machine,
            note,
            count: count + 1,
        })
    }
}

/// The seats of a list of three.
fn three_of(mut seats: Vec<AgentSeat>) -> Seats
    requires { vec_len seats ≡ 3 }
    ensures { seats.items ≡ result.0 ∷ result.1 ∷ result.2 ∷ [] }
{
    let Some(device) = seats.pop() else {
        unreachable!("there are three seats")
    };
    let Some(second) = seats.pop() else {
        unreachable!("there are three seats")
    };
    let Some(first) = seats.pop() else {
        unreachable!("there are three seats")
    };
    (first, second, device)
}
