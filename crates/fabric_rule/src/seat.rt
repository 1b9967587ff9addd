// An agent's seat at the board, and the notes that seats give one another.
ghost use Rattle.std.specs.Prelude.{IsTrue, length, ◌+◌, ◌<◌, ◌∷◌, ◌≡◌};
ghost use Rattle.coherence_model.specs.Runs.{IsRun, is_allowed};
ghost use Rattle.fabric_rule.specs.Fronts.{EndsWith, GoesOnFrom, longer};
ghost use Rattle.fabric_rule.specs.Values.{mine};

use crate::board::Board;
use crate::steps::{Learning, Marking, Meeting, Noting, Subject};
use crate::view::View;
use atomic_table::Seat;
use cxl_message::Event;
use std::marker::{Brand, Model};

/// The seat of an agent: what the agent knows of the board's run, all events that it has seen, its own among them. At run time it
/// has the number of its agent alone (own rule).
#[derive(Drop)]
pub struct AgentSeat {
    pub(crate) agent: u8,
    pub(crate) seat: Seat<(), View>,
}

impl Model for AgentSeat {
    ghost use Rattle.std.specs.Prelude.{◌≡◌};
    ghost use Rattle.fabric_rule.specs.Steps.{IsSeat, agent_of};
    ghost use Rattle.fabric_rule.specs.Values.{SeatValue};

    ghost Value = { SeatValue };

    ghost view = { λ s. record { board = s.seat.table_id; agent = agent_of s.seat.me.0.agents; seen = s.seat.me.0.seen } };

    ghost invariant = { λ s. IsSeat s.seat.me × (s.agent ≡ agent_of s.seat.me.0.agents) };
}

/// What a seat had seen at a moment. Any seat of the board may meet it. At run time it has no bytes (own rule).
#[derive(Drop)]
pub struct Note {
    seat: Seat<(), View>,
}

impl Model for Note {
    ghost use Rattle.std.specs.Prelude.{[], ◌≡◌};
    ghost use Rattle.fabric_rule.specs.Values.{NoteValue};

    ghost Value = { NoteValue };

    ghost view = { λ n. record { board = n.seat.table_id; seen = n.seat.me.0.seen } };

    ghost invariant = { λ n. n.seat.me.1 ≡ [] };
}

impl AgentSeat {
    /// The agent of this seat: the number of its host, or 16 for the device.
    pub fn agent(&self) -> u8
        ensures { result ≡ self.now.agent }
    {
        self.agent
    }

    /// Makes the event the next of the board's run, by one `fetch_add`, and answers its number: how many events came before it.
    /// Everything up to the event is then seen (own rule). It takes no memory.
    pub fn mark(&mut self, board: &Board, event: &Event) -> u64
        requires board { self.old.board ≡ board.now.id }
        requires agent { event.now.agent ≡ self.old.agent }
        requires room { length (mine self.old) < board.now.room }
        requires allowed { IsTrue (is_allowed board.now.setup board.now.opening self.old.seen event.now) }
        ensures board { self.new.board ≡ self.old.board }
        ensures agent { self.new.agent ≡ self.old.agent }
        ensures run { IsRun board.now.setup board.now.opening self.new.seen }
        ensures number { length self.new.seen ≡ result + 1 }
        ensures ends { EndsWith self.old.agent self.old.seen event.now self.new.seen }
        ensures own { mine self.new ≡ (result, event.now) ∷ mine self.old }
    {
        self.mark_about::<Brand>(board, event)
    }

    fn mark_about<J: Subject>(&mut self, board: &Board, event: &Event) -> u64
        requires board { self.old.board ≡ board.now.id }
        requires subject { (J.setup ≡ board.now.setup) × (J.opening ≡ board.now.opening) × (J.event ≡ event.now) }
        requires agent { event.now.agent ≡ self.old.agent }
        requires room { length (mine self.old) < board.now.room }
        requires allowed { IsTrue (is_allowed board.now.setup board.now.opening self.old.seen event.now) }
        ensures board { self.new.board ≡ self.old.board }
        ensures agent { self.new.agent ≡ self.old.agent }
        ensures run { IsRun board.now.setup board.now.opening self.new.seen }
        ensures number { length self.new.seen ≡ result + 1 }
        ensures ends { EndsWith self.old.agent self.old.seen event.now self.new.seen }
    {
        board
            .table
            .shared
            .fetch_add::<Marking<J>>(&mut self.seat, 0, 1)
    }

    /// A note of what this seat has seen (own rule). It takes no memory.
    pub fn note(&mut self, board: &Board) -> Note
        requires { self.old.board ≡ board.now.id }
        ensures same { self.new ≡ self.old }
        ensures board { result.board ≡ self.old.board }
        ensures seen { result.seen ≡ self.old.seen }
    {
        let seat = board.table.shared.split_seat::<Noting>(&mut self.seat);
        Note { seat }
    }

    /// Takes a note in: this seat has then seen the longer of what it and the note had seen, which both of these begin. What its
    /// agent made stays as it was (own rule). It takes no memory.
    pub fn meet(&mut self, board: &Board, note: Note)
        requires board { self.old.board ≡ board.now.id }
        requires note { note.board ≡ board.now.id }
        ensures board { self.new.board ≡ self.old.board }
        ensures agent { self.new.agent ≡ self.old.agent }
        ensures seen { self.new.seen ≡ longer self.old.seen note.seen }
        ensures front { GoesOnFrom self.old.seen self.new.seen }
        ensures met { GoesOnFrom note.seen self.new.seen }
        ensures own { mine self.new ≡ mine self.old }
        ensures run { IsRun board.now.setup board.now.opening self.new.seen }
    {
        self.meet_about::<Brand>(board, note);
    }

    fn meet_about<J: Subject>(&mut self, board: &Board, note: Note)
        requires board { self.old.board ≡ board.now.id }
        requires subject { (J.setup ≡ board.now.setup) × (J.opening ≡ board.now.opening) }
        requires note { note.board ≡ board.now.id }
        ensures board { self.new.board ≡ self.old.board }
        ensures agent { self.new.agent ≡ self.old.agent }
        ensures seen { self.new.seen ≡ longer self.old.seen note.seen }
        ensures front { GoesOnFrom self.old.seen self.new.seen }
        ensures met { GoesOnFrom note.seen self.new.seen }
        ensures own { mine self.new ≡ mine self.old }
        ensures run { IsRun board.now.setup board.now.opening self.new.seen }
    {
        let Note { seat } = note;
        board
            .table
            .shared
            .join_seat::<Meeting>(&mut self.seat, seat);
        board.table.shared.load::<Learning<J>>(&mut self.seat, 0);
    }
}
