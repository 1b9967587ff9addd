// A host at the board: its home agent, which goes along with what its seat marks.
ghost use Rattle.std.specs.Prelude.{IfOk, OnOk, ◌∷◌, ◌≡◌};
ghost use Rattle.board_trial.specs.Trial.{ShowsOwn, SitsBy};
ghost use Rattle.host_home.specs.Contract.{StandsFor, WhereStands};

use crate::front::Front;
use crate::marks::Refused;
use cxl_message::{Event, same_commits, same_sends};
use fabric_rule::AgentSeat;
use host_home::HostAgent;

/// The home agent of a host, and the host's seat.
#[derive(Drop)]
pub struct Host {
    /// The home agent, which stands for the seat's own events.
    pub agent: HostAgent,
    /// The host's seat at the board.
    pub seat: AgentSeat,
}

impl Host {
    /// The host's seat marks the event as the next one of the run, and the host's agent makes it too.
    pub fn play(&mut self, front: Front, event: &Event) -> Result<Front, Refused>
        requires seat { SitsBy front event.now.agent self.old.seat }
        requires shows { ShowsOwn front.board self.old.agent self.old.seat }
        ensures front { IfOk result (λ f. (f.board ≡ front.board) × (f.seen ≡ event.now ∷ front.seen)) }
        ensures seat { IfOk result (λ f. SitsBy f event.now.agent self.new.seat) }
        ensures shows { IfOk result (λ f. ShowsOwn f.board self.new.agent self.new.seat) }
    {
        let front = front.advance(&mut self.seat, event)?;
        follow(&mut self.agent, event)?;
        Ok(front)
    }
}

/// The agent makes an event of its host too. It is refused where the agent makes none or another one of the event's cause.
pub fn follow(agent: &mut HostAgent, event: &Event) -> Result<(), Refused>
    ensures goes_on { WhereStands agent.old (λ setup h mine. event.now.agent ≡ h → OnOk result (StandsFor agent.new setup h (event.now ∷ mine))) }
{
    let emitted = agent.step(&event.cause)?;
    if same_sends(&event.sends, &emitted.sends) && same_commits(&event.commit, &emitted.commit) {
        Ok(())
    } else {
        Err(Refused::OtherEvent)
    }
}
