// What an agent tells of itself.
ghost use Rattle.std.specs.Prelude.{◌≡◌, is_some, length, slice_get};
ghost use Rattle.std.specs.List.{list_any};
ghost use Rattle.coherence_model.specs.Cache.{copy as copy_after};
ghost use Rattle.coherence_model.specs.Pending.{host_pending};
ghost use Rattle.coherence_model.specs.Snoops.{is_snooped as snooped_after};
ghost use Rattle.coherence_model.specs.Streams.{begun_count, stream_waits as waits_after};
ghost use Rattle.coherence_model.specs.Transactions.{is_open as open_after};
ghost use Rattle.coherence_model.specs.Weight.{host_weight};
ghost use Rattle.host_acts.specs.Counting.{acts_of_agent};
ghost use Rattle.host_home.specs.Contract.{WhereStands};
ghost use Rattle.host_record.specs.HostRecord.{open_in, stream_in};
ghost use Rattle.host_record.specs.Stands.{acts_after, weight_in};
ghost use Rattle.host_record.specs.Tables.{lookup};
ghost use Rattle.host_record.specs.ViewRows.{snoop_of_line};
ghost use Rattle.host_record.specs.Ways.{copy_in};

use crate::agent::HostAgent;
use cxl_message::{Act, CopyState, Line};
use host_acts::{act_at, act_count, weight};

impl HostAgent {
    /// How many acts are allowed now (own rule). It takes no memory.
    #[tactic(auto, using(crate::proofs::Clauses::count_stands))]
    pub fn act_count(&self) -> u32
        ensures counted { WhereStands self.now (λ setup h mine. result ≡ length (acts_after setup h mine)) }
    {
        self.counted()
    }

    /// The allowed act of a number, in the order of the next steps: `None` exactly where there is none (own rule). It takes no
    /// memory.
    #[tactic(auto, using(crate::proofs::Clauses::pick_stands))]
    pub fn act_at(&self, k: u32) -> Option<Act>
        ensures picked { WhereStands self.now (λ setup h mine. result ≡ slice_get (acts_after setup h mine) k) }
    {
        self.picked(k)
    }

    /// The first allowed act (own rule). It takes no memory.
    #[tactic(auto, using(crate::proofs::Clauses::pick_stands))]
    pub fn first_act(&self) -> Option<Act>
        ensures picked { WhereStands self.now (λ setup h mine. result ≡ slice_get (acts_after setup h mine) 0) }
    {
        self.picked(0)
    }

    /// The state of the copy of a line (CXL 3.1, chapter 3: I, S, E and M). It takes no memory.
    #[tactic(auto, using(crate::proofs::Clauses::copy_is))]
    pub fn copy_of(&self, line: Line) -> CopyState
        ensures state { WhereStands self.now (λ setup h mine. result ≡ (copy_after setup line.0 mine).state) }
    {
        self.state_of(line)
    }

    /// How many operations a stream began: 0 for a stream that isn't this host's (own rule). It takes no memory.
    #[tactic(auto, using(crate::proofs::Clauses::stream_is))]
    pub fn stream_next(&self, stream: u8) -> u32
        ensures begun { WhereStands self.now (λ setup h mine. result ≡ begun_count stream mine) }
    {
        self.begun(stream)
    }

    /// Whether the last operation of a stream has no commit yet (own rule). It takes no memory.
    #[tactic(auto, using(crate::proofs::Clauses::waits_is))]
    pub fn stream_waits(&self, stream: u8) -> bool
        ensures waits { WhereStands self.now (λ setup h mine. result ≡ waits_after stream mine) }
    {
        self.waits(stream)
    }

    /// Whether a line is Open: a request or an eviction of it is (own rule). It takes no memory.
    #[tactic(auto, using(crate::proofs::Clauses::open_is))]
    pub fn is_open(&self, line: Line) -> bool
        ensures found { WhereStands self.now (λ setup h mine. result ≡ open_after line.0 mine) }
    {
        self.opens(line)
    }

    /// Whether a line is Snooped: a snoop of it has no answer yet (own rule). It takes no memory.
    #[tactic(auto, using(crate::proofs::Clauses::snooped_is))]
    pub fn is_snooped(&self, line: Line) -> bool
        ensures found { WhereStands self.now (λ setup h mine. result ≡ snooped_after line.0 mine) }
    {
        self.snoops(line)
    }

    /// Whether some line is Open or Snooped at this host (own rule). It takes no memory.
    #[tactic(auto, using(crate::proofs::Clauses::pending_is))]
    pub fn pending(&self) -> bool
        ensures pending { WhereStands self.now (λ setup h mine. result ≡ host_pending setup mine) }
    {
        self.any_busy()
    }

    /// What the credits that this agent owes and the snoops that it holds add to the weight (own rule). It takes no memory.
    #[tactic(auto, using(crate::proofs::Clauses::weight_is))]
    pub fn weight(&self) -> u64
        ensures weight { WhereStands self.now (λ setup h mine. result ≡ host_weight setup h mine) }
    {
        self.weighs()
    }
}

// The same by what the agent keeps.
impl HostAgent {
    /// How many acts are allowed.
    fn counted(&self) -> u32
        ensures { result ≡ length (acts_of_agent self.now) }
    {
        act_count(&self.tables)
    }

    /// The allowed act of a number.
    fn picked(&self, k: u32) -> Option<Act>
        ensures { result ≡ slice_get (acts_of_agent self.now) k }
    {
        act_at(&self.tables, k)
    }

    /// The state of the copy of a line.
    fn state_of(&self, line: Line) -> CopyState
        ensures { result ≡ (copy_in self.now.kept.ways line.0).state }
    {
        self.tables.copy(line)
    }

    /// How many operations a stream began.
    fn begun(&self, stream: u8) -> u32
        ensures { result ≡ (stream_in self.now.kept.streams stream).begun }
    {
        self.tables.begun(stream)
    }

    /// Whether the last operation of a stream has no commit yet.
    fn waits(&self, stream: u8) -> bool
        ensures { result ≡ (stream_in self.now.kept.streams stream).waits }
    {
        self.tables.waits(stream)
    }

    /// Whether something is open for a line.
    fn opens(&self, line: Line) -> bool
        ensures { result ≡ is_some (lookup self.now.kept.line_tags line.0) }
    {
        self.tables.tag_at(line).is_some()
    }

    /// Whether a held snoop has a line without an answer.
    fn snoops(&self, line: Line) -> bool
        ensures { result ≡ is_some (snoop_of_line self.now.kept.snoops line.0) }
    {
        self.tables.is_snooped(line)
    }

    /// Whether some line is Open or Snooped.
    fn any_busy(&self) -> bool
        ensures { result ≡ list_any (λ on. on) self.now.kept.busy }
    {
        self.tables.any_busy()
    }

    /// What the agent adds to the weight.
    fn weighs(&self) -> u64
        ensures { result ≡ weight_in self.now.kept }
    {
        weight(&self.tables)
    }
}
