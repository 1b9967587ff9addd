// A script while it is read.
ghost use Rattle.std.specs.Prelude.{◌≡◌, ◌<◌, ◌≤◌, ◌+◌, IsTrue, OnOk, IfErr, Some, None, [], ◌∷◌, ◌++◌, length};
ghost use Rattle.cxl_message.specs.Names.{is_after_last_named, is_name};
ghost use Rattle.cxl_message.specs.Setup.{IsWithinLimits};
ghost use Rattle.script_text.specs.Drafts.{script_of, IsCounted, AddsLine, IsRefusedAt};
ghost use Rattle.script_text.specs.Refusals.{IfBad, op_refusal, stream_refusal, with_op, with_stream};
ghost use Rattle.script_text.specs.Script.{IsScript, IsSpelled};
ghost use Rattle.cxl_message.specs.declared.limits.TheConstants.{MAX_STREAMS};
ghost use Rattle.script_text.specs.declared.limits.TheConstants.{MAX_OPERATIONS};

use crate::limits::{MAX_OPERATIONS, MAX_PICK};
use crate::lines::ScriptLine;
use crate::refusals::{ScriptReason, ScriptRefusal};
use cxl_message::{
    Bytes64, Line, MAX_STREAMS, NameRefusal, Names, Op, Opening, OpeningRefusal, PLACES, Setup,
};
use std::alloc::Global;

/// What the lines that were read say, and how many operations there are.
#[derive(Drop)]
pub struct Draft {
    pub setup: Setup,
    pub names: Names,
    pub room: u32,
    pub opening: Opening,
    pub operations: Vec<Vec<Op>>,
    pub picks: Vec<u16>,
    pub count: u32,
}

impl Draft {
    /// A draft with no line after the seventh.
    pub fn new(alloc: Global, setup: Setup, room: u32) -> Draft
        ensures script { script_of result ≡ record { setup = setup; names = []; room = room; opening = []; operations = []; picks = [] } }
        ensures counted { IsCounted result }
    {
        Draft {
            setup,
            names: Names::new(alloc),
            room,
            opening: Opening::new(alloc),
            operations: Vec::new(alloc),
            picks: Vec::new(alloc),
            count: 0,
        }
    }

    /// Adds the line of this number, if it may stand after those that were read.
    pub fn add(
        &mut self,
        alloc: Global,
        number: u32,
        line: &ScriptLine,
    ) -> Result<(), ScriptRefusal>
        requires script { IsScript (script_of self.old) }
        requires counted { IsCounted self.old }
        requires spelled { IsSpelled line.now }
        ensures added { OnOk result (AddsLine line.now self.old self.new) }
        ensures refused { IfErr result (IsRefusedAt number line.now self.old) }
    {
        match line {
            ScriptLine::Open { line, bytes } => self.add_opening(number, *line, bytes),
            ScriptLine::Stream { host } => self.add_stream(alloc, number, *host),
            ScriptLine::NamedStream { host, name } => {
                self.add_named_stream(alloc, number, *host, name)
            }
            ScriptLine::Load { line } => self.add_load(number, *line),
            ScriptLine::Word { line, place, value } => self.add_word(number, *line, *place, *value),
            ScriptLine::Whole { line, bytes } => self.add_whole(number, *line, bytes),
            ScriptLine::Pick { pick } => self.add_pick(number, *pick),
        }
    }

    fn add_opening(&mut self, number: u32, line: u64, bytes: &Bytes64) -> Result<(), ScriptRefusal>
        requires script { IsScript (script_of self.old) }
        requires counted { IsCounted self.old }
        ensures added { OnOk result (AddsLine (ScriptLine.Open line bytes.now) self.old self.new) }
        ensures refused { IfErr result (IsRefusedAt number (ScriptLine.Open line bytes.now) self.old) }
    {
        if !self.setup.streams().is_empty() || !self.picks.is_empty() {
            return Err(bad(number, ScriptReason::Spelling));
        }
        if line >= u64::from(self.setup.lines()) {
            return Err(bad(number, ScriptReason::Range));
        }
        match self.opening.add(Line(line as u32), bytes) {
            Ok(()) => Ok(()),
            Err(OpeningRefusal::Memory) => Err(ScriptRefusal::Memory),
            Err(OpeningRefusal::Order) => Err(bad(number, ScriptReason::Order)),
            Err(OpeningRefusal::Zero) => Err(bad(number, ScriptReason::Order)),
        }
    }

    fn add_stream(&mut self, alloc: Global, number: u32, host: u64) -> Result<(), ScriptRefusal>
        requires script { IsScript (script_of self.old) }
        requires counted { IsCounted self.old }
        ensures added { OnOk result (AddsLine (ScriptLine.Stream host) self.old self.new) }
        ensures refused { IfErr result (IsRefusedAt number (ScriptLine.Stream host) self.old) }
    {
        self.allow_stream(number, host)?;
        self.push_stream(alloc, host as u8)
    }

    #[tactic(auto, using(crate::proofs::NameLaws::after_named))]
    fn add_named_stream(
        &mut self,
        alloc: Global,
        number: u32,
        host: u64,
        name: &[u8],
    ) -> Result<(), ScriptRefusal>
        requires script { IsScript (script_of self.old) }
        requires counted { IsCounted self.old }
        requires spelled { IsTrue (is_name name.now) }
        ensures added { OnOk result (AddsLine (ScriptLine.NamedStream host (record { items = name.now })) self.old self.new) }
        ensures refused { IfErr result (IsRefusedAt number (ScriptLine.NamedStream host (record { items = name.now })) self.old) }
    {
        self.allow_stream(number, host)?;
        add_name(&mut self.names, self.setup.streams().len() as u8, name)?;
        self.push_stream(alloc, host as u8)
    }

    fn add_load(&mut self, number: u32, line: u64) -> Result<(), ScriptRefusal>
        requires script { IsScript (script_of self.old) }
        requires counted { IsCounted self.old }
        ensures added { OnOk result (AddsLine (ScriptLine.Load line) self.old self.new) }
        ensures refused { IfErr result (IsRefusedAt number (ScriptLine.Load line) self.old) }
    {
        let fits = line < u64::from(self.setup.lines());
        self.allow_operation(number, fits)?;
        let line = Line(line as u32);
        self.add_operation(Op::Load { line })
    }

    fn add_word(
        &mut self,
        number: u32,
        line: u64,
        place: u64,
        value: u64,
    ) -> Result<(), ScriptRefusal>
        requires script { IsScript (script_of self.old) }
        requires counted { IsCounted self.old }
        ensures added { OnOk result (AddsLine (ScriptLine.Word line place value) self.old self.new) }
        ensures refused { IfErr result (IsRefusedAt number (ScriptLine.Word line place value) self.old) }
    {
        let fits = line < u64::from(self.setup.lines()) && place < u64::from(PLACES);
        self.allow_operation(number, fits)?;
        let line = Line(line as u32);
        let place = place as u8;
        self.add_operation(Op::Word { line, place, value })
    }

    fn add_whole(&mut self, number: u32, line: u64, bytes: &Bytes64) -> Result<(), ScriptRefusal>
        requires script { IsScript (script_of self.old) }
        requires counted { IsCounted self.old }
        ensures added { OnOk result (AddsLine (ScriptLine.Whole line bytes.now) self.old self.new) }
        ensures refused { IfErr result (IsRefusedAt number (ScriptLine.Whole line bytes.now) self.old) }
    {
        let fits = line < u64::from(self.setup.lines());
        self.allow_operation(number, fits)?;
        let line = Line(line as u32);
        let bytes = *bytes;
        self.add_operation(Op::Whole { line, bytes })
    }

    fn add_pick(&mut self, number: u32, pick: u64) -> Result<(), ScriptRefusal>
        requires counted { IsCounted self.old }
        ensures added { OnOk result (AddsLine (ScriptLine.Pick pick) self.old self.new) }
        ensures refused { IfErr result (IsRefusedAt number (ScriptLine.Pick pick) self.old) }
    {
        if pick > u64::from(MAX_PICK) {
            return Err(bad(number, ScriptReason::Range));
        }
        self.picks.push(pick as u16)?;
        Ok(())
    }

    /// Whether a stream on this host may stand after the lines that were read.
    fn allow_stream(&self, number: u32, host: u64) -> Result<(), ScriptRefusal>
        ensures allowed { OnOk result (stream_refusal (script_of self.now) host ≡ None) }
        ensures refused { IfErr result (λ refusal. IfBad refusal (λ at reason. (at ≡ number) × (stream_refusal (script_of self.now) host ≡ Some reason))) }
    {
        if !self.picks.is_empty() {
            return Err(bad(number, ScriptReason::Spelling));
        }
        if host >= u64::from(self.setup.hosts()) {
            return Err(bad(number, ScriptReason::Range));
        }
        if self.setup.streams().len() >= MAX_STREAMS as usize {
            return Err(bad(number, ScriptReason::Many));
        }
        Ok(())
    }

    /// Adds a stream that has no operations yet.
    fn push_stream(&mut self, alloc: Global, host: u8) -> Result<(), ScriptRefusal>
        requires counted { IsCounted self.old }
        requires few { length self.old.setup.streams < MAX_STREAMS }
        requires exists { host < self.old.setup.hosts }
        ensures added { OnOk result (script_of self.new ≡ with_stream (script_of self.old) host (script_of self.old).names) }
        ensures counted { OnOk result (IsCounted self.new) }
        ensures memory { IfErr result (λ refusal. refusal ≡ ScriptRefusal.Memory) }
    {
        self.operations.push(Vec::new(alloc))?;
        self.setup = setup_with_stream(&self.setup, host);
        Ok(())
    }

    /// Whether an operation, whose numbers fit or don't, may stand after the lines that were read.
    fn allow_operation(&self, number: u32, fits: bool) -> Result<(), ScriptRefusal>
        requires counted { IsCounted self.now }
        ensures allowed { OnOk result (op_refusal (script_of self.now) fits ≡ None) }
        ensures refused { IfErr result (λ refusal. IfBad refusal (λ at reason. (at ≡ number) × (op_refusal (script_of self.now) fits ≡ Some reason))) }
    {
        if self.setup.streams().is_empty() || !self.picks.is_empty() {
            return Err(bad(number, ScriptReason::Spelling));
        }
        if !fits {
            return Err(bad(number, ScriptReason::Range));
        }
        if self.count >= MAX_OPERATIONS {
            return Err(bad(number, ScriptReason::Many));
        }
        Ok(())
    }

    /// Adds an operation to the last stream.
    fn add_operation(&mut self, op: Op) -> Result<(), ScriptRefusal>
        requires counted { IsCounted self.old }
        requires streams { 0 < length self.old.operations.items }
        requires few { self.old.count < MAX_OPERATIONS }
        ensures added { OnOk result (script_of self.new ≡ record (script_of self.old) { operations = with_op (script_of self.old).operations op }) }
        ensures counted { OnOk result (IsCounted self.new) }
        ensures memory { IfErr result (λ refusal. refusal ≡ ScriptRefusal.Memory) }
    {
        let last = self.operations.len() - 1;
        self.operations[last].push(op)?;
        self.count += 1;
        Ok(())
    }
}

/// The refusal of the line of this number.
fn bad(line: u32, reason: ScriptReason) -> ScriptRefusal
    ensures { result ≡ ScriptRefusal.Bad line reason }
{
    ScriptRefusal::Bad { line, reason }
}

/// Adds the name of a stream that is greater than those that have one.
fn add_name(names: &mut Names, stream: u8, name: &[u8]) -> Result<(), ScriptRefusal>
    requires after { IsTrue (is_after_last_named names.old stream) }
    requires spelled { IsTrue (is_name name.now) }
    ensures added { OnOk result (names.new ≡ names.old ++ (stream, name.now) ∷ []) }
    ensures memory { IfErr result (λ refusal. refusal ≡ ScriptRefusal.Memory) }
{
    match names.add(stream, name) {
        Ok(()) => Ok(()),
        Err(NameRefusal::Memory) => Err(ScriptRefusal::Memory),
        Err(NameRefusal::Order | NameRefusal::Spelling) => {
            unreachable!("the stream is the next one, and the name was read as one")
        }
    }
}

/// A setup with one stream more.
fn setup_with_stream(setup: &Setup, host: u8) -> Setup
    requires few { length setup.now.streams < MAX_STREAMS }
    requires exists { host < setup.now.hosts }
    ensures { result ≡ record setup.now { streams = setup.now.streams ++ host ∷ [] } }
{
    let mut hosts = [0; MAX_STREAMS as usize];
    let count = setup.streams().len();
    hosts[..count].copy_from_slice(setup.streams());
    hosts[count] = host;
    match Setup::new(
        setup.hosts(),
        setup.lines(),
        setup.entries(),
        setup.ways(),
        setup.tags(),
        setup.credits(),
        &hosts[..count + 1],
    ) {
        Ok(setup) => setup,
        Err(_) => unreachable!(
            "one more stream of a host that there is, after fewer than there may be"
        ),
    }
}
