// The device's lines.
ghost use Rattle.std.specs.Prelude.{◌≡◌, ◌+◌, ◌-◌, ◌<◌, ◌≤◌, ◌*◌, ◌++◌, ◌∷◌, [], IfOk, IfSome, None, Some, is_some, length, map, option_and_then, option_map, replicate, slice_get, slice_set, unwrap_or};
ghost use Rattle.cxl_message.specs.declared.messages.Message.{Message};
ghost use Rattle.cxl_message.specs.Lists.{below};
ghost use Rattle.cxl_message.specs.Opening.{bytes_at};
ghost use Rattle.coherence_model.specs.Buffers.{message_with};
ghost use Rattle.device_record.specs.Record.{bytes_in, writes_at};
ghost use Rattle.device_record.specs.Tables.{changed_at};
ghost use Rattle.device_lines.specs.Lines.{ndr_with, served_message, served_record, write_of};
ghost use Rattle.coherence_model.specs.DeviceActs.{served_by};
ghost use Rattle.coherence_model.specs.Next.{tag_or_zero};
ghost use Rattle.line_pool.specs.Pools.{line_of};

use crate::buffers::{Served, Write, Writes};
use cxl_message::{Bytes64, Line, Meta, NdrOp, Opening, Setup, SnpType, Tag};
use line_pool::{LinePool, SlotId};
use std::alloc::{AllocError, Global};
use std::marker::Model;

/// The device's memory and its buffered RwD messages, in one region of lines (own rule).
///
/// A contract sees memory by line, the messages that are buffered for each host, in the order taken, and how many of a
/// host there may be. A line of memory is a slot of the region, and so are the bytes of a buffered MemWr: where that is
/// served, the line names its slot, and no byte is copied. Only `open` takes memory.
#[derive(Drop)]
pub struct DeviceLines {
    pool: LinePool,
    // For each line its slot.
    lines: Vec<SlotId>,
    // For each host its buffered messages.
    buffers: Vec<Writes>,
    room: u8,
}

impl Model for DeviceLines {
    ghost use Rattle.device_lines.specs.Lines.{LinesRecord};
    ghost use Rattle.device_lines.specs.Region.{IsShared, lines_seen};

    ghost Value = { LinesRecord };

    ghost view = { λ d. lines_seen d.pool d.lines.items d.buffers.items d.room };

    ghost invariant = { λ d. IsShared d.pool d.lines.items d.buffers.items d.room };
}

impl DeviceLines {
    /// Memory as an opening has it, and no messages. It takes all the memory that the region ever has, and `Err` is want
    /// of it.
    pub fn open(alloc: Global, setup: &Setup, opening: &Opening) -> Result<DeviceLines, AllocError>
        ensures opened { IfOk result (λ d. d ≡ record { memory = map (bytes_at opening.now) (below setup.now.lines); writes = replicate setup.now.hosts []; room = setup.now.credits }) }
    {
        let more = u32::from(setup.hosts()) * u32::from(setup.credits());
        let mut pool = LinePool::open(alloc, setup.lines() + more)?;
        let lines = fill(alloc, &mut pool, setup.lines(), opening)?;
        let buffers = open_buffers(alloc, setup.hosts())?;
        Ok(DeviceLines {
            pool,
            lines,
            buffers,
            room: setup.credits(),
        })
    }

    /// The bytes of a line of memory.
    pub fn bytes(&self, line: Line) -> &[u8; 64]
        requires line { line.0 < length self.now.memory }
        ensures bytes { record { 0 = result.now } ≡ bytes_in self.now.memory line.0 }
    {
        self.pool.bytes(self.lines[line.0 as usize])
    }

    /// What the buffered message of a host with a tag is, if there is one.
    pub fn with_tag(&self, host: u8, tag: Tag) -> Option<Served>
        requires host { host < length self.now.writes }
        ensures served { result ≡ option_map served_message (message_with tag.0 (writes_at host self.now.writes)) }
    {
        match self.buffers[host as usize].with_tag(tag) {
            Some(write) => Some(write.served()),
            None => None,
        }
    }

    /// Whether a message of a host with a tag is buffered.
    pub fn has_tag(&self, host: u8, tag: Tag) -> bool
        requires host { host < length self.now.writes }
        ensures tag { result ≡ is_some (message_with tag.0 (writes_at host self.now.writes)) }
    {
        self.with_tag(host, tag).is_some()
    }

    /// The opcode of the NDR message that answers the buffered message of a host with a tag: Cmp for MemWr,
    /// BI-ConflictAck for BIConflict (CXL 3.1, chapter 3).
    pub fn completion(&self, host: u8, tag: Tag) -> Option<NdrOp>
        requires host { host < length self.now.writes }
        ensures completion { option_map (ndr_with tag) result ≡ option_and_then served_by (message_with tag.0 (writes_at host self.now.writes)) }
    {
        match self.buffers[host as usize].with_tag(tag) {
            Some(write) => Some(write.completion()),
            None => None,
        }
    }

    /// Buffers a MemWr of a host that was taken. There is room for it.
    pub fn take_write(
        &mut self,
        host: u8,
        meta: Meta,
        snp: SnpType,
        tag: Tag,
        line: Line,
        bytes: &Bytes64,
    )
        requires host { host < length self.old.writes }
        requires room { length (writes_at host self.old.writes) < self.old.room }
        ensures taken { self.new ≡ record self.old { writes = changed_at host (λ ms. ms ++ Message.MemWr meta snp tag line bytes.now ∷ []) self.old.writes } }
    {
        let slot = store(&mut self.pool, &bytes.0);
        push_at(
            &mut self.buffers,
            host,
            Write::Line {
                meta,
                snp,
                tag,
                line,
                slot,
            },
        );
    }

    /// Buffers a BIConflict of a host that was taken. There is room for it.
    pub fn take_conflict(&mut self, host: u8, tag: Tag)
        requires host { host < length self.old.writes }
        requires room { length (writes_at host self.old.writes) < self.old.room }
        ensures taken { self.new ≡ record self.old { writes = changed_at host (λ ms. ms ++ Message.BiConflict tag ∷ []) self.old.writes } }
    {
        push_at(&mut self.buffers, host, Write::Conflict { tag });
    }

    /// Serves the buffered message of a host with a tag, if there is one: a MemWr changes its line of memory, which
    /// exists.
    pub fn serve(&mut self, host: u8, tag: Tag)
        requires host { host < length self.old.writes }
        requires line { IfSome (write_of host tag.0 self.old.writes) (λ w. w.0 < length self.old.memory) }
        ensures served { self.new ≡ served_record host tag.0 self.old }
    {
        match self.buffers[host as usize].with_tag(tag) {
            Some(write) => match write.target() {
                Some(target) => {
                    let old = replace_slot(&mut self.lines, target.line, target.slot);
                    self.pool.give(old);
                    remove_at(&mut self.buffers, host, tag);
                }
                None => remove_at(&mut self.buffers, host, tag),
            },
            None => {}
        }
    }

    /// How many messages of a host are buffered.
    pub fn count(&self, host: u8) -> u8
        requires host { host < length self.now.writes }
        ensures counted { result ≡ length (writes_at host self.now.writes) }
    {
        self.buffers[host as usize].all().len() as u8
    }

    /// The tag of the buffered message of a host with a number, in the order taken.
    pub fn tag_at(&self, host: u8, number: u8) -> Option<Tag>
        requires host { host < length self.now.writes }
        ensures tag { result ≡ option_map (λ m. record { 0 = tag_or_zero m }) (slice_get (writes_at host self.now.writes) number) }
    {
        match self.buffers[host as usize].all().get(number as usize) {
            Some(write) => Some(write.tag()),
            None => None,
        }
    }
}

/// Puts bytes into a slot that was spare.
fn store(pool: &mut LinePool, bytes: &[u8; 64]) -> SlotId
    requires { 0 < pool.old.spare }
    ensures not_in_use { (result < length pool.old.slots) × (line_of pool.old result ≡ None) }
    ensures stored { pool.new ≡ record { slots = slice_set pool.old.slots result (Some bytes.now); spare = pool.old.spare - 1 } }
{
    match pool.take() {
        Some(slot) => {
            *pool.bytes_mut(slot) = *bytes;
            slot
        }
        None => unreachable!("a slot is spare"),
    }
}

ghost use Rattle.device_lines.specs.Buffered.{without_write};

/// Lets a line name another slot, and answers the one that it named.
fn replace_slot(lines: &mut Vec<SlotId>, line: Line, slot: SlotId) -> SlotId
    requires { line.0 < length lines.old.items }
    ensures named { slice_get lines.old.items line.0 ≡ Some result }
    ensures lines { lines.new.items ≡ slice_set lines.old.items line.0 slot }
{
    let named = &mut lines[line.0 as usize];
    let old = *named;
    *named = slot;
    old
}

/// Appends a message of a host.
fn push_at(buffers: &mut Vec<Writes>, host: u8, write: Write)
    requires host { host < length buffers.old.items }
    requires room { length (unwrap_or (slice_get buffers.old.items host) []) < 64 }
    ensures { buffers.new.items ≡ changed_at host (λ ws. ws ++ write ∷ []) buffers.old.items }
{
    let writes = &mut buffers[host as usize];
    writes.push(write);
}

/// Takes the first message of a host with a tag away.
fn remove_at(buffers: &mut Vec<Writes>, host: u8, tag: Tag)
    requires host { host < length buffers.old.items }
    ensures { buffers.new.items ≡ changed_at host (without_write tag.0) buffers.old.items }
{
    let writes = &mut buffers[host as usize];
    writes.remove(tag);
}

ghost use Rattle.device_lines.specs.Filled.{IsFilled};

/// Gives each of so many lines a slot of an unused pool, with its bytes in an opening.
fn fill(
    alloc: Global,
    pool: &mut LinePool,
    count: u32,
    opening: &Opening,
) -> Result<Vec<SlotId>, AllocError>
    requires unused { IsFilled pool.old [] opening.now 0 }
    requires spare { count ≤ pool.old.spare }
    ensures filled { IfOk result (λ lines. IsFilled pool.new lines.items opening.now count) }
    ensures spare { IfOk result (λ lines. pool.new.spare + count ≡ pool.old.spare) }
{
    let mut lines = Vec::with_capacity(alloc, count as usize)?;
    for line in 0..count {
        let slot = store(pool, &opening.bytes_at(Line(line)).0);
        lines.push(slot)?;
    }
    Ok(lines)
}

/// A buffer without messages for each host.
#[tactic(auto, using(crate::proofs::Opened::replicate_more))]
fn open_buffers(alloc: Global, hosts: u8) -> Result<Vec<Writes>, AllocError>
    ensures { IfOk result (λ buffers. buffers.items ≡ replicate hosts []) }
{
    let mut buffers = Vec::with_capacity(alloc, hosts as usize)?;
    for _ in 0..hosts {
        buffers.push(Writes::open(alloc)?)?;
    }
    Ok(buffers)
}
