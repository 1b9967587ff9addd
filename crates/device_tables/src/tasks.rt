// The tasks of the device.
ghost use Rattle.std.specs.Prelude.{◌≡◌, ◌+◌, ◌<◌, ◌≤◌, ◌==◌, [], IfOk, length, map, nat_lt, not, option_map, position, vec_capacity, vec_len};
ghost use Rattle.cxl_message.specs.Lists.{below};
ghost use Rattle.block_snoop.specs.Answering.{LeftRecord, some_left};
ghost use Rattle.coherence_model.specs.Tasks.{Task as TaskOf};
ghost use Rattle.device_record.specs.Answers.{asking_for, is_asked_by};
ghost use Rattle.device_record.specs.Kept.{kept_task};
ghost use Rattle.device_record.specs.Record.{TaskRecord, left_at, task_at};
ghost use Rattle.device_record.specs.Sparse.{put_in_order};
ghost use Rattle.device_record.specs.Tables.{changed_at};
ghost use Rattle.device_record.specs.TaskChanges.{lines_still_left, task_begun, task_left, tasks_without};
ghost use Rattle.snoop_filter.specs.Victims.{block_from, block_lines};
ghost use Rattle.device_tables.specs.Changing.{place_in_order};
ghost use Rattle.device_record.specs.Steady.{AscendFrom};
ghost use Rattle.device_tables.specs.Tasks.{purpose_seen, task_asked};

use block_snoop::{AnswersLeft, Purpose};
use cxl_message::{Line, RspOp, Span, Tag};
use snoop_filter::Block;
use std::alloc::{AllocError, Global};
use std::marker::Model;

/// What a task is for.
#[derive(Clone, Copy)]
pub enum TaskKind {
    /// The grant of a MemRd Shared.
    SharedRead,
    /// The grant of a MemRd Any.
    OwningRead,
    /// The grant of a MemInv.
    Invalidation,
    /// An eviction that makes room for a request.
    Eviction,
}

/// A task: its block, what it is for, the host and the tag of its request, and for each host the lines that it was
/// asked for and hasn't answered.
#[derive(Drop)]
pub struct Task {
    block: Block,
    kind: TaskKind,
    host: u8,
    tag: Tag,
    hosts: u8,
    left: [AnswersLeft; 16],
}

impl Model for Task {
    ghost use Rattle.device_record.specs.Record.{TaskRecord};
    ghost use Rattle.device_tables.specs.Tasks.{IsTask, task_seen};

    ghost Value = { TaskRecord };

    ghost view = { task_seen };

    ghost invariant = { IsTask };
}

impl Task {
    /// A task by which no host of so many is asked yet.
    pub fn new(block: Block, kind: TaskKind, host: u8, tag: Tag, hosts: u8) -> Task
        requires { hosts ≤ 16 }
        ensures { result ≡ task_begun hosts block.first.0 (record { purpose = purpose_seen kind; host = host; tag = tag.0; span = block.span }) }
    {
        Task {
            block,
            kind,
            host,
            tag,
            hosts,
            left: [none_left(block); 16],
        }
    }

    /// Its block.
    pub fn block(&self) -> Block
        ensures { result ≡ block_from self.now.first self.now.span }
    {
        self.block
    }

    /// Its first line.
    pub fn first(&self) -> u32
        ensures { result ≡ self.now.first }
    {
        self.block.first.0
    }

    /// What it is for.
    pub fn kind(&self) -> TaskKind
        ensures { purpose_seen result ≡ self.now.purpose }
    {
        self.kind
    }

    /// The host of its request.
    pub fn host(&self) -> u8
        ensures { result ≡ self.now.host }
    {
        self.host
    }

    /// The tag of its request.
    pub fn tag(&self) -> Tag
        ensures { result.0 ≡ self.now.tag }
    {
        self.tag
    }

    /// What it asks hosts for.
    pub fn asks_for(&self) -> Purpose
        ensures { result ≡ asking_for self.now.purpose self.now.host }
    {
        match self.kind {
            TaskKind::SharedRead => Purpose::SharedFor(self.host),
            TaskKind::OwningRead => Purpose::OwnedFor(self.host),
            TaskKind::Invalidation => Purpose::OwnedFor(self.host),
            TaskKind::Eviction => Purpose::Evicting,
        }
    }

    /// Whether a host was asked and has lines left to answer.
    pub fn has_asked(&self, host: u8) -> bool
        ensures { result ≡ is_asked_by host self.now }
    {
        host < self.hosts && !self.left[host as usize].is_done()
    }

    /// The lines that a host has left to answer; none where it isn't asked.
    pub fn left_of(&self, host: u8) -> AnswersLeft
        ensures block { result.block ≡ block_from self.now.first self.now.span }
        ensures left { result.left ≡ left_at host self.now }
    {
        if host < self.hosts {
            self.left[host as usize]
        } else {
            none_left(self.block)
        }
    }

    /// A host is asked: all lines are left to it.
    pub fn ask(&mut self, host: u8)
        ensures { self.new ≡ record self.old { left = changed_at host (λ old. block_lines (block_from self.old.first self.old.span)) self.old.left } }
    {
        if host < self.hosts {
            self.left[host as usize] = AnswersLeft::new(self.block);
        }
    }

    /// A host answers for the line `low` lines after the first, or for the whole block.
    pub fn answer(&mut self, host: u8, op: RspOp, low: u8)
        ensures { self.new ≡ record self.old { left = changed_at host (lines_still_left op (self.old.first + low)) self.old.left } }
    {
        if host < self.hosts {
            self.left[host as usize] = after_answer(self.left[host as usize], self.block, op, low);
        }
    }
}

/// A block of which no line is left.
fn none_left(block: Block) -> AnswersLeft
    ensures { result ≡ record { block = block; left = [] } }
{
    let mut left = AnswersLeft::new(block);
    let _all = left.answer_all();
    left
}

/// What is left of a block after an answer.
fn after_answer(left: AnswersLeft, block: Block, op: RspOp, low: u8) -> AnswersLeft
    requires { left.block ≡ block }
    ensures { result ≡ record { block = block; left = lines_still_left op (block.first.0 + low) left.left } }
{
    match op {
        RspOp::I | RspOp::S | RspOp::E => {
            let mut left = left;
            let _was_left = left.answer_line(low);
            left
        }
        RspOp::IBlk | RspOp::SBlk | RspOp::EBlk => none_left(block),
    }
}

/// The tasks that stand, by ascending first line. Only `open` takes memory.
#[derive(Drop)]
pub struct Tasks {
    tasks: Vec<Task>,
}

impl Model for Tasks {
    ghost use Rattle.std.specs.Prelude.{vec_capacity};
    ghost use Rattle.device_tables.specs.Tasks.{TaskList};

    ghost Value = { TaskList };

    ghost view = { λ t. record { tasks = t.tasks.items; room = vec_capacity t.tasks } };
}

impl Tasks {
    /// No tasks, and room for so many.
    pub fn open(alloc: Global, room: u32) -> Result<Tasks, AllocError>
        ensures { IfOk result (λ tasks. tasks ≡ record { tasks = []; room = room }) }
    {
        let tasks = Vec::with_capacity(alloc, room as usize)?;
        Ok(Tasks { tasks })
    }

    /// The tasks.
    pub fn all(&self) -> &[Task]
        ensures { result.now ≡ self.now.tasks }
    {
        &self.tasks
    }

    /// The task with a first line.
    pub fn with_first(&self, line: u32) -> Option<&Task>
        ensures found { option_map (λ t. t.now) result ≡ task_at line self.now.tasks }
    {
        self.tasks.iter().find(|task| task.first() == line)
    }

    /// Puts a task in its place. There is room.
    pub fn add(&mut self, task: Task)
        requires { length self.old.tasks < self.old.room }
        ensures { self.new ≡ record self.old { tasks = put_in_order (λ t. t.first) task self.old.tasks } }
    {
        put_task(&mut self.tasks, task);
    }

    /// Ends the task with a first line.
    pub fn end(&mut self, line: u32)
        requires { AscendFrom 0 self.old.tasks }
        ensures { self.new ≡ record self.old { tasks = tasks_without line self.old.tasks } }
    {
        end_task(&mut self.tasks, line);
    }

    /// A host is asked by the task with a first line.
    pub fn ask(&mut self, line: u32, host: u8)
        requires { AscendFrom 0 self.old.tasks }
        ensures { self.new ≡ record self.old { tasks = map (task_asked line host) self.old.tasks } }
    {
        if let Some(place) = place_with(&self.tasks, line) {
            let task = &mut self.tasks[place];
            task.ask(host);
        }
    }

    /// A host answers a snoop of the task with a first line.
    pub fn answer(&mut self, line: u32, host: u8, op: RspOp, low: u8)
        requires { AscendFrom 0 self.old.tasks }
        ensures { self.new ≡ record self.old { tasks = map (task_left line host (lines_still_left op (line + low))) self.old.tasks } }
    {
        if let Some(place) = place_with(&self.tasks, line) {
            let task = &mut self.tasks[place];
            task.answer(host, op, low);
        }
    }
}

/// The place of the task with a first line.
fn place_with(tasks: &[Task], line: u32) -> Option<usize>
    ensures { result ≡ position (λ t. t.first == line) tasks.now }
{
    tasks.iter().position(|task| task.first() == line)
}

/// The place of the first task whose first line isn't before a line.
fn first_not_before(tasks: &[Task], line: u32) -> Option<usize>
    ensures { result ≡ position (λ t. not (nat_lt t.first line)) tasks.now }
{
    tasks.iter().position(|task| !(task.first() < line))
}

/// The place of a task with a first line.
fn place_of(tasks: &[Task], line: u32) -> usize
    ensures place { result ≡ place_in_order line tasks.now }
    ensures within { result ≤ length tasks.now }
{
    match first_not_before(tasks, line) {
        Some(place) => place,
        None => tasks.len(),
    }
}

/// Puts a task in its place. There is room.
fn put_task(tasks: &mut Vec<Task>, task: Task)
    requires { vec_len tasks.old < vec_capacity tasks.old }
    ensures items { tasks.new.items ≡ put_in_order (λ t. t.first) task tasks.old.items }
    ensures capacity { vec_capacity tasks.new ≡ vec_capacity tasks.old }
{
    let place = place_of(tasks, task.first());
    match tasks.insert(place, task) {
        Ok(()) => {}
        Err(_) => unreachable!("there is room"),
    }
}

/// Takes the task with a first line away.
fn end_task(tasks: &mut Vec<Task>, line: u32)
    requires { AscendFrom 0 tasks.old.items }
    ensures items { tasks.new.items ≡ tasks_without line tasks.old.items }
    ensures capacity { vec_capacity tasks.new ≡ vec_capacity tasks.old }
{
    if let Some(place) = place_with(tasks, line) {
        let _ended = tasks.remove(place);
    }
}
