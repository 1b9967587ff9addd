// The Req messages of a host that are buffered at the device.
ghost use Rattle.std.specs.Prelude.{◌≡◌, ◌<◌, ◌++◌, ◌∷◌, [], IfOk, length, map, position, vec_capacity};
ghost use Rattle.cxl_message.specs.Messages.{has_tag};
ghost use Rattle.device_record.specs.BufferChanges.{request_roomed, request_taken, without_request};
ghost use Rattle.device_record.specs.Record.{request_with};
ghost use Rattle.device_tables.specs.Waiting.{room_seen};

use cxl_message::{Line, Meta, ReqOp, SnpType, Tag};
use std::alloc::{AllocError, Global};
use std::marker::Model;

/// The most credits that a setup has, and so the most messages of a channel that are buffered.
pub const MOST_CREDITS: usize = 64;

/// How far a buffered request is with an eviction of its own.
#[derive(Clone, Copy)]
pub enum Progress {
    /// It has none.
    NoEviction,
    /// It is in progress.
    Evicting,
    /// It has ended, and its entry is reserved for the request.
    Reserved,
}

/// A buffered Req message, and how far it is.
#[derive(Clone, Copy)]
pub struct Waiting {
    /// The opcode.
    pub op: ReqOp,
    /// The Meta0-State value.
    pub meta: Meta,
    /// The snoop type.
    pub snp: SnpType,
    /// The Tag of the request.
    pub tag: Tag,
    /// The line that it asks for.
    pub line: Line,
    /// How far the eviction for it is.
    pub progress: Progress,
}

impl Model for Waiting {
    ghost use Rattle.device_record.specs.Record.{WaitingRequest};
    ghost use Rattle.device_tables.specs.Waiting.{waiting_restored, waiting_same, waiting_seen};

    ghost Value = { WaitingRequest };

    ghost view = { waiting_seen };

    ghost inverse = { waiting_restored };

    ghost inverse_ok = { waiting_same };
}

impl Waiting {
    /// Whether it has a tag.
    pub fn has_tag(&self, tag: Tag) -> bool
        ensures { result ≡ has_tag tag.0 self.now.message }
    {
        self.tag.0 == tag.0
    }

    /// The same, with other progress where it has a tag.
    fn with_progress(&self, tag: Tag, progress: Progress) -> Waiting
        ensures { result ≡ request_roomed tag.0 (room_seen progress) self.now }
    {
        if self.has_tag(tag) {
            Waiting { progress, ..*self }
        } else {
            *self
        }
    }
}

/// The buffered Req messages of a host, in the order taken. Only `open` takes memory.
#[derive(Drop)]
pub struct Requests {
    waiting: Vec<Waiting>,
}

impl Model for Requests {
    ghost use Rattle.std.specs.Prelude.{List, ◌≤◌, vec_capacity};
    ghost use Rattle.device_record.specs.Record.{WaitingRequest};

    ghost Value = { List WaitingRequest };

    ghost view = { λ q. q.waiting.items };

    ghost invariant = { λ q. 64 ≤ vec_capacity q.waiting };
}

impl Requests {
    /// No requests.
    pub fn open(alloc: Global) -> Result<Requests, AllocError>
        ensures { IfOk result (λ requests. requests ≡ []) }
    {
        let waiting = Vec::with_capacity(alloc, MOST_CREDITS)?;
        Ok(Requests { waiting })
    }

    /// The requests.
    pub fn waiting(&self) -> &[Waiting]
        ensures { result.now ≡ self.now }
    {
        &self.waiting
    }

    /// The request with a tag.
    pub fn with_tag(&self, tag: Tag) -> Option<Waiting>
        ensures { result ≡ request_with tag.0 self.now }
    {
        self.waiting
            .iter()
            .copied()
            .find(|request| request.has_tag(tag))
    }

    /// Appends one that was taken. There is room for it.
    pub fn push(&mut self, request: Waiting)
        requires { length self.old < 64 }
        ensures { self.new ≡ self.old ++ request ∷ [] }
    {
        self.waiting.push_reserved(request);
    }

    /// Takes the first one with a tag away.
    pub fn remove(&mut self, tag: Tag)
        ensures { self.new ≡ without_request tag.0 self.old }
    {
        remove_with(&mut self.waiting, tag);
    }

    /// Sets the progress of those with a tag.
    pub fn set_progress(&mut self, tag: Tag, progress: Progress)
        ensures { self.new ≡ map (request_roomed tag.0 (room_seen progress)) self.old }
    {
        set_progress_of(&mut self.waiting, tag, progress);
    }
}

/// The place of the first request with a tag.
fn place_with(waiting: &[Waiting], tag: Tag) -> Option<usize>
    ensures { result ≡ position (λ r. has_tag tag.0 r.message) waiting.now }
{
    waiting.iter().position(|request| request.has_tag(tag))
}

/// Takes the first request with a tag away.
fn remove_with(waiting: &mut Vec<Waiting>, tag: Tag)
    ensures items { waiting.new.items ≡ without_request tag.0 waiting.old.items }
    ensures capacity { vec_capacity waiting.new ≡ vec_capacity waiting.old }
{
    if let Some(place) = place_with(waiting, tag) {
        let _used = waiting.remove(place);
    }
}

/// Sets the progress of the requests with a tag.
fn set_progress_of(waiting: &mut Vec<Waiting>, tag: Tag, progress: Progress)
    ensures items { waiting.new.items ≡ map (request_roomed tag.0 (room_seen progress)) waiting.old.items }
    ensures capacity { vec_capacity waiting.new ≡ vec_capacity waiting.old }
{
    for place in 0..waiting.len() {
        let request = waiting[place];
        waiting[place] = request.with_progress(tag, progress);
    }
}
