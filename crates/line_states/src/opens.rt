// What is open for a line: a request or an eviction.
ghost use Rattle.std.specs.Prelude.{◌≡◌, IsTrue, None, Some};
ghost use Rattle.cxl_message.specs.Formed.{place_exists};
ghost use Rattle.cxl_message.specs.Stores.{line_after};
ghost use Rattle.coherence_model.specs.HostActs.{may_conflict as kind_may_conflict};
ghost use Rattle.coherence_model.specs.HostTakes.{may_grant as grant_may_answer};
ghost use Rattle.coherence_model.specs.Stages.{conflict_end};
ghost use Rattle.coherence_model.specs.Transactions.{is_read as kind_is_read, is_request as kind_is_request, opened, request_kind as kind_of_request};
ghost use Rattle.line_states.specs.Opens.{kind_of};

use crate::stages::{LineStage, StageKind};
use cxl_message::{Bytes64, Meta, NdrOp, Op, ReqOp, Tag};
use std::marker::Model;

/// What kind of request or eviction is open (CXL 3.1, chapter 3: MemRd, MemInv, MemClnEvct and MemWr).
#[derive(Clone, Copy)]
pub enum OpenKind {
    /// MemRd Shared.
    ReadShared,
    /// MemRd Any.
    ReadAny,
    /// MemInv.
    Invalidate,
    /// MemClnEvct.
    CleanEviction,
    /// MemWr.
    DirtyEviction,
}

/// An open request or eviction: its Tag, the operation that sent it, and what was taken for it.
#[derive(Clone, Copy)]
pub struct Open {
    /// Which it is.
    pub kind: OpenKind,
    /// Its Tag.
    pub tag: Tag,
    /// The stream of the operation, below 64.
    pub stream: u8,
    /// The operation's number among those of the stream, counted from 0.
    pub index: u32,
    /// The operation.
    pub op: Op,
    /// The Cmp-S or Cmp-E that was taken.
    pub grant: Option<NdrOp>,
    /// The bytes of the MemData that was taken.
    pub bytes: Option<Bytes64>,
}

impl Model for Open {
    ghost use Rattle.coherence_model.specs.Transactions.{Transaction};
    ghost use Rattle.line_states.specs.Opens.{inside_of, open_view, restored};
    ghost use Rattle.std.specs.Prelude.{IsTrue};
    ghost use Rattle.cxl_message.specs.Formed.{place_exists};

    ghost Value = { Transaction };

    ghost view = { open_view };

    // A Word names a place of its line.
    ghost invariant = { λ o. IsTrue (place_exists o.op) };

    ghost inverse = { inside_of };

    ghost inverse_ok = { restored };
}

impl OpenKind {
    /// The kind of a Req message.
    pub fn of_request(op: ReqOp, meta: Meta) -> OpenKind
        ensures { kind_of result ≡ kind_of_request op meta }
    {
        match op {
            ReqOp::MemRd => match meta {
                Meta::Shared => OpenKind::ReadShared,
                Meta::Any | Meta::Invalid => OpenKind::ReadAny,
            },
            ReqOp::MemInv => OpenKind::Invalidate,
            ReqOp::MemClnEvct => OpenKind::CleanEviction,
        }
    }

    /// Whether it is a request.
    pub fn is_request(self) -> bool
        ensures { result ≡ kind_is_request (kind_of self) }
    {
        match self {
            OpenKind::ReadShared | OpenKind::ReadAny | OpenKind::Invalidate => true,
            OpenKind::CleanEviction | OpenKind::DirtyEviction => false,
        }
    }

    /// Whether it is answered by MemData too.
    pub fn is_read(self) -> bool
        ensures { result ≡ kind_is_read (kind_of self) }
    {
        match self {
            OpenKind::ReadShared | OpenKind::ReadAny => true,
            OpenKind::Invalidate | OpenKind::CleanEviction | OpenKind::DirtyEviction => false,
        }
    }

    /// Whether a conflict is declared for it: not for a MemWr.
    pub fn may_conflict(self) -> bool
        ensures { result ≡ kind_may_conflict (kind_of self) }
    {
        match self {
            OpenKind::ReadShared
            | OpenKind::ReadAny
            | OpenKind::Invalidate
            | OpenKind::CleanEviction => true,
            OpenKind::DirtyEviction => false,
        }
    }

    /// Whether a grant may answer it: Cmp-S a shared read alone, Cmp-E each request.
    pub fn may_be_granted(self, grant: NdrOp) -> bool
        ensures { result ≡ grant_may_answer grant (kind_of self) }
    {
        match grant {
            NdrOp::CmpS => match self {
                OpenKind::ReadShared => true,
                OpenKind::ReadAny
                | OpenKind::Invalidate
                | OpenKind::CleanEviction
                | OpenKind::DirtyEviction => false,
            },
            NdrOp::CmpE => self.is_request(),
            NdrOp::Cmp | NdrOp::ConflictAck => false,
        }
    }
}

impl Open {
    /// What stands open from the send of a request or an eviction on.
    pub fn new(kind: OpenKind, tag: Tag, stream: u8, index: u32, op: &Op) -> Open
        requires { IsTrue (place_exists op.now) }
        ensures { result ≡ opened stream index op.now (kind_of kind) tag.0 }
    {
        Open {
            kind,
            tag,
            stream,
            index,
            op: *op,
            grant: None,
            bytes: None,
        }
    }

    /// How the conflict of a line ends with this open for it, or with nothing: Late where the grant came before, else Early.
    pub fn end_of_conflict(found: Option<Open>) -> LineStage
        ensures { result ≡ conflict_end found }
    {
        match found {
            Some(Open { grant: None, .. }) => LineStage {
                kind: StageKind::Early,
            },
            Some(_) | None => LineStage {
                kind: StageKind::Late,
            },
        }
    }

    /// With the grant that was taken.
    pub fn granted(&self, grant: NdrOp) -> Open
        ensures { result ≡ record self.now { grant = Some grant } }
    {
        Open {
            grant: Some(grant),
            ..*self
        }
    }

    /// With the bytes of the MemData that was taken.
    pub fn with_data(&self, bytes: &Bytes64) -> Open
        ensures { result ≡ record self.now { bytes = Some bytes.now } }
    {
        Open {
            bytes: Some(*bytes),
            ..*self
        }
    }

    /// The line's 64 bytes after its operation, of those before it.
    pub fn line_after(&self, bytes: &Bytes64) -> Bytes64
        ensures { result ≡ line_after self.now.op bytes.now }
    {
        self.op.line_after(bytes)
    }
}
