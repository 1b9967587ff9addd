// The opcodes of the CXL.mem channels, and the values of their fields.

/// The Meta0-State value of a request or a write (CXL 3.1, chapter 3: M2S Req and M2S RwD).
#[derive(Clone, Copy, PartialEq, Eq, Debug)]
pub enum Meta {
    /// The host keeps no copy.
    Invalid,
    /// The host may keep a copy in any state.
    Any,
    /// The host may keep a shared copy.
    Shared,
}

/// The snoop type of a request or a write (CXL 3.1, chapter 3: M2S Req and M2S RwD).
#[derive(Clone, Copy, PartialEq, Eq, Debug)]
pub enum SnpType {
    /// No other host is snooped.
    NoOp,
    /// Other hosts may keep shared copies.
    SnpData,
    /// Other hosts give the current value and keep their copies. No message of the profile has it.
    SnpCur,
    /// Other hosts give their copies up.
    SnpInv,
}

/// The opcodes of M2S Req, requests without data (CXL 3.1, chapter 3).
#[derive(Clone, Copy, PartialEq, Eq, Debug)]
pub enum ReqOp {
    /// Reads the line, for a shared or an exclusive copy.
    MemRd,
    /// Takes the line for an exclusive copy, without its data.
    MemInv,
    /// Tells that a clean copy was evicted.
    MemClnEvct,
}

/// The opcodes of M2S BIRsp, answers to back-invalidate snoops (CXL 3.1, chapter 3).
#[derive(Clone, Copy, PartialEq, Eq, Debug)]
pub enum RspOp {
    /// BIRspI: the host keeps no copy of the line.
    I,
    /// BIRspS: the host may keep a shared copy of the line.
    S,
    /// BIRspE: the host keeps an exclusive copy. It isn't in the profile.
    E,
    /// BIRspIBlk: the host keeps no copy of any line of the block.
    IBlk,
    /// BIRspSBlk: shared copies of the block are kept. It isn't in the profile.
    SBlk,
    /// BIRspEBlk: exclusive copies of the block are kept. It isn't in the profile.
    EBlk,
}

/// The opcodes of S2M NDR, answers without data (CXL 3.1, chapter 3).
#[derive(Clone, Copy, PartialEq, Eq, Debug)]
pub enum NdrOp {
    /// Cmp: an eviction or a write is complete.
    Cmp,
    /// Cmp-S: a shared copy is granted.
    CmpS,
    /// Cmp-E: an exclusive copy is granted.
    CmpE,
    /// BI-ConflictAck: the device has seen the host's BIConflict.
    ConflictAck,
}

/// The opcodes of S2M BISnp, back-invalidate snoops (CXL 3.1, chapter 3).
#[derive(Clone, Copy, PartialEq, Eq, Debug)]
pub enum SnpOp {
    /// BISnpCur: the current value is wanted. It isn't in the profile.
    Cur,
    /// BISnpData: the host may keep a shared copy.
    Dat,
    /// BISnpInv: the host gives its copy up.
    Inv,
    /// BISnpCurBlk: BISnpCur for a block. It isn't in the profile.
    CurBlk,
    /// BISnpDataBlk: BISnpData for a block. It isn't in the profile.
    DatBlk,
    /// BISnpInvBlk: the host gives its copies of a block up.
    InvBlk,
}

/// How many lines a snoop is for. A block of two or four lines begins at a multiple of its length (CXL 3.1, chapter 3).
#[derive(Clone, Copy, PartialEq, Eq, Debug)]
pub enum Span {
    /// One line.
    One,
    /// Two lines.
    Two,
    /// Four lines.
    Four,
}
