// Event records that come byte by byte.
ghost use Rattle.std.specs.Prelude.{◌≡◌, ◌+◌, ◌<◌, ◌≤◌, ℕ, List, All, [], ◌∷◌, ◌++◌, true, false, IfNone, IfSome, Some, length, reverse};
ghost use Rattle.cxl_codec.specs.Events.{event_cells, EventFits};
ghost use Rattle.cxl_codec.specs.Grammar.{IsCutShort};
ghost use Rattle.event_scan.specs.declared.scans.Part.{Part};
ghost use Rattle.event_scan.specs.Scanning.{GoesOver, HasRoom, IsBehind, IsOver, after_byte, after_first, all_parts, patience_of, scan, span_part, turned};

use arrayvec::ArrayVec;
use cxl_codec::kinds::{
    ActKind, CauseKind, MessageKind, OpKind, act_kind, cause_kind, message_kind, op_kind,
};
use cxl_message::{DEVICE, MAX_HOSTS, MAX_SPAN, MAX_STREAMS, PLACES, SnpOp};
use std::marker::Model;

/// What is still to come of an event record, one part of it.
#[derive(Clone, Copy, Debug)]
pub enum Part {
    /// A byte within these limits.
    Within { least: u8, most: u8 },
    /// A byte that is 2 or 4: the span of a block.
    BlockSpan,
    /// So many bytes of any value, at least one.
    Free(u8),
    /// So many zero bytes, at least one.
    Zeros(u8),
    /// A cause.
    Cause,
    /// An operation.
    Op,
    /// An act.
    Act,
    /// A message.
    Message,
    /// The number of the messages that are sent, and these.
    Sends,
    /// Whether there is a commit, and the commit.
    Commit,
}

impl Default for Part {
    fn default() -> Part {
        Part::Free(1)
    }
}

const HOST: Part = Part::Within {
    least: 0,
    most: MAX_HOSTS - 1,
};

const STREAM: Part = Part::Within {
    least: 0,
    most: MAX_STREAMS - 1,
};

const CHANNEL: Part = Part::Within { least: 1, most: 6 };

const PLACE: Part = Part::Within {
    least: 0,
    most: PLACES - 1,
};

const META: Part = Part::Within { least: 0, most: 2 };

const SNP_TYPE: Part = Part::Within { least: 0, most: 3 };

const LOW_ADDRESS: Part = Part::Within {
    least: 0,
    most: MAX_SPAN - 1,
};

const TAG: Part = Part::Free(2);

const LINE: Part = Part::Free(4);

const VALUE: Part = Part::Free(8);

const PAYLOAD: Part = Part::Free(64);

const TAG_AND_LINE: Part = Part::Free(6);

const TAG_AND_PAYLOAD: Part = Part::Free(66);

const LINE_AND_PAYLOAD: Part = Part::Free(68);

const TAG_LINE_AND_PAYLOAD: Part = Part::Free(70);

const ZERO_PAYLOAD: Part = Part::Zeros(64);

/// What is still to come of an event record after the bytes that were seen. It says at each further byte whether the
/// record is still cut short, and doesn't look at the bytes before it again (own rule).
///
/// A contract sees the parts that are to come, the next one first.
#[derive(Debug, Drop)]
pub struct EventScan {
    next: Part,
    // The parts after the next one, the last of them first.
    behind: ArrayVec<Part, 8>,
}

impl Model for EventScan {
    ghost use Rattle.std.specs.Prelude.{reverse};
    ghost use Rattle.event_scan.specs.Scanning.{ToCome};

    ghost Value = { ToCome };

    ghost view = { λ s. record { next = s.next; others = reverse s.behind.items } };
}

impl EventScan {
    /// The scan of a record of which no byte was seen.
    pub fn new() -> EventScan
        ensures { IsBehind [] result }
    {
        let mut behind = ArrayVec::new();
        behind.push(Part::Commit);
        behind.push(Part::Sends);
        behind.push(Part::Cause);
        EventScan {
            next: Part::Within {
                least: 0,
                most: DEVICE,
            },
            behind,
        }
    }

    /// How many further bytes at least settle whether the record is whole, one at the least: with fewer it is cut
    /// short, whatever they are.
    #[inline(always)]
    pub fn patience(&self) -> usize
        ensures value { result ≡ patience_of self.now.next self.now.others }
        ensures some { 1 ≤ result }
        ensures most { result ≤ 256 }
        ensures cut { (front more : List ℕ) → IsBehind front self.now → All (λ b. b < 256) more → length more < result → IsCutShort EventFits event_cells (front ++ more) }
    {
        match self.next {
            Part::Free(count) => {
                let free = usize::from(count).max(1);
                if self.behind.is_empty() {
                    free
                } else {
                    free + 1
                }
            }
            _ => 1,
        }
    }

    /// Goes on over the bytes that follow, and answers whether the record is still cut short behind them. Where the
    /// answer is false it is whole, or refused at a byte, and the scan isn't used again.
    pub fn goes_on(&mut self, bytes: &[u8]) -> bool
        ensures behind { result ≡ true → (front : List ℕ) → IsBehind front self.old → IsBehind (front ++ bytes.now) self.new }
        ensures settled { result ≡ false → (front : List ℕ) → IsBehind front self.old → IsCutShort EventFits event_cells (front ++ bytes.now) → ⊥ }
    {
        let mut rest = bytes;
        while !rest.is_empty() {
            match self.step(rest) {
                None => return false,
                Some(left) => rest = left,
            }
        }
        true
    }

    /// Goes on over the front of some bytes, and answers the others, if more has to come.
    #[inline(always)]
    fn step<'b>(&mut self, bytes: &'b [u8]) -> Option<&'b [u8]>
        requires { 0 < length bytes.now }
        ensures over { IfSome result (λ rest. GoesOver (all_parts self.old) (all_parts self.new) bytes.now rest.now) }
        ensures settled { HasRoom self.old → IfNone result (IsOver (scan (all_parts self.old) bytes.now)) }
    {
        if let Part::Free(count) = self.next {
            return self.pass(count, bytes);
        }
        if self.takes(bytes[0]) {
            Some(&bytes[1..])
        } else {
            None
        }
    }

    /// Goes on over as many of the next bytes, of any value, as there are, and answers the others, if more has to come.
    #[inline(always)]
    fn pass<'b>(&mut self, count: u8, bytes: &'b [u8]) -> Option<&'b [u8]>
        requires some { 0 < length bytes.now }
        requires free { self.old.next ≡ Part.Free count }
        ensures over { IfSome result (λ rest. GoesOver (all_parts self.old) (all_parts self.new) bytes.now rest.now) }
        ensures settled { HasRoom self.old → IfNone result (IsOver (scan (all_parts self.old) bytes.now)) }
    {
        let most = usize::from(count);
        if bytes.len() < most {
            self.next = Part::Free(count - bytes.len() as u8);
            return Some(&bytes[bytes.len()..]);
        }
        if self.turn(&[]) {
            Some(&bytes[most.max(1)..])
        } else {
            None
        }
    }

    /// Goes on over one byte, which may not have any value, and answers whether more has to come. Bytes of any value are
    /// passed over by `pass`.
    #[inline(always)]
    fn takes(&mut self, byte: u8) -> bool
        requires { (count : ℕ) → self.old.next ≡ Part.Free count → ⊥ }
        ensures taken { result ≡ true → after_first (all_parts self.old) byte ≡ Some (all_parts self.new) }
        ensures settled { HasRoom self.old → result ≡ false → IsOver (after_first (all_parts self.old) byte) }
    {
        match self.next {
            Part::Within { least, most } => least <= byte && byte <= most && self.turn(&[]),
            Part::BlockSpan => (byte == 2 || byte == 4) && self.turn(&[]),
            Part::Free(_) => false,
            Part::Zeros(count) => {
                if byte != 0 {
                    return false;
                }
                if count <= 1 {
                    return self.turn(&[]);
                }
                self.next = Part::Zeros(count - 1);
                true
            }
            Part::Cause => self.takes_cause(byte),
            Part::Op => self.takes_op(byte),
            Part::Act => self.takes_act(byte),
            Part::Message => self.takes_message(byte),
            Part::Sends => self.takes_sends(byte),
            Part::Commit => self.takes_commit(byte),
        }
    }

    /// Goes on over the kind byte of a cause.
    fn takes_cause(&mut self, byte: u8) -> bool
        ensures taken { result ≡ true → turned (after_byte Part.Cause byte) (all_parts self.old) ≡ Some (all_parts self.new) }
        ensures settled { length self.old.others ≤ 4 → result ≡ false → IsOver (turned (after_byte Part.Cause byte) (all_parts self.old)) }
    {
        match cause_kind(byte) {
            None => false,
            Some(CauseKind::Op) => self.turn(&[Part::Op, LINE, STREAM]),
            Some(CauseKind::Take) => self.turn(&[Part::Message, HOST]),
            Some(CauseKind::Act) => self.turn(&[Part::Act]),
        }
    }

    /// Goes on over the kind byte of an operation.
    fn takes_op(&mut self, byte: u8) -> bool
        ensures taken { result ≡ true → turned (after_byte Part.Op byte) (all_parts self.old) ≡ Some (all_parts self.new) }
        ensures settled { length self.old.others ≤ 4 → result ≡ false → IsOver (turned (after_byte Part.Op byte) (all_parts self.old)) }
    {
        match op_kind(byte) {
            None => false,
            Some(OpKind::Load) => self.turn(&[LINE]),
            Some(OpKind::Word) => self.turn(&[VALUE, PLACE, LINE]),
            Some(OpKind::Whole) => self.turn(&[LINE_AND_PAYLOAD]),
        }
    }

    /// Goes on over the kind byte of an act.
    fn takes_act(&mut self, byte: u8) -> bool
        ensures taken { result ≡ true → turned (after_byte Part.Act byte) (all_parts self.old) ≡ Some (all_parts self.new) }
        ensures settled { length self.old.others ≤ 4 → result ≡ false → IsOver (turned (after_byte Part.Act byte) (all_parts self.old)) }
    {
        match act_kind(byte) {
            None => false,
            Some(ActKind::Line(_)) => self.turn(&[LINE]),
            Some(ActKind::Tagged(_)) => self.turn(&[TAG, HOST]),
            Some(ActKind::HostReturn) => self.turn(&[CHANNEL]),
            Some(ActKind::Snoop) => self.turn(&[LINE, HOST]),
            Some(ActKind::DeviceReturn) => self.turn(&[CHANNEL, HOST]),
        }
    }

    /// Goes on over the kind byte of a message.
    fn takes_message(&mut self, byte: u8) -> bool
        ensures taken { result ≡ true → turned (after_byte Part.Message byte) (all_parts self.old) ≡ Some (all_parts self.new) }
        ensures settled { length self.old.others ≤ 4 → result ≡ false → IsOver (turned (after_byte Part.Message byte) (all_parts self.old)) }
    {
        match message_kind(byte) {
            None => false,
            Some(MessageKind::Req(_)) => self.turn(&[TAG_AND_LINE, SNP_TYPE, META]),
            Some(MessageKind::MemWr) => self.turn(&[TAG_LINE_AND_PAYLOAD, SNP_TYPE, META]),
            Some(MessageKind::BiConflict) => self.turn(&[ZERO_PAYLOAD, TAG]),
            Some(MessageKind::BiRsp(_)) => self.turn(&[LOW_ADDRESS, TAG]),
            Some(MessageKind::Ndr(_)) => self.turn(&[TAG]),
            Some(MessageKind::MemData) => self.turn(&[TAG_AND_PAYLOAD]),
            Some(MessageKind::BiSnp(op)) => self.turn(&[span(op), TAG_AND_LINE]),
            Some(MessageKind::Credit) => self.turn(&[CHANNEL]),
        }
    }

    /// Goes on over the number of sent messages.
    fn takes_sends(&mut self, byte: u8) -> bool
        ensures taken { result ≡ true → turned (after_byte Part.Sends byte) (all_parts self.old) ≡ Some (all_parts self.new) }
        ensures settled { length self.old.others ≤ 4 → result ≡ false → IsOver (turned (after_byte Part.Sends byte) (all_parts self.old)) }
    {
        match byte {
            0 => self.turn(&[]),
            1 => self.turn(&[Part::Message, HOST]),
            2 => self.turn(&[Part::Message, HOST, Part::Message, HOST]),
            _ => false,
        }
    }

    /// Goes on over the flag of a commit.
    fn takes_commit(&mut self, byte: u8) -> bool
        ensures taken { result ≡ true → turned (after_byte Part.Commit byte) (all_parts self.old) ≡ Some (all_parts self.new) }
        ensures settled { length self.old.others ≤ 4 → result ≡ false → IsOver (turned (after_byte Part.Commit byte) (all_parts self.old)) }
    {
        match byte {
            0 => self.turn(&[]),
            1 => self.turn(&[PAYLOAD, Part::Op, LINE, STREAM]),
            _ => false,
        }
    }

    /// Puts these parts, the last of them first, in the place of the next one, and answers whether there is one then.
    #[inline(always)]
    fn turn(&mut self, parts: &[Part]) -> bool
        ensures taken { result ≡ true → all_parts self.new ≡ reverse parts.now ++ self.old.others }
        ensures settled { length parts.now + length self.old.others ≤ 8 → result ≡ false → reverse parts.now ++ self.old.others ≡ [] }
    {
        if self.behind.try_extend_from_slice(parts).is_err() {
            return false;
        }
        match self.behind.pop() {
            None => false,
            Some(part) => {
                self.next = part;
                true
            }
        }
    }
}

/// The span of a snoop.
fn span(op: SnpOp) -> Part
    ensures { result ≡ span_part op }
{
    match op {
        SnpOp::Cur | SnpOp::Dat | SnpOp::Inv => Part::Within { least: 1, most: 1 },
        SnpOp::CurBlk | SnpOp::DatBlk | SnpOp::InvBlk => Part::BlockSpan,
    }
}
