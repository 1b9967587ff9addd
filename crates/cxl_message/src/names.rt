// Names of streams.
ghost use Rattle.std.specs.List.{list_all};
ghost use Rattle.std.specs.Prelude.{◌≡◌, ◌≤◌, length};
ghost use Rattle.cxl_message.specs.Names.{is_after_last_named, is_name as spells_name, is_name_byte as may_stand_in_name};

use crate::configuration::Setup;
use crate::limits::MAX_NAME_LEN;
use arrayvec::ArrayVec;
use std::alloc::Global;
use std::marker::Model;
use thiserror::Error;

/// Why `Names::add` refuses (own rule).
#[derive(Clone, Copy, PartialEq, Eq, Debug, Error)]
pub enum NameRefusal {
    /// The stream isn't greater than the last one added.
    #[error("order: the stream isn't greater than the last one")]
    Order,
    /// The name isn't 1 to 32 lower-case letters, digits or `_`.
    #[error("spelling: a name is 1 to 32 lower-case letters, digits or `_`")]
    Spelling,
    /// There is no memory.
    #[error("memory: there is none left")]
    Memory,
}

/// A stream and its name.
#[derive(Drop)]
struct Named {
    stream: u8,
    name: ArrayVec<u8, 32>,
}

/// The names of streams, of which some or all may have none: the streams ascend, and each name is 1 to 32 lower-case
/// letters, digits or `_` (own rule).
#[derive(Drop)]
pub struct Names {
    named: Vec<Named>,
}

impl Model for Named {
    ghost use Rattle.std.specs.Prelude.{ℕ, List};

    ghost Value = { ℕ × List ℕ };

    ghost view = { λ n. (n.stream, n.name.items) };
}

impl Model for Names {
    ghost use Rattle.std.specs.Prelude.{ℕ, List};
    ghost use Rattle.cxl_message.specs.Names.{AreNames};

    ghost Value = { List (ℕ × List ℕ) };

    ghost view = { λ n. n.named.items };

    ghost invariant = { λ n. AreNames n.named.items };
}

impl Names {
    ghost use Rattle.std.specs.Prelude.{[], ◌∷◌, ◌++◌, ◌<◌, ◌↔◌, IsTrue, OnOk, OnErr, Err, Some, None, length, option_map, slice_get};
    ghost use Rattle.cxl_message.specs.Names.{AreNames, name_of, name_refusal, names_fit};

    /// No stream has a name.
    pub fn new(alloc: Global) -> Names
        ensures { result ≡ [] }
    {
        Names {
            named: Vec::new(alloc),
        }
    }

    /// Adds a stream's name after those that are there. It is refused by Order where the stream isn't greater than the
    /// last one added, else by Spelling where the name isn't 1 to 32 lower-case letters, digits or `_`, and otherwise
    /// only for want of memory. A refusal changes nothing.
    pub fn add(&mut self, stream: u8, name: &[u8]) -> Result<(), NameRefusal>
        ensures ok { OnOk result (self.new ≡ self.old ++ (stream, name.now) ∷ []) }
        ensures err { OnErr result (self.new ≡ self.old) }
        ensures allowed { OnOk result (name_refusal self.old stream name.now ≡ None) }
        ensures order { result ≡ Err NameRefusal.Order → name_refusal self.old stream name.now ≡ Some NameRefusal.Order }
        ensures spelling { result ≡ Err NameRefusal.Spelling → name_refusal self.old stream name.now ≡ Some NameRefusal.Spelling }
        ensures memory { result ≡ Err NameRefusal.Memory → name_refusal self.old stream name.now ≡ None }
    {
        if !comes_last(&self.named, stream) {
            return Err(NameRefusal::Order);
        }
        if !is_name(name) {
            return Err(NameRefusal::Spelling);
        }
        match self.named.push(name_of_stream(stream, name)) {
            Ok(()) => Ok(()),
            Err(_) => Err(NameRefusal::Memory),
        }
    }

    /// A stream's name, or None exactly where none was added.
    pub fn name(&self, stream: u8) -> Option<&[u8]>
        ensures { option_map (λ name. name.now) result ≡ name_of self.now stream }
    {
        match self.named.iter().find(|named| named.stream == stream) {
            Some(named) => Some(&named.name),
            None => None,
        }
    }

    /// How many streams have a name.
    pub fn len(&self) -> usize
        ensures count { result ≡ length self.now }
        ensures names { AreNames self.now }
    {
        self.named.len()
    }

    /// Whether no stream has a name.
    pub fn is_empty(&self) -> bool
        ensures { IsTrue result ↔ (self.now ≡ []) }
    {
        self.named.is_empty()
    }

    /// The stream and the name at a place of the list, counted from 0.
    pub fn at(&self, place: usize) -> (u8, &[u8])
        requires { place < length self.now }
        ensures { slice_get self.now place ≡ Some (result.0, result.1.now) }
    {
        let named = &self.named[place];
        (named.stream, &named.name)
    }

    /// Whether only streams of the setup have names.
    pub fn fit(&self, setup: &Setup) -> bool
        ensures { result ≡ names_fit (length setup.now.streams) self.now }
    {
        self.named
            .iter()
            .all(|named| (named.stream as usize) < setup.streams().len())
    }
}

/// Whether bytes spell a name: 1 to 32 lower-case letters, digits or `_` (own rule).
pub fn is_name(name: &[u8]) -> bool
    ensures { result ≡ spells_name name.now }
{
    name.len() >= 1 && name.len() <= MAX_NAME_LEN as usize && may_all_stand_in_name(name)
}

/// Whether each byte may stand in a name.
fn may_all_stand_in_name(bytes: &[u8]) -> bool
    ensures { result ≡ list_all may_stand_in_name bytes.now }
{
    bytes.iter().all(|&byte| is_name_byte(byte))
}

/// Whether a byte may stand in a name: a lower-case letter, a digit or `_` (own rule).
pub fn is_name_byte(byte: u8) -> bool
    ensures { result ≡ may_stand_in_name byte }
{
    matches!(byte, b'a'..=b'z' | b'0'..=b'9' | b'_')
}

/// Whether a stream is greater than the last one that has a name, if one has.
fn comes_last(named: &[Named], stream: u8) -> bool
    ensures { result ≡ is_after_last_named named.now stream }
{
    match named.last() {
        Some(last) => last.stream < stream,
        None => true,
    }
}

/// A stream and its name, of at most 32 bytes.
fn name_of_stream(stream: u8, bytes: &[u8]) -> Named
    requires { length bytes.now ≤ 32 }
    ensures { result ≡ (stream, bytes.now) }
{
    let mut name = ArrayVec::new();
    let _fits = name.try_extend_from_slice(bytes);
    Named { stream, name }
}
