// The setup of a machine.
ghost use Rattle.std.specs.List.{list_all};
ghost use Rattle.std.specs.Prelude.{◌≡◌, ◌≤◌, length, nat_lt};
ghost use Rattle.cxl_message.specs.Padding.{padded};

use crate::limits::{
    MAX_CREDITS, MAX_ENTRIES, MAX_HOSTS, MAX_LINES, MAX_STREAMS, MAX_TAGS, MAX_WAYS, MIN_CREDITS,
    MIN_TAGS,
};
use std::marker::Model;
use thiserror::Error;

/// The first number of a setup that is outside its limits (own rule).
#[derive(Clone, Copy, PartialEq, Eq, Debug, Error)]
pub enum SetupRefusal {
    /// There are 1 to 16 hosts.
    #[error("hosts: there are 1 to 16")]
    Hosts,
    /// There are 1 to 65,536 lines.
    #[error("lines: there are 1 to 65536")]
    Lines,
    /// There are 1 to 4,096 filter entries.
    #[error("filter entries: there are 1 to 4096")]
    Entries,
    /// There are 1 to 256 ways.
    #[error("ways: each host has 1 to 256")]
    Ways,
    /// There are 2 to 1,024 tags.
    #[error("tags: each host has 2 to 1024")]
    Tags,
    /// There are 2 to 64 credits.
    #[error("credits: each channel has 2 to 64")]
    Credits,
    /// There are at most 64 streams, and each one's host exists.
    #[error("streams: there are at most 64, each on a host that there is")]
    Streams,
}

/// The numbers of a machine, each within its limits: hosts, lines, entries of the device's filter, ways and tags of
/// each host, credits of each of the six channels of each host, and the host of each stream (own rule).
#[derive(Clone, Copy, PartialEq, Eq, Debug)]
pub struct Setup {
    hosts: u8,
    lines: u32,
    entries: u16,
    ways: u16,
    tags: u16,
    credits: u8,
    // The streams' hosts, and zeros after them.
    places: [u8; 64],
    count: u8,
}

impl Model for Setup {
    ghost use Rattle.cxl_message.specs.Setup.{Configuration};

    ghost Value = { Configuration };

    ghost use Rattle.cxl_message.specs.Places.{configuration_of, inside_of, IsKept, restored};

    ghost view = { configuration_of };

    ghost invariant = { IsKept };

    ghost inverse = { inside_of };

    ghost inverse_ok = { restored };
}

impl Setup {
    ghost use Rattle.std.specs.Prelude.{IfOk, IfErr, OnOk, Some};
    ghost use Rattle.cxl_message.specs.Setup.{Configuration, IsWithinLimits, setup_refusal, stream_host as host_of_stream};

    /// The setup of these numbers; `streams` gives the host of each stream. It is refused by the first number, in
    /// the order of the parameters, that is outside its limits: `SetupRefusal` names them.
    pub fn new(
        hosts: u8,
        lines: u32,
        entries: u16,
        ways: u16,
        tags: u16,
        credits: u8,
        streams: &[u8],
    ) -> Result<Setup, SetupRefusal>
        ensures built { IfOk result (λ setup. setup ≡ record { hosts = hosts; lines = lines; entries = entries; ways = ways; tags = tags; credits = credits; streams = streams.now }) }
        ensures within { IfOk result (λ setup. IsWithinLimits setup) }
        ensures refused { IfErr result (λ refusal. setup_refusal (record { hosts = hosts; lines = lines; entries = entries; ways = ways; tags = tags; credits = credits; streams = streams.now }) ≡ Some refusal) }
    {
        if hosts < 1 || hosts > MAX_HOSTS {
            return Err(SetupRefusal::Hosts);
        }
        if lines < 1 || lines > MAX_LINES {
            return Err(SetupRefusal::Lines);
        }
        if entries < 1 || entries > MAX_ENTRIES {
            return Err(SetupRefusal::Entries);
        }
        if ways < 1 || ways > MAX_WAYS {
            return Err(SetupRefusal::Ways);
        }
        if tags < MIN_TAGS || tags > MAX_TAGS {
            return Err(SetupRefusal::Tags);
        }
        if credits < MIN_CREDITS || credits > MAX_CREDITS {
            return Err(SetupRefusal::Credits);
        }
        if streams.len() > MAX_STREAMS as usize || !hosts_exist(hosts, streams) {
            return Err(SetupRefusal::Streams);
        }
        Ok(Setup {
            hosts,
            lines,
            entries,
            ways,
            tags,
            credits,
            places: places_of(streams),
            count: streams.len() as u8,
        })
    }

    /// The number of hosts, 1 to 16.
    pub fn hosts(&self) -> u8
        ensures hosts { result ≡ self.now.hosts }
        ensures within { IsWithinLimits self.now }
    {
        self.hosts
    }

    /// The number of lines, 1 to 65,536.
    pub fn lines(&self) -> u32
        ensures lines { result ≡ self.now.lines }
        ensures within { IsWithinLimits self.now }
    {
        self.lines
    }

    /// The number of entries of the device's filter, 1 to 4,096.
    pub fn entries(&self) -> u16
        ensures entries { result ≡ self.now.entries }
        ensures within { IsWithinLimits self.now }
    {
        self.entries
    }

    /// The number of ways of each host, 1 to 256.
    pub fn ways(&self) -> u16
        ensures ways { result ≡ self.now.ways }
        ensures within { IsWithinLimits self.now }
    {
        self.ways
    }

    /// The number of tags of each host, 2 to 1,024. The write-back tag comes after them.
    pub fn tags(&self) -> u16
        ensures tags { result ≡ self.now.tags }
        ensures within { IsWithinLimits self.now }
    {
        self.tags
    }

    /// The number of credits of each of the six channels of each host, 2 to 64.
    pub fn credits(&self) -> u8
        ensures credits { result ≡ self.now.credits }
        ensures within { IsWithinLimits self.now }
    {
        self.credits
    }

    /// The hosts of the streams, at most 64, each below the number of hosts.
    pub fn streams(&self) -> &[u8]
        ensures streams { result.now ≡ self.now.streams }
        ensures within { IsWithinLimits self.now }
    {
        &self.places[..self.count as usize]
    }

    /// The host of a stream, or None exactly where there is no such stream.
    pub fn stream_host(&self, stream: u8) -> Option<u8>
        ensures { result ≡ host_of_stream self.now stream }
    {
        self.streams().get(stream as usize).copied()
    }
}

/// Whether each stream's host is one of so many hosts.
fn hosts_exist(hosts: u8, streams: &[u8]) -> bool
    ensures { result ≡ list_all (λ host. nat_lt host hosts) streams.now }
{
    streams.iter().all(|&host| host < hosts)
}

/// The streams' hosts in 64 places, with zeros after them.
fn places_of(streams: &[u8]) -> [u8; 64]
    requires { length streams.now ≤ 64 }
    ensures { result ≡ padded streams.now }
{
    let mut places = [0; 64];
    places[..streams.len()].copy_from_slice(streams);
    places
}
