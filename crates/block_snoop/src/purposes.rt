// What hosts are asked for.

/// What the device asks hosts about a block for (own rule).
#[derive(Clone, Copy, PartialEq, Eq, Debug)]
pub enum Purpose {
    /// A grant of a shared copy to this host: another one that has a writable copy is asked.
    SharedFor(u8),
    /// A grant of the only copy to this host: each other one that has a copy is asked.
    OwnedFor(u8),
    /// An eviction from the filter: each host that has a copy of some line of the block is asked.
    Evicting,
}
