use chain_map::Chain;
use sid_core::Entry;

/// What a try to take a chain gives. Passes are numbered from 0.
#[derive(Clone, Copy, Debug, PartialEq, Eq)]
pub enum Take {
    Taken,
    /// A pass that lives holds the chain.
    Busy { holder: u32 },
    /// A pass that died held the chain, and nobody has given it back.
    Orphan { holder: u32 },
}

/// What a try to commit an entry gives.
#[derive(Clone, Copy, Debug, PartialEq, Eq)]
pub enum Commit {
    /// So many entries stand before this one.
    Done { place: u64 },
    /// Another pass is committing.
    Busy { holder: u32 },
    OutOfMemory,
}

/// What a recovery of a dead pass gives.
#[derive(Clone, Copy, Debug, PartialEq, Eq)]
pub enum Recover {
    /// Nothing names the dead pass any more.
    Freed,
    /// A pass that lives is recovering it.
    Other { by: u32 },
    /// As many steps were done as were allowed, and more are left.
    Stopped,
}

/// What is left of a table that was closed.
#[derive(Drop)]
pub struct Closed {
    pub chains: Vec<Chain>,
    pub journal: Vec<Entry>,
}
