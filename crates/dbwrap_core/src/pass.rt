use chain_map::Chain;
use std::snapshot::Snapshot;
use turn_types::Looked;

#[derive(Clone, Copy)]
pub(crate) enum Stage {
    Nothing,
    Made,
    Committed,
}

/// What stood in the chains and in their words, and what the pass planned, when it died. Takes no room.
#[derive(Drop)]
pub(crate) struct Death {
    pub(crate) stage: Stage,
    pub(crate) new: Snapshot<Vec<(u32, Chain)>>,
    pub(crate) chains: Snapshot<Vec<Chain>>,
    pub(crate) words: Snapshot<Vec<u32>>,
}

/// What one pass has, but for the chains that it holds: their words have those.
#[derive(Drop)]
pub(crate) struct PlainPass {
    pub(crate) death: Option<Death>,
    /// How many entries of the journal it has seen.
    pub(crate) seen: usize,
    pub(crate) commits: u32,
    pub(crate) stage: Stage,
    /// What is planned, or committed and still to be stored.
    pub(crate) new: Vec<(u32, Chain)>,
    pub(crate) dead: Vec<bool>,
    pub(crate) freed: Vec<bool>,
    pub(crate) recovering: Option<u32>,
    pub(crate) looked: Looked,
    pub(crate) taken: u64,
    pub(crate) given_back: u64,
    pub(crate) done: u64,
}
