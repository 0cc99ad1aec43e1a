ghost use Rattle.dbwrap_core.specs.Sound.{Sound, sound_single};

use crate::pass::PlainPass;
use chain_map::Chain;
use sid_core::Entry;
use std::snapshot::Snapshot;
use turn_types::Replay;

/// Chains that the passes of one thread take in turn, with their plans and one journal.
#[derive(Drop)]
pub struct PlainCells<R: Replay> {
    pub(crate) rule: R,
    pub(crate) first: Snapshot<Vec<Chain>>,
    pub(crate) chains: Vec<Chain>,
    /// Of each chain 0, or the number of the pass that holds it plus one.
    pub(crate) words: Vec<u32>,
    pub(crate) journal: Vec<Entry>,
    pub(crate) passes: Vec<PlainPass>,
    pub(crate) ghost sound: { Sound R.first R.step R.legal R.follows R.buries rule first.value.items chains.items words.items journal.items passes.items } by { sound_single R.first R.step R.legal R.follows R.buries rule (R.single rule) first.value.items chains.items words.items journal.items passes.items },
}
