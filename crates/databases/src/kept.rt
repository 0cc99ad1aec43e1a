ghost use Rattle.std.specs.Prelude.{◌≡◌, ℕ, ◌*◌, ◌≤◌, [], length, true, false};
ghost use mathlib.Core.Option.{some};
ghost use lib.ListN.{get_elem?};
ghost use Rattle.turn_types.specs.Beside.{BuriesTheDead};
ghost use Rattle.turn_types.specs.Shown.{Shown, knows_freed};
ghost use Rattle.dbwrap_core.specs.Plain.{beside_of};
ghost use Rattle.records_replay.specs.Rule.{buries};
ghost use Rattle.databases.specs.Closing.{IsHistory, IsSeen, kept_of};
ghost use Rattle.databases.specs.Kept.{nothing};

use crate::rule::BySetup;
use chain_map::Chain;
use dbwrap_core::PlainCells;
use sid_core::Entry;
use std::alloc::Global;
use std::marker::Model;
use turn_types::Closed;

/// What is left of the databases when all passes are done: so many chains in each, all chains, and the journal.
#[derive(Drop)]
pub struct Databases {
    chains: u32,
    all: Vec<Chain>,
    journal: Vec<Entry>,
}

impl Model for Databases {
    ghost use Rattle.databases.specs.Kept.{Kept};

    ghost Value = { Kept };

    ghost view = { λ d. record { chains = d.chains; all = d.all.items; journal = d.journal.items } };
}

impl Databases {
    /// Keeps nothing. Takes no memory.
    pub fn empty(alloc: Global) -> Databases
        ensures { result ≡ nothing }
    {
        Databases {
            chains: 0,
            all: Vec::new(alloc),
            journal: Vec::new(alloc),
        }
    }

    /// Keeps what these cells hand out, of which each database has so many chains. Takes no memory.
    pub fn of_plain(chains: u32, cells: PlainCells<BySetup<'_>>) -> Databases
        requires chains { (1 ≤ chains) × (chains ≤ 64) }
        requires seven { length (beside_of cells).chains ≡ 7 * chains }
        requires free { (n : ℕ) (v : Shown _) → get_elem? (beside_of cells).passes n ≡ some v → v.alive ≡ true → v.held ≡ [] }
        requires recovered { (n : ℕ) (v : Shown _) → get_elem? (beside_of cells).passes n ≡ some v → v.alive ≡ false →
            (m : ℕ) × (w : Shown _) × (get_elem? (beside_of cells).passes m ≡ some w) × (knows_freed n w ≡ true) }
        ensures kept { result ≡ kept_of chains (beside_of cells.entry) }
        ensures history { IsHistory (beside_of cells.entry) result }
        ensures seen { IsSeen (beside_of cells.entry) result }
        ensures buried { BuriesTheDead (λ rule e. buries e) (beside_of cells.entry) }
    {
        let Closed {
            chains: all,
            journal,
        } = cells.close();
        Databases {
            chains,
            all,
            journal,
        }
    }

    /// How many chains each database has.
    pub fn chains(&self) -> u32
        ensures { result ≡ self.now.chains }
    {
        self.chains
    }

    /// All chains, those of the first database first.
    pub fn all(&self) -> &[Chain]
        ensures { result.now ≡ self.now.all }
    {
        self.all.as_slice()
    }

    pub fn journal(&self) -> &[Entry]
        ensures { result.now ≡ self.now.journal }
    {
        self.journal.as_slice()
    }
}
