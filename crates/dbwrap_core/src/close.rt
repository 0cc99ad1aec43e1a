ghost use Rattle.std.specs.Prelude.{◌≡◌, ℕ, [], true, false};
ghost use mathlib.Core.Option.{some};
ghost use lib.ListN.{get_elem?};
ghost use Rattle.turn_types.specs.Journal.{Legal, of_pass};
ghost use Rattle.turn_types.specs.Shown.{Shown, IsPart, Nothing, knows_freed, replay};
ghost use Rattle.turn_types.specs.Calls.{Prefix};
ghost use Rattle.turn_types.specs.Beside.{BuriesTheDead};
ghost use Rattle.dbwrap_core.specs.Counted.{IsCounted};
ghost use Rattle.dbwrap_core.specs.Plain.{beside_of};

use crate::plain::PlainCells;
use turn_types::{Closed, Replay};

impl<R: Replay> PlainCells<R> {
    /// Hands out the chains and the journal. Takes no memory.
    pub fn close(self) -> Closed
        requires free { (n : ℕ) (v : Shown _) → get_elem? (beside_of self).passes n ≡ some v → v.alive ≡ true → v.held ≡ [] }
        requires recovered { (n : ℕ) (v : Shown _) → get_elem? (beside_of self).passes n ≡ some v → v.alive ≡ false →
            (m : ℕ) × (w : Shown _) × (get_elem? (beside_of self).passes m ≡ some w) × (knows_freed n w ≡ true) }
        ensures journal { result.journal.items ≡ (beside_of self).journal }
        ensures same { result.chains.items ≡ (beside_of self).chains }
        ensures legal { (n : ℕ) (v : Shown _) → get_elem? (beside_of self).passes n ≡ some v →
            (R.first v.rule v.first) × Legal (R.step v.rule) (R.legal v.rule) (R.follows v.rule) v.first result.journal.items }
        ensures chains { (n : ℕ) (v : Shown _) → get_elem? (beside_of self).passes n ≡ some v → result.chains.items ≡ replay R.step v result.journal.items }
        ensures counted { IsCounted result.journal.items }
        ensures seen { (n : ℕ) (v : Shown _) → get_elem? (beside_of self).passes n ≡ some v → Prefix v.seen result.journal.items × (of_pass n result.journal.items ≡ v.own) }
        ensures buried { BuriesTheDead R.buries (beside_of self) }
    {
        let PlainCells {
            rule: _,
            first: _,
            chains,
            words: _,
            journal,
            passes: _,
        } = self;
        Closed { chains, journal }
    }

    /// What the passes show of these cells, between two calls. Does nothing.
    pub fn tell(&self)
        ensures legal { (n : ℕ) (v : Shown _) → get_elem? (beside_of self.now).passes n ≡ some v →
            (R.first v.rule v.first) × Legal (R.step v.rule) (R.legal v.rule) (R.follows v.rule) v.first (beside_of self.now).journal }
        ensures chains { ((n : ℕ) (v : Shown _) → get_elem? (beside_of self.now).passes n ≡ some v → v.alive ≡ true → v.held ≡ []) →
            ((n : ℕ) (v : Shown _) → get_elem? (beside_of self.now).passes n ≡ some v → v.alive ≡ false → (m : ℕ) × (w : Shown _) × (get_elem? (beside_of self.now).passes m ≡ some w) × (knows_freed n w ≡ true)) →
            (n : ℕ) (v : Shown _) → get_elem? (beside_of self.now).passes n ≡ some v → (beside_of self.now).chains ≡ replay R.step v (beside_of self.now).journal }
        ensures held { (n : ℕ) (v : Shown _) → get_elem? (beside_of self.now).passes n ≡ some v → v.alive ≡ true → v.plan ≡ Nothing → IsPart v.held (replay R.step v (beside_of self.now).journal) }
        ensures seen { (n : ℕ) (v : Shown _) → get_elem? (beside_of self.now).passes n ≡ some v → Prefix v.seen (beside_of self.now).journal × (of_pass n (beside_of self.now).journal ≡ v.own) }
        ensures buried { BuriesTheDead R.buries (beside_of self.now) }
    {}
}
