ghost use Rattle.std.specs.Prelude.{◌≡◌, ℕ, ◌<◌, ◌+◌, Option, length, IfOk, OnErr, IfSome, not, true, false};
ghost use mathlib.Core.Option.{some};
ghost use Rattle.turn_types.specs.Shown.{Shown, AllBelow, RisesFrom, Within, is_made, is_committed, is_nothing, is_stored, look, knows_dead};
ghost use Rattle.turn_types.specs.Calls.{Able, Tried, Learnt, Kept, Planned, Abandoned, Stored, Released, Fits, HasDied, Asked};
ghost use Rattle.turn_types.specs.Ends.{Committing, Recovered};
ghost use Rattle.turn_types.specs.Beside.{Beside, WhereTold, Leaves, Tells, Lives, Names, BuriesTheDead, Frees};
ghost use Rattle.dbwrap_core.specs.Told.{Told};

use chain_map::Chain;
use sid_core::{Entry, OutOfMemory};
use turn_types::{Commit, Recover, Replay, Take};

/// The calls of one pass. Each keeps the bond and the number of chains, and leaves what other passes show as it was, where
/// that is told.
pub trait Cells {
    type Rule: Replay;

    /// What the pass shows.
    ghost shown: { Self → Shown Self.Rule };

    /// How many chains there are.
    ghost chains: { Self → ℕ };

    /// The reference behind the cells, where there is one, and the number of the pass.
    ghost bond: { Self → ℕ × ℕ };

    /// The journal, the chains and what each pass shows, where they are told.
    ghost beside: { Self → Option (Beside Self.Rule) };

    /// Where other passes are told, so is this one.
    ghost tells: { (s : Self) → IfSome (beside s) (Tells (shown s)) };

    /// That nobody else can be waited for: no other living pass holds a chain, or others run by themselves.
    ghost quiet: { Self → Type 0 };

    /// Tries to take a chain above all that are held.
    fn try_take(&mut self, c: u32) -> Take
        requires able { Able (shown self.old) }
        requires chain { (c < chains self.old) × AllBelow c (shown self.old).held }
        ensures bond { (bond self.new ≡ bond self.old) × (chains self.new ≡ chains self.old) }
        ensures quiet { quiet self.old → quiet self.new }
        ensures beside { WhereTold (Leaves (shown self.old) (shown self.new)) (beside self.old) (beside self.new) }
        ensures tried { Tried c (shown self.old) (shown self.new) result }
        ensures names { IfSome (beside self.old) (Names result) };

    /// Takes a chain above all that are held, and is never busy.
    fn take(&mut self, c: u32) -> Take
        requires able { Able (shown self.old) }
        requires chain { (c < chains self.old) × AllBelow c (shown self.old).held }
        requires quiet { quiet self.old }
        ensures bond { (bond self.new ≡ bond self.old) × (chains self.new ≡ chains self.old) }
        ensures quiet { quiet self.new }
        ensures beside { WhereTold (Leaves (shown self.old) (shown self.new)) (beside self.old) (beside self.new) }
        ensures tried { Tried c (shown self.old) (shown self.new) result }
        ensures names { IfSome (beside self.old) (Names result) }
        ensures never { (h : ℕ) → result ≡ Take.Busy h → ⊥ };

    /// What a held chain holds, which is its part of what the journal makes.
    fn read(&mut self, c: u32) -> Result<Chain, OutOfMemory>
        requires able { Able (shown self.old) }
        requires held { (y : _) × (look c (shown self.old).held ≡ some y) }
        requires unplanned { is_nothing (shown self.old).plan ≡ true }
        ensures bond { (bond self.new ≡ bond self.old) × (chains self.new ≡ chains self.old) }
        ensures quiet { quiet self.old → quiet self.new }
        ensures beside { WhereTold (Leaves (shown self.old) (shown self.new)) (beside self.old) (beside self.new) }
        ensures learnt { IfOk result (λ chain. Learnt Self.Rule.step Self.Rule.legal Self.Rule.follows Self.Rule.buries c (shown self.old) (shown self.new) chain) }
        ensures refused { OnErr result (Kept Self.Rule.step Self.Rule.legal Self.Rule.follows Self.Rule.buries (shown self.old) (shown self.new)) };

    /// Plans what becomes of held chains, by rising numbers. Takes no memory.
    fn plan(&mut self, new: Vec<(u32, Chain)>)
        requires able { Able (shown self.old) }
        requires some_held { 0 < length (shown self.old).held }
        requires new { RisesFrom 0 new.items × Within new.items (shown self.old).held }
        requires unplanned { is_nothing (shown self.old).plan ≡ true }
        ensures bond { (bond self.new ≡ bond self.old) × (chains self.new ≡ chains self.old) }
        ensures quiet { quiet self.old → quiet self.new }
        ensures beside { WhereTold (Leaves (shown self.old) (shown self.new)) (beside self.old) (beside self.new) }
        ensures planned { Planned (shown self.old) (shown self.new) new.items };

    /// Drops a plan that isn't committed, if there is one.
    fn abandon(&mut self)
        requires able { Able (shown self.old) }
        requires uncommitted { is_committed (shown self.old).plan ≡ false }
        ensures bond { (bond self.new ≡ bond self.old) × (chains self.new ≡ chains self.old) }
        ensures quiet { quiet self.old → quiet self.new }
        ensures beside { WhereTold (Leaves (shown self.old) (shown self.new)) (beside self.old) (beside self.new) }
        ensures abandoned { Abandoned (shown self.old) (shown self.new) };

    /// Adds the entry, whose step is the plan, to the journal.
    fn commit(&mut self, entry: Entry) -> Commit
        requires able { Able (shown self.old) }
        requires fits { Fits Self.Rule.step Self.Rule.legal Self.Rule.follows Self.Rule.buries Self.Rule.names (shown self.old) entry }
        ensures bond { (bond self.new ≡ bond self.old) × (chains self.new ≡ chains self.old) }
        ensures quiet { quiet self.old → quiet self.new }
        ensures beside { WhereTold (Leaves (shown self.old) (shown self.new)) (beside self.old) (beside self.new) }
        ensures commits { Committing Self.Rule.step Self.Rule.legal Self.Rule.follows Self.Rule.buries (shown self.old) (shown self.new) entry result }
        ensures buried { IfSome (beside self.new) (BuriesTheDead Self.Rule.buries) };

    /// Stores one of the planned chains. `None` where none is left.
    fn store_next(&mut self) -> Option<u32>
        requires able { Able (shown self.old) }
        requires committed { is_made (shown self.old).plan ≡ false }
        ensures bond { (bond self.new ≡ bond self.old) × (chains self.new ≡ chains self.old) }
        ensures quiet { quiet self.old → quiet self.new }
        ensures beside { WhereTold (Leaves (shown self.old) (shown self.new)) (beside self.old) (beside self.new) }
        ensures stored { Stored (shown self.old) (shown self.new) result };

    /// Gives the lowest held chain back. `None` where none is held.
    fn release_next(&mut self) -> Option<u32>
        requires able { Able (shown self.old) }
        requires stored { is_stored (shown self.old).plan ≡ true }
        ensures bond { (bond self.new ≡ bond self.old) × (chains self.new ≡ chains self.old) }
        ensures quiet { quiet self.old → quiet self.new }
        ensures beside { WhereTold (Leaves (shown self.old) (shown self.new)) (beside self.old) (beside self.new) }
        ensures released { Released (shown self.old) (shown self.new) result };

    /// The pass is dead, and has no further call.
    fn die(&mut self)
        requires lives { (shown self.old).alive ≡ true }
        ensures bond { (bond self.new ≡ bond self.old) × (chains self.new ≡ chains self.old) }
        ensures quiet { quiet self.old → quiet self.new }
        ensures beside { WhereTold (Leaves (shown self.old) (shown self.new)) (beside self.old) (beside self.new) }
        ensures died { HasDied (shown self.old) (shown self.new) };

    /// Whether another pass is dead.
    fn is_dead(&mut self, other: u32) -> bool
        requires able { Able (shown self.old) }
        requires other { (other < length (shown self.old).dead) × (other ≡ (shown self.old).number → ⊥) }
        ensures bond { (bond self.new ≡ bond self.old) × (chains self.new ≡ chains self.old) }
        ensures quiet { quiet self.old → quiet self.new }
        ensures beside { WhereTold (Leaves (shown self.old) (shown self.new)) (beside self.old) (beside self.new) }
        ensures asked { Asked other (shown self.old) (shown self.new) result }
        ensures told { IfSome (beside self.old) (Lives other (not result)) };

    /// Gives back what a dead pass held: what it had committed is stored before, and what it had only planned is dropped.
    /// Does so many steps at most. Where it stopped, the pass dies next.
    fn recover(&mut self, dead: u32, stop: Option<u32>) -> Recover
        requires able { Able (shown self.old) }
        requires dead { knows_dead dead (shown self.old) ≡ true }
        ensures bond { (bond self.new ≡ bond self.old) × (chains self.new ≡ chains self.old) }
        ensures quiet { quiet self.old → quiet self.new }
        ensures beside { WhereTold (Leaves (shown self.old) (shown self.new)) (beside self.old) (beside self.new) }
        ensures recovered { Recovered dead stop (shown self.old) (shown self.new) result }
        ensures never { (by : ℕ) → result ≡ Recover.Other by → ⊥ }
        ensures frees { WhereTold (Frees Self.Rule.step dead result) (beside self.old) (beside self.new) };

    /// What the pass knows of what stands beside it, between two calls. Does nothing.
    fn tell(&self)
        ensures { IfSome (beside self.now) (Told Self.Rule.first Self.Rule.step Self.Rule.legal Self.Rule.follows (shown self.now)) };

    /// The pass's number.
    fn number(&self) -> u32
        ensures { result ≡ (shown self.now).number };

    /// How many entries the pass has committed.
    fn commits(&self) -> u32
        ensures { result ≡ length (shown self.now).own };
}
