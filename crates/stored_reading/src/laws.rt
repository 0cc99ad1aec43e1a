//! Laws of what chains show and of steps on them: each function does nothing, and its clause is the law.

ghost use Rattle.std.specs.Prelude.{◌≡◌, ◌≤◌, ℕ, Bool, List};
ghost use Rattle.sid_core.specs.declared.entry.Entry.{Entry};
ghost use Rattle.sid_core.specs.declared.setup.Setup.{Setup};
ghost use Rattle.sid_core.specs.Setup.{IsSetup};
ghost use Rattle.serial_table.specs.declared.table.Table.{Table};
ghost use Rattle.serial_table.specs.View.{view};
ghost use Rattle.serial_table.specs.History.{after, IsLegal};
ghost use Rattle.serial_table.specs.Sound.{IsSound};
ghost use Rattle.serial_table.specs.InSets.{IsInSets};
ghost use Rattle.stored_table.specs.Places.{Chains, Place};
ghost use Rattle.stored_table.specs.Exact.{exact_at};
ghost use Rattle.stored_table.specs.Histories.{moved_by};
ghost use Rattle.stored_table.specs.Stands.{StandsFor};
ghost use Rattle.stored_reading.specs.Reading.{view_of_chains};
ghost use Rattle.stored_reading.specs.Steps.{stepped_by, IsLegalAlike, IsLegalStep, StepIsMove};

/// Chains that stand for a sound table show what the table shows, under every key; so each exact record is the same from both, and the
/// chains stand for what they show.
pub fn chains_show_their_table()
    ensures shown { (setup : Setup) (n : ℕ) (k : Chains) (t : Table) → StandsFor setup n k (view t) → IsInSets setup t → IsSound t
        → view_of_chains setup n k ≡ view t }
    ensures exact { (setup : Setup) (n : ℕ) (k : Chains) (t : Table) (old : Bool) (p : Place) → StandsFor setup n k (view t) → IsInSets setup t → IsSound t
        → exact_at setup old (view_of_chains setup n k) p ≡ exact_at setup old (view t) p }
    ensures stands { (setup : Setup) (n : ℕ) (k : Chains) (t : Table) → StandsFor setup n k (view t) → IsInSets setup t → IsSound t
        → StandsFor setup n k (view_of_chains setup n k) }
{}

/// Behind a legal history, what an entry makes of chains alone is its move by the table after it. So what the entries of a legal history
/// make of the first chains, step by step, is what its moves make of them, and stands for the table after it.
pub fn steps_are_moves()
    ensures entry { (setup : Setup) (n : ℕ) (before : List Entry) (e : Entry) → IsSetup setup → IsLegal setup before → StepIsMove setup n before e }
    ensures history { (setup : Setup) (n : ℕ) (history : List Entry) → IsSetup setup → 1 ≤ n → IsLegal setup history
        → stepped_by setup n history ≡ moved_by setup n history }
    ensures stands { (setup : Setup) (n : ℕ) (history : List Entry) → IsSetup setup → 1 ≤ n → IsLegal setup history
        → StandsFor setup n (stepped_by setup n history) (view (after setup history)) }
{}

/// Behind a legal history, an entry is legal by what the chains show exactly where it is legal at the table; and that it is legal has one
/// proof at most, whatever the chains.
pub fn steps_are_legal()
    ensures alike { (setup : Setup) (n : ℕ) (before : List Entry) (e : Entry) (k : Chains) → IsSetup setup → IsLegal setup before
        → StandsFor setup n k (view (after setup before)) → IsLegalAlike setup n before e k }
    ensures single { (setup : Setup) (n : ℕ) (k : Chains) (e : Entry) → IsProp (IsLegalStep setup n k e) }
{}
