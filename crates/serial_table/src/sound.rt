//! Laws of what every table keeps: each function does nothing, and its clause is the law.

ghost use Rattle.std.specs.Prelude.{◌≡◌, ℕ, false, IsTrue, Some, List, ◌∷◌, ◌++◌};
ghost use Rattle.std.specs.List.{AllByRecursion, list_any};
ghost use Rattle.sid_core.specs.Ids.{same_sid};
ghost use Rattle.sid_core.specs.declared.call.Call.{Call};
ghost use Rattle.sid_core.specs.declared.entry.Entry.{Entry};
ghost use Rattle.sid_core.specs.declared.entry.Event.TheVariants.{Called};
ghost use Rattle.sid_core.specs.declared.ids.Moment.{Moment};
ghost use Rattle.sid_core.specs.declared.reply.Reply.{Reply};
ghost use Rattle.sid_core.specs.declared.setup.Setup.{Setup};
ghost use Rattle.sid_core.specs.Setup.{IsSetup};
ghost use Rattle.serial_table.specs.declared.rows.OpenRow.{OpenRow};
ghost use Rattle.serial_table.specs.declared.table.Table.{Table};
ghost use Rattle.serial_table.specs.declared.change.Change.{Change};
ghost use Rattle.serial_table.specs.declared.decision.Caller.{Caller};
ghost use Rattle.serial_table.specs.View.{view, lives};
ghost use Rattle.serial_table.specs.Settle.{settle};
ghost use Rattle.serial_table.specs.Change.{perform, perform_all};
ghost use Rattle.serial_table.specs.Step.{caller_of, changes_of};
ghost use Rattle.serial_table.specs.History.{after, IsLegal};
ghost use Rattle.serial_table.specs.Bounded.{IsBounded};
ghost use Rattle.serial_table.specs.InSets.{IsInSets, Brings, AllBring};
ghost use Rattle.serial_table.specs.Sound.{IsConsistent, IsSound, Fits, AllFit, AreBelow};

/// A change keeps a table consistent where it fits the table before it, and so do changes of which each fits the table that those
/// before it have made.
pub fn changes_keep_consistent()
    ensures one { (change : Change) (t : Table) → IsConsistent t → Fits change t → IsConsistent (perform change t) }
    ensures all { (changes : List Change) (t : Table) → IsConsistent t → AllFit changes t → IsConsistent (perform_all changes t) }
{}

/// A consistent table that settling leaves as it is is sound.
pub fn settled_is_sound()
    ensures { (t : Table) → IsConsistent t → settle t ≡ t → IsSound t }
{}

/// Each table that a legal history makes is sound, where a script can declare the setup.
pub fn legal_histories_are_sound()
    ensures { (setup : Setup) (history : List Entry) → IsSetup setup → IsLegal setup history → IsSound (after setup history) }
{}

/// Each table that a legal history makes is bounded, where a script can declare the setup.
pub fn legal_histories_are_bounded()
    ensures { (setup : Setup) (history : List Entry) → IsSetup setup → IsLegal setup history → IsBounded (after setup history) }
{}

/// A change keeps the numbers of a table in their sets where it fits and what it brings lies in its sets, and so do changes one
/// after another.
pub fn changes_stay_in_their_sets()
    ensures one { (setup : Setup) (change : Change) (t : Table) → IsInSets setup t → Fits change t → Brings setup change t → IsInSets setup (perform change t) }
    ensures all { (setup : Setup) (changes : List Change) (t : Table) → IsInSets setup t → AllFit changes t → AllBring setup changes t → IsInSets setup (perform_all changes t) }
{}

/// The numbers of each table that a legal history makes lie in the sets of the records that will hold them,
/// where a script can declare the setup.
pub fn legal_histories_stay_in_their_sets()
    ensures { (setup : Setup) (history : List Entry) → IsSetup setup → IsLegal setup history → IsInSets setup (after setup history) }
{}

/// The changes of each entry of a legal history fit the table that the entries before it make.
pub fn legal_entries_fit()
    ensures { (setup : Setup) (before later : List Entry) (entry : Entry) → IsSetup setup → IsLegal setup (before ++ entry ∷ later)
        → AllFit (changes_of setup (view (after setup before)) entry.by entry.what) (after setup before) }
{}

/// Each call of a legal history has a number above those of its worker's opens, handles and waits.
pub fn calls_have_new_numbers()
    ensures { (setup : Setup) (before later : List Entry) (by seq number : ℕ) (moment : Moment) (call : Call) (reply : Reply) (caller : Caller)
        → IsSetup setup → IsLegal setup (before ++ (record { by = by; seq = seq; what = Called number moment call reply }) ∷ later)
        → caller_of setup (view (after setup before)) by number moment ≡ Some caller → AreBelow number caller.sid.pid (after setup before) }
{}

/// Where a table is consistent and its numbers lie in their sets, the session that owns a disconnected open is among the ended ones
/// of its worker.
pub fn disconnected_owners_have_ended()
    ensures { (setup : Setup) (t : Table) → IsConsistent t → IsInSets setup t
        → AllByRecursion (λ (open_row : OpenRow). lives (view t) open_row.owner ≡ false → IsTrue (list_any (λ ended. same_sid ended.sid open_row.owner) ((view t).ended_of open_row.owner.pid))) t.opens }
{}
