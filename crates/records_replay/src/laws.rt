//! Laws of the rule of the seven databases: each function does nothing, and its clause is the law.

ghost use Rattle.std.specs.Prelude.{◌≡◌, fold, length, List};
ghost use Rattle.sid_core.specs.declared.entry.Entry.{Entry};
ghost use Rattle.sid_core.specs.declared.setup.Setup.{Setup};
ghost use Rattle.stored_table.specs.Places.{Chains};
ghost use Rattle.turn_types.specs.Journal.{Agree, Single};
ghost use Rattle.records_replay.specs.Behind.{ChangesItsNames, IsBehind, IsJournal, IsOfTheTable, IsReached, IsReachedBefore, NamesAlike};
ghost use Rattle.records_replay.specs.Rule.{Follows, IsFirst, IsLegalStep, names, per_database, step};

/// What a legal journal of the rule makes of first chains is what a legal history makes of them, and stands for the table behind it. The
/// journal itself is that history, but for how its entries are counted.
pub fn journals_are_histories()
    ensures behind { (setup : Setup) (k : Chains) → IsReached setup k → IsBehind setup k }
    ensures entries { (setup : Setup) (first : Chains) (journal : List Entry) → IsFirst setup first → IsJournal setup first journal
        → IsOfTheTable setup (per_database first) journal (fold (step setup) first journal) }
{}

/// What an entry names, and whether it is legal, goes by the chains that it names alone, and so does what it makes of them, where it follows
/// the earlier entries of its pass. Its step changes these alone, and keeps the number of chains.
pub fn entries_go_by_their_names()
    ensures alike { (setup : Setup) (k l : Chains) (e : Entry) → IsReached setup k → IsReached setup l → length k ≡ length l → Agree (names setup k e) k l
        → NamesAlike setup k l e }
    ensures makes { (setup : Setup) (k l : Chains) (e : Entry) → IsReachedBefore setup e k → IsReachedBefore setup e l → length k ≡ length l → Agree (names setup k e) k l
        → IsLegalStep setup k e → Agree (names setup k e) (step setup k e) (step setup l e) }
    ensures changes { (setup : Setup) (k : Chains) (e : Entry) → IsReached setup k → ChangesItsNames setup k e }
{}

/// That chains are first ones, that an entry is legal and that it follows others has one proof at most.
pub fn facts_have_one_proof()
    ensures { (setup : Setup) → Single (IsFirst setup) (IsLegalStep setup) Follows }
{}
