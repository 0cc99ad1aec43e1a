//! Laws of what records stand for: each function does nothing, and its clause is the law.

ghost use Rattle.std.specs.Prelude.{◌≡◌, ◌≤◌, ℕ, false, if◌then◌else◌, List, Option};
ghost use Rattle.std.specs.List.{AllByRecursion};
ghost use Rattle.sid_core.specs.declared.entry.Entry.{Entry};
ghost use Rattle.sid_core.specs.declared.entry.Event.TheVariants.{Tidied};
ghost use Rattle.sid_core.specs.declared.ids.Sid.{Sid};
ghost use Rattle.sid_core.specs.declared.setup.Setup.{Setup};
ghost use Rattle.sid_core.specs.Setup.{IsSetup};
ghost use Rattle.serial_table.specs.declared.table.Table.{Table};
ghost use Rattle.serial_table.specs.View as table;
ghost use Rattle.serial_table.specs.View.{View, view};
ghost use Rattle.serial_table.specs.File.{file_view};
ghost use Rattle.serial_table.specs.History.{start};
ghost use Rattle.serial_table.specs.Sound.{IsConsistent, IsSound};
ghost use Rattle.serial_table.specs.Bounded.{IsBounded};
ghost use Rattle.serial_table.specs.InSets.{IsInSets};
ghost use Rattle.record_codec.specs.Counts.{lives};
ghost use Rattle.stored_table.specs.Places.{Chains, Place, HasChains, among, chain_at, value_at, write_all};
ghost use Rattle.stored_table.specs.Decoded.{deciding, records_of};
ghost use Rattle.stored_table.specs.Met.{met};
ghost use Rattle.stored_table.specs.Footprint.{footprint, has_number};
ghost use Rattle.stored_table.specs.Move.{added, is_by_old, move, places_written, first_chains};
ghost use Rattle.stored_table.specs.Moved.{moved};
ghost use Rattle.stored_table.specs.Shown.{shown};
ghost use Rattle.stored_table.specs.Stands.{AddedHasSpelling, HaveSpellings, IsSwept, IsWellFormed, LookAlike, StandsFor};

/// After places are written one after another, each of them has its new value, and every other place what it had.
pub fn look_ups_after_writes()
    ensures { (n : ℕ) (new : Place → Option (List ℕ)) (ps : List Place) (k : Chains) (p : Place) → HasChains n k
        → value_at n (write_all n new ps k) p ≡ (if among p ps then new p else value_at n k p) }
{}

/// An entry keeps chains well formed, and the records of the chains that it makes are the records that it makes, under every key.
pub fn records_follow()
    ensures formed { (setup : Setup) (n : ℕ) (k : Chains) (e : Entry) (v : View) → IsWellFormed n k → HaveSpellings setup v
        → AddedHasSpelling (added setup v e) → IsWellFormed n (move setup n k e v) }
    ensures moved { (setup : Setup) (n : ℕ) (k : Chains) (e : Entry) (v : View) → IsSetup setup → IsWellFormed n k → HaveSpellings setup v
        → AddedHasSpelling (added setup v e)
        → records_of setup n (move setup n k e v) ≡ moved setup (places_written setup n k e) (added setup v e) v (records_of setup n k) }
{}

/// What an entry meets, and its footprint, depend on the chains of its footprint alone.
pub fn footprints_are_local()
    ensures met { (setup : Setup) (n : ℕ) (k j : Chains) (e : Entry) → HasChains n k → HasChains n j
        → AllByRecursion (λ c. chain_at k c ≡ chain_at j c) (footprint setup n k e) → met setup n k e ≡ met setup n j e }
    ensures footprint { (setup : Setup) (n : ℕ) (k j : Chains) (e : Entry) → HasChains n k → HasChains n j
        → AllByRecursion (λ c. chain_at k c ≡ chain_at j c) (footprint setup n k e) → footprint setup n k e ≡ footprint setup n j e }
{}

/// The new chains depend on the chains of the footprint, and on what the table shows after the entry of the places that are written:
/// a chain that is the same before is the same after. All chains outside the footprint stay.
pub fn moves_are_local()
    ensures alike { (setup : Setup) (n : ℕ) (k j : Chains) (e : Entry) (v w : View) (c : ℕ) → IsWellFormed n k → HasChains n j
        → AllByRecursion (λ d. chain_at k d ≡ chain_at j d) (footprint setup n k e) → added setup v e ≡ added setup w e
        → AllByRecursion (LookAlike setup (is_by_old setup e) v w) (places_written setup n k e) → chain_at k c ≡ chain_at j c
        → chain_at (move setup n k e v) c ≡ chain_at (move setup n j e w) c }
    ensures others { (setup : Setup) (n : ℕ) (k : Chains) (e : Entry) (v : View) (c : ℕ) → IsWellFormed n k
        → has_number (footprint setup n k e) c ≡ false → chain_at (move setup n k e v) c ≡ chain_at k c }
{}

/// The first chains stand for the first table.
pub fn first_chains_stand()
    ensures { (setup : Setup) (n : ℕ) → IsSetup setup → 1 ≤ n → StandsFor setup n (first_chains setup n) (view (start setup)) }
{}

/// Each exact record of a table that is consistent and bounded, whose numbers lie in their sets, has a spelling, and so has the open record
/// that an entry adds.
pub fn exact_records_have_spellings()
    ensures exact { (setup : Setup) (t : Table) → IsSetup setup → IsInSets setup t → IsConsistent t → IsBounded t → HaveSpellings setup (view t) }
    ensures added { (setup : Setup) (t : Table) (e : Entry) → IsSetup setup → IsInSets setup t → IsConsistent t → IsBounded t
        → AddedHasSpelling (added setup (view t) e) }
{}

/// Chains that stand for a sound table tell of each file what the table shows, and who lives.
pub fn records_tell()
    ensures files { (setup : Setup) (n : ℕ) (k : Chains) (t : Table) (file : ℕ) → StandsFor setup n k (view t) → IsInSets setup t → IsSound t
        → shown file (records_of setup n k) ≡ file_view file (view t) }
    ensures living { (setup : Setup) (n : ℕ) (k : Chains) (t : Table) (sid : Sid) → StandsFor setup n k (view t) → IsInSets setup t → IsSound t
        → lives (deciding (records_of setup n k)) sid ≡ table.lives (view t) sid }
{}

/// After a chain is tidied, no record of it has a stale part.
pub fn tidied_chains_are_swept()
    ensures { (setup : Setup) (n by seq c : ℕ) (k : Chains) (v : View) → IsWellFormed n k → HaveSpellings setup v
        → IsSwept setup n (move setup n k (record { by = by; seq = seq; what = Tidied c }) v) v c }
{}
