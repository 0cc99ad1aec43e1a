//! What the definitions of the contracts entail.
ghost use Rattle.std.specs.Prelude.{◌≡◌, ◌≢◌, ℕ, List, [], ◌∷◌, Some, None, replicate};
ghost use Rattle.chain_map.specs.declared.db.Db.TheVariants.{GLock, Locking};
ghost use Rattle.chain_map.specs.Hash.{chain_number};
ghost use Rattle.chain_map.specs.Pairs.{Pairs, IsRising, find, put, without};

pub fn look_ups_after_put()
    ensures same_key { (key value : List ℕ) (pairs : Pairs) → find key (put key value pairs) ≡ Some value }
    ensures other_key { (key value other : List ℕ) (pairs : Pairs) → other ≢ key →
        find other (put key value pairs) ≡ find other pairs }
{}

pub fn look_ups_after_remove()
    ensures same_key { (key : List ℕ) (pairs : Pairs) → find key (without key pairs) ≡ None }
    ensures other_key { (key other : List ℕ) (pairs : Pairs) → other ≢ key →
        find other (without key pairs) ≡ find other pairs }
{}

pub fn edits_keep_order()
    ensures put { (key value : List ℕ) (pairs : Pairs) → IsRising pairs → IsRising (put key value pairs) }
    ensures remove { (key : List ℕ) (pairs : Pairs) → IsRising pairs → IsRising (without key pairs) }
{}

/// Two chains that answer each look-up alike have the same pairs.
pub fn look_ups_tell_chains_apart()
    ensures { (left right : Pairs) → IsRising left → IsRising right →
        ((key : List ℕ) → find key left ≡ find key right) → left ≡ right }
{}

/// With 8 chains a database, the record of global lock 9, and the share mode record of device 1, inode 11, extid 0.
pub fn chains_of_two_records()
    ensures global_lock { chain_number GLock (0 ∷ 0 ∷ 0 ∷ 0 ∷ 0 ∷ 0 ∷ 0 ∷ 9 ∷ []) 8 ≡ 9 }
    ensures share_mode { chain_number Locking (0 ∷ 0 ∷ 0 ∷ 0 ∷ 0 ∷ 0 ∷ 0 ∷ 1 ∷
        0 ∷ 0 ∷ 0 ∷ 0 ∷ 0 ∷ 0 ∷ 0 ∷ 11 ∷ replicate 8 0) 8 ≡ 20 }
{}
