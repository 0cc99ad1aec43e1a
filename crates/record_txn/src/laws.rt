//! What the definitions of the contracts entail.
ghost use Rattle.std.specs.Prelude.{◌≡◌, ℕ, List};
ghost use Rattle.chain_map.specs.Pairs.{Pairs};
ghost use Rattle.turn_types.specs.Shown.{hold};
ghost use Rattle.record_txn.specs.Hand.{chains_of, with_change};
ghost use Rattle.record_txn.specs.declared.hand.Held.{Held};

/// A change of a chain in hand is one of that chain alone.
pub fn changes_in_hand()
    ensures { (c : ℕ) (y : Pairs) (hand : List Held) → chains_of (with_change c y hand) ≡ hold c y (chains_of hand) }
{}
