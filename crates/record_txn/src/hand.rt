//! The chains that a transaction has in hand.
ghost use Rattle.std.specs.Prelude.{◌≡◌, IfOk, OnOk, OnErr};
ghost use mathlib.Core.Option.{some};
ghost use Rattle.chain_map.specs.Pairs.{Pairs, put, without};
ghost use Rattle.turn_types.specs.Shown.{look};
ghost use Rattle.record_txn.specs.Hand.{chains_of, changes_of, chain_in, place_of, with_change};

use chain_map::Chain;
use sid_core::OutOfMemory;
use std::alloc::Global;

/// A held chain, with what the transaction makes of it.
#[derive(Drop)]
pub struct Held {
    pub number: u32,
    pub chain: Chain,
    pub is_changed: bool,
}

fn place_of(hand: &[Held], number: u32) -> usize
    ensures { result ≡ place_of number hand.now }
{
    for (place, held) in hand.iter().enumerate() {
        if held.number == number {
            return place;
        }
    }
    hand.len()
}

/// The chain of this number.
pub(crate) fn chain_in(hand: &Vec<Held>, number: u32) -> &Chain
    requires { (chain : Pairs) × (look number (chains_of hand.now.items) ≡ some chain) }
    ensures { result.now ≡ chain_in number (chains_of hand.now.items) }
{
    let place = place_of(hand.as_slice(), number);
    &hand[place].chain
}

/// Puts a pair into the chain of this number.
pub(crate) fn put_in(
    hand: &mut Vec<Held>,
    number: u32,
    key: Vec<u8>,
    value: Vec<u8>,
) -> Result<(), OutOfMemory>
    requires { (chain : Pairs) × (look number (chains_of hand.old.items) ≡ some chain) }
    ensures ok { OnOk result (hand.new.items ≡ with_change number (put key.items value.items (chain_in number (chains_of hand.old.items))) hand.old.items) }
    ensures err { OnErr result (hand.new.items ≡ hand.old.items) }
{
    let place = place_of(hand.as_slice(), number);
    let held = &mut hand[place];
    held.chain.put(key, value)?;
    held.is_changed = true;
    Ok(())
}

/// Takes the pair with the key out of the chain of this number.
pub(crate) fn remove_in(hand: &mut Vec<Held>, number: u32, key: &[u8])
    requires { (chain : Pairs) × (look number (chains_of hand.old.items) ≡ some chain) }
    ensures { hand.new.items ≡ with_change number (without key.now (chain_in number (chains_of hand.old.items))) hand.old.items }
{
    let place = place_of(hand.as_slice(), number);
    let held = &mut hand[place];
    let _ = held.chain.remove(key);
    held.is_changed = true;
}

/// The changed chains.
pub(crate) fn changes_of(alloc: Global, hand: Vec<Held>) -> Result<Vec<(u32, Chain)>, OutOfMemory>
    ensures { IfOk result (λ changes. changes.items ≡ changes_of hand.items) }
{
    let mut changes = Vec::with_capacity(alloc, hand.len())?;
    for held in hand {
        if held.is_changed {
            changes.push((held.number, held.chain))?;
        }
    }
    Ok(changes)
}
