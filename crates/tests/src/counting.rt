//! A small rule: a chain counts, and the entry of a tidied chain adds one to that chain and to the next.
ghost use Rattle.std.specs.Prelude.{◌≡◌, ◌<◌, ◌+◌, [], ◌∷◌, length, None, IfOk};
ghost use Rattle.std.proofs.Props.{props};
ghost use Rattle.tests.specs.Counting.{added, chain_of_entry, counted, marks};
ghost use Rattle.tests.specs.Rule.{counting_lawful};

use chain_map::Chain;
use sid_core::{Entry, OutOfMemory};
use std::alloc::Global;
use turn_types::Replay;

#[derive(Clone, Copy)]
pub struct Counting;

impl Replay for Counting {
    ghost first = { λ r k. Unit {0} };

    ghost step = { λ r k e. added k e };

    ghost legal = { λ r k e. chain_of_entry e + 1 < length k };

    ghost names = { λ r k e. chain_of_entry e ∷ (chain_of_entry e + 1) ∷ [] };

    ghost follows = { λ r js e. Unit {0} };

    ghost buries = { λ r e. None };

    ghost single = { λ r. record { first_is = λ k. Prim.hlevel props; legal_is = λ k e. Prim.hlevel props; follows_is = λ js e. Prim.hlevel props } };

    ghost law = { λ r. counting_lawful };
}

/// The chain with one mark more.
pub fn counted(alloc: Global, chain: &Chain) -> Result<Chain, OutOfMemory>
    ensures { IfOk result (λ y. y ≡ counted chain.now) }
{
    let mut marks = Vec::new(alloc);
    if let Some(old) = chain.find(&[]) {
        marks.extend_from_slice(old)?;
    }
    marks.push(1)?;
    let mut new = chain.copy()?;
    new.put(Vec::new(alloc), marks)?;
    Ok(new)
}

/// How far the chain has counted.
pub fn count(chain: &Chain) -> usize
    ensures { result ≡ length (marks chain.now) }
{
    match chain.find(&[]) {
        Some(marks) => marks.len(),
        None => 0,
    }
}
