//! What the transactions work on.
ghost use Rattle.std.specs.Prelude.{◌≡◌, length, IfOk};

use crate::work::{begin, stamp_one_each, stamp_six_each};
use chain_map::Chain;
use sid_core::{Gate, OutOfMemory, StepKind};
use std::alloc::Global;

#[derive(Clone, Copy)]
struct Silent;

impl Gate for Silent {
    fn at(&self, _worker: u32, _number: u32, _step: StepKind) {}
}

/// So many transactions over chains of so many pairs each, which change one record or else six.
pub fn transact(alloc: Global, six: bool, pairs: u32, times: u32) -> Result<(), OutOfMemory> {
    let chains = filled_chains(alloc, pairs)?;
    let done = if six {
        let mut cells = begin(alloc, 6, chains)?;
        stamp_six_each(&mut cells, alloc, times, &Silent)
    } else {
        let mut cells = begin(alloc, 1, chains)?;
        stamp_one_each(&mut cells, alloc, times, &Silent)
    };
    done.map_err(|_| OutOfMemory)
}

fn filled_chains(alloc: Global, pairs: u32) -> Result<Vec<Chain>, OutOfMemory>
    ensures { IfOk result (λ chains. length chains.items ≡ 56) }
{
    let mut chains = Vec::new(alloc);
    for _ in 0..56u32 {
        chains.push(filled(alloc, pairs)?)?;
    }
    Ok(chains)
}

// Pairs with keys of 4 bytes and values of 31, as a register has.
fn filled(alloc: Global, pairs: u32) -> Result<Chain, OutOfMemory> {
    let mut chain = Chain::new(alloc);
    for number in 0..pairs {
        let key = number.wrapping_add(1000).to_be_bytes().to_vec(alloc)?;
        chain.put(key, vec![in alloc; 1; 31]?)?;
    }
    Ok(chain)
}
