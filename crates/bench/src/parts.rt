//! Calls on records in hand, each on records with so many entries.
mod calls;
mod hand;

use anyhow::{Context, Result};
use calls::call;
use hand::Hand;
use std::alloc::Global;

/// Makes the records so often, and does the call with each unless only `bare` ones are asked for. Answers a sum of what the calls gave.
pub fn count(alloc: Global, word: &str, size: u32, times: u32, bare: bool) -> Result<u64> {
    let mut sum = 0u64;
    for _ in 0..times {
        let mut hand = Hand::new(alloc, size)?;
        if !bare {
            let given = call(alloc, word, &mut hand).context("no such operation")?;
            sum = sum.wrapping_add(given);
        }
    }
    Ok(sum)
}
