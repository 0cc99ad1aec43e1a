ghost use Rattle.std.specs.Prelude.{◌≡◌, ℕ, ◌<◌, ◌≤◌, [], length, replicate, IfOk};
ghost use Rattle.std.specs.List.{AllByRecursion};
ghost use Rattle.dbwrap_core.specs.Fresh.{Fresh};
ghost use Rattle.dbwrap_core.specs.Plain.{beside_of};
ghost use Rattle.dbwrap_core.specs.Begun.{Begun};

use crate::pass::{PlainPass, Stage};
use crate::plain::PlainCells;
use chain_map::Chain;
use sid_core::OutOfMemory;
use std::alloc::Global;
use std::snapshot::Snapshot;
use turn_types::{Looked, Replay};

impl<R: Replay> PlainCells<R> {
    /// Cells with these chains, an empty journal and so many passes that have done nothing.
    pub fn start(
        alloc: Global,
        rule: R,
        first: Vec<Chain>,
        passes: u32,
    ) -> Result<PlainCells<R>, OutOfMemory>
        requires chains { (1 ≤ length first.items) × (length first.items ≤ 512) }
        requires first { R.first rule first.items }
        requires passes { (1 ≤ passes) × (passes ≤ 65) }
        ensures { IfOk result (λ cells. Begun rule first.items passes (beside_of cells)) }
    {
        let count = first.len();
        let words = free_words(alloc, count)?;
        let made = fresh_passes(alloc, passes)?;
        Ok(PlainCells {
            rule,
            first: Snapshot::of(&first),
            chains: first,
            words,
            journal: Vec::new(alloc),
            passes: made,
        })
    }
}

fn free_words(alloc: Global, count: usize) -> Result<Vec<u32>, OutOfMemory>
    ensures { IfOk result (λ words. words.items ≡ replicate count 0) }
{
    Ok(vec![in alloc; 0; count]?)
}

fn fresh_passes(alloc: Global, passes: u32) -> Result<Vec<PlainPass>, OutOfMemory>
    ensures { IfOk result (λ ps. (length ps.items ≡ passes) × AllByRecursion (λ p. Fresh passes p) ps.items) }
{
    let mut made = Vec::new(alloc);
    for _ in 0..passes {
        made.push(fresh_pass(alloc, passes)?)?;
    }
    Ok(made)
}

fn fresh_pass(alloc: Global, passes: u32) -> Result<PlainPass, OutOfMemory>
    ensures { IfOk result (λ p. Fresh passes p) }
{
    let dead = vec![in alloc; false; passes as usize]?;
    let freed = vec![in alloc; false; passes as usize]?;
    Ok(PlainPass {
        death: None,
        seen: 0,
        commits: 0,
        stage: Stage::Nothing,
        new: Vec::new(alloc),
        dead,
        freed,
        recovering: None,
        looked: Looked {
            chain: None,
            journal: None,
            status: None,
        },
        taken: 0,
        given_back: 0,
        done: 0,
    })
}
