//! What the worked rows declare, and the chains with which their databases start, with each byte by hand.
ghost use Rattle.std.specs.Prelude.{◌≡◌, [], ◌∷◌, replicate, IfOk};
ghost use Rattle.dbwrap_core.specs.Plain.{beside_of, shown_at};
ghost use Rattle.stored_table.specs.Move.{first_chains};
ghost use Rattle.by_hand.specs.Worked.{IsBehind, row, worker, file};

use chain_map::Chain;
use databases::BySetup;
use dbwrap_core::PlainCells;
use sid_core::{FileInfo, Items, OutOfMemory, Setup, Text, WorkerInfo};
use std::alloc::Global;

// REGI, version 1: worker 1 lives in session 1, which was connected at 0. None has ended, and nobody watches.
const FIRST: [u8; 31] = [
    82, 69, 71, 73, 1, 0, 1, 0, 0, 0, 1, 1, 0, 0, 0, 0, 0, 0, 0, 0, 0, 0, 0, 0, 0, 0, 0, 0, 0, 0, 0,
];

const SECOND: [u8; 31] = [
    82, 69, 71, 73, 1, 0, 2, 0, 0, 0, 1, 1, 0, 0, 0, 0, 0, 0, 0, 0, 0, 0, 0, 0, 0, 0, 0, 0, 0, 0, 0,
];

const THIRD: [u8; 31] = [
    82, 69, 71, 73, 1, 0, 3, 0, 0, 0, 1, 1, 0, 0, 0, 0, 0, 0, 0, 0, 0, 0, 0, 0, 0, 0, 0, 0, 0, 0, 0,
];

/// Three workers and two files.
pub fn row_by_hand(alloc: Global) -> Result<Setup, OutOfMemory>
    ensures { IfOk result (λ setup. setup ≡ row) }
{
    let mut workers = Items::new(alloc);
    workers.push(worker(alloc, 101, 1000, 1, b"hostA")?)?;
    workers.push(worker(alloc, 102, 1001, 2, b"hostB")?)?;
    workers.push(worker(alloc, 103, 1002, 3, b"hostC")?)?;
    let mut files = Items::new(alloc);
    files.push(file(alloc, 11, b"a.txt")?)?;
    files.push(file(alloc, 12, b"b.txt")?)?;
    Ok(Setup { workers, files })
}

fn worker(
    alloc: Global,
    pid: u32,
    uid: u32,
    guid: u64,
    machine: &[u8],
) -> Result<WorkerInfo, OutOfMemory>
    ensures { IfOk result (λ info. info ≡ worker pid uid guid machine.now) }
{
    Ok(WorkerInfo {
        pid,
        uid,
        guid,
        machine: text(alloc, machine)?,
        share: text(alloc, b"data")?,
        old: false,
    })
}

fn file(alloc: Global, inode: u64, name: &[u8]) -> Result<FileInfo, OutOfMemory>
    ensures { IfOk result (λ info. info ≡ file inode name.now) }
{
    Ok(FileInfo {
        dev: 1,
        inode,
        path: text(alloc, b"/srv/data")?,
        name: text(alloc, name)?,
    })
}

fn text(alloc: Global, bytes: &[u8]) -> Result<Text, OutOfMemory>
    ensures { IfOk result (λ text. text ≡ bytes.now) }
{
    let mut text = Text::new(alloc);
    text.push(bytes)?;
    Ok(text)
}

/// Cells over the row's databases, with 8 chains each, and a pass for the runner and for each worker.
pub fn begin_by_hand(alloc: Global, setup: &Setup) -> Result<PlainCells<BySetup<'_>>, OutOfMemory>
    requires { setup.now ≡ row }
    ensures { IfOk result (λ cells. IsBehind [] (beside_of cells) (shown_at cells 1)) }
{
    let first = first_by_hand(alloc)?;
    PlainCells::start(alloc, BySetup { setup }, first, 4)
}

fn first_by_hand(alloc: Global) -> Result<Vec<Chain>, OutOfMemory>
    ensures { IfOk result (λ chains. chains.items ≡ first_chains row 8) }
{
    let mut chains = empty_chains(alloc)?;
    chains[37] = one_pair(alloc, &[0, 0, 0, 101], &FIRST)?;
    chains[38] = one_pair(alloc, &[0, 0, 0, 102], &SECOND)?;
    chains[39] = one_pair(alloc, &[0, 0, 0, 103], &THIRD)?;
    Ok(chains)
}

fn empty_chains(alloc: Global) -> Result<Vec<Chain>, OutOfMemory>
    ensures { IfOk result (λ chains. chains.items ≡ replicate 56 []) }
{
    let mut chains = Vec::new(alloc);
    for _ in 0..56u32 {
        chains.push(Chain::new(alloc))?;
    }
    Ok(chains)
}

fn one_pair(alloc: Global, key: &[u8], value: &[u8]) -> Result<Chain, OutOfMemory>
    ensures { IfOk result (λ chain. chain ≡ (key.now, value.now) ∷ []) }
{
    let mut chain = Chain::new(alloc);
    chain.put(key.to_vec(alloc)?, value.to_vec(alloc)?)?;
    Ok(chain)
}
