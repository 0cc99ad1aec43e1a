//! Adding one to a chain and to the next, over any cells, one call at a time: so it can end between two of them.
ghost use Rattle.std.specs.Prelude.{◌≡◌, ◌<◌, ◌+◌, ◌^◌, [], length, IfOk, OnErr};
ghost use Rattle.turn_types.specs.Shown.{Shown, Nothing};
ghost use Rattle.turn_types.specs.Calls.{Able};
ghost use Rattle.turn_types.specs.Beside.{WhereTold, Leaves};
ghost use Rattle.tests.specs.Adding.{At, two};
ghost use Rattle.tests.specs.Counting as model;

use crate::counting::{Counting, counted};
use chain_map::Chain;
use dbwrap_core::Cells;
use sid_core::{Entry, Event, OutOfMemory};
use std::alloc::Global;
use turn_types::{Commit, Take, calls_in_a_row};

/// How far the pass is. Each call takes it one stage on.
#[derive(Drop)]
pub enum Stage {
    Idle,
    TookOne,
    TookBoth,
    ReadOne { low: Chain },
    ReadBoth { low: Chain, high: Chain },
    Planned,
    Committed { place: u64 },
    StoredOne { place: u64 },
    StoredBoth { place: u64 },
    GaveOne { place: u64 },
    Done { place: u64 },
}

/// Why a stage isn't reached.
#[derive(Debug, Drop)]
pub enum Stuck {
    /// A chain wasn't taken.
    Held(Take),
    /// Another pass was committing, or memory for the journal was refused.
    Uncommitted(Commit),
    OutOfMemory,
}

impl From<OutOfMemory> for Stuck {
    fn from(_: OutOfMemory) -> Stuck {
        Stuck::OutOfMemory
    }
}

fn both(alloc: Global, c: u32, low: &Chain, high: &Chain) -> Result<Vec<(u32, Chain)>, OutOfMemory>
    requires { c + 1 < 2 ^ 32 }
    ensures { IfOk result (λ new. new.items ≡ two c (model.counted low.now) (model.counted high.now)) }
{
    let low = counted(alloc, low)?;
    let high = counted(alloc, high)?;
    Ok(vec![in alloc; (c, low), (c + 1, high)]?)
}

/// Takes the pass one stage on, by one call of the cells.
pub fn advance<C: Cells<Rule = Counting>>(
    cells: &mut C,
    alloc: Global,
    c: u32,
    stage: Stage,
) -> Result<Stage, Stuck>
    requires chains { (c + 1 < C.chains cells.old) × (C.chains cells.old < 2 ^ 32) }
    requires few { length (C.shown cells.old).own + 1 < 2 ^ 32 }
    requires at { (v : Shown _) × At v c stage (C.shown cells.old) }
    ensures bond { (C.bond cells.new ≡ C.bond cells.old) × (C.chains cells.new ≡ C.chains cells.old) }
    ensures beside { WhereTold (Leaves (C.shown cells.old) (C.shown cells.new)) (C.beside cells.old) (C.beside cells.new) }
    ensures number { (C.shown cells.new).number ≡ (C.shown cells.old).number }
    ensures at { IfOk result (λ next. (v : Shown _) → At v c stage (C.shown cells.old) → At v c next (C.shown cells.new)) }
    ensures refused { OnErr result ((C.shown cells.new).own ≡ (C.shown cells.old).own) }
{
    calls_in_a_row::<Counting>();
    match stage {
        Stage::Idle => match cells.try_take(c) {
            Take::Taken => Ok(Stage::TookOne),
            other => Err(Stuck::Held(other)),
        },
        Stage::TookOne => match cells.try_take(c + 1) {
            Take::Taken => Ok(Stage::TookBoth),
            other => Err(Stuck::Held(other)),
        },
        Stage::TookBoth => {
            let low = cells.read(c)?;
            Ok(Stage::ReadOne { low })
        }
        Stage::ReadOne { low } => {
            let high = cells.read(c + 1)?;
            Ok(Stage::ReadBoth { low, high })
        }
        Stage::ReadBoth { low, high } => {
            let new = both(alloc, c, &low, &high)?;
            cells.plan(new);
            Ok(Stage::Planned)
        }
        Stage::Planned => {
            let by = cells.number();
            let seq = cells.commits() + 1;
            let what = Event::Tidied { chain: c };
            match cells.commit(Entry { by, seq, what }) {
                Commit::Done { place } => Ok(Stage::Committed { place }),
                other => Err(Stuck::Uncommitted(other)),
            }
        }
        Stage::Committed { place } => {
            let _ = cells.store_next();
            Ok(Stage::StoredOne { place })
        }
        Stage::StoredOne { place } => {
            let _ = cells.store_next();
            Ok(Stage::StoredBoth { place })
        }
        Stage::StoredBoth { place } => {
            let _ = cells.release_next();
            Ok(Stage::GaveOne { place })
        }
        Stage::GaveOne { place } => {
            let _ = cells.release_next();
            Ok(Stage::Done { place })
        }
        Stage::Done { place } => Ok(Stage::Done { place }),
    }
}

/// Adds one to a chain and to the next as one entry, over any cells: takes both, reads both, plans, commits, stores both and
/// gives both back. Ends after so many stages, of which ten are all.
pub fn add<C: Cells<Rule = Counting>>(
    cells: &mut C,
    alloc: Global,
    c: u32,
    stages: u32,
) -> Result<Stage, Stuck>
    requires chains { (c + 1 < C.chains cells.old) × (C.chains cells.old < 2 ^ 32) }
    requires few { length (C.shown cells.old).own + 2 < 2 ^ 32 }
    requires idle { Able (C.shown cells.old) × ((C.shown cells.old).held ≡ []) × ((C.shown cells.old).plan ≡ Nothing) }
    ensures bond { (C.bond cells.new ≡ C.bond cells.old) × (C.chains cells.new ≡ C.chains cells.old) }
    ensures beside { WhereTold (Leaves (C.shown cells.old) (C.shown cells.new)) (C.beside cells.old) (C.beside cells.new) }
    ensures at { IfOk result (λ stage. At (C.shown cells.old) c stage (C.shown cells.new)) }
{
    calls_in_a_row::<Counting>();
    let mut stage = Stage::Idle;
    for _ in 0..stages {
        stage = advance(cells, alloc, c, stage)?;
    }
    Ok(stage)
}
