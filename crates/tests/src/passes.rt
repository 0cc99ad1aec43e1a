//! Six passes over two chains of plain cells, which work one after another.
ghost use Rattle.std.specs.Prelude.{◌≡◌, ◌<◌, ◌+◌, IfOk};
ghost use Rattle.dbwrap_core.specs.Plain.{beside_of};
ghost use Rattle.tests.specs.Waiting.{Waiting};

use crate::adding::{Stage, Stuck};
use crate::counting::{Counting, count};
use crate::seats::{add_by, ask_by, die_by, recover_by, take_by};
use chain_map::Chain;
use dbwrap_core::PlainCells;
use sid_core::OutOfMemory;
use std::alloc::Global;
use turn_types::{Closed, Recover, Take};

/// Six passes over two chains that have counted nothing.
pub fn six_passes(alloc: Global) -> Result<PlainCells<Counting>, OutOfMemory>
    ensures { IfOk result (λ cells. Waiting 0 (beside_of cells)) }
{
    let first = vec![in alloc; Chain::new(alloc), Chain::new(alloc)]?;
    let cells = PlainCells::start(alloc, Counting, first, 6)?;
    Ok(cells)
}

/// The pass adds one to both chains, and dies after so many stages.
pub fn die_adding(
    cells: &mut PlainCells<Counting>,
    alloc: Global,
    pass: u32,
    stages: u32,
) -> Result<(), Stuck>
    requires waiting { Waiting pass (beside_of cells.old) × (pass < 6) }
    ensures waiting { IfOk result (λ done. Waiting (pass + 1) (beside_of cells.new)) }
{
    let _ = add_by(cells, alloc, pass, 0, stages)?;
    die_by(cells, pass);
    Ok(())
}

/// The pass tries to take the first chain.
pub fn meet(cells: &mut PlainCells<Counting>, pass: u32) -> Take
    requires waiting { Waiting pass (beside_of cells.old) × (pass < 6) }
    ensures waiting { Waiting (pass + 1) (beside_of cells.new) }
{
    take_by(cells, pass, 0)
}

/// The pass recovers one before it in so many steps at most, where that one is dead. Where it stopped, it dies.
pub fn recover_within(
    cells: &mut PlainCells<Counting>,
    pass: u32,
    dead: u32,
    most: u32,
) -> Option<Recover>
    requires waiting { Waiting pass (beside_of cells.old) × (pass < 6) }
    requires dead { dead < pass }
    ensures waiting { Waiting (pass + 1) (beside_of cells.new) }
{
    if !ask_by(cells, pass, dead) {
        return None;
    }
    let answer = recover_by(cells, pass, dead, most);
    if let Recover::Stopped = answer {
        die_by(cells, pass);
    }
    Some(answer)
}

/// How far both chains have counted, as the pass reads them.
pub fn counts(
    cells: &mut PlainCells<Counting>,
    alloc: Global,
    pass: u32,
) -> Result<Option<(usize, usize)>, Stuck>
    requires waiting { Waiting pass (beside_of cells.old) × (pass < 6) }
{
    match add_by(cells, alloc, pass, 0, 4)? {
        Stage::ReadBoth { low, high } => Ok(Some((count(&low), count(&high)))),
        _ => Ok(None),
    }
}

/// What is left of cells whose first pass added one to both chains.
pub fn add_and_close(alloc: Global) -> Result<Option<Closed>, Stuck> {
    let mut cells = six_passes(alloc)?;
    match add_by(&mut cells, alloc, 0, 0, 10)? {
        Stage::Done { place: _ } => Ok(Some(cells.close())),
        _ => Ok(None),
    }
}
