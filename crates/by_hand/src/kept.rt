//! What is kept of the databases of the worked rows, once the entries are made.
ghost use Rattle.std.specs.Prelude.{◌≡◌, ℕ, List, [], ◌∷◌, length, IfOk};
ghost use Rattle.sid_core.specs.declared.entry.Entry.{Entry};
ghost use Rattle.dbwrap_core.specs.Plain.{beside_of, shown_at};
ghost use Rattle.databases.specs.Closing.{kept_of};
ghost use Rattle.by_hand.specs.Worked.{IsBehind, opened, closed, behind, row};

use crate::begin::begin_by_hand;
use crate::entry::Undone;
use crate::worked::{close_by_hand, open_by_hand};
use databases::{BySetup, Databases};
use dbwrap_core::PlainCells;
use sid_core::{Gate, OutOfMemory, Setup};
use std::alloc::Global;

/// Opens by hand, and keeps what the databases have then.
pub fn kept_after_open<G: Gate>(alloc: Global, setup: &Setup, gate: &G) -> Result<Databases, Undone>
    requires { setup.now ≡ row }
    ensures { IfOk result (λ kept. kept ≡ record { chains = 8; all = behind (opened ∷ []); journal = opened ∷ [] }) }
{
    let mut cells = begin_by_hand(alloc, setup).map_err(given_up)?;
    open_by_hand(&mut cells, alloc, gate)?;
    Ok(keep(cells))
}

/// Opens and closes by hand, and keeps what the databases have then.
pub fn kept_after_close<G: Gate>(
    alloc: Global,
    setup: &Setup,
    gate: &G,
) -> Result<Databases, Undone>
    requires { setup.now ≡ row }
    ensures { IfOk result (λ kept. kept ≡ record { chains = 8; all = behind []; journal = opened ∷ closed ∷ [] }) }
{
    let mut cells = begin_by_hand(alloc, setup).map_err(given_up)?;
    open_by_hand(&mut cells, alloc, gate)?;
    close_by_hand(&mut cells, alloc, gate)?;
    Ok(keep(cells))
}

fn given_up(_refused: OutOfMemory) -> Undone {
    Undone::GivenUp
}

fn keep(cells: PlainCells<BySetup<'_>>) -> Databases
    requires behind { (entries : List Entry) × IsBehind entries (beside_of cells) (shown_at cells 1) }
    requires seven { length (beside_of cells).chains ≡ 56 }
    ensures { result ≡ kept_of 8 (beside_of cells.entry) }
{
    Databases::of_plain(8, cells)
}
