//! What a transaction does call after call: it stores all that is due, and gives all back.
ghost use Rattle.std.specs.Prelude.{◌≡◌, [], true};
ghost use Rattle.turn_types.specs.Shown.{is_stored, is_committed, Nothing};
ghost use Rattle.turn_types.specs.Calls.{Able};
ghost use Rattle.record_txn.specs.Goes.{Goes};
ghost use Rattle.record_txn.specs.Moves.{HasGivenAll, HasStoredAll};

use crate::teller::Teller;
use dbwrap_core::Cells;
use sid_core::{Gate, StepKind};

/// Gives all chains back.
pub(crate) fn give_all_back<C: Cells, G: Gate>(cells: &mut C, teller: &Teller<'_, G>)
    requires able { Able (C.shown cells.old) }
    requires stored { is_stored (C.shown cells.old).plan ≡ true }
    requires over { (C.shown cells.old).held ≡ [] → (C.shown cells.old).plan ≡ Nothing }
    ensures goes { Goes C.bond C.chains C.quiet C.shown C.beside cells.old cells.new }
    ensures given { HasGivenAll (C.shown cells.old) (C.shown cells.new) }
{
    while let Some(chain) = cells.release_next() {
        teller.tell(StepKind::Released(chain));
    }
}

/// Stores all chains that are due.
pub(crate) fn store_all<C: Cells, G: Gate>(cells: &mut C, teller: &Teller<'_, G>)
    requires able { Able (C.shown cells.old) }
    requires committed { is_committed (C.shown cells.old).plan ≡ true }
    ensures goes { Goes C.bond C.chains C.quiet C.shown C.beside cells.old cells.new }
    ensures stored { HasStoredAll (C.shown cells.old) (C.shown cells.new) }
{
    while let Some(chain) = cells.store_next() {
        teller.tell(StepKind::Stored(chain));
    }
}
