//! What an entry by hand does step after step.
ghost use Rattle.std.specs.Prelude.{◌≡◌, ◌≤◌, [], None, OnOk, OnErr};
ghost use Rattle.turn_types.specs.Journal.{RiseWithin};
ghost use Rattle.record_txn.specs.Goes.{Goes};
ghost use Rattle.record_txn.specs.Hand.{chains_of};
ghost use Rattle.record_txn.specs.Open.{IsOpen};
ghost use Rattle.by_hand.specs.Steps.{IsHeld, AreHeld, HasTaken, HasLeft, with_change, with_changes, numbers};

use crate::change::Change;
use dbwrap_core::Cells;
use record_txn::{Txn, TxnEnd, changes_in_hand};
use sid_core::{Gate, OutOfMemory};
use std::alloc::Global;

/// Holds these chains.
pub(crate) fn hold_all<C: Cells, G: Gate>(
    txn: &mut Txn<'_, C, G>,
    footprint: &[u32],
) -> Result<(), TxnEnd>
    requires opened { IsOpen C.Rule.step C.Rule.legal C.Rule.follows C.Rule.buries (C.quiet txn.old.cells.now) (C.chains txn.old.cells.now) txn.old.chains txn.old.stop txn.old.hand.items (C.shown txn.old.cells.now) }
    requires fresh { (txn.old.hand.items ≡ []) × (txn.old.stop ≡ None) }
    requires footprint { RiseWithin 0 (C.chains txn.old.cells.now) footprint.now }
    ensures cells { txn.new.cells.ghost_name ≡ txn.old.cells.ghost_name }
    ensures kept { (txn.new.chains ≡ txn.old.chains) × (txn.new.stop ≡ txn.old.stop) }
    ensures goes { Goes C.bond C.chains C.quiet C.shown C.beside txn.old.cells.now txn.new.cells.now }
    ensures opened { OnOk result (IsOpen C.Rule.step C.Rule.legal C.Rule.follows C.Rule.buries (C.quiet txn.new.cells.now) (C.chains txn.new.cells.now) txn.new.chains txn.new.stop txn.new.hand.items (C.shown txn.new.cells.now)) }
    ensures taken { OnOk result (HasTaken (C.shown txn.old.cells.now) (C.shown txn.new.cells.now) footprint.now (chains_of txn.new.hand.items)) }
    ensures left { OnErr result (HasLeft (C.shown txn.old.cells.now) (C.shown txn.new.cells.now) []) }
{
    for c in footprint {
        txn.hold(*c)?;
    }
    Ok(())
}

/// Makes these changes, in the transaction alone.
pub(crate) fn change_all<C: Cells, G: Gate>(
    txn: &mut Txn<'_, C, G>,
    alloc: Global,
    changes: &[Change<'_>],
) -> Result<(), OutOfMemory>
    requires opened { IsOpen C.Rule.step C.Rule.legal C.Rule.follows C.Rule.buries (C.quiet txn.old.cells.now) (C.chains txn.old.cells.now) txn.old.chains txn.old.stop txn.old.hand.items (C.shown txn.old.cells.now) }
    requires held { AreHeld txn.old.chains (numbers (chains_of txn.old.hand.items)) changes.now }
    ensures cells { (txn.new.cells.ghost_name ≡ txn.old.cells.ghost_name) × (txn.new.cells.now ≡ txn.old.cells.now) }
    ensures kept { (txn.new.chains ≡ txn.old.chains) × (txn.new.stop ≡ txn.old.stop) }
    ensures opened { IsOpen C.Rule.step C.Rule.legal C.Rule.follows C.Rule.buries (C.quiet txn.new.cells.now) (C.chains txn.new.cells.now) txn.new.chains txn.new.stop txn.new.hand.items (C.shown txn.new.cells.now) }
    ensures changed { OnOk result (chains_of txn.new.hand.items ≡ with_changes txn.old.chains changes.now (chains_of txn.old.hand.items)) }
{
    for change in changes {
        change_one(txn, alloc, change)?;
    }
    Ok(())
}

fn change_one<C: Cells, G: Gate>(
    txn: &mut Txn<'_, C, G>,
    alloc: Global,
    change: &Change<'_>,
) -> Result<(), OutOfMemory>
    requires opened { IsOpen C.Rule.step C.Rule.legal C.Rule.follows C.Rule.buries (C.quiet txn.old.cells.now) (C.chains txn.old.cells.now) txn.old.chains txn.old.stop txn.old.hand.items (C.shown txn.old.cells.now) }
    requires held { IsHeld txn.old.chains (numbers (chains_of txn.old.hand.items)) change.now }
    ensures cells { (txn.new.cells.ghost_name ≡ txn.old.cells.ghost_name) × (txn.new.cells.now ≡ txn.old.cells.now) }
    ensures kept { (txn.new.chains ≡ txn.old.chains) × (txn.new.stop ≡ txn.old.stop) }
    ensures opened { IsOpen C.Rule.step C.Rule.legal C.Rule.follows C.Rule.buries (C.quiet txn.new.cells.now) (C.chains txn.new.cells.now) txn.new.chains txn.new.stop txn.new.hand.items (C.shown txn.new.cells.now) }
    ensures changed { OnOk result (chains_of txn.new.hand.items ≡ with_change txn.old.chains change.now (chains_of txn.old.hand.items)) }
    ensures same { OnOk result (numbers (chains_of txn.new.hand.items) ≡ numbers (chains_of txn.old.hand.items)) }
{
    changes_in_hand();
    match change.value {
        Some(value) => {
            let key = change.key.to_vec(alloc)?;
            let value = value.to_vec(alloc)?;
            txn.store(change.db, key, value)
        }
        None => {
            txn.delete(change.db, change.key);
            Ok(())
        }
    }
}
