//! One entry by hand, over plain cells.
ghost use Rattle.std.specs.Prelude.{◌≡◌, ◌≤◌, ◌<◌, ◌+◌, ◌*◌, ◌^◌, length, OnOk, OnErr};
ghost use Rattle.turn_types.specs.Beside.{Leaves};
ghost use Rattle.dbwrap_core.specs.Plain.{beside_of, shown_at};
ghost use Rattle.record_txn.specs.Finishing.{next_entry};
ghost use Rattle.by_hand.specs.Idle.{IsIdle, IsSame, IsCarriedOut, IsUndone};
ghost use Rattle.by_hand.specs.Decided.{IsDecidedBy, chosen};

use crate::change::Decision;
use crate::entry::{Undone, enter};
use dbwrap_core::PlainCells;
use sid_core::Gate;
use std::alloc::Global;
use turn_types::Replay;

/// Carries out an entry of a pass as it was decided. Each database has so many chains. Where it answers an error, nothing
/// has changed.
pub fn by_hand<R: Replay, G: Gate>(
    cells: &mut PlainCells<R>,
    alloc: Global,
    pass: u32,
    chains: u32,
    decision: &Decision<'_>,
    gate: &G,
) -> Result<(), Undone>
    requires pass { pass < length (beside_of cells.old).passes }
    requires databases { (1 ≤ chains) × (chains ≤ 64) × (length (beside_of cells.old).chains ≡ 7 * chains) }
    requires idle { IsIdle (beside_of cells.old) }
    requires few { length (shown_at cells.old pass).own + 1 < 2 ^ 32 }
    requires decided { let v = shown_at cells.old pass in IsDecidedBy R.step R.legal R.follows R.buries R.names chains v (beside_of cells.old).chains decision.now }
    ensures idle { IsIdle (beside_of cells.new) }
    ensures leaves { Leaves (shown_at cells.old pass) (shown_at cells.new pass) (beside_of cells.old) (beside_of cells.new) }
    ensures same { IsSame (shown_at cells.old pass) (shown_at cells.new pass) }
    ensures carried_out { OnOk result (let v = shown_at cells.old pass in IsCarriedOut (R.step v.rule) v (shown_at cells.new pass) (beside_of cells.old) (beside_of cells.new) (next_entry v (chosen chains (beside_of cells.old).chains decision.now).event)) }
    ensures undone { OnErr result (IsUndone (shown_at cells.old pass) (shown_at cells.new pass) (beside_of cells.old) (beside_of cells.new)) }
{
    cells.tell();
    let mut seat = cells.seat(pass);
    let done = enter(&mut seat, alloc, chains, decision, gate);
    cells.tell();
    done
}
