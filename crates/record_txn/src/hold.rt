//! Takes chains, and ends a transaction where that can't be.
ghost use Rattle.std.specs.Prelude.{◌≡◌, ◌<◌, true, false, IfOk, IfErr, OnOk};
ghost use Rattle.turn_types.specs.Shown.{Nothing, AllBelow, knows_dead};
ghost use Rattle.turn_types.specs.Calls.{Able};
ghost use Rattle.record_txn.specs.Goes.{Goes};
ghost use Rattle.record_txn.specs.Holding.{Holds, Ended, EndsRecovery, dies_at_first, most_steps};

use crate::moves::give_all_back;
use crate::teller::Teller;
use chain_map::Chain;
use dbwrap_core::Cells;
use sid_core::{Gate, OutOfMemory, Point, StepKind};
use turn_types::{Recover, Take};

/// Why a transaction ended before it was finished.
#[derive(Clone, Copy, Debug, PartialEq, Eq)]
pub enum TxnEnd {
    /// Its pass died.
    Died,
    /// A chain was held by a pass that had died. Nothing is left of that pass now.
    Met { dead: u32 },
    OutOfMemory,
}

/// Takes a chain above all that are held, and reads it. Dies behind the take where it is told to.
pub(crate) fn take_and_read<C: Cells, G: Gate>(
    cells: &mut C,
    teller: &Teller<'_, G>,
    c: u32,
    stop: Option<Point>,
    dies: bool,
) -> Result<Chain, TxnEnd>
    requires able { Able (C.shown cells.old) }
    requires unplanned { (C.shown cells.old).plan ≡ Nothing }
    requires chain { (c < C.chains cells.old) × AllBelow c (C.shown cells.old).held }
    requires quiet { C.quiet cells.old }
    requires dies { dies ≡ dies_at_first stop (C.shown cells.old).held }
    ensures goes { Goes C.bond C.chains C.quiet C.shown C.beside cells.old cells.new }
    ensures holds { IfOk result (λ chain. Holds C.Rule.step C.Rule.legal C.Rule.follows C.Rule.buries c (C.shown cells.old) (C.shown cells.new) chain) }
    ensures lives { OnOk result (dies_at_first stop (C.shown cells.old).held ≡ false) }
    ensures ends { IfErr result (Ended (C.shown cells.old) (C.shown cells.new) c stop) }
{
    match cells.take(c) {
        Take::Taken => {
            teller.tell(StepKind::Took(c));
            if dies {
                cells.die();
                return Err(TxnEnd::Died);
            }
            match cells.read(c) {
                Ok(chain) => Ok(chain),
                Err(OutOfMemory) => {
                    give_all_back(cells, teller);
                    Err(TxnEnd::OutOfMemory)
                }
            }
        }
        Take::Orphan { holder } => Err(recover(cells, teller, holder, stop)),
        Take::Busy { holder: _ } => unreachable!(),
    }
}

// Recovers a pass that is known as dead, and gives all back.
fn recover<C: Cells, G: Gate>(
    cells: &mut C,
    teller: &Teller<'_, G>,
    dead: u32,
    stop: Option<Point>,
) -> TxnEnd
    requires able { Able (C.shown cells.old) }
    requires unplanned { (C.shown cells.old).plan ≡ Nothing }
    requires dead { knows_dead dead (C.shown cells.old) ≡ true }
    ensures goes { Goes C.bond C.chains C.quiet C.shown C.beside cells.old cells.new }
    ensures ends { EndsRecovery dead stop (C.shown cells.old) (C.shown cells.new) result }
{
    match cells.recover(dead, most_steps(stop)) {
        Recover::Freed => {
            teller.tell(StepKind::Freed(dead));
            give_all_back(cells, teller);
            TxnEnd::Met { dead }
        }
        Recover::Stopped => {
            cells.die();
            TxnEnd::Died
        }
        Recover::Other { by: _ } => unreachable!(),
    }
}

// How many steps a recovery may do, where not all.
fn most_steps(stop: Option<Point>) -> Option<u32>
    ensures { result ≡ most_steps stop }
{
    match stop {
        Some(Point::Mourn) => Some(1),
        _ => None,
    }
}
