//! One entry by hand.
ghost use Rattle.std.specs.Prelude.{◌≡◌, ◌≤◌, ◌<◌, ◌+◌, ◌*◌, ◌^◌, [], ◌∷◌, length, OnOk, OnErr, IfSome};
ghost use mathlib.Core.Option.{some};
ghost use Rattle.chain_map.specs.Pairs.{Pairs};
ghost use Rattle.turn_types.specs.Shown.{Nothing, look, replay};
ghost use Rattle.turn_types.specs.Calls.{Able};
ghost use Rattle.record_txn.specs.Goes.{Goes};
ghost use Rattle.record_txn.specs.Hand.{chains_of, chain_in};
ghost use Rattle.record_txn.specs.Finishing.{next_entry};
ghost use Rattle.by_hand.specs.Steps.{HasLeft};
ghost use Rattle.by_hand.specs.Decided.{IsDecidedBeside, asked_chain, is_in, choice_of, chosen};

use crate::change::{Choice, Decision};
use crate::steps::{change_all, hold_all};
use dbwrap_core::Cells;
use record_txn::{Finish, Txn, TxnEnd};
use sid_core::Gate;
use std::alloc::Global;

/// Why there is no entry.
#[derive(Clone, Copy, Debug, PartialEq, Eq)]
pub enum Undone {
    /// The transaction ended before it was finished.
    Ended(TxnEnd),
    /// It was given up for want of memory.
    GivenUp,
}

/// Carries out an entry as it was decided: holds the footprint, fetches the record, makes the changes, finishes. Each
/// database has so many chains.
pub(crate) fn enter<C: Cells, G: Gate>(
    cells: &mut C,
    alloc: Global,
    chains: u32,
    decision: &Decision<'_>,
    gate: &G,
) -> Result<(), Undone>
    requires databases { (1 ≤ chains) × (chains ≤ 64) × (C.chains cells.old ≡ 7 * chains) }
    requires quiet { C.quiet cells.old }
    requires idle { Able (C.shown cells.old) × ((C.shown cells.old).held ≡ []) × ((C.shown cells.old).plan ≡ Nothing) }
    requires few { length (C.shown cells.old).own + 1 < 2 ^ 32 }
    requires decided { IsDecidedBeside C.Rule.step C.Rule.legal C.Rule.follows C.Rule.buries C.Rule.names chains (C.shown cells.old) (C.beside cells.old) decision.now }
    ensures goes { Goes C.bond C.chains C.quiet C.shown C.beside cells.old cells.new }
    ensures entered { OnOk result (let v = C.shown cells.old in IfSome (C.beside cells.old) (λ b. HasLeft v (C.shown cells.new) (next_entry v (chosen chains (replay C.Rule.step v b.journal) decision.now).event ∷ []))) }
    ensures undone { OnErr result (HasLeft (C.shown cells.old) (C.shown cells.new) []) }
{
    let worker = cells.number();
    let mut txn = Txn::start(alloc, cells, chains, worker, 0, None, gate);
    if let Err(end) = hold_all(&mut txn, decision.footprint) {
        txn.leave();
        return Err(Undone::Ended(end));
    }
    txn.cells.tell();
    let choice = choice_of(is_stored(&txn, decision), decision);
    if change_all(&mut txn, alloc, choice.changes).is_err() {
        txn.drop_all();
        return Err(Undone::GivenUp);
    }
    match txn.finish(choice.event) {
        Finish::Done { place: _ } => Ok(()),
        _ => Err(Undone::GivenUp),
    }
}

// Whether the transaction has the record that is asked for.
fn is_stored<C: Cells, G: Gate>(txn: &Txn<'_, C, G>, decision: &Decision<'_>) -> bool
    requires databases { (1 ≤ txn.now.chains) × (txn.now.chains ≤ 64) }
    requires held { (chain : Pairs) × (look (asked_chain txn.now.chains decision.now) (chains_of txn.now.hand.items) ≡ some chain) }
    ensures { result ≡ is_in decision.now (chain_in (asked_chain txn.now.chains decision.now) (chains_of txn.now.hand.items)) }
{
    txn.fetch(decision.db, decision.key, |value| value.is_some())
}

fn choice_of<'a>(there: bool, decision: &Decision<'a>) -> Choice<'a>
    ensures { result ≡ choice_of there decision.now }
{
    if there {
        decision.found
    } else {
        decision.missing
    }
}
