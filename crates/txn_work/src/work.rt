//! Transactions, one after another.
ghost use Rattle.std.specs.Prelude.{◌≡◌, ◌<◌, ◌+◌, ◌^◌, length, IfOk, OnOk};
ghost use Rattle.dbwrap_core.specs.Plain.{beside_of, shown_at};
ghost use Rattle.txn_work.specs.Ready.{IsReady};

use crate::rule::Stamping;
use by_hand::{Change, Choice, Decision, Undone, by_hand};
use chain_map::{Chain, Db};
use dbwrap_core::PlainCells;
use sid_core::{Event, Gate, OutOfMemory};
use std::alloc::Global;

const STAMP: [u8; 31] = [7; 31];

const PID_32: [u8; 4] = [0, 0, 0, 32];

const PID_33: [u8; 4] = [0, 0, 0, 33];

const PID_34: [u8; 4] = [0, 0, 0, 34];

const PID_35: [u8; 4] = [0, 0, 0, 35];

const PID_36: [u8; 4] = [0, 0, 0, 36];

const PID_37: [u8; 4] = [0, 0, 0, 37];

/// Cells with these 56 chains and one pass, whose entries stamp so many of them.
pub(crate) fn begin(
    alloc: Global,
    count: u32,
    chains: Vec<Chain>,
) -> Result<PlainCells<Stamping>, OutOfMemory>
    requires { length chains.items ≡ 56 }
    ensures { IfOk result (λ cells. IsReady count 0 (beside_of cells) (shown_at cells 0)) }
{
    PlainCells::start(alloc, Stamping { count }, chains, 1)
}

/// One transaction that changes one record.
pub(crate) fn stamp_one<G: Gate>(
    cells: &mut PlainCells<Stamping>,
    alloc: Global,
    gate: &G,
) -> Result<(), Undone>
    requires ready { IsReady 1 (length (shown_at cells.old 0).own) (beside_of cells.old) (shown_at cells.old 0) }
    requires few { length (shown_at cells.old 0).own + 1 < 2 ^ 32 }
    ensures { OnOk result (IsReady 1 (length (shown_at cells.old 0).own + 1) (beside_of cells.new) (shown_at cells.new 0)) }
{
    let changes = [Change {
        db: Db::Register,
        key: &PID_32,
        value: Some(&STAMP),
    }];
    let choice = Choice {
        changes: &changes,
        event: Event::Tidied { chain: 32 },
    };
    let decision = Decision {
        footprint: &[32],
        db: Db::Register,
        key: &PID_32,
        found: choice,
        missing: choice,
    };
    by_hand(cells, alloc, 0, 8, &decision, gate)
}

/// One transaction that changes six records, each in a chain of its own.
pub(crate) fn stamp_six<G: Gate>(
    cells: &mut PlainCells<Stamping>,
    alloc: Global,
    gate: &G,
) -> Result<(), Undone>
    requires ready { IsReady 6 (length (shown_at cells.old 0).own) (beside_of cells.old) (shown_at cells.old 0) }
    requires few { length (shown_at cells.old 0).own + 1 < 2 ^ 32 }
    ensures { OnOk result (IsReady 6 (length (shown_at cells.old 0).own + 1) (beside_of cells.new) (shown_at cells.new 0)) }
{
    let changes = [
        Change {
            db: Db::Register,
            key: &PID_32,
            value: Some(&STAMP),
        },
        Change {
            db: Db::Register,
            key: &PID_33,
            value: Some(&STAMP),
        },
        Change {
            db: Db::Register,
            key: &PID_34,
            value: Some(&STAMP),
        },
        Change {
            db: Db::Register,
            key: &PID_35,
            value: Some(&STAMP),
        },
        Change {
            db: Db::Register,
            key: &PID_36,
            value: Some(&STAMP),
        },
        Change {
            db: Db::Register,
            key: &PID_37,
            value: Some(&STAMP),
        },
    ];
    let choice = Choice {
        changes: &changes,
        event: Event::Tidied { chain: 32 },
    };
    let decision = Decision {
        footprint: &[32, 33, 34, 35, 36, 37],
        db: Db::Register,
        key: &PID_32,
        found: choice,
        missing: choice,
    };
    by_hand(cells, alloc, 0, 8, &decision, gate)
}

/// So many transactions that change one record each.
pub(crate) fn stamp_one_each<G: Gate>(
    cells: &mut PlainCells<Stamping>,
    alloc: Global,
    times: u32,
    gate: &G,
) -> Result<(), Undone>
    requires ready { IsReady 1 0 (beside_of cells.old) (shown_at cells.old 0) }
{
    for _ in 0..times {
        stamp_one(cells, alloc, gate)?;
    }
    Ok(())
}

/// So many transactions that change six records each.
pub(crate) fn stamp_six_each<G: Gate>(
    cells: &mut PlainCells<Stamping>,
    alloc: Global,
    times: u32,
    gate: &G,
) -> Result<(), Undone>
    requires ready { IsReady 6 0 (beside_of cells.old) (shown_at cells.old 0) }
{
    for _ in 0..times {
        stamp_six(cells, alloc, gate)?;
    }
    Ok(())
}
