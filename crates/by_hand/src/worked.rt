//! Two entries over what the worked rows declare, with 8 chains a database: the first worker opens the first file, and
//! closes it again. Which chains they name, and each byte that they write, was worked out by hand.
ghost use Rattle.std.specs.Prelude.{◌≡◌, ◌⊎◌, [], ◌∷◌, List, OnOk, OnErr};
ghost use Rattle.sid_core.specs.declared.entry.Entry.{Entry};
ghost use Rattle.dbwrap_core.specs.Plain.{beside_of, shown_at};
ghost use Rattle.by_hand.specs.Worked.{IsBehind, OpensByHand, ClosesByHand, opened, closed, missed, opening, closing};

use crate::change::{Change, Choice, Decision};
use crate::entry::Undone;
use crate::plain::by_hand;
use chain_map::Db;
use databases::BySetup;
use dbwrap_core::PlainCells;
use sid_core::{Access, Call, Event, Gate, Moment, Reply, Share};
use std::alloc::Global;

// The chains of the open, of the file's share modes, of the worker's register record, of the file's byte ranges, and of the worker's
// mailbox.
const FOOTPRINT: [u32; 5] = [6, 20, 37, 44, 53];

// pid 101 and handle 1
const HANDLE_KEY: [u8; 8] = [0, 0, 0, 101, 0, 0, 0, 1];

// OPEN, version 1: the open of pid 101 and call 1, of file 1.
const OPEN_RECORD: [u8; 18] = [79, 80, 69, 78, 1, 0, 101, 0, 0, 0, 1, 0, 0, 0, 1, 0, 0, 0];

// device 1, inode 11, extid 0
const FILE_KEY: [u8; 24] = [
    0, 0, 0, 0, 0, 0, 0, 1, 0, 0, 0, 0, 0, 0, 0, 11, 0, 0, 0, 0, 0, 0, 0, 0,
];

// SHAR, version 2: file 1, /srv/data and a.txt, not pending, and one entry: the open of pid 101 and call 1, owned by pid 101
// and session 1, handle 1, access 3, sharing all, with no lease, not durable, opened at 0, not marked. Nobody watches.
const SHARE_RECORD: [u8; 92] = [
    83, 72, 65, 82, 2, 0, 1, 0, 0, 0, 9, 0, 47, 115, 114, 118, 47, 100, 97, 116, 97, 5, 0, 97, 46,
    116, 120, 116, 0, 1, 0, 0, 0, 101, 0, 0, 0, 1, 0, 0, 0, 101, 0, 0, 0, 1, 0, 0, 0, 1, 0, 0, 0,
    3, 0, 0, 0, 7, 0, 0, 0, 0, 0, 0, 0, 0, 0, 0, 0, 0, 0, 0, 0, 0, 0, 0, 0, 0, 0, 0, 0, 0, 0, 0, 0,
    0, 0, 0, 0, 0, 0, 0,
];

/// Worker 1 opens file 1 for reading and writing, and shares all. Nothing was opened before.
pub fn open_by_hand<G: Gate>(
    cells: &mut PlainCells<BySetup<'_>>,
    alloc: Global,
    gate: &G,
) -> Result<(), Undone>
    requires before { IsBehind [] (beside_of cells.old) (shown_at cells.old 1) }
    ensures opened { OnOk result (IsBehind (opened ∷ []) (beside_of cells.new) (shown_at cells.new 1)) }
    ensures undone { OnErr result (IsBehind [] (beside_of cells.new) (shown_at cells.new 1)) }
{
    let changes = [
        Change::put(Db::Opens, &HANDLE_KEY, &OPEN_RECORD),
        Change::put(Db::Locking, &FILE_KEY, &SHARE_RECORD),
    ];
    let granted = Choice {
        changes: &changes,
        event: opening(),
    };
    let decision = Decision {
        footprint: &FOOTPRINT,
        db: Db::Locking,
        key: &FILE_KEY,
        found: granted,
        missing: granted,
    };
    open_as_decided(cells, alloc, &decision, gate)
}

fn open_as_decided<G: Gate>(
    cells: &mut PlainCells<BySetup<'_>>,
    alloc: Global,
    decision: &Decision<'_>,
    gate: &G,
) -> Result<(), Undone>
    requires before { IsBehind [] (beside_of cells.old) (shown_at cells.old 1) }
    requires decision { OpensByHand decision.now }
    ensures opened { OnOk result (IsBehind (opened ∷ []) (beside_of cells.new) (shown_at cells.new 1)) }
    ensures undone { OnErr result (IsBehind [] (beside_of cells.new) (shown_at cells.new 1)) }
{
    by_hand(cells, alloc, 1, 8, decision, gate)
}

/// Worker 1 closes handle 1, which is that of file 1 where it opened it before. Whether the handle has a record decides.
pub fn close_by_hand<G: Gate>(
    cells: &mut PlainCells<BySetup<'_>>,
    alloc: Global,
    gate: &G,
) -> Result<(), Undone>
    requires before { IsBehind [] (beside_of cells.old) (shown_at cells.old 1) ⊎ IsBehind (opened ∷ []) (beside_of cells.old) (shown_at cells.old 1) }
    ensures closed { IsBehind (opened ∷ []) (beside_of cells.old) (shown_at cells.old 1) → OnOk result (IsBehind (opened ∷ closed ∷ []) (beside_of cells.new) (shown_at cells.new 1)) }
    ensures missed { IsBehind [] (beside_of cells.old) (shown_at cells.old 1) → OnOk result (IsBehind (missed ∷ []) (beside_of cells.new) (shown_at cells.new 1)) }
    ensures undone { (before : List Entry) → IsBehind before (beside_of cells.old) (shown_at cells.old 1) → OnErr result (IsBehind before (beside_of cells.new) (shown_at cells.new 1)) }
{
    let changes = [
        Change::remove(Db::Opens, &HANDLE_KEY),
        Change::remove(Db::Locking, &FILE_KEY),
    ];
    let found = Choice {
        changes: &changes,
        event: closing(Reply::Done),
    };
    let missing = Choice {
        changes: &changes[..0],
        event: closing(Reply::FileClosed),
    };
    let decision = Decision {
        footprint: &FOOTPRINT,
        db: Db::Opens,
        key: &HANDLE_KEY,
        found,
        missing,
    };
    close_as_decided(cells, alloc, &decision, gate)
}

fn close_as_decided<G: Gate>(
    cells: &mut PlainCells<BySetup<'_>>,
    alloc: Global,
    decision: &Decision<'_>,
    gate: &G,
) -> Result<(), Undone>
    requires before { IsBehind [] (beside_of cells.old) (shown_at cells.old 1) ⊎ IsBehind (opened ∷ []) (beside_of cells.old) (shown_at cells.old 1) }
    requires decision { ClosesByHand decision.now }
    ensures closed { IsBehind (opened ∷ []) (beside_of cells.old) (shown_at cells.old 1) → OnOk result (IsBehind (opened ∷ closed ∷ []) (beside_of cells.new) (shown_at cells.new 1)) }
    ensures missed { IsBehind [] (beside_of cells.old) (shown_at cells.old 1) → OnOk result (IsBehind (missed ∷ []) (beside_of cells.new) (shown_at cells.new 1)) }
    ensures undone { (before : List Entry) → IsBehind before (beside_of cells.old) (shown_at cells.old 1) → OnErr result (IsBehind before (beside_of cells.new) (shown_at cells.new 1)) }
{
    by_hand(cells, alloc, 1, 8, decision, gate)
}

// Worker 1's call 1.
fn opening() -> Event
    ensures { result ≡ opening }
{
    Event::Called {
        number: 1,
        moment: Moment(0),
        call: Call::OpenFile {
            file: 1,
            access: Access(3),
            share: Share(7),
            lease: None,
            durable: 0,
            overwrite: false,
            delete: false,
        },
        reply: Reply::Granted {
            lease: None,
            durable: false,
        },
    }
}

// Worker 1's call 2.
fn closing(reply: Reply) -> Event
    ensures { result ≡ closing reply }
{
    Event::Called {
        number: 2,
        moment: Moment(0),
        call: Call::Close { handle: 1 },
        reply,
    }
}
