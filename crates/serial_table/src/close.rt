ghost use Rattle.std.specs.Prelude.{◌≡◌, ◌∷◌, find, IfOk};
ghost use Rattle.serial_table.specs.View.{view, is_of_handle};
ghost use Rattle.serial_table.specs.Close.{close, close_open, mark_passes};

use crate::change::Change;
use crate::decision::{self, Caller, Decision};
use crate::rows::OpenRow;
use crate::table::Table;
use crate::view;
use sid_core::{Items, OutOfMemory, Reply, Sid};
use std::alloc::Global;

pub(crate) fn open_of_handle(table: &Table, owner: Sid, handle: u32) -> Option<OpenRow>
    ensures { result ≡ find (is_of_handle owner handle) table.now.opens }
{
    table
        .opens
        .as_slice()
        .iter()
        .copied()
        .find(|row| view::is_of_handle(owner, handle, row))
}

/// The open goes, and where it is marked, its file is to go.
fn changes_of_close(alloc: Global, row: &OpenRow) -> Result<Vec<Change>, OutOfMemory>
    ensures { IfOk result (λ changes. changes.items ≡ Change.DropOpen row.now.file row.now.id ∷ mark_passes row.now) }
{
    let dropped = Change::DropOpen {
        file: row.file,
        id: row.id,
    };
    let mut changes = vec![in alloc; dropped]?;
    if row.marked {
        changes.push(Change::AddPending { file: row.file })?;
    }
    Ok(changes)
}

fn close_open(alloc: Global, row: &OpenRow) -> Result<Decision, OutOfMemory>
    ensures { IfOk result (λ decision. decision ≡ close_open row.now) }
{
    Ok(Decision {
        changes: Items::from_vec(changes_of_close(alloc, row)?),
        reply: Reply::Done,
        posts: Items::new(alloc),
        spots: decision::spots_of(alloc, row.file)?,
        waits: None,
    })
}

/// What a `close` decides.
pub(crate) fn close(table: &Table, caller: &Caller, handle: u32) -> Result<Decision, OutOfMemory>
    ensures { IfOk result (λ decision. decision ≡ close (view table.now) caller.now handle) }
{
    let alloc = table.opens.allocator();
    match open_of_handle(table, caller.sid, handle) {
        Some(row) => close_open(alloc, &row),
        None => Ok(decision::only_reply(alloc, Reply::FileClosed)),
    }
}
