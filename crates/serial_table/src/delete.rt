ghost use Rattle.std.specs.Prelude.{◌≡◌, IfOk};
ghost use Rattle.serial_table.specs.View.{view};
ghost use Rattle.serial_table.specs.Delete.{may_delete, sets_pending, delete_file, delete};

use crate::change::Change;
use crate::close::open_of_handle;
use crate::decision::{self, Caller, Decision};
use crate::rows::OpenRow;
use crate::table::Table;
use bitflags::Flags;
use sid_core::{Access, Items, OutOfMemory, Reply};
use std::alloc::Global;

pub(crate) fn may_delete(access: Access) -> bool
    ensures { result ≡ may_delete access }
{
    access.intersects(Access::DELETE)
}

fn sets_pending(file: u32, on: bool) -> Change
    ensures { result ≡ sets_pending file on }
{
    if on {
        Change::AddPending { file }
    } else {
        Change::DropPending { file }
    }
}

fn delete_file(alloc: Global, on: bool, row: &OpenRow) -> Result<Decision, OutOfMemory>
    ensures { IfOk result (λ decision. decision ≡ delete_file on row.now) }
{
    if !may_delete(row.access) {
        return Ok(decision::only_reply(alloc, Reply::AccessDenied));
    }
    Ok(Decision {
        changes: Items::from_vec(vec![in alloc; sets_pending(row.file, on)]?),
        ..decision::only_reply(alloc, Reply::Done)
    })
}

/// What a `delete` decides.
pub(crate) fn delete(
    table: &Table,
    caller: &Caller,
    handle: u32,
    on: bool,
) -> Result<Decision, OutOfMemory>
    ensures { IfOk result (λ decision. decision ≡ delete (view table.now) caller.now handle on) }
{
    let alloc = table.opens.allocator();
    match open_of_handle(table, caller.sid, handle) {
        Some(row) => delete_file(alloc, on, &row),
        None => Ok(decision::only_reply(alloc, Reply::FileClosed)),
    }
}
