ghost use Rattle.std.specs.Prelude.{◌≡◌, IfOk};
ghost use Rattle.serial_table.specs.View.{view};
ghost use Rattle.serial_table.specs.Decide.{decide};
ghost use Rattle.serial_table.specs.InPlace.{file_of_change, file_of_changes, scope_of};

use crate::ack::ack;
use crate::asked::{Asked, asked_lease, asked_state};
use crate::change::Change;
use crate::close::close;
use crate::decision::{Caller, Decision, only_reply};
use crate::delete::delete;
use crate::disconnect::disconnect;
use crate::global_lock::{glock, gunlock};
use crate::lists::Scope;
use crate::lock::lock;
use crate::open::open_file;
use crate::read_write::{read, write};
use crate::reconnect::reconnect;
use crate::recv::recv;
use crate::scavenge::scavenge;
use crate::table::Table;
use crate::unlock::unlock;
use sid_core::{Call, OutOfMemory, Reply, Setup};

/// What a call decides.
pub(crate) fn decide(
    setup: &Setup,
    table: &Table,
    caller: &Caller,
    call: Call,
) -> Result<Decision, OutOfMemory>
    ensures { IfOk result (λ decision. decision ≡ decide setup.now (view table.now) caller.now call) }
{
    let alloc = table.opens.allocator();
    match call {
        Call::OpenFile {
            file,
            access,
            share,
            lease,
            durable,
            overwrite,
            delete,
        } => open_file(
            table,
            caller,
            &Asked {
                file,
                access,
                share,
                lease: asked_lease(caller, lease),
                state: asked_state(lease),
                durable,
                overwrite,
                delete,
                moment: caller.moment,
            },
        ),
        Call::Close { handle } => close(table, caller, handle),
        Call::Delete { handle, on } => delete(table, caller, handle, on),
        Call::Ack { key, state } => ack(table, caller, key, state),
        Call::Lock {
            handle,
            span,
            mode,
            wait,
        } => lock(table, caller, handle, span, mode, wait),
        Call::Unlock { handle, span } => unlock(table, caller, handle, span),
        Call::Read { handle, span } => Ok(read(table, caller, handle, span)),
        Call::Write { handle, span } => write(table, caller, handle, span),
        Call::GLock { key, mode, wait } => glock(table, caller, key, mode, wait),
        Call::GUnlock { key } => gunlock(table, caller, key),
        Call::Recv => recv(table, caller),
        Call::Disconnect => disconnect(table, caller),
        Call::Reconnect { worker, call, key } => reconnect(setup, table, caller, worker, call, key),
        Call::Scavenge => scavenge(setup, table, caller),
        Call::Tidy => Ok(only_reply(alloc, Reply::Done)),
        Call::Status { .. } => Ok(only_reply(alloc, Reply::Shown)),
    }
}

/// The file whose opens or leases the change changes, or that it sets to go or to stay.
fn file_of_change(change: &Change) -> Option<u32>
    ensures { result ≡ file_of_change change.now }
{
    match change {
        Change::AddOpen(row) => Some(row.file),
        Change::AddLease(lease) => Some(lease.file),
        Change::DropOpen { file, .. }
        | Change::TakeOver { file, .. }
        | Change::SetLease { file, .. }
        | Change::Acknowledge { file, .. }
        | Change::AddPending { file }
        | Change::DropPending { file } => Some(*file),
        _ => None,
    }
}

/// The first of the files of which these change that, or 0.
fn file_of_changes(changes: &[Change]) -> u32
    ensures { result ≡ file_of_changes changes.now }
{
    for change in changes {
        if let Some(file) = file_of_change(change) {
            return file;
        }
    }
    0
}

/// What has to settle after the call: all files, or the one of which these changes change what settles.
pub(crate) fn scope_of(call: &Call, changes: &[Change]) -> Scope
    ensures { result ≡ scope_of call.now changes.now }
{
    match call {
        Call::Disconnect | Call::Scavenge => Scope::All,
        _ => Scope::File(file_of_changes(changes)),
    }
}
