ghost use Rattle.std.specs.Prelude.{◌≡◌, IfOk, List, ◌∷◌, filter, find};
ghost use Rattle.serial_table.specs.declared.rows.LeaseRow.{LeaseRow};
ghost use Rattle.serial_table.specs.declared.rows.OpenRow.{OpenRow};
ghost use Rattle.serial_table.specs.View.{view, has_id, has_name, leases_at};
ghost use Rattle.serial_table.specs.InPlace.{is_lease_of};
ghost use Rattle.serial_table.specs.Asked.{own_lease};
ghost use Rattle.serial_table.specs.Reconnect.{take_over, reconnect_first, reconnect};

use crate::asked::own_lease;
use crate::by_number::declared_worker;
use crate::change::Change;
use crate::decision::{self, Caller, Decision};
use crate::durable::can_be_taken;
use crate::rows::{LeaseRow, OpenRow};
use crate::settle::is_lease_of;
use crate::table::Table;
use crate::view;
use sid_core::{Items, LeaseName, OpenId, OutOfMemory, Reply, Setup, WorkerInfo};
use std::alloc::Global;

pub(crate) fn open_of_id(table: &Table, id: OpenId) -> Option<OpenRow>
    ensures { result ≡ find (has_id id) table.now.opens }
{
    table
        .opens
        .as_slice()
        .iter()
        .copied()
        .find(|row| view::has_id(id, row))
}

fn lease_at(table: &Table, name: LeaseName, file: u32) -> Option<LeaseRow>
    ensures { result ≡ find (is_lease_of file) (filter (has_name name) table.now.leases) }
{
    table
        .leases
        .as_slice()
        .iter()
        .filter(|lease| view::has_name(name, lease))
        .copied()
        .find(|lease| is_lease_of(file, lease))
}

fn take_over_with(
    alloc: Global,
    caller: &Caller,
    row: &OpenRow,
    lease: &LeaseRow,
) -> Result<Decision, OutOfMemory>
    ensures { IfOk result (λ decision. (others : List LeaseRow) → decision ≡ take_over caller.now row.now (lease.now ∷ others)) }
{
    let taken = Change::TakeOver {
        file: row.file,
        id: row.id,
        owner: caller.sid,
        handle: caller.number,
    };
    Ok(Decision {
        changes: Items::from_vec(vec![in alloc; taken]?),
        ..decision::only_reply(
            alloc,
            Reply::Granted {
                lease: Some(lease.held),
                durable: true,
            },
        )
    })
}

fn take_over(
    table: &Table,
    caller: &Caller,
    name: LeaseName,
    row: &OpenRow,
) -> Result<Decision, OutOfMemory>
    ensures { IfOk result (λ decision. decision ≡ take_over caller.now row.now (leases_at (view table.now) name row.now.file)) }
{
    let alloc = table.leases.allocator();
    match lease_at(table, name, row.file) {
        Some(lease) => take_over_with(alloc, caller, row, &lease),
        None => Ok(decision::only_reply(alloc, Reply::ObjectNameNotFound)),
    }
}

fn reconnect_open(
    table: &Table,
    caller: &Caller,
    name: LeaseName,
    row: &OpenRow,
) -> Result<Decision, OutOfMemory>
    ensures { IfOk result (λ decision. (others : List OpenRow) → decision ≡ reconnect_first (view table.now) caller.now name (row.now ∷ others)) }
{
    if can_be_taken(table, caller.moment, row) && view::carries(name, row.lease) {
        take_over(table, caller, name, row)
    } else {
        Ok(decision::only_reply(table.opens.allocator(), Reply::ObjectNameNotFound))
    }
}

fn reconnect_first(
    table: &Table,
    caller: &Caller,
    name: LeaseName,
    id: OpenId,
) -> Result<Decision, OutOfMemory>
    ensures { IfOk result (λ decision. decision ≡ reconnect_first (view table.now) caller.now name ((view table.now).opens_of_id id)) }
{
    match open_of_id(table, id) {
        Some(row) => reconnect_open(table, caller, name, &row),
        None => Ok(decision::only_reply(table.opens.allocator(), Reply::ObjectNameNotFound)),
    }
}

fn reconnect_made_by(
    table: &Table,
    caller: &Caller,
    info: &WorkerInfo,
    call: u32,
    key: u64,
) -> Result<Decision, OutOfMemory>
    ensures { IfOk result (λ decision. decision ≡ reconnect_first (view table.now) caller.now (own_lease caller.now key) ((view table.now).opens_of_id (record { pid = info.now.pid; call = call }))) }
{
    let id = OpenId {
        pid: info.pid,
        call,
    };
    reconnect_first(table, caller, own_lease(caller, key), id)
}

/// What a `reconnect` decides.
pub(crate) fn reconnect(
    setup: &Setup,
    table: &Table,
    caller: &Caller,
    worker: u32,
    call: u32,
    key: u64,
) -> Result<Decision, OutOfMemory>
    ensures { IfOk result (λ decision. decision ≡ reconnect setup.now (view table.now) caller.now worker call key) }
{
    match declared_worker(setup, worker) {
        Some(info) => reconnect_made_by(table, caller, info, call, key),
        None => Ok(decision::only_reply(table.opens.allocator(), Reply::ObjectNameNotFound)),
    }
}
