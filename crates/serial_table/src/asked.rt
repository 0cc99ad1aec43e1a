ghost use Rattle.std.specs.Prelude.{◌≡◌, IfOk, true, false, not, ◌==◌, ◌&&◌, ◌||◌, filter};
ghost use Rattle.std.specs.List.{list_any, filter_map};
ghost use Rattle.std.specs.Option.{option_map, option_map_or};
ghost use Rattle.sid_core.specs.declared.call.LeaseAsk.{LeaseAsk};
ghost use Rattle.sid_core.specs.Words.{lease_state};
ghost use Rattle.sid_core.specs.Values.{has};
ghost use Rattle.serial_table.specs.View.{view, is_of_file};
ghost use Rattle.serial_table.specs.Break.{names_of};
ghost use Rattle.serial_table.specs.File.{file_view};
ghost use Rattle.serial_table.specs.Asked.{own_lease, is_stat, deletes_without_right, is_elsewhere, conflicts, in_conflict, holds_handle, is_asked_and_connected, refuses};
ghost use Rattle.serial_table.specs.Alone.{shown, is_connected_under};
ghost use Rattle.serial_table.specs.OpenAt.{row_conflicts, row_refuses};

use crate::breaks::{each_once, is_connected_under};
use crate::decision::Caller;
use crate::delete::may_delete;
use crate::lists::Lists;
use crate::rows::{LeaseRow, OpenRow};
use crate::settle::is_lease_of;
use crate::share::share_conflict;
use crate::table::Table;
use crate::view;
use bitflags::Flags;
use sid_core::{Access, LeaseAsk, LeaseName, LeaseState, Moment, OutOfMemory, Share};

/// What an `open` asks for, and when. The lease has its whole name here; `state` is what is asked of it.
#[derive(Clone, Copy)]
pub(crate) struct Asked {
    pub(crate) file: u32,
    pub(crate) access: Access,
    pub(crate) share: Share,
    pub(crate) lease: Option<LeaseName>,
    pub(crate) state: LeaseState,
    pub(crate) durable: u32,
    pub(crate) overwrite: bool,
    pub(crate) delete: bool,
    pub(crate) moment: Moment,
}

/// Reading and writing attributes and waiting alone: FILE_READ_ATTRIBUTES, FILE_WRITE_ATTRIBUTES, SYNCHRONIZE.
const STAT: Access = Access(0x10_0180);

pub(crate) fn own_lease(caller: &Caller, key: u64) -> LeaseName
    ensures { result ≡ own_lease caller.now key }
{
    LeaseName {
        guid: caller.guid,
        key,
    }
}

/// The whole name of the lease that is asked for.
pub(crate) fn asked_lease(caller: &Caller, lease: Option<LeaseAsk>) -> Option<LeaseName>
    ensures { result ≡ option_map (λ (ask : LeaseAsk). own_lease caller.now ask.key) lease }
{
    match lease {
        Some(ask) => Some(own_lease(caller, ask.key)),
        None => None,
    }
}

/// What is asked of it: nothing, where no lease is asked for.
pub(crate) fn asked_state(lease: Option<LeaseAsk>) -> LeaseState
    ensures { result ≡ option_map_or (λ (ask : LeaseAsk). ask.state) lease (lease_state 0) }
{
    match lease {
        Some(ask) => ask.state,
        None => LeaseState(0),
    }
}

pub(crate) fn is_stat(access: Access) -> bool
    ensures { result ≡ is_stat access }
{
    access.0 & STAT.0 == access.0
}

/// Whether the file is to go once this open is closed, but the access has no right to delete.
pub(crate) fn deletes_without_right(asked: &Asked) -> bool
    ensures { result ≡ deletes_without_right asked.now }
{
    asked.delete && !may_delete(asked.access)
}

// ---- a lease of another file

fn some_lease_elsewhere(table: &Table, name: LeaseName, file: u32) -> bool
    ensures { result ≡ list_any (λ lease. not (lease.file == file)) ((view table.now).leases_of name) }
{
    table
        .leases
        .as_slice()
        .iter()
        .filter(|lease| view::has_name(name, lease))
        .any(|lease| !is_lease_of(file, lease))
}

/// Whether the asked lease is of another file.
pub(crate) fn is_elsewhere(table: &Table, asked: &Asked) -> bool
    ensures { result ≡ is_elsewhere (view table.now) asked.now }
{
    match asked.lease {
        Some(name) => some_lease_elsewhere(table, name, asked.file),
        None => false,
    }
}

// ---- opens in the way

fn conflicts(asked: &Asked, row: &OpenRow) -> bool
    ensures { result ≡ row_conflicts asked.now row.now }
{
    share_conflict(asked.access, asked.share, row.access, row.share)
}

fn has_handle(lease: &LeaseRow) -> bool
    ensures { result ≡ has lease.now.held.0 2 }
{
    lease.held.intersects(LeaseState::HANDLE)
}

fn holds_handle(rows: &Lists, file: u32, name: LeaseName) -> bool
    ensures { result ≡ holds_handle (shown file rows.now) name }
{
    rows.leases
        .iter()
        .filter(|lease| view::has_name(name, lease))
        .filter(|lease| is_lease_of(file, lease))
        .any(has_handle)
}

fn is_connected(rows: &Lists, file: u32, name: LeaseName) -> bool
    ensures { result ≡ list_any (is_connected_under rows.now.workers.items file name) rows.now.opens.items }
{
    rows.opens.iter().any(|row| is_connected_under(rows.workers.as_slice(), file, name, row))
}

fn is_asked_and_connected(rows: &Lists, asked: &Asked, name: LeaseName) -> bool
    ensures { result ≡ is_asked_and_connected (shown asked.now.file rows.now) asked.now name }
{
    view::carries(name, asked.lease) && is_connected(rows, asked.file, name)
}

fn refuses(rows: &Lists, asked: &Asked, row: &OpenRow) -> bool
    ensures { result ≡ row_refuses (shown asked.now.file rows.now) asked.now row.now }
{
    match row.lease {
        Some(name) => {
            !holds_handle(rows, asked.file, name) || is_asked_and_connected(rows, asked, name)
        }
        None => true,
    }
}

fn some_conflicts(opens: &[OpenRow], asked: &Asked) -> bool
    ensures { result ≡ list_any (row_conflicts asked.now) (filter (is_of_file asked.now.file) opens.now) }
{
    opens
        .iter()
        .filter(|row| view::is_of_file(asked.file, row))
        .any(|row| conflicts(asked, row))
}

/// Whether an open of the file conflicts.
pub(crate) fn meets_conflict(table: &Table, asked: &Asked) -> bool
    ensures { result ≡ list_any (conflicts asked.now) (file_view asked.now.file (view table.now)).opens }
{
    some_conflicts(table.opens.as_slice(), asked)
}

fn some_refuses(rows: &Lists, asked: &Asked) -> bool
    ensures { result ≡ list_any (row_refuses (shown asked.now.file rows.now) asked.now) (filter (row_conflicts asked.now) (filter (is_of_file asked.now.file) rows.now.opens.items)) }
{
    rows.opens
        .iter()
        .filter(|row| view::is_of_file(asked.file, row))
        .filter(|row| conflicts(asked, row))
        .any(|row| refuses(rows, asked, row))
}

/// Whether an open that conflicts can't be made to go by a break of HANDLE.
pub(crate) fn meets_refusal(rows: &Lists, asked: &Asked) -> bool
    ensures { result ≡ list_any (refuses (shown asked.now.file rows.now) asked.now) (in_conflict (shown asked.now.file rows.now) asked.now) }
{
    some_refuses(rows, asked)
}

fn names_in_conflict(rows: &Lists, asked: &Asked) -> Result<Vec<LeaseName>, OutOfMemory>
    ensures { IfOk result (λ names. names.items ≡ filter_map (λ o. o.lease) (filter (row_conflicts asked.now) (filter (is_of_file asked.now.file) rows.now.opens.items))) }
{
    let names = rows
        .opens
        .iter()
        .filter(|row| view::is_of_file(asked.file, row))
        .filter(|row| conflicts(asked, row))
        .filter_map(|row| row.lease)
        .collect(rows.alloc())?;
    Ok(names)
}

/// The leases of the opens that conflict, each once.
pub(crate) fn leases_in_conflict(rows: &Lists, asked: &Asked) -> Result<Vec<LeaseName>, OutOfMemory>
    ensures { IfOk result (λ names. names.items ≡ names_of (in_conflict (shown asked.now.file rows.now) asked.now)) }
{
    let names = names_in_conflict(rows, asked)?;
    each_once(rows.alloc(), names.as_slice())
}
