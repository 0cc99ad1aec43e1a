ghost use Rattle.std.specs.Prelude.{◌≡◌, ◌&&◌, not, false, IfOk, OnOk, if◌then◌else◌};
ghost use Rattle.serial_table.specs.View.{view};
ghost use Rattle.serial_table.specs.File.{file_view};
ghost use Rattle.serial_table.specs.Local.{perform_all_in_file};
ghost use Rattle.serial_table.specs.Break.{both, all_but_write, none_of_them};
ghost use Rattle.serial_table.specs.Asked.{is_stat, deletes_without_right, is_elsewhere};
ghost use Rattle.serial_table.specs.Open.{handle_breaks, other_breaks, open_waiter, wait_for_open, go_on, open_shared, open_by, open_file};
ghost use Rattle.serial_table.specs.Alone.{shown, breaks_of};
ghost use Rattle.serial_table.specs.OpenAt.{wait_or_grant_at, go_further, open_unleased};
ghost use Rattle.serial_table.specs.InPlace.{is_lease_of};
ghost use Rattle.std.specs.List.{list_any};

use crate::alone::rows_alone;
use crate::asked::{
    Asked, deletes_without_right, is_elsewhere, is_stat, leases_in_conflict, meets_conflict,
    meets_refusal,
};
use crate::breaks::{ALL_BUT_HANDLE, ALL_BUT_WRITE, Breaks, break_each, break_others, no_break};
use crate::decision::{self, Caller, Decision};
use crate::grant::{grant, grant_unleased};
use crate::lists::Lists;
use crate::perform::is_pending;
use crate::rows::{LeaseRow, WaiterRow};
use crate::settle::is_lease_of;
use crate::table::Table;
use sid_core::{LeaseState, OutOfMemory, Reply, Sid, Spot};

// ---- the breaks

/// Breaks HANDLE of each lease of the opens that conflict.
fn break_handles(rows: &mut Lists, asked: &Asked) -> Result<Breaks, OutOfMemory>
    ensures made { IfOk result (λ done. breaks_of done ≡ handle_breaks (shown asked.now.file rows.old) asked.now) }
    ensures rows { OnOk result (shown asked.now.file rows.new ≡ perform_all_in_file (handle_breaks (shown asked.now.file rows.old) asked.now).changes (shown asked.now.file rows.old)) }
{
    let names = leases_in_conflict(rows, asked)?;
    let mut done = no_break(rows.alloc());
    break_each(
        rows,
        &mut done,
        asked.moment,
        asked.file,
        ALL_BUT_HANDLE,
        names.as_slice(),
    )?;
    Ok(done)
}

/// Who only asks for attributes breaks nothing.
fn breaks_nothing(asked: &Asked) -> bool
    ensures { result ≡ (is_stat asked.now.access && not asked.now.overwrite) }
{
    is_stat(asked.access) && !asked.overwrite
}

fn kept_beside(asked: &Asked) -> LeaseState
    ensures { result.0 ≡ (if asked.now.overwrite then none_of_them else all_but_write) }
{
    if asked.overwrite {
        LeaseState(0)
    } else {
        ALL_BUT_WRITE
    }
}

/// Breaks WRITE, or all three bits to overwrite, of each other lease of the file.
fn break_other_leases(rows: &mut Lists, done: &mut Breaks, asked: &Asked) -> Result<(), OutOfMemory>
    ensures done { OnOk result (breaks_of done.new ≡ both (breaks_of done.old) (other_breaks (shown asked.now.file rows.old) asked.now)) }
    ensures rows { OnOk result (shown asked.now.file rows.new ≡ perform_all_in_file (other_breaks (shown asked.now.file rows.old) asked.now).changes (shown asked.now.file rows.old)) }
{
    if breaks_nothing(asked) {
        Ok(())
    } else {
        break_others(
            rows,
            done,
            asked.moment,
            asked.file,
            kept_beside(asked),
            asked.lease,
        )
    }
}

fn has_leases(leases: &[LeaseRow], file: u32) -> bool
    ensures { result ≡ list_any (is_lease_of file) leases.now }
{
    leases.iter().any(|lease| is_lease_of(file, lease))
}

// ---- the steps

fn open_waiter(caller: &Caller, asked: &Asked, blocker: Sid) -> WaiterRow
    ensures { result ≡ open_waiter caller.now asked.now blocker }
{
    WaiterRow {
        sid: caller.sid,
        call: caller.number,
        spot: Spot::OpenOf(asked.file),
        blocker: Some(blocker),
        upgrade: false,
    }
}

fn wait_for_open(
    caller: &Caller,
    asked: &Asked,
    done: Breaks,
    blocker: Sid,
) -> Result<Decision, OutOfMemory>
    ensures { IfOk result (λ decision. decision ≡ wait_for_open caller.now asked.now (breaks_of done) blocker) }
{
    Ok(Decision {
        waits: Some(open_waiter(caller, asked, blocker)),
        ..done.decided(asked.file, Reply::Pending)?
    })
}

fn wait_or_grant(
    rows: &Lists,
    caller: &Caller,
    asked: &Asked,
    done: Breaks,
) -> Result<Decision, OutOfMemory>
    ensures { IfOk result (λ decision. decision ≡ wait_or_grant_at (shown asked.now.file rows.now) caller.now asked.now (breaks_of done) done.blocker) }
{
    match done.blocker {
        Some(blocker) => wait_for_open(caller, asked, done, blocker),
        None => grant(rows, caller, asked, done),
    }
}

fn go_further(
    rows: &mut Lists,
    caller: &Caller,
    asked: &Asked,
    mut done: Breaks,
) -> Result<Decision, OutOfMemory>
    ensures { IfOk result (λ decision. decision ≡ go_further (shown asked.now.file rows.old) caller.now asked.now (breaks_of done)) }
{
    break_other_leases(rows, &mut done, asked)?;
    wait_or_grant(rows, caller, asked, done)
}

fn go_on(rows: &mut Lists, caller: &Caller, asked: &Asked) -> Result<Decision, OutOfMemory>
    ensures { let first = handle_breaks (shown asked.now.file rows.old) asked.now in IfOk result (λ decision. decision ≡ go_on (shown asked.now.file rows.old) caller.now asked.now first first.blocker) }
{
    let done = break_handles(rows, asked)?;
    match done.blocker {
        Some(blocker) => wait_for_open(caller, asked, done, blocker),
        None => go_further(rows, caller, asked, done),
    }
}

fn open_at(rows: &mut Lists, caller: &Caller, asked: &Asked) -> Result<Decision, OutOfMemory>
    ensures { IfOk result (λ decision. decision ≡ open_shared (shown asked.now.file rows.old) caller.now asked.now) }
{
    if meets_refusal(rows, asked) {
        Ok(decision::only_reply(rows.alloc(), Reply::SharingViolation))
    } else {
        go_on(rows, caller, asked)
    }
}

/// Of a file without leases, whose rows are scanned and not copied.
fn open_unleased(table: &Table, caller: &Caller, asked: &Asked) -> Result<Decision, OutOfMemory>
    requires none { list_any (is_lease_of asked.now.file) table.now.leases ≡ false }
    ensures { IfOk result (λ decision. decision ≡ open_unleased (file_view asked.now.file (view table.now)) caller.now asked.now) }
{
    if meets_conflict(table, asked) {
        Ok(decision::only_reply(table.opens.allocator(), Reply::SharingViolation))
    } else {
        grant_unleased(table, caller, asked)
    }
}

/// At a copy of the file's rows, where its leases are broken one after another.
fn open_leased(table: &Table, caller: &Caller, asked: &Asked) -> Result<Decision, OutOfMemory>
    ensures { IfOk result (λ decision. decision ≡ open_shared (file_view asked.now.file (view table.now)) caller.now asked.now) }
{
    open_at(&mut rows_alone(table, asked.file)?, caller, asked)
}

fn open_here(table: &Table, caller: &Caller, asked: &Asked) -> Result<Decision, OutOfMemory>
    ensures { IfOk result (λ decision. decision ≡ open_shared (file_view asked.now.file (view table.now)) caller.now asked.now) }
{
    if has_leases(table.leases.as_slice(), asked.file) {
        open_leased(table, caller, asked)
    } else {
        open_unleased(table, caller, asked)
    }
}

fn open_by(table: &Table, caller: &Caller, asked: &Asked) -> Result<Decision, OutOfMemory>
    ensures { IfOk result (λ decision. decision ≡ open_by (is_elsewhere (view table.now) asked.now) (file_view asked.now.file (view table.now)) caller.now asked.now) }
{
    let alloc = table.opens.allocator();
    if deletes_without_right(asked) {
        Ok(decision::only_reply(alloc, Reply::AccessDenied))
    } else if is_elsewhere(table, asked) {
        Ok(decision::only_reply(alloc, Reply::InvalidParameter))
    } else if is_pending(table.pending.as_slice(), asked.file) {
        Ok(decision::only_reply(alloc, Reply::DeletePending))
    } else {
        open_here(table, caller, asked)
    }
}

/// What an `open` decides, with its lease, durable seconds and overwriting.
#[tactic(auto, unfolding(crate::specs::Open::open_file))]
pub(crate) fn open_file(
    table: &Table,
    caller: &Caller,
    asked: &Asked,
) -> Result<Decision, OutOfMemory>
    ensures { IfOk result (λ decision. decision ≡ open_file (view table.now) caller.now asked.now) }
{
    let decision = open_by(table, caller, asked)?;
    decision::no_longer_waits(table, caller, Spot::OpenOf(asked.file), decision)
}
