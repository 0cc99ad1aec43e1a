ghost use Rattle.std.specs.Prelude.{◌≡◌, IfOk, List, ◌∷◌, None, Some, filter, find, if◌then◌else◌};
ghost use Rattle.serial_table.specs.declared.rows.RangeRow.{RangeRow};
ghost use Rattle.serial_table.specs.View.{view, has_id, is_of_file, is_range_of};
ghost use Rattle.serial_table.specs.File.{file_view};
ghost use Rattle.serial_table.specs.Break.{break_others, none_of_them};
ghost use Rattle.serial_table.specs.InPlace.{lives_by};
ghost use Rattle.serial_table.specs.Alone.{breaks_of};
ghost use Rattle.serial_table.specs.Range.{range_conflict};
ghost use Rattle.serial_table.specs.Lock.{grant_range, range_blocker, range_waiter, wait_for_range, lock_by, lock_range, lock_in, lock};

use crate::breaks::{Breaks, breaks_of_others};
use crate::change::Change;
use crate::close::open_of_handle;
use crate::decision::{self, Caller, Decision, no_longer_waits};
use crate::range::{passes_end, range_conflict, range_of};
use crate::rows::{OpenRow, RangeRow, WaiterRow, WorkerRow};
use crate::table::Table;
use crate::view;
use bitflags::Flags;
use sid_core::{Access, Items, LeaseState, Mode, Moment, OutOfMemory, Reply, Sid, Span, Spot};
use std::alloc::Global;

/// What a `lock` asks for, and whether it waits where it isn't granted.
#[derive(Clone, Copy)]
struct AskedRange {
    span: Span,
    mode: Mode,
    wait: bool,
}

const READS_OR_WRITES: Access = Access(0x3);

// ---- a range that is granted

fn grant_with(
    alloc: Global,
    row: &OpenRow,
    span: Span,
    mode: Mode,
    breaks: Breaks,
) -> Result<Decision, OutOfMemory>
    ensures { IfOk result (λ decision. decision ≡ grant_range row.now span mode (breaks_of breaks)) }
{
    let mut changes = vec![in alloc; Change::AddRange(range_of(row, span, mode))]?;
    changes.extend_from_slice(breaks.changes.as_slice())?;
    Ok(Decision {
        changes: Items::from_vec(changes),
        posts: Items::from_vec(breaks.posts),
        spots: decision::spots_of(alloc, row.file)?,
        ..decision::only_reply(
            alloc,
            Reply::Granted {
                lease: None,
                durable: false,
            },
        )
    })
}

fn grant_range(
    table: &Table,
    now: Moment,
    row: &OpenRow,
    span: Span,
    mode: Mode,
) -> Result<Decision, OutOfMemory>
    ensures { IfOk result (λ decision. decision ≡ grant_range row.now span mode (break_others now row.now.file (file_view row.now.file (view table.now)) none_of_them row.now.lease)) }
{
    let breaks = breaks_of_others(table, now, row.file, LeaseState(0), row.lease)?;
    grant_with(table.ranges.allocator(), row, span, mode, breaks)
}

// ---- a range that is in the way

fn range_in_the_way(table: &Table, row: &OpenRow, span: Span, mode: Mode) -> Option<RangeRow>
    ensures { result ≡ find (λ held. range_conflict held row.now.id span mode) (filter (is_range_of row.now.file) table.now.ranges) }
{
    table
        .ranges
        .as_slice()
        .iter()
        .filter(|range| view::is_range_of(row.file, range))
        .copied()
        .find(|held| range_conflict(held, row.id, span, mode))
}

fn open_of_range(table: &Table, file: u32, range: &RangeRow) -> Option<OpenRow>
    ensures { result ≡ find (has_id range.now.id) (filter (is_of_file file) table.now.opens) }
{
    table
        .opens
        .as_slice()
        .iter()
        .filter(|row| view::is_of_file(file, row))
        .copied()
        .find(|row| view::has_id(range.id, row))
}

fn connected_owner(workers: &[WorkerRow], row: &OpenRow) -> Option<Sid>
    ensures { result ≡ (if lives_by workers.now row.now.owner then Some row.now.owner else None) }
{
    if view::lives(workers, row.owner) {
        Some(row.owner)
    } else {
        None
    }
}

fn range_blocker(table: &Table, file: u32, range: &RangeRow) -> Option<Sid>
    ensures { result ≡ range_blocker (file_view file (view table.now)) range.now }
{
    match open_of_range(table, file, range) {
        Some(row) => connected_owner(table.workers.as_slice(), &row),
        None => None,
    }
}

fn range_waiter(caller: &Caller, file: u32, blocker: Option<Sid>) -> WaiterRow
    ensures { result ≡ range_waiter caller.now file blocker }
{
    WaiterRow {
        sid: caller.sid,
        call: caller.number,
        spot: Spot::RangesOf(file),
        blocker,
        upgrade: false,
    }
}

fn wait_for_range(
    alloc: Global,
    caller: &Caller,
    file: u32,
    wait: bool,
    blocker: Option<Sid>,
) -> Decision
    ensures { result ≡ wait_for_range caller.now file wait blocker }
{
    if wait {
        Decision {
            waits: Some(range_waiter(caller, file, blocker)),
            ..decision::only_reply(alloc, Reply::Pending)
        }
    } else {
        decision::only_reply(alloc, Reply::LockNotGranted)
    }
}

fn lock_behind(
    table: &Table,
    caller: &Caller,
    asked: &AskedRange,
    row: &OpenRow,
    first: &RangeRow,
) -> Decision
    ensures { (others : List RangeRow) → result ≡ lock_by (file_view row.now.file (view table.now)) caller.now asked.now.span asked.now.mode asked.now.wait row.now (first.now ∷ others) }
{
    let blocker = range_blocker(table, row.file, first);
    wait_for_range(
        table.ranges.allocator(),
        caller,
        row.file,
        asked.wait,
        blocker,
    )
}

// ---- the call

fn lock_by(
    table: &Table,
    caller: &Caller,
    asked: &AskedRange,
    row: &OpenRow,
) -> Result<Decision, OutOfMemory>
    ensures { IfOk result (λ decision. decision ≡ lock_by (file_view row.now.file (view table.now)) caller.now asked.now.span asked.now.mode asked.now.wait row.now (filter (λ held. range_conflict held row.now.id asked.now.span asked.now.mode) (filter (is_range_of row.now.file) table.now.ranges))) }
{
    match range_in_the_way(table, row, asked.span, asked.mode) {
        Some(first) => Ok(lock_behind(table, caller, asked, row, &first)),
        None => grant_range(table, caller.moment, row, asked.span, asked.mode),
    }
}

fn lock_range(
    table: &Table,
    caller: &Caller,
    asked: &AskedRange,
    row: &OpenRow,
) -> Result<Decision, OutOfMemory>
    ensures { IfOk result (λ decision. decision ≡ lock_range (file_view row.now.file (view table.now)) caller.now asked.now.span asked.now.mode asked.now.wait row.now) }
{
    let alloc = table.ranges.allocator();
    if !row.access.intersects(READS_OR_WRITES) {
        Ok(decision::only_reply(alloc, Reply::AccessDenied))
    } else if passes_end(asked.span) {
        Ok(decision::only_reply(alloc, Reply::InvalidLockRange))
    } else {
        lock_by(table, caller, asked, row)
    }
}

fn lock_in(
    table: &Table,
    caller: &Caller,
    asked: &AskedRange,
    row: &OpenRow,
) -> Result<Decision, OutOfMemory>
    ensures { IfOk result (λ decision. decision ≡ lock_in (file_view row.now.file (view table.now)) caller.now asked.now.span asked.now.mode asked.now.wait row.now) }
{
    let decision = lock_range(table, caller, asked, row)?;
    no_longer_waits(table, caller, Spot::RangesOf(row.file), decision)
}

/// What a `lock` decides. It costs a few scans of the table's lists, and what breaking the file's leases costs at its own rows.
pub(crate) fn lock(
    table: &Table,
    caller: &Caller,
    handle: u32,
    span: Span,
    mode: Mode,
    wait: bool,
) -> Result<Decision, OutOfMemory>
    ensures { IfOk result (λ decision. decision ≡ lock (view table.now) caller.now handle span mode wait) }
{
    match open_of_handle(table, caller.sid, handle) {
        Some(row) => lock_in(table, caller, &AskedRange { span, mode, wait }, &row),
        None => Ok(decision::only_reply(table.opens.allocator(), Reply::FileClosed)),
    }
}
