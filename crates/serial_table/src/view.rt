ghost use Rattle.std.specs.Prelude.{◌≡◌, ◌==◌, ◌&&◌, false, find};
ghost use Rattle.std.specs.Option.{option_map_or};
ghost use Rattle.sid_core.specs.Ids.{same_sid, same_spot};
ghost use Rattle.serial_table.specs.InPlace.{lives_by};
ghost use Rattle.serial_table.specs.View.{is_of_file, is_of_handle, has_id, has_name, has_pid, is_range_of, is_hold_of, is_to, waits_on, waits_behind, is_lock, watch_on, watch_behind, carries};

use crate::rows::{HoldRow, LeaseRow, OpenRow, RangeRow, WaiterRow, Watch, WorkerRow};
use sid_core::{LeaseName, OpenId, Post, Sid, Spot};

pub(crate) fn worker_of(workers: &[WorkerRow], pid: u32) -> Option<WorkerRow>
    ensures { result ≡ find (has_pid pid) workers.now }
{
    workers.iter().copied().find(|worker| worker.pid == pid)
}

fn is_in_session(worker: Option<WorkerRow>, session: u32) -> bool
    ensures { result ≡ option_map_or (λ worker. worker.alive && (worker.session == session)) worker false }
{
    match worker {
        Some(worker) => worker.alive && worker.session == session,
        None => false,
    }
}

pub(crate) fn lives(workers: &[WorkerRow], sid: Sid) -> bool
    ensures { result ≡ lives_by workers.now sid }
{
    is_in_session(worker_of(workers, sid.pid), sid.session)
}

pub(crate) fn is_of_file(file: u32, row: &OpenRow) -> bool
    ensures { result ≡ is_of_file file row.now }
{
    row.file == file
}

pub(crate) fn is_of_handle(owner: Sid, handle: u32, row: &OpenRow) -> bool
    ensures { result ≡ is_of_handle owner handle row.now }
{
    row.owner == owner && row.handle == handle
}

pub(crate) fn has_id(id: OpenId, row: &OpenRow) -> bool
    ensures { result ≡ has_id id row.now }
{
    row.id == id
}

pub(crate) fn has_name(name: LeaseName, lease: &LeaseRow) -> bool
    ensures { result ≡ has_name name lease.now }
{
    lease.name == name
}

pub(crate) fn carries(name: LeaseName, lease: Option<LeaseName>) -> bool
    ensures { result ≡ carries name lease }
{
    match lease {
        Some(own) => own == name,
        None => false,
    }
}

pub(crate) fn is_range_of(file: u32, range: &RangeRow) -> bool
    ensures { result ≡ is_range_of file range.now }
{
    range.file == file
}

pub(crate) fn is_hold_of(key: u64, hold: &HoldRow) -> bool
    ensures { result ≡ is_hold_of key hold.now }
{
    hold.key == key
}

pub(crate) fn is_to(sid: Sid, post: &Post) -> bool
    ensures { result ≡ is_to sid post.now }
{
    post.to == sid
}

fn is_same_spot(a: Spot, b: Spot) -> bool
    ensures { result ≡ same_spot a b }
{
    match (a, b) {
        (Spot::OpenOf(file), Spot::OpenOf(other)) => file == other,
        (Spot::RangesOf(file), Spot::RangesOf(other)) => file == other,
        (Spot::LockOf(key), Spot::LockOf(other)) => key == other,
        _ => false,
    }
}

pub(crate) fn waits_on(spot: Spot, waiter: &WaiterRow) -> bool
    ensures { result ≡ waits_on spot waiter.now }
{
    is_same_spot(waiter.spot, spot)
}

pub(crate) fn waits_behind(sid: Sid, waiter: &WaiterRow) -> bool
    ensures { result ≡ waits_behind sid waiter.now }
{
    match waiter.blocker {
        Some(blocker) => blocker == sid,
        None => false,
    }
}

fn is_lock(spot: Spot) -> bool
    ensures { result ≡ is_lock spot }
{
    match spot {
        Spot::OpenOf(_) | Spot::RangesOf(_) => false,
        Spot::LockOf(_) => true,
    }
}

pub(crate) fn watch_on(spot: Spot, waiter: &WaiterRow) -> Watch
    ensures { result ≡ watch_on spot waiter.now }
{
    Watch {
        sid: waiter.sid,
        call: waiter.call,
        upgrade: is_lock(spot) && waiter.upgrade,
    }
}

pub(crate) fn watch_behind(waiter: &WaiterRow) -> Watch
    ensures { result ≡ watch_behind waiter.now }
{
    Watch {
        sid: waiter.sid,
        call: waiter.call,
        upgrade: false,
    }
}
