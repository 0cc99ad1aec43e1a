ghost use Rattle.std.specs.Prelude.{◌≡◌, ℕ, List, [], ◌∷◌, if◌then◌else◌, IsTrue, IfOk, ◌+◌, ◌*◌, ◌≤◌, ◌==◌, ◌&&◌, ◌||◌, not, false, ◌++◌, length, filter, map, vec_len, vec_capacity};
ghost use Rattle.std.specs.List.{list_any, list_all, flat_map};
ghost use Rattle.std.specs.Option.{option_map_or};
ghost use Rattle.sid_core.specs.Ids.{same_id};
ghost use Rattle.sid_core.specs.declared.ids.Spot.{Spot};
ghost use Rattle.serial_table.specs.View.{view, has_id, has_name, is_of_file, is_range_of, is_hold_of, watch_on, waits_on};
ghost use Rattle.serial_table.specs.File.{file_view};
ghost use Rattle.serial_table.specs.Settle.{keeps_open, keeps_range};
ghost use Rattle.serial_table.specs.Change.{perform_all, same_range, same_mode, is_hold};
ghost use Rattle.serial_table.specs.Wake.{frees, frees_opens, frees_ranges, frees_lock, some_frees, wake};
ghost use Rattle.serial_table.specs.InPlace.{table_of, lives_by, is_lease_of, lease_ends_break, lacks_once_settled, goes_once_settled, goes_with, judge, judge_too, freed_watches, is_made, HasRoom, AreEnough};

use crate::change::Change;
use crate::lists::{Lists, Scope};
use crate::perform::{is_hold, is_same_mode, is_same_range};
use crate::rows::{HoldRow, LeaseRow, OpenRow, RangeRow, WaiterRow, Watch};
use crate::settle::{is_lease_of, lacks_handle, settle_lease};
use crate::view;
use sid_core::{LeaseName, Letter, Mode, OpenId, OutOfMemory, Post, Sid, Spot};
use std::alloc::Global;

/// A spot, and whether it has been freed.
#[derive(Clone, Copy)]
pub(crate) struct Candidate {
    pub(crate) spot: Spot,
    pub(crate) freed: bool,
}

// ---- what settling takes out of a file

fn will_lack(lists: &Lists, lease: &LeaseRow) -> bool
    ensures { result ≡ lacks_once_settled lists.now.opens.items (lives_by lists.now.workers.items) lease.now }
{
    let opens = lists.opens.as_slice();
    let workers = lists.workers.as_slice();
    lacks_handle(&settle_lease(Scope::All, opens, workers, *lease))
}

fn some_will_lack(lists: &Lists, file: u32, name: LeaseName) -> bool
    ensures { result ≡ list_any (lacks_once_settled lists.now.opens.items (lives_by lists.now.workers.items)) (filter (is_lease_of file) (filter (has_name name) lists.now.leases.items)) }
{
    lists
        .leases
        .iter()
        .filter(|lease| view::has_name(name, lease))
        .filter(|lease| is_lease_of(file, lease))
        .any(|lease| will_lack(lists, lease))
}

fn will_lose(lists: &Lists, file: u32, lease: Option<LeaseName>) -> bool
    ensures { result ≡ option_map_or (λ name. list_any (lacks_once_settled lists.now.opens.items (lives_by lists.now.workers.items)) (filter (is_lease_of file) (filter (has_name name) lists.now.leases.items))) lease false }
{
    match lease {
        Some(name) => some_will_lack(lists, file, name),
        None => false,
    }
}

fn will_go(lists: &Lists, row: &OpenRow) -> bool
    ensures { result ≡ goes_once_settled (table_of lists.now) row.now }
{
    will_lose(lists, row.file, row.lease) && !view::lives(lists.workers.as_slice(), row.owner)
}

fn some_lease_will_lack(lists: &Lists, file: u32) -> bool
    ensures { result ≡ list_any (lacks_once_settled lists.now.opens.items (lives_by lists.now.workers.items)) (filter (is_lease_of file) lists.now.leases.items) }
{
    lists
        .leases
        .iter()
        .filter(|lease| is_lease_of(file, lease))
        .any(|lease| will_lack(lists, lease))
}

fn some_of_these_will_go(lists: &Lists, file: u32) -> bool
    ensures { result ≡ list_any (goes_once_settled (table_of lists.now)) (filter (is_of_file file) lists.now.opens.items) }
{
    lists
        .opens
        .iter()
        .filter(|row| view::is_of_file(file, row))
        .any(|row| will_go(lists, row))
}

/// The opens are looked through only where a lease of the file will lack HANDLE.
fn some_open_will_go(lists: &Lists, file: u32) -> bool
    ensures { result ≡ list_any (goes_once_settled (table_of lists.now)) (filter (is_of_file file) lists.now.opens.items) }
{
    some_lease_will_lack(lists, file) && some_of_these_will_go(lists, file)
}

fn will_go_with(lists: &Lists, range: &RangeRow, row: &OpenRow) -> bool
    ensures { result ≡ goes_with (goes_once_settled (table_of lists.now)) range.now row.now }
{
    row.id == range.id && will_go(lists, row)
}

fn range_will_go(lists: &Lists, file: u32, range: &RangeRow) -> bool
    ensures { result ≡ list_any (goes_with (goes_once_settled (table_of lists.now)) range.now) (filter (is_of_file file) lists.now.opens.items) }
{
    lists
        .opens
        .iter()
        .filter(|row| view::is_of_file(file, row))
        .any(|row| will_go_with(lists, range, row))
}

fn some_range_will_go(lists: &Lists, file: u32) -> bool
    ensures { result ≡ list_any (λ range. list_any (goes_with (goes_once_settled (table_of lists.now)) range) (filter (is_of_file file) lists.now.opens.items)) (filter (is_range_of file) lists.now.ranges.items) }
{
    lists
        .ranges
        .iter()
        .filter(|range| view::is_range_of(file, range))
        .any(|range| range_will_go(lists, file, range))
}

// ---- what a change frees

fn has_open(lists: &Lists, file: u32, id: OpenId) -> bool
    ensures { result ≡ list_any (has_id id) (filter (is_of_file file) lists.now.opens.items) }
{
    lists
        .opens
        .iter()
        .filter(|row| view::is_of_file(file, row))
        .any(|row| view::has_id(id, row))
}

fn is_range_of_open(id: OpenId, range: &RangeRow) -> bool
    ensures { result ≡ same_id range.now.id id }
{
    range.id == id
}

fn has_range(lists: &Lists, file: u32, id: OpenId) -> bool
    ensures { result ≡ list_any (λ range. same_id range.id id) (filter (is_range_of file) lists.now.ranges.items) }
{
    lists
        .ranges
        .iter()
        .filter(|range| view::is_range_of(file, range))
        .any(|range| is_range_of_open(id, range))
}

fn has_same_range(lists: &Lists, file: u32, range: &RangeRow) -> bool
    ensures { result ≡ list_any (same_range range.now) (filter (is_range_of file) lists.now.ranges.items) }
{
    lists
        .ranges
        .iter()
        .filter(|held| view::is_range_of(file, held))
        .any(|held| is_same_range(range, held))
}

fn has_hold(lists: &Lists, key: u64, owner: Sid) -> bool
    ensures { result ≡ list_any (is_hold key owner) (filter (is_hold_of key) lists.now.holds.items) }
{
    lists
        .holds
        .iter()
        .filter(|hold| view::is_hold_of(key, hold))
        .any(|hold| is_hold(key, owner, hold))
}

fn is_held_alone(key: u64, owner: Sid, hold: &HoldRow) -> bool
    ensures { result ≡ (is_hold key owner hold.now && same_mode hold.now.mode Mode.Exclusive) }
{
    is_hold(key, owner, hold) && is_same_mode(hold.mode, Mode::Exclusive)
}

fn holds_alone(lists: &Lists, key: u64, owner: Sid) -> bool
    ensures { result ≡ list_any (λ hold. is_hold key owner hold && same_mode hold.mode Mode.Exclusive) (filter (is_hold_of key) lists.now.holds.items) }
{
    lists
        .holds
        .iter()
        .filter(|hold| view::is_hold_of(key, hold))
        .any(|hold| is_held_alone(key, owner, hold))
}

fn frees_opens(lists: &Lists, change: Change, of: u32) -> bool
    ensures { result ≡ frees_opens change of (file_view of (view (table_of lists.now))) }
{
    match change {
        Change::DropOpen { file, id } => file == of && has_open(lists, of, id),
        Change::Acknowledge { file, .. } => file == of,
        Change::Settle => some_open_will_go(lists, of),
        _ => false,
    }
}

fn frees_ranges(lists: &Lists, change: Change, of: u32) -> bool
    ensures { result ≡ frees_ranges change of (file_view of (view (table_of lists.now))) }
{
    match change {
        Change::DropOpen { file, id } => file == of && has_range(lists, of, id),
        Change::DropRange(range) => has_same_range(lists, of, &range),
        Change::Settle => some_range_will_go(lists, of),
        _ => false,
    }
}

fn frees_lock(lists: &Lists, change: Change, of: u64) -> bool
    ensures { result ≡ frees_lock change of (view (table_of lists.now)) }
{
    match change {
        Change::DropHold { key, owner } => key == of && has_hold(lists, of, owner),
        Change::SetHold {
            key,
            owner,
            mode: Mode::Shared,
        } => key == of && holds_alone(lists, of, owner),
        _ => false,
    }
}

fn frees(lists: &Lists, change: Change, spot: Spot) -> bool
    ensures { result ≡ frees change spot (view (table_of lists.now)) }
{
    match spot {
        Spot::OpenOf(file) => frees_opens(lists, change, file),
        Spot::RangesOf(file) => frees_ranges(lists, change, file),
        Spot::LockOf(key) => frees_lock(lists, change, key),
    }
}

// ---- spots that are judged by one change after another

fn not_freed(spot: Spot) -> Candidate
    ensures { result ≡ judge (λ _. false) spot }
{
    Candidate { spot, freed: false }
}

/// The spots, none of them freed so far.
pub(crate) fn candidates(alloc: Global, spots: &[Spot]) -> Result<Vec<Candidate>, OutOfMemory>
    ensures { IfOk result (λ fresh. fresh.items ≡ map (judge (λ _. false)) spots.now) }
{
    Ok(spots.iter().map(|spot| not_freed(*spot)).collect(alloc)?)
}

fn judge(lists: &Lists, change: Change, candidate: Candidate) -> Candidate
    ensures { result ≡ judge_too (λ spot. frees change spot (view (table_of lists.now))) candidate }
{
    Candidate {
        spot: candidate.spot,
        freed: candidate.freed || frees(lists, change, candidate.spot),
    }
}

fn judge_all(lists: &Lists, change: Change, candidates: &mut Vec<Candidate>)
    ensures items { candidates.new.items ≡ map (judge_too (λ spot. frees change spot (view (table_of lists.now)))) candidates.old.items }
    ensures len { vec_len candidates.new ≡ vec_len candidates.old }
{
    for candidate in candidates.iter_mut() {
        *candidate = judge(lists, change, *candidate);
    }
}

impl Lists {
    /// Makes the changes one after another, and judges which of the spots they free.
    pub(crate) fn carry_out(
        &mut self,
        scope: Scope,
        changes: &[Change],
        candidates: &mut Vec<Candidate>,
    )
        requires made { IsTrue (list_all is_made changes.now) }
        requires room { HasRoom self.old (length changes.now) }
        requires enough { AreEnough scope changes.now (table_of self.old) }
        requires fresh { (spots : List Spot) × (candidates.old.items ≡ map (judge (λ _. false)) spots) }
        ensures table { table_of self.new ≡ perform_all changes.now (table_of self.old) }
        ensures judged { (spots : List Spot) → candidates.old.items ≡ map (judge (λ _. false)) spots → candidates.new.items ≡ map (judge (some_frees changes.now (view (table_of self.old)))) spots }
        ensures len { vec_len candidates.new ≡ vec_len candidates.old }
        ensures room { (more : ℕ) → HasRoom self.old (length changes.now + more) → HasRoom self.new more }
        ensures waiters { vec_len self.new.waiters ≤ vec_len self.old.waiters + length changes.now }
    {
        for change in changes {
            judge_all(self, *change, candidates);
            self.perform(*change, scope);
        }
    }
}

// ---- who is woken

fn push_if_waiting(woken: &mut Vec<Watch>, spot: Spot, waiter: &WaiterRow)
    requires room { vec_len woken.old + 1 ≤ vec_capacity woken.old }
    ensures items { woken.new.items ≡ woken.old.items ++ (if waits_on spot waiter.now then watch_on spot waiter.now ∷ [] else []) }
    ensures len { vec_len woken.new ≤ vec_len woken.old + 1 }
    ensures room { vec_capacity woken.new ≡ vec_capacity woken.old }
{
    if view::waits_on(spot, waiter) {
        woken.push_reserved(view::watch_on(spot, waiter));
    }
}

fn push_watches(woken: &mut Vec<Watch>, waiters: &[WaiterRow], spot: Spot)
    requires room { vec_len woken.old + length waiters.now ≤ vec_capacity woken.old }
    ensures items { woken.new.items ≡ woken.old.items ++ map (watch_on spot) (filter (waits_on spot) waiters.now) }
    ensures len { vec_len woken.new ≤ vec_len woken.old + length waiters.now }
    ensures room { vec_capacity woken.new ≡ vec_capacity woken.old }
{
    for waiter in waiters {
        push_if_waiting(woken, spot, waiter);
    }
}

fn push_if_freed(woken: &mut Vec<Watch>, waiters: &[WaiterRow], candidate: Candidate)
    requires room { vec_len woken.old + length waiters.now ≤ vec_capacity woken.old }
    ensures items { woken.new.items ≡ woken.old.items ++ freed_watches waiters.now candidate }
    ensures len { vec_len woken.new ≤ vec_len woken.old + length waiters.now }
    ensures room { vec_capacity woken.new ≡ vec_capacity woken.old }
{
    if candidate.freed {
        push_watches(woken, waiters, candidate.spot);
    }
}

/// Adds who waits on the spots that are freed, one spot after another.
pub(crate) fn push_woken(woken: &mut Vec<Watch>, waiters: &[WaiterRow], candidates: &[Candidate])
    requires room { vec_len woken.old + length candidates.now * length waiters.now ≤ vec_capacity woken.old }
    ensures items { woken.new.items ≡ woken.old.items ++ flat_map (freed_watches waiters.now) candidates.now }
    ensures len { vec_len woken.new ≤ vec_len woken.old + length candidates.now * length waiters.now }
    ensures room { vec_capacity woken.new ≡ vec_capacity woken.old }
{
    for candidate in candidates {
        push_if_freed(woken, waiters, *candidate);
    }
}

pub(crate) fn wake(watch: &Watch) -> Post
    ensures { result ≡ wake watch.now }
{
    Post {
        to: watch.sid,
        letter: Letter::Wake { call: watch.call },
    }
}
