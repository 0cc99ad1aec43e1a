ghost use Rattle.std.specs.Prelude.{◌≡◌, List, ◌∷◌, [], ◌&&◌, not, IfOk, false, filter, find};
ghost use Rattle.std.specs.List.{list_any};
ghost use Rattle.sid_core.specs.Ids.{same_sid};
ghost use Rattle.serial_table.specs.declared.rows.HoldRow.{HoldRow};
ghost use Rattle.serial_table.specs.View.{view, is_hold_of};
ghost use Rattle.serial_table.specs.GlobalLock.{own_holds, other_holds, keeps_out, other_upgrades, granted_by, lock_waiter, wait_for_lock, lower, raise, change_hold, gain_hold, glock_by, glock, gunlock_by, gunlock};

use crate::change::Change;
use crate::decision::{self, Caller, Decision, no_longer_waits};
use crate::range::is_exclusive;
use crate::rows::{HoldRow, WaiterRow, Watch};
use crate::table::Table;
use crate::view;
use sid_core::{Items, Mode, OutOfMemory, Reply, Sid, Spot};
use std::alloc::Global;

/// What a `glock` asks for, and whether it waits where it isn't granted.
#[derive(Clone, Copy)]
struct AskedHold {
    key: u64,
    mode: Mode,
    wait: bool,
}

// ---- whose holds

fn is_own(caller: &Caller, hold: &HoldRow) -> bool
    ensures { result ≡ same_sid hold.now.owner caller.now.sid }
{
    hold.owner == caller.sid
}

fn own_hold(table: &Table, caller: &Caller, key: u64) -> Option<HoldRow>
    ensures { result ≡ find (λ hold. same_sid hold.owner caller.now.sid) (filter (is_hold_of key) table.now.holds) }
{
    table
        .holds
        .as_slice()
        .iter()
        .filter(|hold| view::is_hold_of(key, hold))
        .copied()
        .find(|hold| is_own(caller, hold))
}

fn keeps_out(mode: Mode, hold: &HoldRow) -> bool
    ensures { result ≡ keeps_out mode hold.now }
{
    is_exclusive(hold.mode) || is_exclusive(mode)
}

fn hold_in_the_way(table: &Table, caller: &Caller, key: u64, mode: Mode) -> Option<HoldRow>
    ensures { result ≡ find (keeps_out mode) (other_holds (view table.now) caller.now key) }
{
    table
        .holds
        .as_slice()
        .iter()
        .filter(|hold| view::is_hold_of(key, hold))
        .filter(|hold| !is_own(caller, hold))
        .copied()
        .find(|hold| keeps_out(mode, hold))
}

fn is_other_upgrade(caller: &Caller, watch: &Watch) -> bool
    ensures { result ≡ (watch.now.upgrade && not (same_sid watch.now.sid caller.now.sid)) }
{
    watch.upgrade && watch.sid != caller.sid
}

fn other_upgrades(table: &Table, caller: &Caller, key: u64) -> bool
    ensures { result ≡ other_upgrades (view table.now) caller.now key }
{
    table
        .waiters
        .as_slice()
        .iter()
        .filter(|waiter| view::waits_on(Spot::LockOf(key), waiter))
        .map(|waiter| view::watch_on(Spot::LockOf(key), waiter))
        .any(|watch| is_other_upgrade(caller, &watch))
}

// ---- what is decided

fn granted_by(alloc: Global, changes: Items<Change>) -> Decision
    ensures { result ≡ granted_by changes }
{
    Decision {
        changes,
        ..decision::only_reply(
            alloc,
            Reply::Granted {
                lease: None,
                durable: false,
            },
        )
    }
}

fn granted_one(alloc: Global, change: Change) -> Result<Decision, OutOfMemory>
    ensures { IfOk result (λ decision. decision ≡ granted_by (change ∷ [])) }
{
    Ok(granted_by(alloc, Items::from_vec(vec![in alloc; change]?)))
}

fn lock_waiter(caller: &Caller, key: u64, blocker: Sid, upgrade: bool) -> WaiterRow
    ensures { result ≡ lock_waiter caller.now key blocker upgrade }
{
    WaiterRow {
        sid: caller.sid,
        call: caller.number,
        spot: Spot::LockOf(key),
        blocker: Some(blocker),
        upgrade,
    }
}

fn wait_for_lock(alloc: Global, caller: &Caller, key: u64, blocker: Sid, upgrade: bool) -> Decision
    ensures { result ≡ wait_for_lock caller.now key blocker upgrade }
{
    Decision {
        waits: Some(lock_waiter(caller, key, blocker, upgrade)),
        ..decision::only_reply(alloc, Reply::Pending)
    }
}

fn lower(alloc: Global, caller: &Caller, key: u64) -> Result<Decision, OutOfMemory>
    ensures { IfOk result (λ decision. decision ≡ lower caller.now key) }
{
    let shared = Change::SetHold {
        key,
        owner: caller.sid,
        mode: Mode::Shared,
    };
    Ok(Decision {
        spots: Items::from_vec(vec![in alloc; Spot::LockOf(key)]?),
        ..granted_one(alloc, shared)?
    })
}

fn raise_behind(table: &Table, caller: &Caller, key: u64, wait: bool, first: &HoldRow) -> Decision
    ensures { (others : List HoldRow) → result ≡ raise (view table.now) caller.now key wait (first.now ∷ others) }
{
    let alloc = table.holds.allocator();
    if !wait {
        decision::only_reply(alloc, Reply::LockNotGranted)
    } else if other_upgrades(table, caller, key) {
        decision::only_reply(alloc, Reply::PossibleDeadlock)
    } else {
        wait_for_lock(alloc, caller, key, first.owner, true)
    }
}

fn raise(table: &Table, caller: &Caller, key: u64, wait: bool) -> Result<Decision, OutOfMemory>
    ensures { IfOk result (λ decision. decision ≡ raise (view table.now) caller.now key wait (other_holds (view table.now) caller.now key)) }
{
    match hold_in_the_way(table, caller, key, Mode::Exclusive) {
        Some(first) => Ok(raise_behind(table, caller, key, wait, &first)),
        None => granted_one(
            table.holds.allocator(),
            Change::SetHold {
                key,
                owner: caller.sid,
                mode: Mode::Exclusive,
            },
        ),
    }
}

fn change_hold(
    table: &Table,
    caller: &Caller,
    key: u64,
    wait: bool,
    held: Mode,
    asked: Mode,
) -> Result<Decision, OutOfMemory>
    ensures { IfOk result (λ decision. decision ≡ change_hold (view table.now) caller.now key wait held asked) }
{
    let alloc = table.holds.allocator();
    match (held, asked) {
        (Mode::Shared, Mode::Shared) => Ok(granted_by(alloc, Items::new(alloc))),
        (Mode::Exclusive, Mode::Exclusive) => Ok(granted_by(alloc, Items::new(alloc))),
        (Mode::Exclusive, Mode::Shared) => lower(alloc, caller, key),
        (Mode::Shared, Mode::Exclusive) => raise(table, caller, key, wait),
    }
}

fn wait_behind(alloc: Global, caller: &Caller, asked: &AskedHold, first: &HoldRow) -> Decision
    ensures { (others : List HoldRow) → result ≡ gain_hold caller.now asked.now.key asked.now.mode asked.now.wait (first.now ∷ others) }
{
    if asked.wait {
        wait_for_lock(alloc, caller, asked.key, first.owner, false)
    } else {
        decision::only_reply(alloc, Reply::LockNotGranted)
    }
}

fn gain_hold(table: &Table, caller: &Caller, asked: &AskedHold) -> Result<Decision, OutOfMemory>
    ensures { IfOk result (λ decision. decision ≡ gain_hold caller.now asked.now.key asked.now.mode asked.now.wait (filter (keeps_out asked.now.mode) (other_holds (view table.now) caller.now asked.now.key))) }
{
    let alloc = table.holds.allocator();
    match hold_in_the_way(table, caller, asked.key, asked.mode) {
        Some(first) => Ok(wait_behind(alloc, caller, asked, &first)),
        None => granted_one(
            alloc,
            Change::AddHold(HoldRow {
                owner: caller.sid,
                key: asked.key,
                mode: asked.mode,
            }),
        ),
    }
}

fn glock_by(table: &Table, caller: &Caller, asked: &AskedHold) -> Result<Decision, OutOfMemory>
    ensures { IfOk result (λ decision. decision ≡ glock_by (view table.now) caller.now asked.now.key asked.now.mode asked.now.wait (own_holds (view table.now) caller.now asked.now.key)) }
{
    match own_hold(table, caller, asked.key) {
        Some(own) => change_hold(table, caller, asked.key, asked.wait, own.mode, asked.mode),
        None => gain_hold(table, caller, asked),
    }
}

/// What a `glock` decides.
#[tactic(auto, unfolding(crate::specs::GlobalLock::glock))]
pub(crate) fn glock(
    table: &Table,
    caller: &Caller,
    key: u64,
    mode: Mode,
    wait: bool,
) -> Result<Decision, OutOfMemory>
    ensures { IfOk result (λ decision. decision ≡ glock (view table.now) caller.now key mode wait) }
{
    let decision = glock_by(table, caller, &AskedHold { key, mode, wait })?;
    no_longer_waits(table, caller, Spot::LockOf(key), decision)
}

fn drop_hold(alloc: Global, caller: &Caller, key: u64) -> Result<Decision, OutOfMemory>
    ensures { IfOk result (λ decision. (own : HoldRow) (others : List HoldRow) → decision ≡ gunlock_by caller.now key (own ∷ others)) }
{
    let dropped = Change::DropHold {
        key,
        owner: caller.sid,
    };
    Ok(Decision {
        changes: Items::from_vec(vec![in alloc; dropped]?),
        spots: Items::from_vec(vec![in alloc; Spot::LockOf(key)]?),
        ..decision::only_reply(alloc, Reply::Done)
    })
}

fn gunlock_by(table: &Table, caller: &Caller, key: u64) -> Result<Decision, OutOfMemory>
    ensures { IfOk result (λ decision. decision ≡ gunlock_by caller.now key (own_holds (view table.now) caller.now key)) }
{
    let alloc = table.holds.allocator();
    match own_hold(table, caller, key) {
        Some(_) => drop_hold(alloc, caller, key),
        None => Ok(decision::only_reply(alloc, Reply::ObjectNameNotFound)),
    }
}

/// What a `gunlock` decides.
#[tactic(auto, unfolding(crate::specs::GlobalLock::gunlock))]
pub(crate) fn gunlock(table: &Table, caller: &Caller, key: u64) -> Result<Decision, OutOfMemory>
    ensures { IfOk result (λ decision. decision ≡ gunlock (view table.now) caller.now key) }
{
    let decision = gunlock_by(table, caller, key)?;
    no_longer_waits(table, caller, Spot::LockOf(key), decision)
}
