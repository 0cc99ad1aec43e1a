ghost use Rattle.std.specs.Prelude.{◌≡◌, ◌&&◌, not, find, ℕ};
ghost use Rattle.std.specs.List.{list_any};
ghost use Rattle.sid_core.specs.Ids.{same_sid};
ghost use Rattle.g_lock.specs.Scans.{is_own, is_in_the_way, is_upgrade_beside, is_exclusive};

use record_codec::{Hold, WatchRec};
use record_watch::{Mails, counts_on};
use server_ids::{Register, living};
use sid_core::{Mode, Sid, Spot};

pub(crate) fn is_own(sid: Sid, hold: &Hold) -> bool
    ensures { result ≡ is_own sid hold.now }
{
    hold.sid == sid
}

fn is_exclusive(mode: Mode) -> bool
    ensures { result ≡ is_exclusive mode }
{
    match mode {
        Mode::Shared => false,
        Mode::Exclusive => true,
    }
}

fn is_in_the_way(register: &Register, sid: Sid, mode: Mode, hold: &Hold) -> bool
    ensures { result ≡ is_in_the_way register.now sid mode hold.now }
{
    !is_own(sid, hold)
        && (is_exclusive(hold.mode) || is_exclusive(mode))
        && living(register, hold.sid)
}

/// The first hold of another session that lives that keeps this one from the mode.
pub(crate) fn first_in_the_way(
    holds: &[Hold],
    register: &Register,
    sid: Sid,
    mode: Mode,
) -> Option<Hold>
    ensures { result ≡ find (is_in_the_way register.now sid mode) holds.now }
{
    holds
        .iter()
        .copied()
        .find(|hold| is_in_the_way(register, sid, mode, hold))
}

/// The session's own hold.
pub(crate) fn own_hold(holds: &[Hold], sid: Sid) -> Option<Hold>
    ensures { result ≡ find (is_own sid) holds.now }
{
    holds.iter().copied().find(|hold| is_own(sid, hold))
}

fn is_upgrade_beside(mails: &Mails, key: u64, sid: Sid, watch: &WatchRec) -> bool
    ensures { result ≡ is_upgrade_beside mails.now key sid watch.now }
{
    watch.upgrade && watch.sid != sid && counts_on(mails, Spot::LockOf(key), watch)
}

/// The first call of another session that waits to hold the lock alone that it shares.
pub(crate) fn first_upgrade_beside(
    watchers: &[WatchRec],
    mails: &Mails,
    key: u64,
    sid: Sid,
) -> Option<WatchRec>
    ensures { result ≡ find (is_upgrade_beside mails.now key sid) watchers.now }
{
    watchers
        .iter()
        .copied()
        .find(|watch| is_upgrade_beside(mails, key, sid, watch))
}
