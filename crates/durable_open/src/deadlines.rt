ghost use Rattle.std.specs.Prelude.{◌≡◌, ◌+◌, ℕ, Some, None, false, nat_le, nat_lt, find, if◌then◌else◌};
ghost use Rattle.std.specs.Option.{option_map, option_map_or};
ghost use Rattle.serial_table.specs.View.{View};
ghost use Rattle.serial_table.specs.Sound.{is_durable};
ghost use Rattle.serial_table.specs.Durable as table;
ghost use Rattle.record_rows.specs.Rows.{open_row};
ghost use Rattle.durable_open.specs.Deadlines.{sessions_of, ShowsSessions};

use record_codec::ShareEntry;
use server_ids::{Register, dead_since, living};
use sid_core::{Moment, OpenId};

/// The id by which the open can be taken up again, where it is durable.
pub fn cookie(entry: ShareEntry) -> Option<OpenId>
    ensures { (file : ℕ) → result ≡ (if is_durable (open_row file entry) then Some entry.id else None) }
{
    if entry.durable != 0 {
        Some(entry.id)
    } else {
        None
    }
}

// Whether so many seconds have passed since it ended. The sum may be beyond 64 bits.
fn have_passed(ended: Moment, seconds: u32, now: Moment) -> bool
    ensures { result ≡ nat_le (ended.0 + seconds) now.0 }
{
    match now.0.checked_sub(ended.0) {
        Some(passed) => seconds as u64 <= passed,
        None => false,
    }
}

fn has_come(ended: Option<Moment>, seconds: u32, now: Moment) -> bool
    ensures { result ≡ option_map_or (λ last. nat_le last now.0) (option_map (λ moment. moment.0 + seconds) ended) false }
{
    match ended {
        Some(ended) => have_passed(ended, seconds, now),
        None => false,
    }
}

fn is_to_come(ended: Option<Moment>, seconds: u32, now: Moment) -> bool
    ensures { result ≡ option_map_or (nat_lt now.0) (option_map (λ moment. moment.0 + seconds) ended) false }
{
    match ended {
        Some(ended) => !have_passed(ended, seconds, now),
        None => false,
    }
}

pub(crate) fn is_expired(entry: &ShareEntry, register: &Register, now: Moment) -> bool
    ensures { (file : ℕ) → result ≡ table.is_expired (sessions_of register.now) now (open_row file entry.now) }
{
    !living(register, entry.owner)
        && has_come(dead_since(register, entry.owner), entry.durable, now)
}

pub(crate) fn can_be_taken(entry: &ShareEntry, register: &Register, now: Moment) -> bool
    ensures { (file : ℕ) → result ≡ table.can_be_taken (sessions_of register.now) now (open_row file entry.now) }
{
    !living(register, entry.owner)
        && is_to_come(dead_since(register, entry.owner), entry.durable, now)
}

/// Whether the open is disconnected and its deadline is at or below the moment: the moment at which its owner's session ended, and its
/// durable seconds later. Whether it counts isn't looked at.
pub fn expired(entry: ShareEntry, register: &Register, now: Moment) -> bool
    ensures { (v : View) (file : ℕ) → ShowsSessions register.now v entry.owner.pid → result ≡ table.is_expired v now (open_row file entry) }
{
    is_expired(&entry, register, now)
}
