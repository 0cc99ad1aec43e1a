ghost use Rattle.std.specs.Prelude.{◌≡◌, Some, None, bit_and};
ghost use Rattle.sid_core.specs.Values.{is_part_of};
ghost use Rattle.serial_table.specs.Break.{break_post, breaks_at_once, breaks_read, begins_to_break, until_of, new_breaking};
ghost use Rattle.serial_table.specs.LeaseBreak.{breaks_by, breaks_if_any, breaks_of_owner, breaks_further_by, break_by_owner};

use crate::rows::{Breaking, LeaseRow};
use sid_core::{LeaseState, Letter, Moment, Post, Sid};

/// How many seconds after a break it counts as acknowledged.
const BREAK_SECONDS: u64 = 35;

/// What breaking a lease comes to: what it holds and how it is breaking from now on, whether the file then settles, the letter that is
/// posted, and who is waited for.
#[derive(Clone, Copy)]
pub(crate) struct LeaseBreak {
    pub(crate) held: LeaseState,
    pub(crate) breaking: Option<Breaking>,
    pub(crate) settles: bool,
    pub(crate) post: Option<Post>,
    pub(crate) blocker: Option<Sid>,
}

pub(crate) fn is_part_of(part: LeaseState, whole: LeaseState) -> bool
    ensures { result ≡ is_part_of part.0 whole.0 }
{
    part.0 & whole.0 == part.0
}

fn common_part(a: LeaseState, b: LeaseState) -> LeaseState
    ensures { result.0 ≡ bit_and a.0 b.0 }
{
    LeaseState(a.0 & b.0)
}

fn break_post(file: u32, to: Sid, lease: &LeaseRow, target: LeaseState, ack: bool) -> Post
    ensures { result ≡ break_post file to lease.now target.0 ack }
{
    Post {
        to,
        letter: Letter::Break {
            file,
            key: lease.name.key,
            from: lease.held,
            to: target,
            ack,
        },
    }
}

fn breaks_at_once(file: u32, lease: &LeaseRow, target: LeaseState) -> LeaseBreak
    ensures { breaks_by file lease.now result ≡ breaks_at_once file lease.now target.0 }
{
    LeaseBreak {
        held: target,
        breaking: None,
        settles: true,
        post: None,
        blocker: None,
    }
}

fn breaks_read(file: u32, to: Sid, lease: &LeaseRow, target: LeaseState) -> LeaseBreak
    ensures { breaks_by file lease.now result ≡ breaks_read file to lease.now target.0 }
{
    LeaseBreak {
        held: target,
        breaking: None,
        settles: false,
        post: Some(break_post(file, to, lease, target, false)),
        blocker: None,
    }
}

/// The moment at which a break that is made now counts as acknowledged.
fn until_of(now: Moment) -> Moment
    ensures { result ≡ until_of now }
{
    Moment(now.0.saturating_add(BREAK_SECONDS))
}

/// A break that begins: down to this state, within the 35 seconds of Windows' lease break acknowledgment timer ([MS-SMB2] 3.3.2.5). The
/// moment at which they end is at most the last one of 64 bits.
pub fn new_breaking(now: Moment, target: LeaseState) -> Breaking
    ensures { result ≡ new_breaking now target.0 }
{
    Breaking {
        asked: target,
        needed: target,
        until: until_of(now),
    }
}

fn begins_to_break(
    now: Moment,
    file: u32,
    to: Sid,
    lease: &LeaseRow,
    target: LeaseState,
) -> LeaseBreak
    ensures { breaks_by file lease.now result ≡ begins_to_break now file to lease.now target.0 }
{
    LeaseBreak {
        held: lease.held,
        breaking: Some(new_breaking(now, target)),
        settles: false,
        post: Some(break_post(file, to, lease, target, true)),
        blocker: Some(to),
    }
}

fn breaks_to(now: Moment, file: u32, to: Sid, lease: &LeaseRow, target: LeaseState) -> LeaseBreak
    ensures { breaks_by file lease.now result ≡ breaks_of_owner now file (Some to) lease.now target.0 }
{
    if lease.held == LeaseState::READ {
        breaks_read(file, to, lease, target)
    } else {
        begins_to_break(now, file, to, lease, target)
    }
}

fn breaks_of_owner(
    now: Moment,
    file: u32,
    to: Option<Sid>,
    lease: &LeaseRow,
    target: LeaseState,
) -> LeaseBreak
    ensures { breaks_by file lease.now result ≡ breaks_of_owner now file to lease.now target.0 }
{
    match to {
        None => breaks_at_once(file, lease, target),
        Some(to) => breaks_to(now, file, to, lease, target),
    }
}

fn breaks_further(
    file: u32,
    to: Option<Sid>,
    lease: &LeaseRow,
    breaking: Breaking,
    kept: LeaseState,
) -> LeaseBreak
    ensures { breaks_by file lease.now result ≡ breaks_further_by file to lease.now breaking kept.0 }
{
    LeaseBreak {
        held: lease.held,
        breaking: Some(Breaking {
            needed: common_part(breaking.needed, kept),
            ..breaking
        }),
        settles: false,
        post: None,
        blocker: if is_part_of(lease.held, kept) {
            None
        } else {
            to
        },
    }
}

/// Breaks all bits of the lease but those kept. `to` is the owner of its first connected open.
pub(crate) fn break_by_owner(
    now: Moment,
    file: u32,
    to: Option<Sid>,
    kept: LeaseState,
    lease: &LeaseRow,
) -> Option<LeaseBreak>
    ensures { breaks_if_any file lease.now result ≡ break_by_owner now file to kept.0 lease.now lease.now.breaking }
{
    match lease.breaking {
        Some(breaking) => Some(breaks_further(file, to, lease, breaking, kept)),
        None => {
            if is_part_of(lease.held, kept) {
                None
            } else {
                Some(breaks_of_owner(now, file, to, lease, common_part(lease.held, kept)))
            }
        }
    }
}
