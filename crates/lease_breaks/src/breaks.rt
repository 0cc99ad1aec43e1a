ghost use Rattle.std.specs.Prelude.{◌≡◌, ◌==◌, Some, None, if◌then◌else◌};
ghost use Rattle.sid_core.specs.declared.ids.LeaseName.{LeaseName};
ghost use Rattle.sid_core.specs.Values.{IsMoment, is_part_of};
ghost use Rattle.serial_table.specs.File.{FileView};
ghost use Rattle.serial_table.specs.Break.{break_post, break_lease, breaks_at_once, breaks_read, begins_to_break, first_owner, connected_under};
ghost use Rattle.serial_table.specs.LeaseBreak.{breaks_of_owner, breaks_further_by, break_by_owner};
ghost use Rattle.record_codec.specs.LeaseRec.{IsLeaseRec};
ghost use Rattle.record_codec.specs.Counts.{Records};
ghost use Rattle.server_ids.specs.Sessions.{registered};
ghost use Rattle.record_rows.specs.Rows.{lease_row, breaking_of};
ghost use Rattle.lease_breaks.specs.Breaks.{first_connected, kept, Does};

use crate::states::{common_part, first_connected, hold, is_part_of, set_breaking};
use leases_db::{breaking_of, settle};
use record_codec::LeaseRec;
use serial_table::{Breaking, new_breaking};
use server_ids::Register;
use sid_core::{LeaseName, LeaseState, Letter, Moment, Post, Sid};

/// What a break comes to beside the record: the letter that is posted, and the session that is waited for.
#[derive(Clone, Copy)]
pub struct Broken {
    pub post: Option<Post>,
    pub blocks: Option<Sid>,
}

fn kept(bits: LeaseState) -> LeaseState
    ensures { result.0 ≡ kept bits }
{
    if bits == LeaseState::HANDLE {
        LeaseState(5)
    } else if bits == LeaseState::WRITE {
        LeaseState(3)
    } else {
        LeaseState(0)
    }
}

fn break_post(name: LeaseName, rec: &LeaseRec, to: Sid, target: LeaseState, ack: bool) -> Post
    ensures { result ≡ break_post rec.now.file to (lease_row name rec.now) target.0 ack }
{
    Post {
        to,
        letter: Letter::Break {
            file: rec.file,
            key: name.key,
            from: rec.held,
            to: target,
            ack,
        },
    }
}

fn breaks_at_once(rec: &mut LeaseRec, register: &Register, target: LeaseState) -> Broken
    ensures { (name : LeaseName) → Does (registered register.now) (breaks_at_once rec.old.file (lease_row name rec.old) target.0) result rec.old rec.new }
{
    hold(rec, target);
    settle(rec, register);
    Broken {
        post: None,
        blocks: None,
    }
}

fn breaks_read(name: LeaseName, rec: &mut LeaseRec, to: Sid, target: LeaseState) -> Broken
    ensures { (records : Records) → Does records (breaks_read rec.old.file to (lease_row name rec.old) target.0) result rec.old rec.new }
{
    let post = break_post(name, rec, to, target, false);
    hold(rec, target);
    Broken {
        post: Some(post),
        blocks: None,
    }
}

/// The moment at which a break that is made now counts as acknowledged.
fn begins_to_break(
    name: LeaseName,
    rec: &mut LeaseRec,
    now: Moment,
    to: Sid,
    target: LeaseState,
) -> Broken
    ensures { (records : Records) → Does records (begins_to_break now rec.old.file to (lease_row name rec.old) target.0) result rec.old rec.new }
{
    let post = break_post(name, rec, to, target, true);
    set_breaking(rec, new_breaking(now, target));
    Broken {
        post: Some(post),
        blocks: Some(to),
    }
}

fn is_read(held: LeaseState) -> bool
    ensures { result ≡ (held.0 == 1) }
{
    held == LeaseState::READ
}

fn breaks_of_owner(
    name: LeaseName,
    rec: &mut LeaseRec,
    register: &Register,
    now: Moment,
    to: Option<Sid>,
    target: LeaseState,
) -> Broken
    ensures { Does (registered register.now) (breaks_of_owner now rec.old.file to (lease_row name rec.old) target.0) result rec.old rec.new }
{
    match to {
        None => breaks_at_once(rec, register, target),
        Some(to) => {
            if is_read(rec.held) {
                breaks_read(name, rec, to, target)
            } else {
                begins_to_break(name, rec, now, to, target)
            }
        }
    }
}

fn blocker(held: LeaseState, kept: LeaseState, to: Option<Sid>) -> Option<Sid>
    ensures { result ≡ (if is_part_of held.0 kept.0 then None else to) }
{
    if is_part_of(held, kept) { None } else { to }
}

// It is breaking already.
fn breaks_further(
    rec: &mut LeaseRec,
    breaking: Breaking,
    to: Option<Sid>,
    kept: LeaseState,
) -> Broken
    ensures { (records : Records) (name : LeaseName) → Does records (breaks_further_by rec.old.file to (lease_row name rec.old) breaking kept.0) result rec.old rec.new }
{
    let needed = common_part(breaking.needed, kept);
    let blocks = blocker(rec.held, kept, to);
    set_breaking(rec, Breaking { needed, ..breaking });
    Broken { post: None, blocks }
}

/// Breaks all bits but those kept. `to` is the owner of the first open of the lease that is connected.
pub(crate) fn break_by_owner(
    name: LeaseName,
    rec: &mut LeaseRec,
    register: &Register,
    now: Moment,
    to: Option<Sid>,
    kept: LeaseState,
) -> Broken
    ensures { Does (registered register.now) (break_by_owner now rec.old.file to kept.0 (lease_row name rec.old) (breaking_of rec.old)) result rec.old rec.new }
{
    match breaking_of(rec) {
        Some(breaking) => breaks_further(rec, breaking, to, kept),
        None => {
            if is_part_of(rec.held, kept) {
                Broken {
                    post: None,
                    blocks: None,
                }
            } else {
                let target = common_part(rec.held, kept);
                breaks_of_owner(name, rec, register, now, to, target)
            }
        }
    }
}

/// Breaks HANDLE, WRITE or all three bits of the lease ([MS-SMB2] 3.3.4.7), as the table does of a file that shows the lease with this first
/// connected open. A break that has to be acknowledged counts as acknowledged after 35 seconds. Takes no memory.
pub fn break_lease(
    name: LeaseName,
    rec: &mut LeaseRec,
    register: &Register,
    bits: LeaseState,
    now: Moment,
) -> Broken
    ensures table { (f : FileView) → first_owner (connected_under f name) ≡ first_connected (registered register.now) rec.old → Does (registered register.now) (break_lease now rec.old.file f (kept bits) (lease_row name rec.old)) result rec.old rec.new }
    ensures sets { IsLeaseRec rec.old → IsMoment now.0 → IsLeaseRec rec.new }
{
    let to = first_connected(register, rec);
    break_by_owner(name, rec, register, now, to, kept(bits))
}
