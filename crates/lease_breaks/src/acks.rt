ghost use Rattle.std.specs.Prelude.{◌≡◌, Some};
ghost use Rattle.sid_core.specs.Values.{IsMoment, IsState};
ghost use Rattle.serial_table.specs.File.{FileView};
ghost use Rattle.serial_table.specs.Break.{first_owner, connected_under};
ghost use Rattle.serial_table.specs.Ack.{ack_lease};
ghost use Rattle.record_codec.specs.LeaseRec.{IsLeaseRec};
ghost use Rattle.server_ids.specs.Sessions.{registered};
ghost use Rattle.record_rows.specs.Rows.{lease_row, breaking_of};
ghost use Rattle.lease_breaks.specs.Breaks.{first_connected};
ghost use Rattle.lease_breaks.specs.Acks.{ack_by_owner, accept_by_owner, Answers};

use crate::breaks::break_by_owner;
use crate::states::{first_connected, hold, is_part_of};
use leases_db::{breaking_of, settle};
use record_codec::LeaseRec;
use serial_table::Breaking;
use server_ids::Register;
use sid_core::{LeaseName, LeaseState, Moment, Post};

/// How an acknowledgement is answered ([MS-SMB2] 3.3.5.22.2).
#[derive(Clone, Copy)]
pub enum Acked {
    /// The lease isn't breaking.
    Unsuccessful,
    /// The state is no part of what is asked, which is this.
    NotAccepted { asked: LeaseState },
    /// The break is over. The letter is posted where more is needed by now than was acknowledged.
    Taken { post: Option<Post> },
}

fn accept(
    name: LeaseName,
    rec: &mut LeaseRec,
    register: &Register,
    now: Moment,
    state: LeaseState,
    needed: LeaseState,
) -> Acked
    ensures { Answers (registered register.now) (accept_by_owner now (first_connected (registered register.now) rec.old) (lease_row name rec.old) state needed) result rec.old rec.new }
{
    hold(rec, state);
    let to = first_connected(register, rec);
    let again = break_by_owner(name, rec, register, now, to, needed);
    settle(rec, register);
    Acked::Taken { post: again.post }
}

fn ack_breaking(
    name: LeaseName,
    rec: &mut LeaseRec,
    register: &Register,
    now: Moment,
    state: LeaseState,
    breaking: Breaking,
) -> Acked
    requires { breaking_of rec.old ≡ Some breaking }
    ensures { Answers (registered register.now) (ack_by_owner now (first_connected (registered register.now) rec.old) (lease_row name rec.old) state (Some breaking)) result rec.old rec.new }
{
    if is_part_of(state, breaking.asked) {
        accept(name, rec, register, now, state, breaking.needed)
    } else {
        Acked::NotAccepted {
            asked: breaking.asked,
        }
    }
}

/// Acknowledges the break of the lease: it holds the state then, and all that isn't needed is broken again at once. Then it settles.
/// Takes no memory.
pub fn acknowledge(
    name: LeaseName,
    rec: &mut LeaseRec,
    register: &Register,
    state: LeaseState,
    now: Moment,
) -> Acked
    ensures table { (f : FileView) → first_owner (connected_under f name) ≡ first_connected (registered register.now) rec.old → Answers (registered register.now) (ack_lease now f (lease_row name rec.old) state (breaking_of rec.old)) result rec.old rec.new }
    ensures sets { IsLeaseRec rec.old → IsMoment now.0 → IsState state.0 → IsLeaseRec rec.new }
{
    match breaking_of(rec) {
        None => Acked::Unsuccessful,
        Some(breaking) => ack_breaking(name, rec, register, now, state, breaking),
    }
}
