ghost use Rattle.std.specs.Prelude.{Some, ◌≡◌, ◌<◌, ◌+◌, ◌^◌, ◌++◌, ◌∷◌, [], ℕ, length, if◌then◌else◌, IfOk, OnOk};
ghost use Rattle.serial_table.specs.Asked.{asked_of};
ghost use Rattle.sid_core.specs.Values.{IsU32, IsState, is_part_of};
ghost use Rattle.serial_table.specs.File.{FileView};
ghost use Rattle.serial_table.specs.Local.{perform_all_in_file};
ghost use Rattle.serial_table.specs.Grant.{grant_lease, is_durable};
ghost use Rattle.record_codec.specs.LeaseRec.{IsLeaseRec, IsLeaseRef};
ghost use Rattle.record_rows.specs.Rows.{lease_row};
ghost use Rattle.leases_db.specs.Refs.{refs_of};
ghost use Rattle.leases_db.specs.Granted.{OpenAsk, asked_name, AsksLease, IsRecord};
ghost use Rattle.leases_db.specs.Granting.{may_hold, new_lease, old_lease, lease_with, lease_by, stays_durable, new_ref, with_ref};

use bitflags::Flags;
use record_codec::{LeaseRec, LeaseRef};
use sid_core::{Items, LeaseState, OpenId, OutOfMemory, Sid};
use std::alloc::Global;

const ALL_BUT_WRITE: u8 = 3;

// ---- the lease

fn may_hold(alone: bool, state: LeaseState) -> LeaseState
    ensures { result.0 ≡ may_hold alone state }
{
    if alone {
        state
    } else {
        LeaseState(state.0 & ALL_BUT_WRITE)
    }
}

fn new_lease(alloc: Global, file: u32, may: LeaseState) -> LeaseRec
    ensures { result ≡ new_lease file may.0 }
{
    LeaseRec {
        file,
        held: may,
        breaking: false,
        asked: LeaseState(0),
        needed: LeaseState(0),
        until: 0,
        refs: Items::new(alloc),
    }
}

fn is_part_of(part: LeaseState, whole: LeaseState) -> bool
    ensures { result ≡ is_part_of part.0 whole.0 }
{
    part.0 & whole.0 == part.0
}

fn old_lease(mut rec: LeaseRec, state: LeaseState, may: LeaseState) -> LeaseRec
    ensures { result ≡ old_lease state may.0 rec }
{
    if !rec.breaking && is_part_of(rec.held, state) {
        rec.held = LeaseState(rec.held.0 | may.0);
    }
    rec
}

fn lease_with(
    alloc: Global,
    rec: LeaseRec,
    file: u32,
    state: LeaseState,
    may: LeaseState,
) -> LeaseRec
    ensures { result ≡ lease_with file state may.0 rec rec.refs }
{
    if rec.refs.is_empty() {
        new_lease(alloc, file, may)
    } else {
        old_lease(rec, state, may)
    }
}

fn lease_by(
    alloc: Global,
    rec: Option<LeaseRec>,
    file: u32,
    state: LeaseState,
    may: LeaseState,
) -> LeaseRec
    ensures { result ≡ lease_by file state may.0 rec }
{
    match rec {
        Some(rec) => lease_with(alloc, rec, file, state, may),
        None => new_lease(alloc, file, may),
    }
}

// ---- the open

fn stays_durable(rec: &LeaseRec, durable: u32) -> bool
    ensures { result ≡ stays_durable durable rec.now }
{
    durable != 0 && (rec.held.intersects(LeaseState::HANDLE) && !rec.breaking)
}

fn new_ref(id: OpenId, owner: Sid, durable: u32, is_durable: bool) -> LeaseRef
    ensures { result ≡ new_ref id owner durable is_durable }
{
    LeaseRef {
        id,
        owner,
        durable: if is_durable { durable } else { 0 },
    }
}

fn with_ref(mut rec: LeaseRec, new: LeaseRef) -> Result<LeaseRec, OutOfMemory>
    ensures { IfOk result (λ r. r ≡ with_ref new rec) }
{
    rec.refs.push(new)?;
    Ok(rec)
}

/// What an `open` is granted that nothing stands in the way of, with its reference last; and whether it is durable. The lease is new where
/// the record has no reference, since each counts here. `durable` is in seconds, and 0 where none are asked. `alone` says that no open that
/// isn't stat is beside it, under another lease or none ([MS-SMB2] 3.3.5.9.8; which opens count as stat is this project's own).
pub fn grant(
    alloc: Global,
    rec: Option<LeaseRec>,
    file: u32,
    asked: LeaseState,
    alone: bool,
    id: OpenId,
    owner: Sid,
    durable: u32,
) -> Result<(LeaseRec, bool), OutOfMemory>
    ensures lease { IfOk result (λ granted. (f : FileView) (o : OpenAsk) → AsksLease rec file asked alone durable f o → lease_row (asked_name o) granted.0 ∷ [] ≡ (perform_all_in_file (grant_lease f (asked_of o.caller file o.access o.share (Some o.ask) durable o.overwrite o.delete) (asked_name o)).changes f).leases (asked_name o)) }
    ensures durable { IfOk result (λ granted. (f : FileView) (o : OpenAsk) → AsksLease rec file asked alone durable f o → granted.1 ≡ is_durable (asked_of o.caller file o.access o.share (Some o.ask) durable o.overwrite o.delete) (grant_lease f (asked_of o.caller file o.access o.share (Some o.ask) durable o.overwrite o.delete) (asked_name o))) }
    ensures refs { IfOk result (λ granted. granted.0.refs ≡ refs_of rec ++ new_ref id owner durable granted.1 ∷ []) }
    ensures sets { IfOk result (λ granted. IsRecord rec → IsU32 file → IsState asked.0 → IsLeaseRef (new_ref id owner durable granted.1) → length (refs_of rec) + 1 < 2 ^ 32 → IsLeaseRec granted.0) }
{
    let lease = lease_by(alloc, rec, file, asked, may_hold(alone, asked));
    let is_durable = stays_durable(&lease, durable);
    let granted = with_ref(lease, new_ref(id, owner, durable, is_durable))?;
    Ok((granted, is_durable))
}
