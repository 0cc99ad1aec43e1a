ghost use Rattle.std.specs.Prelude.{◌≡◌, filter, not, ◌&&◌, ◌||◌, ◌==◌, [], map, if◌then◌else◌};
ghost use Rattle.std.specs.List.{list_any};
ghost use Rattle.sid_core.specs.declared.ids.LeaseName.{LeaseName};
ghost use Rattle.sid_core.specs.Values.{has};
ghost use Rattle.serial_table.specs.File.{FileView};
ghost use Rattle.serial_table.specs.Settle.{settle_file};
ghost use Rattle.record_codec.specs.Counts.{is_connected, is_unanswered, settled_refs, with_refs};
ghost use Rattle.record_codec.specs.LeaseRec.{IsLeaseRec};
ghost use Rattle.server_ids.specs.Sessions.{registered};
ghost use Rattle.leases_db.specs.Breaks.{broken};
ghost use Rattle.leases_db.specs.Rows.{lease_rows, told_under, told_by_ref, HasLease};

use bitflags::Flags;
use record_codec::{LeaseRec, LeaseRef};
use server_ids::{Register, living};
use sid_core::{Items, LeaseState};
use std::mem;

pub(crate) fn take(refs: &mut Items<LeaseRef>) -> Vec<LeaseRef>
    ensures taken { result.items ≡ refs.old }
    ensures emptied { refs.new ≡ [] }
{
    let alloc = refs.allocator();
    mem::replace(refs, Items::new(alloc)).into_vec()
}

// ---- a break that nobody can acknowledge

fn is_connected(register: &Register, lease_ref: &LeaseRef) -> bool
    ensures { result ≡ is_connected (registered register.now) lease_ref.now }
{
    living(register, lease_ref.owner)
}

fn some_connected(register: &Register, refs: &[LeaseRef]) -> bool
    ensures { result ≡ list_any (is_connected (registered register.now)) refs.now }
{
    refs.iter()
        .any(|lease_ref| is_connected(register, lease_ref))
}

fn is_unanswered(register: &Register, rec: &LeaseRec) -> bool
    ensures { result ≡ is_unanswered (registered register.now) rec.now }
{
    rec.breaking && !some_connected(register, rec.refs.as_slice())
}

/// The break is over, with what was needed.
pub(crate) fn end_break(rec: &mut LeaseRec)
    ensures { rec.new ≡ broken rec.old }
{
    rec.held = rec.needed;
    rec.breaking = false;
    rec.asked = LeaseState(0);
    rec.needed = LeaseState(0);
    rec.until = 0;
}

fn end_unanswered(rec: &mut LeaseRec, register: &Register)
    ensures { rec.new ≡ (if is_unanswered (registered register.now) rec.old then broken rec.old else rec.old) }
{
    if is_unanswered(register, rec) {
        end_break(rec);
    }
}

// ---- references

fn counts(register: &Register, has_handle: bool, lease_ref: &LeaseRef) -> bool
    ensures { result ≡ (is_connected (registered register.now) lease_ref.now || (not (lease_ref.now.durable == 0) && has_handle)) }
{
    is_connected(register, lease_ref) || (lease_ref.durable != 0 && has_handle)
}

fn keep_counted(refs: &mut Vec<LeaseRef>, register: &Register, has_handle: bool)
    ensures { refs.new.items ≡ filter (λ ref. is_connected (registered register.now) ref || (not (ref.durable == 0) && has_handle)) refs.old.items }
{
    refs.retain(|lease_ref| counts(register, has_handle, lease_ref));
}

fn drop_stale(rec: &mut LeaseRec, register: &Register)
    ensures { rec.new ≡ record rec.old { refs = filter (λ ref. is_connected (registered register.now) ref || (not (ref.durable == 0) && has rec.old.held.0 2)) rec.old.refs } }
{
    let has_handle = rec.held.intersects(LeaseState::HANDLE);
    let mut refs = take(&mut rec.refs);
    keep_counted(&mut refs, register, has_handle);
    rec.refs = Items::from_vec(refs);
}

/// Where the lease is breaking and no reference is connected, it takes what is needed. Then the references go that don't count: those of
/// ended sessions, but for durable ones while the lease has HANDLE. A record that is left without references stands for no lease. Takes
/// no memory.
pub fn settle(rec: &mut LeaseRec, register: &Register)
    ensures record { rec.new ≡ with_refs (registered register.now) rec.old (settled_refs (registered register.now) rec.old) }
    ensures leases { (name : LeaseName) (f : FileView) → HasLease register.now name rec.old f → (settle_file f).leases name ≡ lease_rows name rec.new }
    ensures opens { (name : LeaseName) (f : FileView) → HasLease register.now name rec.old f → told_under name (settle_file f) ≡ map (told_by_ref register.now) rec.new.refs }
    ensures sets { IsLeaseRec rec.old → IsLeaseRec rec.new }
{
    end_unanswered(rec, register);
    drop_stale(rec, register);
}
