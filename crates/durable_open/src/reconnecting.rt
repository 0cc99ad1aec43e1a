ghost use Rattle.std.specs.Prelude.{◌≡◌, ◌&&◌, ◌||◌, ℕ, true, false, [], Option, map, if◌then◌else◌};
ghost use Rattle.std.specs.List.{list_any};
ghost use Rattle.sid_core.specs.declared.setup.Setup.{Setup};
ghost use Rattle.sid_core.specs.Values.{IsU32};
ghost use Rattle.serial_table.specs.View.{View, carries};
ghost use Rattle.serial_table.specs.Reconnect.{reconnect as decides};
ghost use Rattle.record_codec.specs.Counts.{entry_counts};
ghost use Rattle.record_codec.specs.Fields.{IsSid};
ghost use Rattle.record_codec.specs.LeaseRec.{IsLeaseRec};
ghost use Rattle.record_codec.specs.ShareRec.{IsShareRec};
ghost use Rattle.record_rows.specs.Rows.{open_row};
ghost use Rattle.durable_open.specs.Taking.{settled, can_take, is_taken, with_owner, taken_over, ref_taken_over, lease_taken_over, row_after};
ghost use Rattle.durable_open.specs.Naming.{recorded, caller_of, Names, answer};

use crate::deadlines::can_be_taken;
use crate::keeping::is_kept_by;
use leases_db::settle;
use record_codec::{LeaseRec, LeaseRef, ShareEntry, ShareRec};
use server_ids::Register;
use sid_core::{Items, LeaseName, Moment, OpenId, Sid};
use std::mem;

fn carries(name: LeaseName, lease: Option<LeaseName>) -> bool
    ensures { result ≡ carries name lease }
{
    match lease {
        Some(own) => own == name,
        None => false,
    }
}

/// The open that is taken up, and what it is judged by: its lease with the lease's name, its file, the moment, and the sessions.
#[derive(Clone, Copy)]
struct Wanted<'a> {
    id: OpenId,
    name: LeaseName,
    lease: &'a LeaseRec,
    file: u32,
    moment: Moment,
    register: &'a Register,
}

fn can_take(wanted: Wanted<'_>, entry: &ShareEntry) -> bool
    ensures { result ≡ can_take wanted.entry.register.now wanted.entry.lease.now wanted.entry.name wanted.entry.file wanted.entry.moment entry.now }
{
    can_be_taken(entry, wanted.register, wanted.moment)
        && (carries(wanted.name, entry.lease)
            && is_kept_by(wanted.register, wanted.lease, wanted.file, entry))
}

fn is_taken(wanted: Wanted<'_>, entry: &ShareEntry) -> bool
    ensures { result ≡ is_taken wanted.entry.register.now wanted.entry.lease.now wanted.entry.name wanted.entry.file wanted.entry.moment wanted.entry.id entry.now }
{
    entry.id == wanted.id && can_take(wanted, entry)
}

fn handed_over(taken: bool, owner: Sid, handle: u32, entry: ShareEntry) -> ShareEntry
    ensures { result ≡ (if taken then with_owner owner handle entry else entry) }
{
    if taken {
        ShareEntry {
            owner,
            handle,
            ..entry
        }
    } else {
        entry
    }
}

fn either(a: bool, b: bool) -> bool
    ensures { result ≡ (a || b) }
{
    a || b
}

fn take_over_entries(
    entries: &mut Vec<ShareEntry>,
    wanted: Wanted<'_>,
    owner: Sid,
    handle: u32,
) -> bool
    ensures found { result ≡ list_any (is_taken wanted.entry.register.now wanted.entry.lease.now wanted.entry.name wanted.entry.file wanted.entry.moment wanted.entry.id) entries.old.items }
    ensures entries { entries.new.items ≡ map (taken_over (is_taken wanted.entry.register.now wanted.entry.lease.now wanted.entry.name wanted.entry.file wanted.entry.moment wanted.entry.id) owner handle) entries.old.items }
{
    let mut found = false;
    for entry in entries.iter_mut() {
        let taken = is_taken(wanted, entry);
        *entry = handed_over(taken, owner, handle, *entry);
        found = either(found, taken);
    }
    found
}

pub(crate) fn take_entries(list: &mut Items<ShareEntry>) -> Vec<ShareEntry>
    ensures taken { result.items ≡ list.old }
    ensures emptied { list.new ≡ [] }
{
    let alloc = list.allocator();
    mem::replace(list, Items::new(alloc)).into_vec()
}

fn ref_taken_over(id: OpenId, owner: Sid, reference: LeaseRef) -> LeaseRef
    ensures { result ≡ ref_taken_over id owner reference }
{
    if reference.id == id {
        LeaseRef { owner, ..reference }
    } else {
        reference
    }
}

fn take_over_refs(refs: &mut Vec<LeaseRef>, id: OpenId, owner: Sid)
    ensures { refs.new.items ≡ map (ref_taken_over id owner) refs.old.items }
{
    for reference in refs.iter_mut() {
        *reference = ref_taken_over(id, owner, *reference);
    }
}

fn take_refs(list: &mut Items<LeaseRef>) -> Vec<LeaseRef>
    ensures taken { result.items ≡ list.old }
    ensures emptied { list.new ≡ [] }
{
    let alloc = list.allocator();
    mem::replace(list, Items::new(alloc)).into_vec()
}

// What a break that nobody can acknowledge leaves is settled first, since the lease has a connected open then.
fn take_over_lease(lease: &mut LeaseRec, register: &Register, id: OpenId, owner: Sid)
    ensures lease { lease.new ≡ lease_taken_over id owner (settled register.now lease.old) }
    ensures sets { IsLeaseRec lease.old → IsSid owner → IsLeaseRec lease.new }
{
    settle(lease, register);
    let mut refs = take_refs(&mut lease.refs);
    take_over_refs(&mut refs, id, owner);
    lease.refs = Items::from_vec(refs);
}

/// Takes up a durable open again, whose session has ended and whose deadline is above the moment ([MS-SMB2] 3.3.5.9.7): it has this owner
/// and handle then, as its reference has this owner, and its lease settles. `lease` is the record of the name. False where there is no
/// such open under the lease that counts, and nothing changes then. Takes no memory.
pub fn reconnect(
    rec: &mut ShareRec,
    lease: &mut LeaseRec,
    register: &Register,
    id: OpenId,
    name: LeaseName,
    owner: Sid,
    handle: u32,
    now: Moment,
) -> bool
    ensures taken { result ≡ list_any (is_taken register.now lease.old name rec.old.file now id) rec.old.entries }
    ensures record { rec.new ≡ record rec.old { entries = map (taken_over (is_taken register.now lease.old name rec.old.file now id) owner handle) rec.old.entries } }
    ensures lease { lease.new ≡ (if result then lease_taken_over id owner (settled register.now lease.old) else lease.old) }
    ensures refused { result ≡ false → rec.new ≡ rec.old }
    ensures answer { (leases : LeaseName → Option LeaseRec) (setup : Setup) (v : View) (worker call : ℕ) → Names register.now leases lease.old rec.old name id setup v worker call → decides setup v (caller_of name owner handle now) worker call name.key ≡ answer result lease.new.held rec.old.file id owner handle }
    ensures opens { (leases : LeaseName → Option LeaseRec) (setup : Setup) (v : View) (worker call : ℕ) → Names register.now leases lease.old rec.old name id setup v worker call → result ≡ true → map (open_row rec.old.file) rec.new.entries ≡ map (row_after (entry_counts (recorded register.now leases) rec.old.file) rec.old.file id owner handle) rec.old.entries }
    ensures sets { IsShareRec rec.old → IsLeaseRec lease.old → IsSid owner → IsU32 handle → IsShareRec rec.new × IsLeaseRec lease.new }
{
    let mut entries = take_entries(&mut rec.entries);
    let wanted = Wanted {
        id,
        name,
        lease,
        file: rec.file,
        moment: now,
        register,
    };
    let found = take_over_entries(&mut entries, wanted, owner, handle);
    rec.entries = Items::from_vec(entries);
    if found {
        take_over_lease(lease, register, id, owner);
    }
    found
}
