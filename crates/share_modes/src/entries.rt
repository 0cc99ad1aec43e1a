ghost use Rattle.std.specs.Prelude.{◌≡◌, ◌+◌, ◌<◌, ◌^◌, [], ℕ, Some, IfOk, OnOk, OnErr, filter, length};
ghost use Rattle.std.specs.Prelude.{map as map_list};
ghost use Rattle.std.specs.List.{list_any};
ghost use Rattle.sid_core.specs.Ids.{same_id};
ghost use Rattle.sid_core.specs.Values.{has};
ghost use Rattle.serial_table.specs.Change.{is_other_open};
ghost use Rattle.record_codec.specs.Counts as counts;
ghost use Rattle.record_codec.specs.ShareRec.{IsShareEntry, IsShareRec};
ghost use Rattle.server_ids.specs.Sessions.{registered};
ghost use Rattle.record_rows.specs.Rows.{open_row};
ghost use Rattle.share_modes.specs.Entries.{known, with_entry, other_open, without_open};

use bitflags::Flags;
use leases_db::Leases;
use record_codec::{LeaseRec, LeaseRef, ShareEntry, ShareRec};
use server_ids::{Register, living};
use sid_core::{Items, LeaseName, LeaseState, OpenId, OutOfMemory, Sid};
use std::alloc::Global;
use std::mem;

// ---- leases

fn lives(register: &Register, sid: Sid) -> bool
    ensures { result ≡ counts.lives (registered register.now) sid }
{
    living(register, sid)
}

fn some_connected(register: &Register, refs: &[LeaseRef]) -> bool
    ensures { result ≡ list_any (counts.is_connected (registered register.now)) refs.now }
{
    refs.iter()
        .any(|reference| lives(register, reference.owner))
}

fn is_unanswered(register: &Register, lease: &LeaseRec) -> bool
    ensures { result ≡ counts.is_unanswered (registered register.now) lease.now }
{
    lease.breaking && !some_connected(register, lease.refs.as_slice())
}

fn settled_state(register: &Register, lease: &LeaseRec) -> LeaseState
    ensures { result ≡ counts.settled_state (registered register.now) lease.now }
{
    if is_unanswered(register, lease) {
        lease.needed
    } else {
        lease.held
    }
}

fn keeps_handle(register: &Register, lease: &LeaseRec) -> bool
    ensures { result ≡ has (counts.settled_state (registered register.now) lease.now).0 2 }
{
    settled_state(register, lease).intersects(LeaseState::HANDLE)
}

fn has_ref(refs: &[LeaseRef], id: OpenId) -> bool
    ensures { result ≡ list_any (λ ref. same_id ref.id id) refs.now }
{
    refs.iter().any(|reference| reference.id == id)
}

/// Whether a lease keeps an open of the file that is durable and whose owner doesn't live: it is of the file, refers to the open, and has
/// HANDLE once it is settled.
pub fn keeps(register: &Register, file: u32, id: OpenId, lease: &LeaseRec) -> bool
    ensures { result ≡ counts.keeps (registered register.now) file id (Some lease.now) }
{
    lease.file == file && has_ref(lease.refs.as_slice(), id) && keeps_handle(register, lease)
}

fn keeps_under(leases: &Leases, register: &Register, file: u32, id: OpenId, name: LeaseName) -> bool
    ensures { result ≡ counts.is_kept (known leases.now register.now) file id (Some name) }
{
    match leases.get(name) {
        Some(lease) => keeps(register, file, id, lease),
        None => false,
    }
}

fn is_kept(
    leases: &Leases,
    register: &Register,
    file: u32,
    id: OpenId,
    lease: Option<LeaseName>,
) -> bool
    ensures { result ≡ counts.is_kept (known leases.now register.now) file id lease }
{
    match lease {
        Some(name) => keeps_under(leases, register, file, id, name),
        None => false,
    }
}

// ---- entries

/// Whether an entry of the file's share mode record counts: its owner lives, or it is durable and its lease keeps it.
pub fn counts(file: u32, entry: &ShareEntry, leases: &Leases, register: &Register) -> bool
    ensures { result ≡ counts.entry_counts (known leases.now register.now) file entry.now }
{
    lives(register, entry.owner)
        || (entry.durable != 0 && is_kept(leases, register, file, entry.id, entry.lease))
}

fn counted(
    alloc: Global,
    file: u32,
    entries: &[ShareEntry],
    leases: &Leases,
    register: &Register,
) -> Result<Vec<ShareEntry>, OutOfMemory>
    ensures { IfOk result (λ valid. valid.items ≡ filter (counts.entry_counts (known leases.now register.now) file) entries.now) }
{
    let valid = entries
        .iter()
        .copied()
        .filter(|entry| counts(file, entry, leases, register))
        .collect(alloc)?;
    Ok(valid)
}

/// The entries of the record that count, as entries of the file that it names.
pub fn valid_entries(
    alloc: Global,
    rec: &ShareRec,
    leases: &Leases,
    register: &Register,
) -> Result<Vec<ShareEntry>, OutOfMemory>
    ensures { IfOk result (λ valid. valid.items ≡ filter (counts.entry_counts (known leases.now register.now) rec.now.file) rec.now.entries) }
{
    counted(alloc, rec.file, rec.entries.as_slice(), leases, register)
}

// ---- entries come and go

/// The open comes behind the others.
pub fn add(rec: &mut ShareRec, entry: ShareEntry) -> Result<(), OutOfMemory>
    ensures rec { OnOk result (rec.new ≡ with_entry entry rec.old) }
    ensures err { OnErr result (rec.new ≡ rec.old) }
    ensures sets { IsShareRec rec.old → IsShareEntry entry → length rec.old.entries + 1 < 2 ^ 32 → IsShareRec rec.new }
{
    rec.entries.push(entry)?;
    Ok(())
}

fn has_id(id: OpenId, entry: &ShareEntry) -> bool
    ensures { result ≡ same_id entry.now.id id }
{
    entry.id == id
}

fn some_has_id(entries: &[ShareEntry], id: OpenId) -> bool
    ensures { result ≡ list_any (λ e. same_id e.id id) entries.now }
{
    entries.iter().any(|entry| has_id(id, entry))
}

fn drop_id(entries: &mut Vec<ShareEntry>, id: OpenId)
    ensures { entries.new.items ≡ filter (other_open id) entries.old.items }
{
    entries.retain(|entry| !has_id(id, entry));
}

fn take(list: &mut Items<ShareEntry>) -> Vec<ShareEntry>
    ensures taken { result.items ≡ list.old }
    ensures emptied { list.new ≡ [] }
{
    let alloc = list.allocator();
    mem::replace(list, Items::new(alloc)).into_vec()
}

/// The open goes, and all others stay in their order. True where it was there.
pub fn remove(rec: &mut ShareRec, id: OpenId) -> bool
    ensures there { result ≡ list_any (λ e. same_id e.id id) rec.old.entries }
    ensures rec { rec.new ≡ without_open id rec.old }
    ensures table { (file : ℕ) → map_list (open_row file) rec.new.entries ≡ filter (is_other_open file id) (map_list (open_row file) rec.old.entries) }
    ensures sets { IsShareRec rec.old → IsShareRec rec.new }
{
    let there = some_has_id(rec.entries.as_slice(), id);
    let mut entries = take(&mut rec.entries);
    drop_id(&mut entries, id);
    rec.entries = Items::from_vec(entries);
    there
}
