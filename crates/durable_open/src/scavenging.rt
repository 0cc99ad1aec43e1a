ghost use Rattle.std.specs.Prelude.{◌≡◌, ◌+◌, ◌<◌, ◌^◌, ◌&&◌, ℕ, Some, not, length, filter, if◌then◌else◌};
ghost use Rattle.std.specs.Prelude.{map as map_list};
ghost use Rattle.std.specs.Option.{option_map};
ghost use Rattle.std.specs.FinMap as map;
ghost use Rattle.sid_core.specs.declared.ids.LeaseName.{LeaseName};
ghost use Rattle.serial_table.specs.View.{View};
ghost use Rattle.serial_table.specs.Durable.{is_expired};
ghost use Rattle.record_codec.specs.Counts.{entry_counts};
ghost use Rattle.record_codec.specs.ShareRec.{IsShareRec};
ghost use Rattle.leases_db.specs.Granted.{IsRecord};
ghost use Rattle.leases_db.specs.Refs.{without};
ghost use Rattle.record_rows.specs.Rows.{open_row};
ghost use Rattle.durable_open.specs.Naming.{recorded};
ghost use Rattle.durable_open.specs.Keeping.{is_kept_by};
ghost use Rattle.durable_open.specs.Sweep.{is_kept_at, is_kept_among, goes, once_dropped, once_gone, kept_of, leases_after, Agree, ShowsOpens};

use crate::deadlines::is_expired;
use crate::keeping::is_kept_by;
use crate::reconnecting::take_entries;
use leases_db::{Leases, drop_ref};
use record_codec::{LeaseRec, ShareEntry, ShareRec};
use server_ids::Register;
use sid_core::{Items, LeaseName, Moment};

// The reference goes where the lease keeps the open.
fn drop_kept(lease: &mut LeaseRec, register: &Register, file: u32, entry: &ShareEntry) -> bool
    ensures kept { result ≡ is_kept_by register.now lease.old file entry.now }
    ensures lease { lease.new ≡ (if is_kept_by register.now lease.old file entry.now then without entry.now.id lease.old else lease.old) }
{
    let kept = is_kept_by(register, lease, file, entry);
    if kept {
        drop_ref(lease, entry.id);
    }
    kept
}

fn drop_under(
    name: LeaseName,
    leases: &mut Leases,
    register: &Register,
    file: u32,
    entry: &ShareEntry,
) -> bool
    requires { entry.now.lease ≡ Some name }
    ensures kept { result ≡ is_kept_at register.now (map.get leases.old name) file entry.now }
    ensures leases { (n : LeaseName) → map.get leases.new n ≡ option_map (once_dropped register.now file entry.now n) (map.get leases.old n) }
{
    match leases.get_mut(name) {
        Some(lease) => drop_kept(lease, register, file, entry),
        None => false,
    }
}

fn drop_open(leases: &mut Leases, register: &Register, file: u32, entry: &ShareEntry) -> bool
    ensures kept { result ≡ is_kept_among register.now (map.get leases.old) file entry.now }
    ensures leases { (n : LeaseName) → map.get leases.new n ≡ option_map (once_dropped register.now file entry.now n) (map.get leases.old n) }
{
    match entry.lease {
        Some(name) => drop_under(name, leases, register, file, entry),
        None => false,
    }
}

// Whether the open goes; its reference is gone then.
fn goes(
    leases: &mut Leases,
    register: &Register,
    file: u32,
    now: Moment,
    entry: &ShareEntry,
) -> bool
    ensures goes { result ≡ goes register.now file now (map.get leases.old) entry.now }
    ensures leases { (n : LeaseName) → map.get leases.new n ≡ option_map (once_gone register.now file now entry.now n) (map.get leases.old n) }
{
    if is_expired(entry, register, now) {
        drop_open(leases, register, file, entry)
    } else {
        false
    }
}

fn sweep(
    entries: &mut Vec<ShareEntry>,
    leases: &mut Leases,
    register: &Register,
    file: u32,
    now: Moment,
) -> usize
    ensures entries { entries.new.items ≡ kept_of register.now file now (map.get leases.old) entries.old.items }
    ensures leases { map.get leases.new ≡ leases_after register.now file now (map.get leases.old) entries.old.items }
    ensures count { result + length entries.new.items ≡ length entries.old.items }
{
    let mut kept = 0;
    for place in 0..entries.len() {
        let entry = entries[place];
        if !goes(leases, register, file, now, &entry) {
            entries[kept] = entry;
            kept += 1;
        }
    }
    let count = entries.len() - kept;
    entries.truncate(kept);
    count
}

/// The opens that count go whose session has ended and whose deadline is at or below the moment, each with its reference. The others keep
/// their order. Tells how many have gone. That no entry is left doesn't end that the file is pending, but it counts no more then. Takes no
/// memory.
pub fn scavenge(rec: &mut ShareRec, leases: &mut Leases, register: &Register, now: Moment) -> u32
    requires { length rec.old.entries < 2 ^ 32 }
    ensures record { rec.new ≡ record rec.old { entries = kept_of register.now rec.old.file now (map.get leases.old) rec.old.entries } }
    ensures leases { map.get leases.new ≡ leases_after register.now rec.old.file now (map.get leases.old) rec.old.entries }
    ensures count { result + length rec.new.entries ≡ length rec.old.entries }
    ensures entries { Agree register.now rec.old.file now (map.get leases.old) rec.old.entries → rec.new.entries ≡ filter (λ e. not (goes register.now rec.old.file now (map.get leases.old) e)) rec.old.entries }
    ensures answer { (v : View) → Agree register.now rec.old.file now (map.get leases.old) rec.old.entries → ShowsOpens register.now rec.old.file (map.get leases.old) rec.old.entries v → result ≡ length (filter (is_expired v now) (v.opens_of rec.old.file)) }
    ensures opens { (v : View) → Agree register.now rec.old.file now (map.get leases.old) rec.old.entries → ShowsOpens register.now rec.old.file (map.get leases.old) rec.old.entries v → map_list (open_row rec.old.file) (filter (entry_counts (recorded register.now (map.get leases.old)) rec.old.file) rec.new.entries) ≡ filter (λ o. not (is_expired v now o)) (v.opens_of rec.old.file) }
    ensures sets { IsShareRec rec.old → IsShareRec rec.new }
    ensures lease_sets { ((name : LeaseName) → IsRecord (map.get leases.old name)) → (name : LeaseName) → IsRecord (map.get leases.new name) }
{
    let mut entries = take_entries(&mut rec.entries);
    let file = rec.file;
    let count = sweep(&mut entries, leases, register, file, now);
    rec.entries = Items::from_vec(entries);
    count as u32
}
