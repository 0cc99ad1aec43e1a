ghost use Rattle.std.specs.Prelude.{◌≡◌, ℕ, Bool, true, filter, not, map, find, Some, ◌==◌};
ghost use Rattle.std.specs.List.{list_any, AllByRecursion};
ghost use Rattle.std.specs.Option.{option_map, option_copied, is_some};
ghost use Rattle.std.specs.Ordering.{nat_cmp};
ghost use Rattle.std.specs.FinMap.{FinMap};
ghost use Rattle.sid_core.specs.declared.ids.LeaseName.{LeaseName};
ghost use Rattle.serial_table.specs.View.{View};
ghost use Rattle.serial_table.specs.Asked.{asked_of, is_elsewhere};
ghost use Rattle.leases_db.specs.Granted.{OpenAsk, asked_name};
ghost use Rattle.record_codec.specs.LeaseRec.{IsLeaseRec};
ghost use Rattle.leases_db.specs.Refs.{is_of, without, other_file};
ghost use Rattle.leases_db.specs.Rows.{leases_by};

use crate::settling::take;
use record_codec::{LeaseRec, LeaseRef};
use sid_core::{Items, OpenId};

// ---- one reference

fn is_of(id: OpenId, lease_ref: &LeaseRef) -> bool
    ensures { result ≡ is_of id lease_ref.now }
{
    lease_ref.id == id
}

fn has_ref(refs: &[LeaseRef], id: OpenId) -> bool
    ensures { result ≡ list_any (is_of id) refs.now }
{
    refs.iter().any(|lease_ref| is_of(id, lease_ref))
}

fn keep_others(refs: &mut Vec<LeaseRef>, id: OpenId)
    ensures { refs.new.items ≡ filter (λ ref. not (is_of id ref)) refs.old.items }
{
    refs.retain(|lease_ref| !is_of(id, lease_ref));
}

/// The reference of this open goes. True where it was there. The lease of a record that is left without references is gone. Takes no
/// memory.
pub fn drop_ref(rec: &mut LeaseRec, id: OpenId) -> bool
    ensures held { result ≡ list_any (is_of id) rec.old.refs }
    ensures record { rec.new ≡ without id rec.old }
    ensures sets { IsLeaseRec rec.old → IsLeaseRec rec.new }
{
    let held = has_ref(rec.refs.as_slice(), id);
    let mut refs = take(&mut rec.refs);
    keep_others(&mut refs, id);
    rec.refs = Items::from_vec(refs);
    held
}

// ---- the lease of another file

fn file_of(rec: &LeaseRec, file: u32) -> Option<u32>
    ensures { result ≡ other_file file rec.now }
{
    if rec.refs.is_empty() || rec.file == file {
        None
    } else {
        Some(rec.file)
    }
}

/// The file of the lease, where that is another one. Each reference of the record counts as an open. Takes no memory.
pub fn elsewhere(rec: Option<&LeaseRec>, file: u32) -> Option<u32>
    ensures file { (name : LeaseName) → result ≡ option_map (λ lease. lease.file) (find (λ lease. not (lease.file == file)) (leases_by name (option_copied rec.entry))) }
    ensures table { (durable : ℕ) (v : View) (o : OpenAsk) → v.leases_of (asked_name o) ≡ leases_by (asked_name o) (option_copied rec.entry) → is_some result ≡ is_elsewhere v (asked_of o.caller file o.access o.share (Some o.ask) durable o.overwrite o.delete) }
{
    match rec {
        Some(rec) => file_of(rec, file),
        None => None,
    }
}
