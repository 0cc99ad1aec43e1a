//! The opens of a file by their ids, so that a range's open is found without a scan.
ghost use Rattle.std.specs.Prelude.{◌≡◌, IfOk, OnOk};
ghost use Rattle.serial_table.specs.Keeping.{KeepsFirst};
ghost use Rattle.share_modes.specs.Entries.{known};
ghost use Rattle.smbstatus_text.specs.Opens.{id_cmp, key_of, FindsOpens};

use leases_db::Leases;
use record_codec::ShareEntry;
use server_ids::Register;
use share_modes::counts;
use sid_core::{OpenId, OutOfMemory};
use std::alloc::Global;
use std::collections::BTreeMap;

/// The pid and the call of an id.
pub(crate) type Key = (u64, u64);

pub(crate) fn key_of(id: OpenId) -> Key
    ensures { result ≡ key_of id }
{
    (u64::from(id.pid), u64::from(id.call))
}

fn keep(
    map: &mut BTreeMap<Key, ShareEntry>,
    key: Key,
    entry: &ShareEntry,
) -> Result<(), OutOfMemory>
    ensures { OnOk result (KeepsFirst id_cmp key entry.now map.old map.new) }
{
    if !map.contains_key(&key) {
        map.insert(key, *entry)?;
    }
    Ok(())
}

/// The entries that count, by their ids: the first of each.
pub(crate) fn opens_by_id(
    alloc: Global,
    file: u32,
    entries: &[ShareEntry],
    leases: &Leases,
    register: &Register,
) -> Result<BTreeMap<Key, ShareEntry>, OutOfMemory>
    ensures { IfOk result (λ map. FindsOpens (known leases.now register.now) file map entries.now) }
{
    let mut map = BTreeMap::new(alloc);
    for entry in entries {
        if counts(file, entry, leases, register) {
            keep(&mut map, key_of(entry.id), entry)?;
        }
    }
    Ok(map)
}
