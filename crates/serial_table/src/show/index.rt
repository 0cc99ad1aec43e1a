ghost use Rattle.std.specs.Prelude.{◌≡◌, IfOk, OnOk, find, ◌&&◌};
ghost use Rattle.std.specs.Option.{option_copied};
ghost use Rattle.serial_table.specs.View.{is_of_file, has_id};
ghost use Rattle.serial_table.specs.Alone.{is_lease_named};
ghost use Rattle.serial_table.specs.Keeping.{key_cmp, key_of_id, key_of_name, KeepsFirst, FindsOpens, FindsLeases};

use crate::rows::{LeaseRow, OpenRow};
use sid_core::{LeaseName, OpenId, OutOfMemory};
use std::alloc::Global;
use std::collections::BTreeMap;

/// A file, and two numbers: an id or a name.
pub(crate) type Key = (u64, (u64, u64));

pub(crate) fn key_of_id(file: u64, id: OpenId) -> Key
    ensures { result ≡ key_of_id file id }
{
    (file, (u64::from(id.pid), u64::from(id.call)))
}

pub(crate) fn key_of_name(file: u64, name: LeaseName) -> Key
    ensures { result ≡ key_of_name file name }
{
    (file, (name.guid, name.key))
}

/// Adds the row, unless there is one of its key.
fn keep_first<T: Copy>(map: &mut BTreeMap<Key, T>, key: Key, row: &T) -> Result<(), OutOfMemory>
    ensures { OnOk result (KeepsFirst key_cmp key row.now map.old map.new) }
{
    if !map.contains_key(&key) {
        map.insert(key, *row)?;
    }
    Ok(())
}

/// The opens by file and id.
pub(crate) fn opens_by_id(
    alloc: Global,
    opens: &[OpenRow],
) -> Result<BTreeMap<Key, OpenRow>, OutOfMemory>
    ensures { IfOk result (λ map. FindsOpens map opens.now) }
{
    let mut map = BTreeMap::new(alloc);
    for row in opens {
        keep_first(&mut map, key_of_id(row.file as u64, row.id), row)?;
    }
    Ok(map)
}

/// The leases by file and name.
pub(crate) fn leases_by_name(
    alloc: Global,
    leases: &[LeaseRow],
) -> Result<BTreeMap<Key, LeaseRow>, OutOfMemory>
    ensures { IfOk result (λ map. FindsLeases map leases.now) }
{
    let mut map = BTreeMap::new(alloc);
    for lease in leases {
        keep_first(&mut map, key_of_name(lease.file as u64, lease.name), lease)?;
    }
    Ok(map)
}
