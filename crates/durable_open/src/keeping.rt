ghost use Rattle.std.specs.Prelude.{◌≡◌};
ghost use Rattle.durable_open.specs.Keeping.{is_kept_by};

use record_codec::{LeaseRec, ShareEntry};
use server_ids::Register;
use share_modes::keeps;

/// Whether the lease keeps an open of the file whose session has ended.
pub(crate) fn is_kept_by(
    register: &Register,
    lease: &LeaseRec,
    file: u32,
    entry: &ShareEntry,
) -> bool
    ensures { result ≡ is_kept_by register.now lease.now file entry.now }
{
    entry.durable != 0 && keeps(register, file, entry.id, lease)
}
