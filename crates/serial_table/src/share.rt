ghost use Rattle.std.specs.Prelude.{◌≡◌};
ghost use Rattle.serial_table.specs.Share.{takes_part, is_hindered, share_conflict};
ghost use Rattle.sid_core.specs.Values.{has};

use bitflags::Flags;
use sid_core::{Access, Share};

/// What takes part in sharing: to read, write, append, execute or delete.
const PARTS: Access = Access(0x10027);

const WRITES: Access = Access(0x6);

const READS: Access = Access(0x21);

/// Whether the open with this access does what the other's share mode doesn't let it.
fn is_hindered(access: Access, share: Share) -> bool
    ensures { result ≡ is_hindered access.0 share.0 }
{
    (access.intersects(WRITES) && !share.intersects(Share::FILE_SHARE_WRITE))
        || (access.intersects(READS) && !share.intersects(Share::FILE_SHARE_READ))
        || (access.intersects(Access::DELETE) && !share.intersects(Share::FILE_SHARE_DELETE))
}

/// Whether two opens of one file, each with its access and its share mode, can't stand beside each other
/// ([MS-FSA] 2.1.5.1.2.2).
pub fn share_conflict(a: Access, a_share: Share, b: Access, b_share: Share) -> bool
    ensures { result ≡ share_conflict a.0 a_share.0 b.0 b_share.0 }
{
    a.intersects(PARTS)
        && b.intersects(PARTS)
        && (is_hindered(a, b_share) || is_hindered(b, a_share))
}
