ghost use Rattle.std.specs.Prelude.{◌≡◌, None, if◌then◌else◌, ◌&&◌, nat_le};
ghost use Rattle.sid_core.specs.declared.ids.LeaseName.{LeaseName};
ghost use Rattle.serial_table.specs.Change.{set_lease};
ghost use Rattle.serial_table.specs.Expire.{is_due, needed_of};
ghost use Rattle.record_codec.specs.LeaseRec.{IsLeaseRec};
ghost use Rattle.leases_db.specs.Breaks.{broken};
ghost use Rattle.record_rows.specs.Rows.{lease_row};

use crate::settling::end_break;
use record_codec::LeaseRec;
use sid_core::Moment;

fn is_due(rec: &LeaseRec, now: Moment) -> bool
    ensures { result ≡ (rec.now.breaking && nat_le rec.now.until now.0) }
{
    rec.breaking && rec.until <= now.0
}

/// Where the break has lasted too long at this moment, it counts as acknowledged: the lease holds what was needed. True where it has. That
/// a break may last 35 seconds is this project's own, after the timeout of [MS-SMB2] 3.3.6.5 in outline. Takes no memory.
pub fn expire(rec: &mut LeaseRec, now: Moment) -> bool
    ensures due { (name : LeaseName) → result ≡ is_due now (lease_row name rec.old) }
    ensures lease { (name : LeaseName) → lease_row name rec.new ≡ (if result then set_lease rec.old.file name (needed_of (lease_row name rec.old)) None (lease_row name rec.old) else lease_row name rec.old) }
    ensures record { rec.new ≡ (if result then broken rec.old else rec.old) }
    ensures sets { IsLeaseRec rec.old → IsLeaseRec rec.new }
{
    let due = is_due(rec, now);
    if due {
        end_break(rec);
    }
    due
}
