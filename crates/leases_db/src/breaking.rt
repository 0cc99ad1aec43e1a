ghost use Rattle.std.specs.Prelude.{◌≡◌};
ghost use Rattle.record_rows.specs.Rows.{breaking_of};

use record_codec::LeaseRec;
use serial_table::Breaking;
use sid_core::Moment;

/// How the lease is breaking, if it is.
pub fn breaking_of(rec: &LeaseRec) -> Option<Breaking>
    ensures { result ≡ breaking_of rec.now }
{
    if rec.breaking {
        Some(Breaking {
            asked: rec.asked,
            needed: rec.needed,
            until: Moment(rec.until),
        })
    } else {
        None
    }
}
