ghost use Rattle.std.specs.Prelude.{◌≡◌, ◌<◌, ℕ, true, false};
ghost use Rattle.sid_core.specs.declared.ids.Moment.{Moment};
ghost use Rattle.sid_core.specs.Values.{has};
ghost use Rattle.serial_table.specs.declared.rows.OpenRow.{OpenRow};
ghost use Rattle.serial_table.specs.File.{FileView};
ghost use Rattle.serial_table.specs.Range.{passes_end};
ghost use Rattle.record_codec.specs.Counts.{Records};
ghost use Rattle.brlock.specs.Ranges.{AsksAmong};
ghost use Rattle.brlock.specs.Answer.{wanted, first_forbidding, decided, told_io};

use crate::scans::first_forbidding;
use record_codec::RangeRec;
use sid_core::{OpenId, Span};

/// The open of the first range that forbids the open to read there, or to write (after [MS-FSA] 2.1.4.10), if there is one. `valid` is as
/// in [`lock`](crate::lock). A read or a write of no byte is never forbidden, and one that passes 2^64 - 1 is refused before: neither is
/// to be asked of here. Takes no memory.
pub fn check_io(
    rec: &RangeRec,
    valid: &[OpenId],
    id: OpenId,
    span: Span,
    write: bool,
) -> Option<OpenId>
    ensures first { (records : Records) (file : ℕ) (f : FileView) (open_row : OpenRow) → AsksAmong records file valid.now rec.now.ranges id f open_row → result ≡ first_forbidding f open_row span write }
    ensures decision { (records : Records) (file : ℕ) (f : FileView) (open_row : OpenRow) (now : Moment) → AsksAmong records file valid.now rec.now.ranges id f open_row → has open_row.access.0 (wanted write) ≡ true → 0 < span.length → passes_end span ≡ false
        → told_io now f open_row write result ≡ decided now f span open_row write }
{
    first_forbidding(rec.ranges.as_slice(), valid, id, span, write)
}
