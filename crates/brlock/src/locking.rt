ghost use Rattle.std.specs.Prelude.{◌≡◌, ◌<◌, ◌+◌, ◌^◌, ℕ, Bool, true, length};
ghost use Rattle.sid_core.specs.Values.{has};
ghost use Rattle.serial_table.specs.declared.rows.OpenRow.{OpenRow};
ghost use Rattle.serial_table.specs.declared.decision.Caller.{Caller};
ghost use Rattle.serial_table.specs.File.{FileView};
ghost use Rattle.serial_table.specs.Range as table;
ghost use Rattle.serial_table.specs.Lock.{lock_range};
ghost use Rattle.record_codec.specs.Counts.{Records, id_counts};
ghost use Rattle.record_codec.specs.Fields.{IsOpenId};
ghost use Rattle.record_codec.specs.RangeRec.{IsRangeRec};
ghost use Rattle.brlock.specs.Ranges.{counted_ranges, stale_ranges, AsksAmong};
ghost use Rattle.brlock.specs.Answer.{IfAnswered, IsAdded, is_invalid, in_the_way, first_conflict, told, locked, ranges_after};

use crate::answer::RAnswer;
use crate::range::{asked_item, passes_end};
use crate::scans::first_in_the_way;
use record_codec::RangeRec;
use sid_core::{Mode, OpenId, OutOfMemory, Span};

fn add(rec: &mut RangeRec, id: OpenId, span: Span, mode: Mode) -> RAnswer
    ensures answer { IsAdded result }
    ensures rec { rec.new ≡ locked result id span mode rec.old }
{
    match rec.ranges.push(asked_item(id, span, mode)) {
        Ok(()) => RAnswer::Granted,
        Err(OutOfMemory) => RAnswer::OutOfMemory,
    }
}

/// Asks for the range. `valid` has the ids of the file's opens that count, in whatever order: those of `share_modes::valid_entries`.
/// What is answered is what the open table decides of the ranges that count (after [MS-FSA] 2.1.4.10 and Samba's brlock.c). That the
/// open may lock at all, the caller has looked at. A `Conflict` that waits isn't entered here: that is `record_watch::watch`'s; nor are
/// the leases broken that a granted range breaks: that is `lease_breaks::break_lease`'s. Only a range that is added takes memory; where
/// there is none, the record is as it was.
pub fn lock(rec: &mut RangeRec, valid: &[OpenId], id: OpenId, span: Span, mode: Mode) -> RAnswer
    ensures invalid { is_invalid result ≡ table.passes_end span }
    ensures conflict { (records : Records) (file : ℕ) (f : FileView) (open_row : OpenRow) → AsksAmong records file valid.now rec.old.ranges id f open_row → in_the_way result ≡ first_conflict f open_row span mode }
    ensures decision { IfAnswered result ((records : Records) (file : ℕ) (f : FileView) (caller : Caller) (wait : Bool) (open_row : OpenRow) → AsksAmong records file valid.now rec.old.ranges id f open_row → has open_row.access.0 0x3 ≡ true
        → told f caller span mode wait open_row result ≡ lock_range f caller span mode wait open_row) }
    ensures rec { rec.new ≡ locked result id span mode rec.old }
    ensures ranges { (records : Records) (file : ℕ) (f : FileView) (open_row : OpenRow) → AsksAmong records file valid.now rec.old.ranges id f open_row → id_counts records file id ≡ true → counted_ranges records file rec.new.ranges ≡ ranges_after result f open_row span mode }
    ensures stale { (records : Records) (file : ℕ) → id_counts records file id ≡ true → stale_ranges records file rec.new.ranges ≡ stale_ranges records file rec.old.ranges }
    ensures sets { IsRangeRec rec.old → IsOpenId id → length rec.old.ranges + 1 < 2 ^ 32 → IsRangeRec rec.new }
{
    if passes_end(span) {
        return RAnswer::InvalidRange;
    }
    match first_in_the_way(rec.ranges.as_slice(), valid, id, span, mode) {
        Some(other) => RAnswer::Conflict(other),
        None => add(rec, id, span, mode),
    }
}
