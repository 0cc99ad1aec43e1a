//! What becomes of a row whose part is read as a row again.

ghost use Rattle.std.specs.Prelude.{◌≡◌, ℕ};
ghost use Rattle.serial_table.specs.declared.rows.OpenRow.{OpenRow};
ghost use Rattle.serial_table.specs.declared.rows.RangeRow.{RangeRow};
ghost use Rattle.serial_table.specs.declared.rows.HoldRow.{HoldRow};
ghost use Rattle.serial_table.specs.declared.rows.Watch.{Watch};
ghost use Rattle.record_codec.specs.declared.glock_rec.Hold.{Hold};
ghost use Rattle.record_codec.specs.declared.share_rec.ShareEntry.{ShareEntry};
ghost use Rattle.record_codec.specs.declared.range_rec.RangeItem.{RangeItem};
ghost use Rattle.record_codec.specs.declared.watch.WatchRec.{WatchRec};
ghost use Rattle.record_rows.specs.Rows.{open_row, range_row, hold_row, watch_row, entry_of, item_of, hold_of, watch_of};

/// The part of a row, read in the record of its file or lock, is that row again, and so it is the other way round. So neither loses anything.
pub fn rows_are_parts()
    ensures opens { (o : OpenRow) → open_row o.file (entry_of o) ≡ o }
    ensures entries { (file : ℕ) (e : ShareEntry) → entry_of (open_row file e) ≡ e }
    ensures ranges { (r : RangeRow) → range_row r.file (item_of r) ≡ r }
    ensures items { (file : ℕ) (r : RangeItem) → item_of (range_row file r) ≡ r }
    ensures holds { (h : HoldRow) → hold_row h.key (hold_of h) ≡ h }
    ensures holds_in_records { (key : ℕ) (h : Hold) → hold_of (hold_row key h) ≡ h }
    ensures watches { (w : Watch) → watch_row (watch_of w) ≡ w }
    ensures watches_in_records { (w : WatchRec) → watch_of (watch_row w) ≡ w }
{}
