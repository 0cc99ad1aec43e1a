ghost use Rattle.std.specs.Prelude.{◌≡◌, ℕ, Some};
ghost use Rattle.record_codec.specs.declared.share_rec.ShareRec.{ShareRec};
ghost use Rattle.record_codec.specs.Counts.{Records};
ghost use Rattle.brlock.specs.Ranges.{AreValid, valid_ids};

/// The opens of a file that count are those of the entries of its share mode record that count.
pub fn valid_entries_give_the_ids()
    ensures { (records : Records) (file : ℕ) (share : ShareRec) → records.share file ≡ Some share → AreValid records file (valid_ids records file share) }
{}
