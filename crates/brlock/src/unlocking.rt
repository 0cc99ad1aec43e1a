ghost use Rattle.std.specs.Prelude.{◌≡◌, ℕ, true, []};
ghost use Rattle.std.specs.List.{position};
ghost use Rattle.serial_table.specs.declared.rows.OpenRow.{OpenRow};
ghost use Rattle.serial_table.specs.File.{FileView};
ghost use Rattle.serial_table.specs.Lists.{drop_first};
ghost use Rattle.serial_table.specs.Unlock.{unlock_range};
ghost use Rattle.record_codec.specs.Counts.{Records, id_counts};
ghost use Rattle.record_codec.specs.RangeRec.{IsRangeRec};
ghost use Rattle.brlock.specs.Ranges.{counted_ranges, stale_ranges, AsksBefore};
ghost use Rattle.brlock.specs.Answer.{without_changes, told_unlocked, is_range, has_range, without_range, ranges_with};

use crate::range::is_same_mode;
use record_codec::{RangeItem, RangeRec};
use sid_core::{Items, Mode, OpenId, Span};
use std::mem;

fn is_range(id: OpenId, span: Span, mode: Mode, held: &RangeItem) -> bool
    ensures { result ≡ is_range id span mode held.now }
{
    held.id == id
        && (held.start == span.start
            && (held.length == span.length && is_same_mode(held.mode, mode)))
}

fn place_of(ranges: &[RangeItem], id: OpenId, span: Span, mode: Mode) -> Option<usize>
    ensures { result ≡ position (is_range id span mode) ranges.now }
{
    ranges
        .iter()
        .position(|held| is_range(id, span, mode, held))
}

fn take(list: &mut Items<RangeItem>) -> Vec<RangeItem>
    ensures taken { result.items ≡ list.old }
    ensures emptied { list.new ≡ [] }
{
    let alloc = list.allocator();
    mem::replace(list, Items::new(alloc)).into_vec()
}

/// The first of the open's ranges in the mode with just this span goes. True where there was one.
fn drop_first(list: &mut Items<RangeItem>, id: OpenId, span: Span, mode: Mode) -> bool
    ensures there { result ≡ has_range id span mode list.old }
    ensures list { list.new ≡ drop_first (is_range id span mode) list.old }
{
    match place_of(list.as_slice(), id, span, mode) {
        Some(place) => {
            let mut ranges = take(list);
            ranges.remove(place);
            *list = Items::from_vec(ranges);
            true
        }
        None => false,
    }
}

/// The open's first exclusive range with just this span goes, else its first shared one. True where it had one. Ranges of other opens
/// stay, whether they count or not. Takes no memory.
pub fn unlock(rec: &mut RangeRec, id: OpenId, span: Span) -> bool
    ensures decision { (records : Records) (file : ℕ) (f : FileView) (open_row : OpenRow) → AsksBefore records file rec.old.ranges id f open_row → id_counts records file id ≡ true → told_unlocked open_row result ≡ without_changes (unlock_range f span open_row) }
    ensures ranges { (records : Records) (file : ℕ) (f : FileView) (open_row : OpenRow) → AsksBefore records file rec.old.ranges id f open_row → id_counts records file id ≡ true → counted_ranges records file rec.new.ranges ≡ ranges_with f (unlock_range f span open_row) }
    ensures stale { (records : Records) (file : ℕ) → id_counts records file id ≡ true → stale_ranges records file rec.new.ranges ≡ stale_ranges records file rec.old.ranges }
    ensures rec { rec.new ≡ record rec.old { ranges = without_range id span rec.old.ranges } }
    ensures sets { IsRangeRec rec.old → IsRangeRec rec.new }
{
    if drop_first(&mut rec.ranges, id, span, Mode::Exclusive) {
        return true;
    }
    drop_first(&mut rec.ranges, id, span, Mode::Shared)
}
