ghost use Rattle.std.specs.Prelude.{◌≡◌, ℕ};
ghost use Rattle.serial_table.specs.Change.{same_mode};
ghost use Rattle.serial_table.specs.Range as table;
ghost use Rattle.record_rows.specs.Rows.{range_row};
ghost use Rattle.brlock.specs.Answer.{asked_item};
ghost use Rattle.brlock.specs.Scans.{conflicts};

use record_codec::RangeItem;
use sid_core::{Mode, OpenId, Span};

pub(crate) fn is_same_mode(a: Mode, b: Mode) -> bool
    ensures { result ≡ same_mode a b }
{
    match (a, b) {
        (Mode::Shared, Mode::Shared) | (Mode::Exclusive, Mode::Exclusive) => true,
        _ => false,
    }
}

pub(crate) fn is_exclusive(mode: Mode) -> bool
    ensures { result ≡ table.is_exclusive mode }
{
    is_same_mode(mode, Mode::Exclusive)
}

/// Whether two ranges overlap ([MS-FSA] 2.1.4.10). One of length 0 is the place before its first byte, and overlaps one that has bytes on
/// both sides of it; two of length 0 don't overlap. A range may pass 2^64 - 1, and is compared whole.
pub fn overlap(a: Span, b: Span) -> bool
    ensures { result ≡ table.overlap a b }
{
    serial_table::overlap(a, b)
}

pub(crate) fn passes_end(span: Span) -> bool
    ensures { result ≡ table.passes_end span }
{
    span.length != 0 && u64::MAX - span.start < span.length - 1
}

pub(crate) fn span_of(item: &RangeItem) -> Span
    ensures { result ≡ (range_row 0 item.now).span }
{
    Span {
        start: item.start,
        length: item.length,
    }
}

pub(crate) fn asked_item(id: OpenId, span: Span, mode: Mode) -> RangeItem
    ensures { result ≡ asked_item id span mode }
{
    RangeItem {
        id,
        start: span.start,
        length: span.length,
        mode,
    }
}

pub(crate) fn conflicts(id: OpenId, span: Span, mode: Mode, held: &RangeItem) -> bool
    ensures { result ≡ conflicts id span mode held.now }
{
    overlap(span_of(held), span)
        && ((is_exclusive(held.mode) || is_exclusive(mode))
            && !(!is_exclusive(mode) && (is_exclusive(held.mode) && held.id == id)))
}

/// Whether a held range is in the way of another that this open asks for ([MS-FSA] 2.1.4.10). Whether the held one counts isn't looked at.
pub fn range_conflict(held: RangeItem, id: OpenId, span: Span, mode: Mode) -> bool
    ensures { (file : ℕ) → result ≡ table.range_conflict (range_row file held) id span mode }
{
    conflicts(id, span, mode, &held)
}
