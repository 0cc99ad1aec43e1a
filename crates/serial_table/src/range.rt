ghost use Rattle.std.specs.Prelude.{◌≡◌, ◌+◌, nat_lt};
ghost use Rattle.serial_table.specs.Range.{is_exclusive, is_inside, share_a_byte, overlap, range_conflict, passes_end, range_of};

use crate::perform::is_same_mode;
use crate::rows::{OpenRow, RangeRow};
use sid_core::{Mode, OpenId, Span};

pub(crate) fn is_exclusive(mode: Mode) -> bool
    ensures { result ≡ is_exclusive mode }
{
    is_same_mode(mode, Mode::Exclusive)
}

/// Whether the place is before the range's end. The end may be beyond 2^64 - 1.
fn is_before_end(place: u64, span: Span) -> bool
    ensures { result ≡ nat_lt place (span.start + span.length) }
{
    place < span.start || place - span.start < span.length
}

fn is_inside(place: u64, span: Span) -> bool
    ensures { result ≡ is_inside place span }
{
    span.start < place && is_before_end(place, span)
}

fn share_a_byte(a: Span, b: Span) -> bool
    ensures { result ≡ share_a_byte a b }
{
    is_before_end(a.start, b) && is_before_end(b.start, a)
}

/// Whether two ranges overlap ([MS-FSA] 2.1.4.10). A range may pass 2^64 - 1, and is compared whole.
pub fn overlap(a: Span, b: Span) -> bool
    ensures { result ≡ overlap a b }
{
    if a.length == 0 {
        is_inside(a.start, b)
    } else if b.length == 0 {
        is_inside(b.start, a)
    } else {
        share_a_byte(a, b)
    }
}

pub(crate) fn range_conflict(held: &RangeRow, id: OpenId, span: Span, mode: Mode) -> bool
    ensures { result ≡ range_conflict held.now id span mode }
{
    overlap(held.span, span)
        && ((is_exclusive(held.mode) || is_exclusive(mode))
            && !(!is_exclusive(mode) && (is_exclusive(held.mode) && held.id == id)))
}

pub(crate) fn passes_end(span: Span) -> bool
    ensures { result ≡ passes_end span }
{
    span.length != 0 && u64::MAX - span.start < span.length - 1
}

pub(crate) fn range_of(row: &OpenRow, span: Span, mode: Mode) -> RangeRow
    ensures { result ≡ range_of row.now span mode }
{
    RangeRow {
        id: row.id,
        file: row.file,
        span,
        mode,
    }
}
