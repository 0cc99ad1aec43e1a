ghost use Rattle.std.specs.Prelude.{◌≡◌, true, false, find};
ghost use Rattle.std.specs.Option.{option_map};
ghost use Rattle.brlock.specs.Scans.{is_valid, is_in_the_way, item_forbids, is_forbidding};

use crate::range::{conflicts, is_exclusive, overlap, span_of};
use record_codec::RangeItem;
use sid_core::{Mode, OpenId, Span};

fn is_valid(valid: &[OpenId], id: OpenId) -> bool
    ensures { result ≡ is_valid valid.now id }
{
    valid.iter().any(|open| *open == id)
}

// Most ranges don't conflict: so that is looked at first.
fn is_in_the_way(valid: &[OpenId], id: OpenId, span: Span, mode: Mode, held: &RangeItem) -> bool
    ensures { result ≡ is_in_the_way valid.now id span mode held.now }
{
    conflicts(id, span, mode, held) && is_valid(valid, held.id)
}

/// The open of the first range that counts and conflicts.
pub(crate) fn first_in_the_way(
    ranges: &[RangeItem],
    valid: &[OpenId],
    id: OpenId,
    span: Span,
    mode: Mode,
) -> Option<OpenId>
    ensures { result ≡ option_map (λ held. held.id) (find (is_in_the_way valid.now id span mode) ranges.now) }
{
    ranges
        .iter()
        .find(|held| is_in_the_way(valid, id, span, mode, held))
        .map(|held| held.id)
}

fn forbids_read(id: OpenId, span: Span, held: &RangeItem) -> bool
    ensures { result ≡ item_forbids id span false held.now }
{
    overlap(span_of(held), span) && (is_exclusive(held.mode) && held.id != id)
}

fn forbids_write(id: OpenId, span: Span, held: &RangeItem) -> bool
    ensures { result ≡ item_forbids id span true held.now }
{
    overlap(span_of(held), span) && (!is_exclusive(held.mode) || held.id != id)
}

fn forbids(id: OpenId, span: Span, write: bool, held: &RangeItem) -> bool
    ensures { result ≡ item_forbids id span write held.now }
{
    if write {
        forbids_write(id, span, held)
    } else {
        forbids_read(id, span, held)
    }
}

fn is_forbidding(valid: &[OpenId], id: OpenId, span: Span, write: bool, held: &RangeItem) -> bool
    ensures { result ≡ is_forbidding valid.now id span write held.now }
{
    forbids(id, span, write, held) && is_valid(valid, held.id)
}

/// The open of the first range that counts and forbids the access.
pub(crate) fn first_forbidding(
    ranges: &[RangeItem],
    valid: &[OpenId],
    id: OpenId,
    span: Span,
    write: bool,
) -> Option<OpenId>
    ensures { result ≡ option_map (λ held. held.id) (find (is_forbidding valid.now id span write) ranges.now) }
{
    ranges
        .iter()
        .find(|held| is_forbidding(valid, id, span, write, held))
        .map(|held| held.id)
}
