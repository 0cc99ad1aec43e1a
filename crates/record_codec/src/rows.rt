ghost use Rattle.std.specs.Prelude.{◌≡◌, ◌+◌, ◌*◌, ◌++◌, ◌<◌, ◌≤◌, ◌^◌, ◌↔◌, ℕ, length, vec_len, vec_capacity};
ghost use Rattle.std.specs.List.{AllByRecursion};
ghost use Rattle.record_codec.specs.Codec.{Codec, times_read};
ghost use Rattle.record_codec.specs.Fields.{list};
ghost use Rattle.record_codec.specs.Laws.{IsExact};
ghost use Rattle.record_codec.specs.Reads.{Gives, GivesOrMemory};

use crate::fault::Unpack;
use crate::in_place::items_at;
use crate::reading::u32_at;
use crate::writing::put_u32;
use sid_core::Items;
use std::alloc::Global;

/// How an item of a list stands in bytes.
pub trait Row<T: Copy>: Drop {
    /// Its fields, in their order, with the sets in which their values lie.
    ghost codec: { Codec T };

    /// The values whose parts lie in their sets.
    ghost valid: { T → Type 0 };

    ghost SIZE: { ℕ };

    /// How many bytes an item has.
    const SIZE: usize;

    /// The item that the bytes begin with, and the bytes after it. Takes no memory.
    fn at(bytes: &[u8]) -> Result<(T, &[u8]), Unpack>
        ensures { Gives (λ x. (x.0, x.1.now)) result (codec.read bytes.now) };

    /// Adds an item to bytes that have room for it.
    fn put(out: &mut Vec<u8>, item: &T)
        requires valid { valid item.now }
        requires room { vec_len out.old + SIZE ≤ vec_capacity out.old }
        ensures items { out.new.items ≡ out.old.items ++ codec.spell item.now }
        ensures len { vec_len out.new ≡ vec_len out.old + SIZE }
        ensures room { vec_capacity out.old ≤ vec_capacity out.new };

    /// An item that is read lies in its sets and has the spelling that was read, the sets of an item's values are those of
    /// its fields, and each item has that many bytes.
    fn laws()
        ensures exact { IsExact codec }
        ensures sets { (x : T) → valid x ↔ codec.valid x }
        ensures sized { (x : T) → length (codec.spell x) ≡ SIZE };
}

#[inline(always)]
pub(crate) fn rows_at<T: Copy, R: Row<T>>(
    alloc: Global,
    count: u32,
    bytes: &[u8],
) -> Result<(Vec<T>, &[u8]), Unpack>
    ensures { GivesOrMemory (λ x. (x.0.items, x.1.now)) result (times_read R.codec.read count bytes.now) }
{
    if bytes.len() / R::SIZE.max(1) < count as usize {
        // The bytes can't hold so many. Their first fault is found without taking memory.
        let _ = items_at::<T, R>(count, bytes)?;
    }
    let mut rows = Vec::with_capacity(alloc, count as usize)?;
    let mut rest = bytes;
    for _ in 0..count {
        let (row, after) = R::at(rest)?;
        rows.push_reserved(row);
        rest = after;
    }
    Ok((rows, rest))
}

#[inline(always)]
pub(crate) fn owned_list_at<T: Copy, R: Row<T>>(
    alloc: Global,
    bytes: &[u8],
) -> Result<(Items<T>, &[u8]), Unpack>
    ensures { GivesOrMemory (λ x. (x.0, x.1.now)) result ((list 0 R.codec).read bytes.now) }
{
    let (count, rest) = u32_at(bytes)?;
    let (rows, rest) = rows_at::<T, R>(alloc, count, rest)?;
    Ok((Items::from_vec(rows), rest))
}

pub(crate) fn put_list<T: Copy, R: Row<T>>(out: &mut Vec<u8>, rows: &[T])
    requires count { length rows.now < 2 ^ 32 }
    requires valid { AllByRecursion R.valid rows.now }
    requires room { vec_len out.old + (4 + R.SIZE * length rows.now) ≤ vec_capacity out.old }
    ensures items { out.new.items ≡ out.old.items ++ (list 0 R.codec).spell rows.now }
    ensures len { vec_len out.new ≡ vec_len out.old + (4 + R.SIZE * length rows.now) }
    ensures room { vec_capacity out.old ≤ vec_capacity out.new }
{
    put_u32(out, rows.len() as u32);
    for row in rows {
        R::put(out, row);
    }
}
