ghost use Rattle.std.specs.Prelude.{◌≡◌, ℕ, List};
ghost use Rattle.record_codec.specs.Codec.{times_read};
ghost use Rattle.record_codec.specs.Fields.{list};
ghost use Rattle.record_codec.specs.InPlace.{items_in};
ghost use Rattle.record_codec.specs.Reads.{Gives};

use crate::fault::Unpack;
use crate::reading::u32_at;
use crate::rows::Row;
use std::marker::{Model, PhantomData};

/// The items of a list, in the bytes in which they stand: going over them gives each, from the first to the last, and
/// takes no memory.
#[derive(Drop)]
pub struct LentItems<'a, T: Copy, R: Row<T>> {
    bytes: &'a [u8],
    left: u32,
    row: PhantomData<(T, R)>,
}

impl<'a, T: Copy, R: Row<T>> Model for LentItems<'a, T, R> {
    ghost use Rattle.std.specs.Prelude.{List};
    ghost use Rattle.std.specs.Coded.{coded_list};
    ghost use Rattle.record_codec.specs.InPlace.{items_in};

    ghost Value = { List T };

    ghost coded = { coded_list T.code };

    ghost view = { λ l. items_in R.codec.read l.left l.bytes.now };
}

impl<'a, T: Copy, R: Row<T>> LentItems<'a, T, R> {
    /// The same items, to go over them once more.
    pub fn copy(&self) -> LentItems<'a, T, R>
        ensures { result ≡ self.now }
    {
        LentItems {
            bytes: self.bytes,
            left: self.left,
            row: PhantomData,
        }
    }
}

impl<'a, T: Copy, R: Row<T>> Iterator for LentItems<'a, T, R> {
    ghost use Rattle.std.specs.Iterator.{YieldsFirst, item_count};

    type Item = T;

    ghost next_gives = { YieldsFirst (λ rest. rest) };

    ghost remaining = { item_count (λ rest. rest) };

    fn next(&mut self) -> Option<T> {
        if self.left == 0 {
            return None;
        }
        match R::at(self.bytes) {
            Ok(first) => {
                self.bytes = first.1;
                self.left -= 1;
                Some(first.0)
            }
            Err(_) => {
                self.left = 0;
                None
            }
        }
    }
}

/// So many items, each judged, and the bytes after them. Takes no memory.
#[inline(always)]
pub(crate) fn items_at<T: Copy, R: Row<T>>(
    count: u32,
    bytes: &[u8],
) -> Result<(LentItems<'_, T, R>, &[u8]), Unpack>
    ensures { Gives (λ x. (x.0, x.1.now)) result (times_read R.codec.read count bytes.now) }
{
    let mut rest = bytes;
    for _ in 0..count {
        let (_item, after) = R::at(rest)?;
        rest = after;
    }
    let items = LentItems {
        bytes,
        left: count,
        row: PhantomData,
    };
    Ok((items, rest))
}

/// The items of a list, each judged as `unpack` judges it, and the bytes after them. Takes no memory.
#[inline(always)]
pub fn list_at<T: Copy, R: Row<T>>(bytes: &[u8]) -> Result<(LentItems<'_, T, R>, &[u8]), Unpack>
    ensures { Gives (λ x. (x.0, x.1.now)) result ((list 0 R.codec).read bytes.now) }
{
    let (count, rest) = u32_at(bytes)?;
    items_at::<T, R>(count, rest)
}
