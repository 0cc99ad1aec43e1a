ghost use Rattle.std.specs.Prelude.{◌≡◌, ◌+◌, ◌*◌, ◌++◌, ◌≤◌, codes, length, vec_len, vec_capacity};
ghost use Rattle.byteorder.specs.Endian.{little_bytes};
ghost use Rattle.record_codec.specs.Fields.{mode as mode_codec, u64_in};
ghost use Rattle.record_codec.specs.RangeRec.{range_item, IsRangeItem, range_length, range_fields, IsRangeRec};
ghost use Rattle.record_codec.specs.Reads.{Gives};

use crate::fault::Unpack;
use crate::reading::{in_set, mode_at, open_id_at, u32_at, u64_at};
use crate::record::Packed;
use crate::rows::{Row, owned_list_at, put_list};
use crate::watch::{WatchRec, WatchRow};
use crate::writing::{put_mode, put_open_id, put_u32, put_u64};
use sid_core::{Items, Mode, OpenId};
use std::alloc::Global;

/// A lock on a range of bytes.
#[derive(Clone, Copy)]
pub struct RangeItem {
    pub id: OpenId,
    pub start: u64,
    pub length: u64,
    pub mode: Mode,
}

/// The byte-range locks of a file, and which calls wait for them.
#[derive(Drop)]
pub struct RangeRec {
    pub file: u32,
    pub ranges: Items<RangeItem>,
    pub watchers: Items<WatchRec>,
}

fn is_length(start: u64, length: u64) -> bool
    ensures { result ≡ range_length start length }
{
    length == 0 || length - 1 <= u64::MAX - start
}

// The length of a range that begins there: the last byte of one that isn't empty has a number of 64 bits.
fn length_at(bytes: &[u8], start: u64) -> Result<(u64, &[u8]), Unpack>
    ensures { Gives (λ x. (x.0, x.1.now)) result ((u64_in 8 (range_length start)).read bytes.now) }
{
    let (length, rest) = u64_at(bytes)?;
    in_set(is_length(start, length), 8)?;
    Ok((length, rest))
}

fn put_range(out: &mut Vec<u8>, item: &RangeItem)
    requires { vec_len out.old + 17 ≤ vec_capacity out.old }
    ensures items { out.new.items ≡ out.old.items ++ (little_bytes 8 item.now.start ++ (little_bytes 8 item.now.length ++ (mode_codec 9).spell item.now.mode)) }
    ensures len { vec_len out.new ≡ vec_len out.old + 17 }
    ensures room { vec_capacity out.old ≤ vec_capacity out.new }
{
    put_u64(out, item.start);
    put_u64(out, item.length);
    put_mode(out, item.mode);
}

/// A range: the id of its open, its bytes and its mode.
#[derive(Clone, Copy)]
pub enum RangeRow {}

#[tactic(auto, unfolding(crate::specs::RangeRec::range_item))]
impl Row<RangeItem> for RangeRow {
    ghost codec = { range_item };

    ghost valid = { IsRangeItem };

    ghost SIZE = { 25 };

    const SIZE: usize = 25;

    fn at(bytes: &[u8]) -> Result<(RangeItem, &[u8]), Unpack> {
        let (id, rest) = open_id_at(bytes)?;
        let (start, rest) = u64_at(rest)?;
        let (length, rest) = length_at(rest, start)?;
        let (mode, rest) = mode_at(rest, 9)?;
        let item = RangeItem {
            id,
            start,
            length,
            mode,
        };
        Ok((item, rest))
    }

    fn put(out: &mut Vec<u8>, item: &RangeItem) {
        put_open_id(out, item.id);
        put_range(out, item);
    }

    fn laws() {}
}

#[tactic(auto, unfolding(crate::specs::RangeRec::range_fields))]
impl Packed for RangeRec {
    ghost MAGIC = { codes "BRLK" };

    ghost OLDEST = { 1 };

    ghost NEWEST = { 1 };

    ghost fields = { λ version. range_fields };

    ghost valid = { IsRangeRec };

    ghost size = { λ r. 12 + 25 * length r.ranges + 12 * length r.watchers };

    const MAGIC: [u8; 4] = *b"BRLK";

    const OLDEST: u16 = 1;

    const NEWEST: u16 = 1;

    fn fields_size(&self) -> usize {
        12 + 25 * self.ranges.len() + 12 * self.watchers.len()
    }

    fn put_fields(&self, out: &mut Vec<u8>) {
        put_u32(out, self.file);
        put_list::<RangeItem, RangeRow>(out, self.ranges.as_slice());
        put_list::<WatchRec, WatchRow>(out, self.watchers.as_slice());
    }

    fn fields_at(alloc: Global, _version: u16, bytes: &[u8]) -> Result<(RangeRec, &[u8]), Unpack> {
        let (file, rest) = u32_at(bytes)?;
        let (ranges, rest) = owned_list_at::<RangeItem, RangeRow>(alloc, rest)?;
        let (watchers, rest) = owned_list_at::<WatchRec, WatchRow>(alloc, rest)?;
        let record = RangeRec {
            file,
            ranges,
            watchers,
        };
        Ok((record, rest))
    }

    fn laws() {}
}
