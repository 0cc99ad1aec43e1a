ghost use Rattle.std.specs.Prelude.{◌≤◌, IfOk, length};
ghost use Rattle.record_codec.specs.ShareRec.{IsShareRec};

use crate::records::{is_record, record_bytes};
use anyhow::{Context, Result};
use chain_map::Chain;
use record_codec::{Packed, ShareRec, Unpack};
use std::alloc::Global;

/// The order in which a chain's keys came.
#[derive(Clone, Copy)]
pub enum Order {
    Rising,
    Falling,
    Random,
}

impl Order {
    pub fn named(word: &str) -> Option<Order> {
        match word {
            "rising" => Some(Order::Rising),
            "falling" => Some(Order::Falling),
            "random" => Some(Order::Random),
            _ => None,
        }
    }

    // 24 bytes, as of a share mode record. Keys of different numbers differ.
    fn key(self, number: u64) -> [u8; 24] {
        let number = match self {
            Order::Rising => number,
            Order::Falling => u64::MAX - number,
            Order::Random => number.wrapping_mul(0x9E37_79B9_7F4A_7C15),
        };
        let mut key = [0; 24];
        key[7] = 1;
        key[8..16].copy_from_slice(&number.to_be_bytes());
        key
    }
}

/// What is done to a chain.
#[derive(Clone, Copy)]
pub enum ChainWork {
    /// Look a key up that is there.
    Find,
    /// Add a key, which comes next in the order.
    PutNew,
    /// Give a key that is there another value.
    PutOld,
    /// Take a key out.
    Remove,
    /// Copy the chain, and drop the copy.
    Copy,
    /// Copy the chain, find a record, unpack it, pack it and put it into the copy, drop the chain, and settle the copy.
    Change,
    /// The same, but judge the record in place, and put its bytes with another handle of its open.
    Patch,
    /// Copy the chain, add a key to the copy, drop the chain, and settle the copy.
    Add,
    /// Go over all pairs.
    Entries,
}

impl ChainWork {
    pub fn named(word: &str) -> Option<ChainWork> {
        match word {
            "find" => Some(ChainWork::Find),
            "put_new" => Some(ChainWork::PutNew),
            "put_old" => Some(ChainWork::PutOld),
            "remove" => Some(ChainWork::Remove),
            "copy" => Some(ChainWork::Copy),
            "change" => Some(ChainWork::Change),
            "patch" => Some(ChainWork::Patch),
            "add" => Some(ChainWork::Add),
            "entries" => Some(ChainWork::Entries),
            _ => None,
        }
    }
}

/// Does it so often to a chain of so many records with one entry, whose keys came in this order.
pub fn count(alloc: Global, work: ChainWork, order: Order, pairs: u32, times: u32) -> Result<u64> {
    let packed = record_bytes(alloc, 1)?;
    let mut chain = Chain::new(alloc);
    for number in 0..pairs {
        put(
            alloc,
            &mut chain,
            order.key(u64::from(number)),
            packed.as_slice(),
        )?;
    }
    if let ChainWork::Copy = work {
        copy_often(&chain, times)?;
        return Ok(total(&chain));
    }
    let mut done: u64 = 0;
    for turn in 0..times {
        let at = u64::from(turn.wrapping_mul(7919) % pairs.max(1));
        let next = u64::from(pairs) + u64::from(turn);
        match work {
            ChainWork::Find => {
                done = done.wrapping_add(u64::from(chain.find(&order.key(at)).is_some()));
            }
            ChainWork::PutNew => put(alloc, &mut chain, order.key(next), packed.as_slice())?,
            ChainWork::PutOld => put(alloc, &mut chain, order.key(at), packed.as_slice())?,
            ChainWork::Remove => {
                done = done.wrapping_add(u64::from(chain.remove(&order.key(at))));
            }
            // done above
            ChainWork::Copy => {}
            ChainWork::Change => change(alloc, &mut chain, order.key(at))?,
            ChainWork::Patch => patch(alloc, &mut chain, order.key(at))?,
            ChainWork::Add => add(alloc, &mut chain, order.key(next), packed.as_slice())?,
            ChainWork::Entries => done = done.wrapping_add(total(&chain)),
        }
    }
    Ok(done.wrapping_add(total(&chain)))
}

// A loop of its own takes less than one that tells what is done.
#[inline(never)]
fn copy_often(chain: &Chain, times: u32) -> Result<()> {
    for _ in 0..times {
        let _copy = chain.copy()?;
    }
    Ok(())
}

fn put(alloc: Global, chain: &mut Chain, key: [u8; 24], value: &[u8]) -> Result<()> {
    chain.put(key.to_vec(alloc)?, value.to_vec(alloc)?)?;
    Ok(())
}

fn change(alloc: Global, chain: &mut Chain, key: [u8; 24]) -> Result<()> {
    let mut next = chain.copy()?;
    let record = ShareRec::unpack(alloc, next.find(&key).context("no record")?)?;
    put_record(alloc, &mut next, key, &record)?;
    *chain = next;
    chain.settle();
    Ok(())
}

fn patch(alloc: Global, chain: &mut Chain, key: [u8; 24]) -> Result<()> {
    let mut next = chain.copy()?;
    let bytes = patched_bytes(alloc, key, next.find(&key).context("no record")?)?;
    next.put_packed(bytes, 24)?;
    *chain = next;
    chain.settle();
    Ok(())
}

// The key and behind it the record, judged in place, with another handle of its open.
fn patched_bytes(alloc: Global, key: [u8; 24], record: &[u8]) -> Result<Vec<u8>>
    ensures { IfOk result (λ bytes. 24 ≤ length bytes.items) }
{
    if !is_record(record)? {
        return Err(Unpack::Trailing.into());
    }
    let room = record.len().checked_add(24).context("no room")?;
    let mut bytes = Vec::with_capacity(alloc, room)?;
    bytes.extend_from_slice(&key)?;
    bytes.extend_from_slice(record)?;
    // the handle of the first entry stands 49 bytes behind the key
    if 73 < bytes.len() {
        bytes[73] = bytes[73].wrapping_add(1);
    }
    Ok(bytes)
}

fn put_record(alloc: Global, chain: &mut Chain, key: [u8; 24], share: &ShareRec) -> Result<()>
    requires { IsShareRec share.now }
{
    let room = share.packed_size().checked_add(24).context("no room")?;
    let mut bytes = Vec::with_capacity(alloc, room)?;
    bytes.extend_from_slice(&key)?;
    share.pack_onto(&mut bytes);
    chain.put_packed(bytes, 24)?;
    Ok(())
}

fn add(alloc: Global, chain: &mut Chain, key: [u8; 24], value: &[u8]) -> Result<()> {
    let mut next = chain.copy()?;
    put(alloc, &mut next, key, value)?;
    *chain = next;
    chain.settle();
    Ok(())
}

fn total(chain: &Chain) -> u64 {
    let mut sum: u64 = 0;
    for (key, value) in chain.entries() {
        sum = sum
            .wrapping_add(key.len() as u64)
            .wrapping_add(value.len() as u64);
    }
    sum
}
