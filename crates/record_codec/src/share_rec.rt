ghost use Rattle.std.specs.Prelude.{◌≡◌, ◌+◌, ◌*◌, ◌++◌, ◌<◌, ◌≤◌, ◌^◌, ◌↔◌, Err, IfOk, IsTrue, codes, length, vec_len, vec_capacity};
ghost use Rattle.byteorder.specs.Endian.{little_bytes};
ghost use Rattle.record_codec.specs.Fields.{open_id, sid, text};
ghost use Rattle.record_codec.specs.ShareRec.{access as access_codec, is_access as is_access_number, has_delete, lease_name, share_bits, unmarked_entry, IsUnmarkedEntry, share_entry, IsShareEntry, old_share_fields, share_fields, share_fields_of, share_rec, HasNoMark, IsShareRec};
ghost use Rattle.record_codec.specs.Reads.{Gives, GivesOrMemory};

use crate::fault::Unpack;
use crate::reading::{
    in_set, moment_at, open_id_at, sid_at, text_at, truth_at, truth_or_zero_at, u8_at, u32_at,
    u32_or_zero_at, u64_or_zero_at,
};
use crate::record::Packed;
use crate::rows::{Row, owned_list_at, put_list};
use crate::small_text::SmallText;
use crate::watch::{WatchRec, WatchRow};
use crate::writing::{
    put_header, put_open_id, put_sid, put_text, put_truth, put_u8, put_u32, put_u64,
};
use sid_core::{Access, Items, LeaseName, OpenId, OutOfMemory, Share, Sid};
use std::alloc::Global;

/// An open of a file.
#[derive(Clone, Copy)]
pub struct ShareEntry {
    pub id: OpenId,
    pub owner: Sid,
    pub handle: u32,
    pub access: Access,
    pub share: Share,
    pub lease: Option<LeaseName>,
    /// How many seconds the open outlives its session; 0 where it isn't durable.
    pub durable: u32,
    /// The moment of opening.
    pub opened: u64,
    /// Whether the file is deleted once this open is closed and no other is left.
    pub marked: bool,
}

/// The opens of a file, and which calls wait for them.
#[derive(Drop)]
pub struct ShareRec {
    pub file: u32,
    pub path: SmallText,
    pub name: SmallText,
    /// Whether the file is deleted once no open of it is left.
    pub pending: bool,
    pub entries: Items<ShareEntry>,
    pub watchers: Items<WatchRec>,
}

fn is_access(bits: u32) -> bool
    ensures { result ≡ is_access_number bits }
{
    bits != 0 && bits & 0x1F_01FF == bits
}

fn access_at(bytes: &[u8], field: u32) -> Result<(Access, &[u8]), Unpack>
    ensures { Gives (λ x. (x.0, x.1.now)) result ((access_codec field).read bytes.now) }
{
    let (bits, rest) = u32_at(bytes)?;
    in_set(is_access(bits), field)?;
    Ok((Access(bits), rest))
}

fn share_at(bytes: &[u8], field: u32) -> Result<(Share, &[u8]), Unpack>
    ensures { Gives (λ x. (x.0, x.1.now)) result ((share_bits field).read bytes.now) }
{
    let (bits, rest) = u8_at(bytes)?;
    in_set(bits <= 7, field)?;
    Ok((Share(bits as u32), rest))
}

#[inline(always)]
fn lease_name_at(
    bytes: &[u8],
    leased: u32,
    guid: u32,
    key: u32,
) -> Result<(Option<LeaseName>, &[u8]), Unpack>
    ensures { Gives (λ x. (x.0, x.1.now)) result ((lease_name leased guid key).read bytes.now) }
{
    let (has_lease, rest) = truth_at(bytes, leased)?;
    let (guid, rest) = u64_or_zero_at(rest, guid, has_lease)?;
    let (key, rest) = u64_or_zero_at(rest, key, has_lease)?;
    if has_lease {
        Ok((Some(LeaseName { guid, key }), rest))
    } else {
        Ok((None, rest))
    }
}

fn put_lease_name(out: &mut Vec<u8>, lease: Option<LeaseName>)
    requires { vec_len out.old + 17 ≤ vec_capacity out.old }
    ensures items { out.new.items ≡ out.old.items ++ (lease_name 0 0 0).spell lease }
    ensures len { vec_len out.new ≡ vec_len out.old + 17 }
    ensures room { vec_capacity out.old ≤ vec_capacity out.new }
{
    let (leased, guid, key) = match lease {
        None => (false, 0, 0),
        Some(name) => (true, name.guid, name.key),
    };
    put_truth(out, leased);
    put_u64(out, guid);
    put_u64(out, key);
}

// An entry whose fields are numbered from that one on, without a mark.
#[inline(always)]
#[tactic(auto, unfolding(crate::specs::ShareRec::unmarked_entry))]
fn unmarked_entry_at(bytes: &[u8], first: u32) -> Result<(ShareEntry, &[u8]), Unpack>
    requires { first + 11 < 2 ^ 32 }
    ensures { Gives (λ x. (x.0, x.1.now)) result ((unmarked_entry first).read bytes.now) }
{
    let (id, rest) = open_id_at(bytes)?;
    let (owner, rest) = sid_at(rest)?;
    let (handle, rest) = u32_at(rest)?;
    let (access, rest) = access_at(rest, first + 5)?;
    let (share, rest) = share_at(rest, first + 6)?;
    let (lease, rest) = lease_name_at(rest, first + 7, first + 8, first + 9)?;
    let (durable, rest) = u32_or_zero_at(rest, first + 10, lease.is_some())?;
    let (opened, rest) = moment_at(rest, first + 11)?;
    let entry = ShareEntry {
        id,
        owner,
        handle,
        access,
        share,
        lease,
        durable,
        opened,
        marked: false,
    };
    Ok((entry, rest))
}

fn may_delete(access: Access) -> bool
    ensures { result ≡ has_delete access }
{
    access.0 & 0x1_0000 != 0
}

#[inline(always)]
#[tactic(auto, unfolding(crate::specs::ShareRec::share_entry))]
fn entry_at(bytes: &[u8]) -> Result<(ShareEntry, &[u8]), Unpack>
    ensures { Gives (λ x. (x.0, x.1.now)) result (share_entry.read bytes.now) }
{
    let (entry, rest) = unmarked_entry_at(bytes, 8)?;
    let (marked, rest) = truth_or_zero_at(rest, 20, may_delete(entry.access))?;
    Ok((ShareEntry { marked, ..entry }, rest))
}

// The first fault of bytes that are too few for an entry.
#[cold]
#[inline(never)]
fn short_entry_fault(bytes: &[u8]) -> Unpack
    requires { length bytes.now < 55 }
    ensures { share_entry.read bytes.now ≡ Err result }
{
    match entry_at(bytes) {
        Ok(_) => unreachable!(),
        Err(fault) => fault,
    }
}

// The same in version 1.
#[cold]
#[inline(never)]
fn short_unmarked_entry_fault(bytes: &[u8]) -> Unpack
    requires { length bytes.now < 54 }
    ensures { (unmarked_entry 7).read bytes.now ≡ Err result }
{
    match unmarked_entry_at(bytes, 7) {
        Ok(_) => unreachable!(),
        Err(fault) => fault,
    }
}

fn put_owner(out: &mut Vec<u8>, entry: &ShareEntry)
    requires { vec_len out.old + 20 ≤ vec_capacity out.old }
    ensures items { out.new.items ≡ out.old.items ++ ((open_id 0 0).spell entry.now.id ++ ((sid 0 0).spell entry.now.owner ++ little_bytes 4 entry.now.handle)) }
    ensures len { vec_len out.new ≡ vec_len out.old + 20 }
    ensures room { vec_capacity out.old ≤ vec_capacity out.new }
{
    put_open_id(out, entry.id);
    put_sid(out, entry.owner);
    put_u32(out, entry.handle);
}

fn put_rights(out: &mut Vec<u8>, entry: &ShareEntry)
    requires share { entry.now.share.0 < 256 }
    requires room { vec_len out.old + 5 ≤ vec_capacity out.old }
    ensures items { out.new.items ≡ out.old.items ++ (little_bytes 4 entry.now.access.0 ++ little_bytes 1 entry.now.share.0) }
    ensures len { vec_len out.new ≡ vec_len out.old + 5 }
    ensures room { vec_capacity out.old ≤ vec_capacity out.new }
{
    put_u32(out, entry.access.0);
    put_u8(out, entry.share.0 as u8);
}

fn put_times(out: &mut Vec<u8>, entry: &ShareEntry)
    requires { vec_len out.old + 29 ≤ vec_capacity out.old }
    ensures items { out.new.items ≡ out.old.items ++ ((lease_name 0 0 0).spell entry.now.lease ++ (little_bytes 4 entry.now.durable ++ little_bytes 8 entry.now.opened)) }
    ensures len { vec_len out.new ≡ vec_len out.old + 29 }
    ensures room { vec_capacity out.old ≤ vec_capacity out.new }
{
    put_lease_name(out, entry.lease);
    put_u32(out, entry.durable);
    put_u64(out, entry.opened);
}

#[tactic(auto, unfolding(crate::specs::ShareRec::unmarked_entry))]
fn put_unmarked(out: &mut Vec<u8>, entry: &ShareEntry)
    requires share { entry.now.share.0 < 256 }
    requires room { vec_len out.old + 54 ≤ vec_capacity out.old }
    ensures items { out.new.items ≡ out.old.items ++ (unmarked_entry 0).spell entry.now }
    ensures len { vec_len out.new ≡ vec_len out.old + 54 }
    ensures room { vec_capacity out.old ≤ vec_capacity out.new }
{
    put_owner(out, entry);
    put_rights(out, entry);
    put_times(out, entry);
}

/// An open: its id, owner and handle, its rights, its lease, its times and its mark.
#[derive(Clone, Copy)]
pub enum ShareEntryRow {}

#[tactic(auto, unfolding(crate::specs::ShareRec::unmarked_entry, crate::specs::ShareRec::share_entry))]
impl Row<ShareEntry> for ShareEntryRow {
    ghost codec = { share_entry };

    ghost valid = { IsShareEntry };

    ghost SIZE = { 55 };

    const SIZE: usize = 55;

    // A whole item is read with one look at the length.
    #[inline(always)]
    fn at(bytes: &[u8]) -> Result<(ShareEntry, &[u8]), Unpack> {
        if bytes.len() < 55 {
            return Err(short_entry_fault(bytes));
        }
        entry_at(bytes)
    }

    fn put(out: &mut Vec<u8>, item: &ShareEntry) {
        put_unmarked(out, item);
        put_truth(out, item.marked);
    }

    fn laws() {}
}

/// An open as version 1 of its record has it: without a mark.
#[derive(Clone, Copy)]
pub enum UnmarkedEntryRow {}

#[tactic(auto, unfolding(crate::specs::ShareRec::unmarked_entry))]
impl Row<ShareEntry> for UnmarkedEntryRow {
    ghost codec = { unmarked_entry 7 };

    ghost valid = { IsUnmarkedEntry };

    ghost SIZE = { 54 };

    const SIZE: usize = 54;

    #[inline(always)]
    fn at(bytes: &[u8]) -> Result<(ShareEntry, &[u8]), Unpack> {
        if bytes.len() < 54 {
            return Err(short_unmarked_entry_fault(bytes));
        }
        unmarked_entry_at(bytes, 7)
    }

    fn put(out: &mut Vec<u8>, item: &ShareEntry) {
        put_unmarked(out, item);
    }

    fn laws() {}
}

#[inline(always)]
fn owned_text_at(alloc: Global, bytes: &[u8], field: u32) -> Result<(SmallText, &[u8]), Unpack>
    ensures { GivesOrMemory (λ x. (x.0, x.1.now)) result ((text field).read bytes.now) }
{
    let (lent, rest) = text_at(bytes, field)?;
    Ok((SmallText::from_slice(alloc, lent)?, rest))
}

impl ShareRec {
    fn put_file(&self, out: &mut Vec<u8>)
        requires path { length self.now.path < 2 ^ 16 }
        requires name { length self.now.name < 2 ^ 16 }
        requires room { vec_len out.old + (8 + (length self.now.path + length self.now.name)) ≤ vec_capacity out.old }
        ensures items { out.new.items ≡ out.old.items ++ (little_bytes 4 self.now.file ++ ((text 4).spell self.now.path ++ (text 5).spell self.now.name)) }
        ensures len { vec_len out.new ≡ vec_len out.old + (8 + (length self.now.path + length self.now.name)) }
        ensures room { vec_capacity out.old ≤ vec_capacity out.new }
    {
        put_u32(out, self.file);
        put_text(out, self.path.bytes());
        put_text(out, self.name.bytes());
    }

    #[tactic(auto, unfolding(crate::specs::ShareRec::old_share_fields))]
    fn put_old_fields(&self, out: &mut Vec<u8>)
        requires valid { IsShareRec self.now }
        requires unmarked { HasNoMark self.now }
        requires room { vec_len out.old + (16 + (length self.now.path + length self.now.name) + 54 * length self.now.entries + 12 * length self.now.watchers) ≤ vec_capacity out.old }
        ensures { out.new.items ≡ out.old.items ++ old_share_fields.spell self.now }
    {
        self.put_file(out);
        put_list::<ShareEntry, UnmarkedEntryRow>(out, self.entries.as_slice());
        put_list::<WatchRec, WatchRow>(out, self.watchers.as_slice());
    }

    #[tactic(auto, unfolding(crate::specs::ShareRec::old_share_fields))]
    fn old_fields_at(alloc: Global, bytes: &[u8]) -> Result<(ShareRec, &[u8]), Unpack>
        ensures { GivesOrMemory (λ x. (x.0, x.1.now)) result (old_share_fields.read bytes.now) }
    {
        let (file, rest) = u32_at(bytes)?;
        let (path, rest) = owned_text_at(alloc, rest, 4)?;
        let (name, rest) = owned_text_at(alloc, rest, 5)?;
        let (entries, rest) = owned_list_at::<ShareEntry, UnmarkedEntryRow>(alloc, rest)?;
        let (watchers, rest) = owned_list_at::<WatchRec, WatchRow>(alloc, rest)?;
        let record = ShareRec {
            file,
            path,
            name,
            pending: false,
            entries,
            watchers,
        };
        Ok((record, rest))
    }

    #[tactic(auto, unfolding(crate::specs::ShareRec::share_fields))]
    fn new_fields_at(alloc: Global, bytes: &[u8]) -> Result<(ShareRec, &[u8]), Unpack>
        ensures { GivesOrMemory (λ x. (x.0, x.1.now)) result (share_fields.read bytes.now) }
    {
        let (file, rest) = u32_at(bytes)?;
        let (path, rest) = owned_text_at(alloc, rest, 4)?;
        let (name, rest) = owned_text_at(alloc, rest, 5)?;
        let (pending, rest) = truth_at(rest, 6)?;
        let (entries, rest) = owned_list_at::<ShareEntry, ShareEntryRow>(alloc, rest)?;
        let (watchers, rest) = owned_list_at::<WatchRec, WatchRow>(alloc, rest)?;
        let record = ShareRec {
            file,
            path,
            name,
            pending,
            entries,
            watchers,
        };
        Ok((record, rest))
    }

    /// Whether version 1 can hold the record: the file isn't pending, and no entry is marked.
    pub fn has_no_mark(&self) -> bool
        ensures { IsTrue result ↔ HasNoMark self.now }
    {
        !self.pending && self.entries.as_slice().iter().all(|entry| !entry.marked)
    }

    /// How many bytes the record has in version 1.
    #[tactic(auto, using(crate::proofs::ShareExact::packed_old_size))]
    pub fn packed_old_size(&self) -> usize
        requires valid { IsShareRec self.now }
        requires unmarked { HasNoMark self.now }
        ensures { result ≡ length (share_rec.spell (1, self.now)) }
    {
        let texts = self.path.bytes().len() + self.name.bytes().len();
        22 + texts + 54 * self.entries.len() + 12 * self.watchers.len()
    }

    /// Adds the one spelling of the record in version 1 to bytes that have room for it. Takes no memory.
    #[tactic(auto, using(crate::proofs::ShareExact::packed_old_size))]
    pub fn pack_old_onto(&self, out: &mut Vec<u8>)
        requires valid { IsShareRec self.now }
        requires unmarked { HasNoMark self.now }
        requires room { vec_len out.old + length (share_rec.spell (1, self.now)) ≤ vec_capacity out.old }
        ensures { out.new.items ≡ out.old.items ++ share_rec.spell (1, self.now) }
    {
        put_header(out, *b"SHAR", 1);
        self.put_old_fields(out);
    }

    /// The one spelling of the record in version 1, which older workers read. Takes memory once, for exactly its bytes.
    pub fn pack_old(&self, alloc: Global) -> Result<Vec<u8>, OutOfMemory>
        requires valid { IsShareRec self.now }
        requires unmarked { HasNoMark self.now }
        ensures { IfOk result (λ packed. packed.items ≡ share_rec.spell (1, self.now)) }
    {
        let mut out = Vec::with_capacity(alloc, self.packed_old_size())?;
        self.pack_old_onto(&mut out);
        Ok(out)
    }
}

#[tactic(auto, unfolding(crate::specs::ShareRec::share_fields))]
impl Packed for ShareRec {
    ghost MAGIC = { codes "SHAR" };

    ghost OLDEST = { 1 };

    ghost NEWEST = { 2 };

    ghost fields = { share_fields_of };

    ghost valid = { IsShareRec };

    ghost size = { λ r. 17 + (length r.path + length r.name) + 55 * length r.entries + 12 * length r.watchers };

    const MAGIC: [u8; 4] = *b"SHAR";

    const OLDEST: u16 = 1;

    const NEWEST: u16 = 2;

    fn fields_size(&self) -> usize {
        let texts = self.path.bytes().len() + self.name.bytes().len();
        17 + texts + 55 * self.entries.len() + 12 * self.watchers.len()
    }

    fn put_fields(&self, out: &mut Vec<u8>) {
        self.put_file(out);
        put_truth(out, self.pending);
        put_list::<ShareEntry, ShareEntryRow>(out, self.entries.as_slice());
        put_list::<WatchRec, WatchRow>(out, self.watchers.as_slice());
    }

    fn fields_at(alloc: Global, version: u16, bytes: &[u8]) -> Result<(ShareRec, &[u8]), Unpack> {
        if version == 1 {
            ShareRec::old_fields_at(alloc, bytes)
        } else {
            ShareRec::new_fields_at(alloc, bytes)
        }
    }

    fn laws() {}
}
