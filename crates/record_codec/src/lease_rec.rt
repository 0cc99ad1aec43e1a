ghost use Rattle.std.specs.Prelude.{◌≡◌, ◌+◌, ◌*◌, ◌++◌, ◌≤◌, codes, length, vec_len, vec_capacity};
ghost use Rattle.byteorder.specs.Endian.{little_bytes};
ghost use Rattle.record_codec.specs.Fields.{state as state_codec, truth as truth_codec};
ghost use Rattle.record_codec.specs.LeaseRec.{lease_ref, IsLeaseRef, lease_fields, IsLeaseRec};

use crate::fault::Unpack;
use crate::reading::{
    expiry_at, lowered_at, needed_at, open_id_at, sid_at, state_at, truth_at, u32_at,
};
use crate::record::Packed;
use crate::rows::{Row, owned_list_at, put_list};
use crate::writing::{put_open_id, put_sid, put_state, put_truth, put_u32, put_u64};
use sid_core::{Items, LeaseState, OpenId, Sid};
use std::alloc::Global;

/// An open that has a lease.
#[derive(Clone, Copy)]
pub struct LeaseRef {
    pub id: OpenId,
    pub owner: Sid,
    pub durable: u32,
}

/// A lease, and the opens that have it.
#[derive(Drop)]
pub struct LeaseRec {
    pub file: u32,
    pub held: LeaseState,
    /// Whether the lease is being broken: to `asked`, and in the end to `needed`.
    pub breaking: bool,
    pub asked: LeaseState,
    pub needed: LeaseState,
    /// The moment at which the break expires; 0 where the lease isn't being broken.
    pub until: u64,
    pub refs: Items<LeaseRef>,
}

/// An open that has a lease: its id, its owner and how long it is durable.
#[derive(Clone, Copy)]
pub enum LeaseRefRow {}

#[tactic(auto, unfolding(crate::specs::LeaseRec::lease_ref))]
impl Row<LeaseRef> for LeaseRefRow {
    ghost codec = { lease_ref };

    ghost valid = { IsLeaseRef };

    ghost SIZE = { 20 };

    const SIZE: usize = 20;

    fn at(bytes: &[u8]) -> Result<(LeaseRef, &[u8]), Unpack> {
        let (id, rest) = open_id_at(bytes)?;
        let (owner, rest) = sid_at(rest)?;
        let (durable, rest) = u32_at(rest)?;
        Ok((LeaseRef { id, owner, durable }, rest))
    }

    fn put(out: &mut Vec<u8>, item: &LeaseRef) {
        put_open_id(out, item.id);
        put_sid(out, item.owner);
        put_u32(out, item.durable);
    }

    fn laws() {}
}

impl LeaseRec {
    fn put_break(&self, out: &mut Vec<u8>)
        requires { vec_len out.old + 11 ≤ vec_capacity out.old }
        ensures items { out.new.items ≡ out.old.items ++ ((truth_codec 5).spell self.now.breaking ++ ((state_codec 6).spell self.now.asked ++ ((state_codec 7).spell self.now.needed ++ little_bytes 8 self.now.until))) }
        ensures len { vec_len out.new ≡ vec_len out.old + 11 }
        ensures room { vec_capacity out.old ≤ vec_capacity out.new }
    {
        put_truth(out, self.breaking);
        put_state(out, self.asked);
        put_state(out, self.needed);
        put_u64(out, self.until);
    }
}

#[tactic(auto, unfolding(crate::specs::LeaseRec::lease_fields))]
impl Packed for LeaseRec {
    ghost MAGIC = { codes "LEAS" };

    ghost OLDEST = { 2 };

    ghost NEWEST = { 2 };

    ghost fields = { λ version. lease_fields };

    ghost valid = { IsLeaseRec };

    ghost size = { λ r. 20 + 20 * length r.refs };

    const MAGIC: [u8; 4] = *b"LEAS";

    const OLDEST: u16 = 2;

    const NEWEST: u16 = 2;

    fn fields_size(&self) -> usize {
        20 + 20 * self.refs.len()
    }

    fn put_fields(&self, out: &mut Vec<u8>) {
        put_u32(out, self.file);
        put_state(out, self.held);
        self.put_break(out);
        put_list::<LeaseRef, LeaseRefRow>(out, self.refs.as_slice());
    }

    fn fields_at(alloc: Global, _version: u16, bytes: &[u8]) -> Result<(LeaseRec, &[u8]), Unpack> {
        let (file, rest) = u32_at(bytes)?;
        let (held, rest) = state_at(rest, 4)?;
        let (breaking, rest) = truth_at(rest, 5)?;
        let (asked, rest) = lowered_at(rest, 6, breaking, held)?;
        let (needed, rest) = needed_at(rest, 7, breaking, asked)?;
        let (until, rest) = expiry_at(rest, 8, breaking)?;
        let (refs, rest) = owned_list_at::<LeaseRef, LeaseRefRow>(alloc, rest)?;
        let record = LeaseRec {
            file,
            held,
            breaking,
            asked,
            needed,
            until,
            refs,
        };
        Ok((record, rest))
    }

    fn laws() {}
}
