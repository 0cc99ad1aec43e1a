ghost use Rattle.std.specs.Prelude.{codes};
ghost use Rattle.record_codec.specs.OpenRec.{open_fields, IsOpenRec};

use crate::fault::Unpack;
use crate::reading::{open_id_at, u32_at};
use crate::record::Packed;
use crate::writing::{put_open_id, put_u32};
use sid_core::OpenId;
use std::alloc::Global;

/// Which open stands under a pid and a handle, or under the id of an open, and of which file it is.
#[derive(Clone, Copy)]
pub struct OpenRec {
    pub id: OpenId,
    pub file: u32,
}

#[tactic(auto, unfolding(crate::specs::OpenRec::open_fields))]
impl Packed for OpenRec {
    ghost MAGIC = { codes "OPEN" };

    ghost OLDEST = { 1 };

    ghost NEWEST = { 1 };

    ghost fields = { λ version. open_fields };

    ghost valid = { IsOpenRec };

    ghost size = { λ r. 12 };

    const MAGIC: [u8; 4] = *b"OPEN";

    const OLDEST: u16 = 1;

    const NEWEST: u16 = 1;

    fn fields_size(&self) -> usize {
        12
    }

    fn put_fields(&self, out: &mut Vec<u8>) {
        put_open_id(out, self.id);
        put_u32(out, self.file);
    }

    fn fields_at(_alloc: Global, _version: u16, bytes: &[u8]) -> Result<(OpenRec, &[u8]), Unpack> {
        let (id, rest) = open_id_at(bytes)?;
        let (file, rest) = u32_at(rest)?;
        Ok((OpenRec { id, file }, rest))
    }

    fn laws() {}
}
