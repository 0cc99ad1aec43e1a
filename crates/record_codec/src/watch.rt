ghost use Rattle.record_codec.specs.Fields.{watch, IsWatch};

use crate::fault::Unpack;
use crate::reading::{sid_at, u32_at};
use crate::rows::Row;
use crate::writing::{put_sid, put_u32};
use sid_core::Sid;

/// A call of a session that waits. `upgrade` says that the session holds the global lock that it waits for.
#[derive(Clone, Copy)]
pub struct WatchRec {
    pub sid: Sid,
    pub call: u32,
    pub upgrade: bool,
}

/// A watch whose upgrade flag is false and isn't written.
#[derive(Clone, Copy)]
pub enum WatchRow {}

impl Row<WatchRec> for WatchRow {
    ghost codec = { watch 0 0 0 };

    ghost valid = { IsWatch };

    ghost SIZE = { 12 };

    const SIZE: usize = 12;

    fn at(bytes: &[u8]) -> Result<(WatchRec, &[u8]), Unpack> {
        let (sid, rest) = sid_at(bytes)?;
        let (call, rest) = u32_at(rest)?;
        let upgrade = false;
        Ok((WatchRec { sid, call, upgrade }, rest))
    }

    fn put(out: &mut Vec<u8>, item: &WatchRec) {
        put_sid(out, item.sid);
        put_u32(out, item.call);
    }

    fn laws() {}
}
