ghost use Rattle.std.specs.Prelude.{◌+◌, ◌*◌, codes, length};
ghost use Rattle.record_codec.specs.GLockRec.{hold, IsHold, upgrade_watch, IsUpgradeWatch, glock_fields, IsGLockRec};

use crate::fault::Unpack;
use crate::reading::{mode_at, sid_at, truth_at, u32_at};
use crate::record::Packed;
use crate::rows::{Row, owned_list_at, put_list};
use crate::watch::WatchRec;
use crate::writing::{put_mode, put_sid, put_truth, put_u32};
use sid_core::{Items, Mode, Sid};
use std::alloc::Global;

/// A holder of a global lock.
#[derive(Clone, Copy)]
pub struct Hold {
    pub sid: Sid,
    pub mode: Mode,
}

/// A global lock: who holds it, and which calls wait for it.
#[derive(Drop)]
pub struct GLockRec {
    pub holds: Items<Hold>,
    pub watchers: Items<WatchRec>,
}

/// A holder: its session and its mode.
#[derive(Clone, Copy)]
pub enum HoldRow {}

#[tactic(auto, unfolding(crate::specs::GLockRec::hold))]
impl Row<Hold> for HoldRow {
    ghost codec = { hold };

    ghost valid = { IsHold };

    ghost SIZE = { 9 };

    const SIZE: usize = 9;

    fn at(bytes: &[u8]) -> Result<(Hold, &[u8]), Unpack> {
        let (sid, rest) = sid_at(bytes)?;
        let (mode, rest) = mode_at(rest, 6)?;
        Ok((Hold { sid, mode }, rest))
    }

    fn put(out: &mut Vec<u8>, item: &Hold) {
        put_sid(out, item.sid);
        put_mode(out, item.mode);
    }

    fn laws() {}
}

/// A watch with its upgrade flag.
#[derive(Clone, Copy)]
pub enum UpgradeRow {}

#[tactic(auto, unfolding(crate::specs::GLockRec::upgrade_watch))]
impl Row<WatchRec> for UpgradeRow {
    ghost codec = { upgrade_watch };

    ghost valid = { IsUpgradeWatch };

    ghost SIZE = { 13 };

    const SIZE: usize = 13;

    fn at(bytes: &[u8]) -> Result<(WatchRec, &[u8]), Unpack> {
        let (sid, rest) = sid_at(bytes)?;
        let (call, rest) = u32_at(rest)?;
        let (upgrade, rest) = truth_at(rest, 11)?;
        Ok((WatchRec { sid, call, upgrade }, rest))
    }

    fn put(out: &mut Vec<u8>, item: &WatchRec) {
        put_sid(out, item.sid);
        put_u32(out, item.call);
        put_truth(out, item.upgrade);
    }

    fn laws() {}
}

#[tactic(auto, unfolding(crate::specs::GLockRec::glock_fields))]
impl Packed for GLockRec {
    ghost MAGIC = { codes "GLCK" };

    ghost OLDEST = { 1 };

    ghost NEWEST = { 1 };

    ghost fields = { λ version. glock_fields };

    ghost valid = { IsGLockRec };

    ghost size = { λ r. 8 + 9 * length r.holds + 13 * length r.watchers };

    const MAGIC: [u8; 4] = *b"GLCK";

    const OLDEST: u16 = 1;

    const NEWEST: u16 = 1;

    fn fields_size(&self) -> usize {
        8 + 9 * self.holds.len() + 13 * self.watchers.len()
    }

    fn put_fields(&self, out: &mut Vec<u8>) {
        put_list::<Hold, HoldRow>(out, self.holds.as_slice());
        put_list::<WatchRec, UpgradeRow>(out, self.watchers.as_slice());
    }

    fn fields_at(alloc: Global, _version: u16, bytes: &[u8]) -> Result<(GLockRec, &[u8]), Unpack> {
        let (holds, rest) = owned_list_at::<Hold, HoldRow>(alloc, bytes)?;
        let (watchers, rest) = owned_list_at::<WatchRec, UpgradeRow>(alloc, rest)?;
        Ok((GLockRec { holds, watchers }, rest))
    }

    fn laws() {}
}
