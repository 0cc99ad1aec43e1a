ghost use Rattle.std.specs.Prelude.{◌≡◌, ◌+◌, ◌*◌, ◌++◌, ◌≤◌, codes, length, vec_len, vec_capacity};
ghost use Rattle.byteorder.specs.Endian.{little_bytes};
ghost use Rattle.sid_core.specs.Values.{IsMoment};
ghost use Rattle.record_codec.specs.Fields.{list_in, truth as truth_codec};
ghost use Rattle.record_codec.specs.RegisterRec.{ended as ended_codec, ended_count, register_fields, IsRegisterRec};
ghost use Rattle.record_codec.specs.Reads.{GivesOrMemory};

use crate::fault::Unpack;
use crate::reading::{in_set, moment_at, truth_at, u32_at, u32_within};
use crate::record::Packed;
use crate::rows::{Row, owned_list_at, put_list, rows_at};
use crate::watch::{WatchRec, WatchRow};
use crate::writing::{put_truth, put_u32, put_u64};
use sid_core::Items;
use std::alloc::Global;

/// A worker process and its sessions.
#[derive(Drop)]
pub struct RegisterRec {
    pub worker: u32,
    pub alive: bool,
    /// The number of the last session.
    pub session: u32,
    /// The moment at which it was connected.
    pub connected: u64,
    /// The moments at which sessions ended, the first session's first.
    pub ended: Items<u64>,
    pub watchers: Items<WatchRec>,
}

/// The moment at which a session ended.
#[derive(Clone, Copy)]
pub enum EndedRow {}

impl Row<u64> for EndedRow {
    ghost codec = { ended_codec 8 };

    ghost valid = { IsMoment };

    ghost SIZE = { 8 };

    const SIZE: usize = 8;

    fn at(bytes: &[u8]) -> Result<(u64, &[u8]), Unpack> {
        moment_at(bytes, 8)
    }

    fn put(out: &mut Vec<u8>, item: &u64) {
        put_u64(out, *item);
    }

    fn laws() {}
}

fn ended_at(
    alloc: Global,
    bytes: &[u8],
    alive: bool,
    session: u32,
) -> Result<(Items<u64>, &[u8]), Unpack>
    ensures { GivesOrMemory (λ x. (x.0, x.1.now)) result ((list_in 7 (ended_count alive session) (ended_codec 8)).read bytes.now) }
{
    let sessions = if alive {
        session.saturating_sub(1)
    } else {
        session
    };
    let (count, rest) = u32_at(bytes)?;
    in_set(count == sessions, 7)?;
    let (rows, rest) = rows_at::<u64, EndedRow>(alloc, count, rest)?;
    Ok((Items::from_vec(rows), rest))
}

impl RegisterRec {
    fn put_head(&self, out: &mut Vec<u8>)
        requires { vec_len out.old + 17 ≤ vec_capacity out.old }
        ensures items { out.new.items ≡ out.old.items ++ (little_bytes 4 self.now.worker ++ ((truth_codec 4).spell self.now.alive ++ (little_bytes 4 self.now.session ++ little_bytes 8 self.now.connected))) }
        ensures len { vec_len out.new ≡ vec_len out.old + 17 }
        ensures room { vec_capacity out.old ≤ vec_capacity out.new }
    {
        put_u32(out, self.worker);
        put_truth(out, self.alive);
        put_u32(out, self.session);
        put_u64(out, self.connected);
    }
}

#[tactic(auto, unfolding(crate::specs::RegisterRec::register_fields))]
impl Packed for RegisterRec {
    ghost MAGIC = { codes "REGI" };

    ghost OLDEST = { 1 };

    ghost NEWEST = { 1 };

    ghost fields = { λ version. register_fields };

    ghost valid = { IsRegisterRec };

    ghost size = { λ r. 25 + 8 * length r.ended + 12 * length r.watchers };

    const MAGIC: [u8; 4] = *b"REGI";

    const OLDEST: u16 = 1;

    const NEWEST: u16 = 1;

    fn fields_size(&self) -> usize {
        25 + 8 * self.ended.len() + 12 * self.watchers.len()
    }

    fn put_fields(&self, out: &mut Vec<u8>) {
        self.put_head(out);
        put_list::<u64, EndedRow>(out, self.ended.as_slice());
        put_list::<WatchRec, WatchRow>(out, self.watchers.as_slice());
    }

    fn fields_at(
        alloc: Global,
        _version: u16,
        bytes: &[u8],
    ) -> Result<(RegisterRec, &[u8]), Unpack> {
        let (worker, rest) = u32_within(bytes, 3, 1, 64)?;
        let (alive, rest) = truth_at(rest, 4)?;
        let (session, rest) = u32_within(rest, 5, 1, 0xFFFF_FFFF)?;
        let (connected, rest) = moment_at(rest, 6)?;
        let (ended, rest) = ended_at(alloc, rest, alive, session)?;
        let (watchers, rest) = owned_list_at::<WatchRec, WatchRow>(alloc, rest)?;
        let record = RegisterRec {
            worker,
            alive,
            session,
            connected,
            ended,
            watchers,
        };
        Ok((record, rest))
    }

    fn laws() {}
}
