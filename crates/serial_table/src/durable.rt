ghost use Rattle.std.specs.Prelude.{◌≡◌, IfOk, OnOk, ◌+◌, ◌&&◌, not, nat_lt, nat_le, false, filter, find, Option};
ghost use Rattle.std.specs.Option.{option_map, option_map_or};
ghost use Rattle.sid_core.specs.Ids.{same_sid};
ghost use Rattle.serial_table.specs.View.{view, is_end_of};
ghost use Rattle.serial_table.specs.Keeping.{sid_cmp, key_of_sid, KeepsFirst, FindsEnds};
ghost use Rattle.serial_table.specs.Durable.{deadline, can_be_taken, is_expired};

use crate::rows::{EndedRow, OpenRow};
use crate::table::Table;
use crate::view;
use sid_core::{Moment, OutOfMemory, Sid};
use std::alloc::Global;
use std::collections::BTreeMap;

fn is_end_of(pid: u32, ended: &EndedRow) -> bool
    ensures { result ≡ is_end_of pid ended.now }
{
    ended.sid.pid == pid
}

fn end_of(table: &Table, sid: Sid) -> Option<EndedRow>
    ensures { result ≡ find (λ ended. same_sid ended.sid sid) (filter (is_end_of sid.pid) table.now.ended) }
{
    table
        .ended
        .as_slice()
        .iter()
        .filter(|ended| is_end_of(sid.pid, ended))
        .copied()
        .find(|ended| ended.sid == sid)
}

/// The last moment at which the open can be taken up is the one before this.
fn deadline(table: &Table, row: &OpenRow) -> Option<u128>
    ensures { result ≡ deadline (view table.now) row.now }
{
    let ended = end_of(table, row.owner)?;
    Some(u128::from(ended.moment.0) + u128::from(row.durable))
}

fn is_before(now: Moment, deadline: Option<u128>) -> bool
    ensures { result ≡ option_map_or (nat_lt now.0) deadline false }
{
    match deadline {
        Some(deadline) => u128::from(now.0) < deadline,
        None => false,
    }
}

fn has_come(now: Moment, deadline: Option<u128>) -> bool
    ensures { result ≡ option_map_or (λ last. nat_le last now.0) deadline false }
{
    match deadline {
        Some(deadline) => deadline <= u128::from(now.0),
        None => false,
    }
}

pub(crate) fn can_be_taken(table: &Table, now: Moment, row: &OpenRow) -> bool
    ensures { result ≡ can_be_taken (view table.now) now row.now }
{
    !view::lives(table.workers.as_slice(), row.owner) && is_before(now, deadline(table, row))
}

// ---- of many opens

/// The ends of sessions, by pid and session.
pub(crate) type Ends = BTreeMap<(u32, u32), EndedRow>;

fn key_of_sid(sid: Sid) -> (u32, u32)
    ensures { result ≡ key_of_sid sid }
{
    (sid.pid, sid.session)
}

fn keep_end(ends: &mut Ends, key: (u32, u32), ended: &EndedRow) -> Result<(), OutOfMemory>
    ensures { OnOk result (KeepsFirst sid_cmp key ended.now ends.old ends.new) }
{
    if !ends.contains_key(&key) {
        ends.insert(key, *ended)?;
    }
    Ok(())
}

pub(crate) fn ends_by_sid(alloc: Global, ended: &[EndedRow]) -> Result<Ends, OutOfMemory>
    ensures { IfOk result (λ ends. FindsEnds ends ended.now) }
{
    let mut ends = BTreeMap::new(alloc);
    for row in ended {
        keep_end(&mut ends, key_of_sid(row.sid), row)?;
    }
    Ok(ends)
}

fn deadline_by(table: &Table, ends: &Ends, row: &OpenRow) -> Option<u128>
    requires { FindsEnds ends.now table.now.ended }
    ensures { result ≡ deadline (view table.now) row.now }
{
    let ended = ends.get(&key_of_sid(row.owner)).copied()?;
    Some(u128::from(ended.moment.0) + u128::from(row.durable))
}

pub(crate) fn is_expired(table: &Table, ends: &Ends, now: Moment, row: &OpenRow) -> bool
    requires { FindsEnds ends.now table.now.ended }
    ensures { result ≡ is_expired (view table.now) now row.now }
{
    !view::lives(table.workers.as_slice(), row.owner)
        && has_come(now, deadline_by(table, ends, row))
}
