ghost use Rattle.std.specs.Prelude.{◌≡◌, ℕ, ◌++◌, ◌∷◌, [], IfOk, OnOk, length, filter, map};
ghost use Rattle.std.specs.List.{flat_map};
ghost use Rattle.std.specs.List.Sorted.{IsNonDecreasingBy};
ghost use Rattle.serial_table.specs.View.{view, is_of_file};
ghost use Rattle.serial_table.specs.Decision.{spots_of};
ghost use Rattle.serial_table.specs.Durable.{is_expired};
ghost use Rattle.serial_table.specs.Keeping.{FindsEnds};
ghost use Rattle.serial_table.specs.ByFile.{file_of_open, spots_of_all};
ghost use Rattle.serial_table.specs.Scavenge.{goes, all_expired, has_expired, files_of, scavenge};

use crate::by_file::{opens_of, sort_opens};
use crate::change::Change;
use crate::decision::{self, Caller, Decision};
use crate::durable::{Ends, ends_by_sid, is_expired};
use crate::rows::OpenRow;
use crate::table::Table;
use sid_core::{Items, Moment, OutOfMemory, Reply, Setup, Spot};

fn push_if_expired(
    expired: &mut Vec<OpenRow>,
    table: &Table,
    ends: &Ends,
    now: Moment,
    row: &OpenRow,
) -> Result<(), OutOfMemory>
    requires { FindsEnds ends.now table.now.ended }
    ensures { OnOk result (expired.new.items ≡ expired.old.items ++ filter (is_expired (view table.now) now) (row.now ∷ [])) }
{
    if is_expired(table, ends, now, row) {
        expired.push(*row)?;
    }
    Ok(())
}

fn expired_opens(table: &Table, now: Moment) -> Result<Vec<OpenRow>, OutOfMemory>
    ensures { IfOk result (λ expired. expired.items ≡ filter (is_expired (view table.now) now) table.now.opens) }
{
    let alloc = table.opens.allocator();
    let ends = ends_by_sid(alloc, table.ended.as_slice())?;
    let opens = table.opens.as_slice();
    let mut expired = Vec::new(alloc);
    for row in opens {
        push_if_expired(&mut expired, table, &ends, now, row)?;
    }
    Ok(expired)
}

/// The expired opens of all files, sorted by their files.
fn expired_by_file(table: &Table, now: Moment) -> Result<Vec<OpenRow>, OutOfMemory>
    ensures sorted { IfOk result (λ expired. IsNonDecreasingBy file_of_open expired.items) }
    ensures same { IfOk result (λ expired. (file : ℕ) → filter (is_of_file file) expired.items ≡ filter (is_expired (view table.now) now) ((view table.now).opens_of file)) }
{
    let mut expired = expired_opens(table, now)?;
    sort_opens(&mut expired)?;
    Ok(expired)
}

fn goes(row: &OpenRow) -> Change
    ensures { result ≡ goes row.now }
{
    Change::DropOpen {
        file: row.file,
        id: row.id,
    }
}

fn push_changes(changes: &mut Vec<Change>, expired: &[OpenRow]) -> Result<(), OutOfMemory>
    ensures { OnOk result (changes.new.items ≡ changes.old.items ++ map goes expired.now) }
{
    for row in expired {
        changes.push(goes(row))?;
    }
    Ok(())
}

fn push_spots(spots: &mut Vec<Spot>, expired: &[OpenRow]) -> Result<(), OutOfMemory>
    ensures { OnOk result (spots.new.items ≡ spots.old.items ++ spots_of_all expired.now) }
{
    if let Some(first) = expired.first() {
        spots.push(Spot::OpenOf(first.file))?;
        spots.push(Spot::RangesOf(first.file))?;
    }
    Ok(())
}

fn count_of(changes: &[Change]) -> Result<u32, OutOfMemory>
    ensures { IfOk result (λ count. count ≡ length changes.now) }
{
    u32::try_from(changes.len()).map_err(|_| OutOfMemory)
}

/// What a `scavenge` decides. The expired opens are found in one pass over all opens, with a look-up of each owner's end, and sorted by
/// their files; each declared file then costs a binary search among them.
#[tactic(auto, unfolding(crate::specs::Scavenge::scavenge))]
pub(crate) fn scavenge(
    setup: &Setup,
    table: &Table,
    caller: &Caller,
) -> Result<Decision, OutOfMemory>
    ensures { IfOk result (λ decision. decision ≡ scavenge setup.now (view table.now) caller.now) }
{
    let alloc = table.opens.allocator();
    let expired = expired_by_file(table, caller.moment)?;
    let mut changes = Vec::new(alloc);
    let mut spots = Vec::new(alloc);
    for index in 0..setup.files.len() {
        let own = opens_of(expired.as_slice(), index as u64 + 1);
        push_changes(&mut changes, own)?;
        push_spots(&mut spots, own)?;
    }
    let count = count_of(changes.as_slice())?;
    Ok(Decision {
        changes: Items::from_vec(changes),
        spots: Items::from_vec(spots),
        ..decision::only_reply(alloc, Reply::Scavenged { count })
    })
}
