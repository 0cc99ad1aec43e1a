ghost use Rattle.std.specs.Prelude.{◌≡◌, ℕ, ◌++◌, [], IfOk, OnOk, filter, find};
ghost use Rattle.std.specs.Option.{option_map_or};
ghost use Rattle.std.specs.List.Sorted.{IsNonDecreasingBy};
ghost use Rattle.serial_table.specs.View.{view, has_id, is_range_of};
ghost use Rattle.serial_table.specs.File.{FileOpen, file_view};
ghost use Rattle.serial_table.specs.ByFile.{file_of_range};
ghost use Rattle.serial_table.specs.Keeping.{FindsOpens};
ghost use Rattle.serial_table.specs.Showing.{pid_of_owner};
ghost use Rattle.serial_table.specs.Tables.{pid_text, ranges_row, range_rows, of_files, ranges_table};

use super::index::{Key, key_of_id, opens_by_id};
use super::writers::{Owner, push_range_row, push_ranges_page};
use crate::by_file::{ranges_of, sort_ranges};
use crate::rows::{OpenRow, RangeRow};
use crate::table::Table;
use crate::view;
use sid_core::{FileInfo, OutOfMemory, Setup};
use std::collections::BTreeMap;

/// Whose the range's open is, if it is there.
fn owner_of(
    table: &Table,
    opens: &BTreeMap<Key, OpenRow>,
    file: u64,
    range: &RangeRow,
) -> Option<Owner>
    requires { FindsOpens opens.now table.now.opens }
    ensures { pid_of_owner result ≡ option_map_or pid_text (find (λ (o : FileOpen). has_id range.now.id o.row) (file_view file (view table.now)).opens) [] }
{
    let row = opens.get(&key_of_id(file, range.id))?;
    Some(Owner {
        pid: row.owner.pid,
        connected: view::lives(table.workers.as_slice(), row.owner),
    })
}

fn push_row(
    out: &mut Vec<u8>,
    table: &Table,
    opens: &BTreeMap<Key, OpenRow>,
    info: &FileInfo,
    file: u64,
    range: &RangeRow,
) -> Result<(), OutOfMemory>
    requires { FindsOpens opens.now table.now.opens }
    ensures { OnOk result (out.new.items ≡ out.old.items ++ ranges_row info.now (file_view file (view table.now)) range.now) }
{
    push_range_row(out, info, owner_of(table, opens, file, range), range)
}

fn push_file(
    out: &mut Vec<u8>,
    table: &Table,
    opens: &BTreeMap<Key, OpenRow>,
    info: &FileInfo,
    file: u64,
    own: &[RangeRow],
) -> Result<(), OutOfMemory>
    requires finds { FindsOpens opens.now table.now.opens }
    requires own { own.now ≡ filter (is_range_of file) table.now.ranges }
    ensures { OnOk result (out.new.items ≡ out.old.items ++ range_rows info.now (file_view file (view table.now))) }
{
    for range in own {
        push_row(out, table, opens, info, file, range)?;
    }
    Ok(())
}

/// The table's ranges, sorted by their files.
fn ranges_by_file(table: &Table) -> Result<Vec<RangeRow>, OutOfMemory>
    ensures sorted { IfOk result (λ ranges. IsNonDecreasingBy file_of_range ranges.items) }
    ensures same { IfOk result (λ ranges. (file : ℕ) → filter (is_range_of file) ranges.items ≡ filter (is_range_of file) table.now.ranges) }
{
    let mut ranges = table.ranges.copy()?.into_vec();
    sort_ranges(&mut ranges)?;
    Ok(ranges)
}

fn push_rows(out: &mut Vec<u8>, setup: &Setup, table: &Table) -> Result<(), OutOfMemory>
    ensures { OnOk result (out.new.items ≡ out.old.items ++ of_files range_rows (view table.now) 1 setup.now.files) }
{
    let ranges = ranges_by_file(table)?;
    let opens = opens_by_id(table.opens.allocator(), table.opens.as_slice())?;
    let infos = setup.files.as_slice();
    let mut file = 1u64;
    for info in infos {
        let own = ranges_of(ranges.as_slice(), file);
        push_file(out, table, &opens, info, file, own)?;
        file += 1;
    }
    Ok(())
}

/// Adds which byte ranges are locked.
pub(crate) fn push_ranges(
    out: &mut Vec<u8>,
    setup: &Setup,
    table: &Table,
) -> Result<(), OutOfMemory>
    ensures { OnOk result (out.new.items ≡ out.old.items ++ ranges_table setup.now (view table.now)) }
{
    let mut rows = Vec::new(table.ranges.allocator());
    push_rows(&mut rows, setup, table)?;
    push_ranges_page(out, rows.as_slice())
}
