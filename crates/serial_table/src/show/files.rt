ghost use Rattle.std.specs.Prelude.{◌≡◌, ℕ, ◌++◌, IfOk, OnOk, filter};
ghost use Rattle.std.specs.List.Sorted.{IsNonDecreasingBy};
ghost use Rattle.serial_table.specs.View.{view, lives, is_of_file};
ghost use Rattle.serial_table.specs.File.{file_view, file_open};
ghost use Rattle.serial_table.specs.ByFile.{file_of_open};
ghost use Rattle.serial_table.specs.Keeping.{FindsLeases};
ghost use Rattle.serial_table.specs.Showing.{lease_text};
ghost use Rattle.serial_table.specs.Tables.{lease_column, leases_of_open, file_rows, of_files, files_table};

use super::index::{Key, key_of_name, leases_by_name};
use super::writers::{push_files_page, push_open_row};
use crate::by_file::{opens_of, sort_opens};
use crate::rows::{LeaseRow, OpenRow};
use crate::table::Table;
use crate::view;
use sid_core::{FileInfo, OutOfMemory, Setup};
use std::collections::BTreeMap;

fn lease_of(
    table: &Table,
    leases: &BTreeMap<Key, LeaseRow>,
    file: u64,
    row: &OpenRow,
) -> Option<LeaseRow>
    requires { FindsLeases leases.now table.now.leases }
    ensures { lease_text result ≡ lease_column (leases_of_open (file_view file (view table.now)) (file_open (lives (view table.now)) row.now)) }
{
    let name = row.lease?;
    leases.get(&key_of_name(file, name)).copied()
}

// ---- rows

fn push_file(
    out: &mut Vec<u8>,
    setup: &Setup,
    table: &Table,
    leases: &BTreeMap<Key, LeaseRow>,
    info: &FileInfo,
    file: u64,
    own: &[OpenRow],
) -> Result<(), OutOfMemory>
    requires finds { FindsLeases leases.now table.now.leases }
    requires own { own.now ≡ filter (is_of_file file) table.now.opens }
    ensures { OnOk result (out.new.items ≡ out.old.items ++ file_rows setup.now info.now (file_view file (view table.now))) }
{
    for row in own {
        let connected = view::lives(table.workers.as_slice(), row.owner);
        let lease = lease_of(table, leases, file, row);
        push_open_row(out, setup, info, connected, row, lease)?;
    }
    Ok(())
}

/// The table's opens, sorted by their files.
fn opens_by_file(table: &Table) -> Result<Vec<OpenRow>, OutOfMemory>
    ensures sorted { IfOk result (λ opens. IsNonDecreasingBy file_of_open opens.items) }
    ensures same { IfOk result (λ opens. (file : ℕ) → filter (is_of_file file) opens.items ≡ filter (is_of_file file) table.now.opens) }
{
    let mut opens = table.opens.copy()?.into_vec();
    sort_opens(&mut opens)?;
    Ok(opens)
}

fn push_rows(out: &mut Vec<u8>, setup: &Setup, table: &Table) -> Result<(), OutOfMemory>
    ensures { OnOk result (out.new.items ≡ out.old.items ++ of_files (file_rows setup.now) (view table.now) 1 setup.now.files) }
{
    let opens = opens_by_file(table)?;
    let leases = leases_by_name(table.leases.allocator(), table.leases.as_slice())?;
    let infos = setup.files.as_slice();
    let mut file = 1u64;
    for info in infos {
        let own = opens_of(opens.as_slice(), file);
        push_file(out, setup, table, &leases, info, file, own)?;
        file += 1;
    }
    Ok(())
}

/// Adds which files are open.
pub(crate) fn push_files(out: &mut Vec<u8>, setup: &Setup, table: &Table) -> Result<(), OutOfMemory>
    ensures { OnOk result (out.new.items ≡ out.old.items ++ files_table setup.now (view table.now)) }
{
    let mut rows = Vec::new(table.opens.allocator());
    push_rows(&mut rows, setup, table)?;
    push_files_page(out, rows.as_slice())
}
