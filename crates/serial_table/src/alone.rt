ghost use Rattle.std.specs.Prelude.{◌≡◌, IfOk, filter};
ghost use Rattle.serial_table.specs.View.{is_of_file};
ghost use Rattle.serial_table.specs.InPlace.{table_of, is_lease_of};
ghost use Rattle.serial_table.specs.Alone.{alone};

use crate::lists::Lists;
use crate::rows::{LeaseRow, OpenRow};
use crate::settle::is_lease_of;
use crate::table::Table;
use crate::view;
use sid_core::OutOfMemory;
use std::alloc::Global;

fn opens_of(alloc: Global, opens: &[OpenRow], file: u32) -> Result<Vec<OpenRow>, OutOfMemory>
    ensures { IfOk result (λ rows. rows.items ≡ filter (is_of_file file) opens.now) }
{
    let rows = opens
        .iter()
        .filter(|row| view::is_of_file(file, row))
        .copied()
        .collect(alloc)?;
    Ok(rows)
}

fn leases_of(alloc: Global, leases: &[LeaseRow], file: u32) -> Result<Vec<LeaseRow>, OutOfMemory>
    ensures { IfOk result (λ rows. rows.items ≡ filter (is_lease_of file) leases.now) }
{
    let rows = leases
        .iter()
        .filter(|lease| is_lease_of(file, lease))
        .copied()
        .collect(alloc)?;
    Ok(rows)
}

/// Copies the file's opens and leases, and all workers.
pub(crate) fn rows_alone(table: &Table, file: u32) -> Result<Lists, OutOfMemory>
    ensures { IfOk result (λ rows. table_of rows ≡ alone file table.now) }
{
    let alloc = table.opens.allocator();
    let opens = opens_of(alloc, table.opens.as_slice(), file)?;
    let leases = leases_of(alloc, table.leases.as_slice(), file)?;
    let workers = table.workers.copy()?.into_vec();
    Ok(Lists {
        opens,
        leases,
        ranges: Vec::new(alloc),
        holds: Vec::new(alloc),
        waiters: Vec::new(alloc),
        letters: Vec::new(alloc),
        workers,
        ended: Vec::new(alloc),
        pending: Vec::new(alloc),
    })
}
