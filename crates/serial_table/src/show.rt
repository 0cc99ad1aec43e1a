mod column;
mod files;
mod index;
mod ranges;
mod shares;
mod writers;

ghost use Rattle.std.specs.Prelude.{◌≡◌, ◌++◌, OnOk};
ghost use Rattle.serial_table.specs.View.{view};
ghost use Rattle.serial_table.specs.Tables.{table_if, shares_table, files_table, ranges_table, tables};

use crate::table::Table;
use sid_core::{OutOfMemory, Setup, Tables};
pub use writers::{
    Owner, push_files_page, push_open_row, push_range_row, push_ranges_page, push_shares_head,
    push_worker_row,
};

fn show_shares(
    out: &mut Vec<u8>,
    setup: &Setup,
    table: &Table,
    chosen: bool,
) -> Result<(), OutOfMemory>
    ensures { OnOk result (out.new.items ≡ out.old.items ++ table_if chosen (shares_table setup.now (view table.now))) }
{
    if chosen {
        shares::push_shares(out, setup, table)?;
    }
    Ok(())
}

fn show_files(
    out: &mut Vec<u8>,
    setup: &Setup,
    table: &Table,
    chosen: bool,
) -> Result<(), OutOfMemory>
    ensures { OnOk result (out.new.items ≡ out.old.items ++ table_if chosen (files_table setup.now (view table.now))) }
{
    if chosen {
        files::push_files(out, setup, table)?;
    }
    Ok(())
}

fn show_ranges(
    out: &mut Vec<u8>,
    setup: &Setup,
    table: &Table,
    chosen: bool,
) -> Result<(), OutOfMemory>
    ensures { OnOk result (out.new.items ≡ out.old.items ++ table_if chosen (ranges_table setup.now (view table.now))) }
{
    if chosen {
        ranges::push_ranges(out, setup, table)?;
    }
    Ok(())
}

impl Table {
    /// Adds the tables of smbstatus(1) that are chosen. It costs a sort of the rows, a look-up for each, and what is printed. After an
    /// error a part may stand there.
    #[tactic(auto, unfolding(crate::specs::Tables::tables))]
    pub fn show(&self, setup: &Setup, chosen: Tables, out: &mut Vec<u8>) -> Result<(), OutOfMemory>
        ensures { OnOk result (out.new.items ≡ out.old.items ++ tables setup.now (view self.now) chosen) }
    {
        show_shares(out, setup, self, chosen.shares)?;
        show_files(out, setup, self, chosen.files)?;
        show_ranges(out, setup, self, chosen.ranges)
    }
}
