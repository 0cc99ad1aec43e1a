ghost use Rattle.std.specs.Prelude.{◌≡◌, ◌++◌, [], OnOk, find};
ghost use Rattle.std.specs.List.{flat_map};
ghost use Rattle.std.specs.Option.{option_map_or};
ghost use Rattle.sid_core.specs.declared.setup.WorkerInfo.{WorkerInfo};
ghost use Rattle.serial_table.specs.View.{view, has_pid};
ghost use Rattle.serial_table.specs.Tables.{shares_row, shares_table};

use super::writers::{push_shares_head, push_worker_row};
use crate::rows::WorkerRow;
use crate::table::Table;
use crate::view;
use sid_core::{OutOfMemory, Setup, WorkerInfo};

fn push_worker(
    out: &mut Vec<u8>,
    workers: &[WorkerRow],
    info: &WorkerInfo,
) -> Result<(), OutOfMemory>
    ensures { OnOk result (out.new.items ≡ out.old.items ++ option_map_or (shares_row info.now) (find (has_pid info.now.pid) workers.now) []) }
{
    match view::worker_of(workers, info.pid) {
        Some(row) => push_worker_row(out, info, &row),
        None => Ok(()),
    }
}

fn push_rows(
    out: &mut Vec<u8>,
    workers: &[WorkerRow],
    infos: &[WorkerInfo],
) -> Result<(), OutOfMemory>
    ensures { OnOk result (out.new.items ≡ out.old.items ++ flat_map (λ (info : WorkerInfo). option_map_or (shares_row info) (find (has_pid info.pid) workers.now) []) infos.now) }
{
    for info in infos {
        push_worker(out, workers, info)?;
    }
    Ok(())
}

/// Adds who is connected.
pub(crate) fn push_shares(
    out: &mut Vec<u8>,
    setup: &Setup,
    table: &Table,
) -> Result<(), OutOfMemory>
    ensures { OnOk result (out.new.items ≡ out.old.items ++ shares_table setup.now (view table.now)) }
{
    push_shares_head(out)?;
    push_rows(out, table.workers.as_slice(), setup.workers.as_slice())?;
    out.push(b'\n')?;
    Ok(())
}
