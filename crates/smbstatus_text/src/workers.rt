ghost use Rattle.std.specs.Prelude.{◌≡◌, ◌++◌, [], IfOk, OnOk};
ghost use Rattle.std.specs.List.{flat_map};
ghost use Rattle.std.specs.Option.{option_map, option_map_or};
ghost use Rattle.std.specs.FinMap as map;
ghost use Rattle.sid_core.specs.declared.setup.WorkerInfo.{WorkerInfo};
ghost use Rattle.serial_table.specs.View.{View};
ghost use Rattle.serial_table.specs.Tables.{shares_row, shares_table};
ghost use Rattle.server_ids.specs.Sessions.{worker_row};
ghost use Rattle.smbstatus_text.specs.Shown.{ShowsWorkers};

use crate::parts::worker_row;
use serial_table::{push_shares_head, push_worker_row};
use server_ids::Register;
use sid_core::{OutOfMemory, Setup, WorkerInfo};
use std::alloc::Global;

fn push_worker(out: &mut Vec<u8>, register: &Register, info: &WorkerInfo) -> Result<(), OutOfMemory>
    ensures { OnOk result (out.new.items ≡ out.old.items ++ option_map_or (shares_row info.now) (option_map (worker_row info.now.pid) (map.get register.now info.now.pid)) []) }
{
    match register.get(info.pid) {
        Some(rec) => push_worker_row(out, info, &worker_row(info.pid, rec)),
        None => Ok(()),
    }
}

fn push_rows(
    out: &mut Vec<u8>,
    register: &Register,
    infos: &[WorkerInfo],
) -> Result<(), OutOfMemory>
    ensures { OnOk result (out.new.items ≡ out.old.items ++ flat_map (λ (info : WorkerInfo). option_map_or (shares_row info) (option_map (worker_row info.pid) (map.get register.now info.pid)) []) infos.now) }
{
    for info in infos {
        push_worker(out, register, info)?;
    }
    Ok(())
}

/// Who is connected: the living workers, by their numbers. A pid without a record counts as one without a worker. It costs a look-up for
/// each declared worker, and memory for what is printed alone.
pub fn shares(alloc: Global, setup: &Setup, register: &Register) -> Result<Vec<u8>, OutOfMemory>
    ensures { IfOk result (λ text. (v : View) → ShowsWorkers setup.now register.now v → text.items ≡ shares_table setup.now v) }
{
    let mut out = Vec::new(alloc);
    push_shares_head(&mut out)?;
    push_rows(&mut out, register, setup.workers.as_slice())?;
    out.push(b'\n')?;
    Ok(out)
}
