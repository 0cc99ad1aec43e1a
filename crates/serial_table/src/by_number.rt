ghost use Rattle.std.specs.Prelude.{◌≡◌};
ghost use Rattle.std.specs.Option.{option_copied};
ghost use Rattle.serial_table.specs.ByNumber.{declared_at};

use sid_core::{Setup, WorkerInfo};

pub(crate) fn declared_worker(setup: &Setup, worker: u32) -> Option<&WorkerInfo>
    ensures { option_copied result ≡ declared_at setup.now.workers worker }
{
    let place = worker.checked_sub(1)?;
    setup.workers.as_slice().get(place as usize)
}
