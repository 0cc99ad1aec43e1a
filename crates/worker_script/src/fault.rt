ghost use Rattle.std.specs.Prelude.{◌≡◌};
ghost use Rattle.worker_script.specs.declared.fault.Fault.TheVariants.{Bad, NoMemory};

use crate::reason::Reason;
use sid_core::OutOfMemory;
use std::alloc::AllocFailed;

/// Why a line isn't taken.
#[derive(Clone, Copy, Debug, PartialEq, Eq)]
pub(crate) enum Fault {
    /// The line is bad, for this reason.
    Bad(Reason),
    NoMemory,
}

impl From<Reason> for Fault {
    ghost from_gives = { λ reason e. e ≡ Bad reason };

    fn from(reason: Reason) -> Fault {
        Fault::Bad(reason)
    }
}

impl From<OutOfMemory> for Fault {
    ghost from_gives = { λ _ e. e ≡ NoMemory };

    fn from(_e: OutOfMemory) -> Fault {
        Fault::NoMemory
    }
}

impl<T: Drop> From<AllocFailed<T>> for Fault {
    ghost from_gives = { λ _ e. e ≡ NoMemory };

    fn from(_e: AllocFailed<T>) -> Fault {
        Fault::NoMemory
    }
}
