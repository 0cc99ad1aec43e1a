ghost use Rattle.std.specs.Prelude.{◌≡◌};
ghost use Rattle.serial_table.specs.declared.apply.Apply.TheVariants as refusals;

use sid_core::{OutOfMemory, Reply};
/// Why a table refuses an entry.
#[derive(Clone, Copy, Debug, PartialEq, Eq)]
pub enum Apply {
    /// The table gives this reply, and the entry has another.
    Differs(Reply),
    /// The entry's worker isn't declared, or is dead.
    NotAlive(u32),
    OutOfMemory,
}

impl From<OutOfMemory> for Apply {
    ghost from_gives = { λ _ refusal. refusal ≡ refusals.OutOfMemory };

    fn from(_e: OutOfMemory) -> Apply {
        Apply::OutOfMemory
    }
}
