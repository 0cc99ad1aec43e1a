ghost use Rattle.std.specs.Prelude.{◌≡◌};
ghost use Rattle.worker_script.specs.declared.error.Parse.TheVariants as errors;

use crate::reason::Reason;
use std::error::Error;
use std::fmt;

/// Why a text isn't read as a script.
#[derive(Clone, Copy, Debug, PartialEq, Eq)]
pub enum Parse {
    /// The first bad line, counted from 1, and the least reason for which it is bad.
    Bad { line: u32, reason: Reason },
    OutOfMemory,
}

impl fmt::Display for Parse {
    fn fmt<W: fmt::Write>(&self, f: &mut fmt::Formatter<W>) -> fmt::Result {
        match self {
            Parse::Bad { line, reason } => write!(f, "line {line}: reason {}", reason.number()),
            Parse::OutOfMemory => f.write_str("out of memory"),
        }
    }
}

impl Error for Parse {}

impl From<sid_core::OutOfMemory> for Parse {
    ghost from_gives = { λ _ e. e ≡ errors.OutOfMemory };

    fn from(_e: sid_core::OutOfMemory) -> Parse {
        Parse::OutOfMemory
    }
}
