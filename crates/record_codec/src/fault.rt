ghost use Rattle.std.specs.Prelude.{◌≡◌};
ghost use Rattle.record_codec.specs.declared.fault.Unpack.TheVariants.{OutOfMemory};

use sid_core::OutOfMemory as NoMemory;
use std::alloc::{AllocError, AllocFailed};
use std::error::Error;
use std::fmt;

/// Why bytes could not be unpacked: the first fault of the bytes, or want of memory.
#[derive(Clone, Copy, Debug, PartialEq, Eq)]
pub enum Unpack {
    /// The first field isn't the record's magic.
    Magic,
    /// The second field isn't a version that is known.
    Version,
    /// Fewer bytes are left than a field needs.
    Short,
    /// Bytes follow the last field.
    Trailing,
    /// The field with this number has a value outside its set.
    BadField(u32),
    /// The allocator refused.
    OutOfMemory,
}

impl fmt::Display for Unpack {
    fn fmt<W: fmt::Write>(&self, f: &mut fmt::Formatter<W>) -> fmt::Result {
        match self {
            Unpack::Magic => f.write_str("no record of this kind"),
            Unpack::Version => f.write_str("unknown version"),
            Unpack::Short => f.write_str("too few bytes"),
            Unpack::Trailing => f.write_str("bytes after the last field"),
            Unpack::BadField(field) => write!(f, "field {field} is outside its set"),
            Unpack::OutOfMemory => f.write_str("out of memory"),
        }
    }
}

impl Error for Unpack {}

impl From<AllocError> for Unpack {
    ghost from_gives = { λ _ e. e ≡ OutOfMemory };

    fn from(_e: AllocError) -> Unpack {
        Unpack::OutOfMemory
    }
}

impl<T: Drop> From<AllocFailed<T>> for Unpack {
    ghost from_gives = { λ _ e. e ≡ OutOfMemory };

    fn from(_e: AllocFailed<T>) -> Unpack {
        Unpack::OutOfMemory
    }
}

impl From<NoMemory> for Unpack {
    ghost from_gives = { λ _ e. e ≡ OutOfMemory };

    fn from(_e: NoMemory) -> Unpack {
        Unpack::OutOfMemory
    }
}
