ghost use Rattle.std.specs.Prelude.{◌≡◌};
ghost use Rattle.sid_core.specs.Reply.{status};

use crate::bits::LeaseState;
use crate::entry::Letter;

/// What a call answers.
#[derive(Clone, Copy, Debug, PartialEq, Eq)]
pub enum Reply {
    Pending,
    Unsuccessful,
    InvalidParameter,
    AccessDenied,
    ObjectNameNotFound,
    SharingViolation,
    FileLockConflict,
    /// The file is to go once its last open is closed, and takes no further open.
    DeletePending,
    LockNotGranted,
    RangeNotLocked,
    RequestNotAccepted,
    FileClosed,
    PossibleDeadlock,
    InvalidLockRange,
    /// `lease` is what the open's lease holds now.
    Granted {
        lease: Option<LeaseState>,
        durable: bool,
    },
    Done,
    Scavenged {
        count: u32,
    },
    Message(Letter),
    NoMessage,
    Shown,
}

impl Reply {
    /// The NTSTATUS value of the reply ([MS-ERREF] 2.3.1).
    pub fn status(&self) -> u32
        ensures { result ≡ status self.now }
    {
        match self {
            Reply::Pending => 0x0000_0103,
            Reply::Unsuccessful => 0xC000_0001,
            Reply::InvalidParameter => 0xC000_000D,
            Reply::AccessDenied => 0xC000_0022,
            Reply::ObjectNameNotFound => 0xC000_0034,
            Reply::SharingViolation => 0xC000_0043,
            Reply::FileLockConflict => 0xC000_0054,
            Reply::DeletePending => 0xC000_0056,
            Reply::LockNotGranted => 0xC000_0055,
            Reply::RangeNotLocked => 0xC000_007E,
            Reply::RequestNotAccepted => 0xC000_00D0,
            Reply::FileClosed => 0xC000_0128,
            Reply::PossibleDeadlock => 0xC000_0194,
            Reply::InvalidLockRange => 0xC000_01A1,
            Reply::Granted { .. }
            | Reply::Done
            | Reply::Scavenged { .. }
            | Reply::Message(_)
            | Reply::NoMessage
            | Reply::Shown => 0,
        }
    }
}
