use sid_core::Sid;

/// What a session is answered that asks for a global lock.
#[derive(Clone, Copy, PartialEq, Eq)]
pub enum GAnswer {
    Granted,
    /// The session held the lock alone and shares it now: others may come in.
    Lowered,
    /// `holder` stands in the way.
    NotGranted { holder: Sid },
    /// The session waits behind `blocker`. With `upgrade` it shares the lock already.
    Pending { blocker: Sid, upgrade: bool },
    /// `other` shares the lock too, and waits to hold it alone.
    PossibleDeadlock { other: Sid },
    OutOfMemory,
}
