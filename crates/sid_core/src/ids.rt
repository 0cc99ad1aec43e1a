/// A session of the worker process with this pid. Sessions of a worker count from 1.
#[derive(Clone, Copy, Debug, PartialEq, Eq)]
pub struct Sid {
    pub pid: u32,
    pub session: u32,
}

/// An open, for good: the pid and the call number of the `open` that made it.
#[derive(Clone, Copy, Debug, PartialEq, Eq)]
pub struct OpenId {
    pub pid: u32,
    pub call: u32,
}

/// A lease: the client's guid and its lease key ([MS-SMB2] has 16 bytes of each; here a number of 64 bits).
#[derive(Clone, Copy, Debug, PartialEq, Eq)]
pub struct LeaseName {
    pub guid: u64,
    pub key: u64,
}

/// A moment of the script's clock, in seconds.
#[derive(Clone, Copy, Debug, PartialEq, Eq, PartialOrd, Ord)]
pub struct Moment(pub u64);

/// What a waiting call waits for.
#[derive(Clone, Copy, Debug, PartialEq, Eq)]
pub enum Spot {
    /// A change of the opens of this file.
    OpenOf(u32),
    /// A change of the byte ranges of this file.
    RangesOf(u32),
    /// A change of the global lock with this key.
    LockOf(u64),
}
