use crate::bits::{Access, LeaseState, Share};

#[derive(Clone, Copy, Debug, PartialEq, Eq)]
pub enum Mode {
    Shared,
    Exclusive,
}

/// The `length` bytes of a file from `start` on.
#[derive(Clone, Copy, Debug, PartialEq, Eq)]
pub struct Span {
    pub start: u64,
    pub length: u64,
}

/// The tables that a `status` call shows.
#[derive(Clone, Copy, Debug, PartialEq, Eq)]
pub struct Tables {
    pub shares: bool,
    pub files: bool,
    pub ranges: bool,
}

/// The lease that an `open` asks for. Its guid is that of the calling worker.
#[derive(Clone, Copy, Debug, PartialEq, Eq)]
pub struct LeaseAsk {
    pub key: u64,
    pub state: LeaseState,
}

/// A call of a worker. Files and workers go by their numbers in the setup, from 1.
#[derive(Clone, Copy, Debug, PartialEq, Eq)]
pub enum Call {
    /// `durable` is in seconds, and 0 where no durable open is asked. With `delete` the file is to go once this open is closed
    /// ([MS-SMB2] 2.2.13, FILE_DELETE_ON_CLOSE).
    OpenFile {
        file: u32,
        access: Access,
        share: Share,
        lease: Option<LeaseAsk>,
        durable: u32,
        overwrite: bool,
        delete: bool,
    },
    Close {
        handle: u32,
    },
    /// The file of the open is to go once its last open is closed, or is to stay ([MS-FSCC] 2.4.11, FileDispositionInformation).
    Delete {
        handle: u32,
        on: bool,
    },
    Ack {
        key: u64,
        state: LeaseState,
    },
    Lock {
        handle: u32,
        span: Span,
        mode: Mode,
        wait: bool,
    },
    Unlock {
        handle: u32,
        span: Span,
    },
    Read {
        handle: u32,
        span: Span,
    },
    Write {
        handle: u32,
        span: Span,
    },
    GLock {
        key: u64,
        mode: Mode,
        wait: bool,
    },
    GUnlock {
        key: u64,
    },
    Recv,
    Disconnect,
    Reconnect {
        worker: u32,
        call: u32,
        key: u64,
    },
    Scavenge,
    Tidy,
    Status {
        tables: Tables,
    },
}
