use crate::bits::LeaseState;
use crate::call::Call;
use crate::ids::{Moment, Sid};
use crate::reply::Reply;

/// What stands in a session's mailbox.
#[derive(Clone, Copy, Debug, PartialEq, Eq)]
pub enum Letter {
    /// The call with this number may be tried again.
    Wake {
        call: u32,
    },
    /// A lease of the reader's client is broken from one state to another. With `ack` it has to be acknowledged.
    Break {
        file: u32,
        key: u64,
        from: LeaseState,
        to: LeaseState,
        ack: bool,
    },
}

/// A letter and the session that gets it.
#[derive(Clone, Copy, Debug, PartialEq, Eq)]
pub struct Post {
    pub to: Sid,
    pub letter: Letter,
}

/// What happened at one place of a history.
#[derive(Clone, Copy, Debug, PartialEq, Eq)]
pub enum Event {
    Called {
        number: u32,
        moment: Moment,
        call: Call,
        reply: Reply,
    },
    Died {
        worker: u32,
        moment: Moment,
    },
    /// Stale parts were taken out of the records of a chain.
    Tidied {
        chain: u32,
    },
}

/// One entry of a journal: `by` committed it, 0 for the runner and else the worker's number, as its
/// `seq`-th entry, counted from 1.
#[derive(Clone, Copy, Debug, PartialEq, Eq)]
pub struct Entry {
    pub by: u32,
    pub seq: u32,
    pub what: Event,
}
