use crate::rows::{Breaking, HoldRow, LeaseRow, OpenRow, RangeRow, WaiterRow};
use sid_core::{LeaseName, LeaseState, Mode, Moment, OpenId, Post, Sid};

/// One change of the table, as plain data. What happens to the table is a list of these. A change of a file's rows names the file.
#[derive(Clone, Copy)]
pub enum Change {
    AddOpen(OpenRow),
    /// The open goes with its byte ranges.
    DropOpen {
        file: u32,
        id: OpenId,
    },
    /// The open has another owner and handle from now on. Where that handle is taken, nothing changes.
    TakeOver {
        file: u32,
        id: OpenId,
        owner: Sid,
        handle: u32,
    },
    AddLease(LeaseRow),
    /// What the lease holds, and how it is breaking.
    SetLease {
        file: u32,
        name: LeaseName,
        held: LeaseState,
        breaking: Option<Breaking>,
    },
    /// The break of the lease is acknowledged with this state.
    Acknowledge {
        file: u32,
        name: LeaseName,
        state: LeaseState,
    },
    AddRange(RangeRow),
    /// The first range that is the same goes.
    DropRange(RangeRow),
    /// The file is to go once its last open is closed. Where it is to go already, nothing changes.
    AddPending {
        file: u32,
    },
    /// The file is to stay.
    DropPending {
        file: u32,
    },
    AddHold(HoldRow),
    /// The hold has this mode, and keeps its place.
    SetHold {
        key: u64,
        owner: Sid,
        mode: Mode,
    },
    DropHold {
        key: u64,
        owner: Sid,
    },
    AddWaiter(WaiterRow),
    /// This call of the session no longer waits.
    DropWaiter {
        sid: Sid,
        call: u32,
    },
    /// The letter is the last one in the receiver's mailbox.
    Send(Post),
    /// The first letter in the mailbox goes.
    TakeLetter {
        to: Sid,
    },
    /// The session ends, with its opens that aren't durable, its holds, its waiters and its mailbox.
    EndSession {
        sid: Sid,
        moment: Moment,
    },
    /// The session that follows this one of its worker begins.
    NextSession {
        sid: Sid,
        moment: Moment,
    },
    /// Leases, opens and pending files that can't stay as they are follow the rules.
    Settle,
}
