//! Tests of the lines that a history prints: each text once.
use opendb_run::{push_call_line, push_death_line, push_post_lines};
use sid_core::{
    Access, Call, Items, LeaseState, Letter, MAX_WORKERS, Mode, Post, Reply, Setup, Share, Sid,
    Span, Tables, Text, WorkerInfo,
};
use std::test::Fail;

const BROKEN: Letter = Letter::Break {
    file: 1,
    key: 18_446_744_073_709_551_615,
    from: LeaseState(7),
    to: LeaseState(1),
    ack: true,
};

const LOWERED: Letter = Letter::Break {
    file: 4_294_967_295,
    key: 0,
    from: LeaseState(3),
    to: LeaseState(0),
    ack: false,
};

// The values are those of [MS-ERREF] 2.3.1.
#[test]
fn each_reply_has_its_text_and_value(rt: HostRuntime) -> Result<(), Fail> {
    let granted = |lease, durable| Reply::Granted { lease, durable };
    for (reply, value, text) in [
        (Reply::Pending, 0x103, "PENDING"),
        (Reply::Unsuccessful, 0xC000_0001, "UNSUCCESSFUL"),
        (Reply::InvalidParameter, 0xC000_000D, "INVALID_PARAMETER"),
        (Reply::AccessDenied, 0xC000_0022, "ACCESS_DENIED"),
        (
            Reply::ObjectNameNotFound,
            0xC000_0034,
            "OBJECT_NAME_NOT_FOUND",
        ),
        (Reply::SharingViolation, 0xC000_0043, "SHARING_VIOLATION"),
        (Reply::FileLockConflict, 0xC000_0054, "FILE_LOCK_CONFLICT"),
        (Reply::LockNotGranted, 0xC000_0055, "LOCK_NOT_GRANTED"),
        (Reply::DeletePending, 0xC000_0056, "DELETE_PENDING"),
        (Reply::RangeNotLocked, 0xC000_007E, "RANGE_NOT_LOCKED"),
        (
            Reply::RequestNotAccepted,
            0xC000_00D0,
            "REQUEST_NOT_ACCEPTED",
        ),
        (Reply::FileClosed, 0xC000_0128, "FILE_CLOSED"),
        (Reply::PossibleDeadlock, 0xC000_0194, "POSSIBLE_DEADLOCK"),
        (Reply::InvalidLockRange, 0xC000_01A1, "INVALID_LOCK_RANGE"),
        (granted(None, false), 0, "GRANTED"),
        (granted(None, true), 0, "GRANTED durable"),
        (granted(Some(LeaseState(0)), false), 0, "GRANTED lease=-"),
        (granted(Some(LeaseState(1)), false), 0, "GRANTED lease=R"),
        (granted(Some(LeaseState(3)), false), 0, "GRANTED lease=RH"),
        (granted(Some(LeaseState(5)), false), 0, "GRANTED lease=RW"),
        (
            granted(Some(LeaseState(7)), true),
            0,
            "GRANTED lease=RWH durable",
        ),
        (Reply::Done, 0, "OK"),
        (Reply::Scavenged { count: 12 }, 0, "SCAVENGED 12"),
        (Reply::NoMessage, 0, "EMPTY"),
        (Reply::Shown, 0, "SHOWN"),
        (Reply::Message(Letter::Wake { call: 10 }), 0, "WAKE 10"),
        (
            Reply::Message(BROKEN),
            0,
            "BREAK file=1 key=18446744073709551615 RWH->R ack",
        ),
        (
            Reply::Message(LOWERED),
            0,
            "BREAK file=4294967295 key=0 RH->-",
        ),
    ] {
        let mut line = Text::new(rt.alloc());
        push_call_line(&mut line, 2, 10, &Call::Recv, reply)?;
        let wanted = format!(in rt.alloc(); "2.10 recv {text}\n")?;
        assert_eq!(rt; line.bytes(), wanted.as_bytes(), "of {text}");
        assert_eq!(rt; reply.status(), value, "of {text}");
    }
    Ok(())
}

#[test]
fn each_call_has_its_word(rt: HostRuntime) -> Result<(), Fail> {
    let span = Span {
        start: 0,
        length: 1,
    };
    let tables = Tables {
        shares: true,
        files: true,
        ranges: false,
    };
    for (call, word) in [
        (
            Call::OpenFile {
                file: 1,
                access: Access(1),
                share: Share(7),
                lease: None,
                durable: 60,
                overwrite: false,
                delete: false,
            },
            "open",
        ),
        (Call::Close { handle: 1 }, "close"),
        (
            Call::Delete {
                handle: 1,
                on: true,
            },
            "delete",
        ),
        (
            Call::Ack {
                key: 1,
                state: LeaseState(1),
            },
            "ack",
        ),
        (
            Call::Lock {
                handle: 1,
                span,
                mode: Mode::Shared,
                wait: false,
            },
            "lock",
        ),
        (Call::Unlock { handle: 1, span }, "unlock"),
        (Call::Read { handle: 1, span }, "read"),
        (Call::Write { handle: 1, span }, "write"),
        (
            Call::GLock {
                key: 1,
                mode: Mode::Shared,
                wait: false,
            },
            "glock",
        ),
        (Call::GUnlock { key: 1 }, "gunlock"),
        (Call::Recv, "recv"),
        (Call::Disconnect, "disconnect"),
        (
            Call::Reconnect {
                worker: 1,
                call: 1,
                key: 1,
            },
            "reconnect",
        ),
        (Call::Scavenge, "scavenge"),
        (Call::Tidy, "tidy"),
        (Call::Status { tables }, "status"),
    ] {
        let mut line = Text::new(rt.alloc());
        push_call_line(&mut line, 64, 20_000, &call, Reply::Done)?;
        let wanted = format!(in rt.alloc(); "64.20000 {word} OK\n")?;
        assert_eq!(rt; line.bytes(), wanted.as_bytes());
    }
    Ok(())
}

#[test]
fn letters_and_deaths_have_their_lines(rt: HostRuntime) -> Result<(), Fail> {
    let mut workers = Items::new(rt.alloc());
    for pid in [101, 205] {
        workers.push(WorkerInfo {
            pid,
            uid: 0,
            guid: 0,
            machine: Text::new(rt.alloc()),
            share: Text::new(rt.alloc()),
            old: false,
        })?;
    }
    let setup = Setup {
        workers,
        files: Items::new(rt.alloc()),
    };
    let to = |pid, letter| Post {
        to: Sid { pid, session: 1 },
        letter,
    };
    let posts = [
        to(205, Letter::Wake { call: 3 }),
        to(101, LOWERED),
        to(205, BROKEN),
    ];
    assert!(rt; setup.workers.len() <= MAX_WORKERS);
    let mut text = Text::new(rt.alloc());
    push_death_line(&mut text, 10)?;
    push_post_lines(&mut text, &setup, &posts)?;
    let wanted =
        "10 died\n  -> 2 WAKE 3\n  -> 1 BREAK file=4294967295 key=0 RH->-\n  -> 2 BREAK file=1 key=18446744073709551615 RWH->R ack\n";
    assert_eq!(rt; text.bytes(), wanted.as_bytes());
    Ok(())
}
