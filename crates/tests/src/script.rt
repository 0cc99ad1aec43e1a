//! Tests of worker_script.
use sid_core::{Access, Call, LeaseAsk, LeaseState, MAX_SCRIPT, Mode, Point, Share, Span, Tables};
use std::alloc::{AllocError, Global};
use std::fmt::Write;
use std::test::Fail;
use worker_script::{Parse, Planned, Reason, parse};

const NO_MEMORY: u32 = 200;

// The line and the reason that are told, or (0, 0) for a script.
fn told(alloc: Global, text: &[u8]) -> (u32, u32) {
    if text.len() > MAX_SCRIPT {
        return (0, NO_MEMORY);
    }
    match parse(alloc, text) {
        Ok(_) => (0, 0),
        Err(Parse::Bad { line, reason }) => (line, reason.number()),
        Err(Parse::OutOfMemory) => (0, NO_MEMORY),
    }
}

#[test]
fn a_script_is_read(rt: HostRuntime) -> Result<(), Fail> {
    let text =
        b"# one worker\n\nworker 1 101 1000 7 hostA data\n  file  001 1 11 /srv/data a.txt  \nphase 5\n1 open 1 0x1F01ff rwd\n1 close 9\nphase 5\n01 open 1 0x00000020 d";
    if text.len() > MAX_SCRIPT {
        return Ok(());
    }
    let script = parse(rt.alloc(), text)?;
    for worker in script.setup.workers.as_slice() {
        assert_eq!(rt; (worker.pid, worker.uid, worker.guid), (101, 1000, 7));
        assert_eq!(rt; worker.machine.bytes(), b"hostA".as_slice());
        assert_eq!(rt; worker.share.bytes(), b"data".as_slice());
    }
    for file in script.setup.files.as_slice() {
        assert_eq!(rt; (file.dev, file.inode), (1, 11));
        assert_eq!(rt; file.path.bytes(), b"/srv/data".as_slice());
        assert_eq!(rt; file.name.bytes(), b"a.txt".as_slice());
    }
    let mut planned = Vec::new(rt.alloc());
    for phase in script.phases.as_slice() {
        assert_eq!(rt; phase.moment.0, 5);
        for call in phase.calls.as_slice() {
            planned.push(*call)?;
        }
    }
    let open = |access, share| Call::OpenFile {
        file: 1,
        access: Access(access),
        share: Share(share),
        lease: None,
        durable: 0,
        overwrite: false,
        delete: false,
    };
    let numbered = |number, call| Planned {
        worker: 1,
        number,
        call,
        stop: None,
    };
    let wanted = [
        numbered(1, open(0x1F01FF, 7)),
        numbered(2, Call::Close { handle: 9 }),
        numbered(3, open(0x20, 4)),
    ];
    assert!(rt; planned.as_slice() == wanted.as_slice());
    Ok(())
}

#[test]
fn first_bad_lines(rt: HostRuntime) {
    for (text, line, reason) in [
        ("", 0, 0),
        ("\n\n", 0, 0),
        ("#\n   # x\n", 0, 0),
        ("#\t", 1, 1),
        ("\n \x7f", 2, 1),
        ("\0worker", 1, 1),
        ("~", 1, 2),
        ("!take", 1, 2),
        ("Worker 1 1 0 0 m s", 1, 2),
        ("1a close 1", 1, 2),
        ("worker 1", 1, 3),
        ("phase", 1, 3),
        ("file 1 0 0 p", 1, 3),
        ("worker 1 0 0 0 m s", 1, 4),
        ("worker 1 1 0 18446744073709551616 m s", 1, 4),
        (
            "worker 01 4294967295 4294967295 18446744073709551615 m s",
            0,
            0,
        ),
        ("worker 00000000000000000001 1 0 0 m s", 0, 0),
        ("worker 000000000000000000001 1 0 0 m s", 1, 4),
        ("phase 10000000000", 1, 4),
        ("99999999999 close 1", 1, 4),
        ("phase 0\nworker 1 1 0 0 m s", 2, 5),
        ("phase 0\nworker 9 1 0 0 m s", 2, 5),
        ("phase 0\nfile 2 0 0 p n", 2, 5),
        ("worker 2 1 0 0 m s", 1, 6),
        ("file 0 0 0 p n", 1, 6),
        ("worker 1 1 0 0 m s\nworker 1 1 0 0 m s", 2, 6),
        ("worker 1 1 0 0 m s\nworker 2 1 0 0 m s", 2, 12),
        ("file 1 0 0 p n\nfile 2 0 1 p n\nfile 3 1 0 p n", 0, 0),
        ("file 1 0 0 p n\nfile 2 0 0 q o", 2, 13),
        ("phase 5\nphase 5\nphase 4", 3, 15),
        ("1 close 1", 1, 16),
        ("9 fly", 1, 16),
        ("1", 1, 16),
        ("1 close x", 1, 4),
        ("worker 1 1 0 0 m s old", 0, 0),
        ("worker 1 1 0 0 m s older", 1, 25),
        ("worker 1 1 0 0 m s old old", 1, 3),
        ("worker 2 1 0 0 m s older", 1, 6),
        ("phase 0 old", 1, 3),
    ] {
        assert_eq!(rt;
            told(rt.alloc(), text.as_bytes()),
            (line, reason),
            "of {text:?}"
        );
    }
}

// Lines behind four lines that declare two workers and a file and begin a phase.
#[test]
fn first_bad_calls(rt: HostRuntime) -> Result<(), Fail> {
    for (calls, line, reason) in [
        ("1 open 1 0x3 rwd\n1 close 1\n", 0, 0),
        ("1 open 1 0x1F01ff -", 0, 0),
        ("1 recv", 0, 0),
        ("1 close 1\n1 close 1 !take", 0, 0),
        ("2 close 1", 0, 0),
        ("2 delete 1 on\n1 delete 1 off !take", 0, 0),
        ("1 open 1 0x3 r overwrite lease=1:RWH durable=60", 0, 0),
        ("1 recv\n1 fly", 6, 18),
        ("9 fly", 5, 17),
        ("0 close 1", 5, 17),
        ("3 recv !x", 5, 17),
        ("1 reconnect 3 1 1", 5, 17),
        ("1", 5, 18),
        ("1 !take", 5, 18),
        ("1 fly 1 2", 5, 18),
        ("1 recv !take !take", 5, 3),
        ("1 open 1 0x3", 5, 3),
        (
            "1 open 1 0x3 r overwrite durable=1 lease=1:R delete x",
            5,
            3,
        ),
        ("1 delete 1", 5, 3),
        ("1 delete 1 on off", 5, 3),
        ("1 status -S -L -B -S", 5, 3),
        ("1 close 4294967296", 5, 4),
        ("1 delete 4294967296 On", 5, 4),
        ("1 lock 1 0 x s now", 5, 4),
        ("1 ack 18446744073709551616 R", 5, 4),
        ("1 open 2 0x3 r", 5, 19),
        ("1 open 0 0x0 q", 5, 19),
        ("1 open 1 3 r", 5, 20),
        ("1 open 1 0X3 q", 5, 20),
        ("1 open 1 0x r", 5, 20),
        ("1 open 1 0x000000001 r", 5, 20),
        ("1 open 1 0x0 r", 5, 20),
        ("1 open 1 0x200 r", 5, 20),
        ("1 open 1 0x3 dr", 5, 21),
        ("1 open 1 0x3 rr x", 5, 21),
        ("1 open 1 0x3 r overwrite overwrite", 5, 22),
        ("1 open 1 0x3 r overwrite durable=1 lease=1:R x", 5, 22),
        ("1 open 1 0x3 r delete delete", 5, 22),
        ("1 delete 1 On", 5, 22),
        ("1 delete 1 wait", 5, 22),
        ("1 open 1 0x3 r lease=1R", 5, 22),
        ("1 open 1 0x3 r lease=18446744073709551616:R", 5, 22),
        ("1 open 1 0x3 r durable=0", 5, 22),
        ("1 open 1 0x3 r lease=1:R durable=1 lease=1:R", 5, 22),
        ("1 ack 1 W", 5, 22),
        ("1 lock 1 0 1 r now", 5, 22),
        ("1 lock 1 0 1 s later", 5, 22),
        ("1 glock 1 x now", 5, 22),
        ("1 status -S -L", 5, 22),
        ("1 status -B -B", 5, 22),
        ("1 recv !take\n1 recv", 6, 23),
        ("1 recv !take\n1 recv !x", 6, 23),
        ("1 recv !x", 5, 24),
        ("1 recv !", 5, 24),
        ("1 open 1 0x3 r !takes", 5, 24),
    ] {
        let head = "worker 1 1 0 0 m s\nworker 2 2 0 0 m s\nfile 1 0 0 p n\nphase 5\n";
        let text = format!(in rt.alloc(); "{head}{calls}")?;
        assert_eq!(rt;
            told(rt.alloc(), text.as_bytes()),
            (line, reason),
            "of {calls:?}"
        );
    }
    Ok(())
}

// What is told of `head` and as many lines of `front`, the line's number and `back`.
fn told_of_many(
    alloc: Global,
    head: &str,
    count: u32,
    front: &str,
    back: &str,
) -> Result<(u32, u32), AllocError> {
    let mut text = String::from_str(alloc, head)?;
    for number in 1..=count {
        write!(text, "{front} {number} {back}\n")?;
    }
    Ok(told(alloc, text.as_bytes()))
}

#[test]
fn limits(rt: HostRuntime) -> Result<(), Fail> {
    for (head, count, front, back, line, reason) in [
        ("", 10_000, "phase", "", 0, 0),
        ("", 10_001, "phase", "", 10_001, 9),
        ("worker 1 1 0 0 m s\nphase 0\n", 20_000, "1 close", "", 0, 0),
        (
            "worker 1 1 0 0 m s\nphase 0\n",
            20_001,
            "1 close",
            "",
            20_003,
            10,
        ),
        ("worker 1 1 0 0 m s\nphase 0\n", 100, "1 gunlock", "", 0, 0),
    ] {
        let found = told_of_many(rt.alloc(), head, count, front, back)?;
        assert_eq!(rt; found, (line, reason), "of {count} {front}");
    }
    Ok(())
}

#[test]
fn many_of_a_kind(rt: HostRuntime) -> Result<(), Fail> {
    let mut text = String::new(rt.alloc());
    for number in 1..=65 {
        write!(text, "worker {number} {number} 0 0 m s\n")?;
    }
    assert_eq!(rt; told(rt.alloc(), text.as_bytes()), (65, 7));
    let mut text = String::new(rt.alloc());
    for number in 1..=10_001 {
        write!(text, "file {number} 1 {number} p n\n")?;
    }
    assert_eq!(rt; told(rt.alloc(), text.as_bytes()), (10_001, 8));
    let mut text = String::from_str(rt.alloc(), "worker 1 1 0 0 m s\nphase 0\n")?;
    for _ in 1..=100 {
        text.push_str("1 status -L -B\n")?;
    }
    assert_eq!(rt; told(rt.alloc(), text.as_bytes()), (0, 0));
    text.push_str("1 status -L -L\n")?;
    assert_eq!(rt; told(rt.alloc(), text.as_bytes()), (103, 11));
    Ok(())
}

// A text of 255 bytes and one of 256, and a line of 4 MiB of one byte.
#[test]
fn long_lines(rt: HostRuntime) -> Result<(), Fail> {
    for (length, line, reason) in [(255, 0, 0), (256, 1, 14)] {
        let name = vec![in rt.alloc(); b'x'; length]?;
        let mut text = Vec::from_slice(rt.alloc(), b"file 1 0 0 p ".as_slice())?;
        text.extend_from_slice(name.as_slice())?;
        assert_eq!(rt; told(rt.alloc(), text.as_slice()), (line, reason));
    }
    for (byte, line, reason) in [
        (b' ', 0, 0),
        (b'#', 0, 0),
        (b'1', 1, 4),
        (b'\n', 0, 0),
        (0, 1, 1),
    ] {
        let text = vec![in rt.alloc(); byte; MAX_SCRIPT]?;
        assert_eq!(rt;
            told(rt.alloc(), text.as_slice()),
            (line, reason),
            "of {byte}"
        );
    }
    Ok(())
}

// The text of each error.
#[test]
fn errors_have_texts(rt: HostRuntime) -> Result<(), Fail> {
    let alloc = rt.alloc();
    for (error, text) in [
        (
            Parse::Bad {
                line: 3,
                reason: Reason::TooManyWorkers,
            },
            "line 3: reason 7",
        ),
        (Parse::OutOfMemory, "out of memory"),
    ] {
        let said = format!(in alloc; "{error}")?;
        assert_eq!(rt; said.as_str(), text);
    }
    Ok(())
}

const HEAD: &str =
    "worker 1 1 0 0 m s\nworker 2 2 0 0 m s\nfile 1 0 0 p n\nfile 2 0 1 p n\nphase 5\n";

// The only call that a script of the head and this line plans, and where its worker dies.
fn planned(alloc: Global, line: &str) -> Result<Option<(Call, Option<Point>)>, Fail> {
    let text = format!(in alloc; "{HEAD}{line}\n")?;
    if text.len() > MAX_SCRIPT {
        return Ok(None);
    }
    let script = parse(alloc, text.as_bytes())?;
    let mut found = None;
    for phase in script.phases.as_slice() {
        for planned in phase.calls.as_slice() {
            found = Some((planned.call, planned.stop));
        }
    }
    Ok(found)
}

fn opened(lease: Option<LeaseAsk>, durable: u32, overwrite: bool, delete: bool) -> Call {
    Call::OpenFile {
        file: 2,
        access: Access(0x1_0003),
        share: Share(5),
        lease,
        durable,
        overwrite,
        delete,
    }
}

fn shown(shares: bool, files: bool, ranges: bool) -> Call {
    Call::Status {
        tables: Tables {
            shares,
            files,
            ranges,
        },
    }
}

// A line of each call, with each word, option and flag.
#[test]
fn each_call_is_read(rt: HostRuntime) -> Result<(), Fail> {
    let span = Span {
        start: 7,
        length: 18_446_744_073_709_551_615,
    };
    let asks = |key, state| {
        Some(LeaseAsk {
            key,
            state: LeaseState(state),
        })
    };
    let locks = |mode, wait| Call::Lock {
        handle: 3,
        span,
        mode,
        wait,
    };
    for (line, call, stop) in [
        ("1 open 2 0x10003 rd", opened(None, 0, false, false), None),
        (
            "1 open 2 0x10003 rd overwrite",
            opened(None, 0, true, false),
            None,
        ),
        (
            "1 open 2 0x10003 rd delete",
            opened(None, 0, false, true),
            None,
        ),
        (
            "1 open 2 0x10003 rd durable=60 delete lease=9:RH overwrite !store",
            opened(asks(9, 3), 60, true, true),
            Some(Point::Store),
        ),
        (
            "1 open 2 0x10003 rd durable=4294967295 lease=9:-",
            opened(asks(9, 0), 4_294_967_295, false, false),
            None,
        ),
        (
            "1 open 2 0x10003 rd lease=09:R !release",
            opened(asks(9, 1), 0, false, false),
            Some(Point::Release),
        ),
        (
            "2 open 2 0x10003 rd lease=0:RW",
            opened(asks(0, 5), 0, false, false),
            None,
        ),
        (
            "1 open 2 0x10003 rd lease=1:RH durable=1",
            opened(asks(1, 3), 1, false, false),
            None,
        ),
        (
            "1 open 02 0x00010003 rd overwrite durable=60 lease=1:RWH",
            opened(asks(1, 7), 60, true, false),
            None,
        ),
        (
            "1 close 4294967295 !take",
            Call::Close {
                handle: 4_294_967_295,
            },
            Some(Point::Take),
        ),
        (
            "1 delete 4294967295 on",
            Call::Delete {
                handle: 4_294_967_295,
                on: true,
            },
            None,
        ),
        (
            "1 delete 007 off !commit",
            Call::Delete {
                handle: 7,
                on: false,
            },
            Some(Point::Commit),
        ),
        (
            "1 ack 18446744073709551615 RH !intent",
            Call::Ack {
                key: 18_446_744_073_709_551_615,
                state: LeaseState(3),
            },
            Some(Point::Intent),
        ),
        (
            "1 lock 3 7 18446744073709551615 s now",
            locks(Mode::Shared, false),
            None,
        ),
        (
            "1 lock 3 7 18446744073709551615 x wait !store",
            locks(Mode::Exclusive, true),
            Some(Point::Store),
        ),
        (
            "1 unlock 3 7 18446744073709551615",
            Call::Unlock { handle: 3, span },
            None,
        ),
        (
            "1 read 3 7 18446744073709551615",
            Call::Read { handle: 3, span },
            None,
        ),
        (
            "1 write 3 7 18446744073709551615",
            Call::Write { handle: 3, span },
            None,
        ),
        (
            "1 glock 9 r wait",
            Call::GLock {
                key: 9,
                mode: Mode::Shared,
                wait: true,
            },
            None,
        ),
        (
            "1 glock 9 w now",
            Call::GLock {
                key: 9,
                mode: Mode::Exclusive,
                wait: false,
            },
            None,
        ),
        ("1 gunlock 9", Call::GUnlock { key: 9 }, None),
        ("1 recv !commit", Call::Recv, Some(Point::Commit)),
        ("1 disconnect", Call::Disconnect, None),
        (
            "1 reconnect 2 4 9",
            Call::Reconnect {
                worker: 2,
                call: 4,
                key: 9,
            },
            None,
        ),
        ("1 scavenge", Call::Scavenge, None),
        ("1 tidy", Call::Tidy, None),
        ("1 status", shown(true, true, false), None),
        ("1 status -S", shown(true, false, false), None),
        ("1 status -L", shown(false, true, false), None),
        ("1 status -B", shown(true, true, true), None),
        ("1 status -B -S", shown(true, false, false), None),
        ("1 status -L -B", shown(false, true, true), None),
    ] {
        let read = planned(rt.alloc(), line)?;
        assert_eq!(rt; read, Some((call, stop)), "of {line}");
    }
    Ok(())
}

// Which workers are of an old release.
#[test]
fn old_workers_are_read(rt: HostRuntime) -> Result<(), Fail> {
    let text = b"worker 1 1 0 0 m s\nworker 2 2 0 0 m s old\nworker 3 3 0 0 old old";
    if text.len() > MAX_SCRIPT {
        return Ok(());
    }
    let script = parse(rt.alloc(), text)?;
    let mut found = Vec::new(rt.alloc());
    for worker in script.setup.workers.as_slice() {
        found.push(worker.old)?;
    }
    assert_eq!(rt; found.as_slice(), [false, true, false].as_slice());
    Ok(())
}
