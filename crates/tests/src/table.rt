//! Tests of serial_table: what its rules answer, and sharing against a table that was made by hand from [MS-FSA].
ghost use Rattle.std.specs.Prelude.{◌≡◌, ◌≤◌, length, IsTrue};
ghost use Rattle.serial_table.specs.Apply.{HasNext};
ghost use Rattle.serial_table.specs.Settle.{settle};

use serial_table::{Apply, Breaking, LeaseRow, OpenRow, RangeRow, Table, share_conflict};
use sid_core::{
    Access, Call, Entry, Event, FileInfo, Items, LeaseName, LeaseState, Mode, Moment, OpenId,
    Reply, Setup, Share, Sid, Span, Tables, Text, WorkerInfo,
};
use std::alloc::Global;
use std::test::Fail;

fn text(alloc: Global, bytes: &[u8]) -> Result<Text, Fail> {
    let mut text = Text::new(alloc);
    text.push(bytes)?;
    Ok(text)
}

fn worker(alloc: Global, pid: u32) -> Result<WorkerInfo, Fail> {
    Ok(WorkerInfo {
        pid,
        uid: 1000,
        guid: 1,
        machine: text(alloc, b"host")?,
        share: text(alloc, b"data")?,
        old: false,
    })
}

fn file(alloc: Global, inode: u64) -> Result<FileInfo, Fail> {
    Ok(FileInfo {
        dev: 1,
        inode,
        path: text(alloc, b"/srv/data")?,
        name: text(alloc, b"a.txt")?,
    })
}

fn two_workers(alloc: Global) -> Result<Setup, Fail> {
    Ok(Setup {
        workers: Items::from_vec(vec![in alloc; worker(alloc, 101)?, worker(alloc, 102)?]?),
        files: Items::from_vec(vec![in alloc; file(alloc, 11)?, file(alloc, 12)?]?),
    })
}

fn open(file: u32, access: u32, share: u32) -> Call {
    Call::OpenFile {
        file,
        access: Access(access),
        share: Share(share),
        lease: None,
        durable: 0,
        overwrite: false,
        delete: false,
    }
}

fn close(handle: u32) -> Call {
    Call::Close { handle }
}

const GRANTED: Reply = Reply::Granted {
    lease: None,
    durable: false,
};

fn called(by: u32, number: u32, call: Call, reply: Reply) -> Entry {
    let what = Event::Called {
        number,
        moment: Moment(0),
        call,
        reply,
    };
    Entry {
        by,
        seq: number,
        what,
    }
}

fn died(worker: u32) -> Entry {
    let what = Event::Died {
        worker,
        moment: Moment(0),
    };
    Entry {
        by: 0,
        seq: 1,
        what,
    }
}

/// Whether the number of the caller's next session has 32 bits, as it has in each of these tests.
fn has_next(table: &Table, setup: &Setup, entry: &Entry) -> bool
    ensures { IsTrue result → HasNext setup.now table.now entry.now.by entry.now.what }
{
    match entry.what {
        Event::Called { number, moment, .. } => {
            match table.caller(setup, entry.by, number, moment) {
                Some(caller) => caller.sid.session < 0xFFFF_FFFF,
                None => true,
            }
        }
        Event::Died { .. } | Event::Tidied { .. } => true,
    }
}

/// How the table answers an entry: with the number of letters that it posts, or with why not.
fn answer(table: &mut Table, setup: &Setup, entry: &Entry) -> Result<usize, Apply>
    requires settled { settle table.old ≡ table.old }
    ensures settled { settle table.new ≡ table.new }
{
    if !has_next(table, setup, entry) {
        return Err(Apply::OutOfMemory);
    }
    let posts = table.apply(setup, entry)?;
    Ok(posts.len())
}

// Each call, by its worker and number, with the reply that the rules give. A reply of another kind is told by the table's own, the dead
// and the undeclared are told apart from it, and what is refused changes nothing.
#[test]
fn calls_and_deaths_are_answered(rt: HostRuntime) -> Result<(), Fail> {
    let setup = two_workers(rt.alloc())?;
    assert!(rt; setup.workers.len() <= 64);
    let mut table = Table::start(rt.alloc(), &setup)?;
    let t = &mut table;
    assert_eq!(rt;
        answer(t, &setup, &called(1, 1, open(1, 0x2, 1), GRANTED)),
        Ok(0)
    );
    assert_eq!(rt;
        answer(t, &setup, &called(2, 1, open(1, 0x1, 1), GRANTED)),
        Err(Apply::Differs(Reply::SharingViolation))
    );
    assert_eq!(rt;
        answer(
            t,
            &setup,
            &called(2, 1, open(1, 0x1, 1), Reply::SharingViolation)
        ),
        Ok(0)
    );
    assert_eq!(rt;
        answer(t, &setup, &called(2, 2, open(2, 0x1, 7), GRANTED)),
        Ok(0)
    );
    assert_eq!(rt;
        answer(t, &setup, &called(1, 2, open(2, 0x2, 7), GRANTED)),
        Ok(0)
    );
    assert_eq!(rt;
        answer(t, &setup, &called(2, 3, close(1), Reply::FileClosed)),
        Ok(0)
    );
    assert_eq!(rt;
        answer(t, &setup, &called(1, 3, close(1), Reply::Done)),
        Ok(0)
    );
    assert_eq!(rt;
        answer(t, &setup, &called(1, 4, close(1), Reply::FileClosed)),
        Ok(0)
    );
    assert_eq!(rt;
        answer(t, &setup, &called(2, 4, open(1, 0x10000, 0), GRANTED)),
        Ok(0)
    );
    assert_eq!(rt;
        answer(
            t,
            &setup,
            &called(1, 5, open(1, 0x10000, 3), Reply::SharingViolation)
        ),
        Ok(0)
    );
    assert_eq!(rt;
        answer(t, &setup, &called(1, 6, open(1, 0x80, 0), GRANTED)),
        Ok(0)
    );
    assert_eq!(rt; answer(t, &setup, &died(3)), Err(Apply::NotAlive(3)));
    assert_eq!(rt; answer(t, &setup, &died(2)), Ok(0));
    assert_eq!(rt; answer(t, &setup, &died(2)), Err(Apply::NotAlive(2)));
    assert_eq!(rt;
        answer(t, &setup, &called(2, 5, close(4), Reply::Done)),
        Err(Apply::NotAlive(2))
    );
    assert_eq!(rt;
        answer(t, &setup, &called(1, 7, open(1, 0x10000, 0), GRANTED)),
        Ok(0)
    );
    Ok(())
}

// Each access right that takes part in sharing, and those that don't, with the share bits that have to be there beside it: a right is
// hindered by the one bit alone, in whichever of the two opens it stands.
#[test]
fn each_right_has_its_share_bit(rt: HostRuntime) {
    let rights = [
        (0x1, 1),
        (0x2, 2),
        (0x4, 2),
        (0x20, 1),
        (0x10000, 4),
        (0x8, 0),
        (0x10, 0),
        (0x40, 0),
        (0x80, 0),
        (0x100, 0),
        (0x20000, 0),
        (0x40000, 0),
        (0x80000, 0),
        (0x100000, 0),
    ];
    for (right, wanted) in rights {
        for share in 0..8u32 {
            // The other open takes part by reading, and shares or is shared all.
            let hindered = wanted != 0 && share & wanted == 0;
            let (asks, reads) = (Access(right), Access(1));
            assert_eq!(rt;
                share_conflict(asks, Share(7), reads, Share(share)),
                hindered,
                "right {right} beside {share}"
            );
            assert_eq!(rt;
                share_conflict(reads, Share(share), asks, Share(7)),
                hindered,
                "{share} beside right {right}"
            );
        }
    }
}

// ---- the tables of smbstatus

fn open_row(pid: u32, session: u32, call: u32, file: u32) -> OpenRow {
    OpenRow {
        id: OpenId { pid, call },
        owner: Sid { pid, session },
        handle: call,
        file,
        access: Access(0x3),
        share: Share(7),
        lease: None,
        durable: 0,
        opened: Moment(5),
        marked: false,
    }
}

fn range_row(pid: u32, call: u32, file: u32, start: u64, length: u64, mode: Mode) -> RangeRow {
    RangeRow {
        id: OpenId { pid, call },
        file,
        span: Span { start, length },
        mode,
    }
}

const NAME: LeaseName = LeaseName { guid: 1, key: 7 };

/// A table with an open of the second file before two of the first, of which the second has lost its owner.
fn three_opens(alloc: Global, setup: &Setup) -> Result<Table, Fail>
    requires { length setup.now.workers ≤ 64 }
{
    let mut table = Table::start(alloc, setup)?;
    table.opens.push(OpenRow {
        access: Access(0x1F01FF),
        share: Share(0),
        opened: Moment(7),
        ..open_row(102, 1, 4, 2)
    })?;
    table.opens.push(OpenRow {
        lease: Some(NAME),
        ..open_row(101, 1, 1, 1)
    })?;
    table.opens.push(OpenRow {
        access: Access(0x80),
        share: Share(1),
        opened: Moment(6),
        ..open_row(102, 2, 3, 1)
    })?;
    table.leases.push(LeaseRow {
        name: NAME,
        file: 1,
        held: LeaseState(7),
        breaking: Some(Breaking {
            asked: LeaseState(3),
            needed: LeaseState(3),
            until: Moment(0),
        }),
    })?;
    table
        .ranges
        .push(range_row(102, 4, 2, 100, 10, Mode::Exclusive))?;
    table
        .ranges
        .push(range_row(101, 1, 1, 20, u64::MAX, Mode::Shared))?;
    Ok(table)
}

fn shown(alloc: Global, table: &Table, setup: &Setup, chosen: Tables) -> Result<Vec<u8>, Fail> {
    let mut out = Vec::new(alloc);
    table.show(setup, chosen, &mut out)?;
    Ok(out)
}

// Each of the tables, with each of its columns.
#[test]
fn tables_are_shown(rt: HostRuntime) -> Result<(), Fail> {
    let setup = two_workers(rt.alloc())?;
    assert!(rt; setup.workers.len() <= 64);
    let table = three_opens(rt.alloc(), &setup)?;
    let none = Tables {
        shares: false,
        files: false,
        ranges: false,
    };
    let shares = shown(
        rt.alloc(),
        &table,
        &setup,
        Tables {
            shares: true,
            ..none
        },
    )?;
    assert_eq!(rt;
        shares.as_slice(),
        b"Service      Pid    Machine      Connected\n------------------------------------------\ndata         101    host         0\ndata         102    host         0\n\n".as_slice()
    );
    let files = shown(
        rt.alloc(),
        &table,
        &setup,
        Tables {
            files: true,
            ..none
        },
    )?;
    assert_eq!(rt;
        files.as_slice(),
        b"Locked files:\nPid    User   DenyMode   Access    R/W    Lease Path         Name         Time\n------------------------------------------------------------------------------\n101    1000   DENY_NONE  0x3       RDWR   RWH*  /srv/data    a.txt        5\n-      1000   DENY_WRITE 0x80      RDONLY NONE  /srv/data    a.txt        6\n102    1000   DENY_ALL   0x1f01ff  RDWR   NONE  /srv/data    a.txt        7\n\n".as_slice()
    );
    let ranges = shown(
        rt.alloc(),
        &table,
        &setup,
        Tables {
            ranges: true,
            ..none
        },
    )?;
    assert_eq!(rt;
        ranges.as_slice(),
        b"Byte range locks:\nPid    Kind Start                Length               Name\n----------------------------------------------------------\n101    s    20                   18446744073709551615 a.txt\n102    x    100                  10                   a.txt\n\n".as_slice()
    );
    Ok(())
}
