//! The tables of `examples/smbstatus_tables`, from records that also have an open, a range and a lease of a worker that has died.
ghost use Rattle.std.specs.Prelude.{◌≡◌, ◌<◌, IfOk};

use leases_db::Leases;
use record_codec::{
    LeaseRec, LeaseRef, RangeItem, RangeRec, RegisterRec, ShareEntry, ShareRec, SmallText,
};
use server_ids::Register;
use sid_core::{
    Access, FileInfo, Items, LeaseName, LeaseState, Mode, OpenId, OutOfMemory, Setup, Share, Sid,
    Text, WorkerInfo,
};
use smbstatus_text::{FilesPage, RangesPage, shares};
use std::alloc::Global;
use std::test::Fail;

const SEVEN: LeaseName = LeaseName { guid: 1, key: 7 };

const NINE: LeaseName = LeaseName { guid: 2, key: 9 };

const FIVE: LeaseName = LeaseName { guid: 4, key: 5 };

// ---- what is declared

fn text(alloc: Global, bytes: &[u8]) -> Result<Text, OutOfMemory> {
    let mut text = Text::new(alloc);
    text.push(bytes)?;
    Ok(text)
}

fn worker(
    alloc: Global,
    number: u32,
    machine: &[u8],
    share: &[u8],
) -> Result<WorkerInfo, OutOfMemory>
    requires { number < 100 }
{
    Ok(WorkerInfo {
        pid: 100 + number,
        uid: 999 + number,
        guid: number as u64,
        machine: text(alloc, machine)?,
        share: text(alloc, share)?,
        old: false,
    })
}

fn file(alloc: Global, inode: u64, path: &[u8], name: &[u8]) -> Result<FileInfo, OutOfMemory> {
    Ok(FileInfo {
        dev: 1,
        inode,
        path: text(alloc, path)?,
        name: text(alloc, name)?,
    })
}

fn setup(alloc: Global) -> Result<Setup, OutOfMemory> {
    let mut workers = Items::new(alloc);
    workers.push(worker(alloc, 1, b"hostA", b"data")?)?;
    workers.push(worker(alloc, 2, b"hostB", b"data")?)?;
    workers.push(worker(alloc, 3, b"hostC", b"homes")?)?;
    workers.push(worker(alloc, 4, b"hostD", b"data")?)?;
    let mut files = Items::new(alloc);
    files.push(file(alloc, 11, b"/srv/data", b"a.txt")?)?;
    files.push(file(alloc, 12, b"/srv/data", b"b.txt")?)?;
    files.push(file(alloc, 13, b"/srv/homes/anne", b"c.txt")?)?;
    Ok(Setup { workers, files })
}

// ---- the records

fn session(
    alloc: Global,
    worker: u32,
    alive: bool,
    session: u32,
    connected: u64,
    ended: &[u64],
) -> Result<RegisterRec, OutOfMemory> {
    Ok(RegisterRec {
        worker,
        alive,
        session,
        connected,
        ended: Items::from_vec(Vec::from_slice(alloc, ended)?),
        watchers: Items::new(alloc),
    })
}

// Pid 101 is in its second session, and 104 has died.
fn sessions(alloc: Global) -> Result<Register, OutOfMemory> {
    let mut register = Register::new(alloc);
    register.put(101, session(alloc, 1, true, 2, 10, &[10])?)?;
    register.put(102, session(alloc, 2, true, 1, 0, &[])?)?;
    register.put(103, session(alloc, 3, true, 1, 0, &[])?)?;
    register.put(104, session(alloc, 4, false, 1, 0, &[30])?)?;
    Ok(register)
}

fn lease(
    alloc: Global,
    file: u32,
    held: u8,
    to: Option<u8>,
    pid: u32,
    durable: u32,
) -> Result<LeaseRec, OutOfMemory> {
    let asked = LeaseState(to.unwrap_or(0));
    let id = OpenId { pid, call: 1 };
    let owner = Sid { pid, session: 1 };
    let mut refs = Items::new(alloc);
    refs.push(LeaseRef { id, owner, durable })?;
    Ok(LeaseRec {
        file,
        held: LeaseState(held),
        breaking: to.is_some(),
        asked,
        needed: asked,
        until: if to.is_some() { 65 } else { 0 },
        refs,
    })
}

// One of a durable open whose session has ended, one that is breaking, and one that has settled to nothing.
fn leases(alloc: Global) -> Result<Leases, OutOfMemory> {
    let mut leases = Leases::new(alloc);
    leases.put(SEVEN, lease(alloc, 1, 3, None, 101, 60)?)?;
    leases.put(NINE, lease(alloc, 3, 7, Some(3), 102, 0)?)?;
    let mut gone = lease(alloc, 1, 1, None, 104, 0)?;
    gone.refs = Items::new(alloc);
    leases.put(FIVE, gone)?;
    Ok(leases)
}

fn opened(
    id: OpenId,
    session: u32,
    access: u32,
    share: u32,
    lease: Option<LeaseName>,
    durable: u32,
    opened: u64,
) -> ShareEntry {
    ShareEntry {
        id,
        owner: Sid {
            pid: id.pid,
            session,
        },
        handle: id.call,
        access: Access(access),
        share: Share(share),
        lease,
        durable,
        opened,
        marked: false,
    }
}

fn id(pid: u32, call: u32) -> OpenId {
    OpenId { pid, call }
}

fn opens(alloc: Global, file: u32, entries: &[ShareEntry]) -> Result<ShareRec, OutOfMemory>
    ensures { IfOk result (λ rec. rec.file ≡ file) }
{
    Ok(ShareRec {
        file,
        path: SmallText::from_slice(alloc, b"/srv")?,
        name: SmallText::from_slice(alloc, b"x")?,
        pending: false,
        entries: Items::from_vec(Vec::from_slice(alloc, entries)?),
        watchers: Items::new(alloc),
    })
}

fn opens_of_one(alloc: Global) -> Result<ShareRec, OutOfMemory>
    ensures { IfOk result (λ rec. rec.file ≡ 1) }
{
    let dead = opened(id(104, 1), 1, 1, 7, Some(FIVE), 0, 5);
    let durable = opened(id(101, 1), 1, 3, 7, Some(SEVEN), 60, 10);
    opens(alloc, 1, &[dead, durable])
}

fn opens_of_two(alloc: Global) -> Result<ShareRec, OutOfMemory>
    ensures { IfOk result (λ rec. rec.file ≡ 2) }
{
    let first = opened(id(101, 4), 2, 0x12_0089, 1, None, 0, 10);
    let second = opened(id(102, 2), 1, 1, 3, None, 0, 20);
    opens(alloc, 2, &[first, second])
}

fn opens_of_three(alloc: Global) -> Result<ShareRec, OutOfMemory> {
    let breaking = opened(id(102, 1), 1, 0x12_019F, 7, Some(NINE), 0, 20);
    opens(alloc, 3, &[breaking])
}

fn range(id: OpenId, start: u64, length: u64, mode: Mode) -> RangeItem {
    RangeItem {
        id,
        start,
        length,
        mode,
    }
}

fn ranges(alloc: Global, file: u32, ranges: &[RangeItem]) -> Result<RangeRec, OutOfMemory>
    ensures { IfOk result (λ rec. rec.file ≡ file) }
{
    Ok(RangeRec {
        file,
        ranges: Items::from_vec(Vec::from_slice(alloc, ranges)?),
        watchers: Items::new(alloc),
    })
}

// ---- the tables

const SHARES: &[u8] = b"Service      Pid    Machine      Connected
------------------------------------------
data         101    hostA        10
data         102    hostB        0
homes        103    hostC        0

";

const FILES: &[u8] = b"Locked files:
Pid    User   DenyMode   Access    R/W    Lease Path         Name         Time
------------------------------------------------------------------------------
-      1000   DENY_NONE  0x3       RDWR   RH    /srv/data    a.txt        10
101    1000   DENY_WRITE 0x120089  RDONLY NONE  /srv/data    b.txt        10
102    1001   DENY_NONE  0x1       RDONLY NONE  /srv/data    b.txt        20
102    1001   DENY_NONE  0x12019f  RDWR   RWH*  /srv/homes/anne c.txt        20

";

const RANGES: &[u8] = b"Byte range locks:
Pid    Kind Start                Length               Name
----------------------------------------------------------
-      x    0                    10                   a.txt
102    s    100                  50                   b.txt

";

#[test]
fn living_workers_are_shown(rt: HostRuntime) -> Result<(), Fail> {
    let alloc = rt.alloc();
    let setup = setup(alloc)?;
    let text = shares(alloc, &setup, &sessions(alloc)?)?;
    assert!(rt; text.as_slice() == SHARES);
    Ok(())
}

#[test]
fn opens_that_count_are_shown(rt: HostRuntime) -> Result<(), Fail> {
    let alloc = rt.alloc();
    let (setup, register, leases) = (setup(alloc)?, sessions(alloc)?, leases(alloc)?);
    let mut page = FilesPage::start(alloc);
    page.add(&setup, &opens_of_one(alloc)?, &leases, &register)?;
    page.add(&setup, &opens_of_two(alloc)?, &leases, &register)?;
    page.add(&setup, &opens_of_three(alloc)?, &leases, &register)?;
    let text = page.finish()?;
    assert!(rt; text.as_slice() == FILES);
    Ok(())
}

#[test]
fn ranges_that_count_are_shown(rt: HostRuntime) -> Result<(), Fail> {
    let alloc = rt.alloc();
    let (setup, register, leases) = (setup(alloc)?, sessions(alloc)?, leases(alloc)?);
    let dead = range(id(104, 1), 0, 1, Mode::Shared);
    let one = ranges(alloc, 1, &[dead, range(id(101, 1), 0, 10, Mode::Exclusive)])?;
    let two = ranges(alloc, 2, &[range(id(102, 2), 100, 50, Mode::Shared)])?;
    let mut page = RangesPage::start(alloc);
    page.add(&setup, &one, &opens_of_one(alloc)?, &leases, &register)?;
    page.add(&setup, &two, &opens_of_two(alloc)?, &leases, &register)?;
    let text = page.finish()?;
    assert!(rt; text.as_slice() == RANGES);
    Ok(())
}

#[test]
fn where_nothing_counts_nothing_is_shown(rt: HostRuntime) -> Result<(), Fail> {
    let alloc = rt.alloc();
    let (setup, leases) = (setup(alloc)?, Leases::new(alloc));
    let register = Register::new(alloc);
    let one = ranges(alloc, 1, &[range(id(101, 1), 0, 10, Mode::Exclusive)])?;
    let mut files = FilesPage::start(alloc);
    let mut locks = RangesPage::start(alloc);
    files.add(&setup, &opens_of_one(alloc)?, &leases, &register)?;
    locks.add(&setup, &one, &opens_of_one(alloc)?, &leases, &register)?;
    assert!(rt; files.finish()?.as_slice() == b"No locked files\n\n".as_slice());
    assert!(rt; locks.finish()?.as_slice() == b"No byte range locks\n\n".as_slice());
    Ok(())
}
