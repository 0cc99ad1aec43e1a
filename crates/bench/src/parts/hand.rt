use anyhow::Result;
use leases_db::Leases;
use record_codec::{
    GLockRec, Hold, LeaseRec, LeaseRef, MailRec, RangeItem, RangeRec, RegisterRec, ShareEntry,
    ShareRec, SmallText, Token, WatchRec,
};
use record_watch::Mails;
use server_ids::Register;
use sid_core::{
    Access, FileInfo, Items, LeaseName, LeaseState, Letter, Mode, OpenId, Setup, Share, Sid, Spot,
    Text, WorkerInfo,
};
use std::alloc::Global;

/// The spot that all wait for.
pub const SPOT: Spot = Spot::LockOf(1);

/// The lease of all opens that have the same one.
pub const SHARED: LeaseName = LeaseName { guid: 1, key: 1 };

/// Records of one file, of a lock and of a lease, each with so many entries: the k-th of them is of the k-th worker, whose pid is 100 + k,
/// and the setup that declares these workers and the file.
/// In `register` all live in session 1, in `later` that has ended at moment 0. Pid 100 is the caller's.
#[derive(Drop)]
pub struct Hand {
    pub last: u32,
    pub setup: Setup,
    pub register: Register,
    pub later: Register,
    pub mails: Mails,
    pub mail: MailRec,
    pub leases: Leases,
    pub share: ShareRec,
    pub ranges: RangeRec,
    pub lock: GLockRec,
    pub lease: LeaseRec,
    pub granted: Option<LeaseRec>,
    pub session: RegisterRec,
    pub valid: Vec<OpenId>,
    pub entries: Vec<ShareEntry>,
}

pub fn pid_of(number: u32) -> u32 {
    number.saturating_add(100)
}

pub fn id_of(number: u32) -> OpenId {
    OpenId {
        pid: pid_of(number),
        call: number,
    }
}

pub fn owner_of(number: u32) -> Sid {
    Sid {
        pid: pid_of(number),
        session: 1,
    }
}

pub fn entry_of(number: u32) -> ShareEntry {
    ShareEntry {
        id: id_of(number),
        owner: owner_of(number),
        handle: number,
        access: Access(3),
        share: Share(7),
        lease: Some(name_of(number)),
        durable: 60,
        opened: 0,
        marked: false,
    }
}

pub fn name_of(number: u32) -> LeaseName {
    LeaseName {
        guid: number as u64,
        key: 1,
    }
}

fn reference_of(number: u32) -> LeaseRef {
    LeaseRef {
        id: id_of(number),
        owner: owner_of(number),
        durable: 60,
    }
}

fn watch_of(number: u32) -> WatchRec {
    WatchRec {
        sid: owner_of(number),
        call: number,
        upgrade: false,
    }
}

fn range_of(number: u32) -> RangeItem {
    RangeItem {
        id: id_of(number),
        start: (number as u64) * 10,
        length: 5,
        mode: Mode::Exclusive,
    }
}

fn watches(alloc: Global, size: u32) -> Result<Items<WatchRec>> {
    let mut list = Items::new(alloc);
    for number in 1..=size {
        list.push(watch_of(number))?;
    }
    Ok(list)
}

fn text(alloc: Global, bytes: &[u8]) -> Result<Text> {
    let mut text = Text::new(alloc);
    text.push(bytes)?;
    Ok(text)
}

fn worker(alloc: Global, number: u32) -> Result<WorkerInfo> {
    Ok(WorkerInfo {
        pid: pid_of(number),
        uid: number,
        guid: number as u64,
        machine: text(alloc, b"host")?,
        share: text(alloc, b"data")?,
        old: false,
    })
}

fn setup(alloc: Global, size: u32) -> Result<Setup> {
    let mut workers = Items::new(alloc);
    for number in 0..=size {
        workers.push(worker(alloc, number)?)?;
    }
    let mut files = Items::new(alloc);
    files.push(FileInfo {
        dev: 1,
        inode: 1,
        path: text(alloc, b"/srv/data")?,
        name: text(alloc, b"a.txt")?,
    })?;
    Ok(Setup { workers, files })
}

fn session(alloc: Global, number: u32, current: u32) -> Result<RegisterRec> {
    let mut ended = Items::new(alloc);
    if current > 1 {
        ended.push(0)?;
    }
    Ok(RegisterRec {
        worker: number,
        alive: true,
        session: current,
        connected: 0,
        ended,
        watchers: Items::new(alloc),
    })
}

fn register(alloc: Global, size: u32, current: u32) -> Result<Register> {
    let mut register = Register::new(alloc);
    for number in 0..=size {
        register.put(pid_of(number), session(alloc, number, current)?)?;
    }
    Ok(register)
}

fn mailbox(alloc: Global, call: u32) -> Result<MailRec> {
    let mut tokens = Items::new(alloc);
    tokens.push(Token { spot: SPOT, call })?;
    Ok(MailRec {
        session: 1,
        tokens,
        letters: Items::new(alloc),
    })
}

fn mails(alloc: Global, size: u32) -> Result<Mails> {
    let mut mails = Mails::new(alloc);
    for number in 0..=size {
        mails.put(pid_of(number), mailbox(alloc, number)?)?;
    }
    Ok(mails)
}

// A mailbox with so many tokens and letters.
fn full_mailbox(alloc: Global, size: u32) -> Result<MailRec> {
    let mut tokens = Items::new(alloc);
    let mut letters = Items::new(alloc);
    for call in 1..=size {
        let spot = Spot::LockOf(call as u64);
        tokens.push(Token { spot, call })?;
        letters.push(Letter::Wake { call })?;
    }
    Ok(MailRec {
        session: 1,
        tokens,
        letters,
    })
}

fn lease(refs: Items<LeaseRef>) -> LeaseRec {
    LeaseRec {
        file: 1,
        held: LeaseState(7),
        breaking: false,
        asked: LeaseState(0),
        needed: LeaseState(0),
        until: 0,
        refs,
    }
}

fn leases(alloc: Global, size: u32) -> Result<Leases> {
    let mut leases = Leases::new(alloc);
    for number in 1..=size {
        let mut refs = Items::new(alloc);
        refs.push(reference_of(number))?;
        leases.put(name_of(number), lease(refs))?;
    }
    Ok(leases)
}

fn share(alloc: Global, size: u32) -> Result<ShareRec> {
    let mut entries = Items::new(alloc);
    for number in 1..=size {
        entries.push(entry_of(number))?;
    }
    Ok(ShareRec {
        file: 1,
        path: SmallText::from_slice(alloc, b"/srv/data")?,
        name: SmallText::from_slice(alloc, b"a.txt")?,
        pending: false,
        entries,
        watchers: Items::new(alloc),
    })
}

fn ranges(alloc: Global, size: u32) -> Result<RangeRec> {
    let mut ranges = Items::new(alloc);
    for number in 1..=size {
        ranges.push(range_of(number))?;
    }
    Ok(RangeRec {
        file: 1,
        ranges,
        watchers: Items::new(alloc),
    })
}

fn lock(alloc: Global, size: u32) -> Result<GLockRec> {
    let mut holds = Items::new(alloc);
    for number in 1..=size {
        holds.push(Hold {
            sid: owner_of(number),
            mode: Mode::Shared,
        })?;
    }
    Ok(GLockRec {
        holds,
        watchers: watches(alloc, size)?,
    })
}

fn shared_lease(alloc: Global, size: u32) -> Result<LeaseRec> {
    let mut refs = Items::new(alloc);
    for number in 1..=size {
        refs.push(reference_of(number))?;
    }
    Ok(lease(refs))
}

fn watched_session(alloc: Global, size: u32) -> Result<RegisterRec> {
    Ok(RegisterRec {
        watchers: watches(alloc, size)?,
        ..session(alloc, 0, 1)?
    })
}

impl Hand {
    pub fn new(alloc: Global, size: u32) -> Result<Hand> {
        let mut valid = Vec::new(alloc);
        let mut entries = Vec::new(alloc);
        for number in 1..=size {
            valid.push(id_of(number))?;
            entries.push(entry_of(number))?;
        }
        Ok(Hand {
            last: size,
            setup: setup(alloc, size)?,
            register: register(alloc, size, 1)?,
            later: register(alloc, size, 2)?,
            mails: mails(alloc, size)?,
            mail: full_mailbox(alloc, size)?,
            leases: leases(alloc, size)?,
            share: share(alloc, size)?,
            ranges: ranges(alloc, size)?,
            lock: lock(alloc, size)?,
            lease: shared_lease(alloc, size)?,
            granted: Some(shared_lease(alloc, size)?),
            session: watched_session(alloc, size)?,
            valid,
            entries,
        })
    }
}
