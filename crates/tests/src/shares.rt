use lease_breaks::{Acked, acknowledge, break_lease};
use leases_db::Leases;
use record_codec::{LeaseRec, LeaseRef, RegisterRec, ShareEntry, ShareRec, SmallText};
use server_ids::Register;
use share_modes::{Asked, Violates, add, counts, remove, share_conflict, valid_entries, violates};
use sid_core::{
    Access, Items, LeaseName, LeaseState, Letter, Moment, OpenId, OutOfMemory, Post, Share, Sid,
};
use std::alloc::Global;
use std::test::Fail;

const SEVEN: LeaseName = LeaseName { guid: 1, key: 7 };

fn worker(alloc: Global, worker: u32, alive: bool) -> Result<RegisterRec, OutOfMemory> {
    let mut ended = Items::new(alloc);
    if !alive {
        ended.push(5)?;
    }
    Ok(RegisterRec {
        worker,
        alive,
        session: 1,
        connected: 0,
        ended,
        watchers: Items::new(alloc),
    })
}

// Pids 101 and 103 live, and 102 has died.
fn workers(alloc: Global) -> Result<Register, OutOfMemory> {
    let mut register = Register::new(alloc);
    register.put(101, worker(alloc, 1, true)?)?;
    register.put(102, worker(alloc, 2, false)?)?;
    register.put(103, worker(alloc, 3, true)?)?;
    Ok(register)
}

// A lease of file 1 that holds this, and has these opens.
fn lease(alloc: Global, held: u8, opens: &[(u32, u32)]) -> Result<LeaseRec, OutOfMemory> {
    let mut refs = Items::new(alloc);
    for (pid, durable) in opens {
        refs.push(LeaseRef {
            id: OpenId { pid: *pid, call: 1 },
            owner: Sid {
                pid: *pid,
                session: 1,
            },
            durable: *durable,
        })?;
    }
    Ok(LeaseRec {
        file: 1,
        held: LeaseState(held),
        breaking: false,
        asked: LeaseState(0),
        needed: LeaseState(0),
        until: 0,
        refs,
    })
}

// It is the lease of key 7, and there is no other.
fn leases(alloc: Global, held: u8, opens: &[(u32, u32)]) -> Result<Leases, OutOfMemory> {
    let mut leases = Leases::new(alloc);
    leases.put(SEVEN, lease(alloc, held, opens)?)?;
    Ok(leases)
}

fn no_opens(alloc: Global) -> Result<ShareRec, OutOfMemory> {
    Ok(ShareRec {
        file: 1,
        path: SmallText::from_slice(alloc, b"/srv/data")?,
        name: SmallText::from_slice(alloc, b"a.txt")?,
        pending: false,
        entries: Items::new(alloc),
        watchers: Items::new(alloc),
    })
}

// The first open of this pid.
fn open_of(
    pid: u32,
    access: u32,
    share: u32,
    lease: Option<LeaseName>,
    durable: u32,
) -> ShareEntry {
    ShareEntry {
        id: OpenId { pid, call: 1 },
        owner: Sid { pid, session: 1 },
        handle: 1,
        access: Access(access),
        share: Share(share),
        lease,
        durable,
        opened: 0,
        marked: false,
    }
}

fn asks(access: u32, share: u32, lease: Option<LeaseName>) -> Asked {
    Asked {
        access: Access(access),
        share: Share(share),
        lease,
    }
}

// What is answered: nothing, the pid whose open refuses, or how many leases have to be broken.
fn answered(answer: &Violates) -> (u32, usize) {
    match answer {
        Violates::Nothing => (0, 0),
        Violates::Refused(id) => (id.pid, 0),
        Violates::Breaks(names) => (0, names.len()),
        Violates::OutOfMemory => (0, 99),
    }
}

#[test]
fn opens_come_and_go(rt: HostRuntime) -> Result<(), Fail> {
    let alloc = rt.alloc();
    let register = workers(alloc)?;
    let leases = leases(alloc, 7, &[(102, 60)])?;
    let mut rec = no_opens(alloc)?;
    add(&mut rec, open_of(101, 3, 7, None, 0))?;
    add(&mut rec, open_of(102, 3, 7, None, 0))?;
    add(&mut rec, open_of(103, 3, 7, None, 0))?;
    // The open of the dead worker doesn't count. Once it is durable, its lease keeps it.
    assert_eq!(rt; valid_entries(alloc, &rec, &leases, &register)?.len(), 2);
    assert!(rt; counts(1, &open_of(102, 3, 7, Some(SEVEN), 60), &leases, &register));
    assert!(rt; !counts(2, &open_of(102, 3, 7, Some(SEVEN), 60), &leases, &register));
    assert!(rt; remove(&mut rec, OpenId { pid: 101, call: 1 }));
    assert!(rt; !remove(&mut rec, OpenId { pid: 101, call: 1 }));
    let valid = valid_entries(alloc, &rec, &leases, &register)?;
    assert_eq!(rt; valid.len(), 1);
    assert_eq!(rt; valid[0].id.pid, 103);
    Ok(())
}

#[test]
fn opens_stand_in_the_way(rt: HostRuntime) -> Result<(), Fail> {
    let alloc = rt.alloc();
    let register = workers(alloc)?;
    let rwh = leases(alloc, 7, &[(101, 0)])?;
    let rw = leases(alloc, 5, &[(101, 0)])?;
    assert!(rt; share_conflict(asks(2, 1, None), asks(1, 1, None)));
    assert!(rt; !share_conflict(asks(2, 1, None), asks(0x80, 0, None)));
    // One that writes and shares reading, and then one that reads and doesn't share writing.
    let plain = [open_of(101, 2, 1, None, 0)];
    assert_eq!(rt;
        answered(&violates(alloc, asks(1, 1, None), &plain, &rwh, &register)),
        (101, 0)
    );
    assert_eq!(rt;
        answered(&violates(alloc, asks(1, 7, None), &plain, &rwh, &register)),
        (0, 0)
    );
    // One that shares nothing, under a lease of RWH, and under one of RW.
    let leased = [open_of(101, 3, 0, Some(SEVEN), 0)];
    assert_eq!(rt;
        answered(&violates(alloc, asks(1, 7, None), &leased, &rwh, &register)),
        (0, 1)
    );
    assert_eq!(rt;
        answered(&violates(alloc, asks(1, 7, None), &leased, &rw, &register)),
        (101, 0)
    );
    assert_eq!(rt;
        answered(&violates(alloc, asks(1, 7, Some(SEVEN)), &leased, &rwh, &register)),
        (101, 0)
    );
    // Its owner is gone.
    let durable = [open_of(102, 3, 0, Some(SEVEN), 60)];
    assert_eq!(rt;
        answered(&violates(alloc, asks(1, 7, Some(SEVEN)), &durable, &rwh, &register)),
        (0, 1)
    );
    Ok(())
}

// What an acknowledgement answers, as its number in this list, with the state that is asked for.
fn acked(answer: Acked) -> (u32, u8) {
    match answer {
        Acked::Unsuccessful => (0, 0),
        Acked::NotAccepted { asked } => (1, asked.0),
        Acked::Taken { post: None } => (2, 0),
        Acked::Taken { post: Some(_) } => (3, 0),
    }
}

#[test]
fn leases_break_and_are_acknowledged(rt: HostRuntime) -> Result<(), Fail> {
    let alloc = rt.alloc();
    let register = workers(alloc)?;
    let mut rec = lease(alloc, 7, &[(102, 60), (101, 0)])?;
    let broken = break_lease(SEVEN, &mut rec, &register, LeaseState(4), Moment(100));
    let letter = Letter::Break {
        file: 1,
        key: 7,
        from: LeaseState(7),
        to: LeaseState(3),
        ack: true,
    };
    let to = Sid {
        pid: 101,
        session: 1,
    };
    assert!(rt; broken.post == Some(Post { to, letter }));
    assert!(rt; broken.blocks == Some(to));
    assert_eq!(rt; (rec.held.0, rec.asked.0, rec.until), (7, 3, 135));
    assert_eq!(rt;
        acked(acknowledge(SEVEN, &mut rec, &register, LeaseState(7), Moment(110))),
        (1, 3)
    );
    assert_eq!(rt;
        acked(acknowledge(SEVEN, &mut rec, &register, LeaseState(3), Moment(110))),
        (2, 0)
    );
    assert_eq!(rt; (rec.held.0, rec.breaking, rec.refs.len()), (3, false, 2));
    assert_eq!(rt;
        acked(acknowledge(SEVEN, &mut rec, &register, LeaseState(3), Moment(110))),
        (0, 0)
    );
    // HANDLE goes, and so does the open of the worker that has died, once that is acknowledged.
    let broken = break_lease(SEVEN, &mut rec, &register, LeaseState(2), Moment(120));
    assert!(rt; broken.post.is_some());
    assert_eq!(rt;
        acked(acknowledge(SEVEN, &mut rec, &register, LeaseState(1), Moment(121))),
        (2, 0)
    );
    assert_eq!(rt; (rec.held.0, rec.refs.len()), (1, 1));
    // R is gone at once, and of a lease without connected opens all is.
    let broken = break_lease(SEVEN, &mut rec, &register, LeaseState(7), Moment(122));
    assert!(rt; broken.post.is_some() && broken.blocks.is_none());
    let mut rec = lease(alloc, 7, &[(102, 60)])?;
    let broken = break_lease(SEVEN, &mut rec, &register, LeaseState(2), Moment(100));
    assert!(rt; broken.post.is_none() && broken.blocks.is_none());
    assert_eq!(rt; (rec.held.0, rec.refs.len()), (5, 0));
    Ok(())
}
