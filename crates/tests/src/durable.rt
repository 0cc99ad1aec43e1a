use durable_open::{cookie, expired, reconnect, scavenge};
use leases_db::Leases;
use record_codec::{LeaseRec, LeaseRef, RegisterRec, ShareEntry, ShareRec, SmallText};
use server_ids::Register;
use sid_core::{Access, Items, LeaseName, LeaseState, Moment, OpenId, OutOfMemory, Share, Sid};
use std::alloc::Global;
use std::test::Fail;

const SEVEN: LeaseName = LeaseName { guid: 1, key: 7 };

// It lives in session 2, which follows the end of session 1 at moment 5; or it died in session 1 then.
fn worker(alloc: Global, worker: u32, alive: bool) -> Result<RegisterRec, OutOfMemory> {
    let mut ended = Items::new(alloc);
    ended.push(5)?;
    Ok(RegisterRec {
        worker,
        alive,
        session: if alive { 2 } else { 1 },
        connected: 0,
        ended,
        watchers: Items::new(alloc),
    })
}

fn workers(alloc: Global) -> Result<Register, OutOfMemory> {
    let mut register = Register::new(alloc);
    register.put(101, worker(alloc, 1, true)?)?;
    register.put(102, worker(alloc, 2, false)?)?;
    Ok(register)
}

// Pid 101 has a connected open with call 1, and one of its ended session with call 2; pid 102 one with call 3.
fn owner_of(call: u32) -> Sid {
    match call {
        1 => Sid {
            pid: 101,
            session: 2,
        },
        2 => Sid {
            pid: 101,
            session: 1,
        },
        _ => Sid {
            pid: 102,
            session: 1,
        },
    }
}

fn id_of(call: u32) -> OpenId {
    OpenId {
        pid: owner_of(call).pid,
        call,
    }
}

fn open_of(call: u32, durable: u32) -> ShareEntry {
    ShareEntry {
        id: id_of(call),
        owner: owner_of(call),
        handle: call,
        access: Access(0x1_0000),
        share: Share(7),
        lease: Some(SEVEN),
        durable,
        opened: 0,
        marked: true,
    }
}

// The opens with these calls and seconds
fn share(alloc: Global, opens: &[(u32, u32)]) -> Result<ShareRec, OutOfMemory> {
    let mut entries = Items::new(alloc);
    for (call, durable) in opens {
        entries.push(open_of(*call, *durable))?;
    }
    Ok(ShareRec {
        file: 1,
        path: SmallText::from_slice(alloc, b"/srv/data")?,
        name: SmallText::from_slice(alloc, b"a.txt")?,
        pending: true,
        entries,
        watchers: Items::new(alloc),
    })
}

fn lease(alloc: Global, held: u8, opens: &[(u32, u32)]) -> Result<LeaseRec, OutOfMemory> {
    let mut refs = Items::new(alloc);
    for (call, durable) in opens {
        refs.push(LeaseRef {
            id: id_of(*call),
            owner: owner_of(*call),
            durable: *durable,
        })?;
    }
    Ok(LeaseRec {
        file: 1,
        held: LeaseState(held),
        breaking: false,
        asked: LeaseState(0),
        needed: LeaseState(0),
        until: 0,
        refs,
    })
}

// Of the entry at this place its owner's pid and its handle.
fn held_at(rec: &ShareRec, place: usize) -> Option<(u32, u32)> {
    match rec.entries.as_slice().get(place) {
        Some(entry) => Some((entry.owner.pid, entry.handle)),
        None => None,
    }
}

fn owner_at(lease: &LeaseRec, place: usize) -> Option<u32> {
    match lease.refs.as_slice().get(place) {
        Some(reference) => Some(reference.owner.pid),
        None => None,
    }
}

const OPENS: [(u32, u32); 3] = [(1, 60), (2, 60), (3, 100)];

// Whether pid 101 can take up the open of this call with its call 9, under that lease.
fn is_taken_up(
    alloc: Global,
    held: u8,
    call: u32,
    name: LeaseName,
    now: u64,
) -> Result<bool, OutOfMemory> {
    let register = workers(alloc)?;
    let mut rec = share(alloc, &OPENS)?;
    let mut lease = lease(alloc, held, &OPENS)?;
    Ok(reconnect(
        &mut rec,
        &mut lease,
        &register,
        id_of(call),
        name,
        owner_of(1),
        9,
        Moment(now),
    ))
}

#[test]
fn durable_opens_are_taken_up_again(rt: HostRuntime) -> Result<(), Fail> {
    let alloc = rt.alloc();
    let other = LeaseName { guid: 2, key: 7 };
    for (held, call, name, now, taken) in [
        (7, 2, SEVEN, 64, true),
        (7, 2, SEVEN, 65, false),
        (7, 3, SEVEN, 104, true),
        (7, 3, SEVEN, 105, false),
        (7, 1, SEVEN, 10, false),
        (7, 2, other, 10, false),
        (5, 2, SEVEN, 10, false),
        (7, 4, SEVEN, 10, false),
    ] {
        assert_eq!(rt; is_taken_up(alloc, held, call, name, now)?, taken);
    }
    let register = workers(alloc)?;
    let mut rec = share(alloc, &OPENS)?;
    let mut lease = lease(alloc, 7, &OPENS)?;
    assert!(rt;
        reconnect(
            &mut rec,
            &mut lease,
            &register,
            id_of(3),
            SEVEN,
            owner_of(1),
            9,
            Moment(64)
        )
    );
    assert!(rt; held_at(&rec, 2) == Some((101, 9)));
    assert!(rt; held_at(&rec, 1) == Some((owner_of(2).pid, 2)));
    assert!(rt; owner_at(&lease, 2) == Some(101));
    Ok(())
}

fn swept(rec: &mut ShareRec, leases: &mut Leases, register: &Register, now: Moment) -> Option<u32> {
    if rec.entries.len() < 4_294_967_296 {
        Some(scavenge(rec, leases, register, now))
    } else {
        None
    }
}

#[test]
fn durable_opens_expire(rt: HostRuntime) -> Result<(), Fail> {
    let alloc = rt.alloc();
    let register = workers(alloc)?;
    assert!(rt; cookie(open_of(3, 100)) == Some(id_of(3)));
    assert!(rt; cookie(open_of(3, 0)).is_none());
    assert!(rt; !expired(open_of(3, 100), &register, Moment(104)));
    assert!(rt; expired(open_of(3, 100), &register, Moment(105)));
    assert!(rt; !expired(open_of(1, 100), &register, Moment(105)));
    let mut rec = share(alloc, &OPENS)?;
    let mut leases = Leases::new(alloc);
    leases.put(SEVEN, lease(alloc, 7, &OPENS)?)?;
    // The open of the ended session goes, then that of the dead worker. The connected one stays.
    for (now, gone, left) in [(64, 0, 3), (65, 1, 2), (66, 0, 2), (105, 1, 1)] {
        assert!(rt; swept(&mut rec, &mut leases, &register, Moment(now)) == Some(gone));
        assert_eq!(rt; rec.entries.len(), left);
        match leases.get(SEVEN) {
            Some(lease) => assert_eq!(rt; lease.refs.len(), left),
            None => assert!(rt; false),
        }
    }
    assert!(rt; held_at(&rec, 0) == Some((owner_of(1).pid, 1)));
    // An open that doesn't count stays, and isn't told of: its lease has no HANDLE.
    let mut rec = share(alloc, &[(3, 10)])?;
    let mut leases = Leases::new(alloc);
    leases.put(SEVEN, lease(alloc, 5, &[(3, 10)])?)?;
    assert!(rt; swept(&mut rec, &mut leases, &register, Moment(99)) == Some(0));
    assert_eq!(rt; rec.entries.len(), 1);
    Ok(())
}
