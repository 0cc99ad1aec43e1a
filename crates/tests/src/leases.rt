//! Tests of leases_db: what an open is granted of a lease, and how its record settles, expires and loses references.
use leases_db::{drop_ref, elsewhere, expire, grant, settle};
use record_codec::{LeaseRec, LeaseRef, RegisterRec};
use server_ids::Register;
use sid_core::{Items, LeaseState, Moment, OpenId, OutOfMemory, Sid};
use std::alloc::Global;
use std::test::Fail;

fn first_open(pid: u32) -> OpenId {
    OpenId { pid, call: 1 }
}

fn session_of(pid: u32) -> Sid {
    Sid { pid, session: 1 }
}

// Of file 1, breaking from `held` to `needed` where these differ, with these opens.
fn lease(
    alloc: Global,
    held: u8,
    needed: u8,
    opens: &[(u32, u32)],
) -> Result<LeaseRec, OutOfMemory> {
    let mut refs = Items::new(alloc);
    for (pid, durable) in opens {
        refs.push(LeaseRef {
            id: first_open(*pid),
            owner: session_of(*pid),
            durable: *durable,
        })?;
    }
    let breaking = held != needed;
    let lower = if breaking { needed } else { 0 };
    Ok(LeaseRec {
        file: 1,
        held: LeaseState(held),
        breaking,
        asked: LeaseState(lower),
        needed: LeaseState(lower),
        until: if breaking { 135 } else { 0 },
        refs,
    })
}

// Pid 101 lives.
fn one_worker(alloc: Global) -> Result<Register, OutOfMemory> {
    let mut register = Register::new(alloc);
    register.put(
        101,
        RegisterRec {
            worker: 1,
            alive: true,
            session: 1,
            connected: 0,
            ended: Items::new(alloc),
            watchers: Items::new(alloc),
        },
    )?;
    Ok(register)
}

// What pid 103 comes to that asks for this: the state that the lease holds then, its opens, and whether the new one is durable.
fn granted(
    alloc: Global,
    rec: Option<LeaseRec>,
    asked: u8,
    alone: bool,
    durable: u32,
) -> Result<(u8, usize, bool), OutOfMemory> {
    let (rec, is_durable) = grant(
        alloc,
        rec,
        1,
        LeaseState(asked),
        alone,
        first_open(103),
        session_of(103),
        durable,
    )?;
    Ok((rec.held.0, rec.refs.len(), is_durable))
}

#[test]
fn opens_are_granted_leases(rt: HostRuntime) -> Result<(), Fail> {
    let alloc = rt.alloc();
    assert!(rt; granted(alloc, None, 7, true, 60)? == (7, 1, true));
    assert!(rt; granted(alloc, None, 7, false, 60)? == (3, 1, true));
    assert!(rt; granted(alloc, None, 5, true, 60)? == (5, 1, false));
    assert!(rt; granted(alloc, None, 7, true, 0)? == (7, 1, false));
    // A record without references is no lease: what it held is forgotten.
    let left = lease(alloc, 7, 7, &[])?;
    assert!(rt; granted(alloc, Some(left), 1, true, 0)? == (1, 1, false));
    let read = lease(alloc, 1, 1, &[(101, 0)])?;
    assert!(rt; granted(alloc, Some(read), 3, false, 60)? == (3, 2, true));
    // It holds more than is asked, and keeps that.
    let all = lease(alloc, 7, 7, &[(101, 0)])?;
    assert!(rt; granted(alloc, Some(all), 1, true, 0)? == (7, 2, false));
    // While it is breaking it doesn't grow, and nothing is durable.
    let breaking = lease(alloc, 3, 1, &[(101, 0)])?;
    assert!(rt; granted(alloc, Some(breaking), 7, true, 60)? == (3, 2, false));
    Ok(())
}

#[test]
fn leases_lose_what_is_over(rt: HostRuntime) -> Result<(), Fail> {
    let alloc = rt.alloc();
    let register = one_worker(alloc)?;
    // Pid 102 isn't there: its durable open stays while the lease has HANDLE, and its plain one doesn't.
    let mut rec = lease(alloc, 7, 7, &[(102, 60), (101, 0), (102, 0)])?;
    settle(&mut rec, &register);
    assert!(rt; rec.held.0 == 7 && rec.refs.len() == 2);
    // Of two opens nobody is connected who could acknowledge the break.
    let mut rec = lease(alloc, 7, 5, &[(102, 60), (102, 0)])?;
    settle(&mut rec, &register);
    assert!(rt; rec.held.0 == 5 && !rec.breaking && rec.refs.len() == 0);
    let mut rec = lease(alloc, 7, 5, &[(101, 0)])?;
    settle(&mut rec, &register);
    assert!(rt; rec.held.0 == 7 && rec.breaking);
    assert!(rt; !expire(&mut rec, Moment(134)));
    assert!(rt; expire(&mut rec, Moment(135)));
    assert!(rt; rec.held.0 == 5 && !rec.breaking);
    assert!(rt; !expire(&mut rec, Moment(9_999_999_999)));
    assert!(rt; elsewhere(Some(&rec), 2) == Some(1));
    assert!(rt; elsewhere(Some(&rec), 1).is_none() && elsewhere(None, 2).is_none());
    assert!(rt; drop_ref(&mut rec, first_open(101)) && !drop_ref(&mut rec, first_open(101)));
    assert!(rt; rec.refs.len() == 0 && elsewhere(Some(&rec), 2).is_none());
    Ok(())
}
