//! Tests of g_lock, and of the registers, mailboxes and watches that it stands on: two workers that both want to hold a lock alone that
//! they share, among stale holds, and sessions that end.
ghost use Rattle.std.specs.Prelude.{◌≡◌, ◌≤◌, true};
ghost use Rattle.record_codec.specs.RegisterRec.{IsRegisterRec};

use g_lock::{GAnswer, lock, unlock};
use record_codec::{GLockRec, Hold, MailRec, RegisterRec, Token};
use record_watch::{Mails, cancel, next_message, wake_all, wake_for_death, watch};
use server_ids::{ByPid, Register, dead_since, end_session, living};
use sid_core::{Items, Letter, Mode, Moment, Post, Sid, Spot};
use std::alloc::Global;
use std::process::Abort;
use std::test::Fail;

const KEY: u64 = 9;

fn sid(pid: u32, session: u32) -> Sid {
    Sid { pid, session }
}

fn worker(alloc: Global, worker: u32) -> RegisterRec
    requires above { 1 ≤ worker }
    requires below { worker ≤ 64 }
    ensures sets { IsRegisterRec result }
    ensures alive { result.alive ≡ true }
    ensures session { result.session ≡ 1 }
{
    RegisterRec {
        worker,
        alive: true,
        session: 1,
        connected: 0,
        ended: Items::new(alloc),
        watchers: Items::new(alloc),
    }
}

fn mailbox(alloc: Global) -> MailRec {
    MailRec {
        session: 1,
        tokens: Items::new(alloc),
        letters: Items::new(alloc),
    }
}

fn two_workers(alloc: Global) -> Result<Register, Fail> {
    let mut register: Register = ByPid::new(alloc);
    register.put(101, worker(alloc, 1))?;
    register.put(102, worker(alloc, 2))?;
    Ok(register)
}

fn two_mailboxes(alloc: Global) -> Result<Mails, Fail> {
    let mut mails: Mails = ByPid::new(alloc);
    mails.put(101, mailbox(alloc))?;
    mails.put(102, mailbox(alloc))?;
    Ok(mails)
}

// Nobody but worker 109, of whom there is no record, and an earlier session.
fn stale_lock(alloc: Global) -> Result<GLockRec, Fail> {
    let stale = vec![in alloc;
        Hold {
            sid: sid(109, 1),
            mode: Mode::Exclusive
        },
        Hold {
            sid: sid(102, 7),
            mode: Mode::Exclusive
        },
    ]?;
    Ok(GLockRec {
        holds: Items::from_vec(stale),
        watchers: Items::new(alloc),
    })
}

// The call waits for the lock, behind the blocker.
fn wait_for<R: Abort>(
    rt: &R,
    rec: &mut GLockRec,
    register: &mut Register,
    mails: &mut Mails,
    blocker: Sid,
    waiting: Sid,
    call: u32,
) -> Result<(), Fail> {
    let spot = Spot::LockOf(KEY);
    let behind = register.get_mut(blocker.pid);
    match mails.get_mut(waiting.pid) {
        Some(mail) => watch(&mut rec.watchers, behind, mail, waiting, spot, call, true)?,
        None => assert!(rt; false, "no mailbox"),
    }
    Ok(())
}

fn take(
    rec: &mut GLockRec,
    register: &Register,
    mails: &Mails,
    pid: u32,
    mode: Mode,
    wait: bool,
) -> GAnswer {
    lock(rec, KEY, register, mails, sid(pid, 1), mode, wait)
}

#[test]
fn two_want_to_hold_alone_what_they_share(rt: HostRuntime) -> Result<(), Fail> {
    let alloc = rt.alloc();
    let mut register = two_workers(alloc)?;
    let mut mails = two_mailboxes(alloc)?;
    let mut rec = stale_lock(alloc)?;
    let first = sid(101, 1);
    let second = sid(102, 1);
    // Neither the dead nor an earlier session keeps anybody out.
    assert!(rt; take(&mut rec, &register, &mails, 101, Mode::Shared, false) == GAnswer::Granted);
    assert!(rt; take(&mut rec, &register, &mails, 102, Mode::Shared, false) == GAnswer::Granted);
    assert!(rt; rec.holds.len() == 4);
    let refused = take(&mut rec, &register, &mails, 101, Mode::Exclusive, false);
    assert!(rt; refused == GAnswer::NotGranted { holder: second });
    let waits = take(&mut rec, &register, &mails, 101, Mode::Exclusive, true);
    assert!(rt;
        waits
            == GAnswer::Pending {
                blocker: second,
                upgrade: true
            }
    );
    wait_for(&rt, &mut rec, &mut register, &mut mails, second, first, 2)?;
    let deadlock = take(&mut rec, &register, &mails, 102, Mode::Exclusive, true);
    assert!(rt; deadlock == GAnswer::PossibleDeadlock { other: first });
    // The second gives up, and the first is woken and comes in alone.
    assert!(rt; unlock(&mut rec, second));
    assert!(rt; !unlock(&mut rec, second));
    let mut posts: Vec<Post> = Vec::new(alloc);
    wake_all(&mut rec.watchers, Spot::LockOf(KEY), &mut mails, &mut posts)?;
    assert!(rt; posts.len() == 1 && posts[0].to == first);
    assert!(rt; posts[0].letter == Letter::Wake { call: 2 });
    assert!(rt; take(&mut rec, &register, &mails, 101, Mode::Exclusive, true) == GAnswer::Granted);
    let behind = take(&mut rec, &register, &mails, 102, Mode::Shared, true);
    assert!(rt;
        behind
            == GAnswer::Pending {
                blocker: first,
                upgrade: false
            }
    );
    assert!(rt; take(&mut rec, &register, &mails, 101, Mode::Shared, false) == GAnswer::Lowered);
    assert!(rt; take(&mut rec, &register, &mails, 102, Mode::Shared, true) == GAnswer::Granted);
    Ok(())
}

#[test]
fn sessions_end(rt: HostRuntime) -> Result<(), Fail> {
    let alloc = rt.alloc();
    let mut rec = worker(alloc, 2);
    end_session(&mut rec, Moment(40), true)?;
    let mut register = two_workers(alloc)?;
    register.put(102, rec)?;
    // The next session begins at the moment at which the first one ends.
    assert!(rt; living(&register, sid(102, 2)));
    assert!(rt; !living(&register, sid(102, 1)));
    assert!(rt; dead_since(&register, sid(102, 1)) == Some(Moment(40)));
    assert!(rt; dead_since(&register, sid(102, 2)).is_none());
    let mut other = worker(alloc, 1);
    end_session(&mut other, Moment(50), false)?;
    register.put(101, other)?;
    // No session follows a death.
    assert!(rt; !living(&register, sid(101, 1)));
    assert!(rt; !living(&register, sid(101, 2)));
    assert!(rt; dead_since(&register, sid(101, 1)) == Some(Moment(50)));
    // Nor does a pid without a record live.
    assert!(rt; !living(&register, sid(103, 1)));
    assert!(rt; dead_since(&register, sid(103, 1)).is_none());
    Ok(())
}

#[test]
fn those_behind_a_session_are_woken(rt: HostRuntime) -> Result<(), Fail> {
    let alloc = rt.alloc();
    let mut register = two_workers(alloc)?;
    let mut mails = two_mailboxes(alloc)?;
    let mut rec = stale_lock(alloc)?;
    let first = sid(101, 1);
    wait_for(
        &rt,
        &mut rec,
        &mut register,
        &mut mails,
        sid(102, 1),
        first,
        2,
    )?;
    let mut posts: Vec<Post> = Vec::new(alloc);
    match register.get_mut(102) {
        Some(ended) => wake_for_death(ended, &mut mails, &mut posts)?,
        None => assert!(rt; false, "no record"),
    }
    assert!(rt; posts.len() == 1 && posts[0].to == first);
    assert!(rt; posts[0].letter == Letter::Wake { call: 2 });
    // Its token has gone, and nobody is woken twice.
    wake_all(&mut rec.watchers, Spot::LockOf(KEY), &mut mails, &mut posts)?;
    assert!(rt; posts.len() == 1);
    Ok(())
}

#[test]
fn letters_are_read_in_turn(rt: HostRuntime) -> Result<(), Fail> {
    let mut mail = mailbox(rt.alloc());
    mail.letters.push(Letter::Wake { call: 2 })?;
    mail.letters.push(Letter::Wake { call: 5 })?;
    mail.tokens.push(Token {
        spot: Spot::LockOf(KEY),
        call: 7,
    })?;
    assert!(rt; next_message(&mut mail) == Some(Letter::Wake { call: 2 }));
    assert!(rt; next_message(&mut mail) == Some(Letter::Wake { call: 5 }));
    assert!(rt; next_message(&mut mail).is_none());
    assert!(rt; !cancel(&mut mail, Spot::LockOf(KEY + 1)));
    assert!(rt; cancel(&mut mail, Spot::LockOf(KEY)));
    assert!(rt; !cancel(&mut mail, Spot::LockOf(KEY)));
    Ok(())
}
