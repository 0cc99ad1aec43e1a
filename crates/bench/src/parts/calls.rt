use super::hand::{Hand, SHARED, SPOT, entry_of, id_of, name_of, owner_of, pid_of};
use brlock::RAnswer;
use durable_open::{reconnect, scavenge};
use g_lock::GAnswer;
use lease_breaks::{acknowledge, break_lease};
use leases_db::{drop_ref, elsewhere, expire, grant, settle};
use record_watch::{cancel, next_message, wake_all, wake_for_death, watch};
use server_ids::{dead_since, living};
use share_modes::{Asked, Violates, add, remove, valid_entries, violates};
use sid_core::{Access, LeaseState, Mode, Moment, Share, Span, Spot};
use smbstatus_text::{FilesPage, RangesPage};
use std::alloc::Global;

/// Does one call, and answers a number that depends on what it gave: none where no call has this name. The call has the last entry in mind,
/// so that one that walks along entries meets all of them.
pub fn call(alloc: Global, word: &str, hand: &mut Hand) -> Option<u64> {
    match word {
        "living" | "dead_since" => sessions(word, hand),
        "watch" | "cancel" | "next_message" | "wake_all" | "wake_for_death" => {
            waits(alloc, word, hand)
        }
        "glock" | "gunlock" => locks(word, hand),
        "settle" | "expire" | "grant" | "drop_ref" | "elsewhere" => leases(alloc, word, hand),
        "break_lease" | "acknowledge" => breaks(word, hand),
        "valid_entries" | "violates" | "add_entry" | "remove_entry" => shares(alloc, word, hand),
        "lock" | "unlock" | "check_io" => ranges(word, hand),
        "reconnect" | "scavenge" => durable(word, hand),
        "shares" | "files_page" | "ranges_page" => tables(alloc, word, hand),
        _ => None,
    }
}

fn sessions(word: &str, hand: &mut Hand) -> Option<u64> {
    let last = owner_of(hand.last);
    match word {
        "living" => Some(u64::from(living(&hand.register, last))),
        _ => dead_since(&hand.later, last).map(|moment| moment.0),
    }
}

fn waits(alloc: Global, word: &str, hand: &mut Hand) -> Option<u64> {
    let mut posts = Vec::new(alloc);
    match word {
        "watch" => {
            let list = &mut hand.lock.watchers;
            let caller = owner_of(0);
            watch(list, None, &mut hand.mail, caller, SPOT, 1, false).ok()?;
        }
        "cancel" => {
            let _found = cancel(&mut hand.mail, Spot::LockOf(hand.last as u64));
        }
        "next_message" => {
            let _letter = next_message(&mut hand.mail);
        }
        "wake_all" => {
            wake_all(&mut hand.lock.watchers, SPOT, &mut hand.mails, &mut posts).ok()?;
        }
        _ => wake_for_death(&mut hand.session, &mut hand.mails, &mut posts).ok()?,
    }
    Some(posts.len() as u64)
}

fn locks(word: &str, hand: &mut Hand) -> Option<u64> {
    match word {
        "glock" => {
            let answer = g_lock::lock(
                &mut hand.lock,
                1,
                &hand.register,
                &hand.mails,
                owner_of(0),
                Mode::Shared,
                false,
            );
            Some(u64::from(matches!(answer, GAnswer::Granted)))
        }
        _ => {
            let held = g_lock::unlock(&mut hand.lock, owner_of(hand.last));
            Some(u64::from(held))
        }
    }
}

fn leases(alloc: Global, word: &str, hand: &mut Hand) -> Option<u64> {
    match word {
        "settle" => settle(&mut hand.lease, &hand.register),
        "expire" => {
            let _over = expire(&mut hand.lease, Moment(1));
        }
        "grant" => {
            let rec = hand.granted.take();
            let caller = owner_of(0);
            let asked = LeaseState(7);
            grant(alloc, rec, 1, asked, false, id_of(0), caller, 60).ok()?;
        }
        "drop_ref" => {
            let _found = drop_ref(&mut hand.lease, id_of(hand.last));
        }
        _ => return elsewhere(Some(&hand.lease), 2).map(u64::from),
    }
    Some(hand.lease.refs.len() as u64)
}

fn breaks(word: &str, hand: &mut Hand) -> Option<u64> {
    let lease = &mut hand.lease;
    match word {
        "break_lease" => {
            let broken = break_lease(SHARED, lease, &hand.later, LeaseState(4), Moment(1));
            Some(u64::from(broken.post.is_some()))
        }
        _ => {
            let _acked = acknowledge(SHARED, lease, &hand.later, LeaseState(3), Moment(1));
            Some(lease.refs.len() as u64)
        }
    }
}

fn shares(alloc: Global, word: &str, hand: &mut Hand) -> Option<u64> {
    match word {
        "valid_entries" => {
            let valid = valid_entries(alloc, &hand.share, &hand.leases, &hand.later).ok()?;
            Some(valid.len() as u64)
        }
        "violates" => {
            let asked = Asked {
                access: Access(1),
                share: Share(0),
                lease: None,
            };
            let valid = hand.entries.as_slice();
            let met = violates(alloc, asked, valid, &hand.leases, &hand.register);
            Some(u64::from(matches!(met, Violates::Nothing)))
        }
        "add_entry" => {
            add(&mut hand.share, entry_of(0)).ok()?;
            Some(hand.share.entries.len() as u64)
        }
        _ => {
            let _found = remove(&mut hand.share, id_of(hand.last));
            Some(hand.share.entries.len() as u64)
        }
    }
}

fn ranges(word: &str, hand: &mut Hand) -> Option<u64> {
    let valid = hand.valid.as_slice();
    let last = id_of(hand.last);
    let span = Span {
        start: (hand.last as u64) * 10,
        length: 5,
    };
    match word {
        "lock" => {
            let answer = brlock::lock(&mut hand.ranges, valid, id_of(0), span, Mode::Shared);
            Some(u64::from(matches!(answer, RAnswer::Granted)))
        }
        "unlock" => Some(u64::from(brlock::unlock(&mut hand.ranges, last, span))),
        _ => {
            let first = brlock::check_io(&hand.ranges, valid, id_of(0), span, true)?;
            Some(first.call as u64)
        }
    }
}

fn durable(word: &str, hand: &mut Hand) -> Option<u64> {
    match word {
        "reconnect" => {
            let name = name_of(hand.last);
            let lease = hand.leases.get_mut(name)?;
            let caller = owner_of(0);
            let share = &mut hand.share;
            let id = id_of(hand.last);
            let taken = reconnect(share, lease, &hand.later, id, name, caller, 1, Moment(1));
            Some(u64::from(taken))
        }
        _ => {
            if hand.share.entries.len() >= 1000 {
                return None;
            }
            let gone = scavenge(&mut hand.share, &mut hand.leases, &hand.later, Moment(100));
            Some(gone as u64)
        }
    }
}

fn tables(alloc: Global, word: &str, hand: &mut Hand) -> Option<u64> {
    let setup = &hand.setup;
    let register = &hand.register;
    let leases = &hand.leases;
    let text = match word {
        "shares" => smbstatus_text::shares(alloc, setup, register),
        "files_page" => {
            let mut page = FilesPage::start(alloc);
            page.add(setup, &hand.share, leases, register).ok()?;
            page.finish()
        }
        _ => {
            if hand.share.file != hand.ranges.file {
                return None;
            }
            let mut page = RangesPage::start(alloc);
            page.add(setup, &hand.ranges, &hand.share, leases, register)
                .ok()?;
            page.finish()
        }
    };
    Some(text.ok()?.len() as u64)
}
