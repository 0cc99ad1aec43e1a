ghost use Rattle.std.specs.Prelude.{◌≡◌, ◌<◌, ◌+◌, ◌^◌, ◌++◌, ◌∷◌, [], length, find, map, filter, true, Some, OnOk};
ghost use Rattle.sid_core.specs.declared.call.Mode.TheVariants.{Exclusive};
ghost use Rattle.serial_table.specs.View.{View};
ghost use Rattle.serial_table.specs.declared.decision.Caller.{Caller};
ghost use Rattle.serial_table.specs.GlobalLock.{glock};
ghost use Rattle.record_codec.specs.Counts.{hold_counts};
ghost use Rattle.record_codec.specs.Fields.{IsSid};
ghost use Rattle.record_codec.specs.GLockRec.{IsGLockRec};
ghost use Rattle.server_ids.specs.Sessions.{registered};
ghost use Rattle.g_lock.specs.Holds.{counted_holds, stale_holds, AsksAmong};
ghost use Rattle.g_lock.specs.Answer.{IfAnswered, without_changes, told, holds_after, who_keeps_out, who_upgrades, NamesHolder, NamesOther};
ghost use Rattle.g_lock.specs.Scans.{is_own, is_in_the_way, is_upgrade_beside, raised_behind, raised, changed, gained, answered, own_in, in_mode, held_in, becomes};
ghost use Rattle.serial_table.specs.Change.{same_mode};

use crate::answer::GAnswer;
use crate::scans::{first_in_the_way, first_upgrade_beside, is_own, own_hold};
use record_codec::{GLockRec, Hold, WatchRec};
use record_watch::Mails;
use server_ids::Register;
use sid_core::{Items, Mode, OutOfMemory, Sid};
use std::mem;

// ---- what is answered

/// The session that asks for the lock of this key, whether it waits, and the sessions and mailboxes by which others count.
#[derive(Clone, Copy)]
struct Asking<'a> {
    key: u64,
    sid: Sid,
    wait: bool,
    register: &'a Register,
    mails: &'a Mails,
}

fn raise_behind(asking: Asking<'_>, watchers: &[WatchRec], holder: Sid) -> GAnswer
    ensures { result ≡ raised_behind asking.entry.wait holder (find (is_upgrade_beside asking.entry.mails.now asking.entry.key asking.entry.sid) watchers.now) }
{
    if !asking.wait {
        return GAnswer::NotGranted { holder };
    }
    match first_upgrade_beside(watchers, asking.mails, asking.key, asking.sid) {
        Some(watch) => GAnswer::PossibleDeadlock { other: watch.sid },
        None => GAnswer::Pending {
            blocker: holder,
            upgrade: true,
        },
    }
}

fn raise(asking: Asking<'_>, rec: &GLockRec) -> GAnswer
    ensures { result ≡ raised asking.entry.wait (find (is_in_the_way asking.entry.register.now asking.entry.sid Exclusive) rec.now.holds) (find (is_upgrade_beside asking.entry.mails.now asking.entry.key asking.entry.sid) rec.now.watchers) }
{
    match first_in_the_way(
        rec.holds.as_slice(),
        asking.register,
        asking.sid,
        Mode::Exclusive,
    ) {
        Some(first) => raise_behind(asking, rec.watchers.as_slice(), first.sid),
        None => GAnswer::Granted,
    }
}

fn change(asking: Asking<'_>, rec: &GLockRec, held: Mode, asked: Mode) -> GAnswer
    ensures { result ≡ changed asking.entry.wait held asked (find (is_in_the_way asking.entry.register.now asking.entry.sid asked) rec.now.holds) (find (is_upgrade_beside asking.entry.mails.now asking.entry.key asking.entry.sid) rec.now.watchers) }
{
    match (held, asked) {
        (Mode::Shared, Mode::Shared) => GAnswer::Granted,
        (Mode::Exclusive, Mode::Exclusive) => GAnswer::Granted,
        (Mode::Exclusive, Mode::Shared) => GAnswer::Lowered,
        (Mode::Shared, Mode::Exclusive) => raise(asking, rec),
    }
}

fn gain(asking: Asking<'_>, holds: &[Hold], mode: Mode) -> GAnswer
    ensures { result ≡ gained asking.entry.wait (find (is_in_the_way asking.entry.register.now asking.entry.sid mode) holds.now) }
{
    match first_in_the_way(holds, asking.register, asking.sid, mode) {
        None => GAnswer::Granted,
        Some(first) => {
            if asking.wait {
                GAnswer::Pending {
                    blocker: first.sid,
                    upgrade: false,
                }
            } else {
                GAnswer::NotGranted { holder: first.sid }
            }
        }
    }
}

fn answer(asking: Asking<'_>, rec: &GLockRec, mode: Mode, own: Option<Hold>) -> GAnswer
    ensures { result ≡ answered asking.entry.wait mode own (find (is_in_the_way asking.entry.register.now asking.entry.sid mode) rec.now.holds) (find (is_upgrade_beside asking.entry.mails.now asking.entry.key asking.entry.sid) rec.now.watchers) }
{
    match own {
        Some(hold) => change(asking, rec, hold.mode, mode),
        None => gain(asking, rec.holds.as_slice(), mode),
    }
}

// ---- what becomes of the holds

fn in_mode(sid: Sid, mode: Mode, hold: Hold) -> Hold
    ensures { result ≡ in_mode sid mode hold }
{
    if is_own(sid, &hold) {
        Hold { mode, ..hold }
    } else {
        hold
    }
}

fn set_modes(holds: &mut Vec<Hold>, sid: Sid, mode: Mode)
    ensures { holds.new.items ≡ map (in_mode sid mode) holds.old.items }
{
    for hold in holds.iter_mut() {
        *hold = in_mode(sid, mode, *hold);
    }
}

pub(crate) fn take(holds: &mut Items<Hold>) -> Vec<Hold>
    ensures taken { result.items ≡ holds.old }
    ensures emptied { holds.new ≡ [] }
{
    let alloc = holds.allocator();
    mem::replace(holds, Items::new(alloc)).into_vec()
}

fn set_own(holds: &mut Items<Hold>, sid: Sid, mode: Mode)
    ensures { holds.new ≡ map (in_mode sid mode) holds.old }
{
    let mut list = take(holds);
    set_modes(&mut list, sid, mode);
    *holds = Items::from_vec(list);
}

fn is_same_mode(a: Mode, b: Mode) -> bool
    ensures { result ≡ same_mode a b }
{
    match (a, b) {
        (Mode::Shared, Mode::Shared) | (Mode::Exclusive, Mode::Exclusive) => true,
        _ => false,
    }
}

fn change_own(holds: &mut Items<Hold>, sid: Sid, mode: Mode, own: Hold)
    ensures { holds.new ≡ held_in sid mode (Some own) holds.old }
{
    if !is_same_mode(own.mode, mode) {
        set_own(holds, sid, mode);
    }
}

/// The session has the lock in the mode.
fn hold_in(
    holds: &mut Items<Hold>,
    sid: Sid,
    mode: Mode,
    own: Option<Hold>,
) -> Result<(), OutOfMemory>
    ensures { OnOk result (holds.new ≡ held_in sid mode own holds.old) }
{
    match own {
        Some(hold) => {
            change_own(holds, sid, mode, hold);
            Ok(())
        }
        None => holds.push(Hold { sid, mode }),
    }
}

fn carry_out(
    holds: &mut Items<Hold>,
    sid: Sid,
    mode: Mode,
    own: Option<Hold>,
    answer: GAnswer,
) -> GAnswer
    ensures answer { IfAnswered result (result ≡ answer) }
    ensures holds { IfAnswered result (holds.new ≡ becomes answer sid mode own holds.old) }
{
    match answer {
        GAnswer::Granted | GAnswer::Lowered => match hold_in(holds, sid, mode, own) {
            Ok(()) => answer,
            Err(OutOfMemory) => GAnswer::OutOfMemory,
        },
        _ => answer,
    }
}

/// Asks for the lock in the mode. What is answered and what becomes of the holds is what the open table decides of the holds and the
/// watches that count (after Samba's g_lock.c). A `Pending` isn't entered here: that is [`record_watch::watch`]'s. The caller's own
/// earlier wait is over first: that is [`record_watch::cancel`]'s, and makes no difference here. After `OutOfMemory` the record is given
/// up. Only a hold that is added takes memory.
pub fn lock(
    rec: &mut GLockRec,
    key: u64,
    register: &Register,
    mails: &Mails,
    sid: Sid,
    mode: Mode,
    wait: bool,
) -> GAnswer
    ensures decision { IfAnswered result ((v : View) (caller : Caller) → AsksAmong register.now mails.now key rec.old sid v caller → told caller key result ≡ without_changes (glock v caller key mode wait)) }
    ensures holder { (v : View) (caller : Caller) → AsksAmong register.now mails.now key rec.old sid v caller → NamesHolder result (who_keeps_out v caller key mode) }
    ensures other { (v : View) (caller : Caller) → AsksAmong register.now mails.now key rec.old sid v caller → NamesOther result (who_upgrades v caller key) }
    ensures holds { IfAnswered result ((v : View) (caller : Caller) → AsksAmong register.now mails.now key rec.old sid v caller → counted_holds register.now key rec.new.holds ≡ holds_after v key (glock v caller key mode wait)) }
    ensures stale { IfAnswered result (hold_counts (registered register.now) (own_in sid mode) ≡ true → stale_holds register.now rec.new.holds ≡ stale_holds register.now rec.old.holds) }
    ensures watchers { rec.new.watchers ≡ rec.old.watchers }
    ensures sets { IfAnswered result (IsGLockRec rec.old → IsSid sid → length rec.old.holds + 1 < 2 ^ 32 → IsGLockRec rec.new) }
{
    let own = own_hold(rec.holds.as_slice(), sid);
    let asking = Asking {
        key,
        sid,
        wait,
        register,
        mails,
    };
    let answer = answer(asking, rec, mode, own);
    carry_out(&mut rec.holds, sid, mode, own, answer)
}
