ghost use Rattle.std.specs.Prelude.{◌≡◌, ℕ, filter, not, if◌then◌else◌};
ghost use Rattle.std.specs.List.{list_any};
ghost use Rattle.std.specs.Ordering.{nat_cmp};
ghost use Rattle.std.specs.FinMap.{FinMap};
ghost use Rattle.sid_core.specs.declared.reply.Reply.TheVariants.{Done, ObjectNameNotFound};
ghost use Rattle.serial_table.specs.View.{View};
ghost use Rattle.serial_table.specs.declared.decision.Caller.{Caller};
ghost use Rattle.serial_table.specs.GlobalLock.{gunlock};
ghost use Rattle.record_codec.specs.declared.register_rec.RegisterRec.{RegisterRec};
ghost use Rattle.record_codec.specs.GLockRec.{IsGLockRec};
ghost use Rattle.g_lock.specs.Holds.{counted_holds, AsksBefore};
ghost use Rattle.g_lock.specs.Answer.{holds_after};
ghost use Rattle.g_lock.specs.Scans.{is_own};

use crate::locking::take;
use crate::scans::is_own;
use record_codec::{GLockRec, Hold};
use sid_core::{Items, Sid};

fn has_own(holds: &[Hold], sid: Sid) -> bool
    ensures { result ≡ list_any (is_own sid) holds.now }
{
    holds.iter().any(|hold| is_own(sid, hold))
}

fn keep_others(holds: &mut Vec<Hold>, sid: Sid)
    ensures { holds.new.items ≡ filter (λ hold. not (is_own sid hold)) holds.old.items }
{
    holds.retain(|hold| !is_own(sid, hold));
}

fn drop_own(holds: &mut Items<Hold>, sid: Sid)
    ensures { holds.new ≡ filter (λ hold. not (is_own sid hold)) holds.old }
{
    let mut list = take(holds);
    keep_others(&mut list, sid);
    *holds = Items::from_vec(list);
}

/// Gives the session's hold up. True where it had one. Takes no memory.
pub fn unlock(rec: &mut GLockRec, sid: Sid) -> bool
    ensures reply { (register : FinMap nat_cmp RegisterRec) (key : ℕ) (v : View) (caller : Caller) → AsksBefore register key rec.old.holds sid v caller → (if result then Done else ObjectNameNotFound) ≡ (gunlock v caller key).reply }
    ensures holds { (register : FinMap nat_cmp RegisterRec) (key : ℕ) (v : View) (caller : Caller) → AsksBefore register key rec.old.holds sid v caller → counted_holds register key rec.new.holds ≡ holds_after v key (gunlock v caller key) }
    ensures others { rec.new.holds ≡ filter (λ hold. not (is_own sid hold)) rec.old.holds }
    ensures watchers { rec.new.watchers ≡ rec.old.watchers }
    ensures sets { IsGLockRec rec.old → IsGLockRec rec.new }
{
    let held = has_own(rec.holds.as_slice(), sid);
    if held {
        drop_own(&mut rec.holds, sid);
    }
    held
}
