ghost use Rattle.std.specs.Prelude.{◌≡◌, ◌<◌, ◌-◌, ◌^◌, ◌++◌, ◌∷◌, [], ℕ, true, IsTrue, OnOk, OnErr, find, ◌&&◌, ◌==◌};
ghost use Rattle.std.specs.Option.{option_map};
ghost use Rattle.std.specs.FinMap as map;
ghost use Rattle.sid_core.specs.Ids.{same_sid};
ghost use Rattle.sid_core.specs.Values.{IsMoment};
ghost use Rattle.serial_table.specs.ByNumber.{declared_at};
ghost use Rattle.serial_table.specs.View as table;
ghost use Rattle.serial_table.specs.View.{View};
ghost use Rattle.serial_table.specs.Change.{end_at};
ghost use Rattle.record_codec.specs.Counts.{lives};
ghost use Rattle.record_codec.specs.RegisterRec.{IsRegisterRec};
ghost use Rattle.server_ids.specs.Sessions.{registered, worker_row, session_of, ended_from, ended_rows, ended_of, once_ended};

use crate::by_pid::ByPid;
use record_codec::RegisterRec;
use sid_core::{Moment, OutOfMemory, Sid};

/// The register records, by pid.
pub type Register = ByPid<RegisterRec>;

fn is_current(rec: &RegisterRec, session: u32) -> bool
    ensures { (pid : ℕ) → result ≡ (worker_row pid rec.now).alive && ((worker_row pid rec.now).session == session) }
{
    rec.alive && rec.session == session
}

/// The session is the current one of a living worker. That of a pid without a record isn't.
pub fn living(register: &Register, sid: Sid) -> bool
    ensures counts { result ≡ lives (registered register.now) sid }
    ensures table { (v : View) → v.worker_of sid.pid ≡ option_map (worker_row sid.pid) (map.get register.now sid.pid) → result ≡ table.lives v sid }
{
    match register.get(sid.pid) {
        Some(record) => is_current(record, sid.session),
        None => false,
    }
}

fn end_of(ended: &[u64], session: u32) -> Option<u64>
    ensures { result ≡ declared_at ended.now session }
{
    let place = session.checked_sub(1)?;
    ended.get(place as usize).copied()
}

fn moment_of(ended: &[u64], sid: Sid) -> Option<Moment>
    ensures { result ≡ option_map (λ row. row.moment) (find (λ row. same_sid row.sid sid) (ended_from sid.pid 1 ended.now)) }
{
    match end_of(ended, sid.session) {
        Some(moment) => Some(Moment(moment)),
        None => None,
    }
}

/// The moment at which the session ended, where it has ended.
pub fn dead_since(register: &Register, sid: Sid) -> Option<Moment>
    ensures { result ≡ option_map (λ row. row.moment) (find (λ row. same_sid row.sid sid) (ended_of register.now sid.pid)) }
{
    let record = register.get(sid.pid)?;
    moment_of(record.ended.as_slice(), sid)
}

/// Ends the worker's session. With `next` the following one begins at the same moment, and without the worker is dead.
pub fn end_session(rec: &mut RegisterRec, now: Moment, next: bool) -> Result<(), OutOfMemory>
    requires sets { IsRegisterRec rec.old }
    requires moment { IsMoment now.0 }
    requires alive { rec.old.alive ≡ true }
    requires below { next ≡ true → rec.old.session < 2 ^ 32 - 1 }
    ensures worker { OnOk result ((pid : ℕ) → worker_row pid rec.new ≡ once_ended next (session_of pid rec.old.session) now (worker_row pid rec.old)) }
    ensures ends { OnOk result ((pid : ℕ) → ended_rows pid rec.new ≡ ended_rows pid rec.old ++ end_at (session_of pid rec.old.session) now ∷ []) }
    ensures watchers { rec.new.watchers ≡ rec.old.watchers }
    ensures sets { OnOk result (IsRegisterRec rec.new) }
    ensures err { OnErr result (rec.new ≡ rec.old) }
{
    rec.ended.push(now.0)?;
    rec.alive = next;
    if next {
        rec.session += 1;
        rec.connected = now.0;
    }
    Ok(())
}
