ghost use Rattle.std.specs.Prelude.{◌≡◌, ◌++◌, ◌∷◌, [], OnOk};
ghost use Rattle.std.specs.Option.{option_map, option_copied_mut};
ghost use Rattle.std.specs.List.{list_any};
ghost use Rattle.serial_table.specs.View.{is_lock, watch_on};
ghost use Rattle.record_watch.specs.Left.{left};
ghost use Rattle.record_rows.specs.Rows.{watch_of};
ghost use Rattle.record_watch.specs.Watches.{waiter, with_watch, with_watch_behind, with_one_watch, with_token};

use record_codec::{MailRec, RegisterRec, Token, WatchRec};
use sid_core::{Items, OutOfMemory, Sid, Spot};

fn is_lock(spot: Spot) -> bool
    ensures { result ≡ is_lock spot }
{
    matches!(spot, Spot::LockOf(_))
}

fn watch_on(sid: Sid, spot: Spot, call: u32, upgrade: bool) -> WatchRec
    ensures { result ≡ watch_of (watch_on spot (waiter sid spot call upgrade)) }
{
    WatchRec {
        sid,
        call,
        upgrade: is_lock(spot) && upgrade,
    }
}

fn add_behind(rec: &mut RegisterRec, watch: WatchRec) -> Result<(), OutOfMemory>
    ensures { OnOk result (rec.new ≡ with_one_watch watch rec.old) }
{
    rec.watchers.push(watch)
}

/// The call of the session waits at the spot, behind the blocker where one is given: its watches and its token are entered. `upgrade`
/// says of a global lock that the session holds it already.
pub fn watch(
    list: &mut Items<WatchRec>,
    blocker: Option<&mut RegisterRec>,
    mail: &mut MailRec,
    sid: Sid,
    spot: Spot,
    call: u32,
    upgrade: bool,
) -> Result<(), OutOfMemory>
    ensures list { OnOk result (list.new ≡ with_watch (waiter sid spot call upgrade) list.old) }
    ensures blocker { OnOk result (left blocker.exit ≡ option_map (with_watch_behind (waiter sid spot call upgrade)) (option_copied_mut blocker.entry)) }
    ensures mail { OnOk result (mail.new ≡ with_token (waiter sid spot call upgrade) mail.old) }
{
    list.push(watch_on(sid, spot, call, upgrade))?;
    mail.tokens.push(Token { spot, call })?;
    let behind = WatchRec {
        sid,
        call,
        upgrade: false,
    };
    match blocker {
        Some(rec) => add_behind(rec, behind),
        None => Ok(()),
    }
}
