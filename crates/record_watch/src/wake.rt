ghost use Rattle.std.specs.Prelude.{◌≡◌, ◌&&◌, ◌==◌, ◌++◌, [], ◌∷◌, OnOk, filter, not};
ghost use Rattle.std.specs.Prelude.{map as map_list};
ghost use Rattle.std.specs.List.{list_any};
ghost use Rattle.sid_core.specs.Ids.{same_spot};
ghost use Rattle.serial_table.specs.Wake.{wake};
ghost use Rattle.record_codec.specs.Counts as counts;
ghost use Rattle.record_rows.specs.Rows.{watch_row};
ghost use Rattle.record_watch.specs.Watches.{mailed, counted_on, counted_behind};
ghost use Rattle.record_watch.specs.Mails.{without_waits, ChangesEach};

use crate::mails::{Mails, take};
use record_codec::{MailRec, RegisterRec, Token, WatchRec};
use sid_core::{Items, Letter, OutOfMemory, Post, Sid, Spot};

// ---- which watches count

fn is_call_at(spot: Spot, call: u32, token: &Token) -> bool
    ensures { result ≡ (same_spot token.now.spot spot && (token.now.call == call)) }
{
    token.spot == spot && token.call == call
}

fn has_call_at(tokens: &[Token], spot: Spot, call: u32) -> bool
    ensures { result ≡ list_any (λ token. same_spot token.spot spot && (token.call == call)) tokens.now }
{
    tokens.iter().any(|token| is_call_at(spot, call, token))
}

fn has_call(tokens: &[Token], call: u32) -> bool
    ensures { result ≡ list_any (λ token. token.call == call) tokens.now }
{
    tokens.iter().any(|token| token.call == call)
}

/// A watch of the spot counts: the mailbox of its session still waits there with its call.
pub fn counts_on(mails: &Mails, spot: Spot, watch: &WatchRec) -> bool
    ensures { result ≡ counts.watch_counts (mailed mails.now) spot watch.now }
{
    match mails.get(watch.sid.pid) {
        Some(mail) => mail.session == watch.sid.session
            && has_call_at(mail.tokens.as_slice(), spot, watch.call),
        None => false,
    }
}

fn counts_behind(mails: &Mails, watch: &WatchRec) -> bool
    ensures { result ≡ counts.register_watch_counts (mailed mails.now) watch.now }
{
    match mails.get(watch.sid.pid) {
        Some(mail) => mail.session == watch.sid.session
            && has_call(mail.tokens.as_slice(), watch.call),
        None => false,
    }
}

fn keep_counted_on(list: &mut Vec<WatchRec>, mails: &Mails, spot: Spot)
    ensures { list.new.items ≡ filter (counts.watch_counts (mailed mails.now) spot) list.old.items }
{
    list.retain(|watch| counts_on(mails, spot, watch));
}

fn keep_counted_behind(list: &mut Vec<WatchRec>, mails: &Mails)
    ensures { list.new.items ≡ filter (counts.register_watch_counts (mailed mails.now)) list.old.items }
{
    list.retain(|watch| counts_behind(mails, watch));
}

// ---- their calls wait no more

fn drop_calls(tokens: &mut Vec<Token>, call: u32)
    ensures { tokens.new.items ≡ filter (λ token. not (token.call == call)) tokens.old.items }
{
    tokens.retain(|token| token.call != call);
}

fn drop_wait(mail: &mut MailRec, watch: &WatchRec)
    ensures { mail.new ≡ without_waits (watch_row watch.now ∷ []) watch.now.sid.pid mail.old }
{
    if mail.session == watch.sid.session {
        let mut tokens = take(&mut mail.tokens);
        drop_calls(&mut tokens, watch.call);
        mail.tokens = Items::from_vec(tokens);
    }
}

fn end_wait(mails: &mut Mails, watch: &WatchRec)
    ensures { ChangesEach (without_waits (watch_row watch.now ∷ [])) mails.old mails.new }
{
    match mails.get_mut(watch.sid.pid) {
        Some(mail) => drop_wait(mail, watch),
        None => {}
    }
}

fn end_waits(mails: &mut Mails, watches: &[WatchRec])
    ensures { ChangesEach (without_waits (map_list watch_row watches.now)) mails.old mails.new }
{
    for watch in watches {
        end_wait(mails, watch);
    }
}

// ---- and they are told

fn wake(watch: &WatchRec) -> Post
    ensures { result ≡ wake (watch_row watch.now) }
{
    Post {
        to: watch.sid,
        letter: Letter::Wake { call: watch.call },
    }
}

fn push_wakes(posts: &mut Vec<Post>, watches: &[WatchRec]) -> Result<(), OutOfMemory>
    ensures { OnOk result (posts.new.items ≡ posts.old.items ++ map_list wake (map_list watch_row watches.now)) }
{
    for watch in watches {
        posts.push(wake(watch))?;
    }
    Ok(())
}

fn wake_counted(
    counted: &[WatchRec],
    mails: &mut Mails,
    posts: &mut Vec<Post>,
) -> Result<(), OutOfMemory>
    ensures posts { OnOk result (posts.new.items ≡ posts.old.items ++ map_list wake (map_list watch_row counted.now)) }
    ensures tokens { OnOk result (ChangesEach (without_waits (map_list watch_row counted.now)) mails.old mails.new) }
{
    push_wakes(posts, counted)?;
    end_waits(mails, counted);
    Ok(())
}

/// Each watch of the spot that counts is posted one wake, in order, and its call waits no more. The list is empty then.
pub fn wake_all(
    list: &mut Items<WatchRec>,
    spot: Spot,
    mails: &mut Mails,
    posts: &mut Vec<Post>,
) -> Result<(), OutOfMemory>
    ensures posts { OnOk result (posts.new.items ≡ posts.old.items ++ map_list wake (counted_on mails.old spot list.old)) }
    ensures tokens { OnOk result (ChangesEach (without_waits (counted_on mails.old spot list.old)) mails.old mails.new) }
    ensures emptied { list.new ≡ [] }
{
    let mut counted = take(list);
    keep_counted_on(&mut counted, mails, spot);
    wake_counted(counted.as_slice(), mails, posts)
}

/// Each watch behind the worker's session that counts, whatever its spot, is posted one wake, in order, and its call waits no more.
/// Nobody waits behind the session then.
pub fn wake_for_death(
    rec: &mut RegisterRec,
    mails: &mut Mails,
    posts: &mut Vec<Post>,
) -> Result<(), OutOfMemory>
    ensures posts { OnOk result (posts.new.items ≡ posts.old.items ++ map_list wake (counted_behind mails.old rec.old.watchers)) }
    ensures tokens { OnOk result (ChangesEach (without_waits (counted_behind mails.old rec.old.watchers)) mails.old mails.new) }
    ensures emptied { rec.new ≡ record rec.old { watchers = [] } }
{
    let mut counted = take(&mut rec.watchers);
    keep_counted_behind(&mut counted, mails);
    wake_counted(counted.as_slice(), mails, posts)
}
