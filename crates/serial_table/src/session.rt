ghost use Rattle.std.specs.Prelude.{◌≡◌, not, filter, map, IfOk};
ghost use Rattle.sid_core.specs.Ids.{same_sid};
ghost use Rattle.serial_table.specs.View.{view};
ghost use Rattle.serial_table.specs.Session.{wakes_behind, end_of_session};
ghost use Rattle.serial_table.specs.Decision.{waits_no_more};

use crate::change::Change;
use crate::decision::{self, Decision};
use crate::rows::Watch;
use crate::table::Table;
use crate::{view, wake};
use sid_core::{Items, Moment, OutOfMemory, Post, Reply, Sid};

fn is_others(sid: Sid, watch: &Watch) -> bool
    ensures { result ≡ not (same_sid watch.now.sid sid) }
{
    watch.sid != sid
}

fn wakes_behind(table: &Table, sid: Sid) -> Result<Vec<Post>, OutOfMemory>
    ensures { IfOk result (λ posts. posts.items ≡ wakes_behind (view table.now) sid) }
{
    let posts = table
        .waiters
        .as_slice()
        .iter()
        .filter(|waiter| view::waits_behind(sid, waiter))
        .map(|waiter| view::watch_behind(waiter))
        .filter(|watch| is_others(sid, watch))
        .map(|watch| wake::wake(&watch))
        .collect(table.waiters.allocator())?;
    Ok(posts)
}

fn waits_behind_end(table: &Table, sid: Sid) -> Result<Vec<Change>, OutOfMemory>
    ensures { IfOk result (λ changes. changes.items ≡ map waits_no_more ((view table.now).watches_behind sid)) }
{
    let changes = table
        .waiters
        .as_slice()
        .iter()
        .filter(|waiter| view::waits_behind(sid, waiter))
        .map(|waiter| view::watch_behind(waiter))
        .map(decision::waits_no_more)
        .collect(table.waiters.allocator())?;
    Ok(changes)
}

/// What the end of a session at this moment decides, with the changes that follow it.
#[tactic(auto, unfolding(crate::specs::Session::end_of_session))]
pub(crate) fn end_of_session(
    table: &Table,
    sid: Sid,
    moment: Moment,
    others: &[Change],
) -> Result<Decision, OutOfMemory>
    ensures { IfOk result (λ decision. decision ≡ end_of_session (view table.now) sid moment others.now) }
{
    let posts = wakes_behind(table, sid)?;
    let mut changes = waits_behind_end(table, sid)?;
    changes.push(Change::EndSession { sid, moment })?;
    changes.extend_from_slice(others)?;
    Ok(Decision {
        changes: Items::from_vec(changes),
        posts: Items::from_vec(posts),
        ..decision::only_reply(table.opens.allocator(), Reply::Done)
    })
}
