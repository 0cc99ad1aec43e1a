ghost use Rattle.std.specs.Prelude.{◌≡◌, ℕ, ◌+◌, ◌*◌, ◌≤◌, ◌++◌, ◌∷◌, [], IsTrue, IfOk, OnOk, OnErr, Some, IfSome, length, map, vec_len, vec_capacity, false};
ghost use Rattle.std.specs.List.{list_all, flat_map};
ghost use Rattle.serial_table.specs.View.{view};
ghost use Rattle.serial_table.specs.Change.{perform_all};
ghost use Rattle.serial_table.specs.Wake.{wake};
ghost use Rattle.serial_table.specs.Decision.{settling, waits_no_more, waits_now, conclude};
ghost use Rattle.serial_table.specs.InPlace.{table_of, HasRoom, AreEnough, is_made, judge, IsReady};

use crate::change::Change;
use crate::decision::Decision;
use crate::lists::{Lists, Scope};
use crate::rows::{WaiterRow, Watch};
use crate::wake::{self, Candidate};
use sid_core::{Items, OutOfMemory, Post};
use std::alloc::Global;

/// What a decision needs to be concluded without taking memory any more.
#[derive(Drop)]
pub(crate) struct Ready {
    pub(crate) changes: Vec<Change>,
    pub(crate) candidates: Vec<Candidate>,
    pub(crate) woken: Vec<Watch>,
    pub(crate) posts: Vec<Post>,
}

/// The decision's changes, and then that the table settles.
fn settling(decision: &Decision) -> Result<Vec<Change>, OutOfMemory>
    ensures { IfOk result (λ changes. changes.items ≡ settling decision.now) }
{
    let mut changes = decision.changes.copy()?.into_vec();
    changes.push(Change::Settle)?;
    Ok(changes)
}

/// How many waiters the spots can have after so many changes, where the table has so many before.
fn count_watches(spots: usize, waiters: usize, changes: usize) -> Option<usize>
    ensures { IfSome result (λ count. count ≡ spots * (waiters + changes)) }
{
    waiters.checked_add(changes)?.checked_mul(spots)
}

fn or_refuse(count: Option<usize>) -> Result<usize, OutOfMemory>
    ensures { IfOk result (λ number. count ≡ Some number) }
{
    match count {
        Some(number) => Ok(number),
        None => Err(OutOfMemory),
    }
}

/// Takes all memory that the conclusion needs but for the table's own rows.
fn prepare(alloc: Global, waiters: usize, decision: &Decision) -> Result<Ready, OutOfMemory>
    ensures { IfOk result (IsReady decision.now waiters) }
{
    let changes = settling(decision)?;
    let candidates = wake::candidates(alloc, decision.spots.as_slice())?;
    let watches = or_refuse(count_watches(candidates.len(), waiters, changes.len()))?;
    let letters = or_refuse(decision.posts.len().checked_add(watches))?;
    let woken = Vec::with_capacity(alloc, watches)?;
    let posts = Vec::with_capacity(alloc, letters)?;
    Ok(Ready {
        changes,
        candidates,
        woken,
        posts,
    })
}

fn push_posts(posts: &mut Vec<Post>, more: &[Post])
    requires room { vec_len posts.old + length more.now ≤ vec_capacity posts.old }
    ensures items { posts.new.items ≡ posts.old.items ++ more.now }
    ensures len { vec_len posts.new ≡ vec_len posts.old + length more.now }
    ensures room { vec_capacity posts.new ≡ vec_capacity posts.old }
{
    for post in more {
        posts.push_reserved(*post);
    }
}

fn push_wakes(posts: &mut Vec<Post>, woken: &[Watch])
    requires room { vec_len posts.old + length woken.now ≤ vec_capacity posts.old }
    ensures items { posts.new.items ≡ posts.old.items ++ map wake woken.now }
    ensures len { vec_len posts.new ≡ vec_len posts.old + length woken.now }
{
    for watch in woken {
        posts.push_reserved(wake::wake(watch));
    }
}

impl Lists {
    fn drop_woken(&mut self, woken: &[Watch])
        ensures table { table_of self.new ≡ perform_all (map waits_no_more woken.now) (table_of self.old) }
        ensures room { (more : ℕ) → HasRoom self.old more → HasRoom self.new more }
    {
        for watch in woken {
            self.drop_wait(watch.sid, watch.call);
        }
    }

    fn add_wait(&mut self, waits: Option<WaiterRow>)
        requires room { HasRoom self.old 1 }
        ensures table { table_of self.new ≡ perform_all (waits_now waits) (table_of self.old) }
        ensures room { (more : ℕ) → HasRoom self.old (1 + more) → HasRoom self.new more }
    {
        if let Some(waiter) = waits {
            self.waiters.push_reserved(waiter);
        }
    }

    fn send_all(&mut self, posts: &[Post])
        requires room { HasRoom self.old (length posts.now) }
        ensures table { table_of self.new ≡ perform_all (map (λ post. Change.Send post) posts.now) (table_of self.old) }
    {
        for post in posts {
            self.send(*post);
        }
    }
}

impl Lists {
    /// Concludes the decision. All that could be refused is at hand.
    fn finish(&mut self, scope: Scope, decision: &Decision, ready: Ready) -> Vec<Post>
        requires made { IsTrue (list_all is_made decision.now.changes) }
        requires enough { AreEnough scope (settling decision.now) (table_of self.old) }
        requires ready { IsReady decision.now (vec_len self.old.waiters) ready }
        requires room { HasRoom self.old (vec_len ready.changes + (1 + vec_capacity ready.posts)) }
        ensures table { table_of self.new ≡ perform_all (conclude (view (table_of self.old)) decision.now).changes (table_of self.old) }
        ensures posts { result.items ≡ (conclude (view (table_of self.old)) decision.now).posts }
    {
        let Ready {
            changes,
            mut candidates,
            mut woken,
            mut posts,
        } = ready;
        self.carry_out(scope, changes.as_slice(), &mut candidates);
        wake::push_woken(&mut woken, self.waiters.as_slice(), candidates.as_slice());
        push_posts(&mut posts, decision.posts.as_slice());
        push_wakes(&mut posts, woken.as_slice());
        self.drop_woken(woken.as_slice());
        self.add_wait(decision.waits);
        self.send_all(posts.as_slice());
        posts
    }

    /// Concludes the decision, and gives the letters that it posts. A refusal changes nothing.
    pub(crate) fn conclude(
        &mut self,
        scope: Scope,
        decision: &Decision,
    ) -> Result<Vec<Post>, OutOfMemory>
        requires made { IsTrue (list_all is_made decision.now.changes) }
        requires enough { AreEnough scope (settling decision.now) (table_of self.old) }
        ensures table { OnOk result (table_of self.new ≡ perform_all (conclude (view (table_of self.old)) decision.now).changes (table_of self.old)) }
        ensures posts { IfOk result (λ posts. posts.items ≡ (conclude (view (table_of self.old)) decision.now).posts) }
        ensures err { OnErr result (table_of self.new ≡ table_of self.old) }
    {
        let ready = prepare(self.alloc(), self.waiters.len(), decision)?;
        let letters = or_refuse(ready.posts.capacity().checked_add(1))?;
        let more = or_refuse(ready.changes.len().checked_add(letters))?;
        self.reserve(more)?;
        Ok(self.finish(scope, decision, ready))
    }
}
