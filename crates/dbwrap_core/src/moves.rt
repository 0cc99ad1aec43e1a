ghost use Rattle.std.specs.Prelude.{◌≡◌, ℕ, ◌<◌, ◌+◌, length, IfOk, OnErr, true, false, eqb};
ghost use Rattle.std.specs.List.{position};
ghost use mathlib.Core.Option.{some};
ghost use Rattle.chain_map.specs.Pairs.{Pairs};
ghost use Rattle.turn_types.specs.Shown.{AllBelow, RisesFrom, Within, is_made, is_committed, is_nothing, is_stored, look};
ghost use Rattle.turn_types.specs.Calls.{Able, Tried, Learnt, Kept, Planned, Abandoned, Stored, Released, Fits};
ghost use Rattle.turn_types.specs.Ends.{Committing};
ghost use Rattle.turn_types.specs.Beside.{Names, BuriesTheDead};
ghost use Rattle.dbwrap_core.specs.Plain.{shown_at, beside_of, Still, Quiet};

use crate::pass::Stage;
use crate::plain::PlainCells;
use chain_map::Chain;
use sid_core::{Entry, OutOfMemory};
use turn_types::{Commit, Looked, Replay, Take};

impl<R: Replay> PlainCells<R> {
    pub(crate) fn try_take(&mut self, pass: u32, c: u32) -> Take
        requires pass { pass < length self.old.passes.items }
        requires able { Able (shown_at self.old pass) }
        requires chain { (c < length self.old.chains.items) × AllBelow c (shown_at self.old pass).held }
        ensures still { Still self.old self.new pass }
        ensures tried { Tried c (shown_at self.old pass) (shown_at self.new pass) result }
        ensures names { Names result (beside_of self.old) }
        ensures never { (h : ℕ) → Quiet (beside_of self.old) pass → result ≡ Take.Busy h → ⊥ }
    {
        let holder = self.words[c as usize];
        if holder == 0 {
            self.words[c as usize] = pass + 1;
            let me = &mut self.passes[pass as usize];
            let taken = me.taken;
            let done = me.done;
            me.taken = taken.saturating_add(1);
            me.done = done.saturating_add(1);
            return Take::Taken;
        }
        let other = holder - 1;
        let lives = self.passes[other as usize].death.is_none();
        let me = &mut self.passes[pass as usize];
        me.looked = Looked {
            chain: Some((c, u64::from(holder))),
            journal: None,
            status: Some((other, status_word(lives))),
        };
        if lives {
            return Take::Busy { holder: other };
        }
        me.dead[other as usize] = true;
        Take::Orphan { holder: other }
    }

    pub(crate) fn read(&mut self, pass: u32, c: u32) -> Result<Chain, OutOfMemory>
        requires pass { pass < length self.old.passes.items }
        requires able { Able (shown_at self.old pass) }
        requires held { (y : Pairs) × (look c (shown_at self.old pass).held ≡ some y) }
        requires unplanned { is_nothing (shown_at self.old pass).plan ≡ true }
        ensures still { Still self.old self.new pass }
        ensures learnt { IfOk result (λ chain. Learnt R.step R.legal R.follows R.buries c (shown_at self.old pass) (shown_at self.new pass) chain) }
        ensures refused { OnErr result (Kept R.step R.legal R.follows R.buries (shown_at self.old pass) (shown_at self.new pass)) }
    {
        let chain = self.chains[c as usize].copy()?;
        let seen = self.journal.len();
        let me = &mut self.passes[pass as usize];
        me.seen = seen;
        Ok(chain)
    }

    pub(crate) fn plan(&mut self, pass: u32, new: Vec<(u32, Chain)>)
        requires pass { pass < length self.old.passes.items }
        requires able { Able (shown_at self.old pass) }
        requires some_held { 0 < length (shown_at self.old pass).held }
        requires new { RisesFrom 0 new.items × Within new.items (shown_at self.old pass).held }
        requires unplanned { is_nothing (shown_at self.old pass).plan ≡ true }
        ensures still { Still self.old self.new pass }
        ensures planned { Planned (shown_at self.old pass) (shown_at self.new pass) new.items }
    {
        let me = &mut self.passes[pass as usize];
        let done = me.done;
        me.new = new;
        me.stage = Stage::Made;
        me.done = done.saturating_add(1);
    }

    pub(crate) fn abandon(&mut self, pass: u32)
        requires pass { pass < length self.old.passes.items }
        requires able { Able (shown_at self.old pass) }
        requires uncommitted { is_committed (shown_at self.old pass).plan ≡ false }
        ensures still { Still self.old self.new pass }
        ensures abandoned { Abandoned (shown_at self.old pass) (shown_at self.new pass) }
    {
        let me = &mut self.passes[pass as usize];
        me.new.clear();
        me.stage = Stage::Nothing;
    }

    pub(crate) fn commit(&mut self, pass: u32, entry: Entry) -> Commit
        requires pass { pass < length self.old.passes.items }
        requires able { Able (shown_at self.old pass) }
        requires fits { Fits R.step R.legal R.follows R.buries R.names (shown_at self.old pass) entry }
        ensures still { Still self.old self.new pass }
        ensures commits { Committing R.step R.legal R.follows R.buries (shown_at self.old pass) (shown_at self.new pass) entry result }
        ensures buried { BuriesTheDead R.buries (beside_of self.new) }
    {
        let place = self.journal.len();
        let me = &mut self.passes[pass as usize];
        let done = me.done;
        if self.journal.push(entry).is_err() {
            return Commit::OutOfMemory;
        }
        me.seen = place + 1;
        me.commits = entry.seq;
        me.stage = Stage::Committed;
        me.done = done.saturating_add(1);
        Commit::Done {
            place: place as u64,
        }
    }

    pub(crate) fn store_next(&mut self, pass: u32) -> Option<u32>
        requires pass { pass < length self.old.passes.items }
        requires able { Able (shown_at self.old pass) }
        requires committed { is_made (shown_at self.old pass).plan ≡ false }
        ensures still { Still self.old self.new pass }
        ensures stored { Stored (shown_at self.old pass) (shown_at self.new pass) result }
    {
        let me = &mut self.passes[pass as usize];
        let done = me.done;
        let (c, chain) = me.new.pop()?;
        me.done = done.saturating_add(1);
        self.chains[c as usize] = chain;
        Some(c)
    }

    pub(crate) fn release_next(&mut self, pass: u32) -> Option<u32>
        requires pass { pass < length self.old.passes.items }
        requires able { Able (shown_at self.old pass) }
        requires stored { is_stored (shown_at self.old pass).plan ≡ true }
        ensures still { Still self.old self.new pass }
        ensures released { Released (shown_at self.old pass) (shown_at self.new pass) result }
    {
        let c = first_with(self.words.as_slice(), pass + 1)?;
        self.words[c] = 0;
        let last = first_with(self.words.as_slice(), pass + 1).is_none();
        let me = &mut self.passes[pass as usize];
        let done = me.done;
        let stage = me.stage;
        me.done = done.saturating_add(1);
        me.stage = stage_after(stage, last);
        Some(c as u32)
    }

    pub(crate) fn number(&self, pass: u32) -> u32
        requires { pass < length self.now.passes.items }
        ensures { result ≡ (shown_at self.now pass).number }
    {
        pass
    }

    pub(crate) fn commits(&self, pass: u32) -> u32
        requires { pass < length self.now.passes.items }
        ensures { result ≡ length (shown_at self.now pass).own }
    {
        self.passes[pass as usize].commits
    }
}

// The status word of a pass that lives, or of a dead one.
pub(crate) fn status_word(lives: bool) -> u64
    ensures living { lives ≡ true → result ≡ 0 }
    ensures dead { lives ≡ false → result ≡ 1 }
{
    if lives { 0 } else { 1 }
}

pub(crate) fn first_with(words: &[u32], word: u32) -> Option<usize>
    ensures { result ≡ position (λ w. eqb w word) words.now }
{
    words.iter().position(|&w| w == word)
}

fn stage_after(stage: Stage, last: bool) -> Stage
    ensures last { last ≡ true → result ≡ Stage.Nothing }
    ensures other { last ≡ false → result ≡ stage }
{
    if last { Stage::Nothing } else { stage }
}
