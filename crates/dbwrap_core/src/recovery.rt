ghost use Rattle.std.specs.Prelude.{◌≡◌, ℕ, ◌<◌, ◌≤◌, ◌+◌, Option, Some, length, slice_set, true, false};
ghost use mathlib.Core.Option.{some};
ghost use lib.ListN.{get_elem?};
ghost use Rattle.turn_types.specs.Shown.{knows_dead};
ghost use Rattle.turn_types.specs.Calls.{Able};
ghost use Rattle.turn_types.specs.Ends.{Recovered};
ghost use Rattle.turn_types.specs.Beside.{Frees};
ghost use Rattle.dbwrap_core.specs.declared.pass.PlainPass.{PlainPass};
ghost use Rattle.dbwrap_core.specs.Plain.{shown_at, beside_of, Still};
ghost use Rattle.dbwrap_core.specs.Redone.{Redone, IsDeadPass, IsUnmade, IsStored, Counted, left, count_of};

use crate::moves::first_with;
use crate::pass::Stage;
use crate::plain::PlainCells;
use turn_types::{Looked, Recover, Replay};

impl<R: Replay> PlainCells<R> {
    pub(crate) fn recover(&mut self, pass: u32, dead: u32, stop: Option<u32>) -> Recover
        requires pass { pass < length self.old.passes.items }
        requires able { Able (shown_at self.old pass) }
        requires dead { knows_dead dead (shown_at self.old pass) ≡ true }
        ensures still { Still self.old self.new pass }
        ensures recovered { Recovered dead stop (shown_at self.old pass) (shown_at self.new pass) result }
        ensures never { (by : ℕ) → result ≡ Recover.Other by → ⊥ }
        ensures frees { Frees R.step dead result (beside_of self.old) (beside_of self.new) }
    {
        self.drop_uncommitted(dead);
        let stored = self.store_due(dead, stop);
        let freed = self.give_all_back(dead, stop, stored);
        self.end_recovery(pass, dead, stored, freed)
    }

    // A plan that wasn't committed is dropped.
    fn drop_uncommitted(&mut self, dead: u32)
        requires dead { IsDeadPass self.old dead }
        ensures redone { Redone self.old self.new dead }
        ensures unmade { IsUnmade self.new dead }
        ensures words { self.new.words.items ≡ self.old.words.items }
    {
        let it = &mut self.passes[dead as usize];
        if let Stage::Made = it.stage {
            it.stage = Stage::Nothing;
            it.new.clear();
        }
    }

    // Stores what is due, and says how many chains were stored.
    fn store_due(&mut self, dead: u32, stop: Option<u32>) -> usize
        requires dead { IsDeadPass self.old dead }
        requires unmade { IsUnmade self.old dead }
        ensures redone { Redone self.old self.new dead }
        ensures unmade { IsUnmade self.new dead }
        ensures words { self.new.words.items ≡ self.old.words.items }
        ensures counted { result + left self.new dead ≡ left self.old dead }
        ensures stopped { 0 < left self.new dead → stop ≡ Some result }
        ensures allowed { (most : ℕ) → stop ≡ Some most → result ≤ most }
    {
        let due = self.passes[dead as usize].new.len();
        for stored in 0..due {
            if is_over(stop, stored) {
                return stored;
            }
            self.store_last(dead);
        }
        due
    }

    fn store_last(&mut self, dead: u32)
        requires dead { IsDeadPass self.old dead }
        requires unmade { IsUnmade self.old dead }
        requires due { 0 < left self.old dead }
        ensures redone { Redone self.old self.new dead }
        ensures unmade { IsUnmade self.new dead }
        ensures words { self.new.words.items ≡ self.old.words.items }
        ensures counted { left self.new dead + 1 ≡ left self.old dead }
    {
        let it = &mut self.passes[dead as usize];
        if let Some((c, chain)) = it.new.pop() {
            self.chains[c as usize] = chain;
        }
    }

    // Gives chains back once all is stored, and says how many.
    fn give_all_back(&mut self, dead: u32, stop: Option<u32>, stored: usize) -> usize
        requires dead { IsDeadPass self.old dead }
        requires unmade { IsUnmade self.old dead }
        requires few { stored ≤ 512 }
        requires stopped { 0 < left self.old dead → stop ≡ Some stored }
        ensures redone { Redone self.old self.new dead }
        ensures counted { result + count_of (dead + 1) self.new.words.items ≡ count_of (dead + 1) self.old.words.items }
        ensures stopped { (c : ℕ) → get_elem? self.new.words.items c ≡ some (dead + 1) → stop ≡ Some (stored + result) }
        ensures allowed { (most : ℕ) → stop ≡ Some most → stored ≤ most → stored + result ≤ most }
    {
        if !self.passes[dead as usize].new.is_empty() {
            return 0;
        }
        let mut freed = 0;
        for c in 0..self.words.len() {
            if self.words[c] == dead + 1 {
                if is_over(stop, stored + freed) {
                    return freed;
                }
                self.give_back(dead, c);
                freed += 1;
            }
        }
        freed
    }

    fn give_back(&mut self, dead: u32, c: usize)
        requires dead { IsDeadPass self.old dead }
        requires stored { IsStored self.old dead }
        requires held { get_elem? self.old.words.items c ≡ some (dead + 1) }
        ensures redone { Redone self.old self.new dead }
        ensures stored { IsStored self.new dead }
        ensures word { self.new.words.items ≡ slice_set self.old.words.items c 0 }
    {
        self.words[c] = 0;
    }

    // Counts the steps, and notes what is left.
    fn end_recovery(&mut self, pass: u32, dead: u32, stored: usize, freed: usize) -> Recover
        requires pass { pass < length self.old.passes.items }
        requires lives { (shown_at self.old pass).alive ≡ true }
        requires dead { IsDeadPass self.old dead }
        requires few { (stored ≤ 512) × (freed ≤ 512) }
        ensures still { Still self.old self.new pass }
        ensures chains { (self.new.chains.items ≡ self.old.chains.items) × (self.new.words.items ≡ self.old.words.items) × (self.new.journal.items ≡ self.old.journal.items) }
        ensures counted { Counted dead stored freed (shown_at self.old pass) (shown_at self.new pass) self.new.words.items result }
    {
        let held = first_with(self.words.as_slice(), dead + 1);
        let me = &mut self.passes[pass as usize];
        let given_back = me.given_back;
        let done = me.done;
        me.given_back = given_back.saturating_add(freed as u64);
        me.done = done.saturating_add((stored + freed) as u64);
        let Some(c) = held else {
            me.freed[dead as usize] = true;
            return Recover::Freed;
        };
        me.recovering = Some(dead);
        me.looked = Looked {
            chain: Some((c as u32, u64::from(dead) + 1)),
            journal: None,
            status: None,
        };
        Recover::Stopped
    }
}

fn is_over(stop: Option<u32>, steps: usize) -> bool
    ensures over { result ≡ true → stop ≡ Some steps }
    ensures left { result ≡ false → stop ≡ Some steps → ⊥ }
{
    match stop {
        Some(most) => most as usize == steps,
        None => false,
    }
}
