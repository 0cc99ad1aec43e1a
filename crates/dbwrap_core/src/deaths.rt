ghost use Rattle.std.specs.Prelude.{◌≡◌, ◌<◌, length, not, true};
ghost use Rattle.turn_types.specs.Calls.{Able, HasDied, Asked};
ghost use Rattle.turn_types.specs.Beside.{Lives};
ghost use Rattle.dbwrap_core.specs.Plain.{shown_at, beside_of, Still};
ghost use Rattle.dbwrap_core.specs.Dying.{IsDeathOf};

use crate::moves::status_word;
use crate::pass::Death;
use crate::plain::PlainCells;
use std::snapshot::Snapshot;
use turn_types::{Looked, Replay};

impl<R: Replay> PlainCells<R> {
    pub(crate) fn die(&mut self, pass: u32)
        requires pass { pass < length self.old.passes.items }
        requires lives { (shown_at self.old pass).alive ≡ true }
        ensures still { Still self.old self.new pass }
        ensures died { HasDied (shown_at self.old pass) (shown_at self.new pass) }
    {
        let death = self.death_of(pass);
        let me = &mut self.passes[pass as usize];
        me.death = Some(death);
    }

    fn death_of(&self, pass: u32) -> Death
        requires { pass < length self.now.passes.items }
        ensures { IsDeathOf self.now pass result }
    {
        let me = &self.passes[pass as usize];
        Death {
            stage: me.stage,
            new: Snapshot::of(&me.new),
            chains: Snapshot::of(&self.chains),
            words: Snapshot::of(&self.words),
        }
    }

    pub(crate) fn is_dead(&mut self, pass: u32, other: u32) -> bool
        requires pass { pass < length self.old.passes.items }
        requires able { Able (shown_at self.old pass) }
        requires other { other < length (shown_at self.old pass).dead }
        ensures still { Still self.old self.new pass }
        ensures asked { Asked other (shown_at self.old pass) (shown_at self.new pass) result }
        ensures told { Lives other (not result) (beside_of self.old) }
    {
        let lives = self.passes[other as usize].death.is_none();
        let me = &mut self.passes[pass as usize];
        me.looked = Looked {
            chain: None,
            journal: None,
            status: Some((other, status_word(lives))),
        };
        if lives {
            return false;
        }
        me.dead[other as usize] = true;
        true
    }
}
