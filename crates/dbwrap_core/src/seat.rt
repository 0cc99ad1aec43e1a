ghost use Rattle.std.specs.Prelude.{◌≡◌, ◌<◌, length, Some};
ghost use Rattle.dbwrap_core.specs.Plain.{shown_at, beside_of, Quiet, seat_tells};

use crate::cells::Cells;
use crate::plain::PlainCells;
use chain_map::Chain;
use sid_core::{Entry, OutOfMemory};
use turn_types::{Commit, Recover, Replay, Take};

/// One pass of plain cells. All passes are told beside it.
#[derive(Drop)]
pub struct PlainSeat<'a, R: Replay> {
    pub cells: &'a mut PlainCells<R>,
    pub pass: u32,
    ghost here: { pass < length cells.now.passes.items },
}

impl<R: Replay> PlainCells<R> {
    /// The seat of this pass. It begins with what these cells show, and they show at its end what it showed. Takes no memory.
    pub fn seat(&mut self, pass: u32) -> PlainSeat<'_, R>
        requires { pass < length (beside_of self.old).passes }
        ensures same { (result.cells.ghost_name ≡ self.entry.ghost_name) × (result.cells.now ≡ self.old) }
        ensures pass { result.pass ≡ pass }
    {
        PlainSeat { cells: self, pass }
    }
}

impl<R: Replay> Cells for PlainSeat<'_, R> {
    type Rule = R;

    ghost shown = { λ s. shown_at s.cells.now s.pass };

    ghost chains = { λ s. length (beside_of s.cells.now).chains };

    ghost bond = { λ s. (s.cells.ghost_name, s.pass) };

    ghost beside = { λ s. Some (beside_of s.cells.now) };

    ghost tells = { λ s. seat_tells s.cells.now s.pass s.here };

    ghost quiet = { λ s. Quiet (beside_of s.cells.now) s.pass };

    fn try_take(&mut self, c: u32) -> Take {
        self.cells.try_take(self.pass, c)
    }

    fn take(&mut self, c: u32) -> Take {
        self.cells.try_take(self.pass, c)
    }

    fn read(&mut self, c: u32) -> Result<Chain, OutOfMemory> {
        self.cells.read(self.pass, c)
    }

    fn plan(&mut self, new: Vec<(u32, Chain)>) {
        self.cells.plan(self.pass, new)
    }

    fn abandon(&mut self) {
        self.cells.abandon(self.pass)
    }

    fn commit(&mut self, entry: Entry) -> Commit {
        self.cells.commit(self.pass, entry)
    }

    fn store_next(&mut self) -> Option<u32> {
        self.cells.store_next(self.pass)
    }

    fn release_next(&mut self) -> Option<u32> {
        self.cells.release_next(self.pass)
    }

    fn die(&mut self) {
        self.cells.die(self.pass)
    }

    fn is_dead(&mut self, other: u32) -> bool {
        self.cells.is_dead(self.pass, other)
    }

    fn recover(&mut self, dead: u32, stop: Option<u32>) -> Recover {
        self.cells.recover(self.pass, dead, stop)
    }

    fn tell(&self) {
        self.cells.tell();
    }

    fn number(&self) -> u32 {
        self.cells.number(self.pass)
    }

    fn commits(&self) -> u32 {
        self.cells.commits(self.pass)
    }
}
