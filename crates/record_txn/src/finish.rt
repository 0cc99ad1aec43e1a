//! How a transaction ends as one entry.
ghost use Rattle.std.specs.Prelude.{◌≡◌, ◌<◌, ◌+◌, ◌^◌, [], true, length};
ghost use Rattle.turn_types.specs.Shown.{Committed, IsPart, planned, replay, is_made, is_committed};
ghost use Rattle.turn_types.specs.Calls.{Able, Fits};
ghost use Rattle.record_txn.specs.Goes.{Goes};
ghost use Rattle.record_txn.specs.Moves.{HasGivenAll};
ghost use Rattle.record_txn.specs.Hand.{chains_of, changes_of};
ghost use Rattle.record_txn.specs.Open.{IsOpen};
ghost use Rattle.record_txn.specs.Finishing.{MayFinish, Finished, EndedAt, Reached, GaveFirst, dies_early, has_entry, next_entry};

use crate::hand::changes_of;
use crate::moves::{give_all_back, store_all};
use crate::teller::Teller;
use crate::txn::Txn;
use dbwrap_core::Cells;
use sid_core::{Entry, Event, Gate, Point, StepKind};
use turn_types::Commit;

/// What the end of a transaction gives.
#[derive(Clone, Copy, Debug, PartialEq, Eq)]
pub enum Finish {
    /// So many entries stand before the transaction's.
    Done { place: u64 },
    /// The pass died at the stop, behind the entry at this place or before there was one.
    Died { committed: Option<u64> },
    /// Another pass was committing. All was given back unchanged.
    Busy { holder: u32 },
    /// All was given back unchanged.
    OutOfMemory,
}

impl<C: Cells, G: Gate> Txn<'_, C, G> {
    /// Adds the event to the journal as the pass's next entry, stores what was changed, and gives all back.
    pub fn finish(self, what: Event) -> Finish
        requires opened { IsOpen C.Rule.step C.Rule.legal C.Rule.follows C.Rule.buries (C.quiet self.cells.now) (C.chains self.cells.now) self.chains self.stop self.hand.items (C.shown self.cells.now) }
        requires few { length (C.shown self.cells.now).own + 1 < 2 ^ 32 }
        requires may { MayFinish C.Rule.step C.Rule.legal C.Rule.follows C.Rule.buries C.Rule.names (chains_of self.hand.items) (C.shown self.cells.now) (next_entry (C.shown self.cells.now) what) }
        ensures goes { Goes C.bond C.chains C.quiet C.shown C.beside self.entry.cells.now self.exit.0.now }
        ensures finished { Finished C.Rule.step C.Rule.legal C.Rule.follows C.Rule.buries self.entry.stop (changes_of self.entry.hand.items) (C.shown self.entry.cells.now) (C.shown self.exit.0.now) (next_entry (C.shown self.entry.cells.now) what) result }
        ensures becomes { C.Rule.first (C.shown self.entry.cells.now).rule (C.shown self.entry.cells.now).first → has_entry result ≡ true →
            IsPart (chains_of self.entry.hand.items) (replay C.Rule.step (C.shown self.exit.0.now) (C.shown self.exit.0.now).seen) }
    {
        let Txn {
            cells,
            stop,
            hand,
            alloc,
            teller,
            chains: _,
        } = self;
        let Ok(changes) = changes_of(alloc, hand) else {
            give_all_back(cells, &teller);
            return Finish::OutOfMemory;
        };
        cells.plan(changes);
        teller.tell(StepKind::Planned);
        let entry = Entry {
            by: cells.number(),
            seq: cells.commits() + 1,
            what,
        };
        commit(cells, &teller, stop, entry)
    }
}

// Commits the entry whose plan is made, unless the pass dies before, and ends the transaction.
fn commit<C: Cells, G: Gate>(
    cells: &mut C,
    teller: &Teller<'_, G>,
    stop: Option<Point>,
    entry: Entry,
) -> Finish
    requires able { Able (C.shown cells.old) }
    requires fits { Fits C.Rule.step C.Rule.legal C.Rule.follows C.Rule.buries C.Rule.names (C.shown cells.old) entry }
    requires some_held { 0 < length (C.shown cells.old).held }
    ensures goes { Goes C.bond C.chains C.quiet C.shown C.beside cells.old cells.new }
    ensures finished { Finished C.Rule.step C.Rule.legal C.Rule.follows C.Rule.buries stop (planned (C.shown cells.old).plan) (C.shown cells.old) (C.shown cells.new) entry result }
{
    if dies_early(stop) {
        cells.die();
        return Finish::Died { committed: None };
    }
    match cells.commit(entry) {
        Commit::Done { place } => {
            teller.tell(StepKind::Committed);
            end_committed(cells, teller, stop, place)
        }
        Commit::Busy { holder } => {
            drop_plan(cells, teller);
            Finish::Busy { holder }
        }
        Commit::OutOfMemory => {
            drop_plan(cells, teller);
            Finish::OutOfMemory
        }
    }
}

// Drops a plan that isn't committed, and gives all back.
fn drop_plan<C: Cells, G: Gate>(cells: &mut C, teller: &Teller<'_, G>)
    requires able { Able (C.shown cells.old) }
    requires made { is_made (C.shown cells.old).plan ≡ true }
    ensures goes { Goes C.bond C.chains C.quiet C.shown C.beside cells.old cells.new }
    ensures given { HasGivenAll (C.shown cells.old) (C.shown cells.new) }
{
    cells.abandon();
    give_all_back(cells, teller);
}

// Stores and gives back, or dies on the way.
fn end_committed<C: Cells, G: Gate>(
    cells: &mut C,
    teller: &Teller<'_, G>,
    stop: Option<Point>,
    place: u64,
) -> Finish
    requires able { Able (C.shown cells.old) }
    requires committed { is_committed (C.shown cells.old).plan ≡ true }
    requires some_held { 0 < length (C.shown cells.old).held }
    ensures goes { Goes C.bond C.chains C.quiet C.shown C.beside cells.old cells.new }
    ensures ended { EndedAt stop place (C.shown cells.old) (C.shown cells.new) result }
{
    match stop {
        None => {
            store_all(cells, teller);
            give_all_back(cells, teller);
            Finish::Done { place }
        }
        Some(point) => {
            reach(cells, teller, point);
            cells.die();
            Finish::Died {
                committed: Some(place),
            }
        }
    }
}

// Goes on until the point.
fn reach<C: Cells, G: Gate>(cells: &mut C, teller: &Teller<'_, G>, point: Point)
    requires able { Able (C.shown cells.old) }
    requires committed { is_committed (C.shown cells.old).plan ≡ true }
    requires some_held { 0 < length (C.shown cells.old).held }
    ensures goes { Goes C.bond C.chains C.quiet C.shown C.beside cells.old cells.new }
    ensures reached { Reached (C.shown cells.old) (C.shown cells.new) point }
    ensures lives { (C.shown cells.new).alive ≡ true }
{
    match point {
        Point::Store => store_first(cells, teller),
        Point::Release => {
            store_all(cells, teller);
            give_first_back(cells, teller);
        }
        Point::Take | Point::Intent | Point::Commit | Point::Mourn => {}
    }
}

// Stores the first chain, or gives the first one back where none is to be stored.
fn store_first<C: Cells, G: Gate>(cells: &mut C, teller: &Teller<'_, G>)
    requires able { Able (C.shown cells.old) }
    requires committed { is_committed (C.shown cells.old).plan ≡ true }
    requires some_held { 0 < length (C.shown cells.old).held }
    ensures goes { Goes C.bond C.chains C.quiet C.shown C.beside cells.old cells.new }
    ensures reached { Reached (C.shown cells.old) (C.shown cells.new) Point.Store }
    ensures lives { (C.shown cells.new).alive ≡ true }
{
    match cells.store_next() {
        Some(chain) => teller.tell(StepKind::Stored(chain)),
        None => give_first_back(cells, teller),
    }
}

// Gives the lowest chain back, once all is stored.
fn give_first_back<C: Cells, G: Gate>(cells: &mut C, teller: &Teller<'_, G>)
    requires able { Able (C.shown cells.old) }
    requires stored { (C.shown cells.old).plan ≡ Committed [] }
    requires some_held { 0 < length (C.shown cells.old).held }
    ensures goes { Goes C.bond C.chains C.quiet C.shown C.beside cells.old cells.new }
    ensures given { GaveFirst (C.shown cells.old) (C.shown cells.new) }
{
    if let Some(chain) = cells.release_next() {
        teller.tell(StepKind::Released(chain));
    }
}

// Whether a pass dies before it commits.
fn dies_early(stop: Option<Point>) -> bool
    ensures { result ≡ dies_early stop }
{
    matches!(stop, Some(Point::Take | Point::Intent | Point::Mourn))
}
