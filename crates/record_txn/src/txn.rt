ghost use Rattle.std.specs.Prelude.{◌≡◌, ◌≤◌, ◌<◌, ◌*◌, ◌++◌, ◌∷◌, [], true, OnOk, IfErr, OnErr, Option, List, ℕ};
ghost use Rattle.std.specs.Option.{option_copied};
ghost use mathlib.Core.Option.{some};
ghost use Rattle.std.specs.Borrow.{Bor};
ghost use Rattle.chain_map.specs.Hash.{chain_number};
ghost use Rattle.chain_map.specs.Pairs.{Pairs, find, put, without};
ghost use Rattle.turn_types.specs.Shown.{AllBelow, Nothing, look};
ghost use Rattle.turn_types.specs.Calls.{Able};
ghost use Rattle.record_txn.specs.Goes.{Goes};
ghost use Rattle.record_txn.specs.Moves.{HasGivenAll};
ghost use Rattle.record_txn.specs.Hand.{chains_of, chain_in, with_change};
ghost use Rattle.record_txn.specs.Holding.{Holds, Ended, dies_at_first, is_take};
ghost use Rattle.record_txn.specs.Open.{IsOpen};

use crate::hand::{Held, chain_in, put_in, remove_in};
use crate::hold::{TxnEnd, take_and_read};
use crate::moves::give_all_back;
use crate::teller::Teller;
use chain_map::{Db, chain_of};
use dbwrap_core::Cells;
use sid_core::{Gate, OutOfMemory, Point};
use std::alloc::Global;

/// One transaction of a pass. What it has in hand is a parameter so that contracts can say what its end leaves of the cells.
#[derive(Drop)]
pub struct Txn<'a, C: Cells, G: Gate, H = Vec<Held>> {
    pub cells: &'a mut C,
    /// How many chains each database has.
    pub chains: u32,
    /// Where the pass dies.
    pub stop: Option<Point>,
    /// The held chains, with what becomes of them.
    pub hand: H,
    pub(crate) alloc: Global,
    pub(crate) teller: Teller<'a, G>,
}

impl<'a, C: Cells, G: Gate> Txn<'a, C, G> {
    /// A transaction that holds nothing, of the call with this number of a worker. Its pass dies at the stop, if there is
    /// one. The gate is told each step. Takes no memory.
    pub fn start(
        alloc: Global,
        cells: &'a mut C,
        chains: u32,
        worker: u32,
        number: u32,
        stop: Option<Point>,
        gate: &'a G,
    ) -> Txn<'a, C, G>
        requires databases { (1 ≤ chains) × (chains ≤ 64) × (C.chains cells.old ≡ 7 * chains) }
        requires quiet { C.quiet cells.old }
        requires idle { Able (C.shown cells.old) × ((C.shown cells.old).held ≡ []) × ((C.shown cells.old).plan ≡ Nothing) }
        ensures cells { (result.cells.ghost_name ≡ cells.entry.ghost_name) × (result.cells.now ≡ cells.old) }
        ensures fresh { (result.chains ≡ chains) × (result.stop ≡ stop) × (result.hand.items ≡ []) }
        ensures opened { IsOpen C.Rule.step C.Rule.legal C.Rule.follows C.Rule.buries (C.quiet result.cells.now) (C.chains result.cells.now) result.chains result.stop result.hand.items (C.shown result.cells.now) }
    {
        Txn {
            cells,
            chains,
            stop,
            hand: Vec::new(alloc),
            alloc,
            teller: Teller {
                gate,
                worker,
                number,
            },
        }
    }

    /// Takes a chain above all that are held, and reads it. Where it can't, the transaction has ended, and its pass holds
    /// nothing, or has died.
    pub fn hold(&mut self, c: u32) -> Result<(), TxnEnd>
        requires opened { IsOpen C.Rule.step C.Rule.legal C.Rule.follows C.Rule.buries (C.quiet self.old.cells.now) (C.chains self.old.cells.now) self.old.chains self.old.stop self.old.hand.items (C.shown self.old.cells.now) }
        requires chain { (c < C.chains self.old.cells.now) × AllBelow c (C.shown self.old.cells.now).held }
        ensures cells { self.new.cells.ghost_name ≡ self.old.cells.ghost_name }
        ensures kept { (self.new.chains ≡ self.old.chains) × (self.new.stop ≡ self.old.stop) }
        ensures goes { Goes C.bond C.chains C.quiet C.shown C.beside self.old.cells.now self.new.cells.now }
        ensures opened { OnOk result (IsOpen C.Rule.step C.Rule.legal C.Rule.follows C.Rule.buries (C.quiet self.new.cells.now) (C.chains self.new.cells.now) self.new.chains self.new.stop self.new.hand.items (C.shown self.new.cells.now)) }
        ensures holds { OnOk result ((chain : Pairs) × Holds C.Rule.step C.Rule.legal C.Rule.follows C.Rule.buries c (C.shown self.old.cells.now) (C.shown self.new.cells.now) chain
            × (chains_of self.new.hand.items ≡ chains_of self.old.hand.items ++ (c, chain) ∷ [])) }
        ensures ends { IfErr result (Ended (C.shown self.old.cells.now) (C.shown self.new.cells.now) c self.old.stop) }
    {
        if self.hand.reserve(1).is_err() {
            give_all_back(self.cells, &self.teller);
            return Err(TxnEnd::OutOfMemory);
        }
        let dies = dies_at_first(self.stop, self.hand.as_slice());
        let chain = take_and_read(self.cells, &self.teller, c, self.stop, dies)?;
        self.hand.push_reserved(Held {
            number: c,
            chain,
            is_changed: false,
        });
        Ok(())
    }

    /// Lends the value under the key, as the transaction has it. Takes no memory.
    pub fn fetch<T, F: FnOnce(Option<&[u8]>) -> T>(&self, db: Db, key: &[u8], show: F) -> T
        requires databases { (1 ≤ self.now.chains) × (self.now.chains ≤ 64) }
        requires held { (chain : Pairs) × (look (chain_number db key.now self.now.chains) (chains_of self.now.hand.items) ≡ some chain) }
        requires shows { F.IsAlwaysCallable show }
        ensures { (value : Option (Bor (List ℕ))) × F.post show value result
            × (option_copied value ≡ find key.now (chain_in (chain_number db key.now self.now.chains) (chains_of self.now.hand.items))) }
    {
        let chain = chain_in(&self.hand, chain_of(db, key, self.chains));
        show(chain.find(key))
    }

    /// Gives the key the value, in the transaction alone.
    pub fn store(&mut self, db: Db, key: Vec<u8>, value: Vec<u8>) -> Result<(), OutOfMemory>
        requires opened { IsOpen C.Rule.step C.Rule.legal C.Rule.follows C.Rule.buries (C.quiet self.old.cells.now) (C.chains self.old.cells.now) self.old.chains self.old.stop self.old.hand.items (C.shown self.old.cells.now) }
        requires held { (chain : Pairs) × (look (chain_number db key.items self.old.chains) (chains_of self.old.hand.items) ≡ some chain) }
        ensures cells { (self.new.cells.ghost_name ≡ self.old.cells.ghost_name) × (self.new.cells.now ≡ self.old.cells.now) }
        ensures kept { (self.new.chains ≡ self.old.chains) × (self.new.stop ≡ self.old.stop) }
        ensures opened { IsOpen C.Rule.step C.Rule.legal C.Rule.follows C.Rule.buries (C.quiet self.new.cells.now) (C.chains self.new.cells.now) self.new.chains self.new.stop self.new.hand.items (C.shown self.new.cells.now) }
        ensures ok { OnOk result (let c = chain_number db key.items self.old.chains in
            self.new.hand.items ≡ with_change c (put key.items value.items (chain_in c (chains_of self.old.hand.items))) self.old.hand.items) }
        ensures err { OnErr result (self.new.hand.items ≡ self.old.hand.items) }
    {
        let c = chain_of(db, key.as_slice(), self.chains);
        put_in(&mut self.hand, c, key, value)?;
        Ok(())
    }

    /// Takes the key's value away, in the transaction alone. Takes no memory.
    pub fn delete(&mut self, db: Db, key: &[u8])
        requires opened { IsOpen C.Rule.step C.Rule.legal C.Rule.follows C.Rule.buries (C.quiet self.old.cells.now) (C.chains self.old.cells.now) self.old.chains self.old.stop self.old.hand.items (C.shown self.old.cells.now) }
        requires held { (chain : Pairs) × (look (chain_number db key.now self.old.chains) (chains_of self.old.hand.items) ≡ some chain) }
        ensures cells { (self.new.cells.ghost_name ≡ self.old.cells.ghost_name) × (self.new.cells.now ≡ self.old.cells.now) }
        ensures kept { (self.new.chains ≡ self.old.chains) × (self.new.stop ≡ self.old.stop) }
        ensures opened { IsOpen C.Rule.step C.Rule.legal C.Rule.follows C.Rule.buries (C.quiet self.new.cells.now) (C.chains self.new.cells.now) self.new.chains self.new.stop self.new.hand.items (C.shown self.new.cells.now) }
        ensures deleted { let c = chain_number db key.now self.old.chains in
            self.new.hand.items ≡ with_change c (without key.now (chain_in c (chains_of self.old.hand.items))) self.old.hand.items }
    {
        let c = chain_of(db, key, self.chains);
        remove_in(&mut self.hand, c, key);
    }

    /// Gives all chains back as they were.
    pub fn drop_all(self)
        requires opened { IsOpen C.Rule.step C.Rule.legal C.Rule.follows C.Rule.buries (C.quiet self.cells.now) (C.chains self.cells.now) self.chains self.stop self.hand.items (C.shown self.cells.now) }
        ensures goes { Goes C.bond C.chains C.quiet C.shown C.beside self.entry.cells.now self.exit.0.now }
        ensures given { HasGivenAll (C.shown self.entry.cells.now) (C.shown self.exit.0.now) }
    {
        let Txn { cells, teller, .. } = self;
        give_all_back(cells, &teller);
    }

    /// Ends a transaction that holds nothing, or whose pass has died. The cells are as they stand. Takes no memory.
    pub fn leave(self)
        requires ended { (C.shown self.cells.now).alive ≡ true → (C.shown self.cells.now).held ≡ [] }
        ensures same { self.exit.0.now ≡ self.entry.cells.now }
    {
        let Txn { cells: _, .. } = self;
    }
}

fn dies_at_first(stop: Option<Point>, hand: &[Held]) -> bool
    ensures { result ≡ dies_at_first stop (chains_of hand.now) }
{
    is_take(stop) & hand.is_empty()
}

fn is_take(stop: Option<Point>) -> bool
    ensures { result ≡ is_take stop }
{
    matches!(stop, Some(Point::Take))
}
