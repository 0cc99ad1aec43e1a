ghost use Rattle.std.specs.Prelude.{◌≡◌, ◌<◌, ◌≤◌, ◌-◌, [], IfOk, IfErr, OnOk, OnErr, IsTrue, not, is_some, length, take, drop};
ghost use Rattle.std.specs.Option.{option_copied};
ghost use Rattle.std.specs.List.{remove};
ghost use Rattle.chain_map.specs.Pairs.{IsRising, find, put, without};
ghost use Rattle.chain_map.specs.Place.{IsAt, IsGap, pair_at};
ghost use Rattle.chain_map.specs.Marks.{kept};

use crate::marks::is_gone;
use crate::over::Over;
use crate::pair::Pair;
use sid_core::OutOfMemory;
use std::alloc::Global;
use std::cmp::Ordering;
use std::marker::Model;

/// The room that a list of pairs gets beyond its pairs where it is made anew.
pub(crate) const ROOM: usize = 8;

/// Pairs in the order of their keys.
#[derive(Drop)]
pub(crate) struct Sorted {
    pairs: Vec<Pair>,
}

impl Model for Sorted {
    ghost use Rattle.chain_map.specs.Pairs.{Pairs, IsRising};

    ghost Value = { Pairs };

    ghost view = { λ s. s.pairs.items };

    ghost invariant = { λ s. IsRising s.pairs.items };
}

impl Sorted {
    pub(crate) fn from_vec(pairs: Vec<Pair>) -> Sorted
        requires { IsRising pairs.items }
        ensures { result ≡ pairs.items }
    {
        Sorted { pairs }
    }

    /// No pairs. Takes no memory.
    pub(crate) fn new(alloc: Global) -> Sorted
        ensures { result ≡ [] }
    {
        Sorted {
            pairs: Vec::new(alloc),
        }
    }

    pub(crate) fn copy(&self) -> Result<Sorted, OutOfMemory>
        ensures { IfOk result (λ copy. copy ≡ self.now) }
    {
        Ok(Sorted {
            pairs: self.pairs.clone()?,
        })
    }

    pub(crate) fn allocator(&self) -> Global {
        *self.pairs.allocator()
    }

    pub(crate) fn as_slice(&self) -> &[Pair]
        ensures pairs { result.now ≡ self.now }
        ensures rising { IsRising self.now }
    {
        self.pairs.as_slice()
    }

    pub(crate) fn len(&self) -> usize
        ensures { result ≡ length self.now }
    {
        self.pairs.len()
    }

    // Where the key's pair is, or where it would go.
    pub(crate) fn search(&self, key: &[u8]) -> Result<usize, usize>
        ensures found { IfOk result (IsAt key.now self.now) }
        ensures absent { IfErr result (IsGap key.now self.now) }
    {
        search(self.pairs.as_slice(), key)
    }

    pub(crate) fn find(&self, key: &[u8]) -> Option<&[u8]>
        ensures { option_copied result ≡ find key.now self.now }
    {
        match self.search(key) {
            Ok(at) => Some(self.pairs[at].value()),
            Err(_) => None,
        }
    }

    pub(crate) fn put(&mut self, pair: Pair) -> Result<(), OutOfMemory>
        ensures ok { OnOk result (self.new ≡ put pair.0 pair.1 self.old) }
        ensures err { OnErr result (self.new ≡ self.old) }
    {
        match self.search(pair.key()) {
            Ok(at) => self.pairs[at] = pair,
            Err(at) => self.pairs.insert(at, pair)?,
        }
        Ok(())
    }

    pub(crate) fn remove(&mut self, key: &[u8]) -> bool
        ensures found { result ≡ is_some (find key.now self.old) }
        ensures others { self.new ≡ without key.now self.old }
    {
        match self.search(key) {
            Ok(at) => {
                self.pairs.remove(at);
                true
            }
            Err(_) => false,
        }
    }

    /// Takes the pair at this place out.
    pub(crate) fn take(&mut self, at: usize) -> Pair
        requires { at < length self.old }
        ensures pair { result ≡ pair_at self.old at }
        ensures rest { self.new ≡ remove self.old at }
    {
        self.pairs.remove(at)
    }

    /// Moves the pair at this place of another list here, where that takes no memory and makes this one no longer than
    /// `most`. Says whether it did.
    pub(crate) fn take_in(&mut self, most: usize, other: &mut Over, at: usize) -> bool
        requires { at < length other.old }
        ensures moved { IsTrue result → self.new ≡ put (pair_at other.old at).0 (pair_at other.old at).1 self.old }
        ensures taken { IsTrue result → other.new ≡ remove other.old at }
        ensures left { IsTrue (not result) → self.new ≡ self.old }
        ensures kept { IsTrue (not result) → other.new ≡ other.old }
        ensures few { length self.old ≤ most → length self.new ≤ most }
    {
        match self.search(other.as_slice()[at].key()) {
            Ok(place) => {
                self.pairs[place] = other.take(at);
                true
            }
            Err(place) => {
                let len = self.pairs.len();
                if len < most && len < self.pairs.capacity() {
                    let pair = other.take(at);
                    self.pairs.insert(place, pair).is_ok()
                } else {
                    false
                }
            }
        }
    }

    /// Makes room for as many pairs again, within `most`, and says whether there is room for one.
    pub(crate) fn grow(&mut self, most: usize) -> bool
        ensures { self.new ≡ self.old }
    {
        let len = self.pairs.len();
        len < most && self.pairs.reserve_exact((most - len).min(len)).is_ok()
    }

    /// Drops the pairs whose bits are set. Takes no memory.
    pub(crate) fn sweep(&mut self, mark: u64)
        requires { length self.old ≤ 64 }
        ensures kept { self.new ≡ kept mark 0 self.old }
        ensures fewer { length self.new ≤ length self.old }
    {
        let mut at = self.pairs.len();
        while 0 < at {
            at -= 1;
            if is_gone(mark, at) {
                self.pairs.remove(at);
            }
        }
    }

    // Takes the pairs from this place on out, into a list with room for more.
    pub(crate) fn split_off(&mut self, at: usize) -> Result<Sorted, OutOfMemory>
        requires { at ≤ length self.old }
        ensures front { OnOk result (self.new ≡ take at self.old) }
        ensures back { IfOk result (λ back. back ≡ drop at self.old) }
    {
        let mut pairs = self.pairs.split_off(at)?;
        // without the room the pairs that come are put over the chain for longer
        match pairs.reserve_exact(ROOM) {
            Ok(()) | Err(_) => {}
        }
        Ok(Sorted { pairs })
    }
}

// Where the key's pair is, or where it would go. Ends at the first pair that it meets with the key.
fn search(pairs: &[Pair], key: &[u8]) -> Result<usize, usize>
    requires { IsRising pairs.now }
    ensures found { IfOk result (IsAt key.now pairs.now) }
    ensures absent { IfErr result (IsGap key.now pairs.now) }
{
    let mut low: usize = 0;
    let mut high = pairs.len();
    while low < high {
        let mid = low + (high - low) / 2;
        match pairs[mid].cmp_key(key) {
            Ordering::Less => low = mid + 1,
            Ordering::Equal => return Ok(mid),
            Ordering::Greater => high = mid,
        }
    }
    Err(low)
}
