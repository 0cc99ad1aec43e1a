ghost use Rattle.std.specs.Prelude.{◌≡◌, ◌<◌, ◌≤◌, [], IfOk, IfSome, IfErr, OnOk, OnErr, IsTrue, not, length};
ghost use Rattle.std.specs.Option.{option_copied};
ghost use Rattle.std.specs.List.{remove};
ghost use Rattle.std.specs.Iterator.{YieldsFirstRef, item_count};
ghost use Rattle.chain_map.specs.Pairs.{IsRising, put};
ghost use Rattle.chain_map.specs.Leaves.{has_pairs, both, both_have_pairs, starts_by};
ghost use Rattle.chain_map.specs.Marks.{kept};
ghost use Rattle.chain_map.specs.Place.{IsAt, IsGap, pair_at};

use crate::marks::is_gone;
use crate::over::Over;
use crate::pair::Pair;
use crate::sorted::{ROOM, Sorted};
use sid_core::OutOfMemory;
use std::alloc::{AllocError, Global};
use std::marker::Model;
use std::sync::Arc;

/// The most pairs of a leaf: a mark has a bit for each.
pub(crate) const MOST: usize = 64;

/// How many pairs are put over the leaves before a `put` merges them.
pub(crate) const LATEST: usize = 8;

/// Up to 64 pairs, which several chains may share.
#[derive(Drop)]
pub(crate) struct Leaf {
    pairs: Arc<Sorted, Global>,
}

impl Model for Leaf {
    ghost use Rattle.std.specs.Prelude.{◌≤◌, length};
    ghost use Rattle.std.specs.Arc.{arc_value};
    ghost use Rattle.chain_map.specs.Pairs.{Pairs, IsRising};

    ghost Value = { Pairs };

    ghost view = { λ l. arc_value l.pairs };

    ghost invariant = { λ l. length (arc_value l.pairs) ≤ 64 };
}

impl Leaf {
    pub(crate) fn new(alloc: Global, pairs: Sorted) -> Result<Leaf, OutOfMemory>
        requires { length pairs ≤ 64 }
        ensures { IfOk result (λ leaf. leaf ≡ pairs) }
    {
        Ok(Leaf {
            pairs: Arc::new(alloc, pairs)?,
        })
    }

    /// A leaf without pairs, with room for some.
    pub(crate) fn with_room(alloc: Global) -> Result<Leaf, OutOfMemory>
        ensures { IfOk result (λ leaf. leaf ≡ []) }
    {
        Leaf::new(alloc, Sorted::from_vec(Vec::with_capacity(alloc, ROOM)?))
    }

    pub(crate) fn as_slice(&self) -> &[Pair]
        ensures pairs { result.now ≡ self.now }
        ensures rising { IsRising self.now }
        ensures few { length self.now ≤ 64 }
    {
        self.pairs.as_slice()
    }

    // Where the key's pair is, or where it would go.
    pub(crate) fn search(&self, key: &[u8]) -> Result<usize, usize>
        ensures found { IfOk result (IsAt key.now self.now) }
        ensures absent { IfErr result (IsGap key.now self.now) }
        ensures few { length self.now ≤ 64 }
    {
        self.pairs.search(key)
    }

    /// Whether the first key is this one or less.
    pub(crate) fn starts_by(&self, key: &[u8]) -> bool
        ensures { result ≡ starts_by key.now self.now }
    {
        match self.pairs.as_slice().first() {
            Some(first) => first.cmp_key(key).is_le(),
            None => false,
        }
    }

    /// Moves the pair at this place of a list here, where no other chain has the leaf and there is room. Takes no memory.
    /// Says whether it did.
    pub(crate) fn take_in(&mut self, other: &mut Over, at: usize) -> bool
        requires { at < length other.old }
        ensures moved { IsTrue result → self.new ≡ put (pair_at other.old at).0 (pair_at other.old at).1 self.old }
        ensures taken { IsTrue result → other.new ≡ remove other.old at }
        ensures left { IsTrue (not result) → self.new ≡ self.old }
        ensures kept { IsTrue (not result) → other.new ≡ other.old }
    {
        match Arc::get_mut(&mut self.pairs) {
            Some(pairs) => pairs.take_in(MOST, other, at),
            None => false,
        }
    }

    /// Makes room for a pair where no other chain has the leaf and it isn't full. Says whether it did.
    pub(crate) fn grow(&mut self) -> bool
        ensures { self.new ≡ self.old }
    {
        match Arc::get_mut(&mut self.pairs) {
            Some(pairs) => pairs.grow(MOST),
            None => false,
        }
    }

    /// Drops the pairs whose bits are set, where no other chain has the leaf. Takes no memory. Says whether it did.
    pub(crate) fn sweep(&mut self, mark: u64) -> bool
        ensures swept { IsTrue result → self.new ≡ kept mark 0 self.old }
        ensures left { IsTrue (not result) → self.new ≡ self.old }
    {
        match Arc::get_mut(&mut self.pairs) {
            Some(pairs) => {
                pairs.sweep(mark);
                true
            }
            None => false,
        }
    }

    // Copies of the pairs whose bits aren't set, in a list with this room.
    fn copied(&self, alloc: Global, mark: u64, room: usize) -> Result<Sorted, OutOfMemory>
        ensures pairs { IfOk result (λ pairs. pairs ≡ kept mark 0 self.now) }
        ensures few { IfOk result (λ pairs. length pairs ≤ 64) }
    {
        let mut pairs = Vec::with_capacity(alloc, room)?;
        for pair in self.pairs(mark) {
            pairs.push(pair.clone()?)?;
        }
        Ok(Sorted::from_vec(pairs))
    }

    /// A leaf of the pairs whose bits aren't set: this one where none is, else one of copies.
    pub(crate) fn without_marks(&self, alloc: Global, mark: u64) -> Result<Leaf, OutOfMemory>
        ensures { IfOk result (λ leaf. leaf ≡ kept mark 0 self.now) }
    {
        if mark == 0 {
            return Ok(self.clone()?);
        }
        Leaf::new(alloc, self.copied(alloc, mark, MOST)?)
    }

    /// Copies of the pairs, with room for one with this key: in one leaf, or in two where the leaf is full and lacks the
    /// key. The leaf may be the chain's first and its last.
    pub(crate) fn opened(
        &self,
        alloc: Global,
        key: &[u8],
        is_first: bool,
        is_last: bool,
    ) -> Result<(Leaf, Option<Leaf>), OutOfMemory>
        requires { IsTrue (has_pairs self.now) }
        ensures pairs { IfOk result (λ leaves. both leaves.0 leaves.1 ≡ self.now) }
        ensures filled { IfOk result (λ leaves. IsTrue (both_have_pairs leaves.0 leaves.1)) }
    {
        let len = self.as_slice().len();
        let mut pairs = self.copied(alloc, 0, MOST.min(2 * len + LATEST))?;
        if len == MOST
            && let Err(place) = self.search(key)
        {
            let back = pairs.split_off(cut(place, is_first, is_last))?;
            return Ok((Leaf::new(alloc, pairs)?, Some(Leaf::new(alloc, back)?)));
        }
        Ok((Leaf::new(alloc, pairs)?, None))
    }

    pub(crate) fn pairs(&self, mark: u64) -> LeafPairs<'_>
        ensures pairs { result ≡ kept mark 0 self.now }
        ensures rising { IsRising self.now }
        ensures few { length self.now ≤ 64 }
    {
        LeafPairs {
            pairs: self.pairs.as_slice(),
            mark,
            place: 0,
        }
    }
}

// Where a full leaf is split for a key that goes to this place. At an end of the chain only the pairs behind the key go,
// or those before it, and one at least, so that keys that rise or fall leave full leaves behind.
fn cut(place: usize, is_first: bool, is_last: bool) -> usize
    ensures { (0 < result) × (result < 64) }
{
    if is_last && MOST - LATEST <= place {
        place.min(MOST - 1)
    } else if is_first && place <= LATEST {
        place.max(1)
    } else {
        MOST / 2
    }
}

impl Clone for Leaf {
    ghost is_clone = { λ leaf copy. copy ≡ leaf };

    fn clone(&self) -> Result<Leaf, AllocError> {
        Ok(Leaf {
            pairs: self.pairs.clone()?,
        })
    }
}

/// The pairs of a leaf that are left, but for those that are marked.
#[derive(Drop)]
pub(crate) struct LeafPairs<'a> {
    pairs: &'a [Pair],
    mark: u64,
    place: usize,
}

impl<'a> Model for LeafPairs<'a> {
    ghost use Rattle.std.specs.Prelude.{◌+◌, ◌≤◌, length};
    ghost use Rattle.chain_map.specs.Pairs.{Pairs};
    ghost use Rattle.chain_map.specs.Marks.{kept};

    ghost Value = { Pairs };

    ghost view = { λ p. kept p.mark p.place p.pairs.now };

    ghost invariant = { λ p. p.place + length p.pairs.now ≤ 64 };
}

impl<'a> LeafPairs<'a> {
    pub(crate) fn none() -> LeafPairs<'a>
        ensures { result ≡ [] }
    {
        LeafPairs {
            pairs: &[],
            mark: 0,
            place: 0,
        }
    }
}

impl<'a> Iterator for LeafPairs<'a> {
    type Item = &'a Pair;

    ghost next_gives = { YieldsFirstRef (λ rest. rest) };

    ghost remaining = { item_count (λ rest. rest) };

    fn next(&mut self) -> Option<&'a Pair> {
        while let Some((pair, pairs)) = self.pairs.split_first() {
            let place = self.place;
            self.pairs = pairs;
            self.place = place + 1;
            if !is_gone(self.mark, place) {
                return Some(pair);
            }
        }
        None
    }
}
