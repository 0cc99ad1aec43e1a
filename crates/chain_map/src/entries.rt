ghost use Rattle.std.specs.Prelude.{◌≡◌, List, [], ◌∷◌, None, IfSome, IfNone, IsTrue, not, cond};
ghost use Rattle.std.specs.Option.{option_copied};
ghost use Rattle.std.specs.Iterator.{YieldsFirstBy, YieldsFirstRef, item_count};
ghost use Rattle.chain_map.specs.Pairs.{Pairs, IsRising};
ghost use Rattle.chain_map.specs.Leaves.{joined};
ghost use Rattle.chain_map.specs.Marks.{kept_each};
ghost use Rattle.chain_map.specs.Laid.{laid, shown, ahead, IsAhead};

use crate::leaf::{Leaf, LeafPairs};
use crate::marks::Marks;
use crate::pair::Pair;
use std::cmp::Ordering;
use std::marker::Model;

/// The pairs of leaves that are left, but for those that are marked.
#[derive(Drop)]
struct Below<'a> {
    leaf: LeafPairs<'a>,
    leaves: &'a [Leaf],
    mark: u64,
    marks: &'a [u64],
}

impl<'a> Model for Below<'a> {
    ghost use Rattle.std.specs.Prelude.{◌++◌, ◌∷◌};
    ghost use Rattle.chain_map.specs.Pairs.{Pairs};
    ghost use Rattle.chain_map.specs.Leaves.{joined};
    ghost use Rattle.chain_map.specs.Marks.{kept_each};

    ghost Value = { Pairs };

    ghost view = { λ b. b.leaf ++ joined (kept_each b.leaves.now (b.mark ∷ b.marks.now)) };
}

impl<'a> Below<'a> {
    fn new(leaves: &'a [Leaf], marks: &'a Marks) -> Below<'a>
        ensures { result ≡ joined (kept_each leaves.now marks.now) }
    {
        let (mark, marks) = marks.split_first();
        Below {
            leaf: LeafPairs::none(),
            leaves,
            mark,
            marks,
        }
    }
}

impl<'a> Iterator for Below<'a> {
    type Item = &'a Pair;

    ghost next_gives = { YieldsFirstRef (λ rest. rest) };

    ghost remaining = { item_count (λ rest. rest) };

    fn next(&mut self) -> Option<&'a Pair> {
        loop {
            if let Some(pair) = self.leaf.next() {
                return Some(pair);
            }
            let (leaf, leaves) = self.leaves.split_first()?;
            self.leaf = leaf.pairs(self.mark);
            self.leaves = leaves;
            let (mark, marks) = next_mark(self.marks);
            self.mark = mark;
            self.marks = marks;
        }
    }
}

// The next leaf's mark, and those behind it.
fn next_mark(marks: &[u64]) -> (u64, &[u64])
    ensures { (leaves : List Pairs) → joined (kept_each leaves (result.0 ∷ result.1.now)) ≡ joined (kept_each leaves marks.now) }
{
    match marks.split_first() {
        Some((mark, marks)) => (*mark, marks),
        None => (0, marks),
    }
}

// The first of the pairs below, read ahead: the next one where the last was taken.
fn read_ahead<'a>(below: &mut Below<'a>, first: Option<&'a Pair>, taken: bool) -> Option<&'a Pair>
    ensures pairs { ahead (option_copied result) below.new ≡ cond taken below.old (ahead (option_copied first.entry) below.old) }
    ensures ahead { (IsTrue (not taken) → IsAhead (option_copied first.entry) below.old) → IsAhead (option_copied result) below.new }
{
    if taken { below.next() } else { first }
}

// The lesser of the first pairs of two lists, what is left of the upper list, and whether the lower one loses its first.
// Of two pairs with one key the upper one is taken, and both go.
fn lesser<'a>(over: &'a [Pair], first: Option<&'a Pair>) -> Option<(&'a Pair, &'a [Pair], bool)>
    ensures some { IfSome result (λ next. (rest : Pairs) → IsRising over.now → IsRising (ahead (option_copied first.entry) rest) →
        IsAhead (option_copied first.entry) rest → laid over.now (ahead (option_copied first.entry) rest)
        ≡ next.0.now ∷ laid next.1.now (cond next.2 rest (ahead (option_copied first.entry) rest))) }
    ensures rising { IfSome result (λ next. IsRising over.now → IsRising next.1.now) }
    ensures none { IfNone result ((over.now ≡ []) × (option_copied first.entry ≡ None)) }
{
    let Some((pair, rest)) = over.split_first() else {
        return Some((first?, over, true));
    };
    let Some(first) = first else {
        return Some((pair, rest, false));
    };
    match pair.cmp_key(first.key()) {
        Ordering::Less => Some((pair, rest, false)),
        Ordering::Equal => Some((pair, rest, true)),
        Ordering::Greater => Some((first, over, true)),
    }
}

/// The pairs of a chain that are left, in the order of their keys.
#[derive(Drop)]
pub struct ChainEntries<'a> {
    over: &'a [Pair],
    first: Option<&'a Pair>,
    below: Below<'a>,
}

impl<'a> Model for ChainEntries<'a> {
    ghost use Rattle.std.specs.Option.{option_copied};
    ghost use Rattle.chain_map.specs.Pairs.{Pairs, IsRising};
    ghost use Rattle.chain_map.specs.Laid.{laid, ahead, IsAhead};

    ghost Value = { Pairs };

    ghost view = { λ e. laid e.over.now (ahead (option_copied e.first) e.below) };

    ghost invariant = { λ e. IsRising e.over.now × (IsRising (ahead (option_copied e.first) e.below) × IsAhead (option_copied e.first) e.below) };
}

impl<'a> ChainEntries<'a> {
    pub(crate) fn new(over: &'a [Pair], leaves: &'a [Leaf], marks: &'a Marks) -> ChainEntries<'a>
        requires over { IsRising over.now }
        requires leaves { IsRising (joined leaves.now) }
        ensures { result ≡ shown leaves.now marks.now over.now }
    {
        let mut below = Below::new(leaves, marks);
        let first = read_ahead(&mut below, None, true);
        ChainEntries { over, first, below }
    }
}

impl<'a> Iterator for ChainEntries<'a> {
    type Item = (&'a [u8], &'a [u8]);

    ghost next_gives = { YieldsFirstBy (λ pair. (pair.0.now, pair.1.now)) (λ rest. rest) };

    ghost remaining = { item_count (λ rest. rest) };

    fn next(&mut self) -> Option<(&'a [u8], &'a [u8])> {
        let Some((pair, over, taken)) = lesser(self.over, self.first) else {
            return None;
        };
        self.over = over;
        self.first = read_ahead(&mut self.below, self.first, taken);
        Some((pair.key(), pair.value()))
    }
}
