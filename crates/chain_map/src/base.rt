ghost use Rattle.std.specs.Prelude.{◌≡◌, ◌<◌, ◌≤◌, ◌+◌, ◌++◌, [], None, IfOk, IfSome, IfNone, OnOk, OnErr, length};
ghost use Rattle.chain_map.specs.Pairs.{IsRising, find};
ghost use Rattle.chain_map.specs.Leaves.{joined, IsFilled, IsHome, IsSpot, spliced};
ghost use Rattle.chain_map.specs.Marks.{kept_each};
ghost use Rattle.chain_map.specs.Laid.{laid};

use crate::leaf::Leaf;
use crate::marks::Marks;
use crate::over::Over;
use sid_core::OutOfMemory;
use std::alloc::{AllocError, Global};
use std::marker::Model;

/// The leaves of a chain, which its copies share. None is empty.
#[derive(Drop)]
pub(crate) struct Base {
    leaves: Vec<Leaf>,
}

impl Model for Base {
    ghost use Rattle.std.specs.Prelude.{List};
    ghost use Rattle.chain_map.specs.Pairs.{Pairs, IsRising};
    ghost use Rattle.chain_map.specs.Leaves.{joined, IsFilled};

    ghost Value = { List Pairs };

    ghost view = { λ b. b.leaves.items };

    ghost invariant = { λ b. IsRising (joined b.leaves.items) × IsFilled b.leaves.items };
}

impl Base {
    pub(crate) fn new(alloc: Global) -> Base
        ensures { result ≡ [] }
    {
        Base {
            leaves: Vec::new(alloc),
        }
    }

    pub(crate) fn as_slice(&self) -> &[Leaf]
        ensures leaves { result.now ≡ self.now }
        ensures rising { IsRising (joined self.now) }
        ensures filled { IsFilled self.now }
    {
        self.leaves.as_slice()
    }

    /// Moves the pair at this place of a list to its leaf, as `Leaf::take_in` does.
    pub(crate) fn take_in(&mut self, over: &mut Over, at: usize) -> bool
        requires { at < length over.old }
        ensures same { laid over.new (joined self.new) ≡ laid over.old (joined self.old) }
        ensures fewer { length over.old ≤ length over.new + 1 }
        ensures len { length self.new ≡ length self.old }
    {
        if self.leaves.is_empty() {
            return false;
        }
        let home = home(self.leaves.as_slice(), over.as_slice()[at].key());
        self.leaves[home].take_in(over, at)
    }

    /// Moves each pair of a list to its leaf that can go there.
    pub(crate) fn take_in_all(&mut self, over: &mut Over)
        ensures same { laid over.new (joined self.new) ≡ laid over.old (joined self.old) }
        ensures len { length self.new ≡ length self.old }
    {
        let mut at = over.len();
        while 0 < at {
            at -= 1;
            self.take_in(over, at);
        }
    }

    /// Moves the last pair of a list to its leaf, or to a new one.
    pub(crate) fn merge_last(&mut self, over: &mut Over) -> Result<(), OutOfMemory>
        ensures same { laid over.new (joined self.new) ≡ laid over.old (joined self.old) }
        ensures len { length self.new ≤ length self.old + 1 }
    {
        let alloc = over.allocator();
        let Some(last) = over.len().checked_sub(1) else {
            return Ok(());
        };
        if self.leaves.is_empty() {
            return self.start(alloc, over, last);
        }
        if self.take_in(over, last) {
            return Ok(());
        }
        self.merge_at(alloc, over)
    }

    // The same where the leaf has no room yet.
    fn merge_at(&mut self, alloc: Global, over: &mut Over) -> Result<(), OutOfMemory>
        requires { 0 < length self.old }
        ensures same { laid over.new (joined self.new) ≡ laid over.old (joined self.old) }
        ensures len { length self.new ≤ length self.old + 1 }
    {
        let Some(last) = over.len().checked_sub(1) else {
            return Ok(());
        };
        self.make_room(alloc, over.as_slice()[last].key())?;
        self.take_in(over, last);
        Ok(())
    }

    /// Drops what is marked, where no other chain has its leaf, with the leaves that it leaves empty. Takes no memory.
    pub(crate) fn sweep(&mut self, marks: &mut Marks)
        requires { length self.old ≤ length marks.old }
        ensures pairs { joined (kept_each self.new marks.new) ≡ joined (kept_each self.old marks.old) }
        ensures fits { length self.new ≤ length marks.new }
    {
        let mut at = self.leaves.len();
        while 0 < at {
            at -= 1;
            sweep_leaf(&mut self.leaves, marks, at);
        }
    }

    /// The same leaves, with copies of those that are marked.
    pub(crate) fn without_marks(&self, alloc: Global, marks: &Marks) -> Result<Base, OutOfMemory>
        requires { length self.now ≤ length marks.now }
        ensures { IfOk result (λ base. joined base ≡ joined (kept_each self.now marks.now)) }
    {
        let mut leaves = Vec::with_capacity(alloc, self.leaves.len())?;
        let mut at: usize = 0;
        while at < self.leaves.len() {
            let leaf = self.leaves[at].without_marks(alloc, marks.of(at))?;
            push_filled(&mut leaves, leaf)?;
            at += 1;
        }
        Ok(Base { leaves })
    }

    // Makes room for a pair with this key in a leaf that no other chain has.
    fn make_room(&mut self, alloc: Global, key: &[u8]) -> Result<(), OutOfMemory>
        requires { 0 < length self.old }
        ensures pairs { joined self.new ≡ joined self.old }
        ensures len { length self.new ≤ length self.old + 1 }
    {
        if self.grow(key) {
            return Ok(());
        }
        self.open(alloc, key)
    }

    // The same in place, where that can be. Says whether it could.
    fn grow(&mut self, key: &[u8]) -> bool
        requires { 0 < length self.old }
        ensures { self.new ≡ self.old }
    {
        let home = home(self.leaves.as_slice(), key);
        self.leaves[home].grow()
    }

    // The same by copies of the leaf's pairs, in one leaf or in two.
    fn open(&mut self, alloc: Global, key: &[u8]) -> Result<(), OutOfMemory>
        requires { 0 < length self.old }
        ensures pairs { joined self.new ≡ joined self.old }
        ensures len { length self.new ≤ length self.old + 1 }
    {
        let home = home(self.leaves.as_slice(), key);
        let is_last = home + 1 == self.leaves.len();
        let (leaf, next) = self.leaves[home].opened(alloc, key, home == 0, is_last)?;
        splice(&mut self.leaves, home, leaf, next)?;
        Ok(())
    }

    // Makes the pair at this place of a list the first leaf.
    fn start(&mut self, alloc: Global, over: &mut Over, at: usize) -> Result<(), OutOfMemory>
        requires none { self.old ≡ [] }
        requires at { at < length over.old }
        ensures same { laid over.new (joined self.new) ≡ laid over.old (joined self.old) }
        ensures len { length self.new ≤ 1 }
    {
        let _rising = over.as_slice();
        let mut leaf = Leaf::with_room(alloc)?;
        self.leaves.reserve_exact(1)?;
        if leaf.take_in(over, at) {
            self.leaves.push_reserved(leaf);
        }
        Ok(())
    }
}

/// The leaf where the key is, if it is anywhere.
#[inline(always)]
fn home(leaves: &[Leaf], key: &[u8]) -> usize
    requires some { 0 < length leaves.now }
    requires rising { IsRising (joined leaves.now) }
    requires filled { IsFilled leaves.now }
    ensures home { IsHome key.now leaves.now result }
    ensures within { result < length leaves.now }
{
    if leaves.len() == 1 {
        return 0;
    }
    home_of_several(leaves, key)
}

// The same, in a function of its own, so that the above is short.
#[inline(never)]
fn home_of_several(leaves: &[Leaf], key: &[u8]) -> usize
    requires some { 0 < length leaves.now }
    requires rising { IsRising (joined leaves.now) }
    requires filled { IsFilled leaves.now }
    ensures home { IsHome key.now leaves.now result }
    ensures within { result < length leaves.now }
{
    leaves
        .partition_point(|leaf| leaf.starts_by(key))
        .saturating_sub(1)
}

/// The leaf that has the key, and the place of its pair there.
pub(crate) fn spot(leaves: &[Leaf], key: &[u8]) -> Option<(usize, usize)>
    requires rising { IsRising (joined leaves.now) }
    requires filled { IsFilled leaves.now }
    ensures some { IfSome result (λ spot. IsSpot key.now leaves.now spot.0 spot.1) }
    ensures leaf { IfSome result (λ spot. spot.0 < length leaves.now) }
    ensures place { IfSome result (λ spot. spot.1 < 64) }
    ensures none { IfNone result (find key.now (joined leaves.now) ≡ None) }
{
    if leaves.is_empty() {
        return None;
    }
    let leaf = home(leaves, key);
    match leaves[leaf].search(key) {
        Ok(place) => Some((leaf, place)),
        Err(_) => None,
    }
}

// Drops what is marked of one leaf, and the leaf where it has nothing else.
fn sweep_leaf(leaves: &mut Vec<Leaf>, marks: &mut Marks, at: usize)
    requires at { at < length leaves.old.items }
    requires rising { IsRising (joined leaves.old.items) }
    requires filled { IsFilled leaves.old.items }
    requires fits { length leaves.old.items ≤ length marks.old }
    ensures pairs { joined (kept_each leaves.new.items marks.new) ≡ joined (kept_each leaves.old.items marks.old) }
    ensures rising { IsRising (joined leaves.new.items) }
    ensures filled { IsFilled leaves.new.items }
    ensures fits { length leaves.new.items ≤ length marks.new }
    ensures before { at ≤ length leaves.new.items }
{
    let mark = marks.of(at);
    if mark == 0 || !leaves[at].sweep(mark) {
        return;
    }
    if leaves[at].as_slice().is_empty() {
        leaves.remove(at);
        marks.remove(at);
    } else {
        marks.set(at, 0);
    }
}

// Adds a leaf, if it has pairs.
fn push_filled(leaves: &mut Vec<Leaf>, leaf: Leaf) -> Result<(), OutOfMemory>
    ensures pairs { OnOk result (joined leaves.new.items ≡ joined leaves.old.items ++ leaf) }
    ensures filled { OnOk result (IsFilled leaves.old.items → IsFilled leaves.new.items) }
{
    if !leaf.as_slice().is_empty() {
        leaves.push(leaf)?;
    }
    Ok(())
}

// Puts one leaf or two into the place of this one.
fn splice(
    leaves: &mut Vec<Leaf>,
    at: usize,
    leaf: Leaf,
    next: Option<Leaf>,
) -> Result<(), OutOfMemory>
    requires { at < length leaves.old.items }
    ensures ok { OnOk result (leaves.new.items ≡ spliced leaves.old.items at leaf next) }
    ensures err { OnErr result (leaves.new.items ≡ leaves.old.items) }
{
    match next {
        Some(next) => {
            leaves.insert(at + 1, next)?;
            leaves[at] = leaf;
            Ok(())
        }
        None => {
            leaves[at] = leaf;
            Ok(())
        }
    }
}
