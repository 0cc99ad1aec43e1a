ghost use Rattle.std.specs.Prelude.{◌≡◌, ◌≤◌, [], IfOk, OnOk, OnErr, is_some, length, take, drop};
ghost use Rattle.std.specs.Option.{option_copied};
ghost use Rattle.chain_map.specs.Pairs.{IsRising, find, put, without};
ghost use Rattle.chain_map.specs.Leaves.{joined, IsFilled};
ghost use Rattle.chain_map.specs.Marks.{kept_each};
ghost use Rattle.chain_map.specs.Laid.{laid, leaves_of, shown};

use crate::base::{Base, spot};
use crate::entries::ChainEntries;
use crate::leaf::{LATEST, Leaf};
use crate::marks::{Marks, is_gone, with_gone};
use crate::over::Over;
use crate::pair::Pair;
use sid_core::OutOfMemory;
use std::alloc::Global;
use std::marker::Model;
use std::sync::Arc;

/// How much a chain holds.
#[derive(Clone, Copy)]
pub struct Held {
    pub leaves: usize,
    /// The pairs of its leaves, with those that the chain has taken out of them.
    pub pairs: usize,
    /// The pairs that are put over the leaves.
    pub over: usize,
}

/// Keys and their values, in the order of the keys as byte strings. Copies share leaves of up to 64 pairs; each has the
/// pairs to itself that were put over them, and marks for those that it has taken out.
#[derive(Drop)]
pub struct Chain {
    base: Option<Arc<Base, Global>>,
    over: Over,
    marks: Marks,
    /// Whether pairs lay over the leaves already when this chain was copied.
    is_due: bool,
}

impl Model for Chain {
    ghost use Rattle.std.specs.Prelude.{◌≤◌, length};
    ghost use Rattle.chain_map.specs.Pairs.{Pairs};
    ghost use Rattle.chain_map.specs.Laid.{leaves_of, shown};

    ghost Value = { Pairs };

    ghost view = { λ c. shown (leaves_of c.base) c.marks c.over };

    ghost invariant = { λ c. length (leaves_of c.base) ≤ length c.marks };
}

impl Chain {
    /// A chain without pairs. Takes no memory.
    pub fn new(alloc: Global) -> Chain
        ensures { result ≡ [] }
    {
        Chain {
            base: None,
            over: Over::new(alloc),
            marks: Marks::new(alloc),
            is_due: false,
        }
    }

    /// Compares a logarithm of the chain's length of keys. Takes no memory.
    pub fn find(&self, key: &[u8]) -> Option<&[u8]>
        ensures value { option_copied result ≡ find key.now self.now }
        ensures rising { IsRising self.now }
    {
        let leaves = leaves_of(&self.base);
        match self.over.find(key) {
            Some(value) => Some(value),
            None => find_below(leaves, &self.marks, key),
        }
    }

    /// Adds the pair, or gives its key the new value. Compares a logarithm of the chain's length of keys. Where no copy
    /// has the leaves, the pair goes into its leaf; else it is put over them.
    pub fn put(&mut self, key: Vec<u8>, value: Vec<u8>) -> Result<(), OutOfMemory>
        ensures ok { OnOk result (self.new ≡ put key.items value.items self.old) }
        ensures err { OnErr result (self.new ≡ self.old) }
    {
        let key_len = key.len();
        let mut bytes = key;
        bytes.reserve_exact(value.len())?;
        bytes.extend_from_slice(value.as_slice())?;
        self.put_packed(bytes, key_len)
    }

    /// As `put`, of a pair whose value's bytes stand behind its key's. Their block becomes the pair's, so that a record that
    /// is packed behind its key isn't copied.
    pub fn put_packed(&mut self, bytes: Vec<u8>, key_len: usize) -> Result<(), OutOfMemory>
        requires { key_len ≤ length bytes.items }
        ensures ok { OnOk result (self.new ≡ put (take key_len bytes.items) (drop key_len bytes.items) self.old) }
        ensures err { OnErr result (self.new ≡ self.old) }
    {
        relieve(&mut self.base, &mut self.over, &mut self.marks, self.is_due)?;
        self.is_due = false;
        let _rising = leaves_of(&self.base);
        self.over.put(Pair::packed(bytes, key_len))?;
        place(&mut self.base, &mut self.over, &mut self.marks);
        Ok(())
    }

    /// Takes the pair with the key out, and says whether there was one. Takes no memory.
    pub fn remove(&mut self, key: &[u8]) -> bool
        ensures found { result ≡ is_some (find key.now self.old) }
        ensures others { self.new ≡ without key.now self.old }
    {
        let over = self.over.remove(key);
        let below = take_out(leaves_of(&self.base), &mut self.marks, key);
        over | below
    }

    /// Copies a pointer and the marks, a word for each leaf, and what is put over the leaves.
    #[inline(always)]
    pub fn copy(&self) -> Result<Chain, OutOfMemory>
        ensures { IfOk result (λ chain. chain ≡ self.now) }
    {
        let over = if self.over.is_empty() {
            Over::new(self.over.allocator())
        } else {
            self.over.copy()?
        };
        let rest = if self.marks.is_word() {
            Vec::new(self.over.allocator())
        } else {
            self.marks.copy_rest()?
        };
        Ok(Chain {
            base: self.base.clone()?,
            over,
            marks: self.marks.copy_with(rest),
            is_due: !self.over.is_empty(),
        })
    }

    /// Writes what is put over the leaves into them and drops what was taken out, where no copy has them. Takes no memory;
    /// a pair that has no room stays where it is. It is to be called where a copy that was changed is kept and the chain
    /// that it was copied from is gone: copies cost less then.
    pub fn settle(&mut self)
        ensures { self.new ≡ self.old }
    {
        settle(&mut self.base, &mut self.over, &mut self.marks);
    }

    /// What the chain takes. No clause speaks of it; it is for tests and measurements.
    pub fn held(&self) -> Held {
        let leaves = leaves_of(&self.base);
        let mut pairs: usize = 0;
        for leaf in leaves {
            pairs = pairs.saturating_add(leaf.as_slice().len());
        }
        Held {
            leaves: leaves.len(),
            pairs,
            over: self.over.len(),
        }
    }

    /// The pairs in the order of their keys. Takes no memory.
    pub fn entries(&self) -> ChainEntries<'_>
        ensures list { result ≡ self.now }
        ensures rising { IsRising self.now }
    {
        ChainEntries::new(self.over.as_slice(), leaves_of(&self.base), &self.marks)
    }
}

fn leaves_of(base: &Option<Arc<Base, Global>>) -> &[Leaf]
    ensures leaves { result.now ≡ leaves_of base.now }
    ensures rising { IsRising (joined (leaves_of base.now)) }
    ensures filled { IsFilled (leaves_of base.now) }
{
    match base {
        Some(base) => base.as_slice(),
        None => &[],
    }
}

// The value under the key in the leaves.
fn find_below<'a>(leaves: &'a [Leaf], marks: &Marks, key: &[u8]) -> Option<&'a [u8]>
    requires rising { IsRising (joined leaves.now) }
    requires filled { IsFilled leaves.now }
    requires fits { length leaves.now ≤ length marks.now }
    ensures { option_copied result ≡ find key.now (joined (kept_each leaves.now marks.now)) }
{
    let (leaf, place) = spot(leaves, key)?;
    let pairs = leaves[leaf].as_slice();
    if is_gone(marks.of(leaf), place) {
        None
    } else {
        Some(pairs[place].value())
    }
}

// Marks the key's pair in the leaves, and says whether there was one.
fn take_out(leaves: &[Leaf], marks: &mut Marks, key: &[u8]) -> bool
    requires rising { IsRising (joined leaves.now) }
    requires filled { IsFilled leaves.now }
    requires fits { length leaves.now ≤ length marks.old }
    ensures found { result ≡ is_some (find key.now (joined (kept_each leaves.now marks.old))) }
    ensures others { joined (kept_each leaves.now marks.new) ≡ without key.now (joined (kept_each leaves.now marks.old)) }
    ensures fits { length marks.new ≡ length marks.old }
{
    let Some((leaf, place)) = spot(leaves, key) else {
        return false;
    };
    let mark = marks.of(leaf);
    if is_gone(mark, place) {
        return false;
    }
    marks.set(leaf, with_gone(mark, place));
    true
}

fn settle(base: &mut Option<Arc<Base, Global>>, over: &mut Over, marks: &mut Marks)
    requires { length (leaves_of base.old) ≤ length marks.old }
    ensures same { shown (leaves_of base.new) marks.new over.new ≡ shown (leaves_of base.old) marks.old over.old }
    ensures fits { length (leaves_of base.new) ≤ length marks.new }
{
    if let Some(base) = base
        && let Some(base) = Arc::get_mut(base)
    {
        settle_own(base, over, marks);
    }
}

// The same where no copy has the leaves.
fn settle_own(base: &mut Base, over: &mut Over, marks: &mut Marks)
    requires { length base.old ≤ length marks.old }
    ensures same { shown base.new marks.new over.new ≡ shown base.old marks.old over.old }
    ensures fits { length base.new ≤ length marks.new }
{
    if marks.is_clean() {
        base.take_in_all(over);
        return;
    }
    base.sweep(marks);
    marks.review();
    if marks.is_clean() {
        base.take_in_all(over);
    }
}

// Finds a place for the first pair that is put over the leaves, if it can.
fn place(base: &mut Option<Arc<Base, Global>>, over: &mut Over, marks: &mut Marks)
    requires { length (leaves_of base.old) ≤ length marks.old }
    ensures same { shown (leaves_of base.new) marks.new over.new ≡ shown (leaves_of base.old) marks.old over.old }
    ensures fits { length (leaves_of base.new) ≤ length marks.new }
{
    if over.len() != 1 {
        return;
    }
    settle(base, over, marks);
    if over.len() != 0 && !is_shared(base) {
        match merge(base, over, marks) {
            Ok(()) | Err(_) => {}
        }
    }
}

fn is_shared(base: &Option<Arc<Base, Global>>) -> bool {
    match base {
        Some(base) => Arc::strong_count(base) != 1,
        None => false,
    }
}

// Merges what is put over the leaves where that is due, or has become much.
fn relieve(
    base: &mut Option<Arc<Base, Global>>,
    over: &mut Over,
    marks: &mut Marks,
    is_due: bool,
) -> Result<(), OutOfMemory>
    requires { length (leaves_of base.old) ≤ length marks.old }
    ensures same { shown (leaves_of base.new) marks.new over.new ≡ shown (leaves_of base.old) marks.old over.old }
    ensures fits { length (leaves_of base.new) ≤ length marks.new }
{
    if is_due || LATEST <= over.len() {
        return merge(base, over, marks);
    }
    Ok(())
}

// Writes what is put over the leaves into them, into copies of those that others share.
fn merge(
    base: &mut Option<Arc<Base, Global>>,
    over: &mut Over,
    marks: &mut Marks,
) -> Result<(), OutOfMemory>
    requires { length (leaves_of base.old) ≤ length marks.old }
    ensures same { shown (leaves_of base.new) marks.new over.new ≡ shown (leaves_of base.old) marks.old over.old }
    ensures fits { length (leaves_of base.new) ≤ length marks.new }
{
    own(base, over.allocator(), marks)?;
    let mut left = over.len();
    while 0 < left {
        left -= 1;
        if let Some(base) = base
            && let Some(base) = Arc::get_mut(base)
        {
            merge_last(base, over, marks)?;
        }
    }
    Ok(())
}

// Makes leaves of the leaves that no copy has, without marks.
fn own(
    base: &mut Option<Arc<Base, Global>>,
    alloc: Global,
    marks: &mut Marks,
) -> Result<(), OutOfMemory>
    requires { length (leaves_of base.old) ≤ length marks.old }
    ensures same { joined (kept_each (leaves_of base.new) marks.new) ≡ joined (kept_each (leaves_of base.old) marks.old) }
    ensures fits { length (leaves_of base.new) ≤ length marks.new }
{
    if !leaves_of(base).is_empty() && !is_shared(base) && marks.is_clean() {
        return Ok(());
    }
    let fresh = fresh(base, alloc, marks)?;
    let clean = Marks::clean(alloc, fresh.as_slice().len())?;
    let fresh = Arc::new(alloc, fresh)?;
    *base = Some(fresh);
    *marks = clean;
    Ok(())
}

fn fresh(
    base: &Option<Arc<Base, Global>>,
    alloc: Global,
    marks: &Marks,
) -> Result<Base, OutOfMemory>
    requires { length (leaves_of base.now) ≤ length marks.now }
    ensures { IfOk result (λ fresh. joined fresh ≡ joined (kept_each (leaves_of base.now) marks.now)) }
{
    match base {
        Some(base) => base.without_marks(alloc, marks),
        None => Ok(Base::new(alloc)),
    }
}

// Writes the last pair that is put over the leaves into them.
fn merge_last(base: &mut Base, over: &mut Over, marks: &mut Marks) -> Result<(), OutOfMemory>
    requires { length base.old ≤ length marks.old }
    ensures same { shown base.new marks.new over.new ≡ shown base.old marks.old over.old }
    ensures fits { length base.new ≤ length marks.new }
{
    if marks.is_clean() {
        marks.fit(base.as_slice().len() + 1)?;
        base.merge_last(over)?;
        marks.trim(base.as_slice().len());
    }
    Ok(())
}
