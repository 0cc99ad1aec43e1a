ghost use Rattle.std.specs.Prelude.{◌≡◌, ◌<◌, ◌+◌, ◌^◌, [], ◌∷◌, ◌++◌, IfOk, OnOk, OnErr, length, drop, slice_index_or, ◌≤◌, IsTrue, slice_set};
ghost use Rattle.std.specs.Int.RustNames.{bit_or};
ghost use Rattle.chain_map.specs.Marks.{is_gone, no_marks, marks_without};

use sid_core::OutOfMemory;
use std::alloc::Global;
use std::marker::Model;

/// A word for each leaf of a chain, with the bits of the pairs that this chain has taken out of it.
#[derive(Drop)]
pub(crate) struct Marks {
    first: u64,
    rest: Vec<u64>,
    // whether a bit may be set
    any: bool,
}

impl Model for Marks {
    ghost use Rattle.std.specs.Prelude.{ℕ, List, ◌∷◌, IsTrue, not};
    ghost use Rattle.chain_map.specs.Marks.{no_marks};

    ghost Value = { List ℕ };

    ghost view = { λ m. m.first ∷ m.rest.items };

    ghost invariant = { λ m. IsTrue (not m.any) → IsTrue (no_marks (m.first ∷ m.rest.items)) };
}

impl Marks {
    /// One word without bits. Takes no memory.
    pub(crate) fn new(alloc: Global) -> Marks
        ensures { result ≡ 0 ∷ [] }
    {
        Marks {
            first: 0,
            rest: Vec::new(alloc),
            any: false,
        }
    }

    /// So many words without bits, and one at least.
    pub(crate) fn clean(alloc: Global, leaves: usize) -> Result<Marks, OutOfMemory>
        ensures clean { IfOk result (λ marks. IsTrue (no_marks marks)) }
        ensures fits { IfOk result (λ marks. leaves ≤ length marks) }
    {
        let more = leaves.saturating_sub(1);
        let mut rest = Vec::with_capacity(alloc, more)?;
        rest.resize(more, 0)?;
        Ok(Marks {
            first: 0,
            rest,
            any: false,
        })
    }

    /// The first word, and the others.
    pub(crate) fn split_first(&self) -> (u64, &[u64])
        ensures { self.now ≡ result.0 ∷ result.1.now }
    {
        (self.first, self.rest.as_slice())
    }

    pub(crate) fn of(&self, leaf: usize) -> u64
        requires { leaf < length self.now }
        ensures { result ≡ slice_index_or self.now leaf 0 }
    {
        match leaf.checked_sub(1) {
            Some(at) => self.rest[at],
            None => self.first,
        }
    }

    pub(crate) fn set(&mut self, leaf: usize, mark: u64)
        requires { leaf < length self.old }
        ensures { self.new ≡ slice_set self.old leaf mark }
    {
        self.any = true;
        match leaf.checked_sub(1) {
            Some(at) => self.rest[at] = mark,
            None => self.first = mark,
        }
    }

    /// Adds a word without bits where there are fewer than this. Takes no memory for the first.
    pub(crate) fn fit(&mut self, leaves: usize) -> Result<(), OutOfMemory>
        requires clean { IsTrue (no_marks self.old) }
        requires one { leaves ≤ length self.old + 1 }
        ensures clean { IsTrue (no_marks self.new) }
        ensures ok { OnOk result (leaves ≤ length self.new) }
        ensures longer { length self.old ≤ length self.new }
    {
        if self.rest.len() + 1 < leaves {
            self.rest.push(0)?;
        }
        Ok(())
    }

    /// Drops the words beyond those of so many leaves.
    pub(crate) fn trim(&mut self, leaves: usize)
        requires clean { IsTrue (no_marks self.old) }
        requires fits { leaves ≤ length self.old }
        ensures clean { IsTrue (no_marks self.new) }
        ensures fits { leaves ≤ length self.new }
    {
        self.rest.truncate(leaves.saturating_sub(1));
    }

    /// Takes the word of a leaf out that goes.
    pub(crate) fn remove(&mut self, leaf: usize)
        requires { leaf < length self.old }
        ensures { self.new ≡ marks_without self.old leaf }
    {
        self.any = true;
        match leaf.checked_sub(1) {
            Some(at) => {
                self.rest.remove(at);
            }
            None => {
                self.first = if self.rest.is_empty() {
                    0
                } else {
                    self.rest.remove(0)
                };
            }
        }
    }

    /// Whether no bit is set. Where bits were, it is known from the next `review` on.
    pub(crate) fn is_clean(&self) -> bool
        ensures { IsTrue result → IsTrue (no_marks self.now) }
    {
        !self.any
    }

    /// Sees whether bits are set.
    pub(crate) fn review(&mut self)
        ensures { self.new ≡ self.old }
    {
        self.any = self.first != 0 || !are_clean(self.rest.as_slice());
    }

    pub(crate) fn is_word(&self) -> bool
        ensures { IsTrue result → drop 1 self.now ≡ [] }
    {
        self.rest.is_empty()
    }

    /// The words but for the first. In a function of its own, so that a copy of a chain with one leaf is short.
    #[inline(never)]
    pub(crate) fn copy_rest(&self) -> Result<Vec<u64>, OutOfMemory>
        ensures { IfOk result (λ rest. rest.items ≡ drop 1 self.now) }
    {
        Ok(Vec::from_slice(*self.rest.allocator(), self.rest.as_slice())?)
    }

    /// A copy, whose words but for the first are given.
    pub(crate) fn copy_with(&self, rest: Vec<u64>) -> Marks
        requires { rest.items ≡ drop 1 self.now }
        ensures { result ≡ self.now }
    {
        Marks {
            first: self.first,
            rest,
            any: self.any,
        }
    }
}

fn are_clean(marks: &[u64]) -> bool
    ensures { result ≡ no_marks marks.now }
{
    let mut rest = marks;
    while let Some((mark, marks)) = rest.split_first() {
        if *mark != 0 {
            return false;
        }
        rest = marks;
    }
    true
}

/// Whether the bit of the pair at this place is set.
pub(crate) fn is_gone(mark: u64, place: usize) -> bool
    requires { place < 64 }
    ensures { result ≡ is_gone mark place }
{
    (mark >> place) & 1 == 1
}

/// The word with the bit of the pair at this place.
pub(crate) fn with_gone(mark: u64, place: usize) -> u64
    requires { place < 64 }
    ensures { result ≡ bit_or mark (2 ^ place) }
{
    mark | 1 << place
}
