ghost use Rattle.std.specs.Prelude.{◌≡◌, ◌<◌, [], ◌∷◌, IfOk, IfErr, OnOk, OnErr, IsTrue, is_some, length};
ghost use Rattle.std.specs.Option.{option_copied};
ghost use Rattle.std.specs.List.{remove};
ghost use Rattle.chain_map.specs.Pairs.{IsRising, find, put, without};
ghost use Rattle.chain_map.specs.Place.{pair_at};

use crate::pair::Pair;
use crate::sorted::{ROOM, Sorted};
use sid_core::OutOfMemory;
use std::alloc::Global;
use std::cmp::Ordering;
use std::marker::Model;
use std::{mem, slice};

// One pair takes no list.
#[derive(Drop)]
enum Form {
    Empty,
    One(Pair),
    Several(Sorted),
}

/// The pairs that are put over the leaves of a chain, in the order of their keys.
#[derive(Drop)]
pub(crate) struct Over {
    form: Form,
    alloc: Global,
}

impl Model for Over {
    ghost use Rattle.chain_map.specs.Pairs.{Pairs};
    ghost use Rattle.chain_map.specs.Over.{pairs_of};

    ghost Value = { Pairs };

    ghost view = { λ o. pairs_of o.form };
}

impl Over {
    /// No pairs. Takes no memory.
    pub(crate) fn new(alloc: Global) -> Over
        ensures { result ≡ [] }
    {
        Over {
            form: Form::Empty,
            alloc,
        }
    }

    // In a function of its own, so that a copy of a chain is short where nothing is put over its leaves.
    #[inline(never)]
    pub(crate) fn copy(&self) -> Result<Over, OutOfMemory>
        ensures { IfOk result (λ copy. copy ≡ self.now) }
    {
        let form = match &self.form {
            Form::Empty => Form::Empty,
            Form::One(pair) => Form::One(pair.clone()?),
            Form::Several(pairs) => Form::Several(pairs.copy()?),
        };
        Ok(Over {
            form,
            alloc: self.alloc,
        })
    }

    pub(crate) fn allocator(&self) -> Global {
        self.alloc
    }

    pub(crate) fn is_empty(&self) -> bool
        ensures { IsTrue result → self.now ≡ [] }
    {
        match &self.form {
            Form::Empty => true,
            Form::One(_) | Form::Several(_) => false,
        }
    }

    pub(crate) fn as_slice(&self) -> &[Pair]
        ensures pairs { result.now ≡ self.now }
        ensures rising { IsRising self.now }
    {
        match &self.form {
            Form::Empty => &[],
            Form::One(pair) => slice::from_ref(pair),
            Form::Several(pairs) => pairs.as_slice(),
        }
    }

    pub(crate) fn len(&self) -> usize
        ensures { result ≡ length self.now }
    {
        match &self.form {
            Form::Empty => 0,
            Form::One(_) => 1,
            Form::Several(pairs) => pairs.len(),
        }
    }

    pub(crate) fn find(&self, key: &[u8]) -> Option<&[u8]>
        ensures { option_copied result ≡ find key.now self.now }
    {
        match &self.form {
            Form::Empty => None,
            Form::One(pair) => pair.value_under(key),
            Form::Several(pairs) => pairs.find(key),
        }
    }

    /// Takes no memory where there was no pair.
    pub(crate) fn put(&mut self, pair: Pair) -> Result<(), OutOfMemory>
        ensures ok { OnOk result (self.new ≡ put pair.0 pair.1 self.old) }
        ensures err { OnErr result (self.new ≡ self.old) }
    {
        match mem::replace(&mut self.form, Form::Empty) {
            Form::Empty => {
                self.form = Form::One(pair);
                Ok(())
            }
            Form::One(one) => self.put_second(one, pair),
            Form::Several(pairs) => self.put_among(pairs, pair),
        }
    }

    // Has a list of both pairs, or the first one alone where there is no memory.
    #[inline(never)]
    fn put_second(&mut self, one: Pair, pair: Pair) -> Result<(), OutOfMemory>
        ensures ok { OnOk result (self.new ≡ put pair.0 pair.1 (one ∷ [])) }
        ensures err { OnErr result (self.new ≡ one ∷ []) }
    {
        match both(self.alloc, one, pair) {
            Ok(pairs) => {
                self.form = Form::Several(pairs);
                Ok(())
            }
            Err(one) => {
                self.form = Form::One(one);
                Err(OutOfMemory)
            }
        }
    }

    // Has the list with the pair, or without it where there is no memory.
    #[inline(never)]
    fn put_among(&mut self, pairs: Sorted, pair: Pair) -> Result<(), OutOfMemory>
        ensures ok { OnOk result (self.new ≡ put pair.0 pair.1 pairs) }
        ensures err { OnErr result (self.new ≡ pairs) }
    {
        let mut pairs = pairs;
        let done = pairs.put(pair);
        self.form = Form::Several(pairs);
        done
    }

    pub(crate) fn remove(&mut self, key: &[u8]) -> bool
        ensures found { result ≡ is_some (find key.now self.old) }
        ensures others { self.new ≡ without key.now self.old }
    {
        match mem::replace(&mut self.form, Form::Empty) {
            Form::Empty => false,
            Form::One(one) => self.remove_one(one, key),
            Form::Several(pairs) => self.remove_among(pairs, key),
        }
    }

    // Has the pair unless it is the key's.
    #[inline(never)]
    fn remove_one(&mut self, one: Pair, key: &[u8]) -> bool
        requires { self.old ≡ [] }
        ensures found { result ≡ is_some (find key.now (one ∷ [])) }
        ensures others { self.new ≡ without key.now (one ∷ []) }
    {
        if one.cmp_key(key).is_eq() {
            return true;
        }
        self.form = Form::One(one);
        false
    }

    // Has the list without the key's pair.
    #[inline(never)]
    fn remove_among(&mut self, pairs: Sorted, key: &[u8]) -> bool
        requires { self.old ≡ [] }
        ensures found { result ≡ is_some (find key.now pairs) }
        ensures others { self.new ≡ without key.now pairs }
    {
        let mut pairs = pairs;
        let found = pairs.remove(key);
        if pairs.len() != 0 {
            self.form = Form::Several(pairs);
        }
        found
    }

    /// Takes the pair at this place out.
    pub(crate) fn take(&mut self, at: usize) -> Pair
        requires { at < length self.old }
        ensures pair { result ≡ pair_at self.old at }
        ensures rest { self.new ≡ remove self.old at }
    {
        match mem::replace(&mut self.form, Form::Empty) {
            Form::Empty => unreachable!(),
            Form::One(pair) => pair,
            Form::Several(pairs) => self.take_among(pairs, at),
        }
    }

    // Has the list without the pair at this place.
    #[inline(never)]
    fn take_among(&mut self, pairs: Sorted, at: usize) -> Pair
        requires none { self.old ≡ [] }
        requires at { at < length pairs }
        ensures pair { result ≡ pair_at pairs at }
        ensures rest { self.new ≡ remove pairs at }
    {
        let mut pairs = pairs;
        let pair = pairs.take(at);
        if pairs.len() != 0 {
            self.form = Form::Several(pairs);
        }
        pair
    }
}

// The two pairs, or the later one where they have one key. Gives the first one back where there is no memory.
fn both(alloc: Global, one: Pair, pair: Pair) -> Result<Sorted, Pair>
    ensures ok { IfOk result (λ pairs. pairs ≡ put pair.0 pair.1 (one ∷ [])) }
    ensures err { IfErr result (λ back. back ≡ one) }
{
    let Ok(mut pairs) = Vec::with_capacity(alloc, ROOM) else {
        return Err(one);
    };
    match pair.cmp_key(one.key()) {
        Ordering::Less => {
            pairs.push_reserved(pair);
            pairs.push_reserved(one);
            Ok(Sorted::from_vec(pairs))
        }
        Ordering::Equal => {
            pairs.push_reserved(pair);
            Ok(Sorted::from_vec(pairs))
        }
        Ordering::Greater => {
            pairs.push_reserved(one);
            pairs.push_reserved(pair);
            Ok(Sorted::from_vec(pairs))
        }
    }
}
