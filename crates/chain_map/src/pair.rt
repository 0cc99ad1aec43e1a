ghost use Rattle.std.specs.Prelude.{◌≡◌, ◌≤◌, [], ◌∷◌, IfOk, length, take, drop};
ghost use Rattle.std.specs.Option.{option_copied};
ghost use Rattle.chain_map.specs.Pairs.{byte_order, find};

use crate::compare::order;
use sid_core::OutOfMemory;
use std::alloc::AllocError;
use std::cmp::Ordering;
use std::marker::Model;

/// A key and its value, in one block.
#[derive(Drop)]
pub(crate) struct Pair {
    bytes: Vec<u8>,
    key_len: usize,
}

impl Model for Pair {
    ghost use Rattle.std.specs.Prelude.{ℕ, List, take, drop, ◌≤◌, length};

    ghost Value = { List ℕ × List ℕ };

    ghost view = { λ p. (take p.key_len p.bytes.items, drop p.key_len p.bytes.items) };

    ghost invariant = { λ p. p.key_len ≤ length p.bytes.items };
}

impl Pair {
    /// The key's bytes, and the value's behind them.
    pub(crate) fn packed(bytes: Vec<u8>, key_len: usize) -> Pair
        requires { key_len ≤ length bytes.items }
        ensures { result ≡ (take key_len bytes.items, drop key_len bytes.items) }
    {
        Pair { bytes, key_len }
    }

    pub(crate) fn key(&self) -> &[u8]
        ensures { result.now ≡ self.now.0 }
    {
        let (key, _) = self.bytes.as_slice().split_at(self.key_len);
        key
    }

    /// How the key stands to another.
    pub(crate) fn cmp_key(&self, key: &[u8]) -> Ordering
        ensures { result ≡ byte_order self.now.0 key.now }
    {
        order(self.key(), key)
    }

    /// The value, if the key is this one.
    pub(crate) fn value_under(&self, key: &[u8]) -> Option<&[u8]>
        ensures { option_copied result ≡ find key.now (self.now ∷ []) }
    {
        if self.cmp_key(key).is_eq() {
            Some(self.value())
        } else {
            None
        }
    }

    pub(crate) fn value(&self) -> &[u8]
        ensures { result.now ≡ self.now.1 }
    {
        let (_, value) = self.bytes.as_slice().split_at(self.key_len);
        value
    }
}

impl Clone for Pair {
    ghost is_clone = { λ pair copy. copy ≡ pair };

    fn clone(&self) -> Result<Pair, AllocError> {
        let bytes = Vec::from_slice(*self.bytes.allocator(), self.bytes.as_slice())?;
        Ok(Pair {
            bytes,
            key_len: self.key_len,
        })
    }
}
