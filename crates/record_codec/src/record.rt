ghost use Rattle.std.specs.Prelude.{◌≡◌, ◌+◌, ◌++◌, ◌<◌, ◌≤◌, ◌^◌, ◌↔◌, ℕ, List, IfOk, IfErr, length, vec_len, vec_capacity};
ghost use Rattle.byteorder.specs.Endian.{little_number};
ghost use Rattle.record_codec.specs.declared.fault.Unpack.{Unpack};
ghost use Rattle.record_codec.specs.Codec.{Codec, Spells, FirstFault, read_all};
ghost use Rattle.record_codec.specs.Stored.{header, stored};
ghost use Rattle.record_codec.specs.Laws.{IsGrammar};
ghost use Rattle.record_codec.specs.Reads.{Gives, GivesOrMemory, SpellsSome, Explains, IsOkOrMemory, IsErrOrMemory};

use crate::fault::Unpack;
use crate::reading::{u16_at, u32_at};
use crate::writing::put_header;
use sid_core::OutOfMemory;
use std::alloc::Global;

/// A record that is stored as bytes. What it has of its own are its magic, its versions, and of its fields the size,
/// the writer and the reader.
pub trait Packed: Drop {
    ghost MAGIC: { List ℕ };

    ghost OLDEST: { ℕ };

    ghost NEWEST: { ℕ };

    /// The fields of a version, in their order, with the sets in which their values lie.
    ghost fields: { ℕ → Codec Self };

    /// The values whose parts lie in their sets.
    ghost valid: { Self → Type 0 };

    /// How many bytes the fields of the newest version have.
    ghost size: { Self → ℕ };

    /// The four bytes with which the record begins.
    const MAGIC: [u8; 4];

    /// The first version that is read.
    const OLDEST: u16;

    /// The last version that is read, which `pack` writes.
    const NEWEST: u16;

    /// How many bytes the fields have.
    fn fields_size(&self) -> usize
        requires { valid self.now }
        ensures value { result ≡ size self.now }
        ensures small { result < 2 ^ 48 };

    /// Adds the fields to bytes that have room for them.
    fn put_fields(&self, out: &mut Vec<u8>)
        requires valid { valid self.now }
        requires room { vec_len out.old + size self.now ≤ vec_capacity out.old }
        ensures { out.new.items ≡ out.old.items ++ (fields NEWEST).spell self.now };

    /// The record whose fields of that version the bytes begin with, and the bytes after them.
    fn fields_at(alloc: Global, version: u16, bytes: &[u8]) -> Result<(Self, &[u8]), Unpack>
        ensures { GivesOrMemory (λ x. (x.0, x.1.now)) result ((fields version).read bytes.now) };

    /// What is packed is unpacked to the same value, each value has one spelling in each version, and all bytes have
    /// one value or one first fault.
    fn laws()
        ensures grammar { IsGrammar (stored MAGIC OLDEST NEWEST fields) }
        ensures sets { (x : Self) → valid x ↔ (stored MAGIC OLDEST NEWEST fields).valid (NEWEST, x) }
        ensures older { (version : ℕ) (x : Self) → (stored MAGIC OLDEST NEWEST fields).valid (version, x) → valid x }
        ensures sized { (x : Self) → length ((fields NEWEST).spell x) ≡ size x };

    /// How many bytes the record has.
    final fn packed_size(&self) -> usize
        requires { valid self.now }
        ensures { result ≡ length ((stored MAGIC OLDEST NEWEST fields).spell (NEWEST, self.now)) }
    {
        Self::laws();
        6 + self.fields_size()
    }

    /// Adds the one spelling of the record in its newest version to bytes that have room for it. Takes no memory.
    final fn pack_onto(&self, out: &mut Vec<u8>)
        requires valid { valid self.now }
        requires room { vec_len out.old + length ((stored MAGIC OLDEST NEWEST fields).spell (NEWEST, self.now)) ≤ vec_capacity out.old }
        ensures { out.new.items ≡ out.old.items ++ (stored MAGIC OLDEST NEWEST fields).spell (NEWEST, self.now) }
    {
        Self::laws();
        put_header(out, Self::MAGIC, Self::NEWEST);
        self.put_fields(out);
    }

    /// The one spelling of the record in its newest version. Takes memory once, for exactly its bytes.
    final fn pack(&self, alloc: Global) -> Result<Vec<u8>, OutOfMemory>
        requires { valid self.now }
        ensures { IfOk result (λ packed. packed.items ≡ (stored MAGIC OLDEST NEWEST fields).spell (NEWEST, self.now)) }
    {
        let mut out = Vec::with_capacity(alloc, self.packed_size())?;
        self.pack_onto(&mut out);
        Ok(out)
    }

    /// The record's version, and the bytes after its header. Takes no memory.
    final fn header_at(bytes: &[u8]) -> Result<(u16, &[u8]), Unpack>
        ensures { Gives (λ x. ((little_number 4 MAGIC, x.0), x.1.now)) result ((header MAGIC OLDEST NEWEST).read bytes.now) }
    {
        let (magic, rest) = u32_at(bytes)?;
        if magic != u32::from_le_bytes(Self::MAGIC) {
            return Err(Unpack::Magic);
        }
        let (version, rest) = u16_at(rest)?;
        if version < Self::OLDEST || Self::NEWEST < version {
            return Err(Unpack::Version);
        }
        Ok((version, rest))
    }

    /// The record that the bytes spell, all of them, with the version in which they do.
    final fn stored_at(alloc: Global, bytes: &[u8]) -> Result<(u16, Self), Unpack>
        ensures { GivesOrMemory (λ x. (x.0, x.1)) result (read_all (stored MAGIC OLDEST NEWEST fields) bytes.now) }
    {
        let (version, rest) = Self::header_at(bytes)?;
        let (value, rest) = Self::fields_at(alloc, version, rest)?;
        if !rest.is_empty() {
            return Err(Unpack::Trailing);
        }
        Ok((version, value))
    }

    /// The record that the bytes spell, all of them, in one of the versions that are read, or their first fault.
    final fn unpack(alloc: Global, bytes: &[u8]) -> Result<Self, Unpack>
        ensures found { IfOk result (λ value. SpellsSome (stored MAGIC OLDEST NEWEST fields) value bytes.now) }
        ensures valid { IfOk result (λ value. valid value) }
        ensures spelled { (value : Self) → SpellsSome (stored MAGIC OLDEST NEWEST fields) value bytes.now → IsOkOrMemory value result }
        ensures refused { IfErr result (Explains (stored MAGIC OLDEST NEWEST fields) bytes.now) }
        ensures fault { (e : Unpack) → FirstFault (stored MAGIC OLDEST NEWEST fields) bytes.now e → IsErrOrMemory e result }
    {
        Self::laws();
        let (_version, value) = Self::stored_at(alloc, bytes)?;
        Ok(value)
    }
}
