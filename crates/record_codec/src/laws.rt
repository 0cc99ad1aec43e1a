ghost use Rattle.std.specs.Prelude.{◌≡◌, ◌⊎◌, ◌↔◌, ℕ, List};
ghost use Rattle.sid_core.specs.declared.bits.Access.{Access};
ghost use Rattle.sid_core.specs.declared.bits.Share.{Share};
ghost use Rattle.sid_core.specs.declared.bits.LeaseState.{LeaseState};
ghost use Rattle.sid_core.specs.Values.{IsText, IsAccess, IsShare, IsState, IsMoment};
ghost use Rattle.record_codec.specs.Fields.{text, state, is_moment, u64_in};
ghost use Rattle.record_codec.specs.declared.glock_rec.GLockRec.{GLockRec};
ghost use Rattle.record_codec.specs.declared.lease_rec.LeaseRec.{LeaseRec};
ghost use Rattle.record_codec.specs.declared.mail_rec.MailRec.{MailRec};
ghost use Rattle.record_codec.specs.declared.open_rec.OpenRec.{OpenRec};
ghost use Rattle.record_codec.specs.declared.range_rec.RangeRec.{RangeRec};
ghost use Rattle.record_codec.specs.declared.register_rec.RegisterRec.{RegisterRec};
ghost use Rattle.record_codec.specs.Counts.{Records, IsSettledLease, HasNoStalePart};
ghost use Rattle.record_codec.specs.GLockRec.{glock_rec};
ghost use Rattle.record_codec.specs.LeaseRec.{lease_rec};
ghost use Rattle.record_codec.specs.MailRec.{mail_rec};
ghost use Rattle.record_codec.specs.OpenRec.{open_rec};
ghost use Rattle.record_codec.specs.RangeRec.{range_rec};
ghost use Rattle.record_codec.specs.Reads.{IsOkOrMemory};
ghost use Rattle.record_codec.specs.RegisterRec.{register_rec};
ghost use Rattle.record_codec.specs.ShareRec.{access, share_bits, share_rec, HasNoMark, IsShareRec};

use crate::fault::Unpack;
use crate::record::Packed;
use crate::share_rec::ShareRec;
use std::alloc::Global;

/// The sets of texts, access rights, share bits, lease states and moments in records are those that they have everywhere.
pub fn sets_of_values()
    ensures texts { (field : ℕ) (bytes : List ℕ) → (text field).valid bytes ↔ IsText bytes }
    ensures rights { (field : ℕ) (rights : Access) → (access field).valid rights ↔ IsAccess rights.0 }
    ensures shares { (field : ℕ) (share : Share) → (share_bits field).valid share ↔ IsShare share.0 }
    ensures states { (field : ℕ) (held : LeaseState) → (state field).valid held ↔ IsState held.0 }
    ensures moments { (field moment : ℕ) → (u64_in field is_moment).valid moment ↔ IsMoment moment }
{}

/// Version 1 of the share mode record holds a value exactly where the file isn't pending and no entry is marked, and
/// version 2 holds each. Every other record has one version.
pub fn versions_of_records()
    ensures share_1 { (share : ShareRec) → IsShareRec share × HasNoMark share ↔ share_rec.valid (1, share) }
    ensures share_2 { (share : ShareRec) → IsShareRec share ↔ share_rec.valid (2, share) }
    ensures share { (version : ℕ) (share : ShareRec) → share_rec.valid (version, share) → (version ≡ 1) ⊎ (version ≡ 2) }
    ensures lease { (version : ℕ) (lease : LeaseRec) → lease_rec.valid (version, lease) → version ≡ 2 }
    ensures open_ { (version : ℕ) (open_ : OpenRec) → open_rec.valid (version, open_) → version ≡ 1 }
    ensures glock { (version : ℕ) (lock : GLockRec) → glock_rec.valid (version, lock) → version ≡ 1 }
    ensures register { (version : ℕ) (register : RegisterRec) → register_rec.valid (version, register) → version ≡ 1 }
    ensures ranges { (version : ℕ) (ranges : RangeRec) → range_rec.valid (version, ranges) → version ≡ 1 }
    ensures mail { (version : ℕ) (mail : MailRec) → mail_rec.valid (version, mail) → version ≡ 1 }
{}

/// Settling leaves a lease record as it is exactly where its break isn't over, each of its references counts, and there
/// is one.
pub fn settled_leases()
    ensures { (records : Records) (lease : LeaseRec) → IsSettledLease records lease ↔ HasNoStalePart records lease }
{}

/// A record that is packed and unpacked again is the same record.
pub fn packed_and_unpacked<T: Packed>(alloc: Global, value: &T) -> Result<T, Unpack>
    requires { T.valid value.now }
    ensures { IsOkOrMemory value.now result }
{
    T::laws();
    let bytes = value.pack(alloc)?;
    T::unpack(alloc, bytes.as_slice())
}

/// A share mode record that is packed in version 1 and unpacked again is the same record.
pub fn packed_old_and_unpacked(alloc: Global, value: &ShareRec) -> Result<ShareRec, Unpack>
    requires valid { IsShareRec value.now }
    requires unmarked { HasNoMark value.now }
    ensures { IsOkOrMemory value.now result }
{
    ShareRec::laws();
    versions_of_records();
    let bytes = value.pack_old(alloc)?;
    ShareRec::unpack(alloc, bytes.as_slice())
}
