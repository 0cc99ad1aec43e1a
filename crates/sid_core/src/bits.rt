ghost use Rattle.std.specs.Prelude.{⊤, ◌≡◌, ℕ, List, [], ◌∷◌, codes};

use bitflags::{Flag, Flags, bitflag_items};

/// What an open may do with the file: access rights ([MS-SMB2] 2.2.13.1.1).
#[derive(Clone, Copy, Debug, PartialEq, Eq)]
pub struct Access(pub u32);

bitflag_items! {
    impl Access: u32 {
        const FILE_READ_DATA = 0x1;
        const FILE_WRITE_DATA = 0x2;
        const FILE_APPEND_DATA = 0x4;
        const FILE_READ_EA = 0x8;
        const FILE_WRITE_EA = 0x10;
        const FILE_EXECUTE = 0x20;
        const FILE_DELETE_CHILD = 0x40;
        const FILE_READ_ATTRIBUTES = 0x80;
        const FILE_WRITE_ATTRIBUTES = 0x100;
        const DELETE = 0x10000;
        const READ_CONTROL = 0x20000;
        const WRITE_DAC = 0x40000;
        const WRITE_OWNER = 0x80000;
        const SYNCHRONIZE = 0x100000;
    }
}

impl Flags for Access {
    type Bits = u32;

    ghost exact = { ⊤ };

    ghost table = { (codes "FILE_READ_DATA", 0x1) ∷ (codes "FILE_WRITE_DATA", 0x2) ∷ (codes "FILE_APPEND_DATA", 0x4)
        ∷ (codes "FILE_READ_EA", 0x8) ∷ (codes "FILE_WRITE_EA", 0x10) ∷ (codes "FILE_EXECUTE", 0x20)
        ∷ (codes "FILE_DELETE_CHILD", 0x40) ∷ (codes "FILE_READ_ATTRIBUTES", 0x80) ∷ (codes "FILE_WRITE_ATTRIBUTES", 0x100)
        ∷ (codes "DELETE", 0x10000) ∷ (codes "READ_CONTROL", 0x20000) ∷ (codes "WRITE_DAC", 0x40000)
        ∷ (codes "WRITE_OWNER", 0x80000) ∷ (codes "SYNCHRONIZE", 0x100000) ∷ [] };

    ghost set_of = { λ a. a.0 };

    fn flags<'a>() -> &'a [Flag<Access>] {
        Access::FLAGS
    }

    fn bits(&self) -> u32 {
        self.0
    }

    fn from_bits_retain(bits: u32) -> Access {
        Access(bits)
    }
}

/// What an open lets others do beside it ([MS-SMB2] 2.2.13, ShareAccess).
#[derive(Clone, Copy, Debug, PartialEq, Eq)]
pub struct Share(pub u32);

bitflag_items! {
    impl Share: u32 {
        const FILE_SHARE_READ = 1;
        const FILE_SHARE_WRITE = 2;
        const FILE_SHARE_DELETE = 4;
    }
}

impl Flags for Share {
    type Bits = u32;

    ghost exact = { ⊤ };

    ghost table = { (codes "FILE_SHARE_READ", 1) ∷ (codes "FILE_SHARE_WRITE", 2) ∷ (codes "FILE_SHARE_DELETE", 4) ∷ [] };

    ghost set_of = { λ s. s.0 };

    fn flags<'a>() -> &'a [Flag<Share>] {
        Share::FLAGS
    }

    fn bits(&self) -> u32 {
        self.0
    }

    fn from_bits_retain(bits: u32) -> Share {
        Share(bits)
    }
}

/// What a lease lets its client cache, by the bits of [MS-SMB2] 2.2.13.2.8. That only none, R, RH, RW and RWH are taken is this
/// project's own.
#[derive(Clone, Copy, Debug, PartialEq, Eq)]
pub struct LeaseState(pub u8);

bitflag_items! {
    impl LeaseState: u8 {
        const READ = 1;
        const HANDLE = 2;
        const WRITE = 4;
    }
}

impl Flags for LeaseState {
    type Bits = u8;

    ghost exact = { ⊤ };

    ghost table = { (codes "READ", 1) ∷ (codes "HANDLE", 2) ∷ (codes "WRITE", 4) ∷ [] };

    ghost set_of = { λ s. s.0 };

    fn flags<'a>() -> &'a [Flag<LeaseState>] {
        LeaseState::FLAGS
    }

    fn bits(&self) -> u8 {
        self.0
    }

    fn from_bits_retain(bits: u8) -> LeaseState {
        LeaseState(bits)
    }
}
