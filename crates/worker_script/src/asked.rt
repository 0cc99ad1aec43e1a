use sid_core::LeaseAsk;

/// What an open asks for beside its access and share. Without a durable open the seconds are 0.
#[derive(Clone, Copy, Debug, PartialEq, Eq)]
pub(crate) struct Asked {
    pub lease: Option<LeaseAsk>,
    pub durable: u32,
    pub overwrite: bool,
    pub delete: bool,
}

/// The flags of a status call, and of the command `smbstatus`: shares only (`-S`), files only (`-L`), and ranges too (`-B`).
#[derive(Clone, Copy, Debug, PartialEq, Eq)]
pub struct Flags {
    pub shares: bool,
    pub files: bool,
    pub ranges: bool,
}
