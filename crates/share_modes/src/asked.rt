use sid_core::{Access, LeaseName, OpenId, Share};

/// What an `open` asks for of its access, its share mode and its lease, if it asks for one.
#[derive(Clone, Copy)]
pub struct Asked {
    pub access: Access,
    pub share: Share,
    pub lease: Option<LeaseName>,
}

/// What an `open` meets.
#[derive(Drop)]
pub enum Violates {
    /// No open conflicts.
    Nothing,
    /// The first open that conflicts and that no break of HANDLE makes go.
    Refused(OpenId),
    /// The leases of the opens that conflict, by the first open of each: HANDLE has to be broken of them first.
    Breaks(Vec<LeaseName>),
    /// No memory for the list of leases. Nothing else takes memory.
    OutOfMemory,
}
