use sid_core::OpenId;

/// What an open is answered that asks for a range.
#[derive(Clone, Copy, PartialEq, Eq)]
pub enum RAnswer {
    Granted,
    /// The open of the first range that is in the way.
    Conflict(OpenId),
    /// Its last byte is beyond 2^64 - 1.
    InvalidRange,
    OutOfMemory,
}
