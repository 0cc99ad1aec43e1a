/// How many workers a script may declare.
pub const MAX_WORKERS: usize = 64;

/// How many files a script may declare.
pub const MAX_FILES: usize = 10_000;

/// How many phases a script may have.
pub const MAX_PHASES: usize = 10_000;

/// How many calls a script may plan. It is also the greatest number that a worker's call may have.
pub const MAX_CALLS: u32 = 20_000;

/// How many of these calls may be `status`.
pub const MAX_STATUS_CALLS: u32 = 100;

/// How many bytes a text may have: a machine, a share, a path or a name. It has one at least.
pub const MAX_TEXT: usize = 255;

/// The last moment of the script's clock, in seconds.
pub const MAX_MOMENT: u64 = 9_999_999_999;

/// The fourteen access rights that have names.
pub const ACCESS_MASK: u32 = 0x001F_01FF;

/// How many bytes a script may have.
pub const MAX_SCRIPT: usize = 4_194_304;
