//! Entries that are carried out by hand. The caller decides which chains are held and which record is fetched, and for either
//! outcome what is written and what the entry is.
#![tactic(auto)]

mod begin;
mod change;
mod entry;
mod kept;
mod plain;
mod steps;
mod worked;

pub use begin::{begin_by_hand, row_by_hand};
pub use change::{Change, Choice, Decision};
pub use entry::Undone;
pub use kept::{kept_after_close, kept_after_open};
pub use plain::by_hand;
pub use worked::{close_by_hand, open_by_hand};
