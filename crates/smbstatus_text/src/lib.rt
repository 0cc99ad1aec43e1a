//! The tables of smbstatus(1), by records in hand: who is connected, which files are open, and which byte ranges are locked.
#![tactic(auto)]

mod files;
mod opens;
mod parts;
mod ranges;
mod workers;

pub use files::FilesPage;
pub use ranges::RangesPage;
pub use workers::shares;
