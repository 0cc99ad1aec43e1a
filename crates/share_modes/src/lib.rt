//! The opens of a file, by its share mode record: which of them count, and which stand in the way of another.
#![tactic(auto)]

mod asked;
mod entries;
mod sharing;

pub use asked::{Asked, Violates};
pub use entries::{add, counts, keeps, remove, valid_entries};
pub use sharing::{share_conflict, violates};
