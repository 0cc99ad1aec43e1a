//! Byte-range locks on a file, by its record of ranges: what is in the way of a lock, of a read and of a write.
#![tactic(auto)]

mod answer;
mod checking;
mod laws;
mod locking;
mod range;
mod scans;
mod unlocking;

pub use answer::RAnswer;
pub use checking::check_io;
pub use laws::valid_entries_give_the_ids;
pub use locking::lock;
pub use range::{overlap, range_conflict};
pub use unlocking::unlock;
