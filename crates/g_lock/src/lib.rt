//! Global locks: who holds one, and what a session is answered that asks for it, by the lock's record.
#![tactic(auto)]

mod answer;
mod locking;
mod scans;
mod unlocking;

pub use answer::GAnswer;
pub use locking::lock;
pub use unlocking::unlock;
