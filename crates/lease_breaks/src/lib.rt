//! Breaks of leases, and their acknowledgement, by the records of the leases.
#![tactic(auto)]

mod acks;
mod breaks;
mod states;

pub use acks::{Acked, acknowledge};
pub use breaks::{Broken, break_lease};
