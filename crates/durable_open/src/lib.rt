//! Durable opens whose session has ended, by the records of their file and their leases: until when they last, and how they are taken up
//! again or go.
#![tactic(auto)]

mod deadlines;
mod keeping;
mod reconnecting;
mod scavenging;

pub use deadlines::{cookie, expired};
pub use reconnecting::reconnect;
pub use scavenging::scavenge;
