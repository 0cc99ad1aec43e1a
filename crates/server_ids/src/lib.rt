//! Who is connected: the sessions of workers, by the records that tell of them.
#![tactic(auto)]

mod by_pid;
mod sessions;

pub use by_pid::ByPid;
pub use sessions::{Register, dead_since, end_session, living};
