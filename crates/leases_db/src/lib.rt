//! Leases: how they settle and expire, what an open is granted of one, and the records by name.
#![tactic(auto)]

mod breaking;
mod by_name;
mod expiring;
mod granting;
mod refs;
mod settling;

pub use breaking::breaking_of;
pub use by_name::{ByName, Leases};
pub use expiring::expire;
pub use granting::grant;
pub use refs::{drop_ref, elsewhere};
pub use settling::settle;
