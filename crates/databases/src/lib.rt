//! The seven databases: their rule, by a setup, and what is left of them when all passes are done.
#![tactic(auto)]

mod kept;
mod rule;

pub use kept::Databases;
pub use rule::BySetup;
