//! Transactions for the bench. Over and over, records in one chain or in six get a value, by `by_hand` and a small rule.
#![tactic(auto)]

mod fill;
mod rule;
mod work;

pub use fill::transact;
pub use rule::Stamping;
