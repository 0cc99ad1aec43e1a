//! Chains that passes take in turn: what a rule says of them, what a pass shows of itself, and what each call of a pass
//! makes of that. Definitions and plain answers alone, for every table of such chains. Nothing here takes memory.
#![tactic(auto)]

mod answers;
mod laws;
mod looked;
mod replay;

pub use answers::{Closed, Commit, Recover, Take};
pub use laws::{calls_in_a_row, journals_of_a_rule};
pub use looked::Looked;
pub use replay::Replay;
