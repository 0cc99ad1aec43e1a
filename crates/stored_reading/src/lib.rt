//! Chains of packed records read alone: what they show, what an entry makes of them, and where it is legal. The definitions stand in
//! `specs/`; each function of this crate does nothing, and its clause is a law.
#![tactic(auto)]

mod laws;

pub use laws::{chains_show_their_table, steps_are_legal, steps_are_moves};
