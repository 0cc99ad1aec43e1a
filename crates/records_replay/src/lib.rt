//! The rule of the seven databases: what entries make of chains of packed records alone, with which chains a table starts, and which entries
//! follow which. The definitions stand in `specs/`; each function of this crate does nothing, and its clause is a law.
#![tactic(auto)]

mod laws;

pub use laws::{entries_go_by_their_names, facts_have_one_proof, journals_are_histories};
