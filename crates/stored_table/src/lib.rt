//! What chains of packed records stand for: where the record of each key is, what an entry of a history meets and writes, and which
//! tables the records tell. The definitions stand in `specs/`; each function of this crate does nothing, and its clause is a law.
#![tactic(auto)]

mod laws;

pub use laws::{
    exact_records_have_spellings, first_chains_stand, footprints_are_local, look_ups_after_writes,
    moves_are_local, records_follow, records_tell, tidied_chains_are_swept,
};
