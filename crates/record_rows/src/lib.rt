//! Parts of records as rows of the table, and rows as parts of records. The definitions stand in `specs/`; the function of this crate does
//! nothing, and its clauses are laws.
#![tactic(auto)]

mod laws;

pub use laws::rows_are_parts;
