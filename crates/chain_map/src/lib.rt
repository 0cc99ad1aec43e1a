//! One chain of a database: pairs of a key and a value in the order of their keys, and which chain a key goes to.
#![tactic(auto)]

mod base;
mod chain;
mod compare;
mod db;
mod entries;
mod laws;
mod leaf;
mod marks;
mod over;
mod pair;
mod sorted;

pub use chain::{Chain, Held};
pub use db::{Db, chain_of};
pub use entries::ChainEntries;
pub use laws::{
    chains_of_two_records, edits_keep_order, look_ups_after_put, look_ups_after_remove,
    look_ups_tell_chains_apart,
};
