//! The tests of the libraries. A library keeps one of its own only where that needs what is private.
#![tactic(auto)]

mod adding;
mod copies;
mod counting;
mod passes;
mod seats;

pub use adding::{Stage, Stuck, add, advance};
pub use copies::{put_into_both, remove_from_both};
pub use counting::{Counting, count, counted};
pub use passes::{add_and_close, counts, die_adding, meet, recover_within, six_passes};
pub use seats::{add_by, ask_by, die_by, recover_by, take_by};

#[cfg(test)]
mod cells;
#[cfg(test)]
mod chains;
#[cfg(test)]
mod data;
#[cfg(test)]
mod durable;
#[cfg(test)]
mod hand;
#[cfg(test)]
mod leases;
#[cfg(test)]
mod lines;
#[cfg(test)]
mod locks;
#[cfg(test)]
mod pages;
#[cfg(test)]
mod ranges;
#[cfg(test)]
mod records;
#[cfg(test)]
mod run;
#[cfg(test)]
mod script;
#[cfg(test)]
mod shares;
#[cfg(test)]
mod table;
