//! What a transaction stands on: the calls of one pass over chains that passes take in turn, and a table of such chains
//! for one thread. A pass takes chains by rising numbers, reads them, plans what it makes of them, commits one entry, stores
//! the planned chains and gives all back. Where it dies between two calls, another pass recovers what it held.
//!
//! A take, a read, a plan, a commit and a store look at one chain each, beside what `Chain::copy` costs and the room of the
//! journal. To give a chain back looks at the words of all chains, of which there are at most 512, and so does a recovery
//! for each of its chains.
#![tactic(auto)]

mod cells;
mod close;
mod deaths;
mod moves;
mod pass;
mod plain;
mod recovery;
mod seat;
mod start;

pub use cells::Cells;
pub use plain::PlainCells;
pub use seat::PlainSeat;
