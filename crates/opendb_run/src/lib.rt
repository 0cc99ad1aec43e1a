//! The top call of the open-file databases: what stands round the run of a script.
#![tactic(auto)]

mod adapters;
mod gate;
mod input;
mod lines;
mod memory;
mod output;
mod play;
mod schedule;
mod status;
mod top;
mod words;

pub use adapters::{RealSink, RealSource};
pub use gate::Open;
pub use input::{InputError, read_all};
pub use lines::{push_call_line, push_death_line, push_post_lines};
pub use memory::{Bytes, Page};
pub use output::write_all;
pub use status::{Status, complain};
pub use top::run;
pub use words::Command;
