//! The reader of scripts: which workers and files there are, and which calls the workers make in each phase.
#![tactic(auto)]

mod access;
mod asked;
mod calls;
mod error;
mod fault;
mod file;
mod judged;
mod laws;
mod line;
mod numbered;
mod numeral;
mod options;
mod parsing;
mod phase;
mod reader;
mod reason;
mod script;
mod stop;
mod text;
mod word;
mod worker;

pub use asked::Flags;
pub use error::Parse;
pub use laws::scripts_are_read_back;
pub use numeral::number;
pub use options::{tables_of, with_flag};
pub use parsing::parse;
pub use reason::Reason;
pub use script::{Phase, Planned, Script};
