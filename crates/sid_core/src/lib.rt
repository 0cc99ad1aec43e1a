//! Plain data of the open-file databases, and the traits of what stands outside them.
#![tactic(auto)]

mod bits;
mod call;
mod entry;
mod ids;
mod items;
mod laws;
mod limits;
mod memory;
mod outside;
mod reply;
mod setup;
mod text;
mod words;

pub use bits::{Access, LeaseState, Share};
pub use call::{Call, LeaseAsk, Mode, Span, Tables};
pub use entry::{Entry, Event, Letter, Post};
pub use ids::{LeaseName, Moment, OpenId, Sid, Spot};
pub use items::Items;
pub use laws::{words_are_read_back, words_have_one_spelling};
pub use limits::{
    ACCESS_MASK, MAX_CALLS, MAX_FILES, MAX_MOMENT, MAX_PHASES, MAX_SCRIPT, MAX_STATUS_CALLS,
    MAX_TEXT, MAX_WORKERS,
};
pub use memory::OutOfMemory;
pub use outside::{Failed, Gate, Point, Sink, Source, StepKind};
pub use reply::Reply;
pub use setup::{FileInfo, Setup, WorkerInfo};
pub use text::Text;
pub use words::CallWord;
