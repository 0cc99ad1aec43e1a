//! Who waits, and who is told: watches, tokens and letters in records.
#![tactic(auto)]

mod mails;
mod wake;
mod watches;

pub use mails::{Mails, cancel, next_message, post};
pub use wake::{counts_on, wake_all, wake_for_death};
pub use watches::watch;
