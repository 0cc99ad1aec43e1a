//! The rules of the open table, and a plain replay of a history over it.
#![tactic(auto)]

mod ack;
mod alone;
mod apply;
mod asked;
mod breaks;
mod by_file;
mod by_number;
mod calls;
mod change;
mod close;
mod conclude;
mod decide;
mod decision;
mod delete;
mod disconnect;
mod durable;
mod expire;
mod global_lock;
mod grant;
mod laws;
mod lease_break;
mod lists;
mod lock;
mod open;
mod perform;
mod range;
mod read_write;
mod reconnect;
mod recv;
mod rows;
mod scavenge;
mod session;
mod settle;
mod share;
mod show;
mod sound;
mod table;
mod unlock;
mod view;
mod wake;

pub use apply::Apply;
pub use change::Change;
pub use decision::{Caller, Decision};
pub use laws::{
    alike_tables_step_alike, changes_go_by_key, changes_of_a_file_are_local,
    concluded_tables_are_settled, expired_stays_expired, histories_go_on, other_files_stay,
    sessions_rise_by_one, settled_stays_settled, settling_is_local, sharing_is_symmetric,
    the_living_call, the_living_stay, what_happens_shows,
};
pub use lease_break::new_breaking;
pub use range::overlap;
pub use rows::{
    Breaking, EndedRow, HoldRow, LeaseRow, OpenRow, RangeRow, WaiterRow, Watch, WorkerRow,
};
pub use share::share_conflict;
pub use show::{
    Owner, push_files_page, push_open_row, push_range_row, push_ranges_page, push_shares_head,
    push_worker_row,
};
pub use sound::{
    calls_have_new_numbers, changes_keep_consistent, changes_stay_in_their_sets,
    disconnected_owners_have_ended, legal_entries_fit, legal_histories_are_bounded,
    legal_histories_are_sound, legal_histories_stay_in_their_sets, settled_is_sound,
};
pub use table::Table;
