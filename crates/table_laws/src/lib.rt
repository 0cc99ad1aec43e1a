//! Laws of what the databases stand for, above the definitions of what chains of records stand for: each function of this crate does
//! nothing, and its clause is a law.
#![tactic(auto)]

mod laws;

pub use laws::{
    acknowledgements_go_by_the_footprint, acknowledgements_keep_standing,
    calls_by_handle_go_by_the_footprint, calls_by_handle_keep_standing,
    calls_of_no_file_go_by_the_footprint, calls_of_no_file_keep_standing,
    calls_that_wait_keep_standing, deaths_go_by_the_footprint, deaths_keep_standing,
    disconnects_keep_standing, entries_write_by_the_footprint, histories_stand,
    open_records_name_the_files_of_their_opens, opens_go_by_the_footprint, opens_keep_standing,
    reconnects_go_by_the_footprint, reconnects_keep_standing, records_name_nothing_new,
    scavenges_go_by_the_footprint, scavenges_keep_standing, tidied_chains_keep_standing,
    what_counts_elsewhere_stays,
};
