//! The records of the open-file databases as bytes.
#![tactic(auto)]

mod fault;
mod glock_rec;
mod in_place;
mod laws;
mod lease_rec;
mod mail_rec;
mod open_rec;
mod range_rec;
pub mod reading;
mod record;
mod register_rec;
mod rows;
mod share_rec;
mod small_text;
mod watch;
mod writing;

pub use fault::Unpack;
pub use glock_rec::{GLockRec, Hold, HoldRow, UpgradeRow};
pub use in_place::{LentItems, list_at};
pub use laws::{
    packed_and_unpacked, packed_old_and_unpacked, sets_of_values, settled_leases,
    versions_of_records,
};
pub use lease_rec::{LeaseRec, LeaseRef, LeaseRefRow};
pub use mail_rec::{LetterRow, MailRec, Token, TokenRow};
pub use open_rec::OpenRec;
pub use range_rec::{RangeItem, RangeRec, RangeRow};
pub use record::Packed;
pub use register_rec::{EndedRow, RegisterRec};
pub use rows::Row;
pub use share_rec::{ShareEntry, ShareEntryRow, ShareRec, UnmarkedEntryRow};
pub use small_text::SmallText;
pub use watch::{WatchRec, WatchRow};
