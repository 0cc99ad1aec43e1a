//! One transaction of a pass, over any cells. It takes chains by rising numbers and reads each, lends the values of records
//! and keeps in hand what becomes of them, and ends as one entry of the journal, or with nothing changed.
#![tactic(auto)]

mod finish;
mod hand;
mod hold;
mod laws;
mod moves;
mod teller;
mod txn;

pub use finish::Finish;
pub use hand::Held;
pub use hold::TxnEnd;
pub use laws::changes_in_hand;
pub use txn::Txn;
