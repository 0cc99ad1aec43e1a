ghost use Rattle.std.specs.Prelude.{◌≡◌, IfOk};
ghost use Rattle.serial_table.specs.View.{view};
ghost use Rattle.serial_table.specs.Disconnect.{disconnect};

use crate::change::Change;
use crate::decision::{Caller, Decision};
use crate::session::end_of_session;
use crate::table::Table;
use sid_core::OutOfMemory;

/// What a `disconnect` decides.
#[tactic(auto, unfolding(crate::specs::Disconnect::disconnect))]
pub(crate) fn disconnect(table: &Table, caller: &Caller) -> Result<Decision, OutOfMemory>
    ensures { IfOk result (λ decision. decision ≡ disconnect (view table.now) caller.now) }
{
    let next = Change::NextSession {
        sid: caller.sid,
        moment: caller.moment,
    };
    end_of_session(table, caller.sid, caller.moment, &[Change::Settle, next])
}
