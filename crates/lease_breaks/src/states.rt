ghost use Rattle.std.specs.Prelude.{◌≡◌, Some, None, bit_and, find};
ghost use Rattle.std.specs.Option.{option_map};
ghost use Rattle.sid_core.specs.Values.{is_part_of};
ghost use Rattle.record_codec.specs.Counts as counts;
ghost use Rattle.server_ids.specs.Sessions.{registered};
ghost use Rattle.lease_breaks.specs.Breaks.{with_state, first_connected};

use record_codec::{LeaseRec, LeaseRef};
use serial_table::Breaking;
use server_ids::{Register, living};
use sid_core::{LeaseState, Sid};

pub(crate) fn is_part_of(part: LeaseState, whole: LeaseState) -> bool
    ensures { result ≡ is_part_of part.0 whole.0 }
{
    part.0 & whole.0 == part.0
}

pub(crate) fn common_part(a: LeaseState, b: LeaseState) -> LeaseState
    ensures { result.0 ≡ bit_and a.0 b.0 }
{
    LeaseState(a.0 & b.0)
}

// ---- a record's state and break

/// It holds that, and isn't breaking.
pub(crate) fn hold(rec: &mut LeaseRec, held: LeaseState)
    ensures { rec.new ≡ with_state held None rec.old }
{
    rec.held = held;
    rec.breaking = false;
    rec.asked = LeaseState(0);
    rec.needed = LeaseState(0);
    rec.until = 0;
}

/// It holds what it held, and is breaking in that way.
pub(crate) fn set_breaking(rec: &mut LeaseRec, breaking: Breaking)
    ensures { rec.new ≡ with_state rec.old.held (Some breaking) rec.old }
{
    rec.breaking = true;
    rec.asked = breaking.asked;
    rec.needed = breaking.needed;
    rec.until = breaking.until.0;
}

// ---- the opens that have the lease

fn is_connected(register: &Register, reference: &LeaseRef) -> bool
    ensures { result ≡ counts.is_connected (registered register.now) reference.now }
{
    living(register, reference.owner)
}

fn owner_of_first(register: &Register, refs: &[LeaseRef]) -> Option<Sid>
    ensures { result ≡ option_map (λ ref. ref.owner) (find (counts.is_connected (registered register.now)) refs.now) }
{
    refs.iter()
        .find(|reference| is_connected(register, reference))
        .map(|reference| reference.owner)
}

pub(crate) fn first_connected(register: &Register, rec: &LeaseRec) -> Option<Sid>
    ensures { result ≡ first_connected (registered register.now) rec.now }
{
    owner_of_first(register, rec.refs.as_slice())
}
