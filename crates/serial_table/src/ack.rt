ghost use Rattle.std.specs.Prelude.{◌≡◌, IfOk, List, ◌∷◌, filter, find};
ghost use Rattle.serial_table.specs.declared.rows.LeaseRow.{LeaseRow};
ghost use Rattle.serial_table.specs.View.{view, has_name};
ghost use Rattle.serial_table.specs.File.{file_view};
ghost use Rattle.serial_table.specs.Break.{break_lease};
ghost use Rattle.serial_table.specs.LeaseBreak.{breaks_if_any};
ghost use Rattle.serial_table.specs.Asked.{own_lease};
ghost use Rattle.serial_table.specs.Alone.{breaks_of};
ghost use Rattle.serial_table.specs.Ack.{acknowledged, accept, ack_lease, ack_first, ack};

use crate::asked::own_lease;
use crate::breaks::{no_break, owner_under};
use crate::change::Change;
use crate::decision::{self, Caller, Decision};
use crate::lease_break::{LeaseBreak, break_by_owner, is_part_of};
use crate::rows::{Breaking, LeaseRow};
use crate::table::Table;
use crate::view;
use sid_core::{LeaseName, LeaseState, Moment, OutOfMemory, Reply};
use std::alloc::Global;

fn lease_of_name(table: &Table, name: LeaseName) -> Option<LeaseRow>
    ensures { result ≡ find (has_name name) table.now.leases }
{
    table
        .leases
        .as_slice()
        .iter()
        .copied()
        .find(|lease| view::has_name(name, lease))
}

fn acknowledged(lease: &LeaseRow, state: LeaseState) -> LeaseRow
    ensures { result ≡ acknowledged lease.now state }
{
    LeaseRow {
        held: state,
        breaking: None,
        ..*lease
    }
}

/// What is broken again at once: all that isn't needed of what is acknowledged.
fn break_again(
    table: &Table,
    now: Moment,
    lease: &LeaseRow,
    state: LeaseState,
    needed: LeaseState,
) -> Option<LeaseBreak>
    ensures { breaks_if_any lease.now.file lease.now result ≡ break_lease now lease.now.file (file_view lease.now.file (view table.now)) needed.0 (acknowledged lease.now state) }
{
    let to = owner_under(
        table.opens.as_slice(),
        table.workers.as_slice(),
        lease.file,
        lease.name,
    );
    break_by_owner(now, lease.file, to, needed, &acknowledged(lease, state))
}

fn accept(
    alloc: Global,
    lease: &LeaseRow,
    state: LeaseState,
    again: Option<LeaseBreak>,
) -> Result<Decision, OutOfMemory>
    ensures { IfOk result (λ decision. decision ≡ accept lease.now state (breaks_if_any lease.now.file lease.now again)) }
{
    let mut done = no_break(alloc);
    done.changes.push(Change::Acknowledge {
        file: lease.file,
        name: lease.name,
        state,
    })?;
    if let Some(again) = again {
        done.push(lease.file, lease, &again)?;
    }
    done.decided(lease.file, Reply::Done)
}

fn ack_breaking(
    table: &Table,
    now: Moment,
    lease: &LeaseRow,
    state: LeaseState,
    breaking: Breaking,
) -> Result<Decision, OutOfMemory>
    ensures { IfOk result (λ decision. decision ≡ ack_lease now (file_view lease.now.file (view table.now)) lease.now state (Some breaking)) }
{
    let alloc = table.leases.allocator();
    if is_part_of(state, breaking.asked) {
        let again = break_again(table, now, lease, state, breaking.needed);
        accept(alloc, lease, state, again)
    } else {
        Ok(decision::only_reply(alloc, Reply::RequestNotAccepted))
    }
}

fn ack_lease(
    table: &Table,
    now: Moment,
    lease: &LeaseRow,
    state: LeaseState,
) -> Result<Decision, OutOfMemory>
    ensures { IfOk result (λ decision. (others : List LeaseRow) → decision ≡ ack_first now (view table.now) (lease.now ∷ others) state) }
{
    match lease.breaking {
        Some(breaking) => ack_breaking(table, now, lease, state, breaking),
        None => Ok(decision::only_reply(table.leases.allocator(), Reply::Unsuccessful)),
    }
}

/// What an `ack` decides.
pub(crate) fn ack(
    table: &Table,
    caller: &Caller,
    key: u64,
    state: LeaseState,
) -> Result<Decision, OutOfMemory>
    ensures { IfOk result (λ decision. decision ≡ ack (view table.now) caller.now key state) }
{
    match lease_of_name(table, own_lease(caller, key)) {
        Some(lease) => ack_lease(table, caller.moment, &lease, state),
        None => Ok(decision::only_reply(table.leases.allocator(), Reply::ObjectNameNotFound)),
    }
}
