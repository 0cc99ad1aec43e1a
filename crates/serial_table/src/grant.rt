ghost use Rattle.std.specs.Prelude.{◌≡◌, ◌∷◌, [], ◌++◌, false, not, is_none, filter, bit_and, IfOk, OnOk, if◌then◌else◌};
ghost use Rattle.std.specs.Option.{option_map_or};
ghost use Rattle.std.specs.List.{list_any};
ghost use Rattle.serial_table.specs.View.{view, is_of_file, carries};
ghost use Rattle.serial_table.specs.File.{file_view};
ghost use Rattle.serial_table.specs.InPlace.{is_lease_of};
ghost use Rattle.serial_table.specs.Break.{no_break, sets_lease, all_but_write};
ghost use Rattle.serial_table.specs.Grant.{allowed, new_lease, old_lease, grant_lease, is_durable, new_open, grant_plain, grant_under, grant};
ghost use Rattle.serial_table.specs.Alone.{shown, breaks_of};
ghost use Rattle.serial_table.specs.OpenAt.{row_is_beside, change_if_any, grant_of};

use crate::asked::{Asked, is_stat};
use crate::breaks::{self, ALL_BUT_WRITE, Breaks, lease_named};
use crate::change::Change;
use crate::decision::{Caller, Decision};
use crate::lease_break::is_part_of;
use crate::lists::Lists;
use crate::rows::{LeaseRow, OpenRow};
use crate::table::Table;
use crate::view;
use bitflags::Flags;
use sid_core::{LeaseName, LeaseState, OpenId, OutOfMemory, Reply};

/// The lease that an open is under: the change by which it comes to that, what it then holds, and whether it is breaking.
#[derive(Clone, Copy)]
pub(crate) struct LeaseGrant {
    pub(crate) change: Option<Change>,
    pub(crate) held: LeaseState,
    pub(crate) breaks: bool,
}

// ---- the lease

fn is_under_asked(asked: &Asked, row: &OpenRow) -> bool
    ensures { result ≡ option_map_or (λ name. carries name row.now.lease) asked.now.lease false }
{
    match asked.lease {
        Some(name) => view::carries(name, row.lease),
        None => false,
    }
}

/// Whether an open that isn't stat is under no lease or another than the asked one.
fn is_beside(asked: &Asked, row: &OpenRow) -> bool
    ensures { result ≡ row_is_beside asked.now row.now }
{
    !is_stat(row.access) && !is_under_asked(asked, row)
}

fn some_beside(opens: &[OpenRow], asked: &Asked) -> bool
    ensures { result ≡ list_any (row_is_beside asked.now) (filter (is_of_file asked.now.file) opens.now) }
{
    opens
        .iter()
        .filter(|row| view::is_of_file(asked.file, row))
        .any(|row| is_beside(asked, row))
}

fn allowed_beside(beside: bool, asked: &Asked) -> LeaseState
    ensures { result.0 ≡ (if beside then bit_and asked.now.state.0 all_but_write else asked.now.state.0) }
{
    if beside {
        LeaseState(asked.state.0 & ALL_BUT_WRITE.0)
    } else {
        asked.state
    }
}

fn allowed(rows: &Lists, asked: &Asked) -> LeaseState
    ensures { result.0 ≡ allowed (shown asked.now.file rows.now) asked.now }
{
    allowed_beside(some_beside(rows.opens.as_slice(), asked), asked)
}

fn new_lease(name: LeaseName, file: u32, may: LeaseState) -> LeaseGrant
    ensures { grant_of result ≡ new_lease name file may.0 }
{
    LeaseGrant {
        change: Some(Change::AddLease(LeaseRow {
            name,
            file,
            held: may,
            breaking: None,
        })),
        held: may,
        breaks: false,
    }
}

fn grown_lease(file: u32, lease: &LeaseRow, held: LeaseState) -> LeaseGrant
    ensures { grant_of result ≡ record { changes = sets_lease file lease.now held.0 None ∷ []; held = held.0; breaks = false } }
{
    LeaseGrant {
        change: Some(Change::SetLease {
            file,
            name: lease.name,
            held,
            breaking: None,
        }),
        held,
        breaks: false,
    }
}

fn kept_lease(lease: &LeaseRow) -> LeaseGrant
    ensures { grant_of result ≡ record { changes = []; held = lease.now.held.0; breaks = not (is_none lease.now.breaking) } }
{
    LeaseGrant {
        change: None,
        held: lease.held,
        breaks: lease.breaking.is_some(),
    }
}

fn old_lease(file: u32, lease: &LeaseRow, state: LeaseState, may: LeaseState) -> LeaseGrant
    ensures { grant_of result ≡ old_lease file lease.now state.0 may.0 }
{
    if lease.breaking.is_none() && is_part_of(lease.held, state) {
        grown_lease(file, lease, LeaseState(lease.held.0 | may.0))
    } else {
        kept_lease(lease)
    }
}

fn grant_lease(rows: &Lists, asked: &Asked, name: LeaseName) -> LeaseGrant
    ensures { grant_of result ≡ grant_lease (shown asked.now.file rows.now) asked.now name }
{
    let may = allowed(rows, asked);
    match lease_named(rows.leases.as_slice(), asked.file, name) {
        Some(lease) => old_lease(asked.file, &lease, asked.state, may),
        None => new_lease(name, asked.file, may),
    }
}

// ---- the open

fn is_durable(asked: &Asked, lease: &LeaseGrant) -> bool
    ensures { result ≡ is_durable asked.now (grant_of lease.now) }
{
    asked.durable != 0 && (lease.held.intersects(LeaseState::HANDLE) && !lease.breaks)
}

fn new_open(caller: &Caller, asked: &Asked, durable: bool) -> OpenRow
    ensures { result ≡ new_open caller.now asked.now durable }
{
    OpenRow {
        id: OpenId {
            pid: caller.sid.pid,
            call: caller.number,
        },
        owner: caller.sid,
        handle: caller.number,
        file: asked.file,
        access: asked.access,
        share: asked.share,
        lease: asked.lease,
        durable: if durable { asked.durable } else { 0 },
        opened: caller.moment,
        marked: asked.delete,
    }
}

fn grant_plain(caller: &Caller, asked: &Asked, mut done: Breaks) -> Result<Decision, OutOfMemory>
    ensures { IfOk result (λ decision. decision ≡ grant_plain caller.now asked.now (breaks_of done)) }
{
    done.changes
        .push(Change::AddOpen(new_open(caller, asked, false)))?;
    done.decided(
        asked.file,
        Reply::Granted {
            lease: None,
            durable: false,
        },
    )
}

fn push_if_any(changes: &mut Vec<Change>, change: Option<Change>) -> Result<(), OutOfMemory>
    ensures { OnOk result (changes.new.items ≡ changes.old.items ++ change_if_any change) }
{
    if let Some(change) = change {
        changes.push(change)?;
    }
    Ok(())
}

fn grant_under(
    caller: &Caller,
    asked: &Asked,
    mut done: Breaks,
    lease: &LeaseGrant,
) -> Result<Decision, OutOfMemory>
    ensures { IfOk result (λ decision. decision ≡ grant_under caller.now asked.now (breaks_of done) (grant_of lease.now) (is_durable asked.now (grant_of lease.now))) }
{
    let durable = is_durable(asked, lease);
    push_if_any(&mut done.changes, lease.change)?;
    done.changes
        .push(Change::AddOpen(new_open(caller, asked, durable)))?;
    done.decided(
        asked.file,
        Reply::Granted {
            lease: Some(lease.held),
            durable,
        },
    )
}

fn new_lease_at(table: &Table, asked: &Asked, name: LeaseName) -> LeaseGrant
    ensures { grant_of result ≡ new_lease name asked.now.file (allowed (file_view asked.now.file (view table.now)) asked.now) }
{
    let beside = some_beside(table.opens.as_slice(), asked);
    new_lease(name, asked.file, allowed_beside(beside, asked))
}

/// What an `open` is granted of a file of which there is no lease.
pub(crate) fn grant_unleased(
    table: &Table,
    caller: &Caller,
    asked: &Asked,
) -> Result<Decision, OutOfMemory>
    requires none { list_any (is_lease_of asked.now.file) table.now.leases ≡ false }
    ensures { IfOk result (λ decision. decision ≡ grant (file_view asked.now.file (view table.now)) caller.now asked.now no_break) }
{
    let done = breaks::no_break(table.opens.allocator());
    match asked.lease {
        Some(name) => grant_under(caller, asked, done, &new_lease_at(table, asked, name)),
        None => grant_plain(caller, asked, done),
    }
}

/// What an `open` is granted after these breaks, at the rows as they left them.
pub(crate) fn grant(
    rows: &Lists,
    caller: &Caller,
    asked: &Asked,
    done: Breaks,
) -> Result<Decision, OutOfMemory>
    ensures { IfOk result (λ decision. decision ≡ grant (shown asked.now.file rows.now) caller.now asked.now (breaks_of done)) }
{
    match asked.lease {
        Some(name) => grant_under(caller, asked, done, &grant_lease(rows, asked, name)),
        None => grant_plain(caller, asked, done),
    }
}
