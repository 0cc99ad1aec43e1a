ghost use Rattle.std.specs.Prelude.{◌≡◌, ◌++◌, ◌∷◌, [], ℕ, IfOk, OnOk, not, ◌&&◌, ◌||◌, filter, find, if◌then◌else◌};
ghost use Rattle.std.specs.List.{list_any, filter_map};
ghost use Rattle.std.specs.Option.{option_map, option_map_or};
ghost use Rattle.std.specs.FinMap as map;
ghost use Rattle.sid_core.specs.Values.{has};
ghost use Rattle.serial_table.specs.Share as table;
ghost use Rattle.serial_table.specs.View.{carries};
ghost use Rattle.serial_table.specs.File.{is_under};
ghost use Rattle.serial_table.specs.Break.{each_once};
ghost use Rattle.record_codec.specs.Counts as counts;
ghost use Rattle.server_ids.specs.Sessions.{registered};
ghost use Rattle.share_modes.specs.Entries.{known, leased};
ghost use Rattle.share_modes.specs.Sharing.{OpenCall, AsksLease, conflicting, refuses, shown, has_refs, keeps_handle, entry_conflicts, is_held_under, is_own_held, entry_refuses, conflict_lease, with_name, with_lease, AreMet, first_refusal, is_refused, Meets, IsBreaks};

use crate::asked::{Asked, Violates};
use bitflags::Flags;
use leases_db::{ByName, Leases};
use record_codec::{LeaseRec, LeaseRef, ShareEntry};
use server_ids::{Register, living};
use sid_core::{LeaseName, LeaseState, OpenId, OutOfMemory};
use std::alloc::Global;

/// Whether two opens of one file can't stand beside each other ([MS-FSA] 2.1.5.1.2.2). Their leases aren't looked at.
pub fn share_conflict(a: Asked, b: Asked) -> bool
    ensures { result ≡ table.share_conflict a.access.0 a.share.0 b.access.0 b.share.0 }
{
    serial_table::share_conflict(a.access, a.share, b.access, b.share)
}

fn conflicts(asked: &Asked, entry: &ShareEntry) -> bool
    ensures { result ≡ entry_conflicts asked.now entry.now }
{
    serial_table::share_conflict(asked.access, asked.share, entry.access, entry.share)
}

// ---- opens that refuse

fn carries(name: LeaseName, lease: Option<LeaseName>) -> bool
    ensures { result ≡ carries name lease }
{
    match lease {
        Some(own) => own == name,
        None => false,
    }
}

fn has_refs(refs: &[LeaseRef]) -> bool
    ensures { result ≡ has_refs refs.now }
{
    !refs.is_empty()
}

fn has_handle(lease: &LeaseRec) -> bool
    ensures { result ≡ (has_refs lease.now.refs && has lease.now.held.0 2) }
{
    has_refs(lease.refs.as_slice()) && lease.held.intersects(LeaseState::HANDLE)
}

fn holds_handle(leases: &Leases, name: LeaseName) -> bool
    ensures { result ≡ keeps_handle (map.get leases.now name) }
{
    match leases.get(name) {
        Some(lease) => has_handle(lease),
        None => false,
    }
}

fn is_held_under(register: &Register, name: LeaseName, entry: &ShareEntry) -> bool
    ensures { result ≡ is_held_under (counts.lives (registered register.now)) name entry.now }
{
    carries(name, entry.lease) && living(register, entry.owner)
}

fn some_held_under(register: &Register, name: LeaseName, valid: &[ShareEntry]) -> bool
    ensures { result ≡ list_any (is_held_under (counts.lives (registered register.now)) name) valid.now }
{
    valid
        .iter()
        .any(|entry| is_held_under(register, name, entry))
}

// Whether the asked lease has a connected open.
fn is_own_held(register: &Register, lease: Option<LeaseName>, valid: &[ShareEntry]) -> bool
    ensures { result ≡ is_own_held (counts.lives (registered register.now)) lease valid.now }
{
    match lease {
        Some(name) => some_held_under(register, name, valid),
        None => false,
    }
}

fn refuses(asked: &Asked, leases: &Leases, own_held: bool, entry: &ShareEntry) -> bool
    ensures { result ≡ entry_refuses (leased leases.now) asked.now own_held entry.now }
{
    match entry.lease {
        Some(name) => !holds_handle(leases, name) || (carries(name, asked.lease) && own_held),
        None => true,
    }
}

fn first_refusal(
    asked: &Asked,
    valid: &[ShareEntry],
    leases: &Leases,
    own_held: bool,
) -> Option<OpenId>
    ensures { result ≡ first_refusal (leased leases.now) asked.now own_held valid.now }
{
    valid
        .iter()
        .find(|entry| conflicts(asked, entry) && refuses(asked, leases, own_held, entry))
        .map(|entry| entry.id)
}

// ---- leases to be broken

fn conflict_lease(asked: &Asked, entry: &ShareEntry) -> Option<LeaseName>
    ensures { result ≡ conflict_lease asked.now entry.now }
{
    if conflicts(asked, entry) {
        entry.lease
    } else {
        None
    }
}

fn add_name(
    names: &mut Vec<LeaseName>,
    met: &mut ByName<()>,
    name: LeaseName,
) -> Result<(), OutOfMemory>
    requires { AreMet names.old.items met.old }
    ensures names { OnOk result (names.new.items ≡ with_name name names.old.items) }
    ensures met { OnOk result (AreMet names.new.items met.new) }
{
    if met.get(name).is_none() {
        met.put(name, ())?;
        names.push(name)?;
    }
    Ok(())
}

fn add_lease(
    names: &mut Vec<LeaseName>,
    met: &mut ByName<()>,
    lease: Option<LeaseName>,
) -> Result<(), OutOfMemory>
    requires { AreMet names.old.items met.old }
    ensures names { OnOk result (names.new.items ≡ with_lease lease names.old.items) }
    ensures met { OnOk result (AreMet names.new.items met.new) }
{
    match lease {
        Some(name) => add_name(names, met, name),
        None => Ok(()),
    }
}

// An ordered map tells which leases were met, so that many leases aren't looked through for each.
fn names_in_conflict(
    alloc: Global,
    asked: &Asked,
    valid: &[ShareEntry],
) -> Result<Vec<LeaseName>, OutOfMemory>
    ensures { IfOk result (λ names. names.items ≡ each_once [] (filter_map (conflict_lease asked.now) valid.now)) }
{
    let mut names = Vec::new(alloc);
    let mut met = ByName::new(alloc);
    for entry in valid {
        add_lease(&mut names, &mut met, conflict_lease(asked, entry))?;
    }
    Ok(names)
}

fn breaks(alloc: Global, asked: &Asked, valid: &[ShareEntry]) -> Violates
    ensures { IsBreaks (each_once [] (filter_map (conflict_lease asked.now) valid.now)) result }
{
    match names_in_conflict(alloc, asked, valid) {
        Ok(names) => {
            if names.is_empty() {
                Violates::Nothing
            } else {
                Violates::Breaks(names)
            }
        }
        Err(_) => Violates::OutOfMemory,
    }
}

/// What an `open` meets of the opens of its file that count, once the leases are settled: none that conflicts, one that
/// refuses it, or some whose leases have to be broken first. Only the list of these leases takes memory, and a
/// map of them, so that a lease that many opens have costs each a logarithm of their number.
pub fn violates(
    alloc: Global,
    asked: Asked,
    valid: &[ShareEntry],
    leases: &Leases,
    register: &Register,
) -> Violates
    ensures refused { (call : OpenCall) → AsksLease call asked → let f = shown (known leases.now register.now) call.file valid.now in is_refused result ≡ list_any (refuses f call asked) (conflicting f call asked) }
    ensures answer { (call : OpenCall) → AsksLease call asked → let f = shown (known leases.now register.now) call.file valid.now in Meets (refuses f call asked) (conflicting f call asked) result }
{
    let own_held = is_own_held(register, asked.lease, valid);
    match first_refusal(&asked, valid, leases, own_held) {
        Some(id) => Violates::Refused(id),
        None => breaks(alloc, &asked, valid),
    }
}
