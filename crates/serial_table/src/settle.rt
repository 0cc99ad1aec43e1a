ghost use Rattle.std.specs.Prelude.{◌≡◌, ◌≤◌, ◌&&◌, not, is_some, filter, map, vec_len, vec_capacity};
ghost use Rattle.std.specs.List.{list_any};
ghost use Rattle.sid_core.specs.Values.{has};
ghost use Rattle.serial_table.specs.View.{is_of_file, has_name};
ghost use Rattle.serial_table.specs.Settle.{settle_where};
ghost use Rattle.serial_table.specs.InPlace.{table_of, in_scope, lives_by, KeepsRoom, is_lease_of, lacks_lease, goes, goes_with, range_goes, is_under_lease, lease_goes, pending_goes, break_ends, lease_ends_break, without_what_goes};

use crate::lists::{Lists, Scope};
use crate::rows::{Breaking, LeaseRow, OpenRow, RangeRow, WorkerRow};
use crate::view;
use bitflags::Flags;
use sid_core::{LeaseName, LeaseState, OpenId, Sid};

// ---- a lease that is breaking

fn is_under(lease: &LeaseRow, row: &OpenRow) -> bool
    ensures { result ≡ is_under_lease lease.now row.now }
{
    row.file == lease.file && view::carries(lease.name, row.lease)
}

fn is_connected_under(workers: &[WorkerRow], lease: &LeaseRow, row: &OpenRow) -> bool
    ensures { result ≡ (is_under_lease lease.now row.now && lives_by workers.now row.now.owner) }
{
    is_under(lease, row) && view::lives(workers, row.owner)
}

fn is_connected(opens: &[OpenRow], workers: &[WorkerRow], lease: &LeaseRow) -> bool
    ensures { result ≡ list_any (λ row. is_under_lease lease.now row && lives_by workers.now row.owner) opens.now }
{
    opens
        .iter()
        .any(|row| is_connected_under(workers, lease, row))
}

// ---- what goes, by leases that are settled

pub(crate) fn lacks_handle(lease: &LeaseRow) -> bool
    ensures { result ≡ not (has lease.now.held.0 2) }
{
    !lease.held.intersects(LeaseState::HANDLE)
}

pub(crate) fn is_lease_of(file: u32, lease: &LeaseRow) -> bool
    ensures { result ≡ is_lease_of file lease.now }
{
    lease.file == file
}

fn some_lacks_handle(leases: &[LeaseRow], file: u32, name: LeaseName) -> bool
    ensures { result ≡ list_any (λ lease. not (has lease.held.0 2)) (filter (is_lease_of file) (filter (has_name name) leases.now)) }
{
    leases
        .iter()
        .filter(|lease| view::has_name(name, lease))
        .filter(|lease| is_lease_of(file, lease))
        .any(|lease| lacks_handle(lease))
}

fn lacks_lease(leases: &[LeaseRow], row: &OpenRow) -> bool
    ensures { result ≡ lacks_lease leases.now row.now }
{
    match row.lease {
        Some(name) => some_lacks_handle(leases, row.file, name),
        None => false,
    }
}

fn goes(scope: Scope, leases: &[LeaseRow], workers: &[WorkerRow], row: &OpenRow) -> bool
    ensures { result ≡ goes (in_scope scope) (lives_by workers.now) leases.now row.now }
{
    scope.has(row.file) && (lacks_lease(leases, row) && !view::lives(workers, row.owner))
}

fn goes_with(
    scope: Scope,
    leases: &[LeaseRow],
    workers: &[WorkerRow],
    range: &RangeRow,
    row: &OpenRow,
) -> bool
    ensures { result ≡ goes_with (goes (in_scope scope) (lives_by workers.now) leases.now) range.now row.now }
{
    row.id == range.id && goes(scope, leases, workers, row)
}

fn loses_open(
    scope: Scope,
    opens: &[OpenRow],
    leases: &[LeaseRow],
    workers: &[WorkerRow],
    range: &RangeRow,
) -> bool
    ensures { result ≡ list_any (goes_with (goes (in_scope scope) (lives_by workers.now) leases.now) range.now) (filter (is_of_file range.now.file) opens.now) }
{
    opens
        .iter()
        .filter(|row| view::is_of_file(range.file, row))
        .any(|row| goes_with(scope, leases, workers, range, row))
}

fn range_goes(
    scope: Scope,
    opens: &[OpenRow],
    leases: &[LeaseRow],
    workers: &[WorkerRow],
    range: &RangeRow,
) -> bool
    ensures { result ≡ range_goes (in_scope scope) (goes (in_scope scope) (lives_by workers.now) leases.now) opens.now range.now }
{
    scope.has(range.file) && loses_open(scope, opens, leases, workers, range)
}

fn has_open(opens: &[OpenRow], lease: &LeaseRow) -> bool
    ensures { result ≡ list_any (is_under_lease lease.now) opens.now }
{
    opens.iter().any(|row| is_under(lease, row))
}

fn lease_goes(scope: Scope, opens: &[OpenRow], lease: &LeaseRow) -> bool
    ensures { result ≡ lease_goes (in_scope scope) opens.now lease.now }
{
    scope.has(lease.file) && !has_open(opens, lease)
}

fn is_opened(opens: &[OpenRow], file: u32) -> bool
    ensures { result ≡ list_any (is_of_file file) opens.now }
{
    opens.iter().any(|row| view::is_of_file(file, row))
}

fn pending_goes(scope: Scope, opens: &[OpenRow], file: u32) -> bool
    ensures { result ≡ pending_goes (in_scope scope) opens.now file }
{
    scope.has(file) && !is_opened(opens, file)
}

fn some_lease_lacks(scope: Scope, leases: &[LeaseRow]) -> bool
    ensures { result ≡ list_any (λ lease. in_scope scope lease.file && not (has lease.held.0 2)) leases.now }
{
    leases
        .iter()
        .any(|lease| scope.has(lease.file) && lacks_handle(lease))
}

fn some_open_goes(
    scope: Scope,
    opens: &[OpenRow],
    leases: &[LeaseRow],
    workers: &[WorkerRow],
) -> bool
    ensures { result ≡ list_any (goes (in_scope scope) (lives_by workers.now) leases.now) opens.now }
{
    opens.iter().any(|row| goes(scope, leases, workers, row))
}

/// The opens are looked through only where a lease of the scope lacks HANDLE.
fn some_go(scope: Scope, opens: &[OpenRow], leases: &[LeaseRow], workers: &[WorkerRow]) -> bool
    ensures { result ≡ list_any (goes (in_scope scope) (lives_by workers.now) leases.now) opens.now }
{
    some_lease_lacks(scope, leases) && some_open_goes(scope, opens, leases, workers)
}

// ---- in place

fn end_break(
    scope: Scope,
    opens: &[OpenRow],
    workers: &[WorkerRow],
    lease: LeaseRow,
    breaking: Breaking,
) -> LeaseRow
    ensures { result ≡ break_ends (in_scope scope) opens.now (lives_by workers.now) lease breaking }
{
    if !scope.has(lease.file) || is_connected(opens, workers, &lease) {
        lease
    } else {
        LeaseRow {
            held: breaking.needed,
            breaking: None,
            ..lease
        }
    }
}

/// A lease that isn't breaking costs nothing.
pub(crate) fn settle_lease(
    scope: Scope,
    opens: &[OpenRow],
    workers: &[WorkerRow],
    lease: LeaseRow,
) -> LeaseRow
    ensures { result ≡ lease_ends_break (in_scope scope) opens.now (lives_by workers.now) lease }
{
    match lease.breaking {
        None => lease,
        Some(breaking) => end_break(scope, opens, workers, lease, breaking),
    }
}

fn settle_leases(scope: Scope, opens: &[OpenRow], workers: &[WorkerRow], leases: &mut Vec<LeaseRow>)
    ensures items { leases.new.items ≡ map (lease_ends_break (in_scope scope) opens.now (lives_by workers.now)) leases.old.items }
    ensures len { vec_len leases.new ≡ vec_len leases.old }
    ensures room { vec_capacity leases.new ≡ vec_capacity leases.old }
{
    for lease in leases.iter_mut() {
        *lease = settle_lease(scope, opens, workers, *lease);
    }
}

fn some_lease_breaks(scope: Scope, leases: &[LeaseRow]) -> bool
    ensures { result ≡ list_any (λ lease. in_scope scope lease.file && is_some lease.breaking) leases.now }
{
    leases
        .iter()
        .any(|lease| scope.has(lease.file) && lease.breaking.is_some())
}

/// The leases are written only where one of the scope is breaking.
fn settle_breaking(
    scope: Scope,
    opens: &[OpenRow],
    workers: &[WorkerRow],
    leases: &mut Vec<LeaseRow>,
)
    ensures items { leases.new.items ≡ map (lease_ends_break (in_scope scope) opens.now (lives_by workers.now)) leases.old.items }
    ensures len { vec_len leases.new ≡ vec_len leases.old }
    ensures room { vec_capacity leases.new ≡ vec_capacity leases.old }
{
    if some_lease_breaks(scope, leases.as_slice()) {
        settle_leases(scope, opens, workers, leases);
    }
}

fn drop_ranges(
    scope: Scope,
    opens: &[OpenRow],
    leases: &[LeaseRow],
    workers: &[WorkerRow],
    ranges: &mut Vec<RangeRow>,
)
    ensures items { ranges.new.items ≡ filter (λ range. not (range_goes (in_scope scope) (goes (in_scope scope) (lives_by workers.now) leases.now) opens.now range)) ranges.old.items }
    ensures len { vec_len ranges.new ≤ vec_len ranges.old }
    ensures room { vec_capacity ranges.new ≡ vec_capacity ranges.old }
{
    ranges.retain(|range| !range_goes(scope, opens, leases, workers, range));
}

fn drop_opens(scope: Scope, leases: &[LeaseRow], workers: &[WorkerRow], opens: &mut Vec<OpenRow>)
    ensures items { opens.new.items ≡ filter (λ row. not (goes (in_scope scope) (lives_by workers.now) leases.now row)) opens.old.items }
    ensures len { vec_len opens.new ≤ vec_len opens.old }
    ensures room { vec_capacity opens.new ≡ vec_capacity opens.old }
{
    opens.retain(|row| !goes(scope, leases, workers, row));
}

fn some_lease_goes(scope: Scope, opens: &[OpenRow], leases: &[LeaseRow]) -> bool
    ensures { result ≡ list_any (lease_goes (in_scope scope) opens.now) leases.now }
{
    leases.iter().any(|lease| lease_goes(scope, opens, lease))
}

fn keep_opened(scope: Scope, opens: &[OpenRow], leases: &mut Vec<LeaseRow>)
    ensures items { leases.new.items ≡ filter (λ lease. not (lease_goes (in_scope scope) opens.now lease)) leases.old.items }
    ensures len { vec_len leases.new ≤ vec_len leases.old }
    ensures room { vec_capacity leases.new ≡ vec_capacity leases.old }
{
    leases.retain(|lease| !lease_goes(scope, opens, lease));
}

/// The leases are moved only where one of the scope goes.
fn drop_leases(scope: Scope, opens: &[OpenRow], leases: &mut Vec<LeaseRow>)
    ensures items { leases.new.items ≡ filter (λ lease. not (lease_goes (in_scope scope) opens.now lease)) leases.old.items }
    ensures len { vec_len leases.new ≤ vec_len leases.old }
    ensures room { vec_capacity leases.new ≡ vec_capacity leases.old }
{
    if some_lease_goes(scope, opens, leases.as_slice()) {
        keep_opened(scope, opens, leases);
    }
}

fn drop_pending(scope: Scope, opens: &[OpenRow], pending: &mut Vec<u32>)
    ensures items { pending.new.items ≡ filter (λ file. not (pending_goes (in_scope scope) opens.now file)) pending.old.items }
    ensures len { vec_len pending.new ≤ vec_len pending.old }
    ensures room { vec_capacity pending.new ≡ vec_capacity pending.old }
{
    pending.retain(|file| !pending_goes(scope, opens, *file));
}

impl Lists {
    /// Takes out the opens that go, with their ranges. The leases are settled.
    fn drop_what_goes(&mut self, scope: Scope)
        ensures table { table_of self.new ≡ without_what_goes (in_scope scope) (table_of self.old) }
        ensures room { KeepsRoom self.old self.new }
    {
        if !some_go(
            scope,
            self.opens.as_slice(),
            self.leases.as_slice(),
            self.workers.as_slice(),
        ) {
            return;
        }
        drop_ranges(
            scope,
            self.opens.as_slice(),
            self.leases.as_slice(),
            self.workers.as_slice(),
            &mut self.ranges,
        );
        drop_opens(
            scope,
            self.leases.as_slice(),
            self.workers.as_slice(),
            &mut self.opens,
        );
    }

    /// Settles the files of the scope. It costs a scan of the opens and of the leases, and what the files' own rows cost.
    pub(crate) fn settle(&mut self, scope: Scope)
        ensures table { table_of self.new ≡ settle_where (in_scope scope) (table_of self.old) }
        ensures room { KeepsRoom self.old self.new }
    {
        settle_breaking(
            scope,
            self.opens.as_slice(),
            self.workers.as_slice(),
            &mut self.leases,
        );
        self.drop_what_goes(scope);
        drop_leases(scope, self.opens.as_slice(), &mut self.leases);
        drop_pending(scope, self.opens.as_slice(), &mut self.pending);
    }
}
