ghost use Rattle.std.specs.Prelude.{◌≡◌, ◌∷◌, ◌++◌, [], not, IfOk, OnOk, filter, find, if◌then◌else◌};
ghost use Rattle.std.specs.List.{list_any, filter_map};
ghost use Rattle.sid_core.specs.Ids.{same_name};
ghost use Rattle.serial_table.specs.View.{view, is_of_file};
ghost use Rattle.serial_table.specs.File.{file_view};
ghost use Rattle.serial_table.specs.Decision.{only_reply, spots_of};
ghost use Rattle.serial_table.specs.Change.{perform_all};
ghost use Rattle.serial_table.specs.Local.{perform_all_in_file};
ghost use Rattle.serial_table.specs.Break.{no_break, both, first_of, break_lease, break_each, break_others, each_once, names_of};
ghost use Rattle.serial_table.specs.LeaseBreak.{settles, letters, breaks_by, breaks_if_any};
ghost use Rattle.serial_table.specs.InPlace.{table_of};
ghost use Rattle.serial_table.specs.Alone.{shown, breaks_of, is_connected_under, owner_under, is_lease_named, is_own, break_named};

use crate::alone::rows_alone;
use crate::change::Change;
use crate::decision::{self, Decision};
use crate::lease_break::{LeaseBreak, break_by_owner};
use crate::lists::{Lists, Scope};
use crate::perform::set_leases;
use crate::rows::{LeaseRow, OpenRow, WorkerRow};
use crate::settle::is_lease_of;
use crate::table::Table;
use crate::view;
use sid_core::{Items, LeaseName, LeaseState, Moment, OutOfMemory, Post, Reply, Sid};
use std::alloc::Global;

/// The bits that stay where HANDLE is broken: READ and WRITE.
pub(crate) const ALL_BUT_HANDLE: LeaseState = LeaseState(5);

/// The bits that stay where WRITE is broken: READ and HANDLE.
pub(crate) const ALL_BUT_WRITE: LeaseState = LeaseState(3);

/// What breaks change and post, and the session that they wait for.
#[derive(Drop)]
pub(crate) struct Breaks {
    pub(crate) changes: Vec<Change>,
    pub(crate) posts: Vec<Post>,
    pub(crate) blocker: Option<Sid>,
}

pub(crate) fn no_break(alloc: Global) -> Breaks
    ensures { breaks_of result ≡ no_break }
{
    Breaks {
        changes: Vec::new(alloc),
        posts: Vec::new(alloc),
        blocker: None,
    }
}

// ---- one lease

pub(crate) fn is_connected_under(
    workers: &[WorkerRow],
    file: u32,
    name: LeaseName,
    row: &OpenRow,
) -> bool
    ensures { result ≡ is_connected_under workers.now file name row.now }
{
    view::is_of_file(file, row)
        && (view::carries(name, row.lease) && view::lives(workers, row.owner))
}

/// The owner of the first open of the file that is connected under the lease.
pub(crate) fn owner_under(
    opens: &[OpenRow],
    workers: &[WorkerRow],
    file: u32,
    name: LeaseName,
) -> Option<Sid>
    ensures { result ≡ owner_under opens.now workers.now file name }
{
    opens
        .iter()
        .find(|row| is_connected_under(workers, file, name, row))
        .map(|row| row.owner)
}

fn first_of(a: Option<Sid>, b: Option<Sid>) -> Option<Sid>
    ensures { result ≡ first_of a b }
{
    match a {
        Some(sid) => Some(sid),
        None => b,
    }
}

fn push_settle(changes: &mut Vec<Change>, settle: bool) -> Result<(), OutOfMemory>
    ensures { OnOk result (changes.new.items ≡ changes.old.items ++ settles settle) }
{
    if settle {
        changes.push(Change::Settle)?;
    }
    Ok(())
}

fn push_letter(posts: &mut Vec<Post>, post: Option<Post>) -> Result<(), OutOfMemory>
    ensures { OnOk result (posts.new.items ≡ posts.old.items ++ letters post) }
{
    if let Some(post) = post {
        posts.push(post)?;
    }
    Ok(())
}

fn push_changes(
    changes: &mut Vec<Change>,
    file: u32,
    lease: &LeaseRow,
    lease_break: &LeaseBreak,
) -> Result<(), OutOfMemory>
    ensures { OnOk result (changes.new.items ≡ changes.old.items ++ (breaks_by file lease.now lease_break.now).changes) }
{
    changes.push(Change::SetLease {
        file,
        name: lease.name,
        held: lease_break.held,
        breaking: lease_break.breaking,
    })?;
    push_settle(changes, lease_break.settles)
}

impl Breaks {
    /// Adds the break of a lease.
    pub(crate) fn push(
        &mut self,
        file: u32,
        lease: &LeaseRow,
        lease_break: &LeaseBreak,
    ) -> Result<(), OutOfMemory>
        ensures { OnOk result (breaks_of self.new ≡ both (breaks_of self.old) (breaks_by file lease.now lease_break.now)) }
    {
        push_changes(&mut self.changes, file, lease, lease_break)?;
        push_letter(&mut self.posts, lease_break.post)?;
        self.blocker = first_of(self.blocker, lease_break.blocker);
        Ok(())
    }

    /// A decision with this reply that makes these breaks and frees what it can of the file.
    pub(crate) fn decided(self, file: u32, reply: Reply) -> Result<Decision, OutOfMemory>
        ensures { IfOk result (λ decision. decision ≡ record (only_reply reply) { changes = self.changes.items; posts = self.posts.items; spots = spots_of file }) }
    {
        let alloc = *self.changes.allocator();
        Ok(Decision {
            changes: Items::from_vec(self.changes),
            posts: Items::from_vec(self.posts),
            spots: decision::spots_of(alloc, file)?,
            ..decision::only_reply(alloc, reply)
        })
    }
}

impl Lists {
    fn perform_break(&mut self, file: u32, lease: &LeaseRow, lease_break: &LeaseBreak)
        ensures { table_of self.new ≡ perform_all (breaks_by file lease.now lease_break.now).changes (table_of self.old) }
    {
        set_leases(
            &mut self.leases,
            file,
            lease.name,
            lease_break.held,
            lease_break.breaking,
        );
        if lease_break.settles {
            self.settle(Scope::All);
        }
    }
}

pub(crate) fn lease_named(leases: &[LeaseRow], file: u32, name: LeaseName) -> Option<LeaseRow>
    ensures { result ≡ find (is_lease_named file name) leases.now }
{
    leases.iter().copied().find(|lease| view::has_name(name, lease) && is_lease_of(file, lease))
}

/// Makes the break of a lease, if any, at these rows, and adds it to what is done.
fn make(
    rows: &mut Lists,
    done: &mut Breaks,
    file: u32,
    lease: &LeaseRow,
    lease_break: Option<LeaseBreak>,
) -> Result<(), OutOfMemory>
    ensures done { OnOk result (breaks_of done.new ≡ both (breaks_of done.old) (breaks_if_any file lease.now lease_break)) }
    ensures rows { OnOk result (shown file rows.new ≡ perform_all_in_file (breaks_if_any file lease.now lease_break).changes (shown file rows.old)) }
{
    if let Some(lease_break) = lease_break {
        done.push(file, lease, &lease_break)?;
        rows.perform_break(file, lease, &lease_break);
    }
    Ok(())
}

fn break_lease(
    rows: &mut Lists,
    done: &mut Breaks,
    now: Moment,
    file: u32,
    kept: LeaseState,
    lease: &LeaseRow,
) -> Result<(), OutOfMemory>
    ensures done { OnOk result (breaks_of done.new ≡ both (breaks_of done.old) (break_lease now file (shown file rows.old) kept.0 lease.now)) }
    ensures rows { OnOk result (shown file rows.new ≡ perform_all_in_file (break_lease now file (shown file rows.old) kept.0 lease.now).changes (shown file rows.old)) }
{
    let to = owner_under(
        rows.opens.as_slice(),
        rows.workers.as_slice(),
        file,
        lease.name,
    );
    make(
        rows,
        done,
        file,
        lease,
        break_by_owner(now, file, to, kept, lease),
    )
}

fn break_named(
    rows: &mut Lists,
    done: &mut Breaks,
    now: Moment,
    file: u32,
    kept: LeaseState,
    name: LeaseName,
) -> Result<(), OutOfMemory>
    ensures done { OnOk result (breaks_of done.new ≡ both (breaks_of done.old) (break_named now file (shown file rows.old) kept.0 name)) }
    ensures rows { OnOk result (shown file rows.new ≡ perform_all_in_file (break_named now file (shown file rows.old) kept.0 name).changes (shown file rows.old)) }
{
    match lease_named(rows.leases.as_slice(), file, name) {
        Some(lease) => break_lease(rows, done, now, file, kept, &lease),
        None => Ok(()),
    }
}

// ---- leases, one after another

/// Breaks each of these leases, at what the breaks before it left of the rows.
pub(crate) fn break_each(
    rows: &mut Lists,
    done: &mut Breaks,
    now: Moment,
    file: u32,
    kept: LeaseState,
    names: &[LeaseName],
) -> Result<(), OutOfMemory>
    ensures done { OnOk result (breaks_of done.new ≡ both (breaks_of done.old) (break_each now file (shown file rows.old) kept.0 names.now)) }
    ensures rows { OnOk result (shown file rows.new ≡ perform_all_in_file (break_each now file (shown file rows.old) kept.0 names.now).changes (shown file rows.old)) }
{
    for name in names {
        break_named(rows, done, now, file, kept, *name)?;
    }
    Ok(())
}

// ---- which leases

fn has_met(met: &[LeaseName], name: LeaseName) -> bool
    ensures { result ≡ list_any (same_name name) met.now }
{
    met.iter().any(|other| name == *other)
}

fn add_name(names: &mut Vec<LeaseName>, name: LeaseName) -> Result<(), OutOfMemory>
    ensures { OnOk result (names.new.items ≡ (if list_any (same_name name) names.old.items then names.old.items else names.old.items ++ name ∷ [])) }
{
    if !has_met(names.as_slice(), name) {
        names.push(name)?;
    }
    Ok(())
}

/// Each name where it stands first.
pub(crate) fn each_once(alloc: Global, all: &[LeaseName]) -> Result<Vec<LeaseName>, OutOfMemory>
    ensures { IfOk result (λ names. names.items ≡ each_once [] all.now) }
{
    let mut names = Vec::new(alloc);
    for name in all {
        add_name(&mut names, *name)?;
    }
    Ok(names)
}

/// The lease names that the opens of the file carry.
pub(crate) fn carried(
    alloc: Global,
    opens: &[OpenRow],
    file: u32,
) -> Result<Vec<LeaseName>, OutOfMemory>
    ensures { IfOk result (λ names. names.items ≡ filter_map (λ o. o.lease) (filter (is_of_file file) opens.now)) }
{
    let names = opens
        .iter()
        .filter(|row| view::is_of_file(file, row))
        .filter_map(|row| row.lease)
        .collect(alloc)?;
    Ok(names)
}

fn is_own(own: Option<LeaseName>, name: LeaseName) -> bool
    ensures { result ≡ is_own own name }
{
    match own {
        Some(own) => name == own,
        None => false,
    }
}

fn drop_own(names: &mut Vec<LeaseName>, own: Option<LeaseName>)
    ensures { names.new.items ≡ filter (λ name. not (is_own own name)) names.old.items }
{
    names.retain(|name| !is_own(own, *name));
}

fn names_of(alloc: Global, rows: &Lists, file: u32) -> Result<Vec<LeaseName>, OutOfMemory>
    ensures { IfOk result (λ names. names.items ≡ names_of (shown file rows.now).opens) }
{
    let all = carried(alloc, rows.opens.as_slice(), file)?;
    each_once(alloc, all.as_slice())
}

/// Breaks all bits but those kept of each lease of the file other than the own one.
pub(crate) fn break_others(
    rows: &mut Lists,
    done: &mut Breaks,
    now: Moment,
    file: u32,
    kept: LeaseState,
    own: Option<LeaseName>,
) -> Result<(), OutOfMemory>
    ensures done { OnOk result (breaks_of done.new ≡ both (breaks_of done.old) (break_others now file (shown file rows.old) kept.0 own)) }
    ensures rows { OnOk result (shown file rows.new ≡ perform_all_in_file (break_others now file (shown file rows.old) kept.0 own).changes (shown file rows.old)) }
{
    let mut names = names_of(rows.alloc(), rows, file)?;
    drop_own(&mut names, own);
    break_each(rows, done, now, file, kept, names.as_slice())
}

/// Breaks all bits but those kept of each lease of the table's file other than the own one, at a copy of the file's rows.
pub(crate) fn breaks_of_others(
    table: &Table,
    now: Moment,
    file: u32,
    kept: LeaseState,
    own: Option<LeaseName>,
) -> Result<Breaks, OutOfMemory>
    ensures { IfOk result (λ breaks. breaks_of breaks ≡ break_others now file (file_view file (view table.now)) kept.0 own) }
{
    let mut rows = rows_alone(table, file)?;
    let mut done = no_break(rows.alloc());
    break_others(&mut rows, &mut done, now, file, kept, own)?;
    Ok(done)
}
