ghost use Rattle.std.specs.Prelude.{◌≡◌, ℕ, ◌∷◌, ◌++◌, IfOk, IfSome, IfNone, OnOk, IsTrue, ◌↔◌, [], filter, map};
ghost use Rattle.std.specs.List.{list_any, flat_map};
ghost use Rattle.serial_table.specs.View.{view, is_of_file, has_name};
ghost use Rattle.serial_table.specs.Settle.{settle};
ghost use Rattle.serial_table.specs.Change.{perform, perform_all};
ghost use Rattle.serial_table.specs.Break.{each_once};
ghost use Rattle.serial_table.specs.Reconnect.{made_by};
ghost use Rattle.serial_table.specs.Scavenge.{files_of};
ghost use Rattle.serial_table.specs.Expire.{carried_by, names_at, asked_names, names_beside, look, is_due, needed_of, expires, due, then_settles, expiry, expired_by};
ghost use Rattle.serial_table.specs.InPlace.{table_of};
ghost use Rattle.std.specs.List.Sorted.{IsNonDecreasingBy};
ghost use Rattle.serial_table.specs.ByFile.{file_of_open};

use crate::asked::own_lease;
use crate::breaks::{carried, each_once};
use crate::by_file::{opens_of, sort_opens};
use crate::by_number::declared_worker;
use crate::close::open_of_handle;
use crate::decision::Caller;
use crate::lists::{Lists, Scope};
use crate::perform::set_leases;
use crate::reconnect::open_of_id;
use crate::rows::{LeaseRow, OpenRow};
use crate::table::Table;
use crate::view;
use sid_core::{Call, LeaseAsk, LeaseName, LeaseState, Moment, OpenId, OutOfMemory, Setup, Sid};
use std::alloc::Global;

// ---- which leases a call looks at

/// The leases of the file, each by its first open.
fn names_at(table: &Table, file: u32) -> Result<Vec<LeaseName>, OutOfMemory>
    ensures { IfOk result (λ names. names.items ≡ names_at (view table.now) file) }
{
    let alloc = table.opens.allocator();
    let all = carried(alloc, table.opens.as_slice(), file)?;
    each_once(alloc, all.as_slice())
}

fn push_asked(
    names: &mut Vec<LeaseName>,
    caller: &Caller,
    lease: Option<LeaseAsk>,
) -> Result<(), OutOfMemory>
    ensures { OnOk result (names.new.items ≡ names.old.items ++ asked_names caller.now lease) }
{
    if let Some(ask) = lease {
        names.push(own_lease(caller, ask.key))?;
    }
    Ok(())
}

fn look_to_open(
    table: &Table,
    caller: &Caller,
    file: u32,
    lease: Option<LeaseAsk>,
) -> Result<Vec<LeaseName>, OutOfMemory>
    ensures { IfOk result (λ names. names.items ≡ each_once [] (carried_by ((view table.now).opens_of file) ++ asked_names caller.now lease)) }
{
    let alloc = table.opens.allocator();
    let mut all = carried(alloc, table.opens.as_slice(), file)?;
    push_asked(&mut all, caller, lease)?;
    each_once(alloc, all.as_slice())
}

/// The leases of the file of the handle's open, where there is one.
fn look_by_handle(table: &Table, owner: Sid, handle: u32) -> Result<Vec<LeaseName>, OutOfMemory>
    ensures { IfOk result (λ names. names.items ≡ names_beside (view table.now) ((view table.now).opens_of_handle owner handle)) }
{
    match open_of_handle(table, owner, handle) {
        Some(row) => names_at(table, row.file),
        None => Ok(Vec::new(table.opens.allocator())),
    }
}

fn look_by_id(table: &Table, id: OpenId) -> Result<Vec<LeaseName>, OutOfMemory>
    ensures { IfOk result (λ names. names.items ≡ names_beside (view table.now) ((view table.now).opens_of_id id)) }
{
    match open_of_id(table, id) {
        Some(row) => names_at(table, row.file),
        None => Ok(Vec::new(table.opens.allocator())),
    }
}

/// The leases of the file of the open that the worker's call made, where there is one.
fn look_to_reconnect(
    setup: &Setup,
    table: &Table,
    worker: u32,
    call: u32,
) -> Result<Vec<LeaseName>, OutOfMemory>
    ensures { IfOk result (λ names. names.items ≡ names_beside (view table.now) (made_by setup.now (view table.now) worker call)) }
{
    match declared_worker(setup, worker) {
        Some(info) => look_by_id(
            table,
            OpenId {
                pid: info.pid,
                call,
            },
        ),
        None => Ok(Vec::new(table.opens.allocator())),
    }
}

fn carried_by(alloc: Global, opens: &[OpenRow]) -> Result<Vec<LeaseName>, OutOfMemory>
    ensures { IfOk result (λ names. names.items ≡ carried_by opens.now) }
{
    let names = opens.iter().filter_map(|row| row.lease).collect(alloc)?;
    Ok(names)
}

/// Adds the leases of these opens, each once.
fn push_names(names: &mut Vec<LeaseName>, opens: &[OpenRow]) -> Result<(), OutOfMemory>
    ensures { OnOk result (names.new.items ≡ names.old.items ++ each_once [] (carried_by opens.now)) }
{
    let alloc = *names.allocator();
    let all = carried_by(alloc, opens)?;
    let once = each_once(alloc, all.as_slice())?;
    names.extend_from_slice(once.as_slice())?;
    Ok(())
}

fn all_opens(table: &Table) -> Result<Vec<OpenRow>, OutOfMemory>
    ensures { IfOk result (λ rows. rows.items ≡ table.now.opens) }
{
    Ok(table.opens.copy()?.into_vec())
}

/// All opens, sorted by their files.
fn sorted_opens(table: &Table) -> Result<Vec<OpenRow>, OutOfMemory>
    ensures sorted { IfOk result (λ rows. IsNonDecreasingBy file_of_open rows.items) }
    ensures same { IfOk result (λ rows. (file : ℕ) → filter (is_of_file file) rows.items ≡ (view table.now).opens_of file) }
{
    let mut rows = all_opens(table)?;
    sort_opens(&mut rows)?;
    Ok(rows)
}

/// The leases of all declared files, file by file, after one sort of the opens by their files.
fn look_at_all(setup: &Setup, table: &Table) -> Result<Vec<LeaseName>, OutOfMemory>
    ensures { IfOk result (λ names. names.items ≡ flat_map (names_at (view table.now)) (files_of setup.now)) }
{
    let sorted = sorted_opens(table)?;
    let mut names = Vec::new(table.opens.allocator());
    for index in 0..setup.files.len() {
        push_names(&mut names, opens_of(sorted.as_slice(), index as u64 + 1))?;
    }
    Ok(names)
}

/// The leases at which a call looks before it decides.
fn look(
    setup: &Setup,
    table: &Table,
    caller: &Caller,
    call: &Call,
) -> Result<Vec<LeaseName>, OutOfMemory>
    ensures { IfOk result (λ names. names.items ≡ look setup.now (view table.now) caller.now call.now) }
{
    match call {
        Call::OpenFile { file, lease, .. } => look_to_open(table, caller, *file, *lease),
        Call::Close { handle }
        | Call::Delete { handle, .. }
        | Call::Lock { handle, .. }
        | Call::Unlock { handle, .. }
        | Call::Read { handle, .. }
        | Call::Write { handle, .. } => look_by_handle(table, caller.sid, *handle),
        Call::Ack { key, .. } => { Ok(vec![in table.leases.allocator(); own_lease(caller, *key)]?) }
        Call::Reconnect { worker, call, .. } => look_to_reconnect(setup, table, *worker, *call),
        Call::Scavenge => look_at_all(setup, table),
        _ => Ok(Vec::new(table.opens.allocator())),
    }
}

// ---- what expires

fn is_due(now: Moment, lease: &LeaseRow) -> bool
    ensures { result ≡ is_due now lease.now }
{
    match lease.breaking {
        Some(breaking) => breaking.until.0 <= now.0,
        None => false,
    }
}

fn needed_of(lease: &LeaseRow) -> LeaseState
    ensures { result ≡ needed_of lease.now }
{
    match lease.breaking {
        Some(breaking) => breaking.needed,
        None => lease.held,
    }
}

/// The leases that are due, of whatever name.
fn all_due(table: &Table, now: Moment) -> Result<Vec<LeaseRow>, OutOfMemory>
    ensures { IfOk result (λ rows. rows.items ≡ filter (is_due now) table.now.leases) }
{
    let rows = table
        .leases
        .as_slice()
        .iter()
        .filter(|lease| is_due(now, lease))
        .copied()
        .collect(table.leases.allocator())?;
    Ok(rows)
}

fn push_if_named(
    rows: &mut Vec<LeaseRow>,
    name: LeaseName,
    lease: &LeaseRow,
) -> Result<(), OutOfMemory>
    ensures { OnOk result (rows.new.items ≡ rows.old.items ++ filter (has_name name) (lease.now ∷ [])) }
{
    if view::has_name(name, lease) {
        rows.push(*lease)?;
    }
    Ok(())
}

fn push_named(
    rows: &mut Vec<LeaseRow>,
    leases: &[LeaseRow],
    name: LeaseName,
) -> Result<(), OutOfMemory>
    ensures { OnOk result (rows.new.items ≡ rows.old.items ++ filter (has_name name) leases.now) }
{
    for lease in leases {
        push_if_named(rows, name, lease)?;
    }
    Ok(())
}

/// Of these leases those of these names, name by name.
fn named(
    alloc: Global,
    leases: &[LeaseRow],
    names: &[LeaseName],
) -> Result<Vec<LeaseRow>, OutOfMemory>
    ensures { IfOk result (λ rows. rows.items ≡ flat_map (λ name. filter (has_name name) leases.now) names.now) }
{
    let mut rows = Vec::new(alloc);
    for name in names {
        push_named(&mut rows, leases, *name)?;
    }
    Ok(rows)
}

fn has_none(leases: &Vec<LeaseRow>) -> bool
    ensures { IsTrue result ↔ (leases.now.items ≡ []) }
{
    leases.is_empty()
}

/// The leases that are due among those at which the call looks. Where none is due at all, it costs a scan of the leases.
fn due(
    setup: &Setup,
    table: &Table,
    caller: &Caller,
    call: &Call,
) -> Result<Vec<LeaseRow>, OutOfMemory>
    ensures { IfOk result (λ rows. rows.items ≡ due (view table.now) caller.now.moment (look setup.now (view table.now) caller.now call.now)) }
{
    let alloc = table.leases.allocator();
    let all = all_due(table, caller.moment)?;
    if has_none(&all) {
        return Ok(all);
    }
    let names = look(setup, table, caller, call)?;
    named(alloc, all.as_slice(), names.as_slice())
}

impl Lists {
    fn expire_one(&mut self, lease: &LeaseRow)
        ensures { table_of self.new ≡ perform (expires lease.now) (table_of self.old) }
    {
        set_leases(
            &mut self.leases,
            lease.file,
            lease.name,
            needed_of(lease),
            None,
        );
    }

    fn expire_each(&mut self, leases: &[LeaseRow])
        ensures { table_of self.new ≡ perform_all (map expires leases.now) (table_of self.old) }
    {
        for lease in leases {
            self.expire_one(lease);
        }
    }
}

impl Table {
    fn expire(&mut self, leases: &[LeaseRow])
        ensures { self.new ≡ settle (perform_all (map expires leases.now) self.old) }
    {
        let mut lists = self.take_lists();
        lists.expire_each(leases);
        lists.settle(Scope::All);
        *self = lists.into_table();
    }

    fn copy(&self) -> Result<Table, OutOfMemory>
        ensures { IfOk result (λ table. table ≡ self.now) }
    {
        Ok(Table {
            opens: self.opens.copy()?,
            leases: self.leases.copy()?,
            ranges: self.ranges.copy()?,
            holds: self.holds.copy()?,
            waiters: self.waiters.copy()?,
            letters: self.letters.copy()?,
            workers: self.workers.copy()?,
            ended: self.ended.copy()?,
            pending: self.pending.copy()?,
        })
    }

    fn copy_expired(&self, leases: &[LeaseRow]) -> Result<Table, OutOfMemory>
        ensures { IfOk result (λ table. table ≡ settle (perform_all (map expires leases.now) self.now)) }
    {
        let mut table = self.copy()?;
        table.expire(leases);
        Ok(table)
    }

    /// The table once the breaks have expired at which the call looks: a copy, and none where no such break is due.
    pub(crate) fn expired(
        &self,
        setup: &Setup,
        caller: &Caller,
        call: &Call,
    ) -> Result<Option<Table>, OutOfMemory>
        ensures some { IfOk result (λ behind. IfSome behind (λ table. table ≡ perform_all (expired_by setup.now (view self.now) caller.now call.now) self.now)) }
        ensures none { IfOk result (λ behind. IfNone behind (expired_by setup.now (view self.now) caller.now call.now ≡ [])) }
    {
        let leases = due(setup, self, caller, call)?;
        if has_none(&leases) {
            return Ok(None);
        }
        Ok(Some(self.copy_expired(leases.as_slice())?))
    }
}
