ghost use Rattle.std.specs.Prelude.{◌≡◌, ◌+◌, ◌≤◌, OnOk};
ghost use Rattle.serial_table.specs.InPlace.{table_of, HasRoom, in_scope};

use crate::rows::{EndedRow, HoldRow, LeaseRow, OpenRow, RangeRow, WaiterRow, WorkerRow};
use crate::table::Table;
use sid_core::{Items, OutOfMemory, Post};
use std::alloc::Global;
use std::mem;

/// The table's lists while a call changes them: vectors, whose room is known.
#[derive(Drop)]
pub(crate) struct Lists {
    pub(crate) opens: Vec<OpenRow>,
    pub(crate) leases: Vec<LeaseRow>,
    pub(crate) ranges: Vec<RangeRow>,
    pub(crate) holds: Vec<HoldRow>,
    pub(crate) waiters: Vec<WaiterRow>,
    pub(crate) letters: Vec<Post>,
    pub(crate) workers: Vec<WorkerRow>,
    pub(crate) ended: Vec<EndedRow>,
    pub(crate) pending: Vec<u32>,
}

/// The files that have to settle.
#[derive(Clone, Copy)]
pub(crate) enum Scope {
    File(u32),
    All,
}

impl Scope {
    pub(crate) fn has(self, file: u32) -> bool
        ensures { result ≡ in_scope self file }
    {
        match self {
            Scope::File(only) => file == only,
            Scope::All => true,
        }
    }
}

fn take<T>(list: &mut Items<T>, alloc: Global) -> Vec<T>
    ensures { result.items ≡ list.old }
{
    mem::replace(list, Items::new(alloc)).into_vec()
}

impl Table {
    /// The lists, taken out. Takes no memory.
    pub(crate) fn take_lists(&mut self) -> Lists
        ensures { table_of result ≡ self.old }
    {
        let alloc = self.opens.allocator();
        Lists {
            opens: take(&mut self.opens, alloc),
            leases: take(&mut self.leases, alloc),
            ranges: take(&mut self.ranges, alloc),
            holds: take(&mut self.holds, alloc),
            waiters: take(&mut self.waiters, alloc),
            letters: take(&mut self.letters, alloc),
            workers: take(&mut self.workers, alloc),
            ended: take(&mut self.ended, alloc),
            pending: take(&mut self.pending, alloc),
        }
    }
}

impl Lists {
    pub(crate) fn alloc(&self) -> Global {
        *self.opens.allocator()
    }

    pub(crate) fn into_table(self) -> Table
        ensures { result ≡ table_of self }
    {
        let Lists {
            opens,
            leases,
            ranges,
            holds,
            waiters,
            letters,
            workers,
            ended,
            pending,
        } = self;
        Table {
            opens: Items::from_vec(opens),
            leases: Items::from_vec(leases),
            ranges: Items::from_vec(ranges),
            holds: Items::from_vec(holds),
            waiters: Items::from_vec(waiters),
            letters: Items::from_vec(letters),
            workers: Items::from_vec(workers),
            ended: Items::from_vec(ended),
            pending: Items::from_vec(pending),
        }
    }

    /// Makes room for so many more rows in each list that changes add to.
    pub(crate) fn reserve(&mut self, more: usize) -> Result<(), OutOfMemory>
        ensures room { OnOk result (HasRoom self.new more) }
        ensures same { table_of self.new ≡ table_of self.old }
    {
        self.opens.reserve(more)?;
        self.leases.reserve(more)?;
        self.ranges.reserve(more)?;
        self.holds.reserve(more)?;
        self.waiters.reserve(more)?;
        self.letters.reserve(more)?;
        self.ended.reserve(more)?;
        self.pending.reserve(more)?;
        Ok(())
    }
}
