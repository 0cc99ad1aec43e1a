ghost use Rattle.std.specs.Prelude.{◌≡◌, OnOk, OnErr};
ghost use Rattle.std.specs.Option.{option_copied};
ghost use Rattle.std.specs.FinMap as map;
ghost use Rattle.std.specs.Borrow.{sem};
ghost use Rattle.std.specs.Option.{option_copied_mut};
ghost use Rattle.server_ids.specs.Lending.{LendsRecord};

use sid_core::OutOfMemory;
use std::alloc::Global;
use std::collections::BTreeMap;
use std::marker::Model;

/// Records by the pid of their worker: a map, as contracts see it.
#[derive(Drop)]
pub struct ByPid<T> {
    records: BTreeMap<u32, T>,
}

impl<T> Model for ByPid<T> {
    ghost use Rattle.std.specs.FinMap as map;
    ghost use Rattle.std.specs.Ordering.{nat_cmp};
    ghost use Rattle.std.specs.Coded.{coded_ℕ};

    ghost Value = { map.FinMap nat_cmp T };

    ghost coded = { map.code coded_ℕ T.code };

    ghost view = { λ a. map.from_entries a.records.entries };
}

impl<T> ByPid<T> {
    /// Takes no memory.
    pub fn new(alloc: Global) -> ByPid<T>
        ensures { result ≡ map.empty }
    {
        ByPid {
            records: BTreeMap::new(alloc),
        }
    }

    pub fn get(&self, pid: u32) -> Option<&T>
        ensures { option_copied result ≡ map.get self.now pid }
    {
        self.records.get(&pid)
    }

    /// Lends the record for writing. Takes no memory.
    pub fn get_mut(&mut self, pid: u32) -> Option<&mut T>
        ensures* writes_back { sem 𝓛 (LendsRecord T.row self.entry pid result) }
        ensures value { option_copied_mut result ≡ map.get self.old pid }
    {
        self.records.get_mut(&pid)
    }

    /// Takes the record out. Takes no memory.
    pub fn remove(&mut self, pid: u32) -> Option<T>
        ensures record_of_pid { result ≡ map.get self.old pid }
        ensures others { self.new ≡ map.remove self.old pid }
    {
        self.records.remove(&pid)
    }
}

impl<T: Drop> ByPid<T> {
    /// Puts the record in the place of the one that the pid has, if it has one.
    pub fn put(&mut self, pid: u32, rec: T) -> Result<(), OutOfMemory>
        ensures ok { OnOk result (self.new ≡ map.insert self.old pid rec) }
        ensures err { OnErr result (self.new ≡ self.old) }
    {
        self.records.insert(pid, rec)?;
        Ok(())
    }
}
