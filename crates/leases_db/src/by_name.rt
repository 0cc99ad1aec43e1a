ghost use Rattle.std.specs.Prelude.{◌≡◌, OnOk, OnErr};
ghost use Rattle.std.specs.Option.{option_copied};
ghost use Rattle.std.specs.FinMap as map;
ghost use Rattle.std.specs.Borrow.{sem};
ghost use Rattle.std.specs.Option.{option_copied_mut};
ghost use Rattle.leases_db.specs.Lending.{LendsNamed};

use record_codec::LeaseRec;
use sid_core::{LeaseName, OutOfMemory};
use std::alloc::Global;
use std::collections::BTreeMap;
use std::marker::Model;

/// Records by the name of their lease: a map, as contracts see it.
#[derive(Drop)]
pub struct ByName<T> {
    // by guid and key
    records: BTreeMap<(u64, u64), T>,
}

/// The lease records, by name.
pub type Leases = ByName<LeaseRec>;

impl<T> Model for ByName<T> {
    ghost use Rattle.std.specs.FinMap as map;
    ghost use Rattle.leases_db.specs.Names.{name_cmp, coded_name, named};

    ghost Value = { map.FinMap name_cmp T };

    ghost coded = { map.code coded_name T.code };

    ghost view = { λ a. map.from_entries (named a.records.entries) };
}

impl<T> ByName<T> {
    /// Takes no memory.
    pub fn new(alloc: Global) -> ByName<T>
        ensures { result ≡ map.empty }
    {
        ByName {
            records: BTreeMap::new(alloc),
        }
    }

    pub fn get(&self, name: LeaseName) -> Option<&T>
        ensures { option_copied result ≡ map.get self.now name }
    {
        self.records.get(&(name.guid, name.key))
    }

    /// Lends the record for writing. Takes no memory.
    pub fn get_mut(&mut self, name: LeaseName) -> Option<&mut T>
        ensures* writes_back { sem 𝓛 (LendsNamed T.row self.entry name result) }
        ensures value { option_copied_mut result ≡ map.get self.old name }
    {
        self.records.get_mut(&(name.guid, name.key))
    }

    /// Takes the record out. Takes no memory.
    pub fn remove(&mut self, name: LeaseName) -> Option<T>
        ensures record_of_name { result ≡ map.get self.old name }
        ensures others { self.new ≡ map.remove self.old name }
    {
        self.records.remove(&(name.guid, name.key))
    }
}

impl<T: Drop> ByName<T> {
    /// Puts the record in the place of the one that the name has, if it has one.
    pub fn put(&mut self, name: LeaseName, rec: T) -> Result<(), OutOfMemory>
        ensures ok { OnOk result (self.new ≡ map.insert self.old name rec) }
        ensures err { OnErr result (self.new ≡ self.old) }
    {
        self.records.insert((name.guid, name.key), rec)?;
        Ok(())
    }
}
