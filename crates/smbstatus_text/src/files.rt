ghost use Rattle.std.specs.Prelude.{◌≡◌, ◌==◌, ℕ, Some, filter, ◌<◌, ◌++◌, [], IfOk, OnOk};
ghost use Rattle.std.specs.List.{flat_map};
ghost use Rattle.std.specs.Option.{option_map_or};
ghost use Rattle.std.specs.FinMap as map;
ghost use Rattle.sid_core.specs.declared.setup.Setup.{Setup};
ghost use Rattle.serial_table.specs.View.{View};
ghost use Rattle.serial_table.specs.File.{FileView, file_view};
ghost use Rattle.serial_table.specs.Showing.{lease_text};
ghost use Rattle.serial_table.specs.Tables.{lease_column, file_rows, files_page, files_table};
ghost use Rattle.leases_db.specs.Rows.{leases_by};
ghost use Rattle.share_modes.specs.Entries.{known, leased};
ghost use Rattle.smbstatus_text.specs.Shown.{lease_of_file, ShowsOpens};
ghost use Rattle.smbstatus_text.specs.Pages.{told, Tells, NoneBetween, NoneBehind};
ghost use Rattle.smbstatus_text.specs.Rows.{lease_of_entry, counted_row};

use crate::parts::{declared, lease_row, open_row};
use leases_db::Leases;
use record_codec::{LeaseRec, ShareEntry, ShareRec};
use serial_table::{LeaseRow, push_files_page, push_open_row};
use server_ids::{Register, living};
use share_modes::counts;
use sid_core::{FileInfo, LeaseName, OutOfMemory, Setup};
use std::alloc::Global;
use std::marker::Model;

// ---- one open

fn row_of(file: u32, name: LeaseName, rec: &LeaseRec) -> Option<LeaseRow>
    ensures { lease_text result ≡ lease_column (filter (λ lease. lease.file == file) (leases_by name (Some rec.now))) }
{
    if rec.refs.is_empty() || rec.file != file {
        None
    } else {
        Some(lease_row(name, rec))
    }
}

fn lease_under(leases: &Leases, file: u32, name: LeaseName) -> Option<LeaseRow>
    ensures { lease_text result ≡ lease_column (lease_of_file (leased leases.now) file name) }
{
    match leases.get(name) {
        Some(rec) => row_of(file, name, rec),
        None => None,
    }
}

fn lease_of(leases: &Leases, file: u32, entry: &ShareEntry) -> Option<LeaseRow>
    ensures { lease_text result ≡ lease_column (lease_of_entry (leased leases.now) file entry.now) }
{
    match entry.lease {
        Some(name) => lease_under(leases, file, name),
        None => None,
    }
}

fn push_counted(
    out: &mut Vec<u8>,
    setup: &Setup,
    info: &FileInfo,
    file: u32,
    entry: &ShareEntry,
    leases: &Leases,
    register: &Register,
) -> Result<(), OutOfMemory>
    ensures { OnOk result (out.new.items ≡ out.old.items ++ counted_row setup.now info.now (known leases.now register.now) file entry.now) }
{
    if counts(file, entry, leases, register) {
        let connected = living(register, entry.owner);
        let lease = lease_of(leases, file, entry);
        let row = open_row(file, entry);
        push_open_row(out, setup, info, connected, &row, lease)?;
    }
    Ok(())
}

// ---- the opens of a file

fn push_entries(
    out: &mut Vec<u8>,
    setup: &Setup,
    info: &FileInfo,
    file: u32,
    entries: &[ShareEntry],
    leases: &Leases,
    register: &Register,
) -> Result<(), OutOfMemory>
    ensures { OnOk result (out.new.items ≡ out.old.items ++ flat_map (counted_row setup.now info.now (known leases.now register.now) file) entries.now) }
{
    for entry in entries {
        push_counted(out, setup, info, file, entry, leases, register)?;
    }
    Ok(())
}

fn push_file(
    out: &mut Vec<u8>,
    setup: &Setup,
    rec: &ShareRec,
    leases: &Leases,
    register: &Register,
) -> Result<(), OutOfMemory>
    ensures { OnOk result ((f : FileView) → ShowsOpens (known leases.now register.now) rec.now f → out.new.items ≡ out.old.items ++ told (file_rows setup.now) setup.now.files rec.now.file f) }
{
    match declared(setup.files.as_slice(), rec.file) {
        Some(info) => push_entries(
            out,
            setup,
            info,
            rec.file,
            rec.entries.as_slice(),
            leases,
            register,
        ),
        None => Ok(()),
    }
}

/// The table that says which files are open, while it is made. Contracts see the bytes of the rows that it has so far.
#[derive(Drop)]
pub struct FilesPage {
    rows: Vec<u8>,
}

impl Model for FilesPage {
    ghost use Rattle.std.specs.Prelude.{ℕ, List};

    ghost Value = { List ℕ };

    ghost view = { λ p. p.rows.items };
}

impl FilesPage {
    /// Takes no memory.
    pub fn start(alloc: Global) -> FilesPage
        ensures { result ≡ [] }
    {
        FilesPage {
            rows: Vec::new(alloc),
        }
    }

    /// Adds the opens of a file by its share mode record: the entries that count, in their order. Files are added in rising number; of one
    /// that isn't declared nothing is told. The leases in the map have to be settled, else the table doesn't show what they tell. Entries
    /// are judged where they stand, each by two look-ups of its owner and two of its lease, and only what is printed takes memory. After
    /// an error a part of the rows may stand there.
    pub fn add(
        &mut self,
        setup: &Setup,
        rec: &ShareRec,
        leases: &Leases,
        register: &Register,
    ) -> Result<(), OutOfMemory>
        ensures rows { OnOk result ((f : FileView) → ShowsOpens (known leases.now register.now) rec.now f → self.new ≡ self.old ++ told (file_rows setup.now) setup.now.files rec.now.file f) }
        ensures tells { OnOk result ((v : View) (last : ℕ) → Tells (file_rows setup.now) v setup.now.files last self.old → last < rec.now.file → NoneBetween v.opens_of last rec.now.file → ShowsOpens (known leases.now register.now) rec.now (file_view rec.now.file v)
            → Tells (file_rows setup.now) v setup.now.files rec.now.file self.new) }
    {
        push_file(&mut self.rows, setup, rec, leases, register)
    }

    /// The table of a view whose opens are those of the files that were added.
    pub fn finish(self) -> Result<Vec<u8>, OutOfMemory>
        ensures page { IfOk result (λ text. text.items ≡ files_page self) }
        ensures table { IfOk result (λ text. (setup : Setup) (v : View) (last : ℕ) → Tells (file_rows setup) v setup.files last self → NoneBehind v.opens_of last → text.items ≡ files_table setup v) }
    {
        let mut out = Vec::new(*self.rows.allocator());
        push_files_page(&mut out, self.rows.as_slice())?;
        Ok(out)
    }
}
