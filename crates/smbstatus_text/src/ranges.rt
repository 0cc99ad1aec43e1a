ghost use Rattle.std.specs.Prelude.{◌≡◌, ℕ, ◌<◌, ◌++◌, [], IfOk, OnOk};
ghost use Rattle.std.specs.List.{flat_map};
ghost use Rattle.std.specs.Option.{option_map_or};
ghost use Rattle.sid_core.specs.declared.setup.Setup.{Setup};
ghost use Rattle.serial_table.specs.ByNumber.{declared_at};
ghost use Rattle.serial_table.specs.View.{View};
ghost use Rattle.serial_table.specs.File.{FileView, file_view};
ghost use Rattle.serial_table.specs.Showing.{pid_of_owner};
ghost use Rattle.serial_table.specs.Tables.{owner_text, range_rows, ranges_page, ranges_table};
ghost use Rattle.record_codec.specs.Counts as counts;
ghost use Rattle.server_ids.specs.Sessions.{registered};
ghost use Rattle.share_modes.specs.Entries.{known};
ghost use Rattle.smbstatus_text.specs.Shown.{ShowsRanges};
ghost use Rattle.smbstatus_text.specs.Pages.{told, Tells, NoneBetween, NoneBehind};
ghost use Rattle.smbstatus_text.specs.Rows.{item_row, counted_range_row};
ghost use Rattle.smbstatus_text.specs.Opens.{found_range_row};

use crate::opens::{Key, key_of, opens_by_id};
use crate::parts::{declared, range_row};
use leases_db::Leases;
use record_codec::{RangeItem, RangeRec, ShareEntry, ShareRec};
use serial_table::{Owner, push_range_row, push_ranges_page};
use server_ids::{Register, living};
use sid_core::{FileInfo, OutOfMemory, Setup};
use std::alloc::Global;
use std::collections::BTreeMap;
use std::marker::Model;

// ---- one range

fn owner_of(register: &Register, entry: &ShareEntry) -> Owner
    ensures { result ≡ record { pid = entry.now.owner.pid; connected = counts.lives (registered register.now) entry.now.owner } }
{
    Owner {
        pid: entry.owner.pid,
        connected: living(register, entry.owner),
    }
}

fn push_range(
    out: &mut Vec<u8>,
    info: &FileInfo,
    file: u32,
    range: &RangeItem,
    entry: &ShareEntry,
    register: &Register,
) -> Result<(), OutOfMemory>
    ensures { OnOk result (out.new.items ≡ out.old.items ++ item_row info.now (registered register.now) file range.now entry.now) }
{
    let owner = owner_of(register, entry);
    let row = range_row(file, range);
    push_range_row(out, info, Some(owner), &row)
}

fn push_found(
    out: &mut Vec<u8>,
    info: &FileInfo,
    file: u32,
    range: &RangeItem,
    opens: &BTreeMap<Key, ShareEntry>,
    register: &Register,
) -> Result<(), OutOfMemory>
    ensures { OnOk result (out.new.items ≡ out.old.items ++ found_range_row info.now (registered register.now) file opens.now range.now) }
{
    match opens.get(&key_of(range.id)) {
        Some(entry) => push_range(out, info, file, range, entry, register),
        None => Ok(()),
    }
}

// ---- the ranges of a file

fn push_ranges(
    out: &mut Vec<u8>,
    info: &FileInfo,
    file: u32,
    ranges: &[RangeItem],
    opens: &BTreeMap<Key, ShareEntry>,
    register: &Register,
) -> Result<(), OutOfMemory>
    ensures { OnOk result (out.new.items ≡ out.old.items ++ flat_map (found_range_row info.now (registered register.now) file opens.now) ranges.now) }
{
    for range in ranges {
        push_found(out, info, file, range, opens, register)?;
    }
    Ok(())
}

fn push_declared(
    out: &mut Vec<u8>,
    info: &FileInfo,
    ranges: &RangeRec,
    entries: &[ShareEntry],
    leases: &Leases,
    register: &Register,
) -> Result<(), OutOfMemory>
    ensures { OnOk result (out.new.items ≡ out.old.items ++ flat_map (counted_range_row info.now (known leases.now register.now) ranges.now.file entries.now) ranges.now.ranges) }
{
    let opens = opens_by_id(*out.allocator(), ranges.file, entries, leases, register)?;
    push_ranges(
        out,
        info,
        ranges.file,
        ranges.ranges.as_slice(),
        &opens,
        register,
    )
}

fn push_file(
    out: &mut Vec<u8>,
    infos: &[FileInfo],
    ranges: &RangeRec,
    entries: &[ShareEntry],
    leases: &Leases,
    register: &Register,
) -> Result<(), OutOfMemory>
    ensures { OnOk result (out.new.items ≡ out.old.items ++ option_map_or (λ info. flat_map (counted_range_row info (known leases.now register.now) ranges.now.file entries.now) ranges.now.ranges) (declared_at infos.now ranges.now.file) []) }
{
    match declared(infos, ranges.file) {
        Some(info) => push_declared(out, info, ranges, entries, leases, register),
        None => Ok(()),
    }
}

/// The table that says which byte ranges are locked, while it is made. Contracts see the bytes of the rows that it has so far.
#[derive(Drop)]
pub struct RangesPage {
    rows: Vec<u8>,
}

impl Model for RangesPage {
    ghost use Rattle.std.specs.Prelude.{ℕ, List};

    ghost Value = { List ℕ };

    ghost view = { λ p. p.rows.items };
}

impl RangesPage {
    /// Takes no memory.
    pub fn start(alloc: Global) -> RangesPage
        ensures { result ≡ [] }
    {
        RangesPage {
            rows: Vec::new(alloc),
        }
    }

    /// Adds the byte ranges of a file by its record of ranges and its share mode record: those whose open counts, in their order. Files are
    /// added in rising number; of one that isn't declared nothing is told. The leases in the map have to be settled. Each
    /// entry costs a judgement and a place in a map of the file's opens, and each range a look-up there. After an error a part of the rows
    /// may stand there.
    pub fn add(
        &mut self,
        setup: &Setup,
        ranges: &RangeRec,
        opens: &ShareRec,
        leases: &Leases,
        register: &Register,
    ) -> Result<(), OutOfMemory>
        requires { opens.now.file ≡ ranges.now.file }
        ensures rows { OnOk result ((f : FileView) → ShowsRanges (known leases.now register.now) ranges.now opens.now f → self.new ≡ self.old ++ told range_rows setup.now.files ranges.now.file f) }
        ensures tells { OnOk result ((v : View) (last : ℕ) → Tells range_rows v setup.now.files last self.old → last < ranges.now.file → NoneBetween v.ranges_of last ranges.now.file → ShowsRanges (known leases.now register.now) ranges.now opens.now (file_view ranges.now.file v)
            → Tells range_rows v setup.now.files ranges.now.file self.new) }
    {
        push_file(
            &mut self.rows,
            setup.files.as_slice(),
            ranges,
            opens.entries.as_slice(),
            leases,
            register,
        )
    }

    /// The table of a view whose byte ranges are those of the files that were added.
    pub fn finish(self) -> Result<Vec<u8>, OutOfMemory>
        ensures page { IfOk result (λ text. text.items ≡ ranges_page self) }
        ensures table { IfOk result (λ text. (setup : Setup) (v : View) (last : ℕ) → Tells range_rows v setup.files last self → NoneBehind v.ranges_of last → text.items ≡ ranges_table setup v) }
    {
        let mut out = Vec::new(*self.rows.allocator());
        push_ranges_page(&mut out, self.rows.as_slice())?;
        Ok(out)
    }
}
