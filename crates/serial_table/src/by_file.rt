//! Rows in the order of their files, so that the rows of each file stand together.
ghost use Rattle.std.specs.Prelude.{◌≡◌, ℕ, OnOk, filter};
ghost use Rattle.std.specs.List.Sorted.{IsNonDecreasingBy};
ghost use Rattle.serial_table.specs.View.{is_of_file, is_range_of};
ghost use Rattle.serial_table.specs.ByFile.{file_of_open, file_of_range};

use crate::rows::{OpenRow, RangeRow};
use sid_core::OutOfMemory;

/// Sorts opens by their files, each file's in the order in which they stood.
pub(crate) fn sort_opens(opens: &mut Vec<OpenRow>) -> Result<(), OutOfMemory>
    ensures sorted { OnOk result (IsNonDecreasingBy file_of_open opens.new.items) }
    ensures same { OnOk result ((file : ℕ) → filter (is_of_file file) opens.new.items ≡ filter (is_of_file file) opens.old.items) }
{
    opens.sort_by_key(|row| row.file)?;
    Ok(())
}

/// Sorts ranges by their files, each file's in the order in which they stood.
pub(crate) fn sort_ranges(ranges: &mut Vec<RangeRow>) -> Result<(), OutOfMemory>
    ensures sorted { OnOk result (IsNonDecreasingBy file_of_range ranges.new.items) }
    ensures same { OnOk result ((file : ℕ) → filter (is_range_of file) ranges.new.items ≡ filter (is_range_of file) ranges.old.items) }
{
    ranges.sort_by_key(|range| range.file)?;
    Ok(())
}

/// The file's opens, of opens that are sorted by their files: by binary search.
pub(crate) fn opens_of(sorted: &[OpenRow], file: u64) -> &[OpenRow]
    requires { IsNonDecreasingBy file_of_open sorted.now }
    ensures { result.now ≡ filter (is_of_file file) sorted.now }
{
    let start = sorted.partition_point(|row| u64::from(row.file) < file);
    let rest = &sorted[start..];
    let count = rest.partition_point(|row| u64::from(row.file) <= file);
    &rest[..count]
}

/// The file's ranges, of ranges that are sorted by their files: by binary search.
pub(crate) fn ranges_of(sorted: &[RangeRow], file: u64) -> &[RangeRow]
    requires { IsNonDecreasingBy file_of_range sorted.now }
    ensures { result.now ≡ filter (is_range_of file) sorted.now }
{
    let start = sorted.partition_point(|range| u64::from(range.file) < file);
    let rest = &sorted[start..];
    let count = rest.partition_point(|range| u64::from(range.file) <= file);
    &rest[..count]
}
