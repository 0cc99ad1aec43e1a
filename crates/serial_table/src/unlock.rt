ghost use Rattle.std.specs.Prelude.{◌≡◌, IfOk, filter};
ghost use Rattle.std.specs.List.{list_any};
ghost use Rattle.serial_table.specs.View.{view, is_range_of};
ghost use Rattle.serial_table.specs.File.{file_view};
ghost use Rattle.serial_table.specs.Change.{same_range};
ghost use Rattle.serial_table.specs.Unlock.{drop_range, unlock_range, unlock};

use crate::change::Change;
use crate::close::open_of_handle;
use crate::decision::{self, Caller, Decision};
use crate::perform::is_same_range;
use crate::range::range_of;
use crate::rows::{OpenRow, RangeRow};
use crate::table::Table;
use crate::view;
use sid_core::{Items, Mode, OutOfMemory, Reply, Span};
use std::alloc::Global;

fn has_range(table: &Table, file: u32, range: &RangeRow) -> bool
    ensures { result ≡ list_any (same_range range.now) (filter (is_range_of file) table.now.ranges) }
{
    table
        .ranges
        .as_slice()
        .iter()
        .filter(|held| view::is_range_of(file, held))
        .any(|held| is_same_range(range, held))
}

fn drop_range(alloc: Global, row: &OpenRow, span: Span, mode: Mode) -> Result<Decision, OutOfMemory>
    ensures { IfOk result (λ decision. decision ≡ drop_range row.now span mode) }
{
    let dropped = Change::DropRange(range_of(row, span, mode));
    Ok(Decision {
        changes: Items::from_vec(vec![in alloc; dropped]?),
        spots: decision::spots_of(alloc, row.file)?,
        ..decision::only_reply(alloc, Reply::Done)
    })
}

fn unlock_range(table: &Table, span: Span, row: &OpenRow) -> Result<Decision, OutOfMemory>
    ensures { IfOk result (λ decision. decision ≡ unlock_range (file_view row.now.file (view table.now)) span row.now) }
{
    let alloc = table.ranges.allocator();
    if has_range(table, row.file, &range_of(row, span, Mode::Exclusive)) {
        drop_range(alloc, row, span, Mode::Exclusive)
    } else if has_range(table, row.file, &range_of(row, span, Mode::Shared)) {
        drop_range(alloc, row, span, Mode::Shared)
    } else {
        Ok(decision::only_reply(alloc, Reply::RangeNotLocked))
    }
}

/// What an `unlock` decides.
pub(crate) fn unlock(
    table: &Table,
    caller: &Caller,
    handle: u32,
    span: Span,
) -> Result<Decision, OutOfMemory>
    ensures { IfOk result (λ decision. decision ≡ unlock (view table.now) caller.now handle span) }
{
    match open_of_handle(table, caller.sid, handle) {
        Some(row) => unlock_range(table, span, &row),
        None => Ok(decision::only_reply(table.opens.allocator(), Reply::FileClosed)),
    }
}
