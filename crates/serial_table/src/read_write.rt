ghost use Rattle.std.specs.Prelude.{◌≡◌, IfSome, IfNone, IfOk, Bool, not, ◌==◌, filter, if◌then◌else◌};
ghost use Rattle.std.specs.List.{list_any};
ghost use Rattle.sid_core.specs.Values.{has};
ghost use Rattle.sid_core.specs.declared.reply.Reply.TheVariants.{FileLockConflict, Done};
ghost use Rattle.serial_table.specs.declared.rows.RangeRow.{RangeRow};
ghost use Rattle.serial_table.specs.declared.decision.Decision.{Decision};
ghost use Rattle.serial_table.specs.View.{view, is_range_of};
ghost use Rattle.serial_table.specs.File.{FileView, file_view};
ghost use Rattle.serial_table.specs.Decision.{only_reply};
ghost use Rattle.serial_table.specs.Break.{break_others, none_of_them};
ghost use Rattle.serial_table.specs.ReadWrite.{if_allowed, forbids_read, read_file, read, forbids_write, written, write_file, write};

use crate::breaks::breaks_of_others;
use crate::close::open_of_handle;
use crate::decision::{self, Caller, Decision};
use crate::range::{is_exclusive, overlap, passes_end};
use crate::rows::{OpenRow, RangeRow};
use crate::table::Table;
use crate::view;
use bitflags::Flags;
use sid_core::{Access, LeaseState, Moment, OutOfMemory, Reply, Span};

const READS: Access = Access(0x21);

const WRITES: Access = Access(0x6);

/// What a read and a write answer before they look at any range, if that decides.
pub(crate) fn reply_at_once(row: &OpenRow, wanted: Access, span: Span) -> Option<Reply>
    ensures some { IfSome result (λ reply. (f : FileView) (forbids : RangeRow → Bool) (done : Decision) → if_allowed f row.now wanted.0 span forbids done ≡ only_reply reply) }
    ensures none { IfNone result ((f : FileView) (forbids : RangeRow → Bool) (done : Decision)
        → if_allowed f row.now wanted.0 span forbids done ≡ (if list_any forbids f.ranges then only_reply FileLockConflict else done)) }
{
    if !row.access.intersects(wanted) {
        return Some(Reply::AccessDenied);
    }
    if span.length == 0 {
        return Some(Reply::Done);
    }
    if passes_end(span) {
        return Some(Reply::InvalidParameter);
    }
    None
}

// ---- read

fn forbids_read(row: &OpenRow, span: Span, range: &RangeRow) -> bool
    ensures { result ≡ forbids_read row.now span range.now }
{
    overlap(range.span, span) && (is_exclusive(range.mode) && range.id != row.id)
}

fn some_forbids_read(table: &Table, span: Span, row: &OpenRow) -> bool
    ensures { result ≡ list_any (forbids_read row.now span) (filter (is_range_of row.now.file) table.now.ranges) }
{
    table
        .ranges
        .as_slice()
        .iter()
        .filter(|range| view::is_range_of(row.file, range))
        .any(|range| forbids_read(row, span, range))
}

fn read_among(table: &Table, span: Span, row: &OpenRow) -> Decision
    ensures { result ≡ (if list_any (forbids_read row.now span) (filter (is_range_of row.now.file) table.now.ranges) then only_reply FileLockConflict else only_reply Done) }
{
    let alloc = table.ranges.allocator();
    if some_forbids_read(table, span, row) {
        decision::only_reply(alloc, Reply::FileLockConflict)
    } else {
        decision::only_reply(alloc, Reply::Done)
    }
}

fn read_file(table: &Table, span: Span, row: &OpenRow) -> Decision
    ensures { result ≡ read_file (file_view row.now.file (view table.now)) span row.now }
{
    match reply_at_once(row, READS, span) {
        Some(reply) => decision::only_reply(table.ranges.allocator(), reply),
        None => read_among(table, span, row),
    }
}

/// What a `read` decides.
pub(crate) fn read(table: &Table, caller: &Caller, handle: u32, span: Span) -> Decision
    ensures { result ≡ read (view table.now) caller.now handle span }
{
    match open_of_handle(table, caller.sid, handle) {
        Some(row) => read_file(table, span, &row),
        None => decision::only_reply(table.opens.allocator(), Reply::FileClosed),
    }
}

// ---- write

fn forbids_write(row: &OpenRow, span: Span, range: &RangeRow) -> bool
    ensures { result ≡ forbids_write row.now span range.now }
{
    overlap(range.span, span) && (!is_exclusive(range.mode) || range.id != row.id)
}

fn some_forbids_write(table: &Table, span: Span, row: &OpenRow) -> bool
    ensures { result ≡ list_any (forbids_write row.now span) (filter (is_range_of row.now.file) table.now.ranges) }
{
    table
        .ranges
        .as_slice()
        .iter()
        .filter(|range| view::is_range_of(row.file, range))
        .any(|range| forbids_write(row, span, range))
}

fn written(table: &Table, now: Moment, row: &OpenRow) -> Result<Decision, OutOfMemory>
    ensures { IfOk result (λ decision. decision ≡ written row.now (break_others now row.now.file (file_view row.now.file (view table.now)) none_of_them row.now.lease)) }
{
    breaks_of_others(table, now, row.file, LeaseState(0), row.lease)?.decided(row.file, Reply::Done)
}

fn write_among(
    table: &Table,
    now: Moment,
    span: Span,
    row: &OpenRow,
) -> Result<Decision, OutOfMemory>
    ensures { IfOk result (λ decision. decision ≡ (if list_any (forbids_write row.now span) (filter (is_range_of row.now.file) table.now.ranges) then only_reply FileLockConflict else written row.now (break_others now row.now.file (file_view row.now.file (view table.now)) none_of_them row.now.lease))) }
{
    if some_forbids_write(table, span, row) {
        Ok(decision::only_reply(table.ranges.allocator(), Reply::FileLockConflict))
    } else {
        written(table, now, row)
    }
}

fn write_file(
    table: &Table,
    now: Moment,
    span: Span,
    row: &OpenRow,
) -> Result<Decision, OutOfMemory>
    ensures { IfOk result (λ decision. decision ≡ write_file now (file_view row.now.file (view table.now)) span row.now) }
{
    match reply_at_once(row, WRITES, span) {
        Some(reply) => Ok(decision::only_reply(table.ranges.allocator(), reply)),
        None => write_among(table, now, span, row),
    }
}

/// What a `write` decides.
pub(crate) fn write(
    table: &Table,
    caller: &Caller,
    handle: u32,
    span: Span,
) -> Result<Decision, OutOfMemory>
    ensures { IfOk result (λ decision. decision ≡ write (view table.now) caller.now handle span) }
{
    match open_of_handle(table, caller.sid, handle) {
        Some(row) => write_file(table, caller.moment, span, &row),
        None => Ok(decision::only_reply(table.opens.allocator(), Reply::FileClosed)),
    }
}
