//! Parts of records as rows of the table.
ghost use Rattle.std.specs.Prelude.{◌≡◌};
ghost use Rattle.std.specs.Option.{option_copied};
ghost use Rattle.serial_table.specs.ByNumber.{declared_at};
ghost use Rattle.record_rows.specs.Rows as rows;
ghost use Rattle.server_ids.specs.Sessions as sessions;

use leases_db::breaking_of;
use record_codec::{LeaseRec, RangeItem, RegisterRec, ShareEntry};
use serial_table::{LeaseRow, OpenRow, RangeRow, WorkerRow};
use sid_core::{FileInfo, LeaseName, Moment, Span};

pub(crate) fn worker_row(pid: u32, rec: &RegisterRec) -> WorkerRow
    ensures { result ≡ sessions.worker_row pid rec.now }
{
    WorkerRow {
        worker: rec.worker,
        pid,
        alive: rec.alive,
        session: rec.session,
        connected: Moment(rec.connected),
    }
}

pub(crate) fn open_row(file: u32, entry: &ShareEntry) -> OpenRow
    ensures { result ≡ rows.open_row file entry.now }
{
    OpenRow {
        id: entry.id,
        owner: entry.owner,
        handle: entry.handle,
        file,
        access: entry.access,
        share: entry.share,
        lease: entry.lease,
        durable: entry.durable,
        opened: Moment(entry.opened),
        marked: entry.marked,
    }
}

pub(crate) fn lease_row(name: LeaseName, rec: &LeaseRec) -> LeaseRow
    ensures { result ≡ rows.lease_row name rec.now }
{
    LeaseRow {
        name,
        file: rec.file,
        held: rec.held,
        breaking: breaking_of(rec),
    }
}

pub(crate) fn range_row(file: u32, range: &RangeItem) -> RangeRow
    ensures { result ≡ rows.range_row file range.now }
{
    RangeRow {
        id: range.id,
        file,
        span: Span {
            start: range.start,
            length: range.length,
        },
        mode: range.mode,
    }
}

/// The file that is declared with this number.
pub(crate) fn declared(infos: &[FileInfo], file: u32) -> Option<&FileInfo>
    ensures { option_copied result ≡ declared_at infos.now file }
{
    let place = file.checked_sub(1)?;
    infos.get(place as usize)
}
