//! What is written of one row, and what stands round the rows: for the tables here, and for those over records.
ghost use Rattle.std.specs.Prelude.{◌≡◌, ◌==◌, ◌++◌, [], codes, OnOk, find, if◌then◌else◌};
ghost use Rattle.std.specs.Option.{option_map, option_map_or};
ghost use Rattle.std.specs.Fmt.{decimal};
ghost use Rattle.sid_core.specs.declared.setup.WorkerInfo.{WorkerInfo};
ghost use Rattle.serial_table.specs.Showing.{lease_text, pid_of_owner};
ghost use Rattle.serial_table.specs.Tables.{column, shares_line, shares_head, shares_row, files_head, files_page, owner_text, user_text, deny_text, access_text, mode_text, open_row, ranges_head, ranges_page, range_row};

use super::column::{
    push_column, push_line, push_number, push_number_line, push_rows_or_none, push_two,
};
use crate::rows::{LeaseRow, OpenRow, RangeRow, WorkerRow};
use bitflags::Flags;
use sid_core::{Access, FileInfo, Moment, OutOfMemory, Setup, Share, WorkerInfo};

/// The owner of an open: the pid of its session, and whether that is the current one of a living worker.
#[derive(Clone, Copy)]
pub struct Owner {
    pub pid: u32,
    pub connected: bool,
}

// ---- shares

fn shares_head() -> &'static [u8]
    ensures { result.now ≡ shares_head }
{
    b"Service      Pid    Machine      Connected\n------------------------------------------\n"
}

/// Adds the head of the table that says who is connected.
pub fn push_shares_head(out: &mut Vec<u8>) -> Result<(), OutOfMemory>
    ensures { OnOk result (out.new.items ≡ out.old.items ++ shares_head) }
{
    out.extend_from_slice(shares_head())?;
    Ok(())
}

fn push_share_line(
    out: &mut Vec<u8>,
    info: &WorkerInfo,
    connected: Moment,
) -> Result<(), OutOfMemory>
    ensures { OnOk result (out.new.items ≡ out.old.items ++ shares_line info.now.share (decimal info.now.pid) info.now.machine (decimal connected.0)) }
{
    push_column(out, 12, info.share.bytes())?;
    push_number(out, 6, info.pid as u64)?;
    push_column(out, 12, info.machine.bytes())?;
    push_number_line(out, connected.0)
}

/// Adds the row of a worker, if it lives.
pub fn push_worker_row(
    out: &mut Vec<u8>,
    info: &WorkerInfo,
    row: &WorkerRow,
) -> Result<(), OutOfMemory>
    ensures { OnOk result (out.new.items ≡ out.old.items ++ shares_row info.now row.now) }
{
    if row.alive {
        push_share_line(out, info, row.connected)?;
    }
    Ok(())
}

// ---- files

fn push_owner(out: &mut Vec<u8>, pid: u32, connected: bool) -> Result<(), OutOfMemory>
    ensures { OnOk result (out.new.items ≡ out.old.items ++ column 6 (owner_text connected pid)) }
{
    if connected {
        push_number(out, 6, pid as u64)
    } else {
        push_column(out, 6, b"-")
    }
}

fn user_of(setup: &Setup, pid: u32) -> Option<u32>
    ensures { result ≡ option_map (λ (info : WorkerInfo). info.uid) (find (λ (info : WorkerInfo). info.pid == pid) setup.now.workers) }
{
    setup
        .workers
        .as_slice()
        .iter()
        .find(|info| info.pid == pid)
        .map(|info| info.uid)
}

fn push_user(out: &mut Vec<u8>, setup: &Setup, pid: u32) -> Result<(), OutOfMemory>
    ensures { OnOk result (out.new.items ≡ out.old.items ++ column 6 (user_text setup.now pid)) }
{
    match user_of(setup, pid) {
        Some(uid) => push_number(out, 6, uid as u64),
        None => push_column(out, 6, b""),
    }
}

fn deny_text(share: Share) -> &'static str
    ensures { result.now ≡ deny_text share }
{
    match (
        share.intersects(Share::FILE_SHARE_READ),
        share.intersects(Share::FILE_SHARE_WRITE),
    ) {
        (true, true) => "DENY_NONE",
        (true, false) => "DENY_WRITE",
        (false, true) => "DENY_READ",
        (false, false) => "DENY_ALL",
    }
}

fn push_access(out: &mut Vec<u8>, access: Access) -> Result<(), OutOfMemory>
    ensures { OnOk result (out.new.items ≡ out.old.items ++ column 9 (access_text access)) }
{
    let alloc = *out.allocator();
    let digits = format!(in alloc; "{:x}", access.0)?;
    push_two(out, 9, b"0x", digits.as_bytes())
}

fn mode_text(access: Access) -> &'static str
    ensures { result.now ≡ mode_text access }
{
    if !access.intersects(Access::FILE_WRITE_DATA) {
        "RDONLY"
    } else if access.intersects(Access::FILE_READ_DATA) {
        "RDWR"
    } else {
        "WRONLY"
    }
}

fn star(breaking: bool) -> &'static str
    ensures { result.now ≡ (if breaking then codes "*" else codes "") }
{
    if breaking { "*" } else { "" }
}

fn push_lease(out: &mut Vec<u8>, lease: Option<LeaseRow>) -> Result<(), OutOfMemory>
    ensures { OnOk result (out.new.items ≡ out.old.items ++ column 5 (lease_text lease)) }
{
    match lease {
        Some(lease) => push_two(
            out,
            5,
            lease.held.text().as_bytes(),
            star(lease.breaking.is_some()).as_bytes(),
        ),
        None => push_column(out, 5, b"NONE"),
    }
}

fn push_rights(out: &mut Vec<u8>, row: &OpenRow) -> Result<(), OutOfMemory>
    ensures { OnOk result (out.new.items ≡ out.old.items ++ (column 10 (deny_text row.now.share) ++ (column 9 (access_text row.now.access) ++ column 6 (mode_text row.now.access)))) }
{
    push_column(out, 10, deny_text(row.share).as_bytes())?;
    push_access(out, row.access)?;
    push_column(out, 6, mode_text(row.access).as_bytes())
}

/// Adds the row of an open of the file: whether its owner is connected, and the lease under which it is.
pub fn push_open_row(
    out: &mut Vec<u8>,
    setup: &Setup,
    info: &FileInfo,
    connected: bool,
    row: &OpenRow,
    lease: Option<LeaseRow>,
) -> Result<(), OutOfMemory>
    ensures { OnOk result (out.new.items ≡ out.old.items ++ open_row setup.now info.now connected row.now (lease_text lease)) }
{
    push_owner(out, row.owner.pid, connected)?;
    push_user(out, setup, row.owner.pid)?;
    push_rights(out, row)?;
    push_lease(out, lease)?;
    push_column(out, 12, info.path.bytes())?;
    push_column(out, 12, info.name.bytes())?;
    push_number_line(out, row.opened.0)
}

fn files_head() -> &'static [u8]
    ensures { result.now ≡ files_head }
{
    b"Locked files:\nPid    User   DenyMode   Access    R/W    Lease Path         Name         Time\n------------------------------------------------------------------------------\n"
}

/// Adds the table that says which files are open, with these rows.
pub fn push_files_page(out: &mut Vec<u8>, rows: &[u8]) -> Result<(), OutOfMemory>
    ensures { OnOk result (out.new.items ≡ out.old.items ++ files_page rows.now) }
{
    push_rows_or_none(out, b"No locked files", files_head(), rows)
}

// ---- ranges

fn push_owner_or_none(out: &mut Vec<u8>, owner: Option<Owner>) -> Result<(), OutOfMemory>
    ensures { OnOk result (out.new.items ≡ out.old.items ++ column 6 (pid_of_owner owner)) }
{
    match owner {
        Some(owner) => push_owner(out, owner.pid, owner.connected),
        None => push_column(out, 6, b""),
    }
}

/// Adds the row of a range of the file: whose its open is, if it is there.
pub fn push_range_row(
    out: &mut Vec<u8>,
    info: &FileInfo,
    owner: Option<Owner>,
    range: &RangeRow,
) -> Result<(), OutOfMemory>
    ensures { OnOk result (out.new.items ≡ out.old.items ++ range_row info.now (pid_of_owner owner) range.now) }
{
    push_owner_or_none(out, owner)?;
    push_column(out, 4, range.mode.lock_text().as_bytes())?;
    push_number(out, 20, range.span.start)?;
    push_number(out, 20, range.span.length)?;
    push_line(out, info.name.bytes())
}

fn ranges_head() -> &'static [u8]
    ensures { result.now ≡ ranges_head }
{
    b"Byte range locks:\nPid    Kind Start                Length               Name\n----------------------------------------------------------\n"
}

/// Adds the table that says which byte ranges are locked, with these rows.
pub fn push_ranges_page(out: &mut Vec<u8>, rows: &[u8]) -> Result<(), OutOfMemory>
    ensures { OnOk result (out.new.items ≡ out.old.items ++ ranges_page rows.now) }
{
    push_rows_or_none(out, b"No byte range locks", ranges_head(), rows)
}
