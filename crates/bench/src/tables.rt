ghost use Rattle.std.specs.Prelude.{◌≡◌};
ghost use Rattle.serial_table.specs.Settle.{settle};

use anyhow::{Context, Result};
use serial_table::{LeaseRow, OpenRow, Table};
use sid_core::{
    Access, Call, FileInfo, Items, LeaseName, LeaseState, Moment, OpenId, Setup, Share, Sid, Text,
    WorkerInfo,
};
use std::alloc::Global;

// How many opens the file has that is worked on, each under a lease of its own.
const OPENS: u32 = 5000;

/// Closes so many opens of a file with 5,000 opens under 5,000 leases, beside so many leases of other files, each with its open. Answers
/// how many opens are left.
pub fn count(alloc: Global, others: u32, times: u32) -> Result<u64> {
    let setup = one_worker(alloc)?;
    if setup.workers.len() > 64 {
        return Ok(0);
    }
    let mut table = Table::start(alloc, &setup)?;
    for call in 1..=OPENS {
        push_open(&mut table, call, 1)?;
    }
    for other in 1..=others {
        push_open(
            &mut table,
            OPENS.saturating_add(other),
            other.saturating_add(1),
        )?;
    }
    table.settle();
    close_often(&setup, &mut table, times)?;
    Ok(table.opens.len() as u64)
}

fn one_worker(alloc: Global) -> Result<Setup> {
    let worker = WorkerInfo {
        pid: 101,
        uid: 1000,
        guid: 1,
        machine: Text::new(alloc),
        share: Text::new(alloc),
        old: false,
    };
    Ok(Setup {
        workers: Items::from_vec(vec![in alloc; worker]?),
        files: Items::new(alloc),
    })
}

// An open of the file by the worker's call of this number, under a lease whose key is the number.
fn push_open(table: &mut Table, call: u32, file: u32) -> Result<()> {
    let name = LeaseName {
        guid: 1,
        key: call as u64,
    };
    table.opens.push(OpenRow {
        id: OpenId { pid: 101, call },
        owner: Sid {
            pid: 101,
            session: 1,
        },
        handle: call,
        file,
        access: Access(0x1),
        share: Share(7),
        lease: Some(name),
        durable: 0,
        opened: Moment(0),
        marked: false,
    })?;
    table.leases.push(LeaseRow {
        name,
        file,
        held: LeaseState(7),
        breaking: None,
    })?;
    Ok(())
}

fn close_often(setup: &Setup, table: &mut Table, times: u32) -> Result<()>
    requires settled { settle table.old ≡ table.old }
{
    for handle in 1..=times {
        close(setup, table, handle)?;
    }
    Ok(())
}

fn close(setup: &Setup, table: &mut Table, handle: u32) -> Result<()>
    requires settled { settle table.old ≡ table.old }
    ensures settled { settle table.new ≡ table.new }
{
    let caller = table
        .caller(setup, 1, handle, Moment(1))
        .context("no caller")?;
    if caller.sid.session == u32::MAX {
        return Ok(());
    }
    let _answer = table.call(setup, &caller, Call::Close { handle })?;
    Ok(())
}
