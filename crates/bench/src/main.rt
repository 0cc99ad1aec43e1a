//! Works on chains, records and tables over and over, so that a profiler can tell what a call costs. Each line of the input
//! has an operation, a size and how often it is done, and for a chain the order in which its keys came: `find 1250 100
//! random`, `pack 10 100`, `close 500 100`, `txn 6 100` or `living 10 100`. Its answer is a sum that depends on what was done.
#![tactic(auto)]

mod chains;
mod parts;
mod records;
mod tables;

use anyhow::{Context, Result};
use chains::{ChainWork, Order};
use records::RecordWork;
use std::alloc::Global;
use txn_work::transact;

fn main(rt: HostRuntime) -> Result<()> {
    let alloc = rt.alloc();
    for line in rt.lines(alloc) {
        let line = line?;
        println!(rt; "{}", answer(alloc, line.as_str())?)?;
    }
    Ok(())
}

fn answer(alloc: Global, line: &str) -> Result<u64> {
    let mut words = line.split_whitespace();
    let word = words.next().unwrap_or("");
    let size = words.next().unwrap_or("").parse::<u32>().context("size")?;
    let times = words.next().unwrap_or("").parse::<u32>().context("times")?;
    if let Some(work) = RecordWork::named(word) {
        return records::count(alloc, work, size, times);
    }
    if word == "close" {
        return tables::count(alloc, size, times);
    }
    if word == "txn" {
        transact(alloc, size == 6, 18, times)?;
        return Ok(times.into());
    }
    let how = words.next().unwrap_or("");
    let Some(work) = ChainWork::named(word) else {
        return parts::count(alloc, word, size, times, how == "bare");
    };
    let order = Order::named(how).context("no such order")?;
    chains::count(alloc, work, order, size, times)
}
