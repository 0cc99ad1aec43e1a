ghost use Rattle.std.specs.Prelude.{◌≡◌, ◌+◌, ◌-◌, ◌^◌, ◌<◌, ◌≤◌, ◌↔◌, ◌⊎◌, ◌++◌, ℕ, List, [], Option, Some, Ok, min, take, drop, length, is_ok, if◌then◌else◌, IsErr, Contains, IfOk, OnOk, OnErr};
ghost use Rattle.sid_core.specs.Faults.{Rose};
ghost use Rattle.opendb_run.specs.Memory.{Incoming, Outgoing, counted};

use crate::schedule::Schedule;
use sid_core::{Failed, OutOfMemory, Sink, Source};
use std::alloc::Global;
use std::marker::Model;

/// A source in memory.
#[derive(Debug, Drop)]
pub struct Bytes {
    bytes: Vec<u8>,
    at: usize,
    most: usize,
    schedule: Schedule,
}

impl Model for Bytes {
    ghost Value = { Incoming };

    ghost view = { λ source. record {
      rest = drop source.at source.bytes.items;
      most = source.most;
      failing = source.schedule.failing.items;
      reads = source.schedule.calls;
      failed = source.schedule.faults;
    } };

    ghost invariant = { λ source. (source.at ≤ length source.bytes.items) × (1 ≤ source.most) };
}

impl Bytes {
    /// Gives at most `most` bytes a read. It fails at the reads whose numbers, from 1, are in `failing`.
    pub fn new(bytes: Vec<u8>, most: usize, failing: Vec<u64>) -> Bytes
        requires { 1 ≤ most }
        ensures { result ≡ record {
          rest = bytes.items;
          most = most;
          failing = failing.items;
          reads = 0;
          failed = 0;
        } }
    {
        Bytes {
            bytes,
            at: 0,
            most,
            schedule: Schedule::new(failing),
        }
    }
}

impl Source for Bytes {
    ghost left = { λ source. Some source.rest };

    ghost faults = { λ source. source.failed };

    fn read(&mut self, into: &mut [u8]) -> Result<usize, Failed>
        requires { 0 < length into.old }
        ensures count { IfOk result (λ n. n ≤ length into.new) }
        ensures taken { IfOk result (λ n. self.old.rest ≡ take n into.new ++ self.new.rest) }
        ensures end { result ≡ Ok 0 → self.old.rest ≡ [] }
        ensures failed { OnErr result (Rose self.old.failed self.new.failed) }
        ensures kept { OnErr result (self.new.rest ≡ self.old.rest) }
        ensures faults { self.old.failed ≤ self.new.failed }

        // What a read from memory says beyond that.
        ensures exact { IfOk result (λ n.
            n ≡ min (min (length self.old.rest) self.old.most) (length into.old)) }
        ensures fails { IsErr result ↔ Contains self.old.failing self.new.reads }
        ensures reads { self.new.reads ≡ counted self.old.reads }
        ensures counts { self.new.failed
            ≡ (if is_ok result then self.old.failed else counted self.old.failed) }
        ensures settings { (self.new.most ≡ self.old.most) × (self.new.failing ≡ self.old.failing) }
    {
        if self.schedule.next_fails() {
            return Err(self.schedule.fail());
        }
        let rest = &self.bytes[self.at..];
        let count = rest.len().min(self.most).min(into.len());
        write_at(into, 0, &rest[..count]);
        self.at += count;
        Ok(count)
    }
}

/// Writes `bytes` over those that stand from `at` on.
fn write_at(into: &mut [u8], at: usize, bytes: &[u8])
    requires { at + length bytes.now ≤ length into.old }
    ensures { take (at + length bytes.now) into.new ≡ take at into.old ++ bytes.now }
{
    into[at..at + bytes.len()].copy_from_slice(bytes);
}

/// A sink in memory. Its room is made when it is made, so a write takes no memory.
#[derive(Debug, Drop)]
pub struct Page {
    room: Vec<u8>,
    used: usize,
    most: usize,
    schedule: Schedule,
}

impl Model for Page {
    ghost Value = { Outgoing };

    ghost view = { λ page. record {
      bytes = take page.used page.room.items;
      room = length page.room.items;
      most = page.most;
      failing = page.schedule.failing.items;
      writes = page.schedule.calls;
      failed = page.schedule.faults;
    } };

    ghost invariant = { λ page. (page.used ≤ length page.room.items) × (1 ≤ page.most) };
}

impl Page {
    /// Takes at most `most` bytes a write and `room` bytes in all. It fails at the writes whose
    /// numbers, from 1, are in `failing`, and at those that find no room left.
    pub fn new(
        alloc: Global,
        room: usize,
        most: usize,
        failing: Vec<u64>,
    ) -> Result<Page, OutOfMemory>
        requires { 1 ≤ most }
        ensures { IfOk result (λ page. page ≡ record {
          bytes = [];
          room = room;
          most = most;
          failing = failing.items;
          writes = 0;
          failed = 0;
        }) }
    {
        Ok(Page {
            room: Vec::from_elem(alloc, 0, room)?,
            used: 0,
            most,
            schedule: Schedule::new(failing),
        })
    }

    /// What was written.
    pub fn bytes(&self) -> &[u8]
        ensures { result.now ≡ self.now.bytes }
    {
        &self.room[..self.used]
    }
}

impl Sink for Page {
    ghost written = { λ page. Some page.bytes };

    ghost faults = { λ page. page.failed };

    fn write(&mut self, from: &[u8]) -> Result<usize, Failed>
        requires { 0 < length from.now }
        ensures some { IfOk result (λ n. 0 < n) }
        ensures count { IfOk result (λ n. n ≤ length from.now) }
        ensures added { IfOk result (λ n. self.new.bytes ≡ self.old.bytes ++ take n from.now) }
        ensures failed { OnErr result (Rose self.old.failed self.new.failed) }
        ensures kept { OnErr result (self.new.bytes ≡ self.old.bytes) }
        ensures faults { self.old.failed ≤ self.new.failed }

        // What a write to memory says beyond that.
        ensures exact { IfOk result (λ n. n ≡ min (min (length from.now) self.old.most)
            (self.old.room - length self.old.bytes)) }
        ensures fails { IsErr result ↔ (Contains self.old.failing self.new.writes
            ⊎ (length self.old.bytes ≡ self.old.room)) }
        ensures writes { self.new.writes ≡ counted self.old.writes }
        ensures counts { self.new.failed
            ≡ (if is_ok result then self.old.failed else counted self.old.failed) }
        ensures settings { (self.new.room ≡ self.old.room) × (self.new.most ≡ self.old.most)
            × (self.new.failing ≡ self.old.failing) }
    {
        let is_to_fail = self.schedule.next_fails();
        let free = self.room.len() - self.used;
        if is_to_fail || free == 0 {
            return Err(self.schedule.fail());
        }
        let count = from.len().min(self.most).min(free);
        write_at(&mut self.room, self.used, &from[..count]);
        self.used += count;
        Ok(count)
    }
}
