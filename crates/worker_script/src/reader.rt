ghost use Rattle.std.specs.Prelude.{◌≡◌, ◌<◌, ◌≤◌, ◌-◌, ◌||◌, OnOk, IsSome, Ok, length, slice_index_or, slice_set, is_some, if◌then◌else◌};
ghost use Rattle.sid_core.specs.declared.limits.TheConstants.{MAX_CALLS};
ghost use Rattle.worker_script.specs.Lines.{nothing, with_planned, planned_in, next_number};
ghost use Rattle.worker_script.specs.Calls.{with_call, has_stopped};
ghost use Rattle.worker_script.specs.Script.{is_status_call};
ghost use Rattle.worker_script.specs.Reader.{draft_of, no_tally, IsReader, Reads};

use crate::fault::Fault;
use crate::script::{Phase, Planned};
use sid_core::{Call, FileInfo, Items, OutOfMemory, Point, WorkerInfo};
use std::alloc::Global;
use std::collections::BTreeSet;

/// What is planned for a worker: how many calls, and whether it dies in one of them.
#[derive(Clone, Copy, Debug, PartialEq, Eq)]
pub(crate) struct Tally {
    pub made: u32,
    pub stopped: bool,
}

/// What the lines so far say.
#[derive(Drop)]
pub(crate) struct Reader {
    pub alloc: Global,
    pub workers: Items<WorkerInfo>,
    pub files: Items<FileInfo>,
    /// Where the files are, by device and inode.
    pub places: BTreeSet<(u64, u64)>,
    /// The phases that are over, and the one that calls go to.
    pub phases: Items<Phase>,
    pub current: Option<Phase>,
    /// How many calls are planned, and how many of them are `status`.
    pub calls: u32,
    pub statuses: u32,
    /// By worker.
    pub tallies: Vec<Tally>,
}

impl Reader {
    pub fn new(alloc: Global) -> Reader
        ensures empty { draft_of result ≡ nothing }
        ensures reader { IsReader result }
    {
        Reader {
            alloc,
            workers: Items::new(alloc),
            files: Items::new(alloc),
            places: BTreeSet::new(alloc),
            phases: Items::new(alloc),
            current: None,
            calls: 0,
            statuses: 0,
            tallies: Vec::new(alloc),
        }
    }

    /// Adds the next call of a declared worker.
    pub fn plan(&mut self, worker: u32, call: Call, stop: Option<Point>) -> Result<(), Fault>
        requires reader { IsReader self.old }
        requires room { self.old.calls < MAX_CALLS }
        requires phase { IsSome self.old.current }
        requires some { 1 ≤ worker }
        requires declared { worker ≤ length self.old.workers }
        ensures { Reads (Ok (with_call (draft_of self.old) worker call stop)) self.new result }
    {
        let number = self.next_number(worker);
        let stopped = stops(self.has_stopped(worker), stop);
        let planned = Planned {
            worker,
            number,
            call,
            stop,
        };
        push_planned(&mut self.current, planned)?;
        self.calls += 1;
        self.statuses += count_of(is_status_call(&call));
        set_tally(
            &mut self.tallies,
            worker,
            Tally {
                made: number,
                stopped,
            },
        );
        Ok(())
    }

    // The number of a worker's next call.
    fn next_number(&self, worker: u32) -> u32
        requires reader { IsReader self.now }
        requires room { self.now.calls < MAX_CALLS }
        requires some { 1 ≤ worker }
        requires declared { worker ≤ length self.now.workers }
        ensures { result ≡ next_number (draft_of self.now) worker }
    {
        tally_of(&self.tallies, worker).made + 1
    }

    /// Whether a worker dies in a planned call.
    pub fn has_stopped(&self, worker: u32) -> bool
        requires reader { IsReader self.now }
        requires some { 1 ≤ worker }
        requires declared { worker ≤ length self.now.workers }
        ensures { result ≡ has_stopped worker (planned_in (draft_of self.now)) }
    {
        tally_of(&self.tallies, worker).stopped
    }
}

fn tally_of(tallies: &Vec<Tally>, worker: u32) -> Tally
    requires some { 1 ≤ worker }
    requires within { worker ≤ length tallies.now.items }
    ensures { result ≡ slice_index_or tallies.now.items (worker - 1) no_tally }
{
    tallies[worker as usize - 1]
}

fn set_tally(tallies: &mut Vec<Tally>, worker: u32, tally: Tally)
    requires some { 1 ≤ worker }
    requires within { worker ≤ length tallies.old.items }
    ensures { tallies.new.items ≡ slice_set tallies.old.items (worker - 1) tally }
{
    tallies[worker as usize - 1] = tally;
}

fn stops(before: bool, stop: Option<Point>) -> bool
    ensures { result ≡ (before || is_some stop) }
{
    before || stop.is_some()
}

fn count_of(one: bool) -> u32
    ensures { result ≡ (if one then 1 else 0) }
{
    if one { 1 } else { 0 }
}

fn is_status_call(call: &Call) -> bool
    ensures { result ≡ is_status_call call.now }
{
    match call {
        Call::Status { .. } => true,
        _ => false,
    }
}

/// Adds a call at the end of the phase.
pub(crate) fn push_planned(current: &mut Option<Phase>, planned: Planned) -> Result<(), OutOfMemory>
    ensures { OnOk result (current.new ≡ with_planned current.old planned) }
{
    match current {
        None => Ok(()),
        Some(phase) => phase.calls.push(planned),
    }
}
