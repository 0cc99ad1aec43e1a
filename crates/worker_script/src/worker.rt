ghost use Rattle.std.specs.Prelude.{◌≡◌, ◌<◌, ◌==◌, cond, Some, None, OnOk, is_none, true, length};
ghost use Rattle.std.specs.List.{list_any};
ghost use Rattle.sid_core.specs.declared.limits.TheConstants.{MAX_WORKERS};
ghost use Rattle.worker_script.specs.Values.{is_short};
ghost use Rattle.worker_script.specs.Lines.{are_worker_numbers, worker_fault, worker_line};
ghost use Rattle.worker_script.specs.Reader.{draft_of, IsReader, Finds, Reads};
ghost use Rattle.worker_script.specs.Numbers.{worker_numbers};

use crate::fault::Fault;
use crate::line::Line;
use crate::numeral::{number_u32, number_u64, positive_u32};
use crate::reader::{Reader, Tally};
use crate::reason::Reason;
use crate::text::{is_short, text};
use sid_core::{MAX_WORKERS, WorkerInfo};

/// The numbers of a line `worker W PID UID GUID MACHINE SHARE`, which may end with `old`.
#[derive(Clone, Copy)]
pub(crate) struct WorkerNumbers {
    pub worker: u32,
    pub pid: u32,
    pub uid: u32,
    pub guid: u64,
}

fn worker_numbers(line: &Line<'_>) -> Option<WorkerNumbers>
    ensures { result ≡ cond (are_worker_numbers line.now) (Some (worker_numbers line.now)) None }
{
    Some(WorkerNumbers {
        worker: number_u32(line.token(1))?,
        pid: positive_u32(line.token(2))?,
        uid: number_u32(line.token(3))?,
        guid: number_u64(line.token(4))?,
    })
}

fn has_pid(workers: &[WorkerInfo], pid: u32) -> bool
    ensures { result ≡ list_any (λ worker. worker.pid == pid) workers.now }
{
    workers.iter().any(|worker| worker.pid == pid)
}

impl Reader {
    // What makes a worker line bad, or its numbers.
    #[tactic(auto, unfolding(crate::specs::Lines::worker_fault))]
    fn worker_fault(&self, line: &Line<'_>) -> Result<WorkerNumbers, Reason>
        requires { IsReader self.now }
        ensures fault { Finds (worker_fault (draft_of self.now) line.now) (worker_numbers line.now) result }
        ensures room { OnOk result (length self.now.workers < MAX_WORKERS) }
        ensures no_phase { OnOk result (is_none self.now.current ≡ true) }
    {
        if line.len() != 7 && line.len() != 8 {
            return Err(Reason::WrongLength);
        }
        let Some(numbers) = worker_numbers(line) else {
            return Err(Reason::WrongNumber);
        };
        if self.current.is_some() {
            return Err(Reason::LateDeclaration);
        }
        if numbers.worker as usize != self.workers.len() + 1 {
            return Err(Reason::NotNext);
        }
        if MAX_WORKERS <= self.workers.len() {
            return Err(Reason::TooManyWorkers);
        }
        if has_pid(self.workers.as_slice(), numbers.pid) {
            return Err(Reason::KnownPid);
        }
        if !(is_short(line.token(5)) && is_short(line.token(6))) {
            return Err(Reason::LongText);
        }
        if line.len() == 8 && line.token(7) != b"old".as_slice() {
            return Err(Reason::UnknownEnding);
        }
        Ok(numbers)
    }

    #[tactic(auto, unfolding(crate::specs::Lines::worker_line))]
    pub fn worker_line(&mut self, line: &Line<'_>) -> Result<(), Fault>
        requires { IsReader self.old }
        ensures { Reads (worker_line (draft_of self.old) line.now) self.new result }
    {
        let numbers = self.worker_fault(line)?;
        let machine = text(self.alloc, line.token(5))?;
        let share = text(self.alloc, line.token(6))?;
        self.workers.push(WorkerInfo {
            pid: numbers.pid,
            uid: numbers.uid,
            guid: numbers.guid,
            machine,
            share,
            old: line.len() == 8,
        })?;
        self.tallies.push(Tally {
            made: 0,
            stopped: false,
        })?;
        Ok(())
    }
}
