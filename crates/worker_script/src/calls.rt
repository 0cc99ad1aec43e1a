ghost use Rattle.std.specs.Prelude.{◌≡◌, ◌<◌, ◌≤◌, false, Some, Ok, Err, OnOk, IfOk, IfErr, IsSome, length};
ghost use Rattle.sid_core.specs.declared.limits.TheConstants.{MAX_CALLS};
ghost use Rattle.worker_script.specs.Text.{token};
ghost use Rattle.worker_script.specs.Values.{value};
ghost use Rattle.worker_script.specs.Lines.{is_declared};
ghost use Rattle.worker_script.specs.Calls.{wrong_number, names_no_worker, head_fault, stop_fault, call_in, call_line};
ghost use Rattle.worker_script.specs.Operands.{stop_in, numbers_in, names_nobody, judged_call, unless_stopped};
ghost use Rattle.worker_script.specs.Reader.{draft_of, IsReader, Finds, Reads};

use crate::fault::Fault;
use crate::line::Line;
use crate::numbered::{Numbered, is_status, numbers_in, wrong_length, wrong_number};
use crate::numeral::number_u32;
use crate::reader::Reader;
use crate::reason::Reason;
use crate::stop::{Stop, split_stop};
use sid_core::{Call, CallWord, MAX_CALLS, MAX_STATUS_CALLS};

/// What is read of a call line before its call: its worker, and the numbers behind its word, where it has one.
#[derive(Clone, Copy)]
struct Head {
    worker: u32,
    numbered: Option<Numbered>,
}

impl Reader {
    fn has_worker(&self, worker: u32) -> bool
        ensures { result ≡ is_declared self.now.workers worker }
    {
        1 <= worker && worker as usize <= self.workers.len()
    }

    // Whether a `reconnect` line names a worker that isn't declared.
    #[tactic(auto, using(crate::proofs::Operands::names_no_worker_is))]
    fn names_no_worker(
        &self,
        word: Option<CallWord>,
        numbered: Option<Numbered>,
        line: &Line<'_>,
    ) -> bool
        requires kept { numbered ≡ numbers_in word line.now }
        requires numbers { wrong_number word line.now ≡ false }
        ensures { result ≡ names_no_worker word (draft_of self.now) line.now }
    {
        self.names_nobody(numbered)
    }

    fn names_nobody(&self, numbered: Option<Numbered>) -> bool
        ensures { result ≡ names_nobody (draft_of self.now) numbered }
    {
        match numbered {
            Some(Numbered::Reconnect { worker, .. }) => !self.has_worker(worker),
            _ => false,
        }
    }

    // What makes a call line bad whether its word is known or not, or its worker and its numbers.
    #[tactic(auto, unfolding(crate::specs::Calls::head_fault))]
    fn head(&self, word: Option<CallWord>, count: usize, line: &Line<'_>) -> Result<Head, Reason>
        requires { IsReader self.now }
        ensures fault { Finds (head_fault (draft_of self.now) word count line.now) (record { worker = value (token 0 line.now); numbered = numbers_in word line.now }) result }
        ensures numbers { OnOk result (wrong_number word line.now ≡ false) }
        ensures room { OnOk result (self.now.calls < MAX_CALLS) }
        ensures phase { OnOk result (IsSome self.now.current) }
        ensures some { IfOk result (λ head. 1 ≤ head.worker) }
        ensures declared { IfOk result (λ head. head.worker ≤ length self.now.workers) }
    {
        if wrong_length(word, count) {
            return Err(Reason::WrongLength);
        }
        let Some(worker) = number_u32(line.token(0)) else {
            return Err(Reason::WrongNumber);
        };
        let numbered = numbers_in(word, line);
        if wrong_number(word, numbered, line) {
            return Err(Reason::WrongNumber);
        }
        if MAX_CALLS <= self.calls {
            return Err(Reason::TooManyCalls);
        }
        if is_status(word) && MAX_STATUS_CALLS <= self.statuses {
            return Err(Reason::TooManyStatuses);
        }
        if self.current.is_none() {
            return Err(Reason::NoPhase);
        }
        if !self.has_worker(worker) || self.names_no_worker(word, numbered, line) {
            return Err(Reason::UnknownWorker);
        }
        Ok(Head { worker, numbered })
    }

    // What makes a call line bad where its worker had its stop, or by its own stop.
    #[tactic(auto, using(crate::proofs::Operands::unknown_is), unfolding(crate::specs::Calls::stop_fault))]
    fn stop_fault(&self, worker: u32, stop: Stop, line: &Line<'_>) -> Result<(), Reason>
        requires reader { IsReader self.now }
        requires worker { worker ≡ value (token 0 line.now) }
        requires stop { stop ≡ stop_in line.now }
        requires some { 1 ≤ worker }
        requires declared { worker ≤ length self.now.workers }
        ensures { Finds (stop_fault (draft_of self.now) line.now) tt result }
    {
        if self.has_stopped(worker) {
            return Err(Reason::AfterStop);
        }
        if stop.is_unknown() {
            return Err(Reason::UnknownStop);
        }
        Ok(())
    }

    // The call of a line with these numbers, or what makes the line bad from reason 19 on.
    fn tail(
        &self,
        numbered: Numbered,
        worker: u32,
        count: usize,
        stop: Stop,
        line: &Line<'_>,
    ) -> Result<Call, Reason>
        requires reader { IsReader self.now }
        requires worker { worker ≡ value (token 0 line.now) }
        requires stop { stop ≡ stop_in line.now }
        requires some { 1 ≤ worker }
        requires declared { worker ≤ length self.now.workers }
        ensures { result ≡ unless_stopped (draft_of self.now) line.now (judged_call (draft_of self.now) numbered count line.now) }
    {
        let call = self.judged_call(numbered, count, line)?;
        self.stop_fault(worker, stop, line)?;
        Ok(call)
    }

    // The worker, the call and the stop of a call line, or what makes it bad.
    #[tactic(auto, using(crate::proofs::Operands::call_in_is), unfolding(crate::specs::Calls::call_in))]
    fn call_in(&self, line: &Line<'_>) -> Result<(u32, Call, Stop), Reason>
        requires { IsReader self.now }
        ensures call { IfOk result (λ found. call_in (draft_of self.now) line.now ≡ Ok found.1) }
        ensures fault { IfErr result (λ reason. call_in (draft_of self.now) line.now ≡ Err reason) }
        ensures worker { IfOk result (λ found. found.0 ≡ value (token 0 line.now)) }
        ensures stop { IfOk result (λ found. found.2 ≡ stop_in line.now) }
        ensures room { OnOk result (self.now.calls < MAX_CALLS) }
        ensures phase { OnOk result (IsSome self.now.current) }
        ensures some { IfOk result (λ found. 1 ≤ found.0) }
        ensures declared { IfOk result (λ found. found.0 ≤ length self.now.workers) }
    {
        let (count, stop) = split_stop(line);
        let head = self.head(CallWord::read(line.token(1)), count, line)?;
        let Some(numbered) = head.numbered else {
            return Err(Reason::UnknownCall);
        };
        let call = self.tail(numbered, head.worker, count, stop, line)?;
        Ok((head.worker, call, stop))
    }

    #[tactic(auto, using(crate::proofs::Operands::planned_stop_is), unfolding(crate::specs::Calls::call_line))]
    pub fn call_line(&mut self, line: &Line<'_>) -> Result<(), Fault>
        requires { IsReader self.old }
        ensures { Reads (call_line (draft_of self.old) line.now) self.new result }
    {
        let (worker, call, stop) = self.call_in(line)?;
        self.plan(worker, call, stop.point())
    }
}
