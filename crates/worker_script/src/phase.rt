ghost use Rattle.std.specs.Prelude.{◌≡◌, ◌<◌, ◌++◌, IfOk, OnOk, length};
ghost use Rattle.std.specs.Option.{option_to_list};
ghost use Rattle.sid_core.specs.declared.limits.TheConstants.{MAX_PHASES};
ghost use Rattle.worker_script.specs.Text.{token};
ghost use Rattle.worker_script.specs.Values.{value};
ghost use Rattle.worker_script.specs.Lines.{moment_of, new_phase, phase_fault, phase_line};
ghost use Rattle.worker_script.specs.Reader.{draft_of, IsReader, Finds, Reads};

use crate::fault::Fault;
use crate::line::Line;
use crate::numeral::number;
use crate::reader::Reader;
use crate::reason::Reason;
use crate::script::Phase;
use sid_core::{Items, MAX_MOMENT, MAX_PHASES, Moment, OutOfMemory};
use std::alloc::Global;
use std::mem;

// The moment of a phase, and 0 before the first one.
fn moment_of(phase: &Option<Phase>) -> u64
    ensures { result ≡ moment_of phase.now }
{
    match phase {
        None => 0,
        Some(phase) => phase.moment.0,
    }
}

fn new_phase(alloc: Global, moment: u64) -> Phase
    ensures { result ≡ new_phase moment }
{
    Phase {
        moment: Moment(moment),
        calls: Items::new(alloc),
    }
}

/// Adds a phase, if there is one.
pub(crate) fn push_phase(phases: &mut Items<Phase>, phase: Option<Phase>) -> Result<(), OutOfMemory>
    ensures { OnOk result (phases.new ≡ phases.old ++ option_to_list phase) }
{
    match phase {
        None => Ok(()),
        Some(phase) => phases.push(phase),
    }
}

impl Reader {
    // What makes a phase line bad, or its moment.
    #[tactic(auto, unfolding(crate::specs::Lines::phase_fault))]
    fn phase_fault(&self, line: &Line<'_>) -> Result<u64, Reason>
        requires { IsReader self.now }
        ensures fault { Finds (phase_fault (draft_of self.now) line.now) (value (token 1 line.now)) result }
        ensures room { IfOk result (λ _. length self.now.phases < MAX_PHASES) }
    {
        if line.len() != 2 {
            return Err(Reason::WrongLength);
        }
        let Some(moment) = number(0, MAX_MOMENT, line.token(1)) else {
            return Err(Reason::WrongNumber);
        };
        if MAX_PHASES <= self.phases.len() + usize::from(self.current.is_some()) {
            return Err(Reason::TooManyPhases);
        }
        if moment < moment_of(&self.current) {
            return Err(Reason::EarlierMoment);
        }
        Ok(moment)
    }

    #[tactic(auto, unfolding(crate::specs::Lines::phase_line))]
    pub fn phase_line(&mut self, line: &Line<'_>) -> Result<(), Fault>
        requires { IsReader self.old }
        ensures { Reads (phase_line (draft_of self.old) line.now) self.new result }
    {
        let moment = self.phase_fault(line)?;
        let next = new_phase(self.alloc, moment);
        let before = mem::replace(&mut self.current, Some(next));
        push_phase(&mut self.phases, before)?;
        Ok(())
    }
}
