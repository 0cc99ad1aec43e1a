ghost use Rattle.std.specs.Prelude.{◌≡◌, ◌↔◌, IsTrue, Contains};
ghost use Rattle.opendb_run.specs.Memory.{counted};

use sid_core::Failed;

/// Numbers the calls of a source or a sink in memory, and says which are to fail.
#[derive(Debug, Drop)]
pub(crate) struct Schedule {
    pub(crate) failing: Vec<u64>,
    pub(crate) calls: u64,
    pub(crate) faults: u64,
}

impl Schedule {
    pub(crate) fn new(failing: Vec<u64>) -> Schedule
        ensures failing { result.failing.items ≡ failing.items }
        ensures calls { result.calls ≡ 0 }
        ensures faults { result.faults ≡ 0 }
    {
        Schedule {
            failing,
            calls: 0,
            faults: 0,
        }
    }

    /// Counts a call, and says whether it is to fail.
    pub(crate) fn next_fails(&mut self) -> bool
        ensures calls { self.new.calls ≡ counted self.old.calls }
        ensures fails { IsTrue result ↔ Contains self.old.failing.items self.new.calls }
        ensures failing { self.new.failing.items ≡ self.old.failing.items }
        ensures faults { self.new.faults ≡ self.old.faults }
    {
        self.calls = self.calls.saturating_add(1);
        self.failing.contains(&self.calls)
    }

    /// Counts a fault.
    pub(crate) fn fail(&mut self) -> Failed
        ensures faults { self.new.faults ≡ counted self.old.faults }
        ensures calls { self.new.calls ≡ self.old.calls }
        ensures failing { self.new.failing.items ≡ self.old.failing.items }
    {
        self.faults = self.faults.saturating_add(1);
        Failed
    }
}
