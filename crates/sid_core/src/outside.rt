ghost use Rattle.std.specs.Prelude.{◌≡◌, ◌<◌, ◌≤◌, ℕ, List, Option, take, length, Ok, IfOk, OnOk, OnErr};
ghost use Rattle.std.specs.Io.KnownBytes.{Consumes, Appends, IsAtEnd};
ghost use Rattle.sid_core.specs.Faults.{Rose};

/// A read or a write of the outside failed.
#[derive(Clone, Copy, Debug, PartialEq, Eq)]
pub struct Failed;

/// Where bytes come from.
pub trait Source {
    /// The bytes still to come, where they are told.
    ghost left: { Self → Option (List ℕ) };

    /// How many reads have failed.
    ghost faults: { Self → ℕ };

    /// Moves some of the next bytes to the front of `into`. `Ok(0)` is the end of the input.
    /// `Failed` comes only where the count of faults rises; nothing is taken then.
    fn read(&mut self, into: &mut [u8]) -> Result<usize, Failed>
        requires { 0 < length into.old }
        ensures count { IfOk result (λ n. n ≤ length into.new) }
        ensures taken { IfOk result (λ n. Consumes (left self.old) (left self.new) (take n into.new)) }
        ensures end { result ≡ Ok 0 → IsAtEnd (left self.old) }
        ensures failed { OnErr result (Rose (faults self.old) (faults self.new)) }
        ensures kept { OnErr result (left self.new ≡ left self.old) }
        ensures faults { faults self.old ≤ faults self.new };
}

/// Where bytes go.
pub trait Sink {
    /// The bytes that were written, where they are told.
    ghost written: { Self → Option (List ℕ) };

    /// How many writes have failed.
    ghost faults: { Self → ℕ };

    /// Writes one or more of the first bytes of `from`, and says how many.
    /// `Failed` comes only where the count of faults rises; nothing is written then.
    fn write(&mut self, from: &[u8]) -> Result<usize, Failed>
        requires { 0 < length from.now }
        ensures some { IfOk result (λ n. 0 < n) }
        ensures count { IfOk result (λ n. n ≤ length from.now) }
        ensures added { IfOk result (λ n. Appends (written self.old) (written self.new) (take n from.now)) }
        ensures failed { OnErr result (Rose (faults self.old) (faults self.new)) }
        ensures kept { OnErr result (written self.new ≡ written self.old) }
        ensures faults { faults self.old ≤ faults self.new };
}

/// A point of a call at which its worker dies.
#[derive(Clone, Copy, Debug, PartialEq, Eq)]
pub enum Point {
    /// After the first chain is taken.
    Take,
    /// After the intent is written.
    Intent,
    /// After the commit.
    Commit,
    /// After the first chain is stored.
    Store,
    /// After the first chain is given back.
    Release,
    /// After the first step of the call's first recovery of another worker.
    Mourn,
}

/// A step of a transaction, of a recovery or of a call. Numbers are those of chains or, for `Freed`, of the dead worker.
#[derive(Clone, Copy, Debug, PartialEq, Eq)]
pub enum StepKind {
    Took(u32),
    Planned,
    Committed,
    Stored(u32),
    Released(u32),
    Freed(u32),
    Answered,
}

/// Is told each step as it is done. It answers nothing, so it can change no answer.
pub trait Gate {
    fn at(&self, worker: u32, number: u32, step: StepKind);
}
