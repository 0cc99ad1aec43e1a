ghost use Rattle.std.specs.Prelude.{◌≡◌, ◌≤◌, ◌++◌, codes, OnOk, OnErr};
ghost use Rattle.std.specs.Fmt.{decimal};
ghost use Rattle.std.specs.Io.KnownBytes.{Appends};
ghost use Rattle.sid_core.specs.Faults.{Rose};
ghost use Rattle.opendb_run.specs.Output.{AppendsPrefix};
ghost use Rattle.opendb_run.specs.Status.{code_of, at_line, complaint, status_of};

use crate::input::InputError;
use crate::output::{write_all, write_decimal};
use sid_core::{Failed, Sink};

/// How a call of the program ended.
#[derive(Clone, Copy, Debug, PartialEq, Eq)]
pub enum Status {
    /// All went well.
    Done,
    /// The words aren't those of a command.
    Usage,
    /// The script breaks its format: it has a bad line.
    BadScript,
    /// The input has more bytes than the limit.
    TooLarge,
    /// A read of the input failed.
    ReadFault,
    /// A write of the output failed.
    WriteFault,
    /// It can come whenever the allocator refuses. No clause says when.
    OutOfMemory,
}

impl Status {
    /// The exit status of the program.
    pub fn code(self) -> u8
        ensures { result ≡ code_of self }
    {
        match self {
            Status::Done => 0,
            Status::Usage => 1,
            Status::BadScript => 2,
            Status::TooLarge => 3,
            Status::ReadFault => 4,
            Status::WriteFault => 5,
            Status::OutOfMemory => 6,
        }
    }
}

impl From<InputError> for Status {
    ghost from_gives = { λ error status. status ≡ status_of error };

    fn from(error: InputError) -> Status {
        match error {
            InputError::TooLarge => Status::TooLarge,
            InputError::ReadFault => Status::ReadFault,
            InputError::OutOfMemory => Status::OutOfMemory,
        }
    }
}

/// Tells on `err` why the program ended. `line` is the number of the bad line and `reason` the reason why it
/// is bad; they are read for that status alone. A fault of `err` cuts the text short, and nothing else comes of it.
pub fn complain<E: Sink>(err: &mut E, status: Status, line: u32, reason: u32)
    ensures text { ¬ (Rose (E.faults err.old) (E.faults err.new))
        → Appends (E.written err.old) (E.written err.new) (complaint status line reason) }
    ensures prefix { AppendsPrefix (E.written err.old) (E.written err.new) (complaint status line reason) }
    ensures faults { E.faults err.old ≤ E.faults err.new }
{
    let _ = try_complain(err, status, line, reason);
}

fn try_complain<E: Sink>(err: &mut E, status: Status, line: u32, reason: u32) -> Result<(), Failed>
    ensures text { OnOk result
        (Appends (E.written err.old) (E.written err.new) (complaint status line reason)) }
    ensures prefix { AppendsPrefix (E.written err.old) (E.written err.new) (complaint status line reason) }
    ensures failed { OnErr result (Rose (E.faults err.old) (E.faults err.new)) }
    ensures faults { E.faults err.old ≤ E.faults err.new }
{
    match status {
        Status::Done => Ok(()),
        Status::Usage => write_all(err, b"opendb: usage: run, smbstatus or stress\n"),
        Status::BadScript => complain_of_reason(err, line, reason),
        Status::TooLarge => write_all(err, b"opendb: script too large\n"),
        Status::ReadFault => write_all(err, b"opendb: read fault\n"),
        Status::WriteFault => write_all(err, b"opendb: write fault\n"),
        Status::OutOfMemory => write_all(err, b"opendb: no memory\n"),
    }
}

fn write_at_line<E: Sink>(err: &mut E, line: u32) -> Result<(), Failed>
    ensures text { OnOk result (Appends (E.written err.old) (E.written err.new) (at_line line)) }
    ensures prefix { AppendsPrefix (E.written err.old) (E.written err.new) (at_line line) }
    ensures failed { OnErr result (Rose (E.faults err.old) (E.faults err.new)) }
    ensures faults { E.faults err.old ≤ E.faults err.new }
{
    write_all(err, b"opendb: line ")?;
    write_decimal(err, line)
}

fn write_reason<E: Sink>(err: &mut E, reason: u32) -> Result<(), Failed>
    ensures text { OnOk result (Appends (E.written err.old) (E.written err.new)
        (codes ": reason " ++ (decimal reason ++ codes "\n"))) }
    ensures prefix { AppendsPrefix (E.written err.old) (E.written err.new)
        (codes ": reason " ++ (decimal reason ++ codes "\n")) }
    ensures failed { OnErr result (Rose (E.faults err.old) (E.faults err.new)) }
    ensures faults { E.faults err.old ≤ E.faults err.new }
{
    write_all(err, b": reason ")?;
    write_decimal(err, reason)?;
    write_all(err, b"\n")
}

fn complain_of_reason<E: Sink>(err: &mut E, line: u32, reason: u32) -> Result<(), Failed>
    ensures text { OnOk result (Appends (E.written err.old) (E.written err.new)
        (at_line line ++ (codes ": reason " ++ (decimal reason ++ codes "\n")))) }
    ensures prefix { AppendsPrefix (E.written err.old) (E.written err.new)
        (at_line line ++ (codes ": reason " ++ (decimal reason ++ codes "\n"))) }
    ensures failed { OnErr result (Rose (E.faults err.old) (E.faults err.new)) }
    ensures faults { E.faults err.old ≤ E.faults err.new }
{
    write_at_line(err, line)?;
    write_reason(err, reason)
}
