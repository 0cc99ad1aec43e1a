ghost use Rattle.std.specs.Prelude.{◌≡◌, ◌≤◌, length, IfOk, IfErr, IfSome, IsErrOf};
ghost use Rattle.sid_core.specs.Faults.{Rose};
ghost use Rattle.opendb_run.specs.declared.input.InputError.TheVariants.{OutOfMemory, ReadFault};
ghost use Rattle.sid_core.specs.declared.limits.TheConstants.{MAX_SCRIPT};
ghost use Rattle.opendb_run.specs.Input.{TakesAll, TakesBefore, Refuses};

use sid_core::{Failed, MAX_SCRIPT, Source};
use std::alloc::{AllocError, Global};

/// How many bytes are asked for at once.
const CHUNK: usize = 8192;

/// Why an input wasn't read to its end.
#[derive(Clone, Copy, Debug, PartialEq, Eq)]
pub enum InputError {
    /// It has more bytes than the limit. One byte beyond the limit was taken.
    TooLarge,
    /// A read failed.
    ReadFault,
    /// It can come whenever the allocator refuses. No clause says when.
    OutOfMemory,
}

impl From<Failed> for InputError {
    ghost from_gives = { λ _ error. error ≡ ReadFault };

    fn from(_e: Failed) -> InputError {
        InputError::ReadFault
    }
}

impl From<AllocError> for InputError {
    ghost from_gives = { λ _ error. error ≡ OutOfMemory };

    fn from(_e: AllocError) -> InputError {
        InputError::OutOfMemory
    }
}

/// Reads the source to its end. No byte is read twice. That the time is linear in the bytes is measured, not proved.
pub fn read_all<S: Source>(alloc: Global, source: &mut S) -> Result<Vec<u8>, InputError>
    ensures whole { IfOk result (λ bytes.
        TakesAll (S.left source.old) (S.left source.new) bytes.items) }
    ensures short { IfOk result (λ bytes. length bytes.items ≤ MAX_SCRIPT) }
    ensures taken { IfErr result (TakesBefore (S.left source.old) (S.left source.new)) }
    ensures failed { IsErrOf result InputError.ReadFault
        → Rose (S.faults source.old) (S.faults source.new) }
    ensures refused { ¬ (Rose (S.faults source.old) (S.faults source.new))
        → IfErr result (λ error. IfSome (S.left source.old) (Refuses error)) }
    ensures faults { S.faults source.old ≤ S.faults source.new }
{
    let mut bytes = Vec::new(alloc);
    let mut chunk = [0; CHUNK];
    for _turn in 0..MAX_SCRIPT + 1 {
        let room = CHUNK.min(MAX_SCRIPT + 1 - bytes.len());
        let count = source.read(&mut chunk[..room])?;
        if count == 0 {
            return Ok(bytes);
        }
        if count > MAX_SCRIPT - bytes.len() {
            return Err(InputError::TooLarge);
        }
        bytes.extend_from_slice(&chunk[..count])?;
    }
    unreachable!()
}
