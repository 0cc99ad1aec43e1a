ghost use Rattle.std.specs.Prelude.{◌≡◌, ◌++◌, OnOk, None, Some};
ghost use Rattle.serial_table.specs.Text.{granted_text, reply_text};

use super::letter::push_letter;
use super::piece::{push_if, push_numbered, push_state};
use sid_core::{LeaseState, OutOfMemory, Reply, Text};

/// Adds what a call answers.
pub(crate) fn push_reply(text: &mut Text, reply: Reply) -> Result<(), OutOfMemory>
    ensures { OnOk result (text.new ≡ text.old ++ reply_text reply) }
{
    match reply {
        Reply::Granted {
            lease: None,
            durable,
        } => push_granted(text, durable),
        Reply::Granted {
            lease: Some(state),
            durable,
        } => push_leased(text, state, durable),
        Reply::Done => text.push(b"OK"),
        Reply::Scavenged { count } => push_numbered(text, b"SCAVENGED ", count as u64),
        Reply::Message(letter) => push_letter(text, &letter),
        Reply::NoMessage => text.push(b"EMPTY"),
        Reply::Shown => text.push(b"SHOWN"),
        Reply::Pending => text.push(b"PENDING"),
        Reply::Unsuccessful => text.push(b"UNSUCCESSFUL"),
        Reply::InvalidParameter => text.push(b"INVALID_PARAMETER"),
        Reply::AccessDenied => text.push(b"ACCESS_DENIED"),
        Reply::ObjectNameNotFound => text.push(b"OBJECT_NAME_NOT_FOUND"),
        Reply::SharingViolation => text.push(b"SHARING_VIOLATION"),
        Reply::FileLockConflict => text.push(b"FILE_LOCK_CONFLICT"),
        Reply::DeletePending => text.push(b"DELETE_PENDING"),
        Reply::LockNotGranted => text.push(b"LOCK_NOT_GRANTED"),
        Reply::RangeNotLocked => text.push(b"RANGE_NOT_LOCKED"),
        Reply::RequestNotAccepted => text.push(b"REQUEST_NOT_ACCEPTED"),
        Reply::FileClosed => text.push(b"FILE_CLOSED"),
        Reply::PossibleDeadlock => text.push(b"POSSIBLE_DEADLOCK"),
        Reply::InvalidLockRange => text.push(b"INVALID_LOCK_RANGE"),
    }
}

fn push_granted(text: &mut Text, durable: bool) -> Result<(), OutOfMemory>
    ensures { OnOk result (text.new ≡ text.old ++ granted_text None durable) }
{
    text.push(b"GRANTED")?;
    push_if(text, durable, b" durable")
}

fn push_leased(text: &mut Text, state: LeaseState, durable: bool) -> Result<(), OutOfMemory>
    ensures { OnOk result (text.new ≡ text.old ++ granted_text (Some state.0) durable) }
{
    text.push(b"GRANTED lease=")?;
    push_state(text, state)?;
    push_if(text, durable, b" durable")
}
