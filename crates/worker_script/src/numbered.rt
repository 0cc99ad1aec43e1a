ghost use Rattle.std.specs.Prelude.{◌≡◌, cond, Some, None};
ghost use Rattle.worker_script.specs.Text.{token};
ghost use Rattle.worker_script.specs.Values.{value};
ghost use Rattle.worker_script.specs.Calls.{is_length, are_span_numbers, wrong_length, wrong_number, is_status, span_of};
ghost use Rattle.worker_script.specs.Operands.{numbers_behind, numbers_in};

use crate::line::Line;
use crate::numeral::{number_u32, number_u64};
use sid_core::{CallWord, Span};

/// The word of a call line, and the numbers that stand behind it.
#[derive(Clone, Copy)]
pub(crate) enum Numbered {
    Open { file: u32 },
    Close { handle: u32 },
    Delete { handle: u32 },
    Ack { key: u64 },
    Lock { handle: u32, span: Span },
    Unlock { handle: u32, span: Span },
    Read { handle: u32, span: Span },
    Write { handle: u32, span: Span },
    GLock { key: u64 },
    GUnlock { key: u64 },
    Recv,
    Disconnect,
    Reconnect { worker: u32, call: u32, key: u64 },
    Scavenge,
    Tidy,
    Status,
}

/// Whether a line with this word has so many tokens.
fn is_length(word: CallWord, count: usize) -> bool
    ensures { result ≡ is_length word count }
{
    match word {
        CallWord::Open => 5 <= count && count <= 9,
        CallWord::Close | CallWord::GUnlock => count == 3,
        CallWord::Delete | CallWord::Ack => count == 4,
        CallWord::Lock => count == 7,
        CallWord::Unlock
        | CallWord::Read
        | CallWord::Write
        | CallWord::GLock
        | CallWord::Reconnect => count == 5,
        CallWord::Recv | CallWord::Disconnect | CallWord::Scavenge | CallWord::Tidy => count == 2,
        CallWord::Status => 2 <= count && count <= 5,
    }
}

/// Whether the word is known, and a line with it hasn't so many tokens.
pub(crate) fn wrong_length(word: Option<CallWord>, count: usize) -> bool
    ensures { result ≡ wrong_length word count }
{
    match word {
        None => false,
        Some(word) => !is_length(word, count),
    }
}

pub(crate) fn is_status(word: Option<CallWord>) -> bool
    ensures { result ≡ is_status word }
{
    match word {
        Some(CallWord::Status) => true,
        _ => false,
    }
}

// The handle and the bytes of a lock, unlock, read or write line.
fn span_numbers(line: &Line<'_>) -> Option<(u32, Span)>
    ensures { result ≡ cond (are_span_numbers line.now) (Some (value (token 2 line.now), span_of line.now)) None }
{
    let handle = number_u32(line.token(2))?;
    let start = number_u64(line.token(3))?;
    let length = number_u64(line.token(4))?;
    Some((handle, Span { start, length }))
}

fn reconnect_numbers(line: &Line<'_>) -> Option<Numbered>
    ensures { result ≡ numbers_behind CallWord.Reconnect line.now }
{
    let worker = number_u32(line.token(2))?;
    let call = number_u32(line.token(3))?;
    let key = number_u64(line.token(4))?;
    Some(Numbered::Reconnect { worker, call, key })
}

/// The numbers behind a call word, if each is one and lies in its range.
fn numbers_behind(word: CallWord, line: &Line<'_>) -> Option<Numbered>
    ensures { result ≡ numbers_behind word line.now }
{
    match word {
        CallWord::Open => number_u32(line.token(2)).map(|file| Numbered::Open { file }),
        CallWord::Close => number_u32(line.token(2)).map(|handle| Numbered::Close { handle }),
        CallWord::Delete => number_u32(line.token(2)).map(|handle| Numbered::Delete { handle }),
        CallWord::Ack => number_u64(line.token(2)).map(|key| Numbered::Ack { key }),
        CallWord::Lock => {
            span_numbers(line).map(|(handle, span)| Numbered::Lock { handle, span })
        }
        CallWord::Unlock => {
            span_numbers(line).map(|(handle, span)| Numbered::Unlock { handle, span })
        }
        CallWord::Read => {
            span_numbers(line).map(|(handle, span)| Numbered::Read { handle, span })
        }
        CallWord::Write => {
            span_numbers(line).map(|(handle, span)| Numbered::Write { handle, span })
        }
        CallWord::GLock => number_u64(line.token(2)).map(|key| Numbered::GLock { key }),
        CallWord::GUnlock => number_u64(line.token(2)).map(|key| Numbered::GUnlock { key }),
        CallWord::Recv => Some(Numbered::Recv),
        CallWord::Disconnect => Some(Numbered::Disconnect),
        CallWord::Reconnect => reconnect_numbers(line),
        CallWord::Scavenge => Some(Numbered::Scavenge),
        CallWord::Tidy => Some(Numbered::Tidy),
        CallWord::Status => Some(Numbered::Status),
    }
}

/// The same, where there is a word.
pub(crate) fn numbers_in(word: Option<CallWord>, line: &Line<'_>) -> Option<Numbered>
    ensures { result ≡ numbers_in word line.now }
{
    match word {
        None => None,
        Some(word) => numbers_behind(word, line),
    }
}

/// Whether the word is known, and a number token behind it is wrong: nothing is kept then.
#[tactic(auto, using(crate::proofs::Operands::wrong_numbers))]
pub(crate) fn wrong_number(
    word: Option<CallWord>,
    numbered: Option<Numbered>,
    line: &Line<'_>,
) -> bool
    requires { numbered ≡ numbers_in word line.now }
    ensures { result ≡ wrong_number word line.now }
{
    word.is_some() && numbered.is_none()
}
