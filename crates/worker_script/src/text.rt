ghost use Rattle.std.specs.Prelude.{◌≡◌, ◌<◌, ◌≤◌, ◌∷◌, take, length, IfOk, MatchOption};
ghost use Rattle.worker_script.specs.Text.{parts, tokens, token, is_skipped, before};
ghost use Rattle.worker_script.specs.Values.{is_short};
ghost use Rattle.worker_script.specs.Search.{plain_before, IsFirstLine, HasBadFirst};

use sid_core::{MAX_TEXT, OutOfMemory, Text};
use std::alloc::Global;

/// How many bytes stand before the first separator.
pub(crate) fn find(separator: u8, bytes: &[u8]) -> usize
    ensures found { result ≡ before separator bytes.now }
    ensures within { result ≤ length bytes.now }
{
    let mut end = 0;
    while end < bytes.len() && bytes[end] != separator {
        end += 1;
    }
    end
}

// The part that ends here, and what comes behind its separator.
fn part_to(separator: u8, end: usize, bytes: &[u8]) -> (&[u8], &[u8])
    requires some { 0 < length bytes.now }
    requires end { end ≡ before separator bytes.now }
    requires within { end ≤ length bytes.now }
    ensures parts { parts separator bytes.now ≡ result.0.now ∷ parts separator result.1.now }
    ensures front { result.0.now ≡ take end bytes.now }
    ensures less { length result.1.now < length bytes.now }
{
    let (part, rest) = bytes.split_at(end);
    if rest.is_empty() {
        return (part, rest);
    }
    let (_, after) = rest.split_at(1);
    (part, after)
}

/// The first part of the bytes, and what comes behind its separator.
pub(crate) fn first_part(separator: u8, bytes: &[u8]) -> (&[u8], &[u8])
    requires { 0 < length bytes.now }
    ensures parts { parts separator bytes.now ≡ result.0.now ∷ parts separator result.1.now }
    ensures less { length result.1.now < length bytes.now }
{
    part_to(separator, find(separator, bytes), bytes)
}

// How many bytes that a line may have stand in front.
fn plain_front(bytes: &[u8]) -> usize
    ensures found { result ≡ plain_before bytes.now }
    ensures within { result ≤ length bytes.now }
{
    let mut end = 0;
    while end < bytes.len() && 0x20 <= bytes[end] && bytes[end] <= 0x7E {
        end += 1;
    }
    end
}

/// The first line, if it has no byte that a line may not have, and what comes behind its end. One pass finds both.
pub(crate) fn first_line(bytes: &[u8]) -> Option<(&[u8], &[u8])>
    requires { 0 < length bytes.now }
    ensures { MatchOption result (HasBadFirst bytes.now) (λ found. IsFirstLine bytes.now found.0.now found.1.now) }
{
    let end = plain_front(bytes);
    if end < bytes.len() && bytes[end] != b'\n' {
        return None;
    }
    Some(part_to(b'\n', end, bytes))
}

/// Whether a line is skipped. It goes no further than the first byte of the first token.
pub(crate) fn skips(line: &[u8]) -> bool
    ensures { result ≡ is_skipped (token 0 (tokens line.now)) }
{
    let mut start = 0;
    while start < line.len() && line[start] == b' ' {
        start += 1;
    }
    start == line.len() || line[start] == b'#'
}

/// Whether a text has at most 255 bytes.
pub(crate) fn is_short(text: &[u8]) -> bool
    ensures { result ≡ is_short text.now }
{
    text.len() <= MAX_TEXT
}

pub(crate) fn text(alloc: Global, bytes: &[u8]) -> Result<Text, OutOfMemory>
    ensures { IfOk result (λ text. text ≡ bytes.now) }
{
    Ok(Text::from_vec(Vec::from_slice(alloc, bytes)?))
}
