ghost use Rattle.std.specs.Prelude.{◌≡◌, ◌++◌, OnOk, codes};
ghost use Rattle.sid_core.specs.Words.{state_text};
ghost use Rattle.serial_table.specs.Text.{letter_text, text_if};

use super::piece::{push_if, push_numbered, push_state};
use sid_core::{LeaseState, Letter, OutOfMemory, Text};

/// Adds what a letter says.
pub(crate) fn push_letter(text: &mut Text, letter: &Letter) -> Result<(), OutOfMemory>
    ensures { OnOk result (text.new ≡ text.old ++ letter_text letter.now) }
{
    match *letter {
        Letter::Wake { call } => push_numbered(text, b"WAKE ", call as u64),
        Letter::Break {
            file,
            key,
            from,
            to,
            ack,
        } => push_break(text, file, key, from, to, ack),
    }
}

fn push_break(
    text: &mut Text,
    file: u32,
    key: u64,
    from: LeaseState,
    to: LeaseState,
    ack: bool,
) -> Result<(), OutOfMemory>
    ensures { OnOk result (text.new ≡ text.old ++ letter_text (Letter.Break file key from to ack)) }
{
    push_numbered(text, b"BREAK file=", file as u64)?;
    push_numbered(text, b" key=", key)?;
    text.push(b" ")?;
    push_change(text, from, to, ack)
}

fn push_change(
    text: &mut Text,
    from: LeaseState,
    to: LeaseState,
    ack: bool,
) -> Result<(), OutOfMemory>
    ensures { OnOk result (text.new ≡ text.old
        ++ (state_text from.0 ++ (codes "->" ++ (state_text to.0 ++ text_if ack (codes " ack"))))) }
{
    push_state(text, from)?;
    text.push(b"->")?;
    push_state(text, to)?;
    push_if(text, ack, b" ack")
}
