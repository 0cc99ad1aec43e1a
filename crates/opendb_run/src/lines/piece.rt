ghost use Rattle.std.specs.Prelude.{◌≡◌, ◌++◌, OnOk};
ghost use Rattle.std.specs.Fmt.{decimal};
ghost use Rattle.sid_core.specs.Words.{state_text};
ghost use Rattle.serial_table.specs.Text.{text_if};

use itoa::Buffer;
use sid_core::{LeaseState, OutOfMemory, Text};

/// Adds a number in decimal. It takes no memory but the text's own.
pub(crate) fn push_decimal(text: &mut Text, number: u64) -> Result<(), OutOfMemory>
    ensures { OnOk result (text.new ≡ text.old ++ decimal number) }
{
    let mut digits = Buffer::new();
    text.push(digits.format(number).as_bytes())
}

/// Adds a number after what tells its meaning.
pub(crate) fn push_numbered(text: &mut Text, before: &[u8], number: u64) -> Result<(), OutOfMemory>
    ensures { OnOk result (text.new ≡ text.old ++ (before.now ++ decimal number)) }
{
    text.push(before)?;
    push_decimal(text, number)
}

/// Adds what is said only where something holds.
pub(crate) fn push_if(text: &mut Text, holds: bool, said: &[u8]) -> Result<(), OutOfMemory>
    ensures { OnOk result (text.new ≡ text.old ++ text_if holds said.now) }
{
    if holds { text.push(said) } else { Ok(()) }
}

/// Adds the letters of what a lease holds, or a dash where it holds nothing.
pub(crate) fn push_state(text: &mut Text, state: LeaseState) -> Result<(), OutOfMemory>
    ensures { OnOk result (text.new ≡ text.old ++ state_text state.0) }
{
    text.push(state.text().as_bytes())
}
