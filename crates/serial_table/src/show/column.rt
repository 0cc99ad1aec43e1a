ghost use Rattle.std.specs.Prelude.{◌≡◌, ◌++◌, OnOk, replicate};
ghost use Rattle.std.specs.Fmt.{decimal};
ghost use Rattle.serial_table.specs.Tables.{column, line, rows_or_none};

use itoa::Buffer;
use sid_core::OutOfMemory;

fn push_times(out: &mut Vec<u8>, byte: u8, count: usize) -> Result<(), OutOfMemory>
    ensures { OnOk result (out.new.items ≡ out.old.items ++ replicate count byte) }
{
    for _ in 0..count {
        out.push(byte)?;
    }
    Ok(())
}

/// Adds two texts as one column.
pub(crate) fn push_two(
    out: &mut Vec<u8>,
    width: usize,
    first: &[u8],
    second: &[u8],
) -> Result<(), OutOfMemory>
    ensures { OnOk result (out.new.items ≡ out.old.items ++ column width (first.now ++ second.now)) }
{
    let room = width
        .saturating_sub(first.len())
        .saturating_sub(second.len());
    out.extend_from_slice(first)?;
    out.extend_from_slice(second)?;
    push_times(out, b' ', room)?;
    out.push(b' ')?;
    Ok(())
}

pub(crate) fn push_column(out: &mut Vec<u8>, width: usize, text: &[u8]) -> Result<(), OutOfMemory>
    ensures { OnOk result (out.new.items ≡ out.old.items ++ column width text.now) }
{
    push_two(out, width, text, b"")
}

pub(crate) fn push_number(out: &mut Vec<u8>, width: usize, number: u64) -> Result<(), OutOfMemory>
    ensures { OnOk result (out.new.items ≡ out.old.items ++ column width (decimal number)) }
{
    let mut digits = Buffer::new();
    push_column(out, width, digits.format(number).as_bytes())
}

pub(crate) fn push_line(out: &mut Vec<u8>, text: &[u8]) -> Result<(), OutOfMemory>
    ensures { OnOk result (out.new.items ≡ out.old.items ++ line text.now) }
{
    out.extend_from_slice(text)?;
    out.push(b'\n')?;
    Ok(())
}

pub(crate) fn push_number_line(out: &mut Vec<u8>, number: u64) -> Result<(), OutOfMemory>
    ensures { OnOk result (out.new.items ≡ out.old.items ++ line (decimal number)) }
{
    let mut digits = Buffer::new();
    push_line(out, digits.format(number).as_bytes())
}

/// Adds the line that says that there are none, or the head and the rows; and an empty line.
pub(crate) fn push_rows_or_none(
    out: &mut Vec<u8>,
    none: &[u8],
    head: &[u8],
    rows: &[u8],
) -> Result<(), OutOfMemory>
    ensures { OnOk result (out.new.items ≡ out.old.items ++ rows_or_none none.now head.now rows.now) }
{
    if rows.is_empty() {
        push_line(out, none)?;
    } else {
        out.extend_from_slice(head)?;
        out.extend_from_slice(rows)?;
    }
    out.push(b'\n')?;
    Ok(())
}
