ghost use Rattle.std.specs.Prelude.{◌≤◌, OnOk, OnErr};
ghost use Rattle.std.specs.Fmt.{decimal};
ghost use Rattle.std.specs.Io.KnownBytes.{Appends};
ghost use Rattle.sid_core.specs.Faults.{Rose};
ghost use Rattle.opendb_run.specs.Output.{AppendsPrefix};

use itoa::Buffer;
use sid_core::{Failed, Sink};

/// Writes all of `bytes`, in as many writes as the sink wants. No bytes are no write.
pub fn write_all<K: Sink>(sink: &mut K, bytes: &[u8]) -> Result<(), Failed>
    ensures written { OnOk result (Appends (K.written sink.old) (K.written sink.new) bytes.now) }
    ensures prefix { AppendsPrefix (K.written sink.old) (K.written sink.new) bytes.now }
    ensures failed { OnErr result (Rose (K.faults sink.old) (K.faults sink.new)) }
    ensures faults { K.faults sink.old ≤ K.faults sink.new }
{
    let mut done = 0;
    while done < bytes.len() {
        done += sink.write(&bytes[done..])?;
    }
    Ok(())
}

/// Writes a number in decimal, and takes no memory.
pub(crate) fn write_decimal<K: Sink>(sink: &mut K, number: u32) -> Result<(), Failed>
    ensures written { OnOk result
        (Appends (K.written sink.old) (K.written sink.new) (decimal number)) }
    ensures prefix { AppendsPrefix (K.written sink.old) (K.written sink.new) (decimal number) }
    ensures failed { OnErr result (Rose (K.faults sink.old) (K.faults sink.new)) }
    ensures faults { K.faults sink.old ≤ K.faults sink.new }
{
    let mut digits = Buffer::new();
    write_all(sink, digits.format(number).as_bytes())
}
