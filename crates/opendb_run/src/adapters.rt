ghost use Rattle.std.specs.Prelude.{◌≡◌, ◌<◌, ◌≤◌, ℕ, Option, None, take, length, Ok, IfOk, OnErr};
ghost use Rattle.std.specs.Io.KnownBytes.{Consumes, Appends, Keeps, IsAtEnd};
ghost use Rattle.sid_core.specs.Faults.{Rose};

use sid_core::{Failed, Sink, Source};
use std::io::{Read, Write};

/// A reader of the system as a source. It tells no bytes. A read that is interrupted is a fault.
#[derive(Debug, Drop)]
pub struct RealSource<R> {
    pub reader: R,
    /// How many reads have failed. It stays at its last value.
    pub faults: u64,
}

impl<R: Read + Drop> RealSource<R> {
    pub fn new(reader: R) -> RealSource<R>
        ensures { result ≡ record { reader = reader; faults = 0 } }
    {
        RealSource { reader, faults: 0 }
    }
}

impl<R: Read + Drop> Source for RealSource<R> {
    ghost left = { λ _. None };

    ghost faults = { λ source. source.faults };

    fn read(&mut self, into: &mut [u8]) -> Result<usize, Failed>
        requires { 0 < length into.old }
        ensures count { IfOk result (λ n. n ≤ length into.new) }
        ensures failed { OnErr result (Rose self.old.faults self.new.faults) }
        ensures faults { self.old.faults ≤ self.new.faults }

        // Where the reader knows its bytes, they are what it gave.
        ensures given { IfOk result (λ n. Consumes
            (R.remaining self.old.reader) (R.remaining self.new.reader) (take n into.new)) }
        ensures untouched { OnErr result
            (Keeps (R.remaining self.old.reader) (R.remaining self.new.reader)) }
        ensures ended { result ≡ Ok 0 → IsAtEnd (R.remaining self.new.reader) }
    {
        match self.reader.read(into) {
            Ok(count) => Ok(count),
            Err(_) => {
                self.faults = self.faults.saturating_add(1);
                Err(Failed)
            }
        }
    }
}

/// A writer of the system as a sink. It tells no bytes. A write that is interrupted, or that takes
/// nothing, is a fault.
#[derive(Debug, Drop)]
pub struct RealSink<W> {
    pub writer: W,
    /// How many writes have failed. It stays at its last value.
    pub faults: u64,
}

impl<W: Write + Drop> RealSink<W> {
    pub fn new(writer: W) -> RealSink<W>
        ensures { result ≡ record { writer = writer; faults = 0 } }
    {
        RealSink { writer, faults: 0 }
    }
}

impl<W: Write + Drop> Sink for RealSink<W> {
    ghost written = { λ _. None };

    ghost faults = { λ sink. sink.faults };

    fn write(&mut self, from: &[u8]) -> Result<usize, Failed>
        requires { 0 < length from.now }
        ensures some { IfOk result (λ n. 0 < n) }
        ensures count { IfOk result (λ n. n ≤ length from.now) }
        ensures failed { OnErr result (Rose self.old.faults self.new.faults) }
        ensures faults { self.old.faults ≤ self.new.faults }

        // Where the writer knows its bytes, they are what it was given.
        ensures passed { IfOk result (λ n. Appends
            (W.contents self.old.writer) (W.contents self.new.writer) (take n from.now)) }
        ensures untouched { OnErr result
            (Keeps (W.contents self.old.writer) (W.contents self.new.writer)) }
    {
        match self.writer.write(from) {
            Ok(count) if count > 0 => Ok(count),
            _ => {
                self.faults = self.faults.saturating_add(1);
                Err(Failed)
            }
        }
    }
}
