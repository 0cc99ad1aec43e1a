//! The program `opendb`.
#![tactic(auto)]

use opendb_run::{Open, RealSink, RealSource, Status, complain, run, write_all};
use sid_core::Sink;
use std::env::{self, Env};
use std::io;
use std::process::ExitCode;

/// How the program ends where the system doesn't give it its words.
const NO_WORDS: u8 = 10;

fn main(rt: HostRuntime) -> ExitCode {
    let mut err = RealSink::new(rt.stderr());
    let words = match words(&rt) {
        Ok(words) => words,
        Err(error) => return without_words(&mut err, &error),
    };
    let mut source = RealSource::new(rt.stdin());
    let mut out = RealSink::new(rt.stdout());
    let status = run(
        rt.alloc(),
        words.as_slice(),
        &mut source,
        &mut out,
        &mut err,
        &Open,
    );
    ExitCode::from(status.code())
}

/// The words after the program's name.
fn words<R: Env + AllocGlobal>(rt: &R) -> io::Result<Vec<String>> {
    let words = env::args(rt)?.skip(1).collect(rt.alloc())?;
    Ok(words)
}

/// Tells on `err` why there are no words. A word that isn't UTF-8 is in no command.
fn without_words<E: Sink>(err: &mut E, error: &io::Error) -> ExitCode {
    let status = match error.kind() {
        io::ErrorKind::OutOfMemory => Status::OutOfMemory,
        io::ErrorKind::InvalidData => Status::Usage,
        _ => {
            let _ = write_all(err, b"opendb: no words\n");
            return ExitCode::from(NO_WORDS);
        }
    };
    complain(err, status, 0, 0);
    ExitCode::from(status.code())
}
