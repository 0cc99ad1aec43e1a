ghost use Rattle.std.specs.Prelude.{◌≡◌, ◌≤◌, IfOk, IfErr, Ok, true, false, length};
ghost use Rattle.std.specs.List.{list_all};
ghost use Rattle.sid_core.specs.declared.limits.TheConstants.{MAX_SCRIPT};
ghost use Rattle.worker_script.specs.Answer.{IsBadOf, at_line};
ghost use Rattle.worker_script.specs.Lines.{script_of};
ghost use Rattle.worker_script.specs.Reader.{draft_of, IsReader, Reads};
ghost use Rattle.worker_script.specs.Reading.{word_line, read_line, script};
ghost use Rattle.worker_script.specs.Script.{IsScript};
ghost use Rattle.worker_script.specs.Text.{token, is_plain, is_skipped};

use crate::error::Parse;
use crate::fault::Fault;
use crate::line::Line;
use crate::numeral::are_digits;
use crate::phase::push_phase;
use crate::reader::Reader;
use crate::reason::Reason;
use crate::script::Script;
use crate::text::{first_line, skips};
use sid_core::{OutOfMemory, Setup};
use std::alloc::Global;

// Takes a line that isn't skipped.
#[tactic(auto, unfolding(crate::specs::Reading::word_line))]
fn word_line(reader: &mut Reader, line: &Line<'_>) -> Result<(), Fault>
    requires reader { IsReader reader.old }
    requires word { is_skipped (token 0 line.now) ≡ false }
    ensures { Reads (word_line (draft_of reader.old) line.now) reader.new result }
{
    let word = line.token(0);
    if word == b"worker".as_slice() {
        reader.worker_line(line)
    } else if word == b"file".as_slice() {
        reader.file_line(line)
    } else if word == b"phase".as_slice() {
        reader.phase_line(line)
    } else if are_digits(word) {
        reader.call_line(line)
    } else {
        Err(Fault::Bad(Reason::UnknownLine))
    }
}

// Takes a line of plain bytes. One that is skipped isn't split.
#[tactic(auto, unfolding(crate::specs::Reading::read_line, crate::specs::Reading::word_line))]
fn read_line(reader: &mut Reader, line: &[u8]) -> Result<(), Fault>
    requires reader { IsReader reader.old }
    requires plain { list_all is_plain line.now ≡ true }
    ensures { Reads (read_line (draft_of reader.old) line.now) reader.new result }
{
    if skips(line) {
        return Ok(());
    }
    word_line(reader, &Line::new(line))
}

// The script that the lines make.
fn into_script(reader: Reader) -> Result<Script, OutOfMemory>
    ensures { IfOk result (λ script. script ≡ script_of (draft_of reader)) }
{
    let Reader {
        alloc: _,
        workers,
        files,
        places: _,
        mut phases,
        current,
        calls: _,
        statuses: _,
        tallies: _,
    } = reader;
    push_phase(&mut phases, current)?;
    Ok(Script {
        setup: Setup { workers, files },
        phases,
    })
}

fn at_line(line: u32, fault: Fault) -> Parse
    ensures { result ≡ at_line line fault }
{
    match fault {
        Fault::Bad(reason) => Parse::Bad { line, reason },
        Fault::NoMemory => Parse::OutOfMemory,
    }
}

/// The script that a text spells, or its first bad line with the least reason.
pub fn parse(alloc: Global, bytes: &[u8]) -> Result<Script, Parse>
    requires { length bytes.now ≤ MAX_SCRIPT }
    ensures found { IfOk result (λ found. script bytes.now ≡ Ok found) }
    ensures bad { IfErr result (IsBadOf (script bytes.now)) }
    ensures sound { IfOk result IsScript }
{
    let mut reader = Reader::new(alloc);
    let mut number = 1;
    let mut rest = bytes;
    while !rest.is_empty() {
        let Some((line, after)) = first_line(rest) else {
            return Err(Parse::Bad {
                line: number,
                reason: Reason::NotPlain,
            });
        };
        if let Err(fault) = read_line(&mut reader, line) {
            return Err(at_line(number, fault));
        }
        number += 1;
        rest = after;
    }
    Ok(into_script(reader)?)
}
