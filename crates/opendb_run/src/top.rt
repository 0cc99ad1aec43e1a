ghost use Rattle.std.specs.Prelude.{◌≡◌, ◌↔◌, ◌≤◌, ◌⊎◌, ℕ, IsTrue, IsSome, IfSome, List, length, map, string_bytes, Some, None};
ghost use Rattle.std.specs.Io.KnownBytes.{Appends};
ghost use Rattle.sid_core.specs.Faults.{Rose};
ghost use Rattle.serial_table.specs.History.{start};
ghost use Rattle.worker_script.specs.declared.script.Script.{Script};
ghost use Rattle.worker_script.specs.Script.{IsScript};
ghost use Rattle.opendb_run.specs.Words.{command};
ghost use Rattle.opendb_run.specs.Status.{complaint};
ghost use Rattle.opendb_run.specs.Input.{TakesBefore};
ghost use Rattle.opendb_run.specs.Output.{AppendsPrefix};
ghost use Rattle.sid_core.specs.declared.limits.TheConstants.{MAX_SCRIPT};
ghost use Rattle.opendb_run.specs.Playing.{TakesPhases};
ghost use Rattle.opendb_run.specs.Run.{IsOutput, IsFirstOutput, HasRun, BreaksAt, IsExpected, is_silent, status_of_cut, ScriptEnded, BytesEnded, InputEnded};

use crate::input::{InputError, read_all};
use crate::play::{Cut, play, show};
use crate::status::{Status, complain};
use crate::words::Command;
use serial_table::{sessions_rise_by_one, the_living_call, the_living_stay};
use sid_core::{Gate, Sink, Source, Tables};
use std::alloc::Global;
use worker_script::{Parse, Script, parse};

/// How a call ended, the line that it names and the number of the reason that it gives.
#[derive(Clone, Copy)]
struct Ending {
    status: Status,
    line: u32,
    reason: u32,
}

fn status_of_cut(cut: Cut) -> Status
    ensures { result ≡ status_of_cut cut }
{
    match cut {
        Cut::WriteFault => Status::WriteFault,
        Cut::OutOfMemory => Status::OutOfMemory,
    }
}

/// What a script plans can be entered. The function does nothing, and its clause is the law.
fn scripts_are_taken()
    ensures { (script : Script) → IsScript script → TakesPhases script.setup (start script.setup) script.phases }
{
    the_living_call();
    the_living_stay();
    sessions_rise_by_one();
}

/// Runs a script, and prints its history.
fn print_history<O: Sink, G: Gate>(alloc: Global, script: &Script, out: &mut O, gate: &G) -> Status
    requires { IsScript script.now }
    ensures ended { (chains : ℕ) → ScriptEnded (Command.Run chains) script.now (O.written out.old) (O.written out.new) (Rose (O.faults out.old) (O.faults out.new)) result }
    ensures complete { (Rose (O.faults out.old) (O.faults out.new) → ⊥) → (result ≡ Status.OutOfMemory) ⊎ (result ≡ Status.Done) }
    ensures faults { O.faults out.old ≤ O.faults out.new }
{
    scripts_are_taken();
    match play(alloc, script, out, gate) {
        Ok(()) => Status::Done,
        Err(cut) => status_of_cut(cut),
    }
}

/// Runs a script, and prints tables at its end.
fn print_tables<O: Sink, G: Gate>(
    alloc: Global,
    script: &Script,
    chosen: Tables,
    out: &mut O,
    gate: &G,
) -> Status
    requires { IsScript script.now }
    ensures ended { (chains : ℕ) → ScriptEnded (Command.SmbStatus chosen chains) script.now (O.written out.old) (O.written out.new) (Rose (O.faults out.old) (O.faults out.new)) result }
    ensures complete { (Rose (O.faults out.old) (O.faults out.new) → ⊥) → (result ≡ Status.OutOfMemory) ⊎ (result ≡ Status.Done) }
    ensures faults { O.faults out.old ≤ O.faults out.new }
{
    scripts_are_taken();
    match show(alloc, script, chosen, out, gate) {
        Ok(()) => Status::Done,
        Err(cut) => status_of_cut(cut),
    }
}

/// Does with a script what is asked.
fn run_script<O: Sink, G: Gate>(
    alloc: Global,
    asked: Command,
    script: &Script,
    out: &mut O,
    gate: &G,
) -> Status
    requires { IsScript script.now }
    ensures ended { ScriptEnded asked script.now (O.written out.old) (O.written out.new) (Rose (O.faults out.old) (O.faults out.new)) result }
    ensures complete { (Rose (O.faults out.old) (O.faults out.new) → ⊥) → (result ≡ Status.OutOfMemory) ⊎ (result ≡ Status.Done) }
    ensures faults { O.faults out.old ≤ O.faults out.new }
{
    match asked {
        Command::Run { .. } => print_history(alloc, script, out, gate),
        Command::SmbStatus { tables, .. } => print_tables(alloc, script, tables, out, gate),
    }
}

/// Does what is asked with the script that the bytes spell.
fn run_bytes<O: Sink, G: Gate>(
    alloc: Global,
    asked: Command,
    bytes: &[u8],
    out: &mut O,
    gate: &G,
) -> Ending
    requires { length bytes.now ≤ MAX_SCRIPT }
    ensures ended { BytesEnded asked bytes.now (O.written out.old) (O.written out.new) (Rose (O.faults out.old) (O.faults out.new)) result.status result.line result.reason }
    ensures complete { (Rose (O.faults out.old) (O.faults out.new) → ⊥) → IsExpected result.status bytes.now }
    ensures faults { O.faults out.old ≤ O.faults out.new }
{
    match parse(alloc, bytes) {
        Ok(script) => Ending {
            status: run_script(alloc, asked, &script, out, gate),
            line: 0,
            reason: 0,
        },
        Err(Parse::Bad { line, reason }) => Ending {
            status: Status::BadScript,
            line,
            reason: reason.number(),
        },
        Err(Parse::OutOfMemory) => Ending {
            status: Status::OutOfMemory,
            line: 0,
            reason: 0,
        },
    }
}

/// Reads the input to its end, and does what is asked with the script that it spells.
fn run_input<S: Source, O: Sink, G: Gate>(
    alloc: Global,
    asked: Command,
    source: &mut S,
    out: &mut O,
    gate: &G,
) -> Ending
    ensures ended { InputEnded asked (S.left source.old) (S.left source.new) (O.written out.old) (O.written out.new)
        (Rose (S.faults source.old) (S.faults source.new)) (Rose (O.faults out.old) (O.faults out.new)) result.status result.line result.reason }
    ensures complete { IfSome (S.left source.old) (λ bytes.
        (Rose (S.faults source.old) (S.faults source.new) → ⊥) → (Rose (O.faults out.old) (O.faults out.new) → ⊥) → IsExpected result.status bytes) }
    ensures source_faults { S.faults source.old ≤ S.faults source.new }
    ensures out_faults { O.faults out.old ≤ O.faults out.new }
{
    match read_all(alloc, source) {
        Ok(bytes) => run_bytes(alloc, asked, bytes.as_slice(), out, gate),
        Err(error) => Ending {
            status: Status::from(error),
            line: 0,
            reason: 0,
        },
    }
}

/// Runs the program: `words` are those after its name. With the script from `source` it does what they ask: `run` prints on `out`
/// the history that the script makes, `smbstatus` the tables as they are at its end. Tells on `err` why it ended where that isn't
/// the script's end, and tells `gate` of each answer. One thread so far: each phase's lines are written at its end.
pub fn run<S: Source, O: Sink, E: Sink, G: Gate>(
    alloc: Global,
    words: &[String],
    source: &mut S,
    out: &mut O,
    err: &mut E,
    gate: &G,
) -> Status
    // The source was read to its end, its bytes spell a script, and `out` gained what was asked: the text of a legal history that
    // fits the script, or the tables of what such a history makes.
    ensures done { result ≡ Status.Done → IfSome (command (map string_bytes words.now)) (λ asked. (printed : List ℕ)
        × HasRun (IsOutput asked) (S.left source.old) (S.left source.new) printed × Appends (O.written out.old) (O.written out.new) printed) }
    ensures usage { (result ≡ Status.Usage) ↔ (command (map string_bytes words.now) ≡ None) }
    ensures bad_script { result ≡ Status.BadScript → (line : ℕ) × (reason : ℕ)
        × BreaksAt (S.left source.old) (S.left source.new) line reason }
    ensures too_large { result ≡ Status.TooLarge → TakesBefore (S.left source.old) (S.left source.new) InputError.TooLarge }
    ensures read_fault { result ≡ Status.ReadFault → Rose (S.faults source.old) (S.faults source.new)
        × TakesBefore (S.left source.old) (S.left source.new) InputError.ReadFault }
    ensures write_fault { result ≡ Status.WriteFault → Rose (O.faults out.old) (O.faults out.new)
        × IfSome (command (map string_bytes words.now)) (λ asked. (printed : List ℕ)
        × HasRun (IsOutput asked) (S.left source.old) (S.left source.new) printed × AppendsPrefix (O.written out.old) (O.written out.new) printed) }

    // Nothing was written, or, of `run`, the whole text of a legal history that fits the first phases of the script that was read.
    ensures out_of_memory { result ≡ Status.OutOfMemory → (O.written out.new ≡ O.written out.old)
        ⊎ IfSome (command (map string_bytes words.now)) (λ asked. (printed : List ℕ)
        × HasRun (IsFirstOutput asked) (S.left source.old) (S.left source.new) printed × Appends (O.written out.old) (O.written out.new) printed) }

    // Where the words are a command, and no read and no write failed, the bytes decide how it ends, but for want of memory.
    ensures complete { IsSome (command (map string_bytes words.now)) → IfSome (S.left source.old) (λ bytes.
        (Rose (S.faults source.old) (S.faults source.new) → ⊥) → (Rose (O.faults out.old) (O.faults out.new) → ⊥) → IsExpected result bytes) }

    // Where no write to `err` failed, it gained the status's text, which names the line and the reason.
    ensures complaint { (Rose (E.faults err.old) (E.faults err.new) → ⊥) → (line : ℕ) × (reason : ℕ)
        × Appends (E.written err.old) (E.written err.new) (complaint result line reason)
        × (result ≡ Status.BadScript → BreaksAt (S.left source.old) (S.left source.new) line reason) }

    // Nothing is printed with the other statuses.
    ensures silent { IsTrue (is_silent result) → O.written out.new ≡ O.written out.old }
    ensures untouched { result ≡ Status.Usage → source.new ≡ source.old }
    ensures source_faults { S.faults source.old ≤ S.faults source.new }
    ensures out_faults { O.faults out.old ≤ O.faults out.new }
    ensures err_faults { E.faults err.old ≤ E.faults err.new }
{
    let Some(asked) = Command::from_words(words) else {
        complain(err, Status::Usage, 0, 0);
        return Status::Usage;
    };
    let ending = run_input(alloc, asked, source, out, gate);
    complain(err, ending.status, ending.line, ending.reason);
    ending.status
}
