//! A run of a script on one thread: phase by phase, and in each phase one worker after another in rising number.
ghost use Rattle.std.specs.Prelude.{◌≡◌, ◌==◌, ◌≤◌, ◌<◌, ◌++◌, ◌+◌, ◌-◌, ◌^◌, ℕ, cond, [], length, is_some, IsTrue, IfSome, OnOk, IfOk, IfErr};
ghost use Rattle.std.specs.Io.KnownBytes.{Appends};
ghost use Rattle.sid_core.specs.Faults.{Rose};
ghost use Rattle.sid_core.specs.declared.entry.Event.{Event};
ghost use Rattle.sid_core.specs.declared.limits.TheConstants.{MAX_WORKERS};
ghost use Rattle.serial_table.specs.View.{view};
ghost use Rattle.serial_table.specs.Settle.{settle};
ghost use Rattle.serial_table.specs.Step.{caller_of, posts_of};
ghost use Rattle.serial_table.specs.History.{start, after_event, IsLegalEvent};
ghost use Rattle.serial_table.specs.Tables.{tables};
ghost use Rattle.serial_table.specs.Text.{block, tables_under};
ghost use Rattle.sid_core.specs.declared.reply.Reply.{Reply};
ghost use Rattle.worker_script.specs.Fits.{is_entered};
ghost use Rattle.worker_script.specs.Script.{IsScript};
ghost use Rattle.opendb_run.specs.declared.play.Cut.TheVariants as cuts;
ghost use Rattle.opendb_run.specs.Order.{is_by, calls_by, in_turn, in_order};
ghost use Rattle.opendb_run.specs.Play.{call_event, call_entry, death_entry, after_call, after_death, after_planned, after_calls, after_phase};
ghost use Rattle.opendb_run.specs.Playing.{text_of_call, text_of_death, text_of_planned, text_of_calls, text_of_phase, text_of_phases, after_phases, Takes, TakesCalls, TakesPhase, TakesPhases, PhaseIsCut, IsCut};

use crate::lines::{push_call_line, push_death_line, push_post_lines};
use crate::output::write_all;
use serial_table::{Apply, Table};
use sid_core::{
    Call, Entry, Event, Failed, Gate, Moment, OutOfMemory, Point, Post, Setup, Sink, StepKind,
    Tables, Text,
};
use std::alloc::Global;
use worker_script::{Phase, Planned, Script};

/// Who commits what the runner enters.
const RUNNER: u32 = 0;

/// Why a run is cut short.
#[derive(Clone, Copy, Debug, PartialEq, Eq)]
pub(crate) enum Cut {
    WriteFault,
    OutOfMemory,
}

impl From<OutOfMemory> for Cut {
    ghost from_gives = { λ _ cut. cut ≡ cuts.OutOfMemory };

    fn from(_e: OutOfMemory) -> Cut {
        Cut::OutOfMemory
    }
}

impl From<Failed> for Cut {
    ghost from_gives = { λ _ cut. cut ≡ cuts.WriteFault };

    fn from(_e: Failed) -> Cut {
        Cut::WriteFault
    }
}

/// Whether a call with this stop is entered: its worker doesn't die before it commits.
fn is_entered(stop: Option<Point>) -> bool
    ensures { result ≡ is_entered stop }
{
    match stop {
        None | Some(Point::Commit | Point::Store | Point::Release) => true,
        Some(Point::Take | Point::Intent | Point::Mourn) => false,
    }
}

/// What a status call shows, and nothing of the others.
fn tables_under(
    alloc: Global,
    table: &Table,
    setup: &Setup,
    call: &Call,
) -> Result<Vec<u8>, OutOfMemory>
    ensures { IfOk result (λ bytes. (number : ℕ) (moment : Moment) (reply : Reply) → bytes.items ≡ tables_under setup.now (view table.now) (Event.Called number moment call.now reply)) }
{
    let mut bytes = Vec::new(alloc);
    if let Call::Status { tables } = call {
        table.show(setup, *tables, &mut bytes)?;
    }
    Ok(bytes)
}

/// Makes a call, unless its worker dies before it commits: prints its line, the letters that it posts and the tables that it shows, and
/// tells the gate.
#[tactic(auto, unfolding(crate::specs::Play::after_call, crate::specs::Playing::text_of_call))]
fn play_call<G: Gate>(
    alloc: Global,
    table: &mut Table,
    text: &mut Text,
    setup: &Setup,
    moment: Moment,
    planned: &Planned,
    gate: &G,
) -> Result<(), OutOfMemory>
    requires few { length setup.now.workers ≤ MAX_WORKERS }
    requires taken { IsTrue (is_entered planned.now.stop) → IsLegalEvent setup.now table.old planned.now.worker (call_event setup.now table.old moment planned.now) }
    requires next { IfSome (caller_of setup.now (view table.old) planned.now.worker planned.now.number moment) (λ caller. caller.sid.session + 1 < 2 ^ 32) }
    requires settled { settle table.old ≡ table.old }
    ensures table { OnOk result (table.new ≡ after_call setup.now table.old moment planned.now) }
    ensures text { OnOk result (text.new ≡ text.old ++ text_of_call setup.now table.old moment planned.now) }
    ensures settled { settle table.new ≡ table.new }
{
    if !is_entered(planned.stop) {
        return Ok(());
    }
    let Some(caller) = table.caller(setup, planned.worker, planned.number, moment) else {
        unreachable!();
    };
    let shown = tables_under(alloc, table, setup, &planned.call)?;
    let (reply, posts) = table.call(setup, &caller, planned.call)?;
    push_call_line(text, planned.worker, planned.number, &planned.call, reply)?;
    push_post_lines(text, setup, posts.as_slice())?;
    text.push(shown.as_slice())?;
    gate.at(planned.worker, planned.number, StepKind::Answered);
    Ok(())
}

/// The table takes no note of which of the runner's entries it is.
fn take_death(
    table: &mut Table,
    setup: &Setup,
    moment: Moment,
    worker: u32,
) -> Result<Vec<Post>, OutOfMemory>
    requires taken { IsLegalEvent setup.now table.old 0 (Event.Died worker moment) }
    requires settled { settle table.old ≡ table.old }
    ensures table { OnOk result (table.new ≡ after_event setup.now table.old 0 (Event.Died worker moment)) }
    ensures posts { IfOk result (λ posts. posts.items ≡ posts_of setup.now (view table.old) 0 (Event.Died worker moment)) }
    ensures settled { settle table.new ≡ table.new }
{
    let entry = Entry {
        by: RUNNER,
        seq: 1,
        what: Event::Died { worker, moment },
    };
    match table.apply(setup, &entry) {
        Ok(posts) => Ok(posts),
        Err(Apply::OutOfMemory) => Err(OutOfMemory),
        Err(Apply::Differs(_) | Apply::NotAlive(_)) => unreachable!(),
    }
}

/// Enters a worker's death, where it dies in this call, and prints its line and the letters that it posts.
#[tactic(auto, unfolding(crate::specs::Play::after_death, crate::specs::Playing::text_of_death))]
fn play_death(
    table: &mut Table,
    text: &mut Text,
    setup: &Setup,
    moment: Moment,
    planned: &Planned,
) -> Result<(), OutOfMemory>
    requires few { length setup.now.workers ≤ MAX_WORKERS }
    requires taken { IsTrue (is_some planned.now.stop) → IsLegalEvent setup.now table.old 0 (Event.Died planned.now.worker moment) }
    requires settled { settle table.old ≡ table.old }
    ensures table { OnOk result (table.new ≡ after_death setup.now table.old moment planned.now) }
    ensures text { OnOk result (text.new ≡ text.old ++ text_of_death setup.now table.old moment planned.now) }
    ensures settled { settle table.new ≡ table.new }
{
    if planned.stop.is_none() {
        return Ok(());
    }
    let posts = take_death(table, setup, moment, planned.worker)?;
    push_death_line(text, planned.worker)?;
    push_post_lines(text, setup, posts.as_slice())
}

/// Plays a planned call, where it is this worker's, and the worker's death where it is its last.
fn play_if_by<G: Gate>(
    alloc: Global,
    table: &mut Table,
    text: &mut Text,
    setup: &Setup,
    moment: Moment,
    worker: u32,
    planned: &Planned,
    gate: &G,
) -> Result<(), OutOfMemory>
    requires few { length setup.now.workers ≤ MAX_WORKERS }
    requires taken { IsTrue (is_by worker planned.now) → Takes setup.now table.old moment planned.now }
    requires settled { settle table.old ≡ table.old }
    ensures table { OnOk result (table.new ≡ cond (is_by worker planned.now) (after_planned setup.now table.old moment planned.now) table.old) }
    ensures text { OnOk result (text.new ≡ text.old ++ cond (is_by worker planned.now) (text_of_planned setup.now table.old moment planned.now) []) }
    ensures settled { settle table.new ≡ table.new }
{
    if planned.worker == worker {
        play_call(alloc, table, text, setup, moment, planned, gate)?;
        play_death(table, text, setup, moment, planned)
    } else {
        Ok(())
    }
}

/// Plays the calls of one worker.
fn play_worker<G: Gate>(
    alloc: Global,
    table: &mut Table,
    text: &mut Text,
    setup: &Setup,
    phase: &Phase,
    worker: u32,
    gate: &G,
) -> Result<(), OutOfMemory>
    requires few { length setup.now.workers ≤ MAX_WORKERS }
    requires taken { TakesCalls setup.now table.old phase.now.moment (calls_by worker phase.now.calls) }
    requires settled { settle table.old ≡ table.old }
    ensures table { OnOk result (table.new ≡ after_calls setup.now table.old phase.now.moment (calls_by worker phase.now.calls)) }
    ensures text { OnOk result (text.new ≡ text.old ++ text_of_calls setup.now table.old phase.now.moment (calls_by worker phase.now.calls)) }
    ensures settled { settle table.new ≡ table.new }
{
    for planned in phase.calls.as_slice() {
        play_if_by(
            alloc,
            table,
            text,
            setup,
            phase.moment,
            worker,
            planned,
            gate,
        )?;
    }
    Ok(())
}

/// Plays a phase. Each worker costs a scan of the phase's calls: at most 64 of them, and no memory.
fn play_phase<G: Gate>(
    alloc: Global,
    table: &mut Table,
    text: &mut Text,
    setup: &Setup,
    phase: &Phase,
    gate: &G,
) -> Result<(), OutOfMemory>
    requires few { length setup.now.workers ≤ MAX_WORKERS }
    requires taken { TakesPhase setup.now table.old phase.now }
    requires settled { settle table.old ≡ table.old }
    ensures table { OnOk result (table.new ≡ after_phase setup.now table.old phase.now) }
    ensures text { OnOk result (text.new ≡ text.old ++ text_of_phase setup.now table.old phase.now) }
    ensures settled { settle table.new ≡ table.new }
{
    for place in 0..setup.workers.len() {
        play_worker(alloc, table, text, setup, phase, place as u32 + 1, gate)?;
    }
    Ok(())
}

/// The text without its bytes. It keeps its room.
fn emptied(text: Text) -> Text
    ensures { result ≡ [] }
{
    let mut bytes = text.into_vec();
    bytes.clear();
    Text::from_vec(bytes)
}

/// Plays a phase, and writes its lines at its end, which are collected in the room of this text.
fn print_phase<O: Sink, G: Gate>(
    alloc: Global,
    table: &mut Table,
    text: Text,
    setup: &Setup,
    phase: &Phase,
    out: &mut O,
    gate: &G,
) -> Result<Text, Cut>
    requires few { length setup.now.workers ≤ MAX_WORKERS }
    requires taken { TakesPhase setup.now table.old phase.now }
    requires settled { settle table.old ≡ table.old }
    ensures table { OnOk result (table.new ≡ after_phase setup.now table.old phase.now) }
    ensures printed { OnOk result (Appends (O.written out.old) (O.written out.new) (text_of_phase setup.now table.old phase.now)) }
    ensures cut { IfErr result (PhaseIsCut (O.written out.old) (O.written out.new) (Rose (O.faults out.old) (O.faults out.new)) (text_of_phase setup.now table.old phase.now)) }
    ensures settled { settle table.new ≡ table.new }
    ensures faults { O.faults out.old ≤ O.faults out.new }
{
    let mut text = emptied(text);
    play_phase(alloc, table, &mut text, setup, phase, gate)?;
    write_all(out, text.bytes())?;
    Ok(text)
}

/// Runs a script on one thread, and prints its history. Each phase's lines are written at its end.
pub(crate) fn play<O: Sink, G: Gate>(
    alloc: Global,
    script: &Script,
    out: &mut O,
    gate: &G,
) -> Result<(), Cut>
    requires few { length script.now.setup.workers ≤ MAX_WORKERS }
    requires taken { TakesPhases script.now.setup (start script.now.setup) script.now.phases }
    ensures done { OnOk result (Appends (O.written out.old) (O.written out.new) (text_of_phases script.now.setup (start script.now.setup) script.now.phases)) }
    ensures cut { IfErr result (IsCut script.now (O.written out.old) (O.written out.new) (Rose (O.faults out.old) (O.faults out.new))) }
    ensures faults { O.faults out.old ≤ O.faults out.new }
{
    let mut table = Table::start(alloc, &script.setup)?;
    let mut text = Text::new(alloc);
    for phase in script.phases.as_slice() {
        text = print_phase(alloc, &mut table, text, &script.setup, phase, out, gate)?;
    }
    Ok(())
}

/// Plays all phases, and keeps none of their lines.
fn play_all<G: Gate>(alloc: Global, script: &Script, gate: &G) -> Result<Table, OutOfMemory>
    requires few { length script.now.setup.workers ≤ MAX_WORKERS }
    requires taken { TakesPhases script.now.setup (start script.now.setup) script.now.phases }
    ensures { IfOk result (λ table. table ≡ after_phases script.now.setup (start script.now.setup) script.now.phases) }
{
    let mut table = Table::start(alloc, &script.setup)?;
    let mut text = Text::new(alloc);
    for phase in script.phases.as_slice() {
        text = emptied(text);
        play_phase(alloc, &mut table, &mut text, &script.setup, phase, gate)?;
    }
    Ok(table)
}

/// Runs a script on one thread, and prints the chosen tables as they are at its end.
pub(crate) fn show<O: Sink, G: Gate>(
    alloc: Global,
    script: &Script,
    chosen: Tables,
    out: &mut O,
    gate: &G,
) -> Result<(), Cut>
    requires few { length script.now.setup.workers ≤ MAX_WORKERS }
    requires taken { TakesPhases script.now.setup (start script.now.setup) script.now.phases }
    ensures done { OnOk result (Appends (O.written out.old) (O.written out.new) (tables script.now.setup (view (after_phases script.now.setup (start script.now.setup) script.now.phases)) chosen)) }
    ensures cut { IfErr result (PhaseIsCut (O.written out.old) (O.written out.new) (Rose (O.faults out.old) (O.faults out.new)) (tables script.now.setup (view (after_phases script.now.setup (start script.now.setup) script.now.phases)) chosen)) }
    ensures faults { O.faults out.old ≤ O.faults out.new }
{
    let table = play_all(alloc, script, gate)?;
    let mut bytes = Vec::new(alloc);
    table.show(&script.setup, chosen, &mut bytes)?;
    write_all(out, bytes.as_slice())?;
    Ok(())
}
