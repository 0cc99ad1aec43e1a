//! The lines that a history prints, at the end of a text.
mod letter;
mod piece;
mod reply;

ghost use Rattle.std.specs.Prelude.{◌≡◌, ◌+◌, ◌<◌, ◌≤◌, ◌^◌, [], ◌∷◌, ◌++◌, length, OnOk};
ghost use Rattle.std.specs.List.{flat_map};
ghost use Rattle.std.specs.Fmt.{decimal};
ghost use Rattle.sid_core.specs.declared.limits.TheConstants.{MAX_WORKERS};
ghost use Rattle.sid_core.specs.Words.{word_of, word_text};
ghost use Rattle.serial_table.specs.Text.{call_line, death_line, number_from, post_line, reply_text};

use letter::push_letter;
use piece::{push_decimal, push_numbered};
use reply::push_reply;
use sid_core::{Call, CallWord, OutOfMemory, Post, Reply, Setup, Text, WorkerInfo};

/// Adds the line of a call. After an error a part of it may stand there.
pub fn push_call_line(
    text: &mut Text,
    worker: u32,
    number: u32,
    call: &Call,
    reply: Reply,
) -> Result<(), OutOfMemory>
    ensures { OnOk result (text.new ≡ text.old ++ call_line worker number call.now reply) }
{
    push_decimal(text, worker as u64)?;
    push_numbered(text, b".", number as u64)?;
    push_answer(text, call, reply)
}

/// Adds the line of a death. After an error a part of it may stand there.
pub fn push_death_line(text: &mut Text, worker: u32) -> Result<(), OutOfMemory>
    ensures { OnOk result (text.new ≡ text.old ++ death_line worker) }
{
    push_decimal(text, worker as u64)?;
    text.push(b" died\n")
}

fn push_answer(text: &mut Text, call: &Call, reply: Reply) -> Result<(), OutOfMemory>
    ensures { OnOk result
        (text.new ≡ text.old ++ (32 ∷ (word_text (word_of call.now) ++ (32 ∷ (reply_text reply ++ 10 ∷ []))))) }
{
    text.push(b" ")?;
    text.push(CallWord::of(call).text().as_bytes())?;
    text.push(b" ")?;
    push_reply_and_end(text, reply)
}

fn push_reply_and_end(text: &mut Text, reply: Reply) -> Result<(), OutOfMemory>
    ensures { OnOk result (text.new ≡ text.old ++ (reply_text reply ++ 10 ∷ [])) }
{
    push_reply(text, reply)?;
    text.push(b"\n")
}

/// Adds a line for each letter. After an error a part of them may stand there.
pub fn push_post_lines(text: &mut Text, setup: &Setup, posts: &[Post]) -> Result<(), OutOfMemory>
    requires { length setup.now.workers ≤ MAX_WORKERS }
    ensures { OnOk result (text.new ≡ text.old ++ flat_map (post_line setup.now) posts.now) }
{
    for post in posts {
        push_post_line(text, setup, post)?;
    }
    Ok(())
}

/// Adds the line of a letter, which names the worker that gets it by its number.
pub(crate) fn push_post_line(text: &mut Text, setup: &Setup, post: &Post) -> Result<(), OutOfMemory>
    requires { length setup.now.workers ≤ MAX_WORKERS }
    ensures { OnOk result (text.new ≡ text.old ++ post_line setup.now post.now) }
{
    let worker = worker_number(setup.workers.as_slice(), post.to.pid);
    push_numbered(text, b"  -> ", worker as u64)?;
    text.push(b" ")?;
    push_letter(text, &post.letter)?;
    text.push(b"\n")
}

/// The number of the worker with a pid, counted from 1, and 0 where there is none.
pub(crate) fn worker_number(workers: &[WorkerInfo], pid: u32) -> u32
    requires { length workers.now ≤ MAX_WORKERS }
    ensures { result ≡ number_from 1 workers.now pid }
{
    number_from(1, workers, pid)
}

fn number_from(number: u32, workers: &[WorkerInfo], pid: u32) -> u32
    requires { number + length workers.now < 2 ^ 32 }
    ensures { result ≡ number_from number workers.now pid }
{
    match workers.split_first() {
        None => 0,
        Some((info, _)) if info.pid == pid => number,
        Some((_, rest)) => number_from(number + 1, rest, pid),
    }
}
