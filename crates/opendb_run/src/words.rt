ghost use Rattle.std.specs.Prelude.{◌≡◌, map, string_bytes, take, drop, Some};
ghost use Rattle.opendb_run.specs.Words.{no_options, with_chains, with_flags, with_option, with_word, options_in, chains_of, run_with, show_with};
ghost use Rattle.worker_script.specs.Options.{with_flag};

use sid_core::Tables;
use worker_script::{Flags, number, tables_of, with_flag};

/// The chains of each database, where no option says how many.
pub const DEFAULT_CHAINS: u32 = 8;
/// The most chains that a database can have. The least is 1.
pub const MAX_CHAINS: u32 = 64;

/// What the program is asked to do. `chains` is the number of chains of each database, 1 to 64. It has no effect yet.
#[derive(Clone, Copy, Debug, PartialEq, Eq)]
pub enum Command {
    /// Run the script on standard input, and print its history.
    Run { chains: u32 },
    /// Run it, print no history, and print these tables at its end.
    SmbStatus { tables: Tables, chains: u32 },
}

/// What the options chose so far. `awaits` says that the last word was `--chains`, whose number is to come.
#[derive(Clone, Copy)]
struct Options {
    chains: Option<u32>,
    flags: Flags,
    awaits: bool,
}

fn no_options() -> Options
    ensures { result ≡ no_options }
{
    Options {
        chains: None,
        flags: Flags {
            shares: false,
            files: false,
            ranges: false,
        },
        awaits: false,
    }
}

#[tactic(auto, unfolding(crate::specs::Words::with_chains))]
fn with_chains(options: Options, digits: &[u8]) -> Option<Options>
    ensures { result ≡ with_chains options digits.now }
{
    if digits.len() > 5 || options.chains.is_some() {
        return None;
    }
    let chains = number(1, u64::from(MAX_CHAINS), digits)?;
    Some(Options {
        chains: Some(chains as u32),
        awaits: false,
        ..options
    })
}

fn with_one_flag(options: Options, word: &[u8]) -> Option<Options>
    ensures { result ≡ with_flags options (with_flag options.flags word.now) }
{
    let flags = with_flag(options.flags, word)?;
    Some(Options { flags, ..options })
}

/// The first nine bytes of a word, and what stands behind them.
fn split_at_nine(word: &[u8]) -> (&[u8], &[u8])
    ensures front { result.0.now ≡ take 9 word.now }
    ensures behind { result.1.now ≡ drop 9 word.now }
{
    word.split_at(word.len().min(9))
}

/// What a word that isn't awaited and isn't `--chains` adds.
fn with_option(options: Options, word: &[u8]) -> Option<Options>
    ensures { result ≡ with_option options word.now }
{
    let (front, behind) = split_at_nine(word);
    if front == b"--chains=".as_slice() {
        with_chains(options, behind)
    } else {
        with_one_flag(options, word)
    }
}

#[tactic(auto, unfolding(crate::specs::Words::with_word))]
fn with_word(options: Options, word: &[u8]) -> Option<Options>
    ensures { result ≡ with_word options word.now }
{
    if options.awaits {
        with_chains(options, word)
    } else if word == b"--chains".as_slice() {
        Some(Options {
            awaits: true,
            ..options
        })
    } else {
        with_option(options, word)
    }
}

/// The options that these words add. Since each stands at most once, it goes through few words before one is none.
fn options_in(options: Options, words: &[String]) -> Option<Options>
    ensures { result ≡ options_in options (map string_bytes words.now) }
{
    match words.split_first() {
        None if options.awaits => None,
        None => Some(options),
        Some((word, rest)) => options_in(with_word(options, word.as_bytes())?, rest),
    }
}

fn chains_of(options: Options) -> u32
    ensures { result ≡ chains_of options }
{
    options.chains.unwrap_or(DEFAULT_CHAINS)
}

fn run_with(options: Options) -> Option<Command>
    ensures { result ≡ run_with options }
{
    let Flags {
        shares,
        files,
        ranges,
    } = options.flags;
    if shares || files || ranges {
        return None;
    }
    Some(Command::Run {
        chains: chains_of(options),
    })
}

fn show_with(options: Options) -> Option<Command>
    ensures { result ≡ show_with options }
{
    Some(Command::SmbStatus {
        tables: tables_of(options.flags),
        chains: chains_of(options),
    })
}

impl Command {
    ghost use Rattle.opendb_run.specs.Words.{command};

    /// What the words after the program's name ask for, if they are those of a command. Takes no
    /// memory.
    pub fn from_words(words: &[String]) -> Option<Command>
        ensures { result ≡ command (map string_bytes words.now) }
    {
        let (word, words) = words.split_first()?;
        if word.as_str() == "run" {
            run_with(options_in(no_options(), words)?)
        } else if word.as_str() == "smbstatus" {
            show_with(options_in(no_options(), words)?)
        } else {
            None
        }
    }
}
