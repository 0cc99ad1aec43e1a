ghost use Rattle.std.specs.Prelude.{◌≡◌, ◌<◌, take, drop, nat_lt, Some};
ghost use Rattle.worker_script.specs.Text.{token};
ghost use Rattle.worker_script.specs.Options.{with_durable, with_lease, with_option, add_option, asked_in, with_flag, add_flag, flags_in, tables_of};

use crate::asked::{Asked, Flags};
use crate::line::Line;
use crate::numeral::{number_u64, positive_u32};
use crate::text::find;
use sid_core::{LeaseAsk, LeaseState, Tables};

// The first bytes of a token.
fn front(count: usize, token: &[u8]) -> &[u8]
    ensures { result.now ≡ take count token.now }
{
    let (front, _) = token.split_at(count.min(token.len()));
    front
}

// What comes behind the first bytes of a token.
fn behind(count: usize, token: &[u8]) -> &[u8]
    ensures { result.now ≡ drop count token.now }
{
    let (_, behind) = token.split_at(count.min(token.len()));
    behind
}

#[tactic(auto, unfolding(crate::specs::Options::with_durable))]
fn with_durable(asked: Asked, seconds: &[u8]) -> Option<Asked>
    ensures { result ≡ with_durable asked seconds.now }
{
    let durable = positive_u32(seconds)?;
    if asked.durable != 0 {
        return None;
    }
    Some(Asked { durable, ..asked })
}

#[tactic(auto, unfolding(crate::specs::Options::with_lease))]
fn with_lease(asked: Asked, lease: &[u8]) -> Option<Asked>
    ensures { result ≡ with_lease asked lease.now }
{
    let colon = find(b':', lease);
    let key = number_u64(front(colon, lease))?;
    let state = LeaseState::read(behind(colon + 1, lease))?;
    if asked.lease.is_some() {
        return None;
    }
    Some(Asked {
        lease: Some(LeaseAsk { key, state }),
        ..asked
    })
}

#[tactic(auto, unfolding(crate::specs::Options::with_option))]
fn with_option(asked: Asked, token: &[u8]) -> Option<Asked>
    ensures { result ≡ with_option asked token.now }
{
    if token == b"overwrite".as_slice() {
        if asked.overwrite {
            return None;
        }
        Some(Asked {
            overwrite: true,
            ..asked
        })
    } else if token == b"delete".as_slice() {
        if asked.delete {
            return None;
        }
        Some(Asked {
            delete: true,
            ..asked
        })
    } else if front(8, token) == b"durable=".as_slice() {
        with_durable(asked, behind(8, token))
    } else if front(6, token) == b"lease=".as_slice() {
        with_lease(asked, behind(6, token))
    } else {
        None
    }
}

fn option_at(index: usize, count: usize, line: &Line<'_>, asked: Asked) -> Option<Asked>
    requires { index < 9 }
    ensures { result ≡ add_option (nat_lt index count) (token index line.now) (Some asked) }
{
    if index < count {
        with_option(asked, line.token(index))
    } else {
        Some(asked)
    }
}

/// The options of an open line with so many tokens.
#[tactic(auto, unfolding(crate::specs::Options::asked_in))]
pub(crate) fn asked_in(count: usize, line: &Line<'_>) -> Option<Asked>
    ensures { result ≡ asked_in count line.now }
{
    let none = Asked {
        lease: None,
        durable: 0,
        overwrite: false,
        delete: false,
    };
    let one = option_at(5, count, line, none)?;
    let two = option_at(6, count, line, one)?;
    let three = option_at(7, count, line, two)?;
    option_at(8, count, line, three)
}

/// These flags with one more, where the token is one. Each stands at most once, and `-S` not with `-L`.
#[tactic(auto, unfolding(crate::specs::Options::with_flag))]
pub fn with_flag(flags: Flags, token: &[u8]) -> Option<Flags>
    ensures { result ≡ with_flag flags token.now }
{
    if token == b"-S".as_slice() && !flags.shares && !flags.files {
        Some(Flags {
            shares: true,
            ..flags
        })
    } else if token == b"-L".as_slice() && !flags.shares && !flags.files {
        Some(Flags {
            files: true,
            ..flags
        })
    } else if token == b"-B".as_slice() && !flags.ranges {
        Some(Flags {
            ranges: true,
            ..flags
        })
    } else {
        None
    }
}

fn flag_at(index: usize, count: usize, line: &Line<'_>, flags: Flags) -> Option<Flags>
    requires { index < 9 }
    ensures { result ≡ add_flag (nat_lt index count) (token index line.now) (Some flags) }
{
    if index < count {
        with_flag(flags, line.token(index))
    } else {
        Some(flags)
    }
}

/// The flags of a status line with so many tokens.
#[tactic(auto, unfolding(crate::specs::Options::flags_in))]
pub(crate) fn flags_in(count: usize, line: &Line<'_>) -> Option<Flags>
    ensures { result ≡ flags_in count line.now }
{
    let none = Flags {
        shares: false,
        files: false,
        ranges: false,
    };
    let one = flag_at(2, count, line, none)?;
    let two = flag_at(3, count, line, one)?;
    flag_at(4, count, line, two)
}

/// Which tables these flags choose.
pub fn tables_of(flags: Flags) -> Tables
    ensures { result ≡ tables_of flags }
{
    Tables {
        shares: !flags.files,
        files: !flags.shares,
        ranges: flags.ranges && !flags.shares,
    }
}
