ghost use Rattle.std.specs.Prelude.{◌≡◌, take, drop};
ghost use Rattle.sid_core.specs.Words.{spelled_by, word_of, word_text, call_words, read_word, state_text, read_state, read_share, lock_text, read_lock_mode, read_glock_mode};

use crate::bits::{LeaseState, Share};
use crate::call::{Call, Mode};

/// The word of a call, in scripts and in printed lines.
#[derive(Clone, Copy)]
pub enum CallWord {
    Open,
    Close,
    Delete,
    Ack,
    Lock,
    Unlock,
    Read,
    Write,
    GLock,
    GUnlock,
    Recv,
    Disconnect,
    Reconnect,
    Scavenge,
    Tidy,
    Status,
}

impl CallWord {
    pub fn of(call: &Call) -> CallWord
        ensures { result ≡ word_of call.now }
    {
        match call {
            Call::OpenFile { .. } => CallWord::Open,
            Call::Close { .. } => CallWord::Close,
            Call::Delete { .. } => CallWord::Delete,
            Call::Ack { .. } => CallWord::Ack,
            Call::Lock { .. } => CallWord::Lock,
            Call::Unlock { .. } => CallWord::Unlock,
            Call::Read { .. } => CallWord::Read,
            Call::Write { .. } => CallWord::Write,
            Call::GLock { .. } => CallWord::GLock,
            Call::GUnlock { .. } => CallWord::GUnlock,
            Call::Recv => CallWord::Recv,
            Call::Disconnect => CallWord::Disconnect,
            Call::Reconnect { .. } => CallWord::Reconnect,
            Call::Scavenge => CallWord::Scavenge,
            Call::Tidy => CallWord::Tidy,
            Call::Status { .. } => CallWord::Status,
        }
    }

    /// In ASCII.
    pub fn text(self) -> &'static str
        ensures { result.now ≡ word_text self }
    {
        match self {
            CallWord::Open => "open",
            CallWord::Close => "close",
            CallWord::Delete => "delete",
            CallWord::Ack => "ack",
            CallWord::Lock => "lock",
            CallWord::Unlock => "unlock",
            CallWord::Read => "read",
            CallWord::Write => "write",
            CallWord::GLock => "glock",
            CallWord::GUnlock => "gunlock",
            CallWord::Recv => "recv",
            CallWord::Disconnect => "disconnect",
            CallWord::Reconnect => "reconnect",
            CallWord::Scavenge => "scavenge",
            CallWord::Tidy => "tidy",
            CallWord::Status => "status",
        }
    }

    /// The call word that a token is, if it is one.
    #[tactic(auto, unfolding(crate::specs::Words::read_word))]
    pub fn read(token: &[u8]) -> Option<CallWord>
        ensures { result ≡ read_word token.now }
    {
        match short_word(token) {
            Some(word) => Some(word),
            None => long_word(token),
        }
    }
}

// A call word of at most five bytes.
fn short_word(token: &[u8]) -> Option<CallWord>
    ensures { result ≡ spelled_by word_text (take 9 call_words) token.now }
{
    match token {
        b"open" => Some(CallWord::Open),
        b"close" => Some(CallWord::Close),
        b"ack" => Some(CallWord::Ack),
        b"lock" => Some(CallWord::Lock),
        b"read" => Some(CallWord::Read),
        b"write" => Some(CallWord::Write),
        b"glock" => Some(CallWord::GLock),
        b"recv" => Some(CallWord::Recv),
        b"tidy" => Some(CallWord::Tidy),
        _ => None,
    }
}

// A call word of more than five bytes.
fn long_word(token: &[u8]) -> Option<CallWord>
    ensures { result ≡ spelled_by word_text (drop 9 call_words) token.now }
{
    if token == b"delete".as_slice() {
        Some(CallWord::Delete)
    } else if token == b"unlock".as_slice() {
        Some(CallWord::Unlock)
    } else if token == b"gunlock".as_slice() {
        Some(CallWord::GUnlock)
    } else if token == b"disconnect".as_slice() {
        Some(CallWord::Disconnect)
    } else if token == b"reconnect".as_slice() {
        Some(CallWord::Reconnect)
    } else if token == b"scavenge".as_slice() {
        Some(CallWord::Scavenge)
    } else if token == b"status".as_slice() {
        Some(CallWord::Status)
    } else {
        None
    }
}

impl LeaseState {
    /// The letters of what is held, or a dash where nothing is.
    pub fn text(self) -> &'static str
        ensures { result.now ≡ state_text self.0 }
    {
        match self.0 {
            0 => "-",
            1 => "R",
            3 => "RH",
            5 => "RW",
            _ => "RWH",
        }
    }

    /// The state that a token spells, if it spells one.
    #[tactic(auto, unfolding(crate::specs::Words::read_state))]
    pub fn read(token: &[u8]) -> Option<LeaseState>
        ensures { result ≡ read_state token.now }
    {
        match token {
            b"-" => Some(LeaseState(0)),
            b"R" => Some(LeaseState(1)),
            b"RH" => Some(LeaseState(3)),
            b"RW" => Some(LeaseState(5)),
            b"RWH" => Some(LeaseState(7)),
            _ => None,
        }
    }
}

impl Share {
    /// The share bits that a token spells: `r` reading, `w` writing and `d` deleting, in this order, or a dash for none.
    #[tactic(auto, unfolding(crate::specs::Words::read_share))]
    pub fn read(token: &[u8]) -> Option<Share>
        ensures { result ≡ read_share token.now }
    {
        match token {
            b"-" => Some(Share(0)),
            b"r" => Some(Share(1)),
            b"w" => Some(Share(2)),
            b"rw" => Some(Share(3)),
            b"d" => Some(Share(4)),
            b"rd" => Some(Share(5)),
            b"wd" => Some(Share(6)),
            b"rwd" => Some(Share(7)),
            _ => None,
        }
    }
}

impl Mode {
    /// The letter of a byte-range lock of this mode.
    pub fn lock_text(self) -> &'static str
        ensures { result.now ≡ lock_text self }
    {
        match self {
            Mode::Shared => "s",
            Mode::Exclusive => "x",
        }
    }

    /// The mode of a byte-range lock that a token spells.
    #[tactic(auto, unfolding(crate::specs::Words::read_lock_mode))]
    pub fn read_lock(token: &[u8]) -> Option<Mode>
        ensures { result ≡ read_lock_mode token.now }
    {
        match token {
            b"s" => Some(Mode::Shared),
            b"x" => Some(Mode::Exclusive),
            _ => None,
        }
    }

    /// The mode of a global lock that a token spells.
    #[tactic(auto, unfolding(crate::specs::Words::read_glock_mode))]
    pub fn read_glock(token: &[u8]) -> Option<Mode>
        ensures { result ≡ read_glock_mode token.now }
    {
        match token {
            b"r" => Some(Mode::Shared),
            b"w" => Some(Mode::Exclusive),
            _ => None,
        }
    }
}
