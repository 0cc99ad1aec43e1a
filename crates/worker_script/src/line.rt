ghost use Rattle.std.specs.Prelude.{◌≡◌, ◌<◌, length};
ghost use Rattle.worker_script.specs.Text.{tokens, token};
ghost use Rattle.worker_script.specs.Calls.{last_token};

use crate::text::first_part;
use std::marker::Model;

/// A line that was split once. Contracts see all its tokens. The first nine are kept, which is the most that a line may have
/// beside a stop, and the last.
#[derive(Drop)]
pub(crate) struct Line<'a> {
    text: &'a [u8],
    /// How many tokens there are.
    count: usize,
    first: [&'a [u8]; 9],
    last: &'a [u8],
}

impl<'a> Model for Line<'a> {
    ghost use Rattle.std.specs.Prelude.{ℕ, List};
    ghost use Rattle.worker_script.specs.Text.{tokens};
    ghost use Rattle.worker_script.specs.Line.{IsLine};

    ghost Value = { List (List ℕ) };

    ghost view = { λ line. tokens line.text.now };

    ghost invariant = { λ line. IsLine (tokens line.text.now) line.count line.first line.last.now };
}

impl<'a> Line<'a> {
    /// Takes time linear in the text, and no memory.
    pub fn new(text: &'a [u8]) -> Line<'a>
        ensures { result ≡ tokens text.now }
    {
        let (none, _) = text.split_at(0);
        let mut count = 0;
        let mut first = [none; 9];
        let mut last = none;
        let mut rest = text;
        while !rest.is_empty() {
            let (part, after) = first_part(b' ', rest);
            rest = after;
            if part.is_empty() {
                continue;
            }
            if count < 9 {
                first[count] = part;
            }
            last = part;
            count += 1;
        }
        Line {
            text,
            count,
            first,
            last,
        }
    }

    /// How many tokens the line has.
    pub fn len(&self) -> usize
        ensures { result ≡ length self.now }
    {
        self.count
    }

    /// The token with this index, or nothing.
    pub fn token(&self, index: usize) -> &'a [u8]
        requires { index < 9 }
        ensures { result.now ≡ token index self.now }
    {
        self.first[index]
    }

    /// The last token, or nothing.
    pub fn last(&self) -> &'a [u8]
        ensures { result.now ≡ last_token self.now }
    {
        self.last
    }
}
