ghost use Rattle.std.specs.Prelude.{◌≡◌};
ghost use Rattle.worker_script.specs.Calls.{begins_stop, has_stop, call_length};
ghost use Rattle.worker_script.specs.Operands.{known_stop, stop_in, point_of, is_unknown};

use crate::line::Line;
use crate::word::stop_of;
use sid_core::Point;

/// The stop of a call line.
#[derive(Clone, Copy)]
pub(crate) enum Stop {
    Absent,
    At(Point),
    Unknown,
}

impl Stop {
    pub fn point(self) -> Option<Point>
        ensures { result ≡ point_of self }
    {
        match self {
            Stop::At(point) => Some(point),
            _ => None,
        }
    }

    pub fn is_unknown(self) -> bool
        ensures { result ≡ is_unknown self }
    {
        match self {
            Stop::Unknown => true,
            _ => false,
        }
    }
}

// Whether a token begins with `!`.
fn begins_stop(token: &[u8]) -> bool
    ensures { result ≡ begins_stop token.now }
{
    match token {
        [] => false,
        [first, ..] => *first == b'!',
    }
}

fn known_stop(point: Option<Point>) -> Stop
    ensures { result ≡ known_stop point }
{
    match point {
        Some(point) => Stop::At(point),
        None => Stop::Unknown,
    }
}

/// How many tokens a call line has without its stop, and the stop.
#[tactic(auto, unfolding(crate::specs::Calls::call_length, crate::specs::Calls::has_stop))]
pub(crate) fn split_stop(line: &Line<'_>) -> (usize, Stop)
    ensures count { result.0 ≡ call_length line.now }
    ensures stop { result.1 ≡ stop_in line.now }
{
    let count = line.len();
    if 2 <= count && begins_stop(line.last()) {
        (count - 1, known_stop(stop_of(line.last())))
    } else {
        (count, Stop::Absent)
    }
}
