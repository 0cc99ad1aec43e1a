ghost use Rattle.std.specs.Prelude.{◌≡◌};
ghost use Rattle.worker_script.specs.Words.{wait_of, on_of, stop_of};

use sid_core::Point;

/// Whether a call waits.
#[tactic(auto, unfolding(crate::specs::Words::wait_of))]
pub(crate) fn wait_of(token: &[u8]) -> Option<bool>
    ensures { result ≡ wait_of token.now }
{
    if token == b"now".as_slice() {
        Some(false)
    } else if token == b"wait".as_slice() {
        Some(true)
    } else {
        None
    }
}

/// Whether a file is to go, or to stay.
#[tactic(auto, unfolding(crate::specs::Words::on_of))]
pub(crate) fn on_of(token: &[u8]) -> Option<bool>
    ensures { result ≡ on_of token.now }
{
    if token == b"off".as_slice() {
        Some(false)
    } else if token == b"on".as_slice() {
        Some(true)
    } else {
        None
    }
}

/// The point at which a worker dies.
#[tactic(auto, unfolding(crate::specs::Words::stop_of))]
pub(crate) fn stop_of(token: &[u8]) -> Option<Point>
    ensures { result ≡ stop_of token.now }
{
    if token == b"!take".as_slice() {
        Some(Point::Take)
    } else if token == b"!intent".as_slice() {
        Some(Point::Intent)
    } else if token == b"!commit".as_slice() {
        Some(Point::Commit)
    } else if token == b"!store".as_slice() {
        Some(Point::Store)
    } else if token == b"!release".as_slice() {
        Some(Point::Release)
    } else {
        None
    }
}
