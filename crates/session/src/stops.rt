// What stopped a play, and what that is for a portion.
ghost use Rattle.std.specs.Prelude.{◌≡◌, eqb};
ghost use Rattle.replay_rules.specs.Play.{end_code};
ghost use Rattle.session_rules.specs.Portion.{stop_for};

use replay_rules::play::Stop as PlayStop;
use session_rules::session::Stop;

// No record stands there.
pub(crate) fn is_unread(stop: Option<PlayStop>) -> bool
    ensures { result ≡ eqb (end_code stop) 7 }
{
    stop == Some(PlayStop::Record)
}

// The next answer does not fit.
pub(crate) fn is_full(stop: Option<PlayStop>) -> bool
    ensures { result ≡ eqb (end_code stop) 8 }
{
    stop == Some(PlayStop::Room)
}

pub(crate) fn is_end(stop: Option<PlayStop>) -> bool
    ensures { result ≡ eqb (end_code stop) 0 }
{
    stop.is_none()
}

// By cases, as a From would be.
pub(crate) fn for_portion(stop: Option<PlayStop>) -> Option<Stop>
    ensures { result ≡ stop_for stop }
{
    match stop {
        Some(PlayStop::Record) => Some(Stop::Record),
        Some(PlayStop::Room) => Some(Stop::Room),
        None => None,
    }
}
