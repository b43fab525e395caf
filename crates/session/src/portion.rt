// One portion of a trace.
ghost use Rattle.std.specs.Prelude.{cond, ◌||◌, ◌≡◌, ◌+◌, ◌<◌, length};
ghost use Rattle.session_rules.specs.Portion.{FedBy, fed_code, refusal_of};
ghost use Rattle.session_rules.specs.Session.{padded};

use crate::joined::play_joined;
use crate::session::is_session;
use crate::stops::{for_portion, is_end, is_unread};
use crate::window::{is_part, packed, window_at};
use replay_rules::play::{LONGEST_TRACE, Played};
use session_rules::session::{Fed, Session, Stop};

// 6, 9, 7 or 2, in this order; none where the portion is looked at.
#[tactic(auto, unfolding(session_rules::specs::Portion::refusal_of))]
pub fn refused_with(s: Session, size: usize) -> Option<Stop>
    ensures { result ≡ refusal_of s size }
{
    if !is_session(s) {
        return Some(Stop::NoSession);
    }
    if s.ended & (0 < size) {
        return Some(Stop::Ended);
    }
    if s.stopped {
        return Some(Stop::Record);
    }
    if LONGEST_TRACE < size {
        return Some(Stop::TooLong);
    }
    if LONGEST_TRACE < s.used + s.count + size {
        return Some(Stop::TooLong);
    }
    None
}

// The session behind a play. The sums are of a session and of a play over a portion that it takes, so none is too large.
fn moved(s: Session, p: Played, ended: bool, stopped: bool, rest: &[u8]) -> Session
    requires records_bound { s.records + p.records < 18446744073709551616 }
    requires used_bound { s.used + p.used < 18446744073709551616 }
    requires written_bound { s.written + p.written < 18446744073709551616 }
    ensures { result ≡ record { chip = p.state; records = s.records + p.records; used = s.used + p.used; written = s.written + p.written; ended = s.ended || ended; stopped = stopped; count = length rest.now; carried = padded rest.now } }
{
    Session {
        chip: p.state,
        records: s.records + p.records,
        used: s.used + p.used,
        written: s.written + p.written,
        ended: s.ended | ended,
        stopped,
        count: rest.len(),
        carried: packed(rest),
    }
}

fn stop_if(late: bool) -> Option<Stop>
    ensures { fed_code result ≡ cond late 7 0 }
{
    late.then_some(Stop::Record)
}

// A record that is partial is code 7 only at the end; one that is bad, and one whose answer does not fit, stop the portion before them.
pub fn feed(s: Session, portion: &[u8], end: bool, out: &mut [u8]) -> Fed
    ensures { FedBy s portion.now end out.old out.new result }
{
    if let Some(stop) = refused_with(s, portion.len()) {
        return Fed {
            stop: Some(stop),
            taken: 0,
            written: 0,
            session: s,
        };
    }
    let carried = &s.carried[..s.count];
    let p = play_joined(s.chip, carried, portion, out);
    let w = window_at(carried, portion, p.used);
    let seen = &w.bytes[..w.count];
    let waiting = is_unread(p.stop) & is_part(seen);
    if waiting | is_end(p.stop) {
        let late = waiting & end;
        return Fed {
            stop: stop_if(late),
            taken: portion.len(),
            written: p.written,
            session: moved(s, p, end, late, seen),
        };
    }
    let m = p.used.min(s.count);
    Fed {
        stop: for_portion(p.stop),
        taken: p.used - m,
        written: p.written,
        session: moved(s, p, false, is_unread(p.stop), &s.carried[m..s.count]),
    }
}
