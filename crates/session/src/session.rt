// Which sessions there are, and how one is opened.
ghost use Rattle.std.specs.Prelude.{◌≡◌, ◌&&◌, leb, take};
ghost use Rattle.saved_rules.specs.Layout.{same_bytes};
ghost use Rattle.session_rules.specs.Session.{carried_fits, counts_fit, end_fits, is_session, opened_of, padded, partial};

use crate::window::{is_part, packed};
use replay_rules::play::LONGEST_TRACE;
use saved::save::same;
use session_rules::session::{Opened, Session};
use text_rules::sizes::{LONGEST_ANSWER, LONGEST_RECORD, SHORTEST_ANSWER, SHORTEST_RECORD};

#[tactic(auto, unfolding(session_rules::specs::Session::opened_of))]
pub fn open(address: i32) -> Opened
    ensures { result ≡ opened_of address }
{
    let made = chip::fresh(address);
    let session = Session {
        chip: made.state,
        records: 0,
        used: 0,
        written: 0,
        ended: false,
        stopped: false,
        count: 0,
        carried: [0u8; 38],
    };
    Opened {
        code: made.code,
        session,
    }
}

// Bounds first, so that no product is too large.
fn counts_fit(s: Session) -> bool
    ensures { result ≡ counts_fit s }
{
    if (LONGEST_TRACE < s.used) | (LONGEST_TRACE < s.count) | (s.used < s.records) {
        return false;
    }
    (SHORTEST_RECORD * s.records <= s.used)
        & (s.used <= LONGEST_RECORD * s.records)
        & (SHORTEST_ANSWER * s.records <= s.written)
        & (s.written <= LONGEST_ANSWER * s.records)
        & (s.used + s.count <= LONGEST_TRACE)
}

// The first count bytes are a part, and 0 stands behind it. No more are looked at than there are, so that nothing is asked of a caller.
fn part_fits(all: &[u8], count: usize) -> bool
    ensures { result ≡ leb count 38 && same_bytes (padded (take count all.now)) all.now && partial (take count all.now) }
{
    if 38 < count {
        return false;
    }
    let n = count.min(all.len());
    let kept = packed(&all[..n]);
    same(&kept, all) & is_part(&all[..n])
}

fn carried_fits(s: Session) -> bool
    ensures { result ≡ carried_fits s }
{
    part_fits(&s.carried, s.count)
}

fn end_fits(s: Session) -> bool
    ensures { result ≡ end_fits s }
{
    if s.ended {
        if s.stopped { 0 < s.count } else { s.count == 0 }
    } else {
        true
    }
}

#[tactic(auto, unfolding(session_rules::specs::Session::is_session))]
pub fn is_session(s: Session) -> bool
    ensures { result ≡ is_session s }
{
    judge::well_formed(s.chip) & counts_fit(s) & carried_fits(s) & end_fits(s)
}
