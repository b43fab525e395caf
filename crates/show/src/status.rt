// Document 01, Status: the status byte, what its read leaves, and whether a latched flag stands.
ghost use Rattle.std.specs.Prelude.{◌≡◌, ◌≤◌};
ghost use Rattle.rules.specs.Bits.{weight};
ghost use Rattle.rules.specs.Status.{status_of, after_status, any_flag};

use rules::state::State;

fn weigh(set: bool, n: u8) -> u8
    ensures value { result ≡ weight set n }
    ensures upper_bound { result ≤ n }
{
    if set { n } else { 0 }
}

#[tactic(auto, unfolding(rules::specs::Status::status_of))]
pub fn status(s: State) -> u8
    ensures { result ≡ status_of s }
{
    weigh(s.busy, 128)
        + weigh(s.localhighflag, 64)
        + weigh(s.locallowflag, 32)
        + weigh(s.remotehighflag, 16)
        + weigh(s.remotelowflag, 8)
        + weigh(s.remotediodeflag, 4)
        + weigh(s.remotethermflag, 2)
        + weigh(s.localthermflag, 1)
}

#[tactic(auto, unfolding(rules::specs::Status::after_status))]
pub fn after_status(s: State) -> State
    ensures { result ≡ after_status s }
{
    State {
        localhighflag: s.localhighflag & s.localhighfound,
        locallowflag: s.locallowflag & s.locallowfound,
        localdiodeflag: s.localdiodeflag & s.localdiodefound,
        remotehighflag: s.remotehighflag & s.remotehighfound,
        remotelowflag: s.remotelowflag & s.remotelowfound,
        remotediodeflag: s.remotediodeflag & s.remotediodefound,
        ..s
    }
}

pub fn any_flag(s: State) -> bool
    ensures { result ≡ any_flag s }
{
    s.localhighflag | s.locallowflag | s.remotehighflag | s.remotelowflag | s.remotediodeflag
}
