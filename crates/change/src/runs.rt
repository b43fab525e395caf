// Document 01, Status, ALERT, THERM: the run count and the number it needs.
ghost use Rattle.std.specs.Prelude.{◌≡◌, cond, ◌+◌, ◌≤◌, leb};
ghost use Rattle.rules.specs.Write.{any_fault};
ghost use Rattle.rules.specs.Runs.{runs_of, needed_of};

use channel::compare::fault;
use parts::channels::channel_at;
use rules::register::Channel;
use rules::state::State;

pub fn any_fault(s: State) -> bool
    ensures { result ≡ any_fault s }
{
    fault(channel_at(s, Channel::Local)) | fault(channel_at(s, Channel::Remote))
}

// One more, held at 4, where there was a fault.
pub fn counted(runs: u8, fault: bool) -> u8
    ensures { result ≡ runs_of runs fault }
{
    if fault {
        runs.saturating_add(1).min(4)
    } else {
        0
    }
}

// One bit and the ones that follow it: a bit that is not set ends them.
fn ones(set: bool, more: u8) -> u8
    requires { more ≤ 2 }
    ensures value { result ≡ cond set (1 + more) 0 }
    ensures upper_bound { result ≤ 1 + more }
{
    if set { 1 + more } else { 0 }
}

#[tactic(auto, unfolding(rules::specs::Runs::needed_of))]
fn needed(consecutive: u8) -> u8
    ensures { result ≡ needed_of consecutive }
{
    1 + ones(
        consecutive / 2 % 2 == 1,
        ones(consecutive / 4 % 2 == 1, ones(consecutive / 8 % 2 == 1, 0)),
    )
}

pub fn reached(runs: u8, consecutive: u8) -> bool
    ensures { result ≡ leb (needed_of consecutive) runs }
{
    needed(consecutive) <= runs
}
