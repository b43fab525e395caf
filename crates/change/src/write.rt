// Document 01, Registers and Comparisons: what a write byte does.
ghost use Rattle.std.specs.Prelude.{◌≡◌, ◌||◌};
ghost use Rattle.rules.specs.Comparisons.{limits_of, recompared_of};
ghost use Rattle.rules.specs.State.{channel_at, stored_of, with_pointer};
ghost use Rattle.rules.specs.Write.{all_recompared, latched_by_faults, standby_compared, compared_if, stopped_if, one_shot, written_to};
ghost use Rattle.rules.specs.Write as rule;

use crate::runs::any_fault;
use channel::compare::recompared;
use parts::channels::{channel_at, with_channel};
use parts::limits::limits;
use parts::stored::with_stored;
use registers::bits::is_standby;
use registers::command::target;
use registers::row::{compares, trim};
use rules::register::{Channel, Register, Target};
use rules::state::{ChannelState, State};

fn channel_recompared(s: State, channel: Channel) -> ChannelState
    ensures { result ≡ recompared_of (limits_of (stored_of s) channel) (channel_at s channel) }
{
    recompared(limits(s, channel), channel_at(s, channel))
}

fn all_recompared(s: State) -> State
    ensures { result ≡ all_recompared s }
{
    let local = channel_recompared(s, Channel::Local);
    let remote = channel_recompared(s, Channel::Remote);
    with_channel(
        with_channel(s, Channel::Local, local),
        Channel::Remote,
        remote,
    )
}

// The latch does not wait for the run count.
fn latch_after(s: State, found: bool) -> bool
    ensures { result ≡ (s.latch || found) }
{
    s.latch | found
}

fn latched_by_faults(s: State) -> State
    ensures { result ≡ latched_by_faults s }
{
    State {
        latch: latch_after(s, any_fault(s)),
        ..s
    }
}

#[tactic(auto, unfolding(rules::specs::Write::standby_compared))]
fn standby_compared(s: State) -> State
    ensures { result ≡ standby_compared s }
{
    latched_by_faults(all_recompared(s))
}

fn compared_if(writes: bool, s: State) -> State
    ensures { result ≡ compared_if writes s }
{
    if writes & is_standby(s.config) {
        standby_compared(s)
    } else {
        s
    }
}

// A running conversion ends with no result where the write began standby.
fn stopped_if(was: u8, s: State) -> State
    ensures { result ≡ stopped_if was s }
{
    if !is_standby(was) & is_standby(s.config) {
        State { busy: false, ..s }
    } else {
        s
    }
}

#[tactic(auto, unfolding(rules::specs::Write::stored))]
fn stored(s: State, register: Register, b: u8) -> State
    ensures { result ≡ rule.stored s register b }
{
    compared_if(
        compares(register),
        stopped_if(s.config, with_stored(s, register, trim(register, b))),
    )
}

fn one_shot(s: State) -> State
    ensures { result ≡ one_shot s }
{
    if is_standby(s.config) & !s.busy {
        State { busy: true, ..s }
    } else {
        s
    }
}

fn written_to(s: State, to: Target, b: u8) -> State
    ensures { result ≡ written_to s to b }
{
    match to {
        Target::Stored(register) => stored(s, register, b),
        Target::OneShot => one_shot(s),
        Target::Nowhere => s,
    }
}

pub fn pointed(s: State, command: u8) -> State
    ensures { result ≡ with_pointer s command }
{
    State {
        pointer: command,
        ..s
    }
}

#[tactic(auto, unfolding(rules::specs::Write::written))]
pub fn written(s: State, command: u8, b: u8) -> State
    ensures { result ≡ rule.written s command b }
{
    written_to(pointed(s, command), target(command), b)
}
