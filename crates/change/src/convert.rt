// Document 01, Comparisons and Status: what the end of a conversion does.
ghost use Rattle.std.specs.Prelude.{◌≡◌};
ghost use Rattle.rules.specs.Channels.{broken_at, byte_of, compared_in, fine_of, sample_at, traits};
ghost use Rattle.rules.specs.Conversion.{all_converted, code_for, converted_of, found_in, latched_by_conversion};
ghost use Rattle.rules.specs.Conversion as rule;
ghost use Rattle.rules.specs.Comparisons.{limits_of};
ghost use Rattle.rules.specs.State.{channel_at, stored_of, with_channel};
ghost use Rattle.rules.specs.Values.{offset_of};

use crate::runs::{counted, reached};
use channel::compare::fault;
use channel::convert::held;
use parts::channels::{channel_at, with_channel};
use parts::limits::limits;
use registers::bits::is_extended;
use rules::event::Samples;
use rules::register::Channel;
use rules::state::State;

// What is added to a channel's samples, in quarters: the local channel has no offset.
fn offset_at(s: State, channel: Channel) -> i16
    ensures { result ≡ offset_of (byte_of (stored_of s) (traits channel).offset) (fine_of (stored_of s) (traits channel).offset) }
{
    match channel {
        Channel::Local => values::offset(0, 0),
        Channel::Remote => values::offset(s.remoteoffset, s.remoteoffsetfine),
    }
}

#[tactic(auto, unfolding(rules::specs::Conversion::code_for))]
fn code_for(s: State, channel: Channel, sample: i16) -> u16
    ensures { result ≡ code_for (stored_of s) channel sample }
{
    values::code(
        channel,
        is_extended(s.config),
        offset_at(s, channel),
        sample,
    )
}

fn sample_at(t: Samples, channel: Channel) -> i16
    ensures { result ≡ sample_at t channel }
{
    match channel {
        Channel::Local => t.local,
        Channel::Remote => t.remote,
    }
}

// Whether the conversion compares a channel: an open diode holds back its own.
fn compared_in(t: Samples, channel: Channel) -> bool
    ensures { result ≡ compared_in t channel }
{
    match channel {
        Channel::Local => true,
        Channel::Remote => !t.broken,
    }
}

// One channel's part of a conversion that began at s, put into a state. The test stands around the whole state, and is laid in where the
// channel is known: inside the channel it costs every record (docs/BENCHMARK.md).
#[inline(always)]
#[tactic(auto, unfolding(rules::specs::Conversion::converted_of, rules::specs::Conversion::taken_of))]
fn with_converted(into: State, s: State, t: Samples, channel: Channel) -> State
    ensures { result ≡ with_channel into channel (converted_of (limits_of (stored_of s) channel) (code_for (stored_of s) channel (sample_at t channel)) (compared_in t channel) (broken_at t channel) (channel_at s channel)) }
{
    if compared_in(t, channel) {
        let code = code_for(s, channel, sample_at(t, channel));
        let after = channel::convert::converted(limits(s, channel), code, channel_at(s, channel));
        with_channel(into, channel, after)
    } else {
        with_channel(into, channel, held(channel_at(s, channel)))
    }
}

fn all_converted(s: State, t: Samples) -> State
    ensures { result ≡ all_converted s t }
{
    with_converted(
        with_converted(s, s, t, Channel::Local),
        s,
        t,
        Channel::Remote,
    )
}

// A verdict that stands from an earlier conversion is no fault found in this one.
fn found_in(t: Samples, s: State) -> bool
    ensures { result ≡ found_in t s }
{
    (compared_in(t, Channel::Local) & fault(channel_at(s, Channel::Local)))
        | (compared_in(t, Channel::Remote) & fault(channel_at(s, Channel::Remote)))
}

fn run_counted(t: Samples, s: State) -> State
    ensures { result ≡ rule.counted t s }
{
    State {
        runs: counted(s.runs, found_in(t, s)),
        ..s
    }
}

fn latched(t: Samples, s: State) -> State
    ensures { result ≡ latched_by_conversion t s }
{
    State {
        latch: (s.latch | t.broken) | reached(s.runs, s.consecutive),
        ..s
    }
}

#[tactic(auto, unfolding(rules::specs::Conversion::converted))]
pub fn converted(s: State, t: Samples) -> State
    ensures { result ≡ rule.converted s t }
{
    let after = latched(t, run_counted(t, all_converted(s, t)));
    State {
        busy: false,
        ..after
    }
}
