// One channel's part of a conversion.
ghost use Rattle.std.specs.Prelude.{◌≡◌, true, false};
ghost use Rattle.rules.specs.Comparisons.{diode_of};
ghost use Rattle.rules.specs.Conversion.{measured_of, converted_of};

use crate::compare::{compared, verdict};
use rules::state::{ChannelState, Limits};

fn measured(code: u16, c: ChannelState) -> ChannelState
    ensures { result ≡ measured_of code c }
{
    ChannelState {
        value: code,
        converted: true,
        ..c
    }
}

fn checked(broken: bool, c: ChannelState) -> ChannelState
    ensures { result ≡ diode_of broken c }
{
    ChannelState {
        diode: verdict(c.diode, broken),
        ..c
    }
}

// The channel's part of a conversion that compares it: its diode is not open.
#[tactic(auto, unfolding(rules::specs::Conversion::converted_of, rules::specs::Conversion::taken_of))]
pub fn converted(l: Limits, code: u16, c: ChannelState) -> ChannelState
    ensures { result ≡ converted_of l code true false c }
{
    checked(false, compared(l, measured(code, c)))
}

// Its part of one that an open diode keeps from it, whatever was measured: only the diode is checked.
pub fn held(c: ChannelState) -> ChannelState
    ensures { result ≡ diode_of true c }
{
    checked(true, c)
}
