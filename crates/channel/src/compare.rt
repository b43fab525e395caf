// Document 01, Comparisons: high, low, THERM and THERM2 of one channel, with its limits in its own codes.
ghost use Rattle.std.specs.Prelude.{◌≡◌};
ghost use Rattle.rules.specs.Comparisons.{comparator_of, verdict_of, compared_of, recompared_of, fault_of};

use rules::state::{ChannelState, Limits, Mark};

// The difference of the limit and the hysteresis is not under 0.
fn comparator(limit: u16, hysteresis: u16, value: u16, was: bool) -> bool
    ensures { result ≡ comparator_of limit hysteresis value was }
{
    if limit < value {
        true
    } else if value <= limit.saturating_sub(hysteresis) {
        false
    } else {
        was
    }
}

pub fn verdict(mark: Mark, fault: bool) -> Mark
    ensures { result ≡ verdict_of mark fault }
{
    Mark {
        found: fault,
        flag: mark.flag | fault,
    }
}

#[tactic(auto, unfolding(rules::specs::Comparisons::compared_of))]
pub fn compared(l: Limits, c: ChannelState) -> ChannelState
    ensures { result ≡ compared_of l c }
{
    ChannelState {
        high: verdict(c.high, l.high < c.value),
        low: verdict(c.low, c.value <= l.low),
        therm: comparator(l.therm, l.hysteresis, c.value, c.therm),
        therm2: comparator(l.high, l.hysteresis, c.value, c.therm2),
        ..c
    }
}

// A comparison in standby, of a channel converted since power-on.
pub fn recompared(l: Limits, c: ChannelState) -> ChannelState
    ensures { result ≡ recompared_of l c }
{
    if c.converted { compared(l, c) } else { c }
}

pub fn fault(c: ChannelState) -> bool
    ensures { result ≡ fault_of c }
{
    c.converted & (c.high.found | c.low.found)
}
