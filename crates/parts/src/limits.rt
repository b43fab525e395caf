// Document 01, Comparisons: what each channel is compared with, in its own codes.
ghost use Rattle.std.specs.Prelude.{◌≡◌};
ghost use Rattle.rules.specs.Comparisons.{limit_of, limits_of};
ghost use Rattle.rules.specs.State.{stored_of};

use rules::register::Channel;
use rules::state::{Limits, State};

// A byte of degrees and a low byte, in quarters.
fn quarters(high: u8, fine: u8) -> u16
    ensures { result ≡ limit_of 4 high fine }
{
    (high as u16) * 4 + (fine as u16) / 64
}

#[inline(always)]
pub fn limits(s: State, channel: Channel) -> Limits
    ensures { result ≡ limits_of (stored_of s) channel }
{
    match channel {
        Channel::Local => Limits {
            high: s.localhigh as u16,
            low: s.locallow as u16,
            therm: s.localtherm as u16,
            hysteresis: s.hysteresis as u16,
        },
        Channel::Remote => Limits {
            high: quarters(s.remotehigh, s.remotehighfine),
            low: quarters(s.remotelow, s.remotelowfine),
            therm: quarters(s.remotetherm, 0),
            hysteresis: 4 * (s.hysteresis as u16),
        },
    }
}
