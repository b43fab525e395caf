// A channel is taken out of a state as a value, and put back field by field. Where the channel is known at a call, so are the fields: the
// compiler lays the function in.
ghost use Rattle.std.specs.Prelude.{◌≡◌};
ghost use Rattle.rules.specs.State as rule;

use rules::register::Channel;
use rules::state::{ChannelState, Mark, State};

#[inline(always)]
pub fn channel_at(s: State, channel: Channel) -> ChannelState
    ensures { result ≡ rule.channel_at s channel }
{
    match channel {
        Channel::Local => ChannelState {
            value: s.localvalue,
            converted: s.localconverted,
            high: Mark {
                found: s.localhighfound,
                flag: s.localhighflag,
            },
            low: Mark {
                found: s.locallowfound,
                flag: s.locallowflag,
            },
            diode: Mark {
                found: s.localdiodefound,
                flag: s.localdiodeflag,
            },
            therm: s.localthermflag,
            therm2: s.localtherm2mark,
        },
        Channel::Remote => ChannelState {
            value: s.remotevalue,
            converted: s.remoteconverted,
            high: Mark {
                found: s.remotehighfound,
                flag: s.remotehighflag,
            },
            low: Mark {
                found: s.remotelowfound,
                flag: s.remotelowflag,
            },
            diode: Mark {
                found: s.remotediodefound,
                flag: s.remotediodeflag,
            },
            therm: s.remotethermflag,
            therm2: s.remotetherm2mark,
        },
    }
}

#[inline(always)]
pub fn with_channel(s: State, channel: Channel, c: ChannelState) -> State
    ensures { result ≡ rule.with_channel s channel c }
{
    match channel {
        Channel::Local => State {
            localvalue: c.value,
            localconverted: c.converted,
            localhighfound: c.high.found,
            localhighflag: c.high.flag,
            locallowfound: c.low.found,
            locallowflag: c.low.flag,
            localdiodefound: c.diode.found,
            localdiodeflag: c.diode.flag,
            localthermflag: c.therm,
            localtherm2mark: c.therm2,
            ..s
        },
        Channel::Remote => State {
            remotevalue: c.value,
            remoteconverted: c.converted,
            remotehighfound: c.high.found,
            remotehighflag: c.high.flag,
            remotelowfound: c.low.found,
            remotelowflag: c.low.flag,
            remotediodefound: c.diode.found,
            remotediodeflag: c.diode.flag,
            remotethermflag: c.therm,
            remotetherm2mark: c.therm2,
            ..s
        },
    }
}
