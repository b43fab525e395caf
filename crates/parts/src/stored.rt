// Document 01, Registers: the registers that are written and read back.
ghost use Rattle.std.specs.Prelude.{◌≡◌};
ghost use Rattle.rules.specs.State.{stored_of, with_stored};

use rules::register::Register;
use rules::state::State;

pub fn stored(s: State, register: Register) -> u8
    ensures { result ≡ stored_of s register }
{
    match register {
        Register::Config => s.config,
        Register::Rate => s.rate,
        Register::Hysteresis => s.hysteresis,
        Register::Consecutive => s.consecutive,
        Register::LocalHigh => s.localhigh,
        Register::LocalLow => s.locallow,
        Register::LocalTherm => s.localtherm,
        Register::RemoteHigh => s.remotehigh,
        Register::RemoteHighFine => s.remotehighfine,
        Register::RemoteLow => s.remotelow,
        Register::RemoteLowFine => s.remotelowfine,
        Register::RemoteOffset => s.remoteoffset,
        Register::RemoteOffsetFine => s.remoteoffsetfine,
        Register::RemoteTherm => s.remotetherm,
    }
}

// One field anew, the others as they were.
pub fn with_stored(s: State, register: Register, b: u8) -> State
    ensures { result ≡ with_stored s register b }
{
    match register {
        Register::Config => State { config: b, ..s },
        Register::Rate => State { rate: b, ..s },
        Register::Hysteresis => State { hysteresis: b, ..s },
        Register::Consecutive => State {
            consecutive: b,
            ..s
        },
        Register::LocalHigh => State { localhigh: b, ..s },
        Register::LocalLow => State { locallow: b, ..s },
        Register::LocalTherm => State { localtherm: b, ..s },
        Register::RemoteHigh => State { remotehigh: b, ..s },
        Register::RemoteHighFine => State {
            remotehighfine: b,
            ..s
        },
        Register::RemoteLow => State { remotelow: b, ..s },
        Register::RemoteLowFine => State {
            remotelowfine: b,
            ..s
        },
        Register::RemoteOffset => State {
            remoteoffset: b,
            ..s
        },
        Register::RemoteOffsetFine => State {
            remoteoffsetfine: b,
            ..s
        },
        Register::RemoteTherm => State {
            remotetherm: b,
            ..s
        },
    }
}
